//! Cuts that a reducer sends: those of exactly the marks that an event first reached, at that event.
//!
//! Four records of a run make progress by 2,500 each. The marks are 2,000, 2,500, 5,000 and 10,000.
ghost use Rattle.std.specs.Prelude.{◌≡◌, [], IfOk};
ghost use Rattle.hop_base.specs.Run.{no_lines};
ghost use Rattle.hop_jobs.specs.Wc.{wc_meaning};
ghost use Rattle.hop_mapper.specs.Mappers.{settings_of};
ghost use Rattle.hop_actor_tests.specs.Benches.{IsGiven};
ghost use Rattle.hop_actor_tests.specs.Runs.{narrow_records, first_script, four_marks, tentative_settings, committed_settings, falling_settings};

use crate::bench::{Bench, Given, folders, read_given, settings};
use crate::runs::take_turns;
use hop_base::{Marks, RunName};
use std::alloc::Global;
use std::test::Fail;

// A run of one split, in which what is tentative counts.
struct Tentative;

impl RunName for Tentative {
    ghost use Rattle.std.specs.Prelude.{true, None};
    ghost use Rattle.hop_jobs.specs.Wc.{wc_meaning};
    ghost use Rattle.hop_base.specs.Run.{no_lines};
    ghost use Rattle.hop_actor_tests.specs.Runs.{narrow_records, tentative_settings, no_files};

    ghost job = { wc_meaning };

    ghost records = { narrow_records };

    ghost script = { no_lines };

    ghost settings = { tentative_settings };

    ghost tells = { true };

    ghost folder = { None };

    ghost spills = { no_files };
}

// A run of two splits, in which winners alone count.
struct Committed;

impl RunName for Committed {
    ghost use Rattle.std.specs.Prelude.{true, None};
    ghost use Rattle.hop_jobs.specs.Wc.{wc_meaning};
    ghost use Rattle.hop_base.specs.Run.{no_lines};
    ghost use Rattle.hop_actor_tests.specs.Runs.{narrow_records, committed_settings, no_files};

    ghost job = { wc_meaning };

    ghost records = { narrow_records };

    ghost script = { no_lines };

    ghost settings = { committed_settings };

    ghost tells = { true };

    ghost folder = { None };

    ghost spills = { no_files };
}

// A run of two splits, in which what is tentative counts. The reducer restarts after its first arrival.
struct Falling;

impl RunName for Falling {
    ghost use Rattle.std.specs.Prelude.{true, None};
    ghost use Rattle.hop_jobs.specs.Wc.{wc_meaning};
    ghost use Rattle.hop_actor_tests.specs.Runs.{narrow_records, first_script, falling_settings, no_files};

    ghost job = { wc_meaning };

    ghost records = { narrow_records };

    ghost script = { first_script };

    ghost settings = { falling_settings };

    ghost tells = { true };

    ghost folder = { None };

    ghost spills = { no_files };
}

fn marks(alloc: Global) -> Result<Marks, Fail>
    ensures { IfOk result (λ marks. marks ≡ four_marks) }
{
    let mut marks = Marks::new(alloc);
    marks.push(2000)?;
    marks.push(2500)?;
    marks.push(5000)?;
    marks.push(10000)?;
    Ok(marks)
}

fn tentative_run(alloc: Global) -> Result<Given, Fail>
    ensures { IfOk result (λ g. IsGiven wc_meaning narrow_records no_lines tentative_settings g.book g.lens g.script g.settings) }
{
    let mut own = settings(alloc);
    own.split = 4;
    own.lane = 64;
    own.tentative = true;
    own.marks = marks(alloc)?;
    read_given::<Tentative>(alloc, b"a\nb\nc\nd\n", b"", own)
}

fn committed_run(alloc: Global) -> Result<Given, Fail>
    ensures { IfOk result (λ g. IsGiven wc_meaning narrow_records no_lines committed_settings g.book g.lens g.script g.settings) }
{
    let mut own = settings(alloc);
    own.split = 2;
    own.lane = 64;
    own.marks = marks(alloc)?;
    read_given::<Committed>(alloc, b"a\nb\nc\nd\n", b"", own)
}

fn falling_run(alloc: Global) -> Result<Given, Fail>
    ensures { IfOk result (λ g. IsGiven wc_meaning narrow_records first_script falling_settings g.book g.lens g.script g.settings) }
{
    let mut own = settings(alloc);
    own.split = 2;
    own.lane = 64;
    own.tentative = true;
    own.marks = marks(alloc)?;
    read_given::<Falling>(alloc, b"a\nb\nc\nd\n", b"restart 0 1\n", own)
}

// Two marks at the first record, and one at the second and at the last. None at the commit.
#[test]
fn a_record_cuts_the_marks_that_it_reaches(rt: HostRuntime) -> Result<(), Fail> {
    let alloc = rt.alloc();
    let given = tentative_run(alloc)?;
    let cuts = [(2000, 2500), (2500, 2500), (5000, 5000), (10000, 10000)];
    for (orders, count) in [
        (b"aaaaaa".as_slice(), 0),
        (b"aaaaaar".as_slice(), 2),
        (b"aaaaaarr".as_slice(), 3),
        (b"aaaaaarrr".as_slice(), 3),
        (b"aaaaaarrrr".as_slice(), 4),
        (b"aaaaaarrrrr".as_slice(), 4),
    ] {
        let folders = folders(alloc, 1, Vec::new(alloc))?;
        let mut bench = Bench::<Tentative>::with_marks(alloc, folders, &given)?;
        take_turns(alloc, &mut bench, orders)?;
        assert_eq!(rt; bench.into_cuts(alloc)?.as_slice(), &cuts[..count]);
    }
    Ok(())
}

// None at the arrivals, three at the first commit and one at the second.
#[test]
fn without_tentative_records_a_commit_cuts(rt: HostRuntime) -> Result<(), Fail> {
    let alloc = rt.alloc();
    let given = committed_run(alloc)?;
    let cuts = [(2000, 5000), (2500, 5000), (5000, 5000), (10000, 10000)];
    for (orders, count) in [
        (b"aaaaaaaarr".as_slice(), 0),
        (b"aaaaaaaarrr".as_slice(), 3),
        (b"aaaaaaaarrrrr".as_slice(), 3),
        (b"aaaaaaaarrrrrr".as_slice(), 4),
    ] {
        let folders = folders(alloc, 1, Vec::new(alloc))?;
        let mut bench = Bench::<Committed>::with_marks(alloc, folders, &given)?;
        take_turns(alloc, &mut bench, orders)?;
        assert_eq!(rt; bench.into_cuts(alloc)?.as_slice(), &cuts[..count]);
    }
    Ok(())
}

// The first arrival reaches two marks, and the restart falls below them. The record of the other split that reaches them again cuts neither; the one after it
// reaches the third mark first.
#[test]
fn a_mark_that_is_reached_again_is_not_cut_again(rt: HostRuntime) -> Result<(), Fail> {
    let alloc = rt.alloc();
    let given = falling_run(alloc)?;
    let cuts = [(2000, 2500), (2500, 2500), (5000, 5000)];
    for (orders, count) in [
        (b"aaaaaaaar".as_slice(), 2),
        (b"aaaaaaaarrrr".as_slice(), 2),
        (b"aaaaaaaarrrrr".as_slice(), 2),
        (b"aaaaaaaarrrrrr".as_slice(), 3),
        (b"aaaaaaaarrrrrrr".as_slice(), 3),
    ] {
        let folders = folders(alloc, 1, Vec::new(alloc))?;
        let mut bench = Bench::<Falling>::with_marks(alloc, folders, &given)?;
        take_turns(alloc, &mut bench, orders)?;
        assert_eq!(rt; bench.into_cuts(alloc)?.as_slice(), &cuts[..count]);
    }
    Ok(())
}
