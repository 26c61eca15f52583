//! Notices of attempts that failed, before and after the reducer knows who won their split.
//!
//! A mapper makes a notice once, after the verdict of its attempt, so an attempt that may still win has none. What can differ is what is known of
//! the split's winner when the reducer takes it: nobody committed yet; the board knows the winner, and the reducer doesn't; the reducer knows it
//! too. The reducer asks the board about the attempt that the notice names, so it records that this one is revoked, and never who won.
ghost use Rattle.std.specs.Prelude.{◌≡◌, IfOk};
ghost use Rattle.hop_jobs.specs.Wc.{wc_meaning};
ghost use Rattle.hop_mapper.specs.Mappers.{settings_of};
ghost use Rattle.hop_actor_tests.specs.Benches.{IsGiven};
ghost use Rattle.hop_actor_tests.specs.Runs.{backed_records, backed_settings, refused_script};

use crate::bench::{Bench, Given, folders, read_given, settings};
use crate::runs::{arrive, revoked, take_turns, won};
use hop_base::RunName;
use std::alloc::Global;
use std::test::Fail;

// A run whose first attempt fails at once, while a backup of it may run.
struct Refused;

impl RunName for Refused {
    ghost use Rattle.std.specs.Prelude.{true, None};
    ghost use Rattle.hop_jobs.specs.Wc.{wc_meaning};
    ghost use Rattle.hop_actor_tests.specs.Runs.{backed_records, backed_settings, refused_script, no_files};

    ghost job = { wc_meaning };

    ghost records = { backed_records };

    ghost script = { refused_script };

    ghost settings = { backed_settings };

    ghost tells = { true };

    ghost folder = { None };

    ghost spills = { no_files };
}

fn refused_run(alloc: Global) -> Result<Given, Fail>
    ensures { IfOk result (λ g. IsGiven wc_meaning backed_records refused_script backed_settings g.book g.lens g.script g.settings) }
{
    let mut own = settings(alloc);
    own.workers = 2;
    own.attempts = 2;
    own.lane = 64;
    own.backup = true;
    read_given::<Refused>(alloc, b"a\n", b"fail 0 0 0\n", own)
}

// The notice of the attempt that failed is taken before anyone committed, after the commit but before its notice, and after that.
#[test]
fn a_notice_tells_of_its_own_attempt(rt: HostRuntime) -> Result<(), Fail> {
    let alloc = rt.alloc();
    let given = refused_run(alloc)?;
    for (orders, answers, events) in [
        (
            b"abarbbrrr".as_slice(),
            b"wwwwwwwwi".as_slice(),
            [revoked(0, 0), arrive(1, 0, 1, 0, 1), won(0, 1)],
        ),
        (
            b"abbbarrrr".as_slice(),
            b"wwwwwwwwi".as_slice(),
            [revoked(0, 0), arrive(1, 0, 1, 0, 1), won(0, 1)],
        ),
        (
            b"abbbrarrr".as_slice(),
            b"wwwwwwwwi".as_slice(),
            [arrive(1, 0, 1, 0, 1), revoked(0, 0), won(0, 1)],
        ),
        (
            b"abbbrrarr".as_slice(),
            b"wwwwwwwwi".as_slice(),
            [arrive(1, 0, 1, 0, 1), won(0, 1), revoked(0, 0)],
        ),
    ] {
        let mut bench = Bench::<Refused>::new(alloc, folders(alloc, 2, Vec::new(alloc))?, &given)?;
        assert_eq!(rt; take_turns(alloc, &mut bench, orders)?.as_slice(), answers);
        let history = bench.into_history()?;
        assert_eq!(rt; history.events(), events.as_slice());
    }
    Ok(())
}
