//! Turns of mappers and of reducers, one after another.
ghost use Rattle.std.specs.Prelude.{◌≡◌, IfOk};
ghost use Rattle.hop_base.specs.Run.{no_lines};
ghost use Rattle.hop_jobs.specs.Wc.{wc_meaning};
ghost use Rattle.hop_mapper.specs.Mappers.{settings_of};
ghost use Rattle.hop_actor_tests.specs.Benches.{IsGiven};
ghost use Rattle.hop_actor_tests.specs.Runs.{failing_records, failing_script, failing_settings, backed_records, backed_settings, narrow_records, narrow_settings, restarting_records, first_script, second_script, restarting_settings};

use crate::bench::{Bench, Given, folders, read_given, settings};
use hop_actors::Turn;
use hop_base::{Part, RunName, Settings};
use hop_event::{Event, Via};
use std::alloc::Global;
use std::test::Fail;

// What a turn was answered, as a letter: w for Worked, i for Idle, e for Ended, f for Failed.
fn letter(turn: Turn) -> u8 {
    match turn {
        Turn::Worked => b'w',
        Turn::Idle => b'i',
        Turn::Ended => b'e',
        Turn::Failed(_) => b'f',
    }
}

// Turns in this order: a is one of mapper 0, b of mapper 1, and r of reducer 0. The answers, up to one that failed.
pub(crate) fn take_turns<N: RunName>(
    alloc: Global,
    bench: &mut Bench<N>,
    orders: &[u8],
) -> Result<Vec<u8>, Fail> {
    let mut letters = Vec::new(alloc);
    for order in orders {
        let turn = match *order {
            b'a' => bench.map(0)?,
            b'b' => bench.map(1)?,
            _ => bench.reduce(0)?,
        };
        letters.push(letter(turn))?;
        if matches!(turn, Turn::Failed(_)) {
            return Ok(letters);
        }
    }
    Ok(letters)
}

// A run in which attempts fail.
struct Failing;

impl RunName for Failing {
    ghost use Rattle.std.specs.Prelude.{true, None};
    ghost use Rattle.hop_jobs.specs.Wc.{wc_meaning};
    ghost use Rattle.hop_actor_tests.specs.Runs.{failing_records, failing_script, failing_settings, no_files};

    ghost job = { wc_meaning };

    ghost records = { failing_records };

    ghost script = { failing_script };

    ghost settings = { failing_settings };

    ghost tells = { true };

    ghost folder = { None };

    ghost spills = { no_files };
}

// A run with a backup attempt.
struct Backed;

impl RunName for Backed {
    ghost use Rattle.std.specs.Prelude.{true, None};
    ghost use Rattle.hop_jobs.specs.Wc.{wc_meaning};
    ghost use Rattle.hop_base.specs.Run.{no_lines};
    ghost use Rattle.hop_actor_tests.specs.Runs.{backed_records, backed_settings, no_files};

    ghost job = { wc_meaning };

    ghost records = { backed_records };

    ghost script = { no_lines };

    ghost settings = { backed_settings };

    ghost tells = { true };

    ghost folder = { None };

    ghost spills = { no_files };
}

// A run whose lanes have room for one message.
struct Narrow;

impl RunName for Narrow {
    ghost use Rattle.std.specs.Prelude.{true, None};
    ghost use Rattle.hop_jobs.specs.Wc.{wc_meaning};
    ghost use Rattle.hop_base.specs.Run.{no_lines};
    ghost use Rattle.hop_actor_tests.specs.Runs.{narrow_records, narrow_settings, no_files};

    ghost job = { wc_meaning };

    ghost records = { narrow_records };

    ghost script = { no_lines };

    ghost settings = { narrow_settings };

    ghost tells = { true };

    ghost folder = { None };

    ghost spills = { no_files };
}

// A run whose reducer restarts after its first arrival.
struct AfterFirst;

impl RunName for AfterFirst {
    ghost use Rattle.std.specs.Prelude.{true, None};
    ghost use Rattle.hop_jobs.specs.Wc.{wc_meaning};
    ghost use Rattle.hop_actor_tests.specs.Runs.{restarting_records, first_script, restarting_settings, no_files};

    ghost job = { wc_meaning };

    ghost records = { restarting_records };

    ghost script = { first_script };

    ghost settings = { restarting_settings };

    ghost tells = { true };

    ghost folder = { None };

    ghost spills = { no_files };
}

// A run whose reducer restarts after its second arrival.
struct AfterSecond;

impl RunName for AfterSecond {
    ghost use Rattle.std.specs.Prelude.{true, None};
    ghost use Rattle.hop_jobs.specs.Wc.{wc_meaning};
    ghost use Rattle.hop_actor_tests.specs.Runs.{restarting_records, second_script, restarting_settings, no_files};

    ghost job = { wc_meaning };

    ghost records = { restarting_records };

    ghost script = { second_script };

    ghost settings = { restarting_settings };

    ghost tells = { true };

    ghost folder = { None };

    ghost spills = { no_files };
}

fn failing_run(alloc: Global) -> Result<Given, Fail>
    ensures { IfOk result (λ g. IsGiven wc_meaning failing_records failing_script failing_settings g.book g.lens g.script g.settings) }
{
    let mut own = settings(alloc);
    own.split = 2;
    own.attempts = 2;
    own.lane = 64;
    read_given::<Failing>(
        alloc,
        b"a\nb\nc\nd\ne\nf\n",
        b"delay 0 2\nfail 0 0 0\nfail 1 0 1\nfail 2 0 9\n",
        own,
    )
}

fn backed_run(alloc: Global) -> Result<Given, Fail>
    ensures { IfOk result (λ g. IsGiven wc_meaning backed_records no_lines backed_settings g.book g.lens g.script g.settings) }
{
    let mut own = settings(alloc);
    own.workers = 2;
    own.attempts = 2;
    own.lane = 64;
    own.backup = true;
    read_given::<Backed>(alloc, b"a\n", b"", own)
}

fn narrow_run(alloc: Global) -> Result<Given, Fail>
    ensures { IfOk result (λ g. IsGiven wc_meaning narrow_records no_lines narrow_settings g.book g.lens g.script g.settings) }
{
    let mut own = settings(alloc);
    own.split = 4;
    read_given::<Narrow>(alloc, b"a\nb\nc\nd\n", b"", own)
}

fn own_settings(alloc: Global) -> Settings
    ensures { settings_of result ≡ restarting_settings }
{
    let mut own = settings(alloc);
    own.split = 2;
    own.lane = 64;
    own
}

// A range that came by the lane of worker `w`.
pub(crate) fn arrive(w: u8, split: u32, attempt: u8, from: u32, to: u32) -> Event {
    Event::Arrive {
        part: Part {
            split,
            attempt,
            from,
            to,
        },
        via: Via::Lane(w),
    }
}

pub(crate) fn won(split: u32, attempt: u8) -> Event {
    Event::Won { split, attempt }
}

pub(crate) fn revoked(split: u32, attempt: u8) -> Event {
    Event::Revoked { split, attempt }
}

// Record 0 of split 0, which came by the lane of worker `w` in vain.
fn ignore(w: u8, attempt: u8) -> Event {
    Event::Ignore {
        part: Part {
            split: 0,
            attempt,
            from: 0,
            to: 1,
        },
        via: Via::Lane(w),
        have: 0,
    }
}

// Two idle turns. Of each split one attempt fails and the next one commits. What was kept of both, and how many were begun.
#[test]
fn attempts_fail_where_the_script_says(rt: HostRuntime) -> Result<(), Fail> {
    let alloc = rt.alloc();
    let given = failing_run(alloc)?;
    let mut bench = Bench::<Failing>::new(alloc, folders(alloc, 1, Vec::new(alloc))?, &given)?;
    for (answer, split, first, second, begun) in [
        (b'i', 0, 0, 0, 0),
        (b'i', 0, 0, 0, 0),
        (b'w', 0, 0, 0, 1),
        (b'w', 0, 0, 0, 1),
        (b'w', 0, 0, 0, 2),
        (b'w', 0, 0, 1, 2),
        (b'w', 0, 0, 2, 2),
        (b'w', 0, 0, 2, 2),
        (b'w', 1, 0, 0, 1),
        (b'w', 1, 1, 0, 1),
        (b'w', 1, 1, 0, 1),
        (b'w', 1, 1, 0, 2),
        (b'w', 1, 1, 1, 2),
        (b'w', 1, 1, 2, 2),
        (b'w', 1, 1, 2, 2),
        (b'w', 2, 0, 0, 1),
        (b'w', 2, 1, 0, 1),
        (b'w', 2, 2, 0, 1),
        (b'w', 2, 2, 0, 1),
        (b'w', 2, 2, 0, 2),
        (b'w', 2, 2, 1, 2),
        (b'w', 2, 2, 2, 2),
        (b'w', 2, 2, 2, 2),
        (b'e', 2, 2, 2, 2),
        (b'e', 2, 2, 2, 2),
    ] {
        assert_eq!(rt; letter(bench.map(0)?), answer);
        assert_eq!(rt; bench.kept_and_begun(0, split, 0), Some((first, begun)));
        assert_eq!(rt; bench.kept_and_begun(0, split, 1), Some((second, begun)));
    }
    assert_eq!(rt;
        take_turns(alloc, &mut bench, b"rrrrrrrrrrrrrrrr")?.as_slice(),
        b"wwwwwwwwwwwwwwwi".as_slice()
    );
    let history = bench.into_history()?;
    assert_eq!(rt;
        history.events(),
        [
            revoked(0, 0),
            arrive(0, 0, 1, 0, 1),
            arrive(0, 0, 1, 1, 2),
            won(0, 1),
            arrive(0, 1, 0, 0, 1),
            revoked(1, 0),
            arrive(0, 1, 1, 0, 1),
            arrive(0, 1, 1, 1, 2),
            won(1, 1),
            arrive(0, 2, 0, 0, 1),
            arrive(0, 2, 0, 1, 2),
            revoked(2, 0),
            arrive(0, 2, 1, 0, 1),
            arrive(0, 2, 1, 1, 2),
            won(2, 1),
        ]
        .as_slice()
    );
    Ok(())
}

// One attempt of the split wins, and the other, a backup, is revoked. What the reducer records depends on what it takes first.
#[test]
fn lost_attempts_are_revoked(rt: HostRuntime) -> Result<(), Fail> {
    let alloc = rt.alloc();
    let given = backed_run(alloc)?;
    for (orders, answers, events) in [
        (
            b"abbbrrrarar".as_slice(),
            b"wwwwwwiwwww".as_slice(),
            [
                arrive(1, 0, 1, 0, 1),
                won(0, 1),
                ignore(0, 0),
                revoked(0, 0),
            ],
        ),
        (
            b"abababrrrrr".as_slice(),
            b"wwwwwwwwwwi".as_slice(),
            [
                arrive(0, 0, 0, 0, 1),
                arrive(1, 0, 1, 0, 1),
                won(0, 0),
                revoked(0, 1),
            ],
        ),
        (
            b"ababbarrrrr".as_slice(),
            b"wwwwwwwwwwi".as_slice(),
            [
                arrive(0, 0, 0, 0, 1),
                arrive(1, 0, 1, 0, 1),
                revoked(0, 0),
                won(0, 1),
            ],
        ),
        (
            b"abararbrbrr".as_slice(),
            b"wwwwwwwwwwi".as_slice(),
            [
                arrive(0, 0, 0, 0, 1),
                won(0, 0),
                ignore(1, 1),
                revoked(0, 1),
            ],
        ),
        (
            b"abaabbabrrrr".as_slice(),
            b"wwwwwweewwww".as_slice(),
            [
                arrive(0, 0, 0, 0, 1),
                arrive(1, 0, 1, 0, 1),
                won(0, 0),
                revoked(0, 1),
            ],
        ),
    ] {
        let mut bench = Bench::<Backed>::new(alloc, folders(alloc, 2, Vec::new(alloc))?, &given)?;
        assert_eq!(rt; take_turns(alloc, &mut bench, orders)?.as_slice(), answers);
        let history = bench.into_history()?;
        assert_eq!(rt; history.events(), events.as_slice());
    }
    Ok(())
}

// A lane that is full leaves one message ready and the ranges behind it joined to one.
#[test]
fn ranges_behind_a_full_lane_are_joined(rt: HostRuntime) -> Result<(), Fail> {
    let alloc = rt.alloc();
    let given = narrow_run(alloc)?;
    let mut bench = Bench::<Narrow>::new(alloc, folders(alloc, 1, Vec::new(alloc))?, &given)?;
    assert_eq!(rt;
        take_turns(alloc, &mut bench, b"aaaaararararr")?.as_slice(),
        b"wwwwwwwwiwewi".as_slice()
    );
    let history = bench.into_history()?;
    assert_eq!(rt;
        history.events(),
        [
            arrive(0, 0, 0, 0, 1),
            arrive(0, 0, 0, 1, 2),
            arrive(0, 0, 0, 2, 4),
            won(0, 0),
        ]
        .as_slice()
    );
    Ok(())
}

// The folder fails at each of its calls in turn: four puts, and two gets for the two spills of a joined range. How many records were kept before.
#[test]
fn a_failing_folder_stops_the_turn(rt: HostRuntime) -> Result<(), Fail> {
    let alloc = rt.alloc();
    let given = narrow_run(alloc)?;
    for (call, answers, kept) in [
        (1, b"wf".as_slice(), 0),
        (2, b"wwf".as_slice(), 1),
        (3, b"wwwf".as_slice(), 2),
        (4, b"wwwwf".as_slice(), 3),
        (5, b"wwwwwwf".as_slice(), 4),
        (6, b"wwwwwwf".as_slice(), 4),
    ] {
        let mut fails = Vec::new(alloc);
        fails.push(call)?;
        let mut bench = Bench::<Narrow>::new(alloc, folders(alloc, 1, fails)?, &given)?;
        assert_eq!(rt;
            take_turns(alloc, &mut bench, b"aaaaara")?.as_slice(),
            answers
        );
        assert_eq!(rt; bench.kept_and_begun(0, 0, 0), Some((kept, 1)));
    }
    Ok(())
}

// The reducer forgets what it had. What goes on where the forgotten records ended is ignored.
#[test]
fn a_restart_after_the_first_arrival(rt: HostRuntime) -> Result<(), Fail> {
    let alloc = rt.alloc();
    let given = read_given::<AfterFirst>(alloc, b"a\nb\n", b"restart 0 1\n", own_settings(alloc))?;
    let mut bench = Bench::<AfterFirst>::new(alloc, folders(alloc, 1, Vec::new(alloc))?, &given)?;
    assert_eq!(rt;
        take_turns(alloc, &mut bench, b"aaaarrrrr")?.as_slice(),
        b"wwwwwwwwi".as_slice()
    );
    let history = bench.into_history()?;
    let ignored = Event::Ignore {
        part: Part {
            split: 0,
            attempt: 0,
            from: 1,
            to: 2,
        },
        via: Via::Lane(0),
        have: 0,
    };
    assert_eq!(rt;
        history.events(),
        [arrive(0, 0, 0, 0, 1), Event::Restart, ignored, won(0, 0)].as_slice()
    );
    Ok(())
}

#[test]
fn a_restart_after_the_last_arrival(rt: HostRuntime) -> Result<(), Fail> {
    let alloc = rt.alloc();
    let given = read_given::<AfterSecond>(alloc, b"a\nb\n", b"restart 0 2\n", own_settings(alloc))?;
    let mut bench = Bench::<AfterSecond>::new(alloc, folders(alloc, 1, Vec::new(alloc))?, &given)?;
    assert_eq!(rt;
        take_turns(alloc, &mut bench, b"aaaarrrrr")?.as_slice(),
        b"wwwwwwwwi".as_slice()
    );
    let history = bench.into_history()?;
    assert_eq!(rt;
        history.events(),
        [
            arrive(0, 0, 0, 0, 1),
            arrive(0, 0, 0, 1, 2),
            Event::Restart,
            won(0, 0)
        ]
        .as_slice()
    );
    Ok(())
}
