//! Small histories, worked by hand.
ghost use Rattle.std.specs.Prelude.{IsTrue};
ghost use Rattle.hop_cover.specs.Table.{MayBeNoted};

use hop_base::{Lens, Part};
use hop_cover::{Coverage, Declared};
use hop_event::{Event, Via};
use std::alloc::Global;
use std::test::Fail;

fn arrive(split: u32, attempt: u8, from: u32, to: u32) -> Event {
    arrive_by(split, attempt, from, to, 0)
}

fn arrive_by(split: u32, attempt: u8, from: u32, to: u32, worker: u8) -> Event {
    Event::Arrive {
        part: Part {
            split,
            attempt,
            from,
            to,
        },
        via: Via::Lane(worker),
    }
}

fn won(split: u32, attempt: u8) -> Event {
    Event::Won { split, attempt }
}

fn revoked(split: u32, attempt: u8) -> Event {
    Event::Revoked { split, attempt }
}

fn some(attempt: u8, records: u32, committed: bool) -> Option<Declared> {
    Some(Declared {
        attempt,
        records,
        committed,
    })
}

// Whether the table has the split and the attempt of the event, and its range.
fn fits(coverage: &Coverage, e: Event) -> bool
    ensures { IsTrue result → MayBeNoted coverage.now.lens e }
{
    match e {
        Event::Arrive { part, via: _ } => {
            part.split < coverage.splits()
                && part.attempt < 16
                && part.to <= coverage.split_len(part.split)
        }
        Event::Won { split, attempt } | Event::Revoked { split, attempt } => {
            split < coverage.splits() && attempt < 16
        }
        Event::Ignore {
            part: _,
            via: _,
            have: _,
        }
        | Event::Restart
        | Event::Finish => true,
    }
}

// The coverage of splits with 3 and 2 records after these events.
fn after(alloc: Global, tentative: bool, events: &[Event]) -> Result<Coverage, Fail> {
    let mut lens = Lens::new(alloc);
    lens.push(3)?;
    lens.push(2)?;
    let mut coverage = Coverage::new(alloc, &lens, tentative)?;
    for e in events {
        if !fits(&coverage, *e) {
            return Err(Fail::new("not in the table"));
        }
        coverage.note(*e);
    }
    Ok(coverage)
}

#[derive(Clone, Copy)]
struct Case<'a> {
    wanted: bool,
    events: &'a [Event],
    first: Option<Declared>,
    progress: u16,
}

#[test]
fn histories_by_hand(rt: HostRuntime) -> Result<(), Fail> {
    let tie = [arrive(0, 1, 0, 1), arrive(0, 0, 0, 1)];
    let longer = [arrive(0, 0, 0, 1), arrive(0, 2, 0, 2)];
    let empty_winner = [arrive(0, 0, 0, 2), won(0, 1)];
    let lost = [
        arrive(0, 1, 0, 3),
        won(0, 1),
        Event::Restart,
        arrive(0, 0, 0, 2),
    ];
    let again = [
        arrive(0, 1, 0, 3),
        won(0, 1),
        Event::Restart,
        arrive(0, 1, 0, 1),
    ];
    let gone = [arrive(0, 0, 0, 2), revoked(0, 0)];
    let open = [arrive(0, 0, 0, 2)];
    let closed = [arrive(0, 0, 0, 2), won(0, 0)];
    let both = [
        arrive(0, 0, 0, 3),
        won(0, 0),
        arrive(1, 0, 0, 1),
        Event::Finish,
    ];
    #[rattlefmt::skip]
    let cases = [
        Case { wanted: true, events: &tie, first: some(0, 1, false), progress: 1666 },
        Case { wanted: true, events: &longer, first: some(2, 2, false), progress: 3333 },
        Case { wanted: true, events: &empty_winner, first: None, progress: 0 },
        Case { wanted: true, events: &lost, first: None, progress: 0 },
        Case { wanted: true, events: &again, first: some(1, 1, true), progress: 1666 },
        Case { wanted: true, events: &gone, first: None, progress: 0 },
        Case { wanted: false, events: &open, first: None, progress: 0 },
        Case { wanted: false, events: &closed, first: some(0, 2, true), progress: 3333 },
        Case { wanted: true, events: &both, first: some(0, 3, true), progress: 7500 },
    ];
    for case in &cases {
        let coverage = after(rt.alloc(), case.wanted, case.events)?;
        assert_eq!(rt; coverage.splits(), 2);
        assert_eq!(rt; coverage.at(0), case.first);
        assert_eq!(rt; coverage.progress(), case.progress);
    }
    Ok(())
}

#[test]
fn two_attempts_of_one_split(rt: HostRuntime) -> Result<(), Fail> {
    let mut lens = Lens::new(rt.alloc());
    lens.push(2)?;
    lens.push(2)?;
    let mut coverage = Coverage::new(rt.alloc(), &lens, true)?;
    let steps = [
        (arrive_by(0, 0, 0, 1, 0), 2500, some(0, 1, false)),
        (arrive_by(0, 1, 0, 1, 1), 2500, some(0, 1, false)),
        (revoked(0, 0), 2500, some(1, 1, false)),
        (Event::Restart, 0, None),
        (won(0, 1), 0, None),
    ];
    for (e, progress, declared) in steps {
        assert!(rt; coverage.splits() == 2 && fits(&coverage, e));
        coverage.note(e);
        assert!(rt; coverage.splits() == 2);
        assert_eq!(rt; (coverage.progress(), coverage.at(0)), (progress, declared));
    }
    assert!(rt; coverage.splits() == 2);
    assert_eq!(rt; (coverage.upto(0, 1), coverage.winner(0)), (0, Some(1)));
    assert!(rt; coverage.is_revoked(0, 0));
    Ok(())
}

#[test]
fn no_splits(rt: HostRuntime) -> Result<(), Fail> {
    let coverage = Coverage::new(rt.alloc(), &Lens::new(rt.alloc()), true)?;
    assert_eq!(rt; coverage.progress(), 10_000);
    Ok(())
}
