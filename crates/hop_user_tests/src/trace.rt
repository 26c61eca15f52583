//! The trace of a run, by hand.
use hop_base::{Blob, NoMemory, Part};
use hop_event::{Event, History, Via};
use hop_trace::{Way, attempts_in_all, events_in_all, kept_in_all, trace_text};
use std::alloc::Global;
use std::test::Fail;

// Attempt 0 of split 0 fails after its first record and is tried again.
const TRACE: &[u8] =
    b"hop-trace 1\njob wc\nsplits 2\nreducers 1\nbegun 0 2\nbegun 1 1\nreducer 0\narrive 0 0 0 1 w0\nrevoked 0 0\narrive 0 1 0 1 w0\narrive 0 1 1 2 w0\nwon 0 1\narrive 1 0 0 1 w0\narrive 1 0 1 2 w0\nwon 1 0\nfinish\nend\n";

// The words of the other events.
const REST: &[u8] =
    b"hop-trace 1\njob x\nsplits 0\nreducers 2\nreducer 0\narrive 3 15 7 8 s6\nrestart\nignore 3 15 8 9 w5 0\nreducer 1\narrive 1023 2 9 10 pull\nend\n";

// One record.
fn one(split: u32, attempt: u8, from: u32) -> Part {
    Part {
        split,
        attempt,
        from,
        to: from.saturating_add(1),
    }
}

// It came by the lane of worker 0.
fn arrive(split: u32, attempt: u8, from: u32) -> Event {
    let part = one(split, attempt, from);
    let via = Via::Lane(0);
    Event::Arrive { part, via }
}

fn history_of(alloc: Global, events: &[Event]) -> Result<History, NoMemory> {
    let mut history = History::new(alloc)?;
    for event in events {
        history.reserve()?;
        history.push(*event);
    }
    Ok(history)
}

#[test]
fn writes_a_trace(rt: HostRuntime) -> Result<(), Fail> {
    let events = [
        arrive(0, 0, 0),
        Event::Revoked {
            split: 0,
            attempt: 0,
        },
        arrive(0, 1, 0),
        arrive(0, 1, 1),
        Event::Won {
            split: 0,
            attempt: 1,
        },
        arrive(1, 0, 0),
        arrive(1, 0, 1),
        Event::Won {
            split: 1,
            attempt: 0,
        },
        Event::Finish,
    ];
    let name = Blob::from_slice(rt.alloc(), b"wc")?;
    let histories = [history_of(rt.alloc(), &events)?];
    let text = trace_text(rt.alloc(), &name, &[2, 1], &histories)?;
    assert_eq!(rt; text.as_slice(), TRACE);
    assert_eq!(rt; attempts_in_all(&[2, 1]), 3);
    assert_eq!(rt; events_in_all(&histories), 9);
    Ok(())
}

#[test]
fn writes_how_ranges_came(rt: HostRuntime) -> Result<(), Fail> {
    let late = Event::Arrive {
        part: one(3, 15, 7),
        via: Via::Late(6),
    };
    let dropped = Event::Ignore {
        part: one(3, 15, 8),
        via: Via::Lane(5),
        have: 0,
    };
    let pulled = Event::Arrive {
        part: one(1023, 2, 9),
        via: Via::Pull,
    };
    let name = Blob::from_slice(rt.alloc(), b"x")?;
    let histories = [
        history_of(rt.alloc(), &[late, Event::Restart, dropped])?,
        history_of(rt.alloc(), &[pulled])?,
    ];
    let text = trace_text(rt.alloc(), &name, &[], &histories)?;
    assert_eq!(rt; text.as_slice(), REST);
    assert_eq!(rt; kept_in_all(Way::Pulled, &histories), 1);
    assert_eq!(rt; kept_in_all(Way::Settled, &histories), 1);
    Ok(())
}
