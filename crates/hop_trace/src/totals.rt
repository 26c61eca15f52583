//! Numbers of a whole run.
ghost use Rattle.std.specs.Prelude.{◌≡◌, ◌≤◌, ◌<◌, ◌^◌, length, sum, count_by};
ghost use Rattle.hop_trace.specs.Totals.{is_kept, kept_in_all, events_in_all};
ghost use Rattle.hop_trace.specs.Trace.{in_order};

use hop_event::{Event, History, Via};

/// How a range that was kept came to its reducer, where it didn't come by a lane in a round.
#[derive(Clone, Copy, Debug, PartialEq, Eq)]
pub enum Way {
    /// It was fetched from a map worker's spill folder.
    Pulled,
    /// It came by a lane while the run was settled.
    Settled,
}

/// How many attempts were begun, of at most 1,024 splits.
pub fn attempts_in_all(begun: &[u8]) -> u64
    requires few { length begun.now ≤ 1024 }
    ensures { result ≡ sum begun.now }
{
    let mut total: u64 = 0;
    for attempts in begun {
        total += u64::from(*attempts);
    }
    total
}

/// How many events there are in these histories, of at most eight reducers.
pub fn events_in_all(histories: &[History]) -> u64
    requires few { length histories.now ≤ 8 }
    ensures { result ≡ events_in_all (in_order histories.now) }
{
    let mut total: u64 = 0;
    for history in histories {
        total += number_of(history.events());
    }
    total
}

/// How many ranges came this way and were kept, by these histories, of at most eight reducers.
pub fn kept_in_all(way: Way, histories: &[History]) -> u64
    requires few { length histories.now ≤ 8 }
    ensures { result ≡ kept_in_all way (in_order histories.now) }
{
    let mut total: u64 = 0;
    for history in histories {
        total += kept_in(way, history.events());
    }
    total
}

// The number of the events, of which memory can't hold more.
fn number_of(events: &[Event]) -> u64
    ensures value { result ≡ length events.now }
    ensures few { result < 2 ^ 60 }
{
    events.len() as u64
}

// How many ranges came this way and were kept.
fn kept_in(way: Way, events: &[Event]) -> u64
    ensures value { result ≡ count_by (is_kept way) events.now }
    ensures few { result < 2 ^ 60 }
{
    let mut n: u64 = 0;
    for event in events {
        if is_kept(way, *event) {
            n += 1;
        }
    }
    n
}

// Whether the event is a range that came this way and was kept.
fn is_kept(way: Way, event: Event) -> bool
    ensures { result ≡ is_kept way event }
{
    match way {
        Way::Pulled => matches!(event, Event::Arrive { via: Via::Pull, .. }),
        Way::Settled => matches!(
            event,
            Event::Arrive {
                via: Via::Late(_),
                ..
            }
        ),
    }
}
