//! The lines of a fault script.
ghost use Rattle.std.specs.Prelude.{◌≡◌, IfSome};
ghost use Rattle.hop_script.specs.Text.{words_of};
ghost use Rattle.hop_script.specs.Lines.{line_form, fail_form, restart_form, delay_form, HasPartition};

use crate::number::number;
use crate::text::{next_word, three_words, two_words};
use hop_base::limits::{MAX_ATTEMPTS, MAX_RECORDS, MAX_REDUCERS, MAX_SPLITS, MAX_WORKERS};

/// A line of a fault script. No two lines of a script name the same attempt, the same restart or the
/// same worker.
#[derive(Clone, Copy, Debug, PartialEq, Eq)]
pub enum Line {
    /// `fail SPLIT ATTEMPT AT`: that attempt of the split (at most 1,023, and at most 15) fails after
    /// `at` (at most 16,777,216) of its records, or after its last one.
    Fail { split: u32, attempt: u8, at: u32 },
    /// `restart PARTITION ARRIVALS`: the reducer of that partition (at most 7) restarts directly after
    /// its arrival of that number, 1 to 1,000,000.
    Restart { partition: u8, arrivals: u32 },
    /// `delay WORKER TURNS`: the first turns of that worker (at most 7), 1 to 10,000, do nothing.
    Delay { worker: u8, turns: u32 },
}

// The line that these bytes are, if they have one of the three forms.
pub(crate) fn line_of(bytes: &[u8]) -> Option<Line>
    ensures form { result ≡ line_form (words_of bytes.now) }
    ensures partition { IfSome result HasPartition }
{
    let (word, rest) = next_word(bytes)?;
    if word == b"fail".as_slice() {
        fail_of(rest)
    } else if word == b"restart".as_slice() {
        restart_of(rest)
    } else if word == b"delay".as_slice() {
        delay_of(rest)
    } else {
        None
    }
}

// The numbers of a line `fail SPLIT ATTEMPT AT`.
fn fail_of(rest: &[u8]) -> Option<Line>
    ensures form { result ≡ fail_form (words_of rest.now) }
    ensures partition { IfSome result HasPartition }
{
    let (split, attempt, at) = three_words(rest)?;
    let split = number(0, MAX_SPLITS - 1, split)?;
    let attempt = number(0, MAX_ATTEMPTS as u32 - 1, attempt)? as u8;
    let at = number(0, MAX_RECORDS, at)?;
    Some(Line::Fail { split, attempt, at })
}

// The numbers of a line `restart PARTITION ARRIVALS`.
fn restart_of(rest: &[u8]) -> Option<Line>
    ensures form { result ≡ restart_form (words_of rest.now) }
    ensures partition { IfSome result HasPartition }
{
    let (partition, arrivals) = two_words(rest)?;
    let partition = number(0, MAX_REDUCERS as u32 - 1, partition)? as u8;
    let arrivals = number(1, 1_000_000, arrivals)?;
    Some(Line::Restart {
        partition,
        arrivals,
    })
}

// The numbers of a line `delay WORKER TURNS`.
fn delay_of(rest: &[u8]) -> Option<Line>
    ensures form { result ≡ delay_form (words_of rest.now) }
    ensures partition { IfSome result HasPartition }
{
    let (worker, turns) = two_words(rest)?;
    let worker = number(0, MAX_WORKERS as u32 - 1, worker)? as u8;
    let turns = number(1, 10_000, turns)?;
    Some(Line::Delay { worker, turns })
}
