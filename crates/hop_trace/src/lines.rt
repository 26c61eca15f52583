//! The lines of a trace, as they are written.
ghost use Rattle.std.specs.Prelude.{◌≡◌, ◌++◌, [], ◌∷◌, OnOk, All, decimal};
ghost use Rattle.hop_trace.specs.Told.{IsToldEvent};
ghost use Rattle.hop_trace.specs.Trace.{via_text, event_line, begun_line, history_lines, line_text, text_of};

use hop_base::{NoMemory, Part};
use hop_event::{Event, Via};
use itoa::Buffer;

// Writes the piece and the number.
fn push_number(text: &mut Vec<u8>, piece: &[u8], n: u64) -> Result<(), NoMemory>
    ensures { OnOk result (text.new.items ≡ text.old.items ++ (piece.now ++ decimal n)) }
{
    let mut buffer = Buffer::new();
    text.extend_from_slice(piece)?;
    text.extend_from_slice(buffer.format(n).as_bytes())?;
    Ok(())
}

/// Writes the piece and the number, and ends the line.
pub(crate) fn push_last(text: &mut Vec<u8>, piece: &[u8], n: u64) -> Result<(), NoMemory>
    ensures { OnOk result (text.new.items ≡ text.old.items ++ (piece.now ++ (decimal n ++ 10 ∷ []))) }
{
    push_number(text, piece, n)?;
    text.extend_from_slice(b"\n")?;
    Ok(())
}

/// Writes how many attempts of split `i` were begun.
pub(crate) fn push_begun(text: &mut Vec<u8>, i: usize, attempts: u8) -> Result<(), NoMemory>
    ensures { OnOk result (text.new.items ≡ text.old.items ++ line_text (begun_line (i, attempts))) }
{
    push_number(text, b"begun ", i as u64)?;
    push_last(text, b" ", u64::from(attempts))?;
    Ok(())
}

/// Writes the lines of reducer `p`.
pub(crate) fn push_history(text: &mut Vec<u8>, p: usize, events: &[Event]) -> Result<(), NoMemory>
    ensures text { OnOk result (text.new.items ≡ text.old.items ++ text_of (history_lines (p, events.now))) }
    ensures numbers { OnOk result (All IsToldEvent events.now) }
{
    push_last(text, b"reducer ", p as u64)?;
    for event in events {
        push_event(text, *event)?;
    }
    Ok(())
}

// Writes the line of an event.
fn push_event(text: &mut Vec<u8>, event: Event) -> Result<(), NoMemory>
    ensures text { OnOk result (text.new.items ≡ text.old.items ++ line_text (event_line event)) }
    ensures numbers { IsToldEvent event }
{
    match event {
        Event::Arrive { part, via } => {
            push_range(text, b"arrive ", part, via)?;
            text.extend_from_slice(b"\n")?;
        }
        Event::Ignore { part, via, have } => {
            push_range(text, b"ignore ", part, via)?;
            push_last(text, b" ", u64::from(have))?;
        }
        Event::Won { split, attempt } => push_attempt(text, b"won ", split, attempt)?,
        Event::Revoked { split, attempt } => push_attempt(text, b"revoked ", split, attempt)?,
        Event::Restart => text.extend_from_slice(b"restart\n")?,
        Event::Finish => text.extend_from_slice(b"finish\n")?,
    }
    Ok(())
}

// Writes the piece and the attempt, and ends the line.
fn push_attempt(text: &mut Vec<u8>, piece: &[u8], split: u32, attempt: u8) -> Result<(), NoMemory>
    ensures { OnOk result (text.new.items ≡ text.old.items ++ (piece.now ++ (decimal split ++ 32 ∷ (decimal attempt ++ 10 ∷ [])))) }
{
    push_number(text, piece, u64::from(split))?;
    push_last(text, b" ", u64::from(attempt))?;
    Ok(())
}

// Writes the piece, the range and how it came.
fn push_range(text: &mut Vec<u8>, piece: &[u8], part: Part, via: Via) -> Result<(), NoMemory>
    ensures { OnOk result (text.new.items ≡ text.old.items ++ (piece.now ++ (decimal part.split ++ 32 ∷ (decimal part.attempt ++ 32 ∷ (decimal part.from ++ 32 ∷ (decimal part.to ++ 32 ∷ via_text via)))))) }
{
    push_number(text, piece, u64::from(part.split))?;
    push_number(text, b" ", u64::from(part.attempt))?;
    push_number(text, b" ", u64::from(part.from))?;
    push_number(text, b" ", u64::from(part.to))?;
    push_via(text, via)?;
    Ok(())
}

// Writes a space and how a range came.
fn push_via(text: &mut Vec<u8>, via: Via) -> Result<(), NoMemory>
    ensures { OnOk result (text.new.items ≡ text.old.items ++ 32 ∷ via_text via) }
{
    match via {
        Via::Lane(worker) => push_number(text, b" w", u64::from(worker))?,
        Via::Late(worker) => push_number(text, b" s", u64::from(worker))?,
        Via::Pull => text.extend_from_slice(b" pull")?,
    }
    Ok(())
}
