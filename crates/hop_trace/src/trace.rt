//! The text of a trace.
ghost use Rattle.std.specs.Prelude.{◌≡◌, ◌++◌, IfOk, OnOk, All};
ghost use Rattle.std.specs.List.{flat_map, enumerate_from};
ghost use Rattle.hop_laws.specs.Laws.{IsName};
ghost use Rattle.hop_trace.specs.Told.{IsToldEvent, IsTold, TellsOnly};
ghost use Rattle.hop_trace.specs.Trace.{in_order, trace_of, first_lines, begun_lines, all_histories, text_of};

use crate::lines::{push_begun, push_history, push_last};
use hop_base::{Blob, Listed, NoMemory, Text};
use hop_event::History;
use std::alloc::Global;

/// The trace of a job's run. `begun` says of each split how many of its attempts were begun, and each
/// history is that of the reducer of its place.
///
/// The lines are `hop-trace 1`, `job NAME`, `splits S`, `reducers R`, then `begun I A` for each split,
/// then for each reducer `reducer P` and a line for each of its events, and `end`. Splits and reducers
/// are counted from 0.
pub fn trace_text(
    alloc: Global,
    name: &Blob,
    begun: &[u8],
    histories: &[History],
) -> Result<Text, NoMemory>
    ensures text { IfOk result (λ text. text ≡ trace_of name.now begun.now (in_order histories.now)) }

    // All this is what a trace may tell.
    ensures told { IfOk result (λ text. IsName name.now → IsTold name.now begun.now (in_order histories.now)) }

    // The text is the trace of nothing else.
    ensures tells { IfOk result (λ text. IsName name.now → TellsOnly text name.now begun.now (in_order histories.now)) }
{
    let mut text = Vec::new(alloc);
    push_first(&mut text, name.as_slice(), begun.len(), histories.len())?;
    push_all_begun(&mut text, begun)?;
    push_histories(&mut text, histories)?;
    text.extend_from_slice(b"end\n")?;
    Ok(Listed::from_vec(text))
}

// Writes the lines before those of the splits.
fn push_first(
    text: &mut Vec<u8>,
    name: &[u8],
    splits: usize,
    reducers: usize,
) -> Result<(), NoMemory>
    ensures { OnOk result (text.new.items ≡ text.old.items ++ text_of (first_lines name.now splits reducers)) }
{
    text.extend_from_slice(b"hop-trace 1\njob ")?;
    text.extend_from_slice(name)?;
    text.extend_from_slice(b"\n")?;
    push_last(text, b"splits ", splits as u64)?;
    push_last(text, b"reducers ", reducers as u64)?;
    Ok(())
}

// Writes the lines of the splits.
fn push_all_begun(text: &mut Vec<u8>, begun: &[u8]) -> Result<(), NoMemory>
    ensures { OnOk result (text.new.items ≡ text.old.items ++ text_of (begun_lines begun.now)) }
{
    for (i, attempts) in begun.iter().enumerate() {
        push_begun(text, i, *attempts)?;
    }
    Ok(())
}

// Writes the lines of the reducers.
fn push_histories(text: &mut Vec<u8>, histories: &[History]) -> Result<(), NoMemory>
    ensures text { OnOk result (text.new.items ≡ text.old.items ++ text_of (all_histories (in_order histories.now))) }
    ensures numbers { OnOk result (All (All IsToldEvent) (in_order histories.now)) }
{
    for (p, history) in histories.iter().enumerate() {
        push_history(text, p, history.events())?;
    }
    Ok(())
}
