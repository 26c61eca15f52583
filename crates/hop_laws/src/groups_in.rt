//! Passes over the groups of flat pairs in order, a group being those of one key.
ghost use Rattle.std.specs.Prelude.{◌≡◌, ◌<◌, ◌≤◌, length, map, IfOk, OnOk, All, IsSorted};
ghost use Rattle.hop_base.specs.Order.{pair_cmp};
ghost use Rattle.hop_laws.specs.Entries.{pairs_in, IsEntry};
ghost use Rattle.hop_laws.specs.Groups.{red, first_key, IsFirstGroup};
ghost use Rattle.hop_laws.specs.Stands.{combined_pairs, pairs_at};

use crate::entry::{Entry, is_same_key, key_of, text_of};
use crate::job::Job;
use crate::sink::PairSink;
use hop_base::{Blob, NoMemory, Val};
use std::alloc::Global;

// Hands the pairs to a sink.
pub(crate) fn give_entries<S: PairSink>(
    arena: &[u8],
    entries: &[Entry],
    sink: &mut S,
) -> Result<(), NoMemory>
    requires { All (IsEntry arena.now) entries.now }
    ensures { OnOk result (S.takes sink.old (pairs_in arena.now entries.now) sink.new) }
{
    for entry in entries {
        let bytes = entry.head.bytes();
        sink.take(
            key_of(arena, entry, &bytes),
            entry.number,
            text_of(arena, entry),
        )?;
    }
    Ok(())
}

// Hands what the values of each key are combined to to a sink.
pub(crate) fn combine_entries<J: Job, S: PairSink>(
    alloc: Global,
    job: &J,
    arena: &[u8],
    entries: &[Entry],
    sink: &mut S,
) -> Result<(), NoMemory>
    requires entries { All (IsEntry arena.now) entries.now }
    requires sorted { IsSorted pair_cmp (pairs_in arena.now entries.now) }
    ensures { OnOk result (S.takes sink.old (combined_pairs (J.meaning job.now).combined (pairs_in arena.now entries.now)) sink.new) }
{
    let mut key = Blob::from_short(alloc, b"")?;
    let mut vals = Vec::new(alloc);
    let mut rest = entries;
    while !rest.is_empty() {
        let (group, later) = rest.split_at(group_len(arena, rest));
        load(alloc, arena, group, &mut key, &mut vals)?;
        vals = job.combine(alloc, &key, vals)?;
        give_values(key.as_slice(), &vals, sink)?;
        rest = later;
    }
    Ok(())
}

// What reduce gives for each key and its values.
pub(crate) fn reduce_entries<J: Job>(
    alloc: Global,
    job: &J,
    arena: &[u8],
    entries: &[Entry],
) -> Result<Vec<u8>, NoMemory>
    requires entries { All (IsEntry arena.now) entries.now }
    requires sorted { IsSorted pair_cmp (pairs_in arena.now entries.now) }
    ensures { IfOk result (λ text. text.items ≡ red (J.meaning job.now).reduced (pairs_in arena.now entries.now)) }
{
    let mut text = Vec::new(alloc);
    let mut key = Blob::from_short(alloc, b"")?;
    let mut vals = Vec::new(alloc);
    let mut rest = entries;
    while !rest.is_empty() {
        let (group, later) = rest.split_at(group_len(arena, rest));
        load(alloc, arena, group, &mut key, &mut vals)?;
        job.reduce(alloc, &key, &vals, &mut text)?;
        rest = later;
    }
    Ok(text)
}

// How many of the first entries have one key.
fn group_len(arena: &[u8], entries: &[Entry]) -> usize
    requires some { 0 < length entries.now }
    requires entries { All (IsEntry arena.now) entries.now }
    requires sorted { IsSorted pair_cmp (pairs_in arena.now entries.now) }
    ensures { IsFirstGroup (pairs_in arena.now entries.now) result }
{
    let first = &entries[0];
    let mut end = 1;
    while end < entries.len() && is_same_key(arena, first, &entries[end]) {
        end += 1;
    }
    end
}

// Makes the key and the values those of a group, in the memory that they have.
fn load(
    alloc: Global,
    arena: &[u8],
    group: &[Entry],
    key: &mut Blob,
    vals: &mut Vec<Val>,
) -> Result<(), NoMemory>
    requires some { 0 < length group.now }
    requires entries { All (IsEntry arena.now) group.now }
    ensures key { OnOk result (key.new ≡ first_key (pairs_in arena.now group.now)) }
    ensures vals { OnOk result (vals.new.items ≡ map (λ p. p.val) (pairs_in arena.now group.now)) }
{
    let first = &group[0];
    let bytes = first.head.bytes();
    key.set(key_of(arena, first, &bytes))?;
    vals.clear();
    for entry in group {
        let s = Blob::from_short(alloc, text_of(arena, entry))?;
        vals.push(Val { n: entry.number, s })?;
    }
    Ok(())
}

// Hands the values under a key to a sink.
fn give_values<S: PairSink>(key: &[u8], vals: &[Val], sink: &mut S) -> Result<(), NoMemory>
    requires { length key.now ≤ 131071 }
    ensures { OnOk result (S.takes sink.old (pairs_at key.now vals.now) sink.new) }
{
    for val in vals {
        sink.take(key, val.n, val.s.as_slice())?;
    }
    Ok(())
}
