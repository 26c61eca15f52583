//! Passes over the groups of a sheet that is kept as bytes, a group being the pairs of one key.
ghost use Rattle.std.specs.Prelude.{◌≡◌, ◌-◌, ◌<◌, ◌≤◌, ◌++◌, length, map, take, drop, slice_index_or, IfOk, OnOk, OnErr, IsSorted};
ghost use Rattle.std.specs.Str.{bytes_eq};
ghost use Rattle.hop_base.specs.declared.value.Pair.{Pair};
ghost use Rattle.hop_base.specs.Order.{pair_cmp};
ghost use Rattle.hop_laws.specs.Groups.{red, IsFirstGroup};
ghost use Rattle.hop_laws.specs.Stands.{combined_pairs, pairs_at};

use crate::job::Job;
use hop_base::{Blob, FlatSheet, FlatSheetBuilder, NoMemory, Val};
use std::alloc::Global;

/// What reduce gives for each key of the sheet and its values, the keys ascending, joined. The memory
/// of a key and of its values serves the next key too.
pub fn reduce_flat<J: Job>(alloc: Global, job: &J, sheet: &FlatSheet) -> Result<Vec<u8>, NoMemory>
    ensures { IfOk result (λ text. text.items ≡ red (J.meaning job.now).reduced sheet.now) }
{
    sheet.known();
    let mut text = Vec::new(alloc);
    let mut key = Blob::from_short(alloc, &[])?;
    let mut vals = Vec::new(alloc);
    let mut at = 0;
    while at < sheet.len() {
        let end = group_end(sheet, at);
        set_key(&mut key, sheet, at)?;
        set_values(&mut vals, alloc, sheet, at, end)?;
        job.reduce(alloc, &key, &vals, &mut text)?;
        at = end;
    }
    Ok(text)
}

/// The values of each key of the sheet combined. Combined values are in order, so nothing is sorted,
/// and no key is copied but into the bytes.
pub fn combine_flat<J: Job>(
    alloc: Global,
    job: &J,
    sheet: &FlatSheet,
) -> Result<FlatSheet, NoMemory>
    ensures { IfOk result (λ fewer. fewer ≡ combined_pairs (J.meaning job.now).combined sheet.now) }
{
    let fewer = combine_groups(alloc, job, sheet)?;
    sheet.known();
    fewer.finish()
}

// What the pairs of the sheet are combined to, group by group.
fn combine_groups<J: Job>(
    alloc: Global,
    job: &J,
    sheet: &FlatSheet,
) -> Result<FlatSheetBuilder, NoMemory>
    ensures { IfOk result (λ fewer. fewer ≡ combined_pairs (J.meaning job.now).combined sheet.now) }
{
    sheet.known();
    let mut fewer = FlatSheetBuilder::new(alloc);
    let mut key = Blob::from_short(alloc, &[])?;
    let mut vals = Vec::new(alloc);
    let mut at = 0;
    while at < sheet.len() {
        let end = group_end(sheet, at);
        set_key(&mut key, sheet, at)?;
        set_values(&mut vals, alloc, sheet, at, end)?;
        vals = job.combine(alloc, &key, vals)?;
        append_at(&mut fewer, &key, &vals)?;
        at = end;
    }
    Ok(fewer)
}

// Where the pairs end that have the key of the one at this place.
fn group_end(sheet: &FlatSheet, at: u64) -> u64
    requires { at < length sheet.now }
    ensures some { at < result }
    ensures within { result ≤ length sheet.now }
    ensures group { IsFirstGroup (drop at sheet.now) (result - at) }
{
    sheet.known();
    let len = sheet.len();
    let first = sheet.pair(at);
    let mut end = at + 1;
    while end < len && has_key(sheet, end, first.key) {
        end += 1;
    }
    end
}

// Whether the pair at this place has the key.
fn has_key(sheet: &FlatSheet, k: u64, key: &[u8]) -> bool
    requires { k < length sheet.now }
    ensures { (d : Pair) → result ≡ bytes_eq key.now (slice_index_or sheet.now k d).key }
{
    let pair = sheet.pair(k);
    key == pair.key
}

// The key becomes that of the pair at this place.
fn set_key(key: &mut Blob, sheet: &FlatSheet, k: u64) -> Result<(), NoMemory>
    requires { k < length sheet.now }
    ensures { OnOk result ((d : Pair) → key.new ≡ (slice_index_or sheet.now k d).key) }
{
    let pair = sheet.pair(k);
    key.set(pair.key)
}

// The values become those of the pairs from one place to another.
fn set_values(
    vals: &mut Vec<Val>,
    alloc: Global,
    sheet: &FlatSheet,
    from: u64,
    to: u64,
) -> Result<(), NoMemory>
    requires ordered { from ≤ to }
    requires within { to ≤ length sheet.now }
    ensures { OnOk result (vals.new.items ≡ map (λ p. p.val) (take (to - from) (drop from sheet.now))) }
{
    vals.clear();
    for k in from..to {
        let pair = sheet.pair(k);
        vals.push(pair.to_val(alloc)?)?;
    }
    Ok(())
}

// Appends the values under a key.
fn append_at(to: &mut FlatSheetBuilder, key: &Blob, vals: &[Val]) -> Result<(), NoMemory>
    ensures { OnOk result (to.new ≡ to.old ++ pairs_at key.now vals.now) }
{
    for val in vals {
        to.push(key.as_slice(), val.n, val.s.as_slice())?;
    }
    Ok(())
}
