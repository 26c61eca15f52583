//! Bytes read as spills.
ghost use Rattle.std.specs.Prelude.{◌≡◌, ◌≤◌, ℕ, Ok, Err, None, IfOk};
ghost use Rattle.hop_spill.specs.declared.spill.Spill.{Spill};
ghost use Rattle.hop_spill.specs.Spelling.{IsSpill, spill_in, spill_text};
ghost use Rattle.hop_spill.specs.Reading.{is_smaller, may_follow, pair_at, pairs_at, sheet_at, sheets_at, head_at, front_at, spill_at, read_spill};
ghost use Rattle.hop_spill.specs.Answers.{Gives, IsAnswer, answer_in};
ghost use Rattle.hop_spill.specs.Pieces.{StopsAt};

use crate::fields::{MAGIC, counted, long, word, word_within};
use crate::spill::{FlatSpill, Spill, SpillFault};
use crate::stop::Stop;
use hop_base::limits::{MAX_ATTEMPTS, MAX_RECORDS, MAX_REDUCERS, MAX_SPLITS};
use hop_base::{FlatSheet, FlatSheetBuilder, FlatSheets, Listed, NoMemory, PairView, Sheets};
use hop_laws::partition;
use std::alloc::Global;

// A pair takes this many bytes at least.
const LEAST_PAIR: usize = 16;

// What the head of a spill says.
#[derive(Clone, Copy)]
struct Head {
    split: u32,
    attempt: u8,
    from: u32,
    to: u32,
    reducers: u8,
}

/// The spill whose text the bytes are, all of them. `Damaged` comes exactly where they are no spill text,
/// with the place where reading from left to right fails.
pub fn decode(alloc: Global, bytes: &[u8]) -> Result<Spill, SpillFault>
    // What is read is spelled so.
    ensures found { IfOk result (λ spill. IsSpill spill × (bytes.now ≡ spill_text spill)) }
    // What is spelled so is read.
    ensures only { (spill : Spill) → IsSpill spill → bytes.now ≡ spill_text spill → IsAnswer result (Ok spill) }
    // Which place it is.
    ensures place { IsAnswer result (read_spill bytes.now) }
    // No spill's text that begins as the bytes do before the place goes on with a piece that stands there.
    ensures stops { (place : ℕ) → result ≡ Err (SpillFault.Damaged place) → StopsAt bytes.now place }
{
    let flat = match decode_flat(alloc, bytes) {
        Ok(flat) => flat,
        Err(fault) => return Err(fault),
    };
    let Ok(sheets) = sheets_in(alloc, &flat.sheets) else {
        return Err(SpillFault::NoMemory);
    };
    Ok(Spill {
        split: flat.split,
        attempt: flat.attempt,
        from: flat.from,
        to: flat.to,
        sheets,
    })
}

/// The same with the sheets kept as bytes: each is copied whole, and no pair of it is allocated.
pub fn decode_flat(alloc: Global, bytes: &[u8]) -> Result<FlatSpill, SpillFault>
    // What is read is spelled so.
    ensures found { IfOk result (λ spill. IsSpill (spill_in spill) × (bytes.now ≡ spill_text (spill_in spill))) }
    // What is spelled so is read.
    ensures only { (spill : Spill) → IsSpill spill → bytes.now ≡ spill_text spill → IsAnswer (answer_in result) (Ok spill) }
    // Which place it is.
    ensures place { IsAnswer (answer_in result) (read_spill bytes.now) }
    // No spill's text that begins as the bytes do before the place goes on with a piece that stands there.
    ensures stops { (place : ℕ) → result ≡ Err (SpillFault.Damaged place) → StopsAt bytes.now place }
{
    match whole(alloc, bytes) {
        Ok(spill) => Ok(spill),
        Err(Stop::NoMemory) => Err(SpillFault::NoMemory),
        Err(Stop::Left(left)) => Err(SpillFault::Damaged {
            place: bytes.len().saturating_sub(left) as u64,
        }),
    }
}

/// The pairs of sheets that are kept as bytes.
pub fn sheets_in(alloc: Global, flat: &FlatSheets) -> Result<Sheets, NoMemory>
    ensures { IfOk result (λ sheets. sheets ≡ flat.now) }
{
    let mut sheets = Listed::new(alloc);
    for sheet in flat.as_slice() {
        sheets.push(sheet.to_sheet()?)?;
    }
    Ok(sheets)
}

// The spill that is all of the bytes.
#[tactic(auto, unfolding(crate::specs::Reading::spill_at))]
fn whole(alloc: Global, bytes: &[u8]) -> Result<FlatSpill, Stop>
    ensures { Gives spill_in result (spill_at bytes.now) }
{
    let (spill, rest) = front(alloc, bytes)?;
    if !rest.is_empty() {
        return Err(Stop::Left(rest.len()));
    }
    Ok(spill)
}

// The spill at the front, and what follows it.
#[tactic(auto, unfolding(crate::specs::Reading::front_at))]
fn front(alloc: Global, bytes: &[u8]) -> Result<(FlatSpill, &[u8]), Stop>
    ensures { Gives (λ x. (spill_in x.0, x.1.now)) result (front_at bytes.now) }
{
    let (head, rest) = head_of(bytes)?;
    let (sheets, rest) = sheets_of(alloc, head.reducers, rest)?;
    let spill = FlatSpill {
        split: head.split,
        attempt: head.attempt,
        from: head.from,
        to: head.to,
        sheets,
    };
    Ok((spill, rest))
}

// The six fields of the head, and what follows them.
#[tactic(auto, unfolding(crate::specs::Reading::head_at))]
fn head_of(bytes: &[u8]) -> Result<(Head, &[u8]), Stop>
    ensures reading { Gives (λ x. (x.0, x.1.now)) result (head_at bytes.now) }
    ensures some { IfOk result (λ x. 1 ≤ x.0.reducers) }
    ensures few { IfOk result (λ x. x.0.reducers ≤ 8) }
{
    let (_letters, rest) = word_within(MAGIC, MAGIC, bytes)?;
    let (split, rest) = word_within(0, MAX_SPLITS - 1, rest)?;
    let (attempt, rest) = word_within(0, MAX_ATTEMPTS as u32 - 1, rest)?;
    let (from, rest) = word_within(0, MAX_RECORDS - 1, rest)?;
    let (to, rest) = word_within(from + 1, MAX_RECORDS, rest)?;
    let (reducers, rest) = word_within(1, MAX_REDUCERS as u32, rest)?;
    let head = Head {
        split,
        attempt: attempt as u8,
        from,
        to,
        reducers: reducers as u8,
    };
    Ok((head, rest))
}

// The sheets of so many reducers, and what follows them.
fn sheets_of(alloc: Global, reducers: u8, bytes: &[u8]) -> Result<(FlatSheets, &[u8]), Stop>
    requires some { 1 ≤ reducers }
    requires few { reducers ≤ 8 }
    ensures { Gives (λ x. (x.0, x.1.now)) result (sheets_at reducers 0 reducers bytes.now) }
{
    let mut sheets = Listed::new(alloc);
    let mut rest = bytes;
    for p in 0..reducers {
        let (sheet, after) = sheet_of(alloc, p, reducers, rest)?;
        sheets.push(sheet)?;
        rest = after;
    }
    Ok((sheets, rest))
}

// The sheet of partition p of r, and what follows it.
#[tactic(auto, unfolding(crate::specs::Reading::sheet_at))]
fn sheet_of(alloc: Global, p: u8, r: u8, bytes: &[u8]) -> Result<(FlatSheet, &[u8]), Stop>
    requires some { 1 ≤ r }
    requires few { r ≤ 8 }
    ensures { Gives (λ x. (x.0, x.1.now)) result (sheet_at p r bytes.now) }
{
    let (count, rest) = word(bytes)?;
    let (pairs, rest) = pairs_of(alloc, count, p, r, rest)?;
    let sheet = pairs.finish()?;
    Ok((sheet, rest))
}

// So many pairs of partition p of r, in order, and what follows them.
fn pairs_of(
    alloc: Global,
    count: u32,
    p: u8,
    r: u8,
    bytes: &[u8],
) -> Result<(FlatSheetBuilder, &[u8]), Stop>
    requires some { 1 ≤ r }
    requires few { r ≤ 8 }
    ensures { Gives (λ x. (x.0, x.1.now)) result (pairs_at count p r None bytes.now) }
{
    let room = (count as usize).min(bytes.len() / LEAST_PAIR);
    let mut pairs = FlatSheetBuilder::with_room(alloc, 0, room)?;
    let mut before = None;
    let mut rest = bytes;
    for _ in 0..count {
        let (pair, after) = pair_of(p, r, before, rest)?;
        pairs.push_view(&pair)?;
        before = Some(pair);
        rest = after;
    }
    Ok((pairs, rest))
}

// The pair of partition p of r at the front, behind the one before it, and what follows it.
#[tactic(auto, unfolding(crate::specs::Reading::pair_at))]
fn pair_of<'a>(
    p: u8,
    r: u8,
    before: Option<PairView<'a>>,
    bytes: &'a [u8],
) -> Result<(PairView<'a>, &'a [u8]), Stop>
    requires some { 1 ≤ r }
    requires few { r ≤ 8 }
    ensures { Gives (λ x. (x.0, x.1.now)) result (pair_at p r before.entry bytes.now) }
{
    let (key, rest) = counted(bytes)?;
    let (n, rest) = long(rest)?;
    let (text, rest) = counted(rest)?;
    let pair = PairView { key, n, text };
    if !may_follow(p, r, &before, &pair) {
        return Err(Stop::Left(bytes.len()));
    }
    Ok((pair, rest))
}

// Whether the pair may stand behind the one before it, in the sheet of partition p of r.
fn may_follow(p: u8, r: u8, before: &Option<PairView<'_>>, pair: &PairView<'_>) -> bool
    requires some { 1 ≤ r }
    requires few { r ≤ 8 }
    ensures { result ≡ may_follow p r before.now pair.now }
{
    !is_smaller(before, pair) && partition(pair.key, r) == p
}

// Whether the pair is smaller than the one before it.
fn is_smaller(before: &Option<PairView<'_>>, pair: &PairView<'_>) -> bool
    ensures { result ≡ is_smaller before.now pair.now }
{
    match before {
        Some(before) => before > pair,
        None => false,
    }
}
