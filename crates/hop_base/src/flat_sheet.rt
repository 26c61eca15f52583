//! Sheets as bytes.
ghost use Rattle.std.specs.Prelude.{◌≡◌, ℕ, List, [], ◌+◌, ◌<◌, ◌≤◌, ◌++◌, length, drop, slice_get, slice_index_or, Some, IfOk};
ghost use Rattle.hop_base.specs.declared.value.Pair.{Pair};
ghost use Rattle.hop_base.specs.Order.{IsSheet, IsValidPair};
ghost use Rattle.hop_base.specs.Fields.{word_front, long_front, counted_front, behind_counted, pair_front, pair_text};
ghost use Rattle.hop_base.specs.Flat.{pairs_text};

use crate::flat_builder::FlatSheetBuilder;
use crate::listed::Listed;
use crate::memory::NoMemory;
use crate::pair_view::PairView;
use crate::sheet::Sheet;
use bytes::Bytes;
use std::alloc::Global;
use std::marker::Model;

/// Pairs in order as shared bytes: the text of each pair, one behind the other, with the places where
/// they begin. A pair's text is its key's length in four bytes, the key, the number in eight bytes, the
/// length of the value's text in four bytes and that text, numbers with their greatest byte first. A
/// copy shares the bytes.
#[derive(Debug, Drop)]
pub struct FlatSheet {
    bytes: Bytes,
    starts: Vec<usize>,
}

/// A list of sheets as bytes, as one for each partition.
pub type FlatSheets = Listed<FlatSheet>;

impl Model for FlatSheet {
    ghost use Rattle.std.specs.Prelude.{List};
    ghost use Rattle.hop_base.specs.declared.value.Pair.{Pair};
    ghost use Rattle.hop_base.specs.Flat.{pairs_in, IsFlatSheet};

    ghost Value = { List Pair };

    ghost view = { λ f. pairs_in f.bytes f.starts.items };

    ghost invariant = { λ f. IsFlatSheet f.bytes f.starts.items };
}

impl FlatSheet {
    ghost use Rattle.hop_base.specs.Flat.{IsFlatSheet, pairs_in};

    /// The sheet of no pairs. It takes no memory.
    pub fn empty(alloc: Global) -> FlatSheet
        ensures { result ≡ [] }
    {
        FlatSheet {
            bytes: Bytes::new(),
            starts: Vec::new(alloc),
        }
    }

    // The sheet of these bytes, with the pairs that begin at these places.
    pub(crate) fn from_parts(bytes: Bytes, starts: Vec<usize>) -> FlatSheet
        requires { IsFlatSheet bytes starts.items }
        ensures { result ≡ pairs_in bytes starts.items }
    {
        FlatSheet { bytes, starts }
    }

    /// The pairs of a sheet.
    pub fn from_sheet(alloc: Global, sheet: &Sheet) -> Result<FlatSheet, NoMemory>
        ensures { IfOk result (λ flat. flat ≡ sheet.now) }
    {
        let mut builder = FlatSheetBuilder::new(alloc);
        for pair in sheet.as_slice() {
            builder.push(pair.key.as_slice(), pair.val.n, pair.val.s.as_slice())?;
        }
        builder.finish()
    }

    /// The number of pairs.
    pub fn len(&self) -> u64
        ensures { result ≡ length self.now }
    {
        self.starts.len() as u64
    }

    /// Pair `k`, counted from 0 and below `len`.
    pub fn pair(&self, k: u64) -> PairView<'_>
        requires { k < length self.now }
        ensures { slice_get self.now k ≡ Some result }
    {
        let at = self.starts[k as usize];
        let (_, rest) = self.bytes.as_slice().split_at(at);
        front(rest)
    }

    // The text of pair `k`, counted from 0 and below `len`.
    pub(crate) fn text(&self, k: u64) -> &[u8]
        requires { k < length self.now }
        ensures { (d : Pair) → result.now ≡ pair_text (slice_index_or self.now k d) }
    {
        let at = self.starts[k as usize];
        let (_, rest) = self.bytes.as_slice().split_at(at);
        let next = k as usize + 1;
        if next < self.starts.len() {
            let (text, _) = rest.split_at(self.starts[next] - at);
            text
        } else {
            rest
        }
    }

    /// The texts of the pairs in order, joined. It takes no memory.
    pub fn bytes(&self) -> &[u8]
        ensures { result.now ≡ pairs_text self.now }
    {
        self.bytes.as_slice()
    }

    /// The same pairs as a sheet.
    pub fn to_sheet(&self) -> Result<Sheet, NoMemory>
        ensures { IfOk result (λ sheet. sheet ≡ self.now) }
    {
        let alloc = *self.starts.allocator();
        let mut pairs = Vec::with_capacity(alloc, self.starts.len())?;
        for k in 0..self.len() {
            pairs.push(self.pair(k).to_pair(alloc)?)?;
        }
        Ok(Sheet::from_sorted(pairs))
    }

    /// An equal sheet, of the same bytes.
    pub fn copy(&self) -> Result<FlatSheet, NoMemory>
        ensures { IfOk result (λ flat. flat ≡ self.now) }
    {
        let bytes = self.bytes.clone()?;
        let starts = self.starts.clone()?;
        Ok(FlatSheet { bytes, starts })
    }

    /// The pairs are in order and within the limits. It does nothing: proofs learn it so.
    pub fn known(&self)
        ensures { IsSheet self.now }
    {
        let _starts = &self.starts;
    }
}

// The pair whose text stands at the front.
#[tactic(auto, unfolding(crate::specs::Fields::pair_front))]
fn front(bytes: &[u8]) -> PairView<'_>
    requires { (pair : Pair) × ((rest : List ℕ) × IsValidPair pair × (bytes.now ≡ pair_text pair ++ rest)) }
    ensures { result ≡ pair_front bytes.now }
{
    let (key, rest) = counted(bytes);
    let n = long(rest);
    let (_, rest) = rest.split_at(8);
    let (text, _) = counted(rest);
    PairView { key, n, text }
}

// The bytes behind their number at the front, and what follows them.
#[tactic(auto, unfolding(crate::specs::Fields::word_front))]
fn counted(bytes: &[u8]) -> (&[u8], &[u8])
    requires { 4 + word_front bytes.now ≤ length bytes.now }
    ensures front { result.0.now ≡ counted_front bytes.now }
    ensures rest { result.1.now ≡ behind_counted bytes.now }
{
    let (number, rest) = bytes.split_at(4);
    let len = u32::from_be_bytes([number[0], number[1], number[2], number[3]]);
    rest.split_at(len as usize)
}

// The number of eight bytes at the front.
#[tactic(auto, unfolding(crate::specs::Fields::long_front))]
fn long(bytes: &[u8]) -> u64
    requires { 8 ≤ length bytes.now }
    ensures { result ≡ long_front bytes.now }
{
    let (front, _) = bytes.split_at(8);
    u64::from_be_bytes([
        front[0], front[1], front[2], front[3], front[4], front[5], front[6], front[7],
    ])
}
