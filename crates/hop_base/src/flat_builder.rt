//! Writing sheets as bytes, pair by pair.
ghost use Rattle.std.specs.Prelude.{◌≡◌, [], ◌∷◌, ◌+◌, ◌<◌, ◌≤◌, ◌++◌, length, slice_index_or, IfOk, OnOk, OnErr, IsSorted};
ghost use Rattle.hop_base.specs.declared.value.Pair.{Pair};
ghost use Rattle.hop_base.specs.Order.{pair_cmp};
ghost use Rattle.hop_base.specs.Fields.{pair_of, pair_text};

use crate::flat_sheet::FlatSheet;
use crate::memory::NoMemory;
use crate::pair_view::PairView;
use bytes::BytesMut;
use std::alloc::Global;
use std::marker::Model;

// The bytes of a pair's numbers.
const NUMBERS: usize = 16;

/// A sheet that is being written as bytes, seen as the pairs so far.
#[derive(Drop)]
pub struct FlatSheetBuilder {
    bytes: BytesMut,
    starts: Vec<usize>,
}

impl Model for FlatSheetBuilder {
    ghost use Rattle.std.specs.Prelude.{List};
    ghost use Rattle.hop_base.specs.declared.value.Pair.{Pair};
    ghost use Rattle.hop_base.specs.Flat.{pairs_in, IsText};

    ghost Value = { List Pair };

    ghost view = { λ b. pairs_in b.bytes.items b.starts.items };

    ghost invariant = { λ b. IsText b.bytes.items b.starts.items };
}

impl FlatSheetBuilder {
    /// No pairs yet. It takes no memory.
    pub fn new(alloc: Global) -> FlatSheetBuilder
        ensures { result ≡ [] }
    {
        FlatSheetBuilder {
            bytes: BytesMut::new(alloc),
            starts: Vec::new(alloc),
        }
    }

    /// No pairs yet, with room for so many bytes of so many pairs.
    pub fn with_room(
        alloc: Global,
        bytes: usize,
        pairs: usize,
    ) -> Result<FlatSheetBuilder, NoMemory>
        ensures { IfOk result (λ builder. builder ≡ []) }
    {
        let bytes = BytesMut::with_capacity(alloc, bytes)?;
        let starts = Vec::with_capacity(alloc, pairs)?;
        Ok(FlatSheetBuilder { bytes, starts })
    }

    /// The pair of this key, number and text is last. After `NoMemory` the pairs are as before.
    pub fn push(&mut self, key: &[u8], n: u64, text: &[u8]) -> Result<(), NoMemory>
        requires short_key { length key.now ≤ 131071 }
        requires short_text { length text.now ≤ 131071 }
        ensures ok { OnOk result (self.new ≡ self.old ++ pair_of key.now n text.now ∷ []) }
        ensures err { OnErr result (self.new ≡ self.old) }
    {
        let at = self.bytes.len();
        self.bytes.reserve(NUMBERS + key.len() + text.len())?;
        self.starts.push(at)?;
        write_pair(&mut self.bytes, key, n, text);
        Ok(())
    }

    /// The pair is last. After `NoMemory` the pairs are as before.
    pub fn push_view(&mut self, pair: &PairView<'_>) -> Result<(), NoMemory>
        ensures ok { OnOk result (self.new ≡ self.old ++ pair.now ∷ []) }
        ensures err { OnErr result (self.new ≡ self.old) }
    {
        self.push(pair.key, pair.n, pair.text)
    }

    /// Pair `k` of a sheet, counted from 0 and below its `len`, is last. Its text is copied as one slice.
    /// After `NoMemory` the pairs are as before.
    pub fn push_from(&mut self, sheet: &FlatSheet, k: u64) -> Result<(), NoMemory>
        requires { k < length sheet.now }
        ensures ok { OnOk result ((d : Pair) → self.new ≡ self.old ++ slice_index_or sheet.now k d ∷ []) }
        ensures err { OnErr result (self.new ≡ self.old) }
    {
        sheet.known();
        let text = sheet.text(k);
        let at = self.bytes.len();
        self.bytes.reserve(text.len())?;
        self.starts.push(at)?;
        self.bytes.extend_reserved(text);
        Ok(())
    }

    /// The sheet of these pairs, which are in order. It copies none of their bytes.
    pub fn finish(self) -> Result<FlatSheet, NoMemory>
        requires { IsSorted pair_cmp self }
        ensures { IfOk result (λ flat. flat ≡ self) }
    {
        let FlatSheetBuilder { bytes, starts } = self;
        let bytes = bytes.freeze()?;
        Ok(FlatSheet::from_parts(bytes, starts))
    }
}

// Appends the text of a pair, for which there is room.
#[tactic(auto, unfolding(crate::specs::Fields::pair_text, crate::specs::Fields::counted, crate::specs::Fields::word, crate::specs::Fields::long))]
fn write_pair(bytes: &mut BytesMut, key: &[u8], n: u64, text: &[u8])
    requires room { 16 + length key.now + length text.now ≤ bytes.old.spare }
    requires short_key { length key.now ≤ 131071 }
    requires short_text { length text.now ≤ 131071 }
    ensures { bytes.new.items ≡ bytes.old.items ++ pair_text (pair_of key.now n text.now) }
{
    bytes.extend_reserved(&(key.len() as u32).to_be_bytes());
    bytes.extend_reserved(key);
    bytes.extend_reserved(&n.to_be_bytes());
    bytes.extend_reserved(&(text.len() as u32).to_be_bytes());
    bytes.extend_reserved(text);
}
