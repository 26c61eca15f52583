//! Sheets: pairs in order.
ghost use Rattle.std.specs.Prelude.{◌≡◌, IfOk, IsPermutation, IsSorted};
ghost use Rattle.hop_base.specs.Order.{IsSheet, pair_cmp};
ghost use Rattle.hop_base.specs.Sorted.{ord};

use crate::memory::NoMemory;
use crate::value::Pair;
use std::marker::Model;

/// Pairs in order, equal ones as often as they occur.
#[derive(Debug, Drop)]
pub struct Sheet {
    pairs: Vec<Pair>,
}

impl Model for Sheet {
    ghost use Rattle.std.specs.Prelude.{List};
    ghost use Rattle.hop_base.specs.declared.value.Pair.{Pair};
    ghost use Rattle.hop_base.specs.Order.{IsSheet};

    ghost Value = { List Pair };

    ghost view = { λ b. b.pairs.items };

    ghost invariant = { λ b. IsSheet b.pairs.items };
}

impl Sheet {
    /// The same pairs, as often each, in order. It takes no memory.
    pub fn from_pairs(mut pairs: Vec<Pair>) -> Sheet
        ensures exact { result ≡ ord pair_cmp pairs.items }
        ensures same { IsPermutation pairs.items result }
        ensures sheet { IsSheet result }
    {
        pairs.sort_unstable();
        Pair::all_known(&pairs);
        Sheet { pairs }
    }

    /// A sheet of pairs that are in order already. It takes no memory.
    pub fn from_sorted(pairs: Vec<Pair>) -> Sheet
        requires { IsSorted pair_cmp pairs.items }
        ensures exact { result ≡ pairs.items }
        ensures sheet { IsSheet result }
    {
        Pair::all_known(&pairs);
        Sheet { pairs }
    }

    /// Its pairs, in order.
    pub fn as_slice(&self) -> &[Pair]
        ensures value { result.now ≡ self.now }
        ensures sheet { IsSheet self.now }
    {
        &self.pairs
    }

    /// The pairs themselves, in order. It takes no memory.
    pub fn into_vec(self) -> Vec<Pair>
        ensures value { result.items ≡ self }
        ensures sheet { IsSheet self }
    {
        let Sheet { pairs } = self;
        pairs
    }

    /// An equal sheet.
    pub fn copy(&self) -> Result<Sheet, NoMemory>
        ensures { IfOk result (λ sheet. sheet ≡ self.now) }
    {
        let mut pairs = Vec::with_capacity(*self.pairs.allocator(), self.pairs.len())?;
        Pair::copy_all(&self.pairs, &mut pairs)?;
        Ok(Sheet { pairs })
    }
}
