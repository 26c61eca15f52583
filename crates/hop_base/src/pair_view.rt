//! Pairs that are looked at where they stand.
ghost use Rattle.std.specs.Prelude.{◌≡◌, ◌≤◌, length, IfOk};
ghost use Rattle.hop_base.specs.Order.{IsValidPair};
ghost use Rattle.hop_base.specs.Fields.{pair_of};

use crate::blob::Blob;
use crate::memory::NoMemory;
use crate::value::{Pair, Val};
use std::alloc::Global;
use std::cmp::Ordering;
use std::marker::Model;

/// A pair whose key and text are parts of other bytes. Contracts see the pair.
#[derive(Debug, Drop)]
pub struct PairView<'a> {
    /// The key, at most 131,071 bytes.
    pub key: &'a [u8],
    /// The value's number.
    pub n: u64,
    /// The value's text, at most 131,071 bytes.
    pub text: &'a [u8],
}

impl<'a> Model for PairView<'a> {
    ghost use Rattle.hop_base.specs.declared.value.Pair.{Pair};
    ghost use Rattle.hop_base.specs.Order.{IsValidPair};
    ghost use Rattle.hop_base.specs.Fields.{pair_of};

    ghost Value = { Pair };

    ghost view = { λ v. pair_of v.key.now v.n v.text.now };

    ghost invariant = { λ v. IsValidPair (pair_of v.key.now v.n v.text.now) };
}

impl PairView<'_> {
    /// A pair is within the limits. It does nothing: proofs learn it so.
    pub fn known(&self)
        ensures { IsValidPair self.now }
    {
        let _n = self.n;
    }

    /// The pair itself.
    pub fn to_pair(&self, alloc: Global) -> Result<Pair, NoMemory>
        ensures { IfOk result (λ pair. pair ≡ self.now) }
    {
        let key = Blob::from_short(alloc, self.key)?;
        let val = self.to_val(alloc)?;
        Ok(Pair { key, val })
    }

    /// The pair's value.
    pub fn to_val(&self, alloc: Global) -> Result<Val, NoMemory>
        ensures { IfOk result (λ val. val ≡ self.now.val) }
    {
        let n = self.n;
        let s = Blob::from_short(alloc, self.text)?;
        Ok(Val { n, s })
    }
}

impl PartialEq for PairView<'_> {
    ghost use Rattle.std.specs.Ordering.{eq_by_cmp};
    ghost use Rattle.std.specs.Cmp.{partial_equiv_from_equiv, eq_by_cmp_equiv};
    ghost use Rattle.hop_base.specs.Order.{pair_cmp};
    ghost use Rattle.hop_base.specs.OrderLaws.{pair_total};

    ghost eq = { eq_by_cmp pair_cmp };

    ghost laws = { partial_equiv_from_equiv (eq_by_cmp_equiv pair_total) };

    fn eq(&self, other: &Self) -> bool {
        self.cmp(other).is_eq()
    }
}

impl Eq for PairView<'_> {
    ghost use Rattle.std.specs.Cmp.{eq_by_cmp_equiv};
    ghost use Rattle.hop_base.specs.OrderLaws.{pair_total};

    ghost laws = { eq_by_cmp_equiv pair_total };
}

impl PartialOrd for PairView<'_> {
    ghost use Rattle.std.specs.Prelude.{Some, refl};
    ghost use Rattle.std.specs.Cmp.{po};
    ghost use Rattle.hop_base.specs.Order.{pair_cmp};
    ghost use Rattle.hop_base.specs.OrderLaws.{pair_total};

    ghost partial_cmp = { λ x y. Some (pair_cmp x y) };

    ghost laws = { po pair_total (λ x y. refl) };

    fn partial_cmp(&self, other: &Self) -> Option<Ordering> {
        Some(self.cmp(other))
    }
}

impl Ord for PairView<'_> {
    ghost use Rattle.std.specs.Prelude.{refl};
    ghost use Rattle.hop_base.specs.Order.{pair_cmp};
    ghost use Rattle.hop_base.specs.OrderLaws.{pair_total};

    ghost cmp = { pair_cmp };

    ghost total = { pair_total };

    ghost matches_partial_cmp = { λ x y. refl };

    ghost matches_eq = { λ x y. refl };

    fn cmp(&self, other: &Self) -> Ordering {
        match self.key.cmp(other.key) {
            Ordering::Equal => match self.n.cmp(&other.n) {
                Ordering::Equal => self.text.cmp(other.text),
                apart => apart,
            },
            apart => apart,
        }
    }
}
