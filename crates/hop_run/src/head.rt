//! What is left of a sheet that is being merged.
ghost use Rattle.std.specs.Prelude.{◌≡◌, ◌∷◌, ◌++◌, ◌+◌, ◌<◌, [], length, drop, slice_get, Some, MatchOption, IfSome, OnOk, IsSorted};
ghost use Rattle.hop_base.specs.Order.{pair_cmp};

use hop_base::{FlatSheet, FlatSheetBuilder, NoMemory, PairView};
use std::cmp::Ordering;
use std::marker::Model;

// The pairs of a sheet from a place on, of which there is one at least.
#[derive(Drop)]
pub(crate) struct Head<'a> {
    sheet: &'a FlatSheet,
    at: u64,
    pair: PairView<'a>,
}

impl<'a> Model for Head<'a> {
    ghost use Rattle.std.specs.Prelude.{◌≡◌, ◌+◌, ◌<◌, drop, length, slice_get, Some, IsSorted};
    ghost use Rattle.hop_base.specs.Order.{pair_cmp};
    ghost use Rattle.hop_run.specs.Heads.{HeadValue};

    ghost Value = { HeadValue };

    ghost view = { λ h. record { first = h.pair; later = drop (h.at + 1) h.sheet.now } };

    ghost invariant = { λ h. (h.at < length h.sheet.now) × ((slice_get h.sheet.now h.at ≡ Some h.pair) × IsSorted pair_cmp h.sheet.now) };
}

impl<'a> Head<'a> {
    ghost use Rattle.hop_run.specs.Heads.{IsSortedHead, head_pairs};

    // The pairs from a place on.
    pub(crate) fn new(sheet: &'a FlatSheet, at: u64) -> Head<'a>
        requires { at < length sheet.now }
        ensures pairs { head_pairs result ≡ drop at sheet.now }
        ensures sorted { IsSortedHead result }
    {
        sheet.known();
        let pair = sheet.pair(at);
        Head { sheet, at, pair }
    }

    // The first pair goes to the end of a builder.
    pub(crate) fn push_to(&self, to: &mut FlatSheetBuilder) -> Result<(), NoMemory>
        ensures { OnOk result (to.new ≡ to.old ++ self.now.first ∷ []) }
    {
        to.push_from(self.sheet, self.at)
    }

    // The pairs behind the first one, if there are any.
    pub(crate) fn next(self) -> Option<Head<'a>>
        ensures pairs { MatchOption result (self.entry.later ≡ []) (λ head. head_pairs head ≡ self.entry.later) }
        ensures sorted { IfSome result IsSortedHead }
    {
        let len = self.sheet.len();
        let next = self.at + 1;
        if next < len {
            Some(Head::new(self.sheet, next))
        } else {
            None
        }
    }
}

impl PartialEq for Head<'_> {
    ghost use Rattle.std.specs.Ordering.{eq_by_cmp};
    ghost use Rattle.std.specs.Cmp.{partial_equiv_from_equiv, eq_by_cmp_equiv};
    ghost use Rattle.hop_run.specs.Heads.{head_cmp, head_total};

    ghost eq = { eq_by_cmp head_cmp };

    ghost laws = { partial_equiv_from_equiv (eq_by_cmp_equiv head_total) };

    fn eq(&self, other: &Self) -> bool {
        self.cmp(other).is_eq()
    }
}

impl Eq for Head<'_> {
    ghost use Rattle.std.specs.Cmp.{eq_by_cmp_equiv};
    ghost use Rattle.hop_run.specs.Heads.{head_total};

    ghost laws = { eq_by_cmp_equiv head_total };
}

impl PartialOrd for Head<'_> {
    ghost use Rattle.std.specs.Prelude.{Some, refl};
    ghost use Rattle.std.specs.Cmp.{po};
    ghost use Rattle.hop_run.specs.Heads.{head_cmp, head_total};

    ghost partial_cmp = { λ x y. Some (head_cmp x y) };

    ghost laws = { po head_total (λ x y. refl) };

    fn partial_cmp(&self, other: &Self) -> Option<Ordering> {
        Some(self.cmp(other))
    }
}

/// A heap gives its greatest item first, so the least pair counts as the greatest.
impl Ord for Head<'_> {
    ghost use Rattle.std.specs.Prelude.{refl};
    ghost use Rattle.hop_run.specs.Heads.{head_cmp, head_total};

    ghost cmp = { head_cmp };

    ghost total = { head_total };

    ghost matches_partial_cmp = { λ x y. refl };

    ghost matches_eq = { λ x y. refl };

    fn cmp(&self, other: &Self) -> Ordering {
        other.pair.cmp(&self.pair)
    }
}
