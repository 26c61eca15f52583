//! What takes pairs.
ghost use Rattle.std.specs.Prelude.{◌≡◌, ◌≤◌, ◌∷◌, ◌++◌, [], List, length, OnOk};
ghost use Rattle.hop_base.specs.declared.value.Pair.{Pair};
ghost use Rattle.hop_base.specs.Fields.{pair_of};

use hop_base::{FlatSheetBuilder, NoMemory};

/// What takes pairs, one after the other, each as its key, its number and its text.
pub trait PairSink {
    /// That one state of the sink becomes another as it takes these pairs, in order.
    ghost takes: { Self → List Pair → Self → Type 0 };

    /// Takes one pair. After `NoMemory` the sink is good for being dropped alone.
    fn take(&mut self, key: &[u8], number: u64, text: &[u8]) -> Result<(), NoMemory>
        requires short_key { length key.now ≤ 131071 }
        requires short_text { length text.now ≤ 131071 }
        ensures { OnOk result (takes self.old (pair_of key.now number text.now ∷ []) self.new) };

    /// Of no pairs it stays as it is.
    ghost takes_none: { (s : Self) → takes s [] s };

    /// Some pairs and then others are all of them.
    ghost takes_more: { (s t u : Self) (ps qs : List Pair) → takes s ps t → takes t qs u → takes s (ps ++ qs) u };
}

impl PairSink for FlatSheetBuilder {
    ghost use Rattle.std.specs.Prelude.{◌≡◌, ◌++◌};
    ghost use Rattle.hop_laws.specs.Appending.{appends_none, appends_more};

    ghost takes = { λ s ps t. t ≡ s ++ ps };

    ghost takes_none = { appends_none };

    ghost takes_more = { appends_more };

    fn take(&mut self, key: &[u8], number: u64, text: &[u8]) -> Result<(), NoMemory> {
        self.push(key, number, text)
    }
}
