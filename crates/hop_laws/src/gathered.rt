//! Pairs that are gathered, to be put in order.
ghost use Rattle.std.specs.Prelude.{◌≡◌, ◌<◌, ◌≤◌, ◌++◌, ◌∷◌, [], length, IfOk, IfSome, OnOk, OnErr, All, IsPermutation};
ghost use Rattle.hop_base.specs.Order.{pair_cmp, IsValidPair};
ghost use Rattle.hop_base.specs.Sorted.{ord};
ghost use Rattle.hop_laws.specs.Groups.{red};
ghost use Rattle.hop_base.specs.Fields.{pair_of};
ghost use Rattle.hop_laws.specs.Numbers.{IsAt, renumbered};
ghost use Rattle.hop_laws.specs.Stands.{combined_pairs};

use crate::entry::{Entry, append, has_key, is_same_key, sort};
use crate::groups_in::{combine_entries, give_entries, reduce_entries};
use crate::job::Job;
use crate::sink::PairSink;
use hop_base::NoMemory;
use std::alloc::Global;
use std::marker::Model;

/// Pairs, gathered one by one to be put in order. They take 40 bytes each, and of longer keys and of texts the
/// bytes; what they took is kept for the next ones by `clear`.
#[derive(Drop)]
pub struct Gathered {
    arena: Vec<u8>,
    entries: Vec<Entry>,
}

impl Model for Gathered {
    ghost use Rattle.std.specs.Prelude.{List, All};
    ghost use Rattle.hop_base.specs.declared.value.Pair.{Pair};
    ghost use Rattle.hop_laws.specs.Entries.{pairs_in, IsEntry};

    ghost Value = { List Pair };

    ghost view = { λ g. pairs_in g.arena.items g.entries.items };

    ghost invariant = { λ g. All (IsEntry g.arena.items) g.entries.items };
}

impl Gathered {
    /// No pairs. It takes no memory.
    pub fn new(alloc: Global) -> Gathered
        ensures { result ≡ [] }
    {
        Gathered {
            arena: Vec::new(alloc),
            entries: Vec::new(alloc),
        }
    }

    /// How many pairs there are.
    pub fn len(&self) -> usize
        ensures { result ≡ length self.now }
    {
        self.entries.len()
    }

    /// Forgets the pairs, and keeps the memory.
    pub fn clear(&mut self)
        ensures { self.new ≡ [] }
    {
        self.entries.clear();
        self.arena.clear();
    }

    /// The number of pair `k`, if there is one, and it has this key and no text.
    pub fn number_at(&self, k: usize, key: &[u8]) -> Option<u64>
        ensures { IfSome result (λ n. IsAt self.now k (pair_of key.now n [])) }
    {
        if k < self.entries.len() {
            let entry = &self.entries[k];
            if entry.text_len == 0 && has_key(&self.arena, entry, key) {
                return Some(entry.number);
            }
        }
        None
    }

    /// Gives pair `k` another number.
    pub fn set_number(&mut self, k: usize, number: u64)
        requires { k < length self.now }
        ensures exact { self.new ≡ renumbered self.old k number }
        ensures valid { All IsValidPair self.old }
    {
        let entry = &mut self.entries[k];
        entry.number = number;
    }

    /// Whether at most a quarter of the pairs have the key of the pair before them. Where they are in order,
    /// combine would leave nearly all of them then.
    pub fn are_mostly_apart(&self) -> bool {
        let mut left = self.entries.len() / 4;
        for k in 1..self.entries.len() {
            if is_same_key(&self.arena, &self.entries[k - 1], &self.entries[k]) {
                if left == 0 {
                    return false;
                }
                left -= 1;
            }
        }
        true
    }

    /// Puts the pairs in order, equal ones as often as they occur. It takes no memory.
    pub fn sort(&mut self)
        ensures exact { self.new ≡ ord pair_cmp self.old }
        ensures same { IsPermutation self.old self.new }
        ensures valid { All IsValidPair self.new }
    {
        sort(&self.arena, &mut self.entries);
    }

    /// Puts the pairs in order and hands them to a sink.
    pub fn sorted_into<S: PairSink>(&mut self, sink: &mut S) -> Result<(), NoMemory>
        ensures given { OnOk result (S.takes sink.old (ord pair_cmp self.old) sink.new) }
        ensures sorted { self.new ≡ ord pair_cmp self.old }
    {
        self.sort();
        give_entries(&self.arena, &self.entries, sink)
    }

    /// Puts the pairs in order and hands what the values of each key are combined to to a sink, in order too. The
    /// values of a key are combined once, all together.
    pub fn combined_into<J: Job, S: PairSink>(
        &mut self,
        alloc: Global,
        job: &J,
        sink: &mut S,
    ) -> Result<(), NoMemory>
        ensures given { OnOk result (S.takes sink.old (combined_pairs (J.meaning job.now).combined self.old) sink.new) }
        ensures sorted { self.new ≡ ord pair_cmp self.old }
        ensures valid { All IsValidPair self.old }
    {
        self.sort();
        combine_entries(alloc, job, &self.arena, &self.entries, sink)
    }

    /// Puts the pairs in order and gives what reduce gives for each key and its values, the keys ascending, joined.
    pub fn reduced<J: Job>(&mut self, alloc: Global, job: &J) -> Result<Vec<u8>, NoMemory>
        ensures text { IfOk result (λ text. text.items ≡ red (J.meaning job.now).reduced self.old) }
        ensures sorted { self.new ≡ ord pair_cmp self.old }
    {
        self.sort();
        reduce_entries(alloc, job, &self.arena, &self.entries)
    }
}

impl PairSink for Gathered {
    ghost use Rattle.std.specs.Prelude.{◌≡◌, ◌++◌};
    ghost use Rattle.hop_laws.specs.Appending.{appends_none, appends_more};

    ghost takes = { λ s ps t. t ≡ s ++ ps };

    ghost takes_none = { appends_none };

    ghost takes_more = { appends_more };

    fn take(&mut self, key: &[u8], number: u64, text: &[u8]) -> Result<(), NoMemory>
        requires short_key { length key.now ≤ 131071 }
        requires short_text { length text.now ≤ 131071 }
        ensures ok { OnOk result (self.new ≡ self.old ++ pair_of key.now number text.now ∷ []) }
        ensures err { OnErr result (self.new ≡ self.old) }
    {
        let entry = append(&mut self.arena, key, number, text)?;
        self.entries.push(entry)?;
        Ok(())
    }
}
