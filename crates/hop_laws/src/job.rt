//! The trait of jobs.
ghost use Rattle.std.specs.Prelude.{◌≡◌, ◌≤◌, ◌<◌, ◌++◌, length, IsSorted, IfOk, OnOk, OnErr};
ghost use Rattle.hop_base.specs.Meaning.{Meaning};
ghost use Rattle.hop_base.specs.Order.{val_cmp};
ghost use Rattle.hop_laws.specs.Laws.{IsLawful};
ghost use Rattle.hop_laws.specs.Numbers.{JoinsTo};

use crate::sink::PairSink;
use hop_base::{Blob, NoMemory, Pair, Val};
use std::alloc::Global;

/// A job of map and reduce with a combiner, as in MapReduce (OSDI 2004): map emits pairs for each
/// record, and reduce writes text for each key and its values. Before they are reduced, combine may
/// replace values of a key by others, no more of them and no longer, as often as one likes.
pub trait Job {
    /// What its calls give, as functions of a record, and of a key with its values in order.
    ghost meaning: { Self → Meaning };

    /// The job's name, of one or more bytes, without line feed and space.
    fn name(&self, alloc: Global) -> Result<Blob, NoMemory>
        ensures { IfOk result (λ name. name ≡ (meaning self.now).name) };

    /// The pairs that it emits for a record of at most 131,050 bytes, in order.
    fn map(&self, alloc: Global, line: &[u8]) -> Result<Vec<Pair>, NoMemory>
        requires { length line.now ≤ 131050 }
        ensures { IfOk result (λ pairs. pairs.items ≡ (meaning self.now).emits line.now) };

    /// Hands the pairs that it emits for a record of at most 131,050 bytes to a sink, in order. Unless a job
    /// says otherwise they are those of `map`; a job that has them as slices of the record spares the memory.
    fn emit<S: PairSink>(&self, alloc: Global, line: &[u8], sink: &mut S) -> Result<(), NoMemory>
        requires { length line.now ≤ 131050 }
        ensures { OnOk result (S.takes sink.old ((meaning self.now).emits line.now) sink.new) }
    {
        let pairs = self.map(alloc, line)?;
        for pair in &pairs {
            sink.take(pair.key.as_slice(), pair.val.n, pair.val.s.as_slice())?;
        }
        Ok(())
    }

    /// What these values of the key, one or more in order, are combined to. After `NoMemory` they
    /// are gone.
    fn combine(&self, alloc: Global, key: &Blob, vals: Vec<Val>) -> Result<Vec<Val>, NoMemory>
        requires some { 0 < length vals.items }
        requires sorted { IsSorted val_cmp vals.items }
        ensures { IfOk result (λ kept. kept.items ≡ (meaning self.now).combined key.now vals.items) };

    /// One number for two of a key that have no texts, the lesser first: what combine gives of the two, whatever the key is, and no combine may tell it from
    /// them, whatever values are there besides. A job that tells it spares its pairs being sorted and combined one by one, since a pair
    /// whose key is there already is joined to that; unless it says otherwise it tells nothing, and values are combined when many have gathered.
    fn joined(&self, a: u64, b: u64) -> Option<u64>
        requires { a ≤ b }
        ensures { JoinsTo (meaning self.now) a b result }
    {
        let _ = (a, b);
        None
    }

    /// Appends the text for the key and its values, one or more in order. After `NoMemory` the text
    /// is as before.
    fn reduce(
        &self,
        alloc: Global,
        key: &Blob,
        vals: &[Val],
        out: &mut Vec<u8>,
    ) -> Result<(), NoMemory>
        requires some { 0 < length vals.now }
        requires sorted { IsSorted val_cmp vals.now }
        ensures ok { OnOk result (out.new.items ≡ out.old.items ++ (meaning self.now).reduced key.now vals.now) }
        ensures err { OnErr result (out.new.items ≡ out.old.items) };

    /// Every job of the type meets the laws.
    ghost lawful: { (j : Self) → IsLawful (meaning j) };
}
