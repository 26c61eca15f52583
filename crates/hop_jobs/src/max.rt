//! The job that finds the greatest number of each key.
ghost use Rattle.std.specs.Prelude.{◌≡◌};
ghost use Rattle.hop_jobs.specs.Max.{greatest as greatest_of};

use crate::numbers::{append_line, one_number};
use crate::record::{emit_numbered, numbered};
use hop_base::{Blob, NoMemory, Pair, Val};
use hop_laws::{Job, PairSink};
use std::alloc::Global;

/// Finds the greatest number of each key, over records like those of `Sum`. Its name is `max`.
#[derive(Clone, Copy, Debug)]
pub struct Max;

impl Job for Max {
    ghost use Rattle.hop_jobs.specs.Max.{max_meaning};
    ghost use Rattle.hop_jobs.specs.MaxLaws.{max_lawful};

    ghost meaning = { λ _. max_meaning };

    ghost lawful = { λ _. max_lawful };

    fn name(&self, alloc: Global) -> Result<Blob, NoMemory> {
        Blob::from_short(alloc, b"max")
    }

    fn map(&self, alloc: Global, line: &[u8]) -> Result<Vec<Pair>, NoMemory> {
        numbered(alloc, line)
    }

    fn emit<S: PairSink>(&self, _alloc: Global, line: &[u8], sink: &mut S) -> Result<(), NoMemory> {
        emit_numbered(line, sink)
    }

    fn combine(&self, _alloc: Global, _key: &Blob, vals: Vec<Val>) -> Result<Vec<Val>, NoMemory> {
        let n = greatest(&vals);
        one_number(vals, n)
    }

    fn joined(&self, _a: u64, b: u64) -> Option<u64> {
        Some(b)
    }

    fn reduce(
        &self,
        _alloc: Global,
        key: &Blob,
        vals: &[Val],
        out: &mut Vec<u8>,
    ) -> Result<(), NoMemory> {
        append_line(out, key.as_slice(), greatest(vals))
    }
}

// The greatest of the numbers.
fn greatest(vals: &[Val]) -> u64
    ensures { result ≡ greatest_of vals.now }
{
    let mut most: u64 = 0;
    for val in vals {
        most = most.max(val.n);
    }
    most
}
