//! The job that adds up numbers.
use crate::numbers::{append_line, one_number, sum};
use crate::record::{emit_numbered, numbered};
use hop_base::{Blob, NoMemory, Pair, Val};
use hop_laws::{Job, PairSink};
use std::alloc::Global;

/// Adds up the numbers of each key, up to 2^64 - 1. A record is read at its last tab: before it stands
/// the key, which may be empty and may hold tabs, and behind it 1 to 20 decimal digits of a number
/// below 2^64. Any other record emits nothing. Its name is `sum`.
#[derive(Clone, Copy, Debug)]
pub struct Sum;

impl Job for Sum {
    ghost use Rattle.hop_jobs.specs.Sum.{sum_meaning};
    ghost use Rattle.hop_jobs.specs.SumLaws.{sum_lawful};

    ghost meaning = { λ _. sum_meaning };

    ghost lawful = { λ _. sum_lawful };

    fn name(&self, alloc: Global) -> Result<Blob, NoMemory> {
        Blob::from_short(alloc, b"sum")
    }

    fn map(&self, alloc: Global, line: &[u8]) -> Result<Vec<Pair>, NoMemory> {
        numbered(alloc, line)
    }

    fn emit<S: PairSink>(&self, _alloc: Global, line: &[u8], sink: &mut S) -> Result<(), NoMemory> {
        emit_numbered(line, sink)
    }

    fn combine(&self, _alloc: Global, _key: &Blob, vals: Vec<Val>) -> Result<Vec<Val>, NoMemory> {
        let n = sum(&vals);
        one_number(vals, n)
    }

    fn joined(&self, a: u64, b: u64) -> Option<u64> {
        Some(a.saturating_add(b))
    }

    fn reduce(
        &self,
        _alloc: Global,
        key: &Blob,
        vals: &[Val],
        out: &mut Vec<u8>,
    ) -> Result<(), NoMemory> {
        append_line(out, key.as_slice(), sum(vals))
    }
}
