//! The jobs that are known by name, as one type.
use crate::max::Max;
use crate::sum::Sum;
use crate::top::Top;
use crate::wc::Wc;
use hop_base::{Blob, Listed, NoMemory, Pair, Val};
use hop_laws::{Job, PairSink};
use std::alloc::Global;

/// A job that is known by name.
#[derive(Clone, Copy, Debug)]
pub enum Known {
    Wc(Wc),
    Sum(Sum),
    Max(Max),
    Top(Top),
}

/// A list of jobs, as of a chain.
pub type Jobs = Listed<Known>;

impl Job for Known {
    ghost use Rattle.hop_jobs.specs.Known.{known_meaning};
    ghost use Rattle.hop_jobs.specs.KnownLaws.{known_lawful};

    ghost meaning = { known_meaning };

    ghost lawful = { known_lawful };

    fn name(&self, alloc: Global) -> Result<Blob, NoMemory> {
        match self {
            Known::Wc(job) => job.name(alloc),
            Known::Sum(job) => job.name(alloc),
            Known::Max(job) => job.name(alloc),
            Known::Top(job) => job.name(alloc),
        }
    }

    fn map(&self, alloc: Global, line: &[u8]) -> Result<Vec<Pair>, NoMemory> {
        match self {
            Known::Wc(job) => job.map(alloc, line),
            Known::Sum(job) => job.map(alloc, line),
            Known::Max(job) => job.map(alloc, line),
            Known::Top(job) => job.map(alloc, line),
        }
    }

    fn emit<S: PairSink>(&self, alloc: Global, line: &[u8], sink: &mut S) -> Result<(), NoMemory> {
        match self {
            Known::Wc(job) => job.emit(alloc, line, sink),
            Known::Sum(job) => job.emit(alloc, line, sink),
            Known::Max(job) => job.emit(alloc, line, sink),
            Known::Top(job) => job.emit(alloc, line, sink),
        }
    }

    fn combine(&self, alloc: Global, key: &Blob, vals: Vec<Val>) -> Result<Vec<Val>, NoMemory> {
        match self {
            Known::Wc(job) => job.combine(alloc, key, vals),
            Known::Sum(job) => job.combine(alloc, key, vals),
            Known::Max(job) => job.combine(alloc, key, vals),
            Known::Top(job) => job.combine(alloc, key, vals),
        }
    }

    fn joined(&self, a: u64, b: u64) -> Option<u64> {
        match self {
            Known::Wc(job) => job.joined(a, b),
            Known::Sum(job) => job.joined(a, b),
            Known::Max(job) => job.joined(a, b),
            Known::Top(job) => job.joined(a, b),
        }
    }

    fn reduce(
        &self,
        alloc: Global,
        key: &Blob,
        vals: &[Val],
        out: &mut Vec<u8>,
    ) -> Result<(), NoMemory> {
        match self {
            Known::Wc(job) => job.reduce(alloc, key, vals, out),
            Known::Sum(job) => job.reduce(alloc, key, vals, out),
            Known::Max(job) => job.reduce(alloc, key, vals, out),
            Known::Top(job) => job.reduce(alloc, key, vals, out),
        }
    }
}
