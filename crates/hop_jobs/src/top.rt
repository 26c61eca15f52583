//! The job that keeps the best values.
ghost use Rattle.std.specs.Prelude.{◌≡◌, ◌≤◌, ◌++◌, length, take, map, IfOk, OnOk, OnErr};
ghost use Rattle.std.specs.List.{flat_map};
ghost use Rattle.hop_jobs.specs.Top.{best_cmp, best_of, value_line};

use crate::numbers::append_line;
use crate::record::{last_tab, read_number};
use hop_base::{Blob, NoMemory, Pair, Val};
use hop_laws::{Job, PairSink};
use itoa::Buffer;
use std::alloc::Global;
use std::cmp::Ordering;

/// Keeps the `k` best records of all, over records like those of `Sum`: those of the greatest
/// numbers, and of equal numbers those of the smaller keys. Equal records are kept as often as they
/// occur. Its name is `top:` and `k` in decimal.
#[derive(Clone, Copy, Debug)]
pub struct Top {
    /// How many, 1 to 1,000.
    pub k: u32,
    ghost in_range: { (1 ≤ k) × (k ≤ 1000) },
}

impl Top {
    /// The job that keeps the `k` best, 1 to 1,000.
    pub fn new(k: u32) -> Top
        requires some { 1 ≤ k }
        requires few { k ≤ 1000 }
        ensures { result.k ≡ k }
    {
        Top { k }
    }
}

impl Job for Top {
    ghost use Rattle.hop_jobs.specs.Top.{top_meaning};
    ghost use Rattle.hop_jobs.specs.TopLaws.{top_lawful};

    ghost meaning = { λ j. top_meaning j.k };

    ghost lawful = { λ j. top_lawful j.k j.in_range.0 j.in_range.1 };

    fn name(&self, alloc: Global) -> Result<Blob, NoMemory> {
        let mut buffer = Buffer::new();
        let mut name = Vec::from_slice(alloc, b"top:")?;
        name.extend_from_slice(buffer.format(self.k).as_bytes())?;
        Blob::from_short(alloc, &name)
    }

    fn map(&self, alloc: Global, line: &[u8]) -> Result<Vec<Pair>, NoMemory> {
        let mut pairs = Vec::new(alloc);
        if let Some(tab) = last_tab(line) {
            if let Some(n) = read_number(&line[tab + 1..]) {
                let key = Blob::from_short(alloc, b"")?;
                let s = Blob::from_short(alloc, &line[..tab])?;
                let val = Val { n, s };
                pairs.push(Pair { key, val })?;
            }
        }
        Ok(pairs)
    }

    fn emit<S: PairSink>(&self, _alloc: Global, line: &[u8], sink: &mut S) -> Result<(), NoMemory> {
        if let Some(tab) = last_tab(line) {
            if let Some(n) = read_number(&line[tab + 1..]) {
                sink.take(b"", n, &line[..tab])?;
            }
        }
        Ok(())
    }

    fn combine(&self, _alloc: Global, _key: &Blob, vals: Vec<Val>) -> Result<Vec<Val>, NoMemory> {
        let mut kept = best(vals, self.k);
        kept.sort_unstable();
        Ok(kept)
    }

    fn reduce(
        &self,
        alloc: Global,
        _key: &Blob,
        vals: &[Val],
        out: &mut Vec<u8>,
    ) -> Result<(), NoMemory> {
        let kept = best_of_all(alloc, vals, self.k)?;
        let before = out.len();
        match append_lines(out, &kept) {
            Ok(()) => Ok(()),
            Err(NoMemory) => {
                out.truncate(before);
                Err(NoMemory)
            }
        }
    }
}

// The greater number first, and then the smaller text.
fn compare(a: &Val, b: &Val) -> Ordering
    ensures { result ≡ best_cmp a.now b.now }
{
    b.n.cmp(&a.n).then(a.s.cmp(&b.s))
}

// The k best, best first.
fn best(mut vals: Vec<Val>, k: u32) -> Vec<Val>
    ensures { result.items ≡ best_of k vals.items }
{
    vals.sort_unstable_by(|a, b| compare(a, b));
    vals.truncate(k as usize);
    vals
}

// The same where the values are lent.
fn best_of_all(alloc: Global, vals: &[Val], k: u32) -> Result<Vec<&Val>, NoMemory>
    ensures { IfOk result (λ kept. map (λ v. v.now) kept.items ≡ best_of k vals.now) }
{
    let mut kept = lent(alloc, vals)?;
    kept.sort_unstable_by(|a, b| compare(a, b));
    kept.truncate(k as usize);
    Ok(kept)
}

// A reference to each.
fn lent(alloc: Global, vals: &[Val]) -> Result<Vec<&Val>, NoMemory>
    ensures { IfOk result (λ refs. map (λ v. v.now) refs.items ≡ vals.now) }
{
    let mut refs = Vec::with_capacity(alloc, vals.len())?;
    for val in vals {
        refs.push(val)?;
    }
    Ok(refs)
}

// Appends the line of each value.
fn append_lines(out: &mut Vec<u8>, vals: &[&Val]) -> Result<(), NoMemory>
    ensures ok { OnOk result (out.new.items ≡ out.old.items ++ flat_map value_line (map (λ v. v.now) vals.now)) }
    ensures err { OnErr result (take (length out.old.items) out.new.items ≡ out.old.items) }
{
    for val in vals {
        append_line(out, val.s.as_slice(), val.n)?;
    }
    Ok(())
}
