//! The job that counts words.
ghost use Rattle.std.specs.Prelude.{◌≡◌, ◌≤◌, ◌++◌, ◌∷◌, [], length, map, filter, OnOk};
ghost use Rattle.hop_jobs.specs.Wc.{is_some_part, piece_pair};

use crate::numbers::{append_line, number, one_number, sum};
use hop_base::{Blob, NoMemory, Pair, Val};
use hop_laws::{Job, PairSink};
use memchr::memchr2;
use std::alloc::Global;

/// Counts words: the maximal pieces of a record without space and tab. Its name is `wc`.
#[derive(Clone, Copy, Debug)]
pub struct Wc;

impl Job for Wc {
    ghost use Rattle.hop_jobs.specs.Wc.{wc_meaning};
    ghost use Rattle.hop_jobs.specs.WcLaws.{wc_lawful};

    ghost meaning = { λ _. wc_meaning };

    ghost lawful = { λ _. wc_lawful };

    fn name(&self, alloc: Global) -> Result<Blob, NoMemory> {
        Blob::from_short(alloc, b"wc")
    }

    fn map(&self, alloc: Global, line: &[u8]) -> Result<Vec<Pair>, NoMemory> {
        let mut pairs = Vec::new(alloc);
        let mut rest = line;
        while let Some(end) = memchr2(b' ', b'\t', rest) {
            push_piece(alloc, &mut pairs, &rest[..end])?;
            let (_, later) = rest.split_at(end + 1);
            rest = later;
        }
        push_piece(alloc, &mut pairs, rest)?;
        Ok(pairs)
    }

    fn emit<S: PairSink>(&self, _alloc: Global, line: &[u8], sink: &mut S) -> Result<(), NoMemory> {
        let mut rest = line;
        while let Some(end) = memchr2(b' ', b'\t', rest) {
            emit_piece(&rest[..end], sink)?;
            let (_, later) = rest.split_at(end + 1);
            rest = later;
        }
        emit_piece(rest, sink)?;
        Ok(())
    }

    fn combine(&self, _alloc: Global, _key: &Blob, vals: Vec<Val>) -> Result<Vec<Val>, NoMemory> {
        let n = sum(&vals);
        one_number(vals, n)
    }

    fn joined(&self, a: u64, b: u64) -> Option<u64> {
        Some(a.saturating_add(b))
    }

    fn reduce(
        &self,
        _alloc: Global,
        key: &Blob,
        vals: &[Val],
        out: &mut Vec<u8>,
    ) -> Result<(), NoMemory> {
        append_line(out, key.as_slice(), sum(vals))
    }
}

// Appends the piece with the number 1, or nothing where the piece is empty.
fn push_piece(alloc: Global, pairs: &mut Vec<Pair>, piece: &[u8]) -> Result<(), NoMemory>
    requires { length piece.now ≤ 131071 }
    ensures { OnOk result (pairs.new.items ≡ pairs.old.items ++ map piece_pair (filter is_some_part (piece.now ∷ []))) }
{
    if !piece.is_empty() {
        let key = Blob::from_short(alloc, piece)?;
        let val = number(alloc, 1)?;
        pairs.push(Pair { key, val })?;
    }
    Ok(())
}

// Hands the piece with the number 1 to a sink, or nothing where the piece is empty.
fn emit_piece<S: PairSink>(piece: &[u8], sink: &mut S) -> Result<(), NoMemory>
    requires { length piece.now ≤ 131071 }
    ensures { OnOk result (S.takes sink.old (map piece_pair (filter is_some_part (piece.now ∷ []))) sink.new) }
{
    if !piece.is_empty() {
        sink.take(piece, 1, b"")?;
    }
    Ok(())
}
