//! Tests of runs and of merging them.
ghost use Rattle.std.specs.Prelude.{◌≡◌, ◌<◌, ◌≤◌, ◌++◌, ◌∷◌, [], length, IfOk};
ghost use Rattle.std.specs.List.{flat_map};
ghost use Rattle.hop_run.specs.Runs.{RunStands};
ghost use Rattle.hop_laws.specs.Blocking.{part_pairs};
ghost use Rattle.hop_laws.specs.Groups.{red};
ghost use Rattle.hop_records.specs.Records.{splits_of, len_of};

use hop_base::{NoMemory, Part, Text};
use hop_fold::Folded;
use hop_jobs::{Known, Wc};
use hop_laws::Job;
use hop_merge::merge_all;
use hop_records::{Book, BookFault};
use hop_run::{Run, Runs};
use std::alloc::{AllocError, Global};
use std::test::Fail;

// The run of a part, combined if that is wanted.
fn run_of<J: Job>(
    alloc: Global,
    job: &J,
    book: &Book,
    part: Part,
    combined: bool,
) -> Result<Run, NoMemory>
    requires split { part.split < splits_of book.now }
    requires ordered { part.from ≤ part.to }
    requires within { part.to ≤ len_of book.now part.split }
    ensures parts { IfOk result (λ run. run.parts ≡ part ∷ []) }
    ensures stands { IfOk result (RunStands (J.meaning job.now).reduced (part_pairs (J.meaning job.now) book.now.records book.now.split 0 1)) }
{
    let run = Run::make(alloc, job, book, part, 0, 1)?;
    if !combined {
        return Ok(run);
    }
    Run::combine(alloc, job, &run)
}

// The text of both, merged and then combined.
fn text_of_both<J: Job>(
    alloc: Global,
    job: &J,
    book: &Book,
    one: &Run,
    other: &Run,
) -> Result<Text, NoMemory>
    requires one { RunStands (J.meaning job.now).reduced (part_pairs (J.meaning job.now) book.now.records book.now.split 0 1) one.now }
    requires other { RunStands (J.meaning job.now).reduced (part_pairs (J.meaning job.now) book.now.records book.now.split 0 1) other.now }
    ensures { IfOk result (λ text. text ≡ red (J.meaning job.now).reduced
        (flat_map (part_pairs (J.meaning job.now) book.now.records book.now.split 0 1) (one.now.parts ++ other.now.parts))) }
{
    let _known = book.records();
    let merged = Run::merge(alloc, one, other)?;
    let combined = Run::combine(alloc, job, &merged)?;
    let text = Run::reduce(alloc, job, &combined)?;
    Ok(text)
}

// Whether the runs of two parts are combined before they are merged or only afterwards: it is the same text.
fn text_in_order<J: Job>(
    alloc: Global,
    job: &J,
    book: &Book,
    a: Part,
    b: Part,
    combined_first: bool,
) -> Result<Text, NoMemory>
    requires a_split { a.split < splits_of book.now }
    requires a_ordered { a.from ≤ a.to }
    requires a_within { a.to ≤ len_of book.now a.split }
    requires b_split { b.split < splits_of book.now }
    requires b_ordered { b.from ≤ b.to }
    requires b_within { b.to ≤ len_of book.now b.split }
    ensures { IfOk result (λ text. text ≡ red (J.meaning job.now).reduced
        (part_pairs (J.meaning job.now) book.now.records book.now.split 0 1 a ++ part_pairs (J.meaning job.now) book.now.records book.now.split 0 1 b)) }
{
    let one = run_of(alloc, job, book, a, combined_first)?;
    let other = run_of(alloc, job, book, b, combined_first)?;
    let text = text_of_both(alloc, job, book, &one, &other)?;
    Ok(text)
}

// The pairs of a run: each key and its number, as a digit.
fn shown(alloc: Global, run: &Run) -> Result<Vec<u8>, AllocError> {
    let mut text = Vec::new(alloc);
    for k in 0..run.len() {
        let pair = run.pair(k);
        text.extend_from_slice(pair.key)?;
        text.push(b'0' + pair.n.min(9) as u8)?;
    }
    Ok(text)
}

fn two_records(alloc: Global) -> Result<Book, BookFault> {
    Book::read(alloc, b"b a\nb\n", 2)
}

// Records of the only split of two.
fn part(from: u32, to: u32) -> Part
    requires { from ≤ to }
    ensures split { result.split ≡ 0 }
    ensures from { result.from ≡ from }
    ensures to { result.to ≡ to }
{
    Part {
        split: 0,
        attempt: 0,
        from,
        to,
    }
}

// The run of a part of the two records.
fn made(alloc: Global, part: Part) -> Result<Run, NoMemory>
    requires { part.from ≤ part.to }
{
    made_of(alloc, b"b a\nb\n", part)
}

// The run of a part of these records.
fn made_of(alloc: Global, input: &[u8], part: Part) -> Result<Run, NoMemory>
    requires few { length input.now ≤ 16777216 }
    requires ordered { part.from ≤ part.to }
{
    let Ok(book) = Book::read(alloc, input, 2) else {
        return Err(NoMemory);
    };
    if part.split < book.splits() && part.to <= book.len(part.split) {
        Run::make(alloc, &Known::Wc(Wc), &book, part, 0, 1)
    } else {
        Err(NoMemory)
    }
}

// The text of the two records in one order of merging and combining.
fn text_of_two(alloc: Global, a: Part, b: Part, combined_first: bool) -> Result<Text, NoMemory>
    requires first { a.from ≤ a.to }
    requires second { b.from ≤ b.to }
{
    let Ok(book) = two_records(alloc) else {
        return Err(NoMemory);
    };
    let splits = book.splits();
    if a.split >= splits
        || b.split >= splits
        || a.to > book.len(a.split)
        || b.to > book.len(b.split)
    {
        return Err(NoMemory);
    }
    text_in_order(alloc, &Wc, &book, a, b, combined_first)
}

// The pairs of a run, and what they reduce to.
fn shown_and_reduced(alloc: Global, run: &Run) -> Result<(Vec<u8>, Text), Fail> {
    let shown = shown(alloc, run)?;
    let text = Run::reduce(alloc, &Wc, run)?;
    Ok((shown, text))
}

#[test]
fn makes_combines_and_reduces(rt: HostRuntime) -> Result<(), Fail> {
    let run = made(rt.alloc(), part(0, 2))?;
    let (shown, text) = shown_and_reduced(rt.alloc(), &run)?;
    assert_eq!(rt; shown.as_slice(), b"a1b1b1".as_slice());
    assert_eq!(rt; text.as_slice(), b"a\t1\nb\t2\n".as_slice());
    Ok(())
}

#[test]
fn bytes_are_the_fields_of_the_pairs(rt: HostRuntime) -> Result<(), Fail> {
    let run = made_of(rt.alloc(), b"a\n", part(0, 1))?;
    assert_eq!(rt;
        run.bytes(),
        b"\0\0\0\x01a\0\0\0\0\0\0\0\x01\0\0\0\0".as_slice()
    );
    assert_eq!(rt; run.copy()?.bytes(), run.bytes());
    assert_eq!(rt; run.flat().to_sheet()?.as_slice().len(), 1);
    Ok(())
}

#[test]
fn combines_and_reduces(rt: HostRuntime) -> Result<(), Fail> {
    let run = made(rt.alloc(), part(0, 2))?;
    let run = Run::combine(rt.alloc(), &Wc, &run)?;
    let (shown, text) = shown_and_reduced(rt.alloc(), &run)?;
    assert_eq!(rt; shown.as_slice(), b"a1b2".as_slice());
    assert_eq!(rt; text.as_slice(), b"a\t1\nb\t2\n".as_slice());
    Ok(())
}

// The runs of the two records.
fn two_runs(alloc: Global) -> Result<Runs, NoMemory> {
    let mut runs = Runs::new(alloc);
    runs.push(made(alloc, part(0, 1))?)?;
    runs.push(made(alloc, part(1, 2))?)?;
    Ok(runs)
}

#[test]
fn merges_many_runs(rt: HostRuntime) -> Result<(), Fail> {
    let all = merge_all(rt.alloc(), two_runs(rt.alloc())?.as_slice())?;
    assert_eq!(rt; shown(rt.alloc(), &all)?.as_slice(), b"a1b1b1".as_slice());
    assert_eq!(rt; all.parts(), [part(0, 1), part(1, 2)].as_slice());
    Ok(())
}

// The pairs of these runs, gathered.
fn folded(alloc: Global, runs: &[Run]) -> Result<Folded, NoMemory> {
    let mut pairs = Folded::new(alloc)?;
    for run in runs {
        pairs.take_sheet(alloc, &Wc, run.flat())?;
    }
    Ok(pairs)
}

#[test]
fn gathers_the_pairs_of_runs(rt: HostRuntime) -> Result<(), Fail> {
    let runs = two_runs(rt.alloc())?;
    let text = folded(rt.alloc(), runs.as_slice())?.reduced(rt.alloc(), &Wc)?;
    assert_eq!(rt; text.as_slice(), b"a\t1\nb\t2\n".as_slice());
    let flat = folded(rt.alloc(), runs.as_slice())?.combined(rt.alloc(), &Wc)?;
    let run = Run::of_flat(flat, Vec::new(rt.alloc()));
    assert_eq!(rt; shown(rt.alloc(), &run)?.as_slice(), b"a1b2".as_slice());
    Ok(())
}

#[test]
fn merges_no_runs(rt: HostRuntime) -> Result<(), Fail> {
    let none = merge_all(rt.alloc(), &[])?;
    assert_eq!(rt; none.len(), 0);
    assert_eq!(rt; none.to_sheet()?.as_slice().len(), 0);
    assert_eq!(rt; none.parts().len(), 0);
    Ok(())
}

#[test]
fn merges_and_combines_in_both_orders(rt: HostRuntime) -> Result<(), Fail> {
    for combined_first in [false, true] {
        let text = text_of_two(rt.alloc(), part(0, 1), part(1, 2), combined_first)?;
        assert_eq!(rt; text.as_slice(), b"a\t1\nb\t2\n".as_slice());
    }
    Ok(())
}

// The combined runs of the two records in two partitions: made at once, and one by one.
fn made_both_ways(alloc: Global) -> Result<(Runs, Runs), NoMemory> {
    let Ok(book) = two_records(alloc) else {
        return Err(NoMemory);
    };
    let part = part(0, 2);
    if part.split >= book.splits() || part.to > book.len(part.split) {
        return Err(NoMemory);
    }
    let at_once = Run::make_all(alloc, &Wc, &book, part, 2)?;
    let mut one_by_one = Runs::new(alloc);
    for p in 0..2u8 {
        let made = Run::make(alloc, &Wc, &book, part, p, 2)?;
        one_by_one.push(Run::combine(alloc, &Wc, &made)?)?;
    }
    Ok((at_once, one_by_one))
}

#[test]
fn makes_all_partitions_at_once(rt: HostRuntime) -> Result<(), Fail> {
    let (at_once, one_by_one) = made_both_ways(rt.alloc())?;
    let ([a, b], [c, d]) = (at_once.as_slice(), one_by_one.as_slice()) else {
        return Err(Fail::from("they are not two"));
    };
    assert_eq!(rt; shown(rt.alloc(), a)?.as_slice(), b"b2".as_slice());
    assert_eq!(rt; shown(rt.alloc(), b)?.as_slice(), b"a1".as_slice());
    assert_eq!(rt; (a.bytes(), a.parts()), (c.bytes(), c.parts()));
    assert_eq!(rt; (b.bytes(), b.parts()), (d.bytes(), d.parts()));
    Ok(())
}
