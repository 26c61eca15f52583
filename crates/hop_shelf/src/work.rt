//! Runs that are lent to be merged.
ghost use Rattle.std.specs.Prelude.{◌≡◌, ◌≢◌, ◌+◌, ◌<◌, ◌↔◌, ◌++◌, ℕ, length, IfOk, IfSome, IfNone, IsTrue};
ghost use Rattle.hop_shelf.specs.Kept.{kept_at, AreApart, HasRun, AreMergeable, OwnersApart, joined_at};
ghost use Rattle.hop_shelf.specs.Work.{IsMergeOf};
ghost use Rattle.hop_shelf.specs.Holds.{RunHolds};
ghost use Rattle.hop_shelf.specs.Names.{pairs_of};

use crate::kept::{Kept, place_of};
use hop_base::{NoMemory, Part, RunName};
use hop_run::Run;
use std::alloc::Global;
use std::collections::HashMap;
use std::marker::{Model, PhantomData};

// Whether the parts are the same.
fn same_parts(a: &[Part], b: &[Part]) -> bool
    ensures { IsTrue result ↔ (a.now ≡ b.now) }
{
    a == b
}

// The place of the run with this number, where it has these parts.
fn place_with(kept: &[Kept], number: u64, parts: &[Part]) -> Option<usize>
    requires { AreApart kept.now }
    ensures found { IfSome result (λ i. HasRun kept.now i number parts.now) }
    ensures none { IfNone result ((i : ℕ) → HasRun kept.now i number parts.now → ⊥) }
{
    match place_of(kept, number) {
        None => None,
        Some(i) => {
            if same_parts(kept[i].run.parts(), parts) {
                Some(i)
            } else {
                None
            }
        }
    }
}

// The places of two runs that may be merged.
fn places(
    kept: &[Kept],
    a: u64,
    a_parts: &[Part],
    b: u64,
    b_parts: &[Part],
) -> Option<(usize, usize)>
    requires { AreApart kept.now }
    ensures found { IfSome result (λ at. AreMergeable kept.now at.0 at.1 a a_parts.now b b_parts.now) }
    ensures none { IfNone result ((m n : ℕ) → AreMergeable kept.now m n a a_parts.now b b_parts.now → ⊥) }
{
    match place_with(kept, a, a_parts) {
        None => None,
        Some(m) => match place_with(kept, b, b_parts) {
            None => None,
            Some(n) => {
                if kept[m].owner == kept[n].owner {
                    Some((m, n))
                } else {
                    None
                }
            }
        },
    }
}

/// Copies of two runs that a shelf lent to be merged, with their numbers there.
#[derive(Drop)]
pub struct MergeWork<N: RunName> {
    p: u8,
    a: u64,
    first: Run,
    b: u64,
    second: Run,
    name: PhantomData<N>,
}

impl<N: RunName> Model for MergeWork<N> {
    ghost use Rattle.hop_shelf.specs.Work.{WorkValue, IsWork};
    ghost use Rattle.hop_shelf.specs.Names.{pairs_of};

    ghost Value = { WorkValue };

    ghost view = { λ w. record { p = w.p; a = w.a; first = w.first; b = w.b; second = w.second } };

    ghost invariant = { λ w. IsWork N.tells N.job.reduced (pairs_of N.job N.records N.settings w.p) w.a w.first w.b w.second };
}

/// Lent runs, merged.
#[derive(Drop)]
pub struct Merged<N: RunName> {
    work: MergeWork<N>,
    run: Run,
}

impl<N: RunName> Model for Merged<N> {
    ghost use Rattle.hop_shelf.specs.Work.{MergedValue, IsMergeOf};
    ghost use Rattle.hop_shelf.specs.Names.{pairs_of};

    ghost Value = { MergedValue };

    ghost view = { λ m. record { work = m.work; run = m.run } };

    ghost invariant = { λ m. IsMergeOf N.tells N.job.reduced (pairs_of N.job N.records N.settings m.work.p) m.work m.run };
}

impl<N: RunName> MergeWork<N> {
    // Two runs with their numbers.
    pub(crate) fn new(p: u8, a: u64, first: Run, b: u64, second: Run) -> MergeWork<N>
        requires apart { a ≢ b }
        requires first { IsTrue N.tells → RunHolds N.job.reduced (pairs_of N.job N.records N.settings p) first }
        requires second { IsTrue N.tells → RunHolds N.job.reduced (pairs_of N.job N.records N.settings p) second }
        ensures { result ≡ record { p = p; a = a; first = first; b = b; second = second } }
    {
        MergeWork {
            p,
            a,
            first,
            b,
            second,
            name: PhantomData,
        }
    }

    /// The first run.
    pub fn a(&self) -> &Run
        ensures run { result.now ≡ self.now.first }
        ensures stands { IsTrue N.tells → RunHolds N.job.reduced (pairs_of N.job N.records N.settings self.now.p) self.now.first }
    {
        &self.first
    }

    /// The second run.
    pub fn b(&self) -> &Run
        ensures run { result.now ≡ self.now.second }
        ensures stands { IsTrue N.tells → RunHolds N.job.reduced (pairs_of N.job N.records N.settings self.now.p) self.now.second }
    {
        &self.second
    }

    /// The finished work: a run with the parts of the two, in order, which stands for them.
    pub fn merged(self, run: Run) -> Merged<N>
        requires parts { run.parts ≡ self.first.parts ++ self.second.parts }
        requires stands { IsTrue N.tells → RunHolds N.job.reduced (pairs_of N.job N.records N.settings self.p) run }
        ensures { result ≡ record { work = self; run = run } }
    {
        let _p = self.p;
        Merged { work: self, run }
    }
}

impl<N: RunName> Merged<N> {
    // The partition of the shelf that lent them.
    pub(crate) fn p(&self) -> u8
        ensures { result ≡ self.now.work.p }
    {
        let work = &self.work;
        work.p
    }

    // The places of the lent runs, where they still stand there and may be merged.
    pub(crate) fn places(&self, kept: &[Kept]) -> Option<(usize, usize)>
        requires { AreApart kept.now }
        ensures found { IfSome result (λ at. AreMergeable kept.now at.0 at.1 self.now.work.a self.now.work.first.parts self.now.work.b self.now.work.second.parts) }
        ensures none { IfNone result ((m n : ℕ) → AreMergeable kept.now m n self.now.work.a self.now.work.first.parts self.now.work.b self.now.work.second.parts → ⊥) }
    {
        let work = &self.work;
        places(
            kept,
            work.a,
            work.first.parts(),
            work.b,
            work.second.parts(),
        )
    }

    // The merge.
    pub(crate) fn into_run(self) -> Run
        ensures run { result ≡ self.run }
        ensures merge { IsMergeOf N.tells N.job.reduced (pairs_of N.job N.records N.settings self.work.p) self.work self.run }
    {
        let Merged { work: _, run } = self;
        run
    }
}

/// Two runs of one owner, found in one pass.
pub(crate) fn pair_of_one_owner(
    alloc: Global,
    kept: &[Kept],
) -> Result<Option<(usize, usize)>, NoMemory>
    ensures found { IfOk result (λ pair. IfSome pair (λ at. (at.0 < at.1) × (at.1 < length kept.now) × ((kept_at kept.now at.0).owner ≡ (kept_at kept.now at.1).owner))) }
    ensures none { IfOk result (λ pair. IfNone pair (OwnersApart kept.now)) }
{
    let mut seen = HashMap::new(alloc);
    for (n, one) in kept.iter().enumerate() {
        if let Some(m) = seen.insert(one.owner, n)? {
            return Ok(Some((m, n)));
        }
    }
    Ok(None)
}

// The merge stands in the place of the first run, and the second is gone.
pub(crate) fn put_merged(kept: &mut Vec<Kept>, m: usize, n: usize, run: Run)
    requires first { m < length kept.old.items }
    requires second { n < length kept.old.items }
    ensures { kept.new.items ≡ joined_at kept.old.items m n run }
{
    let one = &mut kept[m];
    one.run = run;
    let _gone = kept.remove(n);
}
