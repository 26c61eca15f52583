//! One reducer's state: its history, its coverage and its runs.
ghost use Rattle.std.specs.Prelude.{◌≡◌, Some, ◌<◌, ◌≤◌, ◌↔◌, [], length, All, IfOk, OnOk, OnErr, IfErr, IsTrue, vec_len, vec_capacity, true, false, map, filter, MatchOption, slice_index};
ghost use Rattle.hop_base.specs.Run.{restarts_of};
ghost use Rattle.hop_laws.specs.Blocking.{blocking};
ghost use Rattle.hop_event.specs.History.{upto, winner, is_revoked};
ghost use Rattle.hop_event.specs.Legal.{GoesOn, IsRange, IsWorker, MayWin, MayBeRevoked, restart_due, AllWon, NoFinish, IsFinished};
ghost use Rattle.hop_event.specs.Coverage.{cut_at};
ghost use Rattle.hop_shelf.specs.Holds.{RunHolds};
ghost use Rattle.hop_shelf.specs.Names.{rules_of, pairs_of, IsRun};
ghost use Rattle.hop_shelf.specs.Sound.{owner_of};

use crate::covering::{declared_all, folded_of, runs_of};
use crate::journal::Journal;
use crate::kept::{self, Kept, Owner};
use crate::merging::{are_alike, put_for_owner, run_of_owner};
use crate::work::{MergeWork, Merged, pair_of_one_owner, put_merged};
use hop_base::{Lens, Listed, Marks, NoMemory, Part, RunName, Text};
use hop_cover::Coverage;
use hop_cut::{Cut, Cuts};
use hop_event::{Event, History, Via};
use hop_laws::Job;
use hop_run::Parcel;
use hop_script::Script;
use std::alloc::Global;
use std::marker::{Model, PhantomData};
use thiserror::Error;

/// What became of a range.
#[derive(Clone, Copy, Debug, PartialEq, Eq)]
pub enum Arrived {
    /// The range goes on where its attempt's records ended, the attempt may still count, and the range is
    /// kept.
    Taken,
    /// It doesn't, or its attempt can't count any more. `have` records of the attempt are there.
    Ignored { have: u32 },
}

/// What became of a merge.
#[derive(Clone, Copy, Debug, PartialEq, Eq)]
pub enum Installed {
    /// It stands in the place of the two runs.
    Installed,
    /// The two runs don't stand there any more, or may not be merged now; the merge is gone.
    Stale,
}

/// The first split whose winner isn't there with all its records, or of which another attempt that was
/// begun isn't revoked.
#[derive(Clone, Copy, Debug, PartialEq, Eq, Error)]
#[error("split {split} is not done")]
pub struct NotYet {
    pub split: u32,
}

/// The state of one reducer: its history, what is read off it, and the runs of what arrived. Runs of
/// an attempt that won are committed; the others are tentative, and are kept by attempt, since the
/// attempt may still be revoked. (NSDI 2010, "MapReduce Online", where a reducer records which map task
/// produced each spill; that tentative runs are merged by attempt is this project's own.)
#[derive(Drop)]
pub struct Shelf<N: RunName> {
    p: u8,
    journal: Journal,
    kept: Vec<Kept>,
    name: PhantomData<N>,
}

impl<N: RunName> Model for Shelf<N> {
    ghost use Rattle.std.specs.Prelude.{vec_len, vec_capacity, ◌-◌};
    ghost use Rattle.hop_shelf.specs.Names.{rules_of, pairs_of};
    ghost use Rattle.hop_shelf.specs.Sound.{ShelfValue, IsSound};

    ghost Value = { ShelfValue };

    ghost view = { λ s. record { p = s.p; journal = s.journal; kept = s.kept.items; room = vec_capacity s.kept - vec_len s.kept } };

    ghost invariant = { λ s. IsSound (rules_of N.records N.script N.settings) s.p N.settings.marks N.settings.tentative N.tells N.job.reduced (pairs_of N.job N.records N.settings s.p) s.journal s.kept.items };
}

// Whether the range goes on where its attempt ends, and the attempt may still count.
fn goes_on(journal: &Journal, part: Part) -> bool
    requires split { part.split < length journal.now.lens }
    requires attempt { part.attempt < 16 }
    ensures { IsTrue result ↔ GoesOn journal.now.events part }
{
    let alone = match journal.winner(part.split) {
        None => true,
        Some(b) => b == part.attempt,
    };
    !journal.is_revoked(part.split, part.attempt)
        && alone
        && part.from == journal.upto(part.split, part.attempt)
}

// Whose the runs of an attempt are.
fn owner_of(journal: &Journal, i: u32, attempt: u8) -> Owner
    requires split { i < length journal.now.lens }
    requires attempt { attempt < 16 }
    ensures { result ≡ owner_of i attempt journal.now.events }
{
    let own = Owner::Attempt { split: i, attempt };
    match journal.winner(i) {
        None => own,
        Some(b) => { if b == attempt { Owner::Committed } else { own } }
    }
}

impl<N: RunName> Shelf<N> {
    ghost use Rattle.hop_records.specs.Records.{lens_of};
    ghost use Rattle.hop_shelf.specs.Names.{book_of};
    ghost use Rattle.hop_shelf.specs.Sound.{MayGrow, IsParcel, Arrives, IsSound, Lends, Installs};
    ghost use Rattle.hop_shelf.specs.Journal.{AddsEvent, IsBeginning};
    ghost use Rattle.hop_shelf.specs.Kept.{committed_by, is_other, all_parts, OwnersApart, IsOneForOwner};
    ghost use Rattle.hop_shelf.specs.Finish.{IsFirstNotDone, AllDone, NamesBelow};
    ghost use Rattle.hop_shelf.specs.Cuts.{IsCut, AreDue, AreAllCut};

    /// The shelf of the empty history, of the reducer of partition `p`. What it is made from are the
    /// record counts, the marks, the script and the settings of its run. The run's job is lawful, its
    /// records have at most 131,050 bytes, and at most 16 attempts of a split may be begun.
    pub fn new(
        alloc: Global,
        lens: &Lens,
        p: u8,
        marks: &Marks,
        tentative: bool,
        script: &Script,
    ) -> Result<Shelf<N>, NoMemory>
        requires run { IsRun N.job N.records N.settings }
        requires lens { lens.now ≡ lens_of (book_of N.records N.settings) }
        requires partition { p < N.settings.reducers }
        requires marks { marks.now ≡ N.settings.marks }
        requires tentative { tentative ≡ N.settings.tentative }
        requires script { script.now ≡ N.script }
        ensures journal { IfOk result (λ s. IsBeginning lens.now tentative (restarts_of N.script p) marks.now s.journal) }
        ensures kept { IfOk result (λ s. s.kept ≡ []) }
        ensures p { IfOk result (λ s. s.p ≡ p) }
    {
        let coverage = Coverage::new(alloc, lens, tentative)?;
        let restarts = Vec::from_slice(alloc, script.restarts(p))?;
        let marks = Vec::from_slice(alloc, marks.as_slice())?;
        let journal = Journal::new(alloc, coverage, restarts, marks)?;
        Ok(Shelf {
            p,
            journal,
            kept: Vec::new(alloc),
            name: PhantomData,
        })
    }

    /// Makes room for one event more. Nothing else changes, also after `NoMemory`.
    pub fn reserve(&mut self) -> Result<(), NoMemory>
        ensures kept { self.new.kept ≡ self.old.kept }
        ensures p { self.new.p ≡ self.old.p }
        ensures journal { self.new.journal ≡ record self.old.journal { spare = self.new.journal.spare } }
        ensures room { OnOk result ((1 ≤ self.new.journal.spare) × (1 ≤ self.new.room)) }
    {
        self.kept.reserve(1)?;
        self.journal.reserve()
    }

    /// Records that a range came. It is taken exactly where it goes on where its attempt's records end,
    /// the attempt isn't revoked and its split has no other winner. It is one event, and takes no
    /// memory. It asks for room, that neither a cut nor a restart is due, a range that the attempt may
    /// come to make, with the run of it, and of a range that was fetched that it is one to be taken.
    pub fn arrive(&mut self, parcel: Parcel, via: Via) -> Arrived
        requires grows { MayGrow self.old }
        requires range { IsRange (rules_of N.records N.script N.settings) (λ i. N.settings.attempts) parcel.part }
        requires worker { IsWorker (rules_of N.records N.script N.settings) via }
        requires parts { IsParcel parcel.part parcel.run }
        requires stands { IsTrue N.tells → RunHolds N.job.reduced (pairs_of N.job N.records N.settings self.old.p) parcel.run }
        requires pulled { via ≡ Via.Pull → GoesOn self.old.journal.events parcel.part }
        ensures { Arrives self.old parcel.part via parcel.run result self.new }
    {
        let Parcel { part, run } = parcel;
        let number = self.journal.len();
        if goes_on(&self.journal, part) {
            let owner = owner_of(&self.journal, part.split, part.attempt);
            self.journal.add(Event::Arrive { part, via });
            self.kept.push_reserved(Kept { number, owner, run });
            Arrived::Taken
        } else {
            let have = self.journal.upto(part.split, part.attempt);
            self.journal.add(Event::Ignore { part, via, have });
            Arrived::Ignored { have }
        }
    }

    /// Records that the attempt won its split: its runs are committed. It is one event, and takes no
    /// memory. It asks for room, that neither a cut nor a restart is due, that the split has no winner,
    /// that the attempt isn't revoked, and that it doesn't fail by the script.
    pub fn won(&mut self, split: u32, attempt: u8)
        requires grows { MayGrow self.old }
        requires may { MayWin (rules_of N.records N.script N.settings) (λ i. N.settings.attempts) self.old.journal.events split attempt }
        ensures event { AddsEvent self.old.journal (Event.Won split attempt) self.new.journal }
        ensures kept { self.new.kept ≡ map (committed_by split attempt) self.old.kept }
        ensures p { self.new.p ≡ self.old.p }
    {
        self.journal.add(Event::Won { split, attempt });
        kept::commit_all(&mut self.kept, split, attempt);
    }

    /// Records that the attempt was revoked: its runs are gone. It is one event, and takes no memory. It
    /// asks for room, that neither a cut nor a restart is due, and that the attempt is neither the winner
    /// of its split nor revoked already.
    pub fn revoked(&mut self, split: u32, attempt: u8)
        requires grows { MayGrow self.old }
        requires may { MayBeRevoked (rules_of N.records N.script N.settings) (λ i. N.settings.attempts) self.old.journal.events split attempt }
        ensures event { AddsEvent self.old.journal (Event.Revoked split attempt) self.new.journal }
        ensures kept { self.new.kept ≡ filter (is_other split attempt) self.old.kept }
        ensures p { self.new.p ≡ self.old.p }
    {
        self.journal.add(Event::Revoked { split, attempt });
        kept::forget(&mut self.kept, split, attempt);
    }

    /// Whether the next event must be a restart.
    pub fn restart_due(&self) -> bool
        ensures { result ≡ restart_due self.now.journal.restarts self.now.journal.events }
    {
        self.journal.restart_due()
    }

    /// Records the restart that is due. No run is left. It takes no memory. It asks for room and that no
    /// cut is due.
    pub fn restart(&mut self)
        requires spare { 1 ≤ self.old.journal.spare }
        requires no_cut { self.old.journal.due ≡ [] }
        requires restart { restart_due self.old.journal.restarts self.old.journal.events ≡ true }
        ensures event { AddsEvent self.old.journal Event.Restart self.new.journal }
        ensures kept { self.new.kept ≡ [] }
        ensures p { self.new.p ≡ self.old.p }
    {
        self.journal.add(Event::Restart);
        self.kept.clear();
    }

    /// The attempt that won the split, if one did.
    pub fn winner(&self, split: u32) -> Option<u8>
        ensures { result ≡ winner split self.now.journal.events }
    {
        if self.journal.has_attempt(split, 0) {
            self.journal.winner(split)
        } else {
            None
        }
    }

    /// Whether the attempt was revoked.
    pub fn is_revoked(&self, split: u32, attempt: u8) -> bool
        ensures { result ≡ is_revoked split attempt self.now.journal.events }
    {
        if self.journal.has_attempt(split, attempt) {
            self.journal.is_revoked(split, attempt)
        } else {
            false
        }
    }

    /// The records that are there of the attempt, in a row from the split's first; 0 where there are none.
    pub fn upto(&self, split: u32, attempt: u8) -> u32
        ensures { result ≡ upto split attempt self.now.journal.events }
    {
        if self.journal.has_attempt(split, attempt) {
            self.journal.upto(split, attempt)
        } else {
            0
        }
    }

    /// The history.
    pub fn history(&self) -> &History
        ensures { result.now.events ≡ self.now.journal.events }
    {
        self.journal.history()
    }

    /// The history itself. It takes no memory.
    pub fn into_history(self) -> History
        ensures { result.events ≡ self.journal.events }
    {
        let Shelf {
            p: _,
            journal,
            kept: _,
            name: _,
        } = self;
        journal.into_history()
    }

    /// What holds of every shelf: its history grows legally, its runs stand for their parts where the
    /// spill folders tell, the parts of its runs are those of the history, and none is of a revoked
    /// attempt. It does nothing: proofs learn it so.
    pub fn known(&self)
        ensures sound { IsSound (rules_of N.records N.script N.settings) self.now.p N.settings.marks N.settings.tentative N.tells N.job.reduced (pairs_of N.job N.records N.settings self.now.p) self.now.journal self.now.kept }
        ensures revoked { All (λ q. is_revoked q.split q.attempt self.now.journal.events ≡ false) (all_parts self.now.kept) }
    {
        let _p = self.p;
    }

    /// Copies of two runs of the shelf that may be merged, both committed or both of one attempt. There
    /// are none exactly where no two runs are so. It is one pass over the runs.
    pub fn lend(&self) -> Result<Option<MergeWork<N>>, NoMemory>
        ensures { IfOk result (λ work. MatchOption work (OwnersApart self.now.kept) (λ w. Lends self.now w)) }
    {
        match pair_of_one_owner(*self.kept.allocator(), &self.kept)? {
            None => Ok(None),
            Some((m, n)) => {
                let first = self.kept[m].run.copy()?;
                let second = self.kept[n].run.copy()?;
                let a = self.kept[m].number;
                let b = self.kept[n].number;
                Ok(Some(MergeWork::new(self.p, a, first, b, second)))
            }
        }
    }

    /// Puts a merge in the place of the two runs that were lent for it. It is stale exactly where they
    /// were lent by a reducer of another partition, don't stand here any more with the parts with which
    /// they were lent, or are now neither both committed nor both of one attempt; then nothing changes.
    /// It is no event, and takes no memory.
    pub fn install(&mut self, done: Merged<N>) -> Installed
        ensures { Installs self.old done result self.new }
    {
        if done.p() != self.p {
            return Installed::Stale;
        }
        match done.places(&self.kept) {
            None => Installed::Stale,
            Some((m, n)) => {
                put_merged(&mut self.kept, m, n, done.into_run());
                Installed::Installed
            }
        }
    }

    // The runs of the owner of the run at this place become one.
    fn merge_owner<J: Job>(&mut self, job: &J, m: usize) -> Result<(), NoMemory>
        requires job { J.meaning job.now ≡ N.job }
        requires place { m < length self.old.kept }
        ensures journal { self.new.journal ≡ self.old.journal }
        ensures p { self.new.p ≡ self.old.p }
        ensures ok { OnOk result (IsOneForOwner self.old.kept m self.new.kept) }
        ensures err { OnErr result (self.new.kept ≡ self.old.kept) }
    {
        self.kept.reserve(1)?;
        let number = self.kept[m].number;
        let owner = self.kept[m].owner;
        let run = run_of_owner(*self.kept.allocator(), job, owner, &self.kept)?;
        put_for_owner(&mut self.kept, Kept { number, owner, run });
        Ok(())
    }

    /// Where cuts are due, the runs of each owner become one, the values of each key combined, so that the cuts and all that follows
    /// have few pairs to merge. It is no event, and the history stays. It is left where two runs of an owner hardly have a key in
    /// common, since one run would then have all their pairs once more. After `NoMemory` some runs may have become one. It is one pass
    /// over the runs that came since it was last done, and over what they became. (An external merge sort's early aggregation.)
    pub fn merge_due<J: Job>(&mut self, job: &J) -> Result<(), NoMemory>
        requires job { J.meaning job.now ≡ N.job }
        ensures journal { self.new.journal ≡ self.old.journal }
        ensures p { self.new.p ≡ self.old.p }
    {
        let alloc = *self.kept.allocator();
        if self.journal.due()?.is_empty() {
            return Ok(());
        }
        while let Some((m, n)) = pair_of_one_owner(alloc, &self.kept)? {
            if !are_alike(&self.kept[m].run, &self.kept[n].run) {
                return Ok(());
            }
            self.merge_owner(job, m)?;
        }
        Ok(())
    }

    // The cut of a mark that is reached first here.
    fn cut(&self, mark: u16) -> Result<Cut, NoMemory>
        requires { cut_at self.now.journal.tentative self.now.journal.lens mark self.now.journal.events ≡ Some self.now.journal.events }
        ensures mark { IfOk result (λ c. c.mark ≡ mark) }
        ensures cut { IfOk result (IsCut N.tells N.job.reduced (pairs_of N.job N.records N.settings self.now.p) self.now.journal) }
    {
        let alloc = *self.kept.allocator();
        let declared = declared_all(alloc, &self.journal)?;
        let runs = runs_of(alloc, declared.as_slice(), &self.kept)?;
        let progress = self.journal.progress();
        Ok(Cut {
            mark,
            progress,
            declared,
            runs,
        })
    }

    // The cuts of marks that are reached first here.
    fn cuts(&self, marks: &[u16]) -> Result<Cuts, NoMemory>
        requires { All (λ m. cut_at self.now.journal.tentative self.now.journal.lens m self.now.journal.events ≡ Some self.now.journal.events) marks.now }
        ensures marks { IfOk result (λ cuts. map (λ c. c.mark) cuts ≡ marks.now) }
        ensures cuts { IfOk result (λ cuts. All (IsCut N.tells N.job.reduced (pairs_of N.job N.records N.settings self.now.p) self.now.journal) cuts) }
    {
        let mut cuts = Listed::new(*self.kept.allocator());
        for mark in marks {
            cuts.push(self.cut(*mark)?)?;
        }
        Ok(cuts)
    }

    /// The cuts of the marks that the last event, or the empty history, first reached: while they are due,
    /// each mark of the run whose cut the history is now. Afterwards none is due. After `NoMemory` they
    /// are still due.
    pub fn cuts_due(&mut self) -> Result<Cuts, NoMemory>
        ensures marks { IfOk result (λ cuts. map (λ c. c.mark) cuts ≡ self.old.journal.due) }
        ensures cuts { IfOk result (λ cuts. All (IsCut N.tells N.job.reduced (pairs_of N.job N.records N.settings self.old.p) self.old.journal) cuts) }
        ensures every { IfOk result (λ cuts. AreDue self.old.journal → AreAllCut self.old.journal (map (λ c. c.mark) cuts)) }
        ensures ok { OnOk result (self.new ≡ record self.old { journal = record self.old.journal { due = [] } }) }
        ensures err { OnErr result (self.new ≡ self.old) }
    {
        let marks = self.journal.due()?;
        let cuts = self.cuts(&marks)?;
        self.journal.hand_out();
        Ok(cuts)
    }

    /// Records the end of the history, where each split's winner is there with all its records and each
    /// other attempt below its split's number in `begun` is revoked. `NotYet` names exactly the first
    /// split of which that isn't so; then nothing changes. It takes no memory. The history is finished
    /// where this is its first finish. It asks for room, that neither a cut nor a restart is due, and that
    /// `begun` has a number, at most 16, for each split, above each of its attempts that the history names.
    pub fn finish(&mut self, begun: &[u8]) -> Result<(), NotYet>
        requires grows { MayGrow self.old }
        requires each { length begun.now ≡ length self.old.journal.lens }
        requires few { All (λ b. b ≤ 16) begun.now }
        requires named { NamesBelow (slice_index begun.now) self.old.journal.events }
        ensures event { OnOk result (AddsEvent self.old.journal Event.Finish self.new.journal) }
        ensures done { OnOk result (AllDone self.new.journal begun.now) }
        ensures won { OnOk result (AllWon self.new.journal.lens self.new.journal.events) }
        ensures finished { OnOk result (NoFinish self.old.journal.events → IsFinished (rules_of N.records N.script N.settings) self.old.p begun.now self.new.journal.events) }
        ensures kept { self.new.kept ≡ self.old.kept }
        ensures p { self.new.p ≡ self.old.p }
        ensures same { OnErr result (self.new ≡ self.old) }
        ensures err { IfErr result (λ e. IsFirstNotDone self.old.journal begun.now e.split) }
    {
        match self.journal.first_not_done(begun) {
            Some(split) => Err(NotYet { split }),
            None => {
                self.journal.add(Event::Finish);
                Ok(())
            }
        }
    }

    /// The text of the partition, where each split's winner is there with all its records: that of the
    /// blocking job.
    pub fn reduced<J: Job>(&self, job: &J) -> Result<Text, NoMemory>
        requires job { J.meaning job.now ≡ N.job }
        requires won { AllWon self.now.journal.lens self.now.journal.events }
        ensures { IfOk result (λ text. IsTrue N.tells → text ≡ blocking N.job N.records self.now.p N.settings.reducers) }
    {
        let alloc = *self.kept.allocator();
        let declared = declared_all(alloc, &self.journal)?;
        let folded = folded_of(alloc, job, declared.as_slice(), &self.kept)?;
        let text = folded.reduced(alloc, job)?;
        Ok(text)
    }
}
