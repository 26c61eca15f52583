//! What a coordinator asks of a reducer.
ghost use Rattle.std.specs.Prelude.{◌≡◌, IsTrue, is_ok, false, ℕ, List};
ghost use Rattle.hop_records.specs.Records.{lens_of};
ghost use Rattle.hop_shelf.specs.Names.{book_of, pairs_of};
ghost use Rattle.hop_machine.specs.step.Steps.{Runs};
ghost use Rattle.hop_machine.specs.actors.ReducerTurns.{Reducer, reads_upto, reads_winner, reads_wants, take_pull, send_due, restart_if_due, finish};
ghost use Rattle.hop_machine.specs.home.ReducerHome.{MayPull, NoneDue};
ghost use Rattle.hop_machine.specs.play.Pulls.{is_caught_up};
ghost use Rattle.hop_machine.specs.play.Places.{is_late};
ghost use Rattle.hop_actors.specs.Acting.{Reduces, MayCall};
ghost use Rattle.hop_actors.specs.Spilled.{TogetherStand};
ghost use Rattle.hop_actors.specs.Calls.{MayEnd, found};
ghost use Rattle.hop_actors.specs.Counting.{no_folder};

use crate::actor::Actor;
use hop_base::{FlatSheets, Lens, NoMemory, Part, RunName};
use hop_inner::Reach;

/// A reducer, as a coordinator sees it. The calls with `reach` take its lock, where no other actor runs, and give it back.
pub trait Taker<N: RunName, E: Reach<N>>: Actor<N, E> {
    /// Its part of the machine.
    ghost reducer: { Self → Reducer };

    /// The record counts of the splits.
    fn lens(&self) -> &Lens
        ensures { result.now ≡ lens_of (book_of N.records N.settings) };

    /// The records that are there of the attempt, in a row from the split's first.
    fn upto(&mut self, reach: &mut E, split: u32, attempt: u8) -> u32
        requires may { MayCall (reducer self.old) (E.deeds reach.old) }
        ensures same { reducer self.new ≡ reducer self.old }
        ensures runs { Runs E.exact (reads_upto (reducer self.old) split attempt) (E.deeds reach.old) result (E.deeds reach.new) };

    /// The winner of the split by the reducer's history.
    fn winner(&mut self, reach: &mut E, split: u32) -> Option<u8>
        requires may { MayCall (reducer self.old) (E.deeds reach.old) }
        ensures same { reducer self.new ≡ reducer self.old }
        ensures runs { Runs E.exact (reads_winner (reducer self.old) split) (E.deeds reach.old) result (E.deeds reach.new) };

    /// Whether the attempt may still count: it isn't revoked and its split has no other winner, by the reducer's history.
    fn wants(&mut self, reach: &mut E, split: u32, attempt: u8) -> bool
        requires may { MayCall (reducer self.old) (E.deeds reach.old) }
        ensures same { reducer self.new ≡ reducer self.old }
        ensures runs { Runs E.exact (reads_wants (reducer self.old) split attempt) (E.deeds reach.old) result (E.deeds reach.new) };

    /// Records a range that was fetched from a vault as an arrival by pull. It is wanted, goes on where the attempt's records end, and comes after a restart; where the spill
    /// folders tell, the pairs of all the sheets together stand for it in the reducer's partition. After `NoMemory` nothing is recorded.
    fn take_pull(&mut self, reach: &mut E, part: Part, sheets: FlatSheets) -> Result<(), NoMemory>
        requires may { MayCall (reducer self.old) (E.deeds reach.old) }
        requires pull { MayPull (reducer self.old) part (E.deeds reach.old) }
        requires stands { IsTrue N.tells → TogetherStand N.job.reduced sheets (pairs_of N.job N.records N.settings (reducer self.old).number part) }
        ensures same { reducer self.new ≡ reducer self.old }
        ensures runs { Runs E.exact (take_pull (reducer self.old) part) (E.deeds reach.old) (is_ok result) (E.deeds reach.new) };

    /// Sends the cuts that are due to the writer; afterwards none is. After `NoMemory` they are still due.
    fn send_due(&mut self, reach: &mut E) -> Result<(), NoMemory>
        requires may { MayCall (reducer self.old) (E.deeds reach.old) }
        ensures same { reducer self.new ≡ reducer self.old }
        ensures runs { Runs E.exact (send_due (reducer self.old)) (E.deeds reach.old) (is_ok result) (E.deeds reach.new) };

    /// Records the restart that is due, and whether one was. It asks that no cut is due. After `NoMemory` nothing is recorded.
    fn restart_due(&mut self, reach: &mut E) -> Result<bool, NoMemory>
        requires may { MayCall (reducer self.old) (E.deeds reach.old) }
        requires none_due { NoneDue (reducer self.old).number (E.deeds reach.old) }
        ensures runs { Runs E.exact (restart_if_due (reducer self.old)) (E.deeds reach.old) (reducer self.new, found result) (E.deeds reach.new) };

    /// Whether a restart was recorded since it was last caught up.
    fn lagging(&self) -> bool
        ensures { result ≡ (reducer self.now).lagging };

    /// It is caught up.
    fn caught_up(&mut self)
        ensures { reducer self.new ≡ is_caught_up (reducer self.old) };

    /// From now on a turn waits for the lock, and ranges that come by a lane are recorded as late.
    fn late(&mut self)
        ensures { reducer self.new ≡ is_late (reducer self.old) };

    /// Records that the history has ended. All of it is there: each split's winner with all its records, and each other attempt below its split's number in `begun` revoked. After
    /// `NoMemory` nothing is recorded.
    fn finish(&mut self, reach: &mut E, begun: &[u8]) -> Result<(), NoMemory>
        requires may { MayCall (reducer self.old) (E.deeds reach.old) }
        requires ends { MayEnd (reducer self.old) begun.now (E.deeds reach.old) }
        ensures same { reducer self.new ≡ reducer self.old }
        ensures runs { Runs E.exact (finish (reducer self.old)) (E.deeds reach.old) (is_ok result) (E.deeds reach.new) };

    ghost is_reducer: { (s : Self) → Self.acting s ≡ Reduces (reducer s) };

    // Where a turn of it fails, memory was wanting: it stays at home, and may have another.
    ghost never_failed: { (s : Self) → Self.failed s ≡ false };

    ghost without_folder: { (s : Self) → Self.counts s ≡ no_folder };

    // It holds nothing for lanes.
    ghost fits_any: { (s : Self) (board : List ℕ) → Self.fits s board };
}
