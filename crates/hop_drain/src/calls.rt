//! What a coordinator asks of a reducer, under its lock.
ghost use Rattle.std.specs.Prelude.{◌≡◌, ℕ, Bool, true, false, is_ok};
ghost use Rattle.hop_machine.specs.step.Steps.{Runs, KeepEnd};
ghost use Rattle.hop_machine.specs.actors.ReducerTurns.{reads_upto, reads_winner, reads_wants, send_due, restart_if_due, finish};
ghost use Rattle.hop_machine.specs.home.ReducerHome.{NoneDue};
ghost use Rattle.hop_machine.specs.home.Conditions.{Safe};
ghost use Rattle.hop_inner.specs.Setups.{parts};
ghost use Rattle.hop_actors.specs.Calls.{MayEnd, found};
ghost use Rattle.hop_drain.specs.Drains.{records_last};
ghost use Rattle.hop_drain.specs.Held.{IsAdded};

use crate::drain::Drain;
use hop_base::{NoMemory, RunName};
use hop_inner::Reach;
use hop_inner::steps::record_on;
use hop_laws::Job;
use hop_shelf::Shelf;

impl<'a, N: RunName, J: Job> Drain<'a, N, J> {
    // The records that are there of the attempt.
    pub(crate) fn read_upto<E: Reach<N>>(&self, reach: &mut E, split: u32, attempt: u8) -> u32
        requires end { (E.deeds reach.old).ends.has (KeepEnd self.now.number) ≡ true }
        requires free { ((E.deeds reach.old).did.keeps self.now.number).held ≡ false }
        ensures { Runs E.exact (reads_upto self.now split attempt) (E.deeds reach.old) result (E.deeds reach.new) }
    {
        let shelf = self.hold(reach);
        let upto = shelf.upto(split, attempt);
        self.give(reach, shelf);
        upto
    }

    // The winner of the split.
    pub(crate) fn read_winner<E: Reach<N>>(&self, reach: &mut E, split: u32) -> Option<u8>
        requires end { (E.deeds reach.old).ends.has (KeepEnd self.now.number) ≡ true }
        requires free { ((E.deeds reach.old).did.keeps self.now.number).held ≡ false }
        ensures { Runs E.exact (reads_winner self.now split) (E.deeds reach.old) result (E.deeds reach.new) }
    {
        let shelf = self.hold(reach);
        let winner = shelf.winner(split);
        self.give(reach, shelf);
        winner
    }

    // Whether the attempt may still count.
    pub(crate) fn read_wants<E: Reach<N>>(&self, reach: &mut E, split: u32, attempt: u8) -> bool
        requires end { (E.deeds reach.old).ends.has (KeepEnd self.now.number) ≡ true }
        requires free { ((E.deeds reach.old).did.keeps self.now.number).held ≡ false }
        ensures { Runs E.exact (reads_wants self.now split attempt) (E.deeds reach.old) result (E.deeds reach.new) }
    {
        let shelf = self.hold(reach);
        let alone = shelf.winner(split).is_none_or(|winner| winner == attempt);
        let wants = !shelf.is_revoked(split, attempt) && alone;
        self.give(reach, shelf);
        wants
    }

    // The cuts that are due are sent.
    pub(crate) fn send_what_is_due<E: Reach<N>>(&self, reach: &mut E) -> Result<(), NoMemory>
        requires end { (E.deeds reach.old).ends.has (KeepEnd self.now.number) ≡ true }
        requires free { ((E.deeds reach.old).did.keeps self.now.number).held ≡ false }
        requires safe { Safe parts E.exact (send_due self.now) (E.deeds reach.old) }
        ensures { Runs E.exact (send_due self.now) (E.deeds reach.old) (is_ok result) (E.deeds reach.new) }
    {
        let mut shelf = self.hold(reach);
        let sent = self.send_cuts(reach, &mut shelf);
        self.give(reach, shelf);
        if sent { Ok(()) } else { Err(NoMemory) }
    }

    // The restart that is due is recorded.
    pub(crate) fn record_restart<E: Reach<N>>(&mut self, reach: &mut E) -> Result<bool, NoMemory>
        requires end { (E.deeds reach.old).ends.has (KeepEnd self.old.number) ≡ true }
        requires free { ((E.deeds reach.old).did.keeps self.old.number).held ≡ false }
        requires none_due { NoneDue self.old.number (E.deeds reach.old) }
        requires safe { Safe parts E.exact (restart_if_due self.old) (E.deeds reach.old) }
        ensures { Runs E.exact (restart_if_due self.old) (E.deeds reach.old) (self.new, found result) (E.deeds reach.new) }
    {
        let mut shelf = self.hold(reach);
        self.fixed();
        shelf.known();
        if !shelf.restart_due() {
            self.give(reach, shelf);
            return Ok(false);
        }
        if shelf.reserve().is_err() {
            self.give(reach, shelf);
            return Err(NoMemory);
        }
        self.restart(reach, shelf);
        Ok(true)
    }

    // An event was added: it is recorded, and the cuts that it makes due are due.
    pub(crate) fn record_last<E: Reach<N>>(&self, reach: &mut E, shelf: Shelf<N>)
        requires added { IsAdded self.now.number shelf (E.deeds reach.old) }
        requires safe { Safe parts E.exact (records_last self.now shelf.journal.events true) (E.deeds reach.old) }
        ensures { Runs E.exact (records_last self.now shelf.journal.events true) (E.deeds reach.old) true (E.deeds reach.new) }
    {
        self.fixed();
        shelf.known();
        record_on(reach, self.p, shelf);
    }

    // The finish is recorded.
    pub(crate) fn record_finish<E: Reach<N>>(
        &self,
        reach: &mut E,
        begun: &[u8],
    ) -> Result<(), NoMemory>
        requires end { (E.deeds reach.old).ends.has (KeepEnd self.now.number) ≡ true }
        requires free { ((E.deeds reach.old).did.keeps self.now.number).held ≡ false }
        requires ends { MayEnd self.now begun.now (E.deeds reach.old) }
        requires safe { Safe parts E.exact (finish self.now) (E.deeds reach.old) }
        ensures { Runs E.exact (finish self.now) (E.deeds reach.old) (is_ok result) (E.deeds reach.new) }
    {
        let mut shelf = self.hold(reach);
        self.fixed();
        shelf.known();
        if shelf.reserve().is_err() {
            self.give(reach, shelf);
            return Err(NoMemory);
        }
        match shelf.finish(begun) {
            Ok(()) => {
                self.record_last(reach, shelf);
                Ok(())
            }
            Err(_) => unreachable!(),
        }
    }
}
