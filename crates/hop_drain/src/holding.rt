//! Taking the lock and giving it back.
ghost use Rattle.std.specs.Prelude.{◌≡◌, true, false};
ghost use Rattle.hop_machine.specs.step.Steps.{Steps, Runs, Hold, GiveBack, KeepEnd};
ghost use Rattle.hop_machine.specs.actors.ReducerTurns.{reducer_turn};
ghost use Rattle.hop_machine.specs.home.ReducerHome.{NoneDue};
ghost use Rattle.hop_machine.specs.home.Conditions.{Safe};
ghost use Rattle.hop_inner.specs.Setups.{parts};
ghost use Rattle.hop_inner.specs.Shelved.{value_of};
ghost use Rattle.hop_drain.specs.Answers.{said_answer};
ghost use Rattle.hop_drain.specs.Held.{IsHeld};

use crate::answer::Answer;
use crate::drain::Drain;
use hop_base::RunName;
use hop_inner::Reach;
use hop_inner::steps::{give_back_on, try_hold_on};
use hop_laws::Job;
use hop_shelf::Shelf;

impl<'a, N: RunName, J: Job> Drain<'a, N, J> {
    // The value of its lock, which it may wait for.
    pub(crate) fn hold<E: Reach<N>>(&self, reach: &mut E) -> Shelf<N>
        requires end { (E.deeds reach.old).ends.has (KeepEnd self.now.number) ≡ true }
        requires free { ((E.deeds reach.old).did.keeps self.now.number).held ≡ false }
        ensures step { Steps E.exact (Hold self.now.number) (value_of result) (E.deeds reach.old) (E.deeds reach.new) }
        ensures held { IsHeld self.now.number result (E.deeds reach.new) }
        ensures end { (E.deeds reach.new).ends.has (KeepEnd self.now.number) ≡ true }
    {
        reach.hold(self.p)
    }

    // The value is given back with the history that was found.
    pub(crate) fn give<E: Reach<N>>(&self, reach: &mut E, shelf: Shelf<N>)
        requires end { (E.deeds reach.old).ends.has (KeepEnd self.now.number) ≡ true }
        requires held { IsHeld self.now.number shelf (E.deeds reach.old) }
        ensures { Steps E.exact (GiveBack self.now.number shelf.journal.due) tt (E.deeds reach.old) (E.deeds reach.new) }
    {
        give_back_on(reach, self.p, shelf);
    }

    // One turn.
    pub(crate) fn take_turn<E: Reach<N>>(&mut self, reach: &mut E) -> Answer
        requires end { (E.deeds reach.old).ends.has (KeepEnd self.old.number) ≡ true }
        requires free { ((E.deeds reach.old).did.keeps self.old.number).held ≡ false }
        requires none_due { NoneDue self.old.number (E.deeds reach.old) }
        requires safe { Safe parts E.exact (reducer_turn self.old) (E.deeds reach.old) }
        ensures { Runs E.exact (reducer_turn self.old) (E.deeds reach.old) (self.new, said_answer result) (E.deeds reach.new) }
    {
        if self.late {
            let shelf = self.hold(reach);
            self.go_on(reach, shelf)
        } else {
            match try_hold_on(reach, self.p) {
                None => Answer::Idle,
                Some(shelf) => self.go_on(reach, shelf),
            }
        }
    }
}
