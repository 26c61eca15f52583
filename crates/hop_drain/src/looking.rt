//! A reducer's turn, from the value that it holds on.
ghost use Rattle.std.specs.Prelude.{◌≡◌, ◌<◌, [], ◌∷◌, true};
ghost use Rattle.hop_event.specs.declared.event.Event.TheVariants.{Restart};
ghost use Rattle.hop_machine.specs.step.Steps.{Runs, Record};
ghost use Rattle.hop_machine.specs.actors.ReducerTurns.{looks, reads, lane_after, holds, lags, marks_due};
ghost use Rattle.hop_machine.specs.home.Conditions.{Safe, May};
ghost use Rattle.hop_inner.specs.Setups.{parts};
ghost use Rattle.hop_inner.specs.Messages.{said, FitsAt};
ghost use Rattle.hop_inner.specs.Locks.{RecordsOne};
ghost use Rattle.hop_drain.specs.Answers.{said_answer};
ghost use Rattle.hop_drain.specs.Drains.{acts, served};
ghost use Rattle.hop_drain.specs.Held.{IsHeld, IsReady};
ghost use Rattle.hop_inner.specs.Shelved.{value_of};
ghost use Rattle.hop_event.specs.Legal.{restart_due};

use crate::answer::Answer;
use crate::drain::Drain;
use hop_base::RunName;
use hop_inner::steps::{give_back_on, record_on, take_on};
use hop_inner::{Knowing, Message, Reach};
use hop_laws::Job;
use hop_shelf::Shelf;

impl<'a, N: RunName, J: Job> Drain<'a, N, J> {
    // The first of the lanes follows the last.
    fn lane_after(&self, w: u8) -> u8
        requires { w < self.now.setup.workers }
        ensures next { result ≡ lane_after self.now.setup.workers w }
        ensures below { result < self.now.setup.workers }
    {
        let workers = self.settings.workers;
        if w + 1 == workers { 0 } else { w + 1 }
    }

    // The lane after this one is looked at first from now on.
    fn go_past(&mut self, w: u8)
        requires { w < self.old.setup.workers }
        ensures { self.new ≡ served self.old w }
    {
        self.next = self.lane_after(w);
    }

    // The message came from this lane.
    fn serve<E: Reach<N>>(
        &mut self,
        reach: &mut E,
        shelf: Shelf<N>,
        w: u8,
        message: Message<E::Seat>,
    ) -> Answer
        requires lane { w < self.old.setup.workers }
        requires held { IsHeld self.old.number shelf (E.deeds reach.old) }
        requires ready { IsReady shelf }
        requires fits { FitsAt N.job N.records N.settings N.tells self.old.number E.Seat.knows E.Seat.board (E.deeds reach.old).ends.board message }
        requires safe { Safe parts E.exact (reads (served self.old w) w shelf.journal.events (said message)) (E.deeds reach.old) }
        ensures { Runs E.exact (reads (served self.old w) w shelf.journal.events (said message)) (E.deeds reach.old) (self.new, said_answer result) (E.deeds reach.new) }
    {
        self.go_past(w);
        self.read(reach, shelf, w, message)
    }

    // The lanes are looked at in turn, and one message is taken from the first that gives one.
    fn look<E: Reach<N>>(&mut self, reach: &mut E, shelf: Shelf<N>) -> Answer
        requires held { IsHeld self.old.number shelf (E.deeds reach.old) }
        requires ready { IsReady shelf }
        requires safe { Safe parts E.exact (looks self.old shelf.journal.events self.old.setup.workers self.old.next) (E.deeds reach.old) }
        ensures { Runs E.exact (looks self.old shelf.journal.events self.old.setup.workers self.old.next) (E.deeds reach.old) (self.new, said_answer result) (E.deeds reach.new) }
    {
        let p = self.p;
        let mut w = self.next;
        let mut left = self.settings.workers;
        while left > 0 {
            match take_on(reach, w, p) {
                Some(message) => return self.serve(reach, shelf, w, message),
                None => {
                    w = self.lane_after(w);
                    left -= 1;
                }
            }
        }
        give_back_on(reach, p, shelf);
        Answer::Idle
    }

    // The restart that is due is recorded; its cuts are due then.
    pub(crate) fn restart<E: Reach<N>>(&mut self, reach: &mut E, shelf: Shelf<N>)
        requires held { IsHeld self.old.number shelf (E.deeds reach.old) }
        requires ready { IsReady shelf }
        requires due { restart_due shelf.journal.restarts shelf.journal.events ≡ true }
        requires may { May parts (Record self.old.number Restart) (E.deeds reach.old) }
        ensures lags { self.new ≡ lags self.old }
        ensures records { RecordsOne E.exact self.old.number Restart (marks_due self.old.setup (Restart ∷ shelf.journal.events)) (E.deeds reach.old) (E.deeds reach.new) }
    {
        let mut shelf = shelf;
        shelf.known();
        shelf.restart();
        record_on(reach, self.p, shelf);
        self.lagging = true;
    }

    // A restart that is due, or one message.
    fn act<E: Reach<N>>(&mut self, reach: &mut E, shelf: Shelf<N>) -> Answer
        requires held { IsHeld self.old.number shelf (E.deeds reach.old) }
        requires ready { IsReady shelf }
        requires safe { Safe parts E.exact (acts self.old shelf.journal.events) (E.deeds reach.old) }
        ensures { Runs E.exact (acts self.old shelf.journal.events) (E.deeds reach.old) (self.new, said_answer result) (E.deeds reach.new) }
    {
        self.fixed();
        shelf.known();
        if shelf.restart_due() {
            self.restart(reach, shelf);
            Answer::Worked
        } else {
            self.look(reach, shelf)
        }
    }

    // Room for one event is reserved first.
    pub(crate) fn go_on<E: Reach<N>>(&mut self, reach: &mut E, shelf: Shelf<N>) -> Answer
        requires held { IsHeld self.old.number shelf (E.deeds reach.old) }
        requires no_cut { shelf.journal.due ≡ [] }
        requires safe { Safe parts E.exact (holds self.old (value_of shelf)) (E.deeds reach.old) }
        ensures { Runs E.exact (holds self.old (value_of shelf)) (E.deeds reach.old) (self.new, said_answer result) (E.deeds reach.new) }
    {
        let mut shelf = shelf;
        if shelf.reserve().is_ok() {
            self.act(reach, shelf)
        } else {
            give_back_on(reach, self.p, shelf);
            Answer::Stopped
        }
    }
}
