//! What is recorded, and the cuts that it makes due.
ghost use Rattle.std.specs.Prelude.{◌≡◌, map, All};
ghost use Rattle.hop_machine.specs.step.Steps.{Runs};
ghost use Rattle.hop_machine.specs.actors.ReducerTurns.{send_cuts, still_due};
ghost use Rattle.hop_machine.specs.home.Conditions.{Safe};
ghost use Rattle.hop_inner.specs.Setups.{parts};
ghost use Rattle.hop_inner.specs.Messages.{said_cut, CutFitsAt};
ghost use Rattle.hop_drain.specs.Answers.{said_answer};
ghost use Rattle.hop_drain.specs.Drains.{each_said, notes_last};
ghost use Rattle.hop_drain.specs.Held.{IsAdded, with_due};

use crate::answer::Answer;
use crate::drain::Drain;
use hop_base::RunName;
use hop_cut::Cuts;
use hop_inner::Reach;
use hop_inner::steps::{record_on, send_cut_on};
use hop_laws::Job;
use hop_shelf::Shelf;

impl<'a, N: RunName, J: Job> Drain<'a, N, J> {
    // These cuts go to the writer. The cut lane is never full.
    pub(crate) fn send_all<E: Reach<N>>(&self, reach: &mut E, cuts: Cuts)
        requires fits { All (CutFitsAt N.job N.records N.settings N.tells self.now.number) cuts }
        requires safe { Safe parts E.exact (each_said self.now.number (map said_cut cuts)) (E.deeds reach.old) }
        ensures { Runs E.exact (each_said self.now.number (map said_cut cuts)) (E.deeds reach.old) tt (E.deeds reach.new) }
    {
        for cut in cuts.into_vec() {
            let _answer = send_cut_on(reach, self.p, cut);
        }
    }

    // The cuts that are due are sent, and none is due then. Where memory is wanting they all stay due.
    pub(crate) fn send_cuts<E: Reach<N>>(&self, reach: &mut E, shelf: &mut Shelf<N>) -> bool
        requires number { shelf.old.p ≡ self.now.number }
        requires safe { Safe parts E.exact (send_cuts self.now shelf.old.journal.events shelf.old.journal.due) (E.deeds reach.old) }
        ensures runs { Runs E.exact (send_cuts self.now shelf.old.journal.events shelf.old.journal.due) (E.deeds reach.old) result (E.deeds reach.new) }
        ensures shelf { shelf.new ≡ with_due (still_due result shelf.old.journal.due) shelf.old }
    {
        self.fixed();
        shelf.known();
        match shelf.cuts_due() {
            Ok(cuts) => {
                self.send_all(reach, cuts);
                true
            }
            Err(_) => false,
        }
    }

    // The cuts that an added event makes due are sent, and the event is recorded as the value is given back.
    fn send_and_record<E: Reach<N>>(&self, reach: &mut E, shelf: Shelf<N>) -> Answer
        requires added { IsAdded self.now.number shelf (E.deeds reach.old) }
        requires safe { Safe parts E.exact (notes_last self.now shelf.journal.events) (E.deeds reach.old) }
        ensures { Runs E.exact (notes_last self.now shelf.journal.events) (E.deeds reach.old) (self.now, said_answer result) (E.deeds reach.new) }
    {
        let mut shelf = shelf;
        self.fixed();
        shelf.known();
        let sent = self.send_cuts(reach, &mut shelf);
        record_on(reach, self.p, shelf);
        if sent {
            Answer::Worked
        } else {
            Answer::Stopped
        }
    }

    // An event was added: the cuts that it makes due are sent, and it is recorded as the value is given back. Where cuts are due, the
    // runs of each owner become one before, as far as memory allows.
    pub(crate) fn close<E: Reach<N>>(&self, reach: &mut E, shelf: Shelf<N>) -> Answer
        requires added { IsAdded self.now.number shelf (E.deeds reach.old) }
        requires safe { Safe parts E.exact (notes_last self.now shelf.journal.events) (E.deeds reach.old) }
        ensures { Runs E.exact (notes_last self.now shelf.journal.events) (E.deeds reach.old) (self.now, said_answer result) (E.deeds reach.new) }
    {
        let mut shelf = shelf;
        let _merged = shelf.merge_due(self.job);
        self.send_and_record(reach, shelf)
    }
}
