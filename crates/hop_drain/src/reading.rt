//! What one message makes of the history.
ghost use Rattle.std.specs.Prelude.{◌≡◌, ◌&&◌, not, is_none};
ghost use Rattle.hop_event.specs.History.{winner, is_revoked};
ghost use Rattle.hop_event.specs.declared.event.Event.TheVariants.{Won, Revoked};
ghost use Rattle.hop_shelf.specs.Names.{pairs_of};
ghost use Rattle.hop_machine.specs.declared.words.Message.TheVariants.{Range, Notice};
ghost use Rattle.hop_machine.specs.step.Steps.{Runs};
ghost use Rattle.hop_machine.specs.actors.ReducerTurns.{reads, asked, notes_new, is_attempt, lane_via, passes};
ghost use Rattle.hop_machine.specs.home.Conditions.{Safe};
ghost use Rattle.hop_inner.specs.Setups.{parts};
ghost use Rattle.hop_inner.specs.Boards.{KnowsVerdict};
ghost use Rattle.hop_inner.specs.Messages.{said, FitsAt, FitsParcel};
ghost use Rattle.hop_drain.specs.Answers.{said_answer};
ghost use Rattle.hop_drain.specs.Held.{IsHeld, IsReady};

use crate::answer::Answer;
use crate::drain::Drain;
use hop_base::RunName;
use hop_event::Via;
use hop_inner::steps::{give_back_on, is_revoked_on, join_on, winner_on};
use hop_inner::{Knowing, Message, Reach};
use hop_laws::Job;
use hop_machine::Who;
use hop_run::Parcel;
use hop_shelf::Shelf;

impl<'a, N: RunName, J: Job> Drain<'a, N, J> {
    // How a range comes by this lane.
    fn via(&self, w: u8) -> Via
        ensures { result ≡ lane_via self.now.late w }
    {
        if self.late {
            Via::Late(w)
        } else {
            Via::Lane(w)
        }
    }

    // A range is recorded.
    fn read_parcel<E: Reach<N>>(
        &self,
        reach: &mut E,
        shelf: Shelf<N>,
        w: u8,
        parcel: Parcel,
    ) -> Answer
        requires held { IsHeld self.now.number shelf (E.deeds reach.old) }
        requires ready { IsReady shelf }
        requires fits { FitsParcel N.tells N.job.reduced (pairs_of N.job N.records N.settings self.now.number) parcel }
        requires safe { Safe parts E.exact (reads self.now w shelf.journal.events (Range parcel.part)) (E.deeds reach.old) }
        ensures { Runs E.exact (reads self.now w shelf.journal.events (Range parcel.part)) (E.deeds reach.old) (self.now, said_answer result) (E.deeds reach.new) }
    {
        let mut shelf = shelf;
        shelf.known();
        let via = self.via(w);
        shelf.arrive(parcel, via);
        self.close(reach, shelf)
    }

    // Nothing is recorded.
    fn pass<E: Reach<N>>(&self, reach: &mut E, shelf: Shelf<N>) -> Answer
        requires held { IsHeld self.now.number shelf (E.deeds reach.old) }
        requires ready { IsReady shelf }
        requires safe { Safe parts E.exact (passes self.now) (E.deeds reach.old) }
        ensures { Runs E.exact (passes self.now) (E.deeds reach.old) (self.now, said_answer result) (E.deeds reach.new) }
    {
        give_back_on(reach, self.p, shelf);
        Answer::Worked
    }

    // The attempt won: that is recorded, unless it is already.
    fn record_won<E: Reach<N>>(
        &self,
        reach: &mut E,
        shelf: Shelf<N>,
        split: u32,
        attempt: u8,
    ) -> Answer
        requires held { IsHeld self.now.number shelf (E.deeds reach.old) }
        requires ready { IsReady shelf }
        requires safe { Safe parts E.exact (notes_new self.now shelf.journal.events (is_none (winner split shelf.journal.events)) (Won split attempt)) (E.deeds reach.old) }
        ensures { Runs E.exact (notes_new self.now shelf.journal.events (is_none (winner split shelf.journal.events)) (Won split attempt)) (E.deeds reach.old) (self.now, said_answer result) (E.deeds reach.new) }
    {
        let mut shelf = shelf;
        shelf.known();
        if shelf.winner(split).is_none() {
            shelf.won(split, attempt);
            self.close(reach, shelf)
        } else {
            self.pass(reach, shelf)
        }
    }

    // The attempt is revoked, if it is gone: that is recorded, unless it is already.
    fn record_revoked<E: Reach<N>>(
        &self,
        reach: &mut E,
        shelf: Shelf<N>,
        split: u32,
        attempt: u8,
        gone: bool,
    ) -> Answer
        requires held { IsHeld self.now.number shelf (E.deeds reach.old) }
        requires ready { IsReady shelf }
        requires safe { Safe parts E.exact (notes_new self.now shelf.journal.events (gone && not (is_revoked split attempt shelf.journal.events)) (Revoked split attempt)) (E.deeds reach.old) }
        ensures { Runs E.exact (notes_new self.now shelf.journal.events (gone && not (is_revoked split attempt shelf.journal.events)) (Revoked split attempt)) (E.deeds reach.old) (self.now, said_answer result) (E.deeds reach.new) }
    {
        let mut shelf = shelf;
        shelf.known();
        if gone && !shelf.is_revoked(split, attempt) {
            shelf.revoked(split, attempt);
            self.close(reach, shelf)
        } else {
            self.pass(reach, shelf)
        }
    }

    // The board told who won the split of a notice.
    fn read_verdict<E: Reach<N>>(
        &self,
        reach: &mut E,
        shelf: Shelf<N>,
        split: u32,
        attempt: u8,
        told: Option<u8>,
    ) -> Answer
        requires held { IsHeld self.now.number shelf (E.deeds reach.old) }
        requires ready { IsReady shelf }
        requires safe { Safe parts E.exact (asked self.now shelf.journal.events split attempt told) (E.deeds reach.old) }
        ensures { Runs E.exact (asked self.now shelf.journal.events split attempt told) (E.deeds reach.old) (self.now, said_answer result) (E.deeds reach.new) }
    {
        if is_attempt(told, attempt) {
            self.record_won(reach, shelf, split, attempt)
        } else {
            let gone = is_revoked_on(reach, Who::Reducer(self.p), split, attempt);
            self.record_revoked(reach, shelf, split, attempt, gone)
        }
    }

    // A notice: the board is asked what became of the attempt.
    fn read_notice<E: Reach<N>>(
        &self,
        reach: &mut E,
        shelf: Shelf<N>,
        w: u8,
        split: u32,
        attempt: u8,
        known: E::Seat,
    ) -> Answer
        requires held { IsHeld self.now.number shelf (E.deeds reach.old) }
        requires ready { IsReady shelf }
        requires board { E.Seat.board known ≡ (E.deeds reach.old).ends.board }
        requires known { KnowsVerdict (E.Seat.knows known) split attempt }
        requires safe { Safe parts E.exact (reads self.now w shelf.journal.events (Notice split attempt)) (E.deeds reach.old) }
        ensures { Runs E.exact (reads self.now w shelf.journal.events (Notice split attempt)) (E.deeds reach.old) (self.now, said_answer result) (E.deeds reach.new) }
    {
        join_on(reach, self.p, split, attempt, known);
        let told = winner_on(reach, Who::Reducer(self.p), split);
        self.read_verdict(reach, shelf, split, attempt, told)
    }

    // A message from mapper `w`.
    pub(crate) fn read<E: Reach<N>>(
        &self,
        reach: &mut E,
        shelf: Shelf<N>,
        w: u8,
        message: Message<E::Seat>,
    ) -> Answer
        requires held { IsHeld self.now.number shelf (E.deeds reach.old) }
        requires ready { IsReady shelf }
        requires fits { FitsAt N.job N.records N.settings N.tells self.now.number E.Seat.knows E.Seat.board (E.deeds reach.old).ends.board message }
        requires safe { Safe parts E.exact (reads self.now w shelf.journal.events (said message)) (E.deeds reach.old) }
        ensures { Runs E.exact (reads self.now w shelf.journal.events (said message)) (E.deeds reach.old) (self.now, said_answer result) (E.deeds reach.new) }
    {
        match message {
            Message::Parcel(parcel) => self.read_parcel(reach, shelf, w, parcel),
            Message::Notice {
                split,
                attempt,
                known,
            } => self.read_notice(reach, shelf, w, split, attempt, known),
        }
    }
}

// Whether the winner is this attempt.
fn is_attempt(told: Option<u8>, attempt: u8) -> bool
    ensures { result ≡ is_attempt told attempt }
{
    match told {
        None => false,
        Some(winner) => winner == attempt,
    }
}
