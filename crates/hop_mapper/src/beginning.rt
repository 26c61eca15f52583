//! How a map worker begins attempts.
ghost use Rattle.std.specs.Prelude.{◌≡◌, ◌+◌, ◌-◌, ◌<◌, true, false, length, slice_set};
ghost use Rattle.hop_machine.specs.declared.words.Who.TheVariants as actor;
ghost use Rattle.hop_machine.specs.step.Steps.{Runs, Steps, AskWinner};
ghost use Rattle.hop_machine.specs.home.Conditions.{May, Safe};
ghost use Rattle.hop_inner.specs.Setups.{parts};

use crate::state::State;
use crate::work::{Running, Work};
use hop_actors::Turn;
use hop_base::RunName;
use hop_inner::steps::{draw_on, next_split_on, winner_on};
use hop_inner::{Knowing, Reach};
use hop_laws::Job;
use hop_machine::Who;
use hop_ports::{Folder, Gate};

impl<'a, N: RunName, V: Folder, J: Job, G: Gate, K: Knowing> State<'a, N, V, J, G, K> {
    ghost use Rattle.std.specs.Prelude.{Option};
    ghost use Rattle.hop_records.specs.Records.{lens_of};
    ghost use Rattle.hop_shelf.specs.Names.{book_of};
    ghost use Rattle.hop_machine.specs.actors.MapperTurns.{begins, retries, backs_up, when_dry, given, nothing_left, acts};
    ghost use Rattle.hop_machine.specs.home.MapperHome.{has_failed};
    ghost use Rattle.hop_actors.specs.Acting.{said_turn};
    ghost use Rattle.hop_mapper.specs.Mappers.{mapper_of, SameStore};
    ghost use Rattle.hop_machine.specs.actors.MapperTurns as machine;

    // A number of the split is drawn, and that attempt begun if it is below the limit.
    pub(crate) fn begin<E: Reach<N, Seat = K>>(&mut self, reach: &mut E, split: u32) -> Turn
        requires safe { Safe parts E.exact (begins (mapper_of N.records N.script N.settings self.old) split) (E.deeds reach.old) }
        ensures runs { Runs E.exact (begins (mapper_of N.records N.script N.settings self.old) split) (E.deeds reach.old) (mapper_of N.records N.script N.settings self.new, said_turn result) (E.deeds reach.new) }
        ensures same { SameStore self.old self.new }
        ensures calm { has_failed (said_turn result) ≡ false }
    {
        let number = draw_on::<N, E>(reach, self.worker(), split);
        if number < self.limit() as u64 {
            let attempt = number as u8;
            note_begun(&mut self.begun, split, attempt);
            self.work = Work::Runs(Running {
                split,
                attempt,
                done: 0,
            });
        } else {
            self.work = Work::Free;
        }
        Turn::Worked
    }

    // The split is tried again, unless it has a winner.
    pub(crate) fn retry<E: Reach<N, Seat = K>>(&mut self, reach: &mut E, split: u32) -> Turn
        requires safe { Safe parts E.exact (retries (mapper_of N.records N.script N.settings self.old) split) (E.deeds reach.old) }
        ensures runs { Runs E.exact (retries (mapper_of N.records N.script N.settings self.old) split) (E.deeds reach.old) (mapper_of N.records N.script N.settings self.new, said_turn result) (E.deeds reach.new) }
        ensures same { SameStore self.old self.new }
        ensures calm { has_failed (said_turn result) ≡ false }
    {
        match winner_on::<N, E>(reach, Who::Mapper(self.worker()), split) {
            None => self.begin(reach, split),
            Some(_) => {
                self.work = Work::Free;
                Turn::Worked
            }
        }
    }

    // The winner of the split, if there is one.
    pub(crate) fn winner_of<E: Reach<N, Seat = K>>(&self, reach: &mut E, split: u32) -> Option<u8>
        requires split { split < length (lens_of (book_of N.records N.settings)) }
        requires may { May parts (AskWinner (actor.Mapper self.now.vault.worker) split) (E.deeds reach.old) }
        ensures { Steps E.exact (AskWinner (actor.Mapper self.now.vault.worker) split) result (E.deeds reach.old) (E.deeds reach.new) }
    {
        winner_on::<N, E>(reach, Who::Mapper(self.worker()), split)
    }

    // A split without a winner gets an attempt more, and the next time it looks behind it.
    pub(crate) fn begin_backup<E: Reach<N, Seat = K>>(&mut self, reach: &mut E, split: u32) -> Turn
        requires split { split < length (lens_of (book_of N.records N.settings)) }
        requires safe { Safe parts E.exact (begins (record (mapper_of N.records N.script N.settings self.old) { place = split + 1 }) split) (E.deeds reach.old) }
        ensures runs { Runs E.exact (begins (record (mapper_of N.records N.script N.settings self.old) { place = split + 1 }) split) (E.deeds reach.old) (mapper_of N.records N.script N.settings self.new, said_turn result) (E.deeds reach.new) }
        ensures same { SameStore self.old self.new }
        ensures calm { has_failed (said_turn result) ≡ false }
    {
        self.known(split);
        self.place = split + 1;
        self.begin(reach, split)
    }

    // Nothing is left to begin: it has ended, but for what is held.
    pub(crate) fn nothing_left(&self) -> Turn
        ensures left { nothing_left (mapper_of N.records N.script N.settings self.now) ≡ (mapper_of N.records N.script N.settings self.now, said_turn result) }
        ensures calm { has_failed (said_turn result) ≡ false }
    {
        if self.press.is_clear() {
            Turn::Ended
        } else {
            Turn::Idle
        }
    }

    // The least split without a winner from its place on gets an attempt more.
    pub(crate) fn back_up<E: Reach<N, Seat = K>>(&mut self, reach: &mut E) -> Turn
        requires safe { Safe parts E.exact (backs_up (mapper_of N.records N.script N.settings self.old) (length (lens_of (book_of N.records N.settings)) - self.old.place) self.old.place) (E.deeds reach.old) }
        ensures runs { Runs E.exact (backs_up (mapper_of N.records N.script N.settings self.old) (length (lens_of (book_of N.records N.settings)) - self.old.place) self.old.place) (E.deeds reach.old) (mapper_of N.records N.script N.settings self.new, said_turn result) (E.deeds reach.new) }
        ensures same { SameStore self.old self.new }
        ensures calm { has_failed (said_turn result) ≡ false }
    {
        for split in self.place..self.splits() {
            match self.winner_of(reach, split) {
                None => return self.begin_backup(reach, split),
                Some(_) => {}
            }
        }
        self.nothing_left()
    }

    // With backup it looks for a split without a winner, and else nothing is left.
    pub(crate) fn when_dry<E: Reach<N, Seat = K>>(&mut self, reach: &mut E) -> Turn
        requires safe { Safe parts E.exact (when_dry (mapper_of N.records N.script N.settings self.old)) (E.deeds reach.old) }
        ensures runs { Runs E.exact (when_dry (mapper_of N.records N.script N.settings self.old)) (E.deeds reach.old) (mapper_of N.records N.script N.settings self.new, said_turn result) (E.deeds reach.new) }
        ensures same { SameStore self.old self.new }
        ensures calm { has_failed (said_turn result) ≡ false }
    {
        if self.has_backup() {
            self.back_up(reach)
        } else {
            self.nothing_left()
        }
    }

    // It begins the split that it was given, or is dry from now on.
    pub(crate) fn take_given<E: Reach<N, Seat = K>>(
        &mut self,
        reach: &mut E,
        split: Option<u32>,
    ) -> Turn
        requires safe { Safe parts E.exact (given (mapper_of N.records N.script N.settings self.old) split) (E.deeds reach.old) }
        ensures runs { Runs E.exact (given (mapper_of N.records N.script N.settings self.old) split) (E.deeds reach.old) (mapper_of N.records N.script N.settings self.new, said_turn result) (E.deeds reach.new) }
        ensures same { SameStore self.old self.new }
        ensures calm { has_failed (said_turn result) ≡ false }
    {
        match split {
            None => {
                self.dry = true;
                self.when_dry(reach)
            }
            Some(split) => self.begin(reach, split),
        }
    }

    // With nothing to do yet, it asks for a split, unless it is dry.
    pub(crate) fn ask<E: Reach<N, Seat = K>>(&mut self, reach: &mut E) -> Turn
        requires safe { Safe parts E.exact (acts (mapper_of N.records N.script N.settings self.old) machine.Free) (E.deeds reach.old) }
        ensures runs { Runs E.exact (acts (mapper_of N.records N.script N.settings self.old) machine.Free) (E.deeds reach.old) (mapper_of N.records N.script N.settings self.new, said_turn result) (E.deeds reach.new) }
        ensures same { SameStore self.old self.new }
        ensures calm { has_failed (said_turn result) ≡ false }
    {
        if self.dry {
            self.when_dry(reach)
        } else {
            let split = next_split_on::<N, E>(reach, self.worker());
            self.take_given(reach, split)
        }
    }
}

// One more than this attempt of the split was begun.
fn note_begun(begun: &mut Vec<u8>, split: u32, attempt: u8)
    requires split { split < length begun.old.items }
    requires attempt { attempt < 16 }
    ensures { begun.new.items ≡ slice_set begun.old.items split (attempt + 1) }
{
    begun[split as usize] = attempt + 1;
}
