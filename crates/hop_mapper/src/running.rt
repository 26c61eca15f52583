//! What a map worker does with its running attempt.
ghost use Rattle.std.specs.Prelude.{◌≡◌, ℕ, ◌+◌, ◌-◌, ◌<◌, ◌≤◌, true, false, length, map, slice_index_or};
ghost use Rattle.hop_machine.specs.declared.words.Who.TheVariants as actor;
ghost use Rattle.hop_machine.specs.step.Steps.{Runs};
ghost use Rattle.hop_machine.specs.home.Conditions.{Safe};
ghost use Rattle.hop_inner.specs.Setups.{parts};
ghost use Rattle.hop_inner.specs.Boards.{KnowsVerdict};
ghost use Rattle.hop_mapper.specs.Mappers.{running_of};
ghost use Rattle.hop_mapper.specs.Programs.{settles};

use crate::faults::turn_of;
use crate::scripted::{fails_by, is_full};
use crate::state::State;
use crate::work::{Running, Work};
use hop_actors::{Fault, Turn};
use hop_base::{NoMemory, Part, RunName};
use hop_inner::steps::{commit_on, revoke_on, winner_on};
use hop_inner::{Knowing, Reach};
use hop_laws::Job;
use hop_machine::{Verdict, Who};
use hop_ports::{Folder, Gate};
use hop_run::Runs;

impl<'a, N: RunName, V: Folder, J: Job, G: Gate, K: Knowing> State<'a, N, V, J, G, K> {
    ghost use Rattle.std.specs.Prelude.{Option, ◌^◌};
    ghost use Rattle.std.specs.List.{range_with_len};
    ghost use Rattle.hop_base.specs.Run.{fails_at};
    ghost use Rattle.hop_records.specs.Records.{lens_of};
    ghost use Rattle.hop_run.specs.Runs.{RunStands, combined_run, empty_run};
    ghost use Rattle.hop_shelf.specs.Names.{book_of, rules_of, pairs_of};
    ghost use Rattle.hop_machine.specs.actors.MapperTurns.{spill_end, must_fail, unless_spent, commits, fails, spills, runs_on, offer, each_lane};
    ghost use Rattle.hop_machine.specs.home.MapperHome.{has_failed};
    ghost use Rattle.hop_actors.specs.Acting.{said_turn, Maps};
    ghost use Rattle.hop_actors.specs.Counting.{TurnCause};
    ghost use Rattle.hop_actors.specs.Spilled.{OnlySpills};
    ghost use Rattle.hop_mapper.specs.Mappers.{mapper_of, counts_of, FitsBoard, SameButHeld};
    ghost use Rattle.hop_mapper.specs.Next.{split_len, RunsHere, AddsAtMost};
    ghost use Rattle.hop_machine.specs.step.Steps.{BoardEnd};
    ghost use Rattle.hop_press.specs.Fits.{IsWhole};
    ghost use Rattle.hop_press.specs.Held.{said_lanes, lanes_left};
    ghost use Rattle.hop_machine.specs.declared.words.Message.TheVariants as machine_message;

    // Where the next spill of an attempt ends.
    pub(crate) fn spill_end(&self, run: Running) -> u32
        requires split { run.split < length (lens_of (book_of N.records N.settings)) }
        requires within { run.done ≤ split_len N.records N.settings run.split }
        ensures { result ≡ spill_end (rules_of N.records N.script N.settings) (running_of run) }
    {
        let len = self.len_of(run.split);
        (run.done + self.spill_size()).min(len)
    }

    // Where the script lets the attempt fail, if it does.
    pub(crate) fn line_of(&self, run: Running) -> Option<u32>
        ensures { result ≡ fails_at N.script run.split run.attempt }
    {
        self.script.fails_at(run.split, run.attempt)
    }

    // Whether the attempt fails before its next spill is whole, or at the end of its split.
    pub(crate) fn must_fail(&self, run: Running) -> bool
        requires split { run.split < length (lens_of (book_of N.records N.settings)) }
        requires within { run.done ≤ split_len N.records N.settings run.split }
        ensures { result ≡ must_fail (rules_of N.records N.script N.settings) (running_of run) }
    {
        let line = self.line_of(run);
        fails_by(line, self.len_of(run.split), run.done, self.spill_end(run))
    }

    // The split is spent where all its attempts are revoked and it has no winner.
    pub(crate) fn unless_spent<E: Reach<N, Seat = K>>(
        &self,
        reach: &mut E,
        split: u32,
        mask: u16,
    ) -> Turn
        requires bits { mask < 2 ^ 16 }
        requires safe { Safe parts E.exact (unless_spent (mapper_of N.records N.script N.settings self.now) split mask) (E.deeds reach.old) }
        ensures runs { Runs E.exact (unless_spent (mapper_of N.records N.script N.settings self.now) split mask) (E.deeds reach.old) (mapper_of N.records N.script N.settings self.now, said_turn result) (E.deeds reach.new) }
        ensures ends { (E.deeds reach.new).ends ≡ (E.deeds reach.old).ends }
        ensures cause { TurnCause N.job N.records N.script N.settings (Maps (mapper_of N.records N.script N.settings self.now)) (counts_of V.seen self.now.vault) (counts_of V.seen self.now.vault) result }
    {
        if !is_full(self.limit(), mask) {
            return Turn::Worked;
        }
        match winner_on::<N, E>(reach, Who::Mapper(self.worker()), split) {
            None => Turn::Failed(Fault::SpentAt { split }),
            Some(_) => Turn::Worked,
        }
    }

    // Each lane is offered the notice of the attempt.
    pub(crate) fn give_notice<E: Reach<N, Seat = K>>(
        &mut self,
        reach: &mut E,
        run: Running,
    ) -> Result<(), NoMemory>
        requires well { self.old.failed ≡ false }
        requires end { (E.deeds reach.old).ends.has (BoardEnd (actor.Mapper self.old.vault.worker)) ≡ true }
        requires known { KnowsVerdict ((E.deeds reach.old).told.knows (actor.Mapper self.old.vault.worker)) run.split run.attempt }
        requires safe { Safe parts E.exact (each_lane (offer self.old.vault.worker (machine_message.Notice run.split run.attempt)) 0 (said_lanes self.old.held)) (E.deeds reach.old) }
        requires fits { FitsBoard N.job N.records N.settings N.tells K.knows K.board self.old (E.deeds reach.old) }
        ensures runs { Runs E.exact (each_lane (offer self.old.vault.worker (machine_message.Notice run.split run.attempt)) 0 (said_lanes self.old.held)) (E.deeds reach.old) (lanes_left result (said_lanes self.new.held)) (E.deeds reach.new) }
        ensures same { SameButHeld self.old self.new }
        ensures fits { FitsBoard N.job N.records N.settings N.tells K.knows K.board self.new (E.deeds reach.new) }
    {
        let worker = self.vault.worker();
        self.press
            .notice_all::<N, E>(reach, worker, run.split, run.attempt)
    }

    // Each lane is offered its part of a kept spill.
    pub(crate) fn give_parts<E: Reach<N, Seat = K>>(
        &mut self,
        reach: &mut E,
        part: Part,
        runs: Runs,
    ) -> Result<(), NoMemory>
        requires well { self.old.failed ≡ false }
        requires whole { IsWhole self.old.vault.rows part }
        requires runs { runs ≡ map (combined_run N.job N.records N.settings.split N.settings.reducers part) (range_with_len 0 N.settings.reducers) }
        requires some { part.from < part.to }
        requires stands { (p : ℕ) → p < N.settings.reducers → RunStands N.job.reduced (pairs_of N.job N.records N.settings p) (slice_index_or runs p empty_run) }
        requires safe { Safe parts E.exact (each_lane (offer self.old.vault.worker (machine_message.Range part)) 0 (said_lanes self.old.held)) (E.deeds reach.old) }
        requires fits { FitsBoard N.job N.records N.settings N.tells K.knows K.board self.old (E.deeds reach.old) }
        ensures runs { Runs E.exact (each_lane (offer self.old.vault.worker (machine_message.Range part)) 0 (said_lanes self.old.held)) (E.deeds reach.old) (lanes_left result (said_lanes self.new.held)) (E.deeds reach.new) }
        ensures same { SameButHeld self.old self.new }
        ensures fits { FitsBoard N.job N.records N.settings N.tells K.knows K.board self.new (E.deeds reach.new) }
    {
        let worker = self.vault.worker();
        self.press.offer_all::<N, E>(reach, worker, part, runs)
    }

    // It must fail here: it is revoked, each lane has the notice, and its split is tried again.
    pub(crate) fn fail<E: Reach<N, Seat = K>>(&mut self, reach: &mut E, run: Running) -> Turn
        requires well { self.old.failed ≡ false }
        requires safe { Safe parts E.exact (fails (mapper_of N.records N.script N.settings self.old) (running_of run)) (E.deeds reach.old) }
        requires fits { FitsBoard N.job N.records N.settings N.tells K.knows K.board self.old (E.deeds reach.old) }
        ensures runs { Runs E.exact (fails (mapper_of N.records N.script N.settings self.old) (running_of run)) (E.deeds reach.old) (mapper_of N.records N.script N.settings self.new, said_turn result) (E.deeds reach.new) }
        ensures vault { self.new.vault ≡ self.old.vault }
        ensures well { self.new.failed ≡ false }
        ensures fits { FitsBoard N.job N.records N.settings N.tells K.knows K.board self.new (E.deeds reach.new) }
        ensures cause { TurnCause N.job N.records N.script N.settings (Maps (mapper_of N.records N.script N.settings self.old)) (counts_of V.seen self.old.vault) (counts_of V.seen self.new.vault) result }
    {
        let mask = revoke_on::<N, E>(reach, self.worker(), run.split, run.attempt);
        self.set_work(Work::Retries { split: run.split });
        match self.give_notice(reach, run) {
            Ok(()) => self.unless_spent(reach, run.split, mask),
            Err(NoMemory) => Turn::Failed(Fault::NoMemory),
        }
    }

    // All its records are done: it commits, is revoked if it lost, and is over; each lane has the notice.
    pub(crate) fn commit<E: Reach<N, Seat = K>>(&mut self, reach: &mut E, run: Running) -> Turn
        requires well { self.old.failed ≡ false }
        requires safe { Safe parts E.exact (commits (mapper_of N.records N.script N.settings self.old) (running_of run)) (E.deeds reach.old) }
        requires fits { FitsBoard N.job N.records N.settings N.tells K.knows K.board self.old (E.deeds reach.old) }
        ensures runs { Runs E.exact (commits (mapper_of N.records N.script N.settings self.old) (running_of run)) (E.deeds reach.old) (mapper_of N.records N.script N.settings self.new, said_turn result) (E.deeds reach.new) }
        ensures vault { self.new.vault ≡ self.old.vault }
        ensures well { self.new.failed ≡ false }
        ensures fits { FitsBoard N.job N.records N.settings N.tells K.knows K.board self.new (E.deeds reach.new) }
        ensures cause { TurnCause N.job N.records N.script N.settings (Maps (mapper_of N.records N.script N.settings self.old)) (counts_of V.seen self.old.vault) (counts_of V.seen self.new.vault) result }
    {
        commit_or_revoke::<N, E>(reach, self.worker(), run);
        self.set_work(Work::Free);
        turn_of(self.give_notice(reach, run))
    }

    // An attempt runs: it fails, commits or spills.
    pub(crate) fn run_on<E: Reach<N, Seat = K>>(&mut self, reach: &mut E, run: Running) -> Turn
        requires well { self.old.failed ≡ false }
        requires here { RunsHere N.records N.settings self.old.vault.rows (running_of run) }
        requires safe { Safe parts E.exact (runs_on (mapper_of N.records N.script N.settings self.old) (running_of run)) (E.deeds reach.old) }
        requires fits { FitsBoard N.job N.records N.settings N.tells K.knows K.board self.old (E.deeds reach.old) }
        ensures runs { Runs E.exact (runs_on (mapper_of N.records N.script N.settings self.old) (running_of run)) (E.deeds reach.old) (mapper_of N.records N.script N.settings self.new, said_turn result) (E.deeds reach.new) }
        ensures well { self.new.failed ≡ false }
        ensures fits { FitsBoard N.job N.records N.settings N.tells K.knows K.board self.new (E.deeds reach.new) }
        ensures cause { TurnCause N.job N.records N.script N.settings (Maps (mapper_of N.records N.script N.settings self.old)) (counts_of V.seen self.old.vault) (counts_of V.seen self.new.vault) result }
        ensures adds { has_failed (said_turn result) ≡ false → AddsAtMost N.job N.records N.settings (V.seen self.old.vault.folder).held (V.seen self.new.vault.folder).held self.old.vault.rows self.new.vault.rows }
        ensures only { OnlySpills (V.seen self.old.vault.folder).held (V.seen self.new.vault.folder).held }
        ensures worker { self.new.vault.worker ≡ self.old.vault.worker }
    {
        if self.must_fail(run) {
            self.fail(reach, run)
        } else if run.done == self.len_of(run.split) {
            self.commit(reach, run)
        } else {
            self.spill(reach, run)
        }
    }
}

// The attempt commits; where it lost, it is revoked. Its end of the board knows what became of it.
fn commit_or_revoke<N: RunName, E: Reach<N>>(reach: &mut E, w: u8, run: Running)
    requires safe { Safe parts E.exact (settles w (running_of run)) (E.deeds reach.old) }
    ensures runs { Runs E.exact (settles w (running_of run)) (E.deeds reach.old) tt (E.deeds reach.new) }
    ensures known { KnowsVerdict ((E.deeds reach.new).told.knows (actor.Mapper w)) run.split run.attempt }
    ensures ends { (E.deeds reach.new).ends ≡ (E.deeds reach.old).ends }
{
    match commit_on::<N, E>(reach, w, run.split, run.attempt) {
        Verdict::Won => {}
        Verdict::Lost { .. } => {
            let _mask = revoke_on::<N, E>(reach, w, run.split, run.attempt);
        }
    }
}
