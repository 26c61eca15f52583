//! A turn of a map worker.
ghost use Rattle.std.specs.Prelude.{◌≡◌, ◌-◌, ◌<◌, true, false, IfErr, OnOk};
ghost use Rattle.hop_machine.specs.step.Steps.{Runs};
ghost use Rattle.hop_machine.specs.home.Conditions.{Safe};
ghost use Rattle.hop_inner.specs.Setups.{parts};

use crate::faults::flush_fault;
use crate::state::State;
use crate::work::Work;
use hop_actors::Turn;
use hop_base::RunName;
use hop_inner::{Knowing, Reach};
use hop_laws::Job;
use hop_machine::mapper_laws::{mapper_is_safe, mapper_says};
use hop_ports::{Folder, Gate};
use hop_press::FlushFault;

impl<'a, N: RunName, V: Folder, J: Job, G: Gate, K: Knowing> State<'a, N, V, J, G, K> {
    ghost use Rattle.std.specs.Prelude.{◌^◌};
    ghost use Rattle.hop_machine.specs.actors.MapperTurns.{acts, takes_turn, open_turn, mapper_turn, each_lane, flush};
    ghost use Rattle.hop_machine.specs.home.MapperHome.{has_failed};
    ghost use Rattle.hop_press.specs.Held.{said_lanes, lanes_left};
    ghost use Rattle.hop_actors.specs.Acting.{said_turn, Maps, MayMap};
    ghost use Rattle.hop_actors.specs.Counting.{StoreCause, TurnCause};
    ghost use Rattle.hop_actors.specs.Spilled.{OnlySpills};
    ghost use Rattle.hop_mapper.specs.Mappers.{mapper_of, work_of, counts_of, FitsBoard};
    ghost use Rattle.hop_mapper.specs.Next.{WorksHere, AddsAtMost};
    ghost use Rattle.hop_mapper.specs.Faults.{flush_fault};

    // What it does in a turn, by what it has to do.
    pub(crate) fn act<E: Reach<N, Seat = K>>(&mut self, reach: &mut E) -> Turn
        requires well { self.old.failed ≡ false }
        requires here { WorksHere N.records N.settings self.old.vault.rows (work_of self.old.work) }
        requires safe { Safe parts E.exact (acts (mapper_of N.records N.script N.settings self.old) (work_of self.old.work)) (E.deeds reach.old) }
        requires fits { FitsBoard N.job N.records N.settings N.tells K.knows K.board self.old (E.deeds reach.old) }
        ensures runs { Runs E.exact (acts (mapper_of N.records N.script N.settings self.old) (work_of self.old.work)) (E.deeds reach.old) (mapper_of N.records N.script N.settings self.new, said_turn result) (E.deeds reach.new) }
        ensures well { self.new.failed ≡ false }
        ensures fits { FitsBoard N.job N.records N.settings N.tells K.knows K.board self.new (E.deeds reach.new) }
        ensures cause { TurnCause N.job N.records N.script N.settings (Maps (mapper_of N.records N.script N.settings self.old)) (counts_of V.seen self.old.vault) (counts_of V.seen self.new.vault) result }
        ensures adds { has_failed (said_turn result) ≡ false → AddsAtMost N.job N.records N.settings (V.seen self.old.vault.folder).held (V.seen self.new.vault.folder).held self.old.vault.rows self.new.vault.rows }
        ensures only { OnlySpills (V.seen self.old.vault.folder).held (V.seen self.new.vault.folder).held }
        ensures worker { self.new.vault.worker ≡ self.old.vault.worker }
    {
        match self.work {
            Work::Runs(run) => self.run_on(reach, run),
            Work::Retries { split } => self.retry(reach, split),
            Work::Free => self.ask(reach),
        }
    }

    // What is held goes out to each lane; after a fault no further turn is taken.
    pub(crate) fn flush<E: Reach<N, Seat = K>>(&mut self, reach: &mut E) -> Result<(), FlushFault>
        requires well { self.old.failed ≡ false }
        requires safe { Safe parts E.exact (each_lane (flush self.old.vault.worker) 0 (said_lanes self.old.held)) (E.deeds reach.old) }
        requires fits { FitsBoard N.job N.records N.settings N.tells K.knows K.board self.old (E.deeds reach.old) }
        ensures runs { Runs E.exact (each_lane (flush self.old.vault.worker) 0 (said_lanes self.old.held)) (E.deeds reach.old) (lanes_left result (said_lanes self.new.held)) (E.deeds reach.new) }
        ensures rest { self.new ≡ record self.old { vault = self.new.vault; held = self.new.held; failed = self.new.failed } }
        ensures rows { self.new.vault.rows ≡ self.old.vault.rows }
        ensures worker { self.new.vault.worker ≡ self.old.vault.worker }
        ensures files { (V.seen self.new.vault.folder).held ≡ (V.seen self.old.vault.folder).held }
        ensures well { OnOk result (self.new.failed ≡ false) }
        ensures fits { FitsBoard N.job N.records N.settings N.tells K.knows K.board self.new (E.deeds reach.new) }
        ensures answered { OnOk result (counts_of V.seen self.new.vault ≡ counts_of V.seen self.old.vault) }
        ensures cause { IfErr result (λ fault. StoreCause N.job N.records N.script N.settings self.old.vault.worker (counts_of V.seen self.old.vault) (counts_of V.seen self.new.vault) (flush_fault self.old.vault.worker fault)) }
    {
        let worker = self.vault.worker();
        match self
            .press
            .flush_all::<N, E, J, V>(reach, worker, self.job, &mut self.vault)
        {
            Ok(()) => Ok(()),
            Err(fault) => {
                self.failed = true;
                Err(fault)
            }
        }
    }

    // What is held is flushed, and then it acts.
    pub(crate) fn take_turn<E: Reach<N, Seat = K>>(&mut self, reach: &mut E) -> Turn
        requires well { self.old.failed ≡ false }
        requires here { WorksHere N.records N.settings self.old.vault.rows (work_of self.old.work) }
        requires safe { Safe parts E.exact (takes_turn (mapper_of N.records N.script N.settings self.old)) (E.deeds reach.old) }
        requires fits { FitsBoard N.job N.records N.settings N.tells K.knows K.board self.old (E.deeds reach.old) }
        ensures runs { Runs E.exact (takes_turn (mapper_of N.records N.script N.settings self.old)) (E.deeds reach.old) (mapper_of N.records N.script N.settings self.new, said_turn result) (E.deeds reach.new) }
        ensures well { has_failed (said_turn result) ≡ false → self.new.failed ≡ false }
        ensures fits { FitsBoard N.job N.records N.settings N.tells K.knows K.board self.new (E.deeds reach.new) }
        ensures cause { TurnCause N.job N.records N.script N.settings (Maps (mapper_of N.records N.script N.settings self.old)) (counts_of V.seen self.old.vault) (counts_of V.seen self.new.vault) result }
        ensures adds { has_failed (said_turn result) ≡ false → AddsAtMost N.job N.records N.settings (V.seen self.old.vault.folder).held (V.seen self.new.vault.folder).held self.old.vault.rows self.new.vault.rows }
        ensures only { OnlySpills (V.seen self.old.vault.folder).held (V.seen self.new.vault.folder).held }
        ensures worker { self.new.vault.worker ≡ self.old.vault.worker }
    {
        let worker = self.worker();
        match self.flush(reach) {
            Ok(()) => self.act(reach),
            Err(fault) => Turn::Failed(flush_fault(worker, fault)),
        }
    }

    // A turn of a mapper that has not ended: the first ones do nothing, as many as the script delays it.
    pub(crate) fn open_turn<E: Reach<N, Seat = K>>(&mut self, reach: &mut E) -> Turn
        requires well { self.old.failed ≡ false }
        requires turns { self.old.turns < 2 ^ 56 }
        requires here { WorksHere N.records N.settings self.old.vault.rows (work_of self.old.work) }
        requires safe { Safe parts E.exact (open_turn (mapper_of N.records N.script N.settings self.old)) (E.deeds reach.old) }
        requires fits { FitsBoard N.job N.records N.settings N.tells K.knows K.board self.old (E.deeds reach.old) }
        ensures runs { Runs E.exact (open_turn (mapper_of N.records N.script N.settings self.old)) (E.deeds reach.old) (mapper_of N.records N.script N.settings self.new, said_turn result) (E.deeds reach.new) }
        ensures well { has_failed (said_turn result) ≡ false → self.new.failed ≡ false }
        ensures fits { FitsBoard N.job N.records N.settings N.tells K.knows K.board self.new (E.deeds reach.new) }
        ensures cause { TurnCause N.job N.records N.script N.settings (Maps (mapper_of N.records N.script N.settings self.old)) (counts_of V.seen self.old.vault) (counts_of V.seen self.new.vault) result }
        ensures adds { has_failed (said_turn result) ≡ false → AddsAtMost N.job N.records N.settings (V.seen self.old.vault.folder).held (V.seen self.new.vault.folder).held self.old.vault.rows self.new.vault.rows }
        ensures only { OnlySpills (V.seen self.old.vault.folder).held (V.seen self.new.vault.folder).held }
        ensures worker { self.new.vault.worker ≡ self.old.vault.worker }
    {
        let delayed = self.is_delayed();
        self.count();
        if delayed {
            Turn::Idle
        } else {
            self.take_turn(reach)
        }
    }

    // One turn.
    pub fn turn<E: Reach<N, Seat = K>>(&mut self, reach: &mut E) -> Turn
        requires well { self.old.failed ≡ false }
        requires may { MayMap (mapper_of N.records N.script N.settings self.old) (E.deeds reach.old) }
        requires fits { FitsBoard N.job N.records N.settings N.tells K.knows K.board self.old (E.deeds reach.old) }
        ensures runs { Runs E.exact (mapper_turn (mapper_of N.records N.script N.settings self.old)) (E.deeds reach.old) (mapper_of N.records N.script N.settings self.new, said_turn result) (E.deeds reach.new) }
        ensures failed { self.new.failed ≡ has_failed (said_turn result) }
        ensures fits { FitsBoard N.job N.records N.settings N.tells K.knows K.board self.new (E.deeds reach.new) }
        ensures cause { TurnCause N.job N.records N.script N.settings (Maps (mapper_of N.records N.script N.settings self.old)) (counts_of V.seen self.old.vault) (counts_of V.seen self.new.vault) result }
        ensures adds { has_failed (said_turn result) ≡ false → AddsAtMost N.job N.records N.settings (V.seen self.old.vault.folder).held (V.seen self.new.vault.folder).held self.old.vault.rows self.new.vault.rows }
        ensures only { OnlySpills (V.seen self.old.vault.folder).held (V.seen self.new.vault.folder).held }
        ensures worker { self.new.vault.worker ≡ self.old.vault.worker }
    {
        mapper_is_safe();
        mapper_says();
        if self.has_ended() {
            self.count();
            return Turn::Ended;
        }
        let turn = self.open_turn(reach);
        self.close(turn);
        turn
    }
}
