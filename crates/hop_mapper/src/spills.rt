//! How a spill is made, kept and offered.
ghost use Rattle.std.specs.Prelude.{◌≡◌, ℕ, ◌-◌, ◌<◌, ◌≤◌, false, IfOk, IfErr, OnOk, map, slice_index_or};
ghost use Rattle.hop_machine.specs.step.Steps.{Runs};
ghost use Rattle.hop_machine.specs.home.Conditions.{Safe};
ghost use Rattle.hop_inner.specs.Setups.{parts};
ghost use Rattle.hop_mapper.specs.Mappers.{running_of};

use crate::faults::turn_of;
use crate::spilling::spill_of;
use crate::state::State;
use crate::work::{Running, Work};
use hop_actors::{Fault, Turn};
use hop_base::{NoMemory, Part, RunName};
use hop_inner::{Knowing, Reach};
use hop_laws::Job;
use hop_ports::{Folder, Gate, Point};
use hop_run::{Run, Runs};
use hop_spill::FlatSpill;
use hop_vault::KeepFault;

impl<'a, N: RunName, V: Folder, J: Job, G: Gate, K: Knowing> State<'a, N, V, J, G, K> {
    ghost use Rattle.std.specs.Prelude.{OnErr, ◌≢◌};
    ghost use Rattle.std.specs.List.{range_with_len};
    ghost use Rattle.hop_run.specs.Runs.{RunStands, combined_run, empty_run};
    ghost use Rattle.hop_shelf.specs.Names.{pairs_of, rules_of};
    ghost use Rattle.hop_spill.specs.Spelling.{IsSpill, spill_in};
    ghost use Rattle.hop_spill.specs.SpillFiles.{spill_made};
    ghost use Rattle.hop_vault.specs.Rows.{SameRows};
    ghost use Rattle.hop_machine.specs.actors.MapperTurns.{spills, must_fail};
    ghost use Rattle.hop_machine.specs.step.Pushing.{kept_end as last_end};
    ghost use Rattle.hop_machine.specs.home.MapperHome.{has_failed};
    ghost use Rattle.hop_actors.specs.Acting.{said_turn, said_fault, Maps};
    ghost use Rattle.hop_actors.specs.Counting.{StoreCause, TurnCause};
    ghost use Rattle.hop_actors.specs.Spilled.{OnlySpills};
    ghost use Rattle.hop_mapper.specs.Mappers.{mapper_of, counts_of, FitsBoard, SameButVault};
    ghost use Rattle.hop_mapper.specs.Next.{IsNext, RunsHere, AddsSpill, AddsAtMost, split_len};
    ghost use Rattle.hop_machine.specs.declared.words.Turn.TheVariants as answers;

    // The combined runs of a range, one for each reducer.
    pub(crate) fn runs_of(&self, part: Part) -> Result<Runs, NoMemory>
        requires next { IsNext N.records N.settings self.now.vault.rows part }
        ensures runs { IfOk result (λ runs. runs ≡ map (combined_run N.job N.records N.settings.split N.settings.reducers part) (range_with_len 0 N.settings.reducers)) }
        ensures stands { IfOk result (λ runs. (p : ℕ) → p < N.settings.reducers → RunStands N.job.reduced (pairs_of N.job N.records N.settings p) (slice_index_or runs p empty_run)) }
    {
        Run::make_all(
            self.alloc,
            self.job,
            self.book,
            part,
            self.settings.reducers,
        )
    }

    // The spill of a range is kept.
    pub(crate) fn put(&mut self, part: Part, spill: &FlatSpill) -> Result<(), Fault>
        requires next { IsNext N.records N.settings self.old.vault.rows part }
        requires within { part.to ≤ last_end (rules_of N.records N.script N.settings) part.split part.attempt }
        requires value { spill_in spill.now ≡ spill_made N.job N.records N.settings.split N.settings.reducers part }
        requires spill { IsSpill (spill_made N.job N.records N.settings.split N.settings.reducers part) }
        ensures adds { OnOk result (AddsSpill N.job N.records N.settings (V.seen self.old.vault.folder).held (V.seen self.new.vault.folder).held self.old.vault.rows self.new.vault.rows part) }
        ensures rows { OnErr result (SameRows self.old.vault.rows self.new.vault.rows) }
        ensures only { OnlySpills (V.seen self.old.vault.folder).held (V.seen self.new.vault.folder).held }
        ensures rest { SameButVault self.old self.new }
        ensures stops { IfErr result (λ fault. said_fault fault ≡ answers.Stopped) }
        ensures answered { OnOk result (counts_of V.seen self.new.vault ≡ counts_of V.seen self.old.vault) }
        ensures cause { IfErr result (StoreCause N.job N.records N.script N.settings self.old.vault.worker (counts_of V.seen self.old.vault) (counts_of V.seen self.new.vault)) }
    {
        match self.vault.keep_flat(spill) {
            Ok(()) => Ok(()),
            Err(KeepFault::StoreFailed) => Err(Fault::SpillFailed {
                worker: self.worker(),
            }),
            Err(KeepFault::NoMemory) => Err(Fault::NoMemory),
        }
    }

    // The records of a range are mapped, and the spill of their runs is kept.
    pub(crate) fn keep(&mut self, part: Part) -> Result<Runs, Fault>
        requires next { IsNext N.records N.settings self.old.vault.rows part }
        requires within { part.to ≤ last_end (rules_of N.records N.script N.settings) part.split part.attempt }
        ensures adds { OnOk result (AddsSpill N.job N.records N.settings (V.seen self.old.vault.folder).held (V.seen self.new.vault.folder).held self.old.vault.rows self.new.vault.rows part) }
        ensures rows { OnErr result (SameRows self.old.vault.rows self.new.vault.rows) }
        ensures only { OnlySpills (V.seen self.old.vault.folder).held (V.seen self.new.vault.folder).held }
        ensures rest { SameButVault self.old self.new }
        ensures stops { IfErr result (λ fault. said_fault fault ≡ answers.Stopped) }
        ensures answered { OnOk result (counts_of V.seen self.new.vault ≡ counts_of V.seen self.old.vault) }
        ensures cause { IfErr result (StoreCause N.job N.records N.script N.settings self.old.vault.worker (counts_of V.seen self.old.vault) (counts_of V.seen self.new.vault)) }
        ensures runs { IfOk result (λ runs. runs ≡ map (combined_run N.job N.records N.settings.split N.settings.reducers part) (range_with_len 0 N.settings.reducers)) }
        ensures stands { IfOk result (λ runs. (p : ℕ) → p < N.settings.reducers → RunStands N.job.reduced (pairs_of N.job N.records N.settings p) (slice_index_or runs p empty_run)) }
    {
        self.known(part.split);
        let Ok(runs) = self.runs_of(part) else {
            return Err(Fault::NoMemory);
        };
        let Ok(spill) = spill_of(self.alloc, part, &runs) else {
            return Err(Fault::NoMemory);
        };
        match self.put(part, &spill) {
            Ok(()) => Ok(runs),
            Err(fault) => Err(fault),
        }
    }

    // The next spill is made and kept, and each lane is offered its part.
    pub(crate) fn spill<E: Reach<N, Seat = K>>(&mut self, reach: &mut E, run: Running) -> Turn
        requires well { self.old.failed ≡ false }
        requires here { RunsHere N.records N.settings self.old.vault.rows (running_of run) }
        requires more { run.done ≢ split_len N.records N.settings run.split }
        requires goes_on { must_fail (rules_of N.records N.script N.settings) (running_of run) ≡ false }
        requires safe { Safe parts E.exact (spills (mapper_of N.records N.script N.settings self.old) (running_of run)) (E.deeds reach.old) }
        requires fits { FitsBoard N.job N.records N.settings N.tells K.knows K.board self.old (E.deeds reach.old) }
        ensures runs { Runs E.exact (spills (mapper_of N.records N.script N.settings self.old) (running_of run)) (E.deeds reach.old) (mapper_of N.records N.script N.settings self.new, said_turn result) (E.deeds reach.new) }
        ensures well { self.new.failed ≡ false }
        ensures fits { FitsBoard N.job N.records N.settings N.tells K.knows K.board self.new (E.deeds reach.new) }
        ensures cause { TurnCause N.job N.records N.script N.settings (Maps (mapper_of N.records N.script N.settings self.old)) (counts_of V.seen self.old.vault) (counts_of V.seen self.new.vault) result }
        ensures adds { has_failed (said_turn result) ≡ false → AddsAtMost N.job N.records N.settings (V.seen self.old.vault.folder).held (V.seen self.new.vault.folder).held self.old.vault.rows self.new.vault.rows }
        ensures only { OnlySpills (V.seen self.old.vault.folder).held (V.seen self.new.vault.folder).held }
        ensures worker { self.new.vault.worker ≡ self.old.vault.worker }
    {
        self.known(run.split);
        let end = self.spill_end(run);
        let part = Part {
            split: run.split,
            attempt: run.attempt,
            from: run.done,
            to: end,
        };
        match self.keep(part) {
            Ok(runs) => {
                self.set_work(Work::Runs(Running {
                    split: run.split,
                    attempt: run.attempt,
                    done: end,
                }));
                self.pass_gate(part);
                turn_of(self.give_parts(reach, part, runs))
            }
            Err(fault) => Turn::Failed(fault),
        }
    }

    // The gate lets it pass, once the spill of a range is kept.
    pub(crate) fn pass_gate(&self, part: Part) {
        self.gate.pass(Point::Spill {
            worker: self.vault.worker(),
            split: part.split,
            attempt: part.attempt,
            to: part.to,
        });
    }
}
