//! Settling: the coordinator brings a run to its end, on one thread, with all actors in hand.
ghost use Rattle.std.specs.Prelude.{◌≡◌, ◌<◌, ◌≤◌, ◌^◌, ℕ, false, [], length, map, OnOk, IfErr};
ghost use Rattle.hop_machine.specs.actors.ReducerTurns.{Writer};
ghost use Rattle.hop_machine.specs.home.Conditions.{HasAll, HasWriter};
ghost use Rattle.hop_machine.specs.play.Play.{Went, Listed, Emptying, Pulling, Writing, Over};
ghost use Rattle.hop_machine.specs.run.AllHome.{IsAtPlace, Pulls, RanToItsEnd};
ghost use Rattle.hop_ending.specs.Cuts.{HasPut};
ghost use Rattle.hop_settle.specs.Crews.{actors_of, world_of, AreWell, IsSized, TurnsBelow};
ghost use Rattle.hop_settle.specs.Lacking.{HasReducers};
ghost use Rattle.hop_settle.specs.Settled.{AllCutsTaken, WorkedOff};
ghost use Rattle.hop_settle.specs.Stops.{place_after, StoresStop, CrewStops};

use crate::begun::count_begun;
use crate::drains::drain_all;
use crate::lacking_laws::{pulls_may_begin, turns_are_enough};
use crate::late::all_late;
use crate::meets::{meet_all, meet_cuts};
use crate::pulls::pull_and_finish;
use crate::settling::passes;
use crate::writing::write_all;
use hop_actors::{Fault, SnapshotWriter, Store, Taker};
use hop_base::RunName;
use hop_ending::cut_laws::cut_lanes_are_emptied;
use hop_inner::Reach;
use hop_machine::meeting_laws::ends_are_gathered;

// The mappers work until all have ended, the reducers take all that was sent, and the ends of the board are gathered.
fn work_off<N: RunName, E: Reach<N>, M: Store<N, E>, D: Taker<N, E>>(
    mappers: &mut Vec<M>,
    reducers: &mut Vec<D>,
    reach: &mut E,
) -> Result<(), Fault>
    requires home { (x : Writer) × IsAtPlace (Listed []) (actors_of (map M.mapper mappers.old.items) (map D.reducer reducers.old.items) x) (E.deeds reach.old) }
    requires ends { HasAll (E.deeds reach.old) }
    requires well { AreWell M.failed M.fits (E.deeds reach.old).ends.board mappers.old.items }
    requires turns { TurnsBelow (2 ^ 55) (map M.mapper mappers.old.items) }
    requires sized { IsSized (E.deeds reach.old).setup }
    ensures went { (x : Writer) → Went E.exact (Listed [], world_of (map M.mapper mappers.old.items) (map D.reducer reducers.old.items) x (E.deeds reach.old))
        (place_after result (Emptying (length reducers.old.items)), world_of (map M.mapper mappers.new.items) (map D.reducer reducers.new.items) x (E.deeds reach.new)) }
    ensures worked { OnOk result ((x : Writer) → WorkedOff E.exact (length reducers.old.items) (world_of (map M.mapper mappers.old.items) (map D.reducer reducers.old.items) x (E.deeds reach.old)) (world_of (map M.mapper mappers.new.items) (map D.reducer reducers.new.items) x (E.deeds reach.new))) }
    ensures ends { OnOk result (HasReducers (E.deeds reach.new) × HasWriter (E.deeds reach.new)) }
    ensures board { (E.deeds reach.new).ends.board ≡ (E.deeds reach.old).ends.board }
    ensures count { (length mappers.new.items ≡ length mappers.old.items) × (length reducers.new.items ≡ length reducers.old.items) }
    ensures well { OnOk result (AreWell M.failed M.fits (E.deeds reach.new).ends.board mappers.new.items) }
    ensures counts { OnOk result (map M.counts mappers.new.items ≡ map M.counts mappers.old.items) }
    ensures cause { IfErr result (StoresStop N.job N.records N.script N.settings (map M.counts mappers.old.items) (map M.counts mappers.new.items)) }
{
    turns_are_enough();
    ends_are_gathered();
    let workers = mappers.len() as u8;
    let partitions = reducers.len() as u8;
    all_late(reducers);
    passes(mappers, reducers, reach)?;
    meet_all(workers, partitions, reach);
    drain_all(reducers, reach)?;
    meet_all(workers, partitions, reach);
    reach.gather();
    Ok(())
}

// The numbers of begun attempts are read off the mappers, and each history is given what it lacks and finished.
fn finish_all<N: RunName, E: Reach<N>, M: Store<N, E>, D: Taker<N, E>>(
    mappers: &mut Vec<M>,
    reducers: &mut Vec<D>,
    reach: &mut E,
) -> Result<(), Fault>
    requires home { (x : Writer) × Pulls 0 0 (actors_of (map M.mapper mappers.old.items) (map D.reducer reducers.old.items) x) (E.deeds reach.old) }
    requires ends { HasReducers (E.deeds reach.old) }
    requires sized { IsSized (E.deeds reach.old).setup }
    requires well { AreWell M.failed M.fits (E.deeds reach.old).ends.board mappers.old.items }
    ensures went { (x : Writer) → Went E.exact (Pulling 0 0, world_of (map M.mapper mappers.old.items) (map D.reducer reducers.old.items) x (E.deeds reach.old)) (place_after result Writing, world_of (map M.mapper mappers.new.items) (map D.reducer reducers.new.items) x (E.deeds reach.new)) }
    ensures ends { (E.deeds reach.new).ends ≡ (E.deeds reach.old).ends }
    ensures count { length reducers.new.items ≡ length reducers.old.items }
    ensures same { map M.mapper mappers.new.items ≡ map M.mapper mappers.old.items }
    ensures well { AreWell M.failed M.fits (E.deeds reach.new).ends.board mappers.new.items }
    ensures counts { OnOk result (map M.counts mappers.new.items ≡ map M.counts mappers.old.items) }
    ensures cause { IfErr result (StoresStop N.job N.records N.script N.settings (map M.counts mappers.old.items) (map M.counts mappers.new.items)) }
{
    // As many as a run may have splits.
    let mut numbers = [0; 1024];
    let splits = reducers[0].lens().as_slice().len();
    let begun = &mut numbers[..splits];
    count_begun(mappers, begun);
    pull_and_finish(mappers, reducers, begun, reach)
}

/// The run is settled. All reducers wait for their locks from now on. Until all mappers have ended each has a turn, and after each such pass the reducers have turns until they are
/// idle. Then each reducer pulls what it lacks of each split's winner, from the mapper that kept it, and its history is finished with the attempts that the mappers began; last, the
/// writer has turns until it is idle. (The end of a job of NSDI 2010, "MapReduce Online".) All actors are at home where a turn list ends.
///
/// It always ends. At Ok the run came to its end; a fault is that of the actor that stopped, where the run is halted or a split has no attempt left.
pub fn settle<N: RunName, E: Reach<N>, M: Store<N, E>, D: Taker<N, E>, W: SnapshotWriter<N, E>>(
    mappers: &mut Vec<M>,
    reducers: &mut Vec<D>,
    writer: &mut W,
    reach: &mut E,
) -> Result<(), Fault>
    requires home { IsAtPlace (Listed []) (actors_of (map M.mapper mappers.old.items) (map D.reducer reducers.old.items) (W.writer writer.old)) (E.deeds reach.old) }
    requires ends { HasAll (E.deeds reach.old) }
    requires well { AreWell M.failed M.fits (E.deeds reach.old).ends.board mappers.old.items }
    requires writer { W.failed writer.old ≡ false }
    requires fits { W.fits writer.old (E.deeds reach.old).ends.board }
    requires turns { TurnsBelow (2 ^ 55) (map M.mapper mappers.old.items) }
    requires sized { IsSized (E.deeds reach.old).setup }
    ensures went { Went E.exact (Listed [], world_of (map M.mapper mappers.old.items) (map D.reducer reducers.old.items) (W.writer writer.old) (E.deeds reach.old))
        (place_after result Over, world_of (map M.mapper mappers.new.items) (map D.reducer reducers.new.items) (W.writer writer.new) (E.deeds reach.new)) }
    ensures ran { OnOk result (RanToItsEnd E.exact (Listed []) (world_of (map M.mapper mappers.old.items) (map D.reducer reducers.old.items) (W.writer writer.old) (E.deeds reach.old))
        (world_of (map M.mapper mappers.new.items) (map D.reducer reducers.new.items) (W.writer writer.new) (E.deeds reach.new))) }
    ensures ends { OnOk result (HasReducers (E.deeds reach.new)) }

    // Also the cut lanes are empty then, where the writer put all that it took before.
    ensures cuts { OnOk result (HasPut (W.writer writer.old) (E.deeds reach.old).setup → AllCutsTaken (E.deeds reach.new)) }
    ensures count { (length mappers.new.items ≡ length mappers.old.items) × (length reducers.new.items ≡ length reducers.old.items) }
    ensures well { OnOk result (AreWell M.failed M.fits (E.deeds reach.new).ends.board mappers.new.items) }
    ensures counts { OnOk result ((map M.counts mappers.new.items ≡ map M.counts mappers.old.items) × (W.counts writer.new ≡ W.counts writer.old)) }
    ensures cause { IfErr result (CrewStops N.job N.records N.script N.settings (map M.counts mappers.old.items) (map M.counts mappers.new.items) (W.counts writer.old) (W.counts writer.new)) }
{
    pulls_may_begin();
    cut_lanes_are_emptied();
    let partitions = reducers.len() as u8;
    work_off(mappers, reducers, reach)?;
    finish_all(mappers, reducers, reach)?;
    meet_cuts(partitions, reach);
    write_all(writer, reach)?;
    meet_cuts(partitions, reach);
    Ok(())
}
