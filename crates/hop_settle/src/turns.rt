//! One turn of an actor of a list.
ghost use Rattle.std.specs.Prelude.{◌≡◌, ◌<◌, ℕ, false, length, map, Some, OnOk};
ghost use Rattle.std.specs.List.{slice_get};
ghost use Rattle.hop_machine.specs.step.Steps.{Runs};
ghost use Rattle.hop_machine.specs.home.MapperHome.{has_failed};
ghost use Rattle.hop_machine.specs.actors.ReducerTurns.{writer_turn};
ghost use Rattle.hop_actors.specs.Acting.{said_turn, MayWrite};
ghost use Rattle.hop_actors.specs.Counting.{MemoryCause, TurnCause};
ghost use Rattle.hop_settle.specs.Crews.{AreWell, MayMapAt, MayReduceAt, Mapped, Reduced};
ghost use Rattle.hop_settle.specs.Stops.{MapCounts, idle_or_fault, went_or_fault};

use hop_actors::{Actor, Fault, SnapshotWriter, Store, Taker, Turn};
use hop_base::RunName;
use hop_inner::Reach;

/// One turn of the mapper at place `w`, which is that of its number.
pub fn map_turn<N: RunName, E: Reach<N>, M: Store<N, E>>(
    mappers: &mut Vec<M>,
    w: usize,
    reach: &mut E,
) -> Turn
    requires place { w < length mappers.old.items }
    requires may { (m : M) → slice_get mappers.old.items w ≡ Some m → MayMapAt w (M.mapper m) (E.deeds reach.old) }
    requires well { AreWell M.failed M.fits (E.deeds reach.old).ends.board mappers.old.items }
    ensures mapped { Mapped E.exact w (map M.mapper mappers.old.items) (E.deeds reach.old) (map M.mapper mappers.new.items) (said_turn result) (E.deeds reach.new) }
    ensures well { has_failed (said_turn result) ≡ false → AreWell M.failed M.fits (E.deeds reach.new).ends.board mappers.new.items }
    ensures counts { MapCounts N.job N.records N.script N.settings (map M.counts mappers.old.items) (map M.counts mappers.new.items) result }
{
    mappers[w].turn(reach)
}

/// One turn of the reducer at place `p`, which is that of its number. It fails only where memory is wanting.
pub fn reduce_turn<N: RunName, E: Reach<N>, D: Taker<N, E>>(
    reducers: &mut Vec<D>,
    p: usize,
    reach: &mut E,
) -> Turn
    requires place { p < length reducers.old.items }
    requires may { (r : D) → slice_get reducers.old.items p ≡ Some r → MayReduceAt p (D.reducer r) (E.deeds reach.old) }
    ensures reduced { Reduced E.exact p (map D.reducer reducers.old.items) (E.deeds reach.old) (map D.reducer reducers.new.items) (said_turn result) (E.deeds reach.new) }
    ensures memory { (f : Fault) → result ≡ Turn.Failed f → f ≡ Fault.NoMemory }
{
    reducers[p].turn(reach)
}

/// One turn of the writer.
pub fn write_turn<N: RunName, E: Reach<N>, W: SnapshotWriter<N, E>>(
    writer: &mut W,
    reach: &mut E,
) -> Turn
    requires may { MayWrite (W.writer writer.old) (E.deeds reach.old) }
    requires well { W.failed writer.old ≡ false }
    requires fits { W.fits writer.old (E.deeds reach.old).ends.board }
    ensures runs { Runs E.exact (writer_turn (W.writer writer.old)) (E.deeds reach.old) (W.writer writer.new, said_turn result) (E.deeds reach.new) }
    ensures well { has_failed (said_turn result) ≡ false → W.failed writer.new ≡ false }
    ensures fits { W.fits writer.new (E.deeds reach.new).ends.board }
    ensures cause { TurnCause N.job N.records N.script N.settings (W.acting writer.old) (W.counts writer.old) (W.counts writer.new) result }
{
    writer.turn(reach)
}

/// A fault of a turn is handed on.
pub(crate) fn went_on(turn: Turn) -> Result<(), Fault>
    ensures { result ≡ went_or_fault turn }
{
    match turn {
        Turn::Worked => Ok(()),
        Turn::Idle => Ok(()),
        Turn::Ended => Ok(()),
        Turn::Failed(fault) => Err(fault),
    }
}

/// Whether a turn was answered Idle. A fault is handed on.
pub(crate) fn was_idle(turn: Turn) -> Result<bool, Fault>
    ensures { result ≡ idle_or_fault turn }
{
    match turn {
        Turn::Worked => Ok(false),
        Turn::Idle => Ok(true),
        Turn::Ended => Ok(false),
        Turn::Failed(fault) => Err(fault),
    }
}
