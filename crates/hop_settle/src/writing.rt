//! Turns of the writer until it is idle, at the end of settling.
ghost use Rattle.std.specs.Prelude.{◌≡◌, false, List, OnOk, IfErr};
ghost use Rattle.hop_machine.specs.actors.MapperTurns.{Mapper};
ghost use Rattle.hop_machine.specs.actors.ReducerTurns.{Reducer};
ghost use Rattle.hop_machine.specs.home.Conditions.{HasWriter};
ghost use Rattle.hop_machine.specs.play.Play.{Went, Writing, Over};
ghost use Rattle.hop_machine.specs.run.AllHome.{Settled};
ghost use Rattle.hop_actors.specs.Counting.{WriterCause};
ghost use Rattle.hop_settle.specs.Crews.{actors_of, world_of};
ghost use Rattle.hop_settle.specs.Stops.{place_after};

use crate::turns::{was_idle, write_turn};
use hop_actors::{Fault, SnapshotWriter};
use hop_base::RunName;
use hop_inner::Reach;
use hop_machine::writer_laws::{writer_ends, writer_stays};

/// Turns of the writer until it is idle: it takes all cuts that the reducers sent.
pub fn write_all<N: RunName, E: Reach<N>, W: SnapshotWriter<N, E>>(
    writer: &mut W,
    reach: &mut E,
) -> Result<(), Fault>
    requires home { (ms : List Mapper) × (rs : List Reducer) × Settled (actors_of ms rs (W.writer writer.old)) (E.deeds reach.old) }
    requires ends { HasWriter (E.deeds reach.old) }
    requires well { W.failed writer.old ≡ false }
    requires fits { W.fits writer.old (E.deeds reach.old).ends.board }
    ensures went { (ms : List Mapper) (rs : List Reducer) → Went E.exact (Writing, world_of ms rs (W.writer writer.old) (E.deeds reach.old)) (place_after result Over, world_of ms rs (W.writer writer.new) (E.deeds reach.new)) }
    ensures ends { (E.deeds reach.new).ends ≡ (E.deeds reach.old).ends }
    ensures well { OnOk result (W.failed writer.new ≡ false) }
    ensures fits { W.fits writer.new (E.deeds reach.new).ends.board }
    ensures counts { OnOk result (W.counts writer.new ≡ W.counts writer.old) }
    ensures cause { IfErr result (WriterCause (W.counts writer.old) (W.counts writer.new)) }
{
    writer_stays();
    writer_ends();
    let mut idle = false;
    while !idle {
        idle = was_idle(write_turn(writer, reach))?;
    }
    Ok(())
}
