//! What a coordinator asks of the writer.
ghost use Rattle.std.specs.Prelude.{◌≡◌};
ghost use Rattle.hop_machine.specs.actors.ReducerTurns.{Writer};
ghost use Rattle.hop_actors.specs.Acting.{Writes};

use crate::actor::Actor;
use hop_base::RunName;
use hop_inner::Reach;

/// The writer of snapshots, as a coordinator sees it.
pub trait SnapshotWriter<N: RunName, E: Reach<N>>: Actor<N, E> {
    /// Its part of the machine.
    ghost writer: { Self → Writer };

    ghost is_writer: { (s : Self) → Self.acting s ≡ Writes (writer s) };
}
