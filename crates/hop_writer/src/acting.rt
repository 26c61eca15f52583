//! The writer as an actor, and as a coordinator sees it.

use crate::chain_name::ChainName;
use crate::writer::Writer;
use hop_actors::{Actor, Kind, SnapshotWriter, Turn};
use hop_base::RunName;
use hop_inner::Reach;
use hop_laws::Job;
use hop_machine::writer_laws::writer_is_safe;
use hop_ports::{Folder, Gate};

impl<'a, N: RunName, C: ChainName, F: Folder, J: Job, G: Gate, E: Reach<N>> Actor<N, E>
    for Writer<'a, N, C, F, J, G> {
    ghost use Rattle.hop_actors.specs.Acting.{Writes};
    ghost use Rattle.hop_writer.specs.Writers.{counts_of};

    ghost acting = { λ w. Writes w.writer };

    ghost failed = { λ w. w.failed };

    ghost counts = { λ w. counts_of (F.seen w.folder) };

    ghost fits = { λ w board. Unit {0} };

    fn kind(&self) -> Kind {
        Kind::Writer
    }

    fn turn(&mut self, reach: &mut E) -> Turn {
        writer_is_safe();
        self.look(reach)
    }
}

impl<'a, N: RunName, C: ChainName, F: Folder, J: Job, G: Gate, E: Reach<N>> SnapshotWriter<N, E>
    for Writer<'a, N, C, F, J, G> {
    ghost use Rattle.std.specs.Prelude.{refl};

    ghost writer = { λ w. w.writer };

    ghost is_writer = { λ w. refl };
}
