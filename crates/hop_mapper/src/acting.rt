//! A map worker as an actor, and as a coordinator sees it.

use crate::mapper::Mapper;
use hop_actors::{Actor, Fault, Kind, Store, Turn};
use hop_base::{FlatSheets, Part, RunName};
use hop_inner::{Knowing, Reach};
use hop_laws::Job;
use hop_ports::{Folder, Gate};

impl<'a, N: RunName, V: Folder, J: Job, G: Gate, K: Knowing, E: Reach<N, Seat = K>> Actor<N, E>
    for Mapper<'a, N, V, J, G, K> {
    ghost use Rattle.hop_actors.specs.Acting.{Maps};
    ghost use Rattle.hop_press.specs.Fits.{HeldFits};
    ghost use Rattle.hop_mapper.specs.Mappers.{mapper_of, counts_of};

    ghost acting = { λ m. Maps (mapper_of N.records N.script N.settings m) };

    ghost failed = { λ m. m.failed };

    ghost counts = { λ m. counts_of V.seen m.vault };

    ghost fits = { λ m name. HeldFits N.job N.records N.settings N.tells m.vault.rows K.knows K.board name m.held };

    fn kind(&self) -> Kind {
        Kind::Mapper
    }

    fn turn(&mut self, reach: &mut E) -> Turn {
        self.take_turn(reach)
    }
}

impl<'a, N: RunName, V: Folder, J: Job, G: Gate, K: Knowing, E: Reach<N, Seat = K>> Store<N, E>
    for Mapper<'a, N, V, J, G, K> {
    ghost use Rattle.std.specs.Prelude.{refl};
    ghost use Rattle.hop_mapper.specs.Mappers.{mapper_of};

    ghost mapper = { λ m. mapper_of N.records N.script N.settings m };

    ghost held = { λ m. (V.seen m.vault.folder).held };

    fn known(&self) {
        self.holds_spills();
    }

    fn kept(&self, split: u32, attempt: u8) -> u32 {
        self.kept_end(split, attempt)
    }

    fn begun(&self, split: u32) -> u8 {
        self.begun_of(split)
    }

    fn has_ended(&self) -> bool {
        self.ended()
    }

    fn fetch_back(&mut self, part: Part, p: u8) -> Result<FlatSheets, Fault> {
        self.fetch(part, p)
    }

    ghost is_mapper = { λ s. refl };
}
