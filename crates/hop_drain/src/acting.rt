//! A reducer as an actor, and as a coordinator sees it.

use crate::drain::Drain;
use hop_actors::{Actor, Kind, Taker, Turn};
use hop_base::{FlatSheets, Lens, NoMemory, Part, RunName};
use hop_inner::Reach;
use hop_laws::Job;
use hop_machine::reducer_laws::reducer_is_safe;

impl<'a, N: RunName, J: Job, E: Reach<N>> Actor<N, E> for Drain<'a, N, J> {
    ghost use Rattle.std.specs.Prelude.{false};
    ghost use Rattle.hop_actors.specs.Acting.{Reduces};
    ghost use Rattle.hop_actors.specs.Counting.{no_folder};

    ghost acting = { Reduces };

    ghost failed = { λ r. false };

    ghost counts = { λ r. no_folder };

    ghost fits = { λ r board. Unit {0} };

    fn kind(&self) -> Kind {
        Kind::Reducer
    }

    fn turn(&mut self, reach: &mut E) -> Turn {
        reducer_is_safe();
        self.take_turn(reach).turn()
    }
}

impl<'a, N: RunName, J: Job, E: Reach<N>> Taker<N, E> for Drain<'a, N, J> {
    ghost use Rattle.std.specs.Prelude.{refl};

    ghost reducer = { λ r. r };

    fn lens(&self) -> &Lens {
        self.lens
    }

    fn upto(&mut self, reach: &mut E, split: u32, attempt: u8) -> u32 {
        self.read_upto(reach, split, attempt)
    }

    fn winner(&mut self, reach: &mut E, split: u32) -> Option<u8> {
        self.read_winner(reach, split)
    }

    fn wants(&mut self, reach: &mut E, split: u32, attempt: u8) -> bool {
        self.read_wants(reach, split, attempt)
    }

    fn take_pull(&mut self, reach: &mut E, part: Part, sheets: FlatSheets) -> Result<(), NoMemory> {
        reducer_is_safe();
        self.record_pull(reach, part, sheets)
    }

    fn send_due(&mut self, reach: &mut E) -> Result<(), NoMemory> {
        reducer_is_safe();
        self.send_what_is_due(reach)
    }

    fn restart_due(&mut self, reach: &mut E) -> Result<bool, NoMemory> {
        reducer_is_safe();
        self.record_restart(reach)
    }

    fn lagging(&self) -> bool {
        self.lagging
    }

    fn caught_up(&mut self) {
        self.lagging = false;
    }

    fn late(&mut self) {
        self.late = true;
    }

    fn finish(&mut self, reach: &mut E, begun: &[u8]) -> Result<(), NoMemory> {
        reducer_is_safe();
        self.record_finish(reach, begun)
    }

    ghost is_reducer = { λ s. refl };

    ghost never_failed = { λ s. refl };

    ghost without_folder = { λ s. refl };

    ghost fits_any = { λ s board. tt };
}
