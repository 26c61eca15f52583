//! The writer of a run without marks.
ghost use Rattle.std.specs.Prelude.{◌≡◌, ◌<◌, ℕ, []};
ghost use Rattle.hop_machine.specs.declared.words.Turn.TheVariants as said;
ghost use Rattle.hop_machine.specs.step.Steps.{Runs};
ghost use Rattle.hop_machine.specs.actors.ReducerTurns.{writer_turn, lane_after};
ghost use Rattle.hop_machine.specs.home.Conditions.{Safe};
ghost use Rattle.hop_machine.specs.home.Starts.{new_writer};
ghost use Rattle.hop_inner.specs.Setups.{parts, setup_of};

use hop_actors::{Actor, Kind, SnapshotWriter, Turn};
use hop_base::RunName;
use hop_inner::Reach;
use hop_inner::steps::take_cut_on;
use hop_machine::writer_laws::writer_is_safe;
use std::marker::{Model, PhantomData};

/// The writer of a run that has no marks, and so no cuts: it looks at each cut lane in its turn, finds nothing and is idle. It has no folder.
#[derive(Drop)]
pub struct NoWriter<N: RunName> {
    reducers: u8,
    next: u8,
    name: PhantomData<N>,
}

impl<N: RunName> Model for NoWriter<N> {
    ghost use Rattle.std.specs.Prelude.{◌≡◌, ◌<◌, []};
    ghost use Rattle.hop_machine.specs.actors.ReducerTurns.{Writer};
    ghost use Rattle.hop_inner.specs.Setups.{setup_of};

    ghost Value = { Writer };

    ghost view = { λ w. record { setup = setup_of N.records N.script N.settings; next = w.next; writings = [] } };

    ghost invariant = { λ w. (w.reducers ≡ N.settings.reducers) × (w.next < w.reducers) × (N.settings.marks ≡ []) };
}

impl<N: RunName> NoWriter<N> {
    /// The writer for so many reducers, at least 1, of a run without marks. It takes no memory.
    pub fn new(reducers: u8) -> NoWriter<N>
        requires reducers { reducers ≡ N.settings.reducers }
        requires some { 0 < reducers }
        requires marks { N.settings.marks ≡ [] }
        ensures { result ≡ new_writer (setup_of N.records N.script N.settings) }
    {
        NoWriter {
            reducers,
            next: 0,
            name: PhantomData,
        }
    }

    // The first of the cut lanes follows the last.
    fn lane_after(&self, p: u8) -> u8
        requires { p < self.now.setup.reducers }
        ensures next { result ≡ lane_after self.now.setup.reducers p }
        ensures below { result < self.now.setup.reducers }
    {
        let reducers = self.reducers;
        if p + 1 == reducers { 0 } else { p + 1 }
    }

    // The cut lanes are looked at in turn, and none gives a cut.
    fn look<E: Reach<N>>(&self, reach: &mut E)
        requires { Safe parts E.exact (writer_turn self.now) (E.deeds reach.old) }
        ensures { Runs E.exact (writer_turn self.now) (E.deeds reach.old) (self.now, said.Idle) (E.deeds reach.new) }
    {
        let mut p = self.next;
        let mut left = self.reducers;
        while left > 0 {
            match take_cut_on(reach, p) {
                Some(_) => unreachable!(),
                None => {
                    p = self.lane_after(p);
                    left -= 1;
                }
            }
        }
    }
}

impl<N: RunName, E: Reach<N>> Actor<N, E> for NoWriter<N> {
    ghost use Rattle.std.specs.Prelude.{false};
    ghost use Rattle.hop_actors.specs.Acting.{Writes};
    ghost use Rattle.hop_actors.specs.Counting.{no_folder};

    ghost acting = { Writes };

    ghost failed = { λ w. false };

    ghost counts = { λ w. no_folder };

    ghost fits = { λ w board. Unit {0} };

    fn kind(&self) -> Kind {
        Kind::Writer
    }

    fn turn(&mut self, reach: &mut E) -> Turn {
        writer_is_safe();
        self.look(reach);
        Turn::Idle
    }
}

impl<N: RunName, E: Reach<N>> SnapshotWriter<N, E> for NoWriter<N> {
    ghost use Rattle.std.specs.Prelude.{refl};

    ghost writer = { λ w. w };

    ghost is_writer = { λ w. refl };
}
