//! Actors.
ghost use Rattle.std.specs.Prelude.{◌≡◌, ℕ, Bool, false, List};
ghost use Rattle.hop_machine.specs.home.MapperHome.{has_failed};
ghost use Rattle.hop_actors.specs.Acting.{Acting, MayTurn, Turned, kind_of, said_turn};
ghost use Rattle.hop_actors.specs.Counting.{Counts, TurnCause};

use crate::turn::{Kind, Turn};
use hop_base::RunName;
use hop_inner::Reach;

/// An actor of a run, over any ends `E`. It owns its part of the run, such as the running attempt of a mapper, and reaches what it shares through a value that is lent to each of
/// its turns.
pub trait Actor<N: RunName, E: Reach<N>> {
    /// Its part of the machine.
    ghost acting: { Self → Acting };

    /// Whether a turn of it failed, after which it takes none.
    ghost failed: { Self → Bool };

    /// What contracts see of its folder.
    ghost counts: { Self → Counts };

    /// What it holds for its lanes can be sent over ends of the board of this name, whose seats its notices bring.
    ghost fits: { Self → List ℕ → Type 0 };

    /// Its kind.
    fn kind(&self) -> Kind
        ensures { result ≡ kind_of (acting self.now) };

    /// One turn. The actor is at home in the value, which has its ends; its program runs there.
    fn turn(&mut self, reach: &mut E) -> Turn
        requires well { failed self.old ≡ false }
        requires may { MayTurn (acting self.old) (E.deeds reach.old) }
        requires fits { fits self.old (E.deeds reach.old).ends.board }
        ensures turned { Turned E.exact (acting self.old) (E.deeds reach.old) (acting self.new) (said_turn result) (E.deeds reach.new) }
        ensures well { has_failed (said_turn result) ≡ false → failed self.new ≡ false }
        ensures fits { fits self.new (E.deeds reach.new).ends.board }
        ensures cause { TurnCause N.job N.records N.script N.settings (acting self.old) (counts self.old) (counts self.new) result };
}
