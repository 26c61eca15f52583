//! The board: which splits are given, which attempts are drawn, which attempt of a split won, and which
//! are revoked.
ghost use Rattle.std.specs.Prelude.{◌≡◌, ℕ, Bool};
ghost use Rattle.hop_machine.specs.declared.words.Who.{Who};
ghost use Rattle.hop_machine.specs.declared.words.Who.TheVariants as actor;
ghost use Rattle.hop_machine.specs.step.Steps.{Deeds, Steps, NextSplit, Draw, Commit, Revoke, AskWinner, AskRevoked, Join};
ghost use Rattle.hop_machine.specs.home.Conditions.{May};
ghost use Rattle.hop_inner.specs.Boards.{MayAsMapper, KnowsVerdict};
ghost use Rattle.hop_inner.specs.Setups.{parts};

use hop_machine::Verdict;

/// What knows winners and revocations: a seat that a notice carries.
pub trait Knowing: Drop {
    ghost use Rattle.std.specs.Prelude.{ℕ, List};
    ghost use Rattle.hop_machine.specs.step.Steps.{Verdicts};

    /// What it knows.
    ghost knows: { Self → Verdicts };

    /// The name of the board that it is of.
    ghost board: { Self → List ℕ };
}

/// An actor's end of the board. It shows deeds of which only the board's part is not empty, and of them
/// those of this end. Its words are no part of what others may rest on.
pub trait Board<K: Knowing> {
    /// Whether its answers are exact, as on one thread.
    ghost exact: { Bool };

    /// Whose end it is.
    ghost whose: { Self → Who };

    /// What it did and knows.
    ghost deeds: { Self → Deeds };

    /// A split that nobody else was given.
    fn next_split(&mut self) -> Option<u32>
        requires may { MayAsMapper (whose self.old) NextSplit (deeds self.old) }
        ensures whose { whose self.new ≡ whose self.old }
        ensures step { (w : ℕ) → whose self.old ≡ actor.Mapper w → Steps exact (NextSplit w) result (deeds self.old) (deeds self.new) };

    /// A number of the split that nobody else drew.
    fn draw(&mut self, split: u32) -> u64
        requires may { MayAsMapper (whose self.old) (λ w. Draw w split) (deeds self.old) }
        ensures whose { whose self.new ≡ whose self.old }
        ensures step { (w : ℕ) → whose self.old ≡ actor.Mapper w → Steps exact (Draw w split) result (deeds self.old) (deeds self.new) };

    /// Whether the attempt won, and who did if it didn't.
    fn commit(&mut self, split: u32, attempt: u8) -> Verdict
        requires may { MayAsMapper (whose self.old) (λ w. Commit w split attempt) (deeds self.old) }
        ensures whose { whose self.new ≡ whose self.old }
        ensures step { (w : ℕ) → whose self.old ≡ actor.Mapper w → Steps exact (Commit w split attempt) result (deeds self.old) (deeds self.new) };

    /// The attempt is revoked. It gives the mask of the split's revoked attempts, this one among them.
    fn revoke(&mut self, split: u32, attempt: u8) -> u16
        requires may { MayAsMapper (whose self.old) (λ w. Revoke w split attempt) (deeds self.old) }
        ensures whose { whose self.new ≡ whose self.old }
        ensures step { (w : ℕ) → whose self.old ≡ actor.Mapper w → Steps exact (Revoke w split attempt) result (deeds self.old) (deeds self.new) };

    /// The winner, if there is one.
    fn winner(&mut self, split: u32) -> Option<u8>
        requires { May parts (AskWinner (whose self.old) split) (deeds self.old) }
        ensures whose { whose self.new ≡ whose self.old }
        ensures step { Steps exact (AskWinner (whose self.old) split) result (deeds self.old) (deeds self.new) };

    /// Whether the attempt is revoked.
    fn is_revoked(&mut self, split: u32, attempt: u8) -> bool
        requires { May parts (AskRevoked (whose self.old) split attempt) (deeds self.old) }
        ensures whose { whose self.new ≡ whose self.old }
        ensures step { Steps exact (AskRevoked (whose self.old) split attempt) result (deeds self.old) (deeds self.new) };

    /// A further seat, which knows what this end knows.
    fn split_seat(&mut self) -> K
        ensures whose { whose self.new ≡ whose self.old }
        ensures same { deeds self.new ≡ deeds self.old }
        ensures knows { K.knows result ≡ (deeds self.old).told.knows (whose self.old) }
        ensures board { K.board result ≡ (deeds self.old).ends.board };

    /// Afterwards this end knows what both knew.
    fn join_seat(&mut self, other: K)
        requires { K.board other ≡ (deeds self.old).ends.board }
        ensures whose { whose self.new ≡ whose self.old }
        ensures step { (p i a : ℕ) → whose self.old ≡ actor.Reducer p → KnowsVerdict (K.knows other) i a → Steps exact (Join p i a) tt (deeds self.old) (deeds self.new) };
}
