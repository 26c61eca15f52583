//! Meets of lanes, and the board's ends gathered.
ghost use Rattle.std.specs.Prelude.{◌≡◌, ℕ, Bool, false};
ghost use Rattle.hop_machine.specs.declared.words.Who.TheVariants as whose;
ghost use Rattle.hop_machine.specs.step.Steps.{Deeds, BoardEnd, rules_of};
ghost use Rattle.hop_machine.specs.home.Conditions.{HasReducer, HasWriter};
ghost use Rattle.hop_machine.specs.board.Board.{Gathered};
ghost use Rattle.hop_machine.specs.home.Said.{Met};
ghost use Rattle.hop_machine.specs.play.Play.{Learns};
ghost use Rattle.hop_machine.specs.settling.Meeting.{Meets, CutMeets, CutMet, Gathers};

/// A meet of a lane is no step: it tells its two ends of each other, and what other lanes' ends were told stays.
pub fn lanes_meet()
    ensures learns { (w p : ℕ) (a b : Deeds) → Meets w p a b → (e : Bool) → Learns e a b }
    ensures ends { (w p : ℕ) (a b : Deeds) → Meets w p a b → b.ends ≡ a.ends }
    ensures met { (w p : ℕ) (a b : Deeds) → Meets w p a b → Met b w p }
    ensures others { (w p : ℕ) (a b : Deeds) → Meets w p a b → (v q : ℕ) → Met a v q → Met b v q }
{}

/// So is a meet of a cut lane.
pub fn cut_lanes_meet()
    ensures learns { (p : ℕ) (a b : Deeds) → CutMeets p a b → (e : Bool) → Learns e a b }
    ensures ends { (p : ℕ) (a b : Deeds) → CutMeets p a b → b.ends ≡ a.ends }
    ensures met { (p : ℕ) (a b : Deeds) → CutMeets p a b → CutMet b p }
    ensures others { (p : ℕ) (a b : Deeds) → CutMeets p a b → (q : ℕ) → CutMet a q → CutMet b q }
{}

/// Where the ends of the board are gathered, no end does anything; what is known of all of them together is so, and no mapper may ask any more.
pub fn ends_are_gathered()
    ensures learns { (a b : Deeds) → Gathers a b → (e : Bool) → Learns e a b }
    ensures gathered { (a b : Deeds) → Gathers a b → Gathered (rules_of b.setup) b }
    ensures reducer { (a b : Deeds) → Gathers a b → (p : ℕ) → HasReducer p a → HasReducer p b }
    ensures writer { (a b : Deeds) → Gathers a b → HasWriter a → HasWriter b }
    ensures none { (a b : Deeds) → Gathers a b → (w : ℕ) → b.ends.has (BoardEnd (whose.Mapper w)) ≡ false }
{}
