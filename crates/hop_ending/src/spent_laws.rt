//! Runs that gave up a split.
ghost use Rattle.std.specs.Prelude.{◌≢◌, ℕ, Bool, List};
ghost use Rattle.hop_machine.specs.play.Play.{Order, Place, Opening, NoneLeft, World, Went};
ghost use Rattle.hop_machine.specs.run.AllHome.{IsStart, IsAtPlace};
ghost use Rattle.hop_ending.specs.Doomed.{IsDoomedSplit};

/// Where a run gave up a split, as its last attempt was spent, it is one of the run's, and each attempt of it that may be begun fails by the script. Over any ends: from a start, and from any other place of a run at which all actors are at home.
pub fn spent_runs_are_doomed()
    ensures start { (e : Bool) (backup : Bool) (list : List Order) (i : ℕ) (a b : World) → IsStart backup a.actors a.deeds → Went e (Opening 0 list, a) (NoneLeft i, b) → IsDoomedSplit a.deeds.setup i }
    ensures home { (e : Bool) (from : Place) (i : ℕ) (a b : World) → ((j : ℕ) → from ≢ NoneLeft j) → IsAtPlace from a.actors a.deeds → Went e (from, a) (NoneLeft i, b) → IsDoomedSplit a.deeds.setup i }
{}
