//! The cuts that the writer wrote of runs that need not have come to their end.
ghost use Rattle.std.specs.Prelude.{◌≡◌, ℕ, ◌≤◌, ◌<◌, Bool, true, List, [], ◌++◌, map};
ghost use Rattle.hop_machine.specs.home.Said.{history_of};
ghost use Rattle.hop_machine.specs.home.ReducerHome.{cuts_of};
ghost use Rattle.hop_machine.specs.play.Play.{Order, Place, Opening, NoneLeft, World, machine, Went};
ghost use Rattle.hop_machine.specs.run.AllHome.{IsStart};
ghost use Rattle.hop_ending.specs.Cuts.{put_of, writings_of};
ghost use Rattle.hop_ending.specs.Reached.{WroteReached};

/// What the writer of a run over exact ends wrote, wherever the run came to, also where it halted, are cuts of marks of the run that were reached, each with the progress of what it declares.
pub fn written_cuts_reached()
    ensures { (backup : Bool) (list : List Order) (at : Place) (a b : World) → IsStart backup a.actors a.deeds → Went true (Opening 0 list, a) (at, b) → WroteReached a.deeds.setup b.actors.writer.writings }
{}

/// Where a split has no attempt left, the writer put of each reducer the cuts of its history but for those that still stand in its cut lane, in order, and none of others.
pub fn spent_runs_leave_cuts()
    ensures each { (backup : Bool) (list : List Order) (i : ℕ) (a b : World) → IsStart backup a.actors a.deeds → Went true (Opening 0 list, a) (NoneLeft i, b) → (p : ℕ) → p < a.deeds.setup.reducers → writings_of p b.actors.writer.writings ++ map (put_of p) ((machine b).shared.cuts p) ≡ map (put_of p) (cuts_of a.deeds.setup (history_of b.deeds p)) }
    ensures others { (backup : Bool) (list : List Order) (i : ℕ) (a b : World) → IsStart backup a.actors a.deeds → Went true (Opening 0 list, a) (NoneLeft i, b) → (p : ℕ) → a.deeds.setup.reducers ≤ p → writings_of p b.actors.writer.writings ≡ [] }
{}
