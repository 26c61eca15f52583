//! What reducers lack once all mappers have ended, and how their histories are finished.
ghost use Rattle.std.specs.Prelude.{◌≡◌, ℕ, ◌<◌, ◌≤◌, ◌^◌, Bool, List, Option, Some, nat_lt, false, length, slice_index};
ghost use Rattle.std.specs.List.{slice_get};
ghost use Rattle.hop_base.specs.declared.part.Part.{Part};
ghost use Rattle.hop_event.specs.History.{winner, upto};
ghost use Rattle.hop_machine.specs.step.Steps.{Setup, Deeds, Runs};
ghost use Rattle.hop_machine.specs.step.Setup.{splits_of};
ghost use Rattle.hop_machine.specs.actors.MapperTurns.{Mapper};
ghost use Rattle.hop_machine.specs.actors.ReducerTurns.{Reducer, reads_winner, reads_upto};
ghost use Rattle.hop_machine.specs.home.Said.{history_of};
ghost use Rattle.hop_machine.specs.home.ReducerHome.{MayPull};
ghost use Rattle.hop_machine.specs.board.Board.{Gathered};
ghost use Rattle.hop_machine.specs.play.Play.{Actors, World, Emptying, Went, kept_by};
ghost use Rattle.hop_machine.specs.run.AllHome.{Ready, IsAtPlace, IsPulling, Pulls};
ghost use Rattle.hop_machine.specs.settling.Settling.{AllMet};
ghost use Rattle.hop_machine.specs.step.Steps.{rules_of};
ghost use Rattle.hop_actors.specs.Calls.{MayEnd};
ghost use Rattle.hop_settle.specs.Begun.{AreCounted};
ghost use Rattle.hop_settle.specs.Crews.{IsSized, TurnsBelow, TurnsLeft};
ghost use Rattle.hop_settle.specs.Lacking.{Lacks, AreBegunBy};

/// Over any ends, a reducer may be given what it lacks of each split's winner, and what is read off its history before that changes nothing.
pub fn winners_are_pulled()
    ensures begins { (p i j : ℕ) (x : Actors) (d : Deeds) → Pulls p i x d → p < d.setup.reducers → (r : Reducer) → slice_get x.reducers p ≡ Some r → Lacks x.mappers r j d }
    ensures winner { (e : Bool) (ms : List Mapper) (r : Reducer) (i : ℕ) (o : Option ℕ) (a b : Deeds) → Lacks ms r i a → Runs e (reads_winner r i) a o b → Lacks ms r i b × (o ≡ winner i (history_of b r.number)) }
    ensures upto { (e : Bool) (ms : List Mapper) (r : Reducer) (i n from : ℕ) (a b : Deeds) → Lacks ms r i a → Runs e (reads_upto r i n) a from b → Lacks ms r i b × (from ≡ upto i n (history_of b r.number)) × (history_of b r.number ≡ history_of a r.number) }
    ensures pull { (ms : List Mapper) (r : Reducer) (d : Deeds) (part : Part) → Lacks ms r part.split d → winner part.split (history_of d r.number) ≡ Some part.attempt → part.from ≡ upto part.split part.attempt (history_of d r.number)
        → part.to ≡ slice_index d.setup.lens part.split → part.from < part.to → MayPull r part d × (part.to ≡ kept_by ms part.split part.attempt) }
{}

/// Over any ends, a history of which nothing is lacking may be finished with the attempts that the mappers began.
pub fn histories_may_finish()
    ensures { (p i : ℕ) (x : Actors) (d : Deeds) → Pulls p i x d → p < d.setup.reducers → splits_of d.setup ≤ i → d.setup.attempts ≤ 16 → (r : Reducer) → slice_get x.reducers p ≡ Some r → (begun : List ℕ) → AreBegunBy x d.setup begun → MayEnd r begun d }
{}

/// Where all ends were told of each other before the reducers' last turns and after them, and the board's ends were gathered, the pulls may begin.
pub fn pulls_may_begin()
    ensures { (e : Bool) (b c : World) (n : ℕ) → IsAtPlace (Emptying 0) b.actors b.deeds → AllMet b.deeds → Went e (Emptying 0, b) (Emptying n, c) → nat_lt n (length c.actors.reducers) ≡ false → AllMet c.deeds → Gathered (rules_of c.deeds.setup) c.deeds
        → IsPulling (Emptying n) c.actors c.deeds }
{}

/// All mappers together have fewer turns left than settling may give them.
pub fn turns_are_enough()
    ensures { (x : Actors) (d : Deeds) → Ready x d → IsSized d.setup → TurnsBelow (2 ^ 55) x.mappers → TurnsLeft x.mappers d }
{}

/// The numbers that are counted are those of the attempts that the mappers began.
pub fn counted_numbers_are_begun()
    ensures { (x : Actors) (s : Setup) → length x.mappers ≡ s.workers → (begun : List ℕ) → length begun ≡ length s.lens → AreCounted x.mappers begun → AreBegunBy x s begun }
{}
