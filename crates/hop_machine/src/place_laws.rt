//! From place to place: each turn and call of a coordinator is the step that is due at its place.
ghost use Rattle.std.specs.Prelude.{◌≡◌, ℕ, ◌+◌, ◌<◌, Bool, true, false, List, [], ◌∷◌, Option, Some, length, map, nat_lt, slice_index_or, slice_set};
ghost use Rattle.std.specs.List.{slice_get};
ghost use Rattle.hop_machine.specs.declared.words.Who.{Who};
ghost use Rattle.hop_machine.specs.declared.words.Who.TheVariants as whose;
ghost use Rattle.hop_machine.specs.step.Setup.{splits_of};
ghost use Rattle.hop_machine.specs.step.Steps.{Deeds, Runs};
ghost use Rattle.hop_machine.specs.actors.MapperTurns.{Mapper, mapper_turn, is_ended};
ghost use Rattle.hop_machine.specs.actors.ReducerTurns.{Reducer, Writer, reducer_turn, writer_turn, send_due, finish};
ghost use Rattle.hop_machine.specs.play.Play.{Order, TurnOf, CatchUp, Place, Opening, Listed, CatchingUp, Passing, Mapping, Draining, Emptying, Pulling, Writing, Over, World, Learns, Turned, Went, kept_rows, catch_up, pull_split, unless_spent, once_idle, unless_halted, after_pull, all_true, has_ended, is_late};

use crate::words::Turn;

/// A turn of the actor at its place of the lists is a turn of the run.
pub fn turns_are_taken()
    ensures mapper { (e : Bool) (w : ℕ) (a : World) (m : Mapper) (b : Deeds) (y : Mapper × Turn) → slice_get a.actors.mappers w ≡ Some m → Runs e (mapper_turn m) a.deeds y b → Turned e (whose.Mapper w) a y.1 (record { actors = record a.actors { mappers = slice_set a.actors.mappers w y.0 }; deeds = b }) }
    ensures reducer { (e : Bool) (p : ℕ) (a : World) (r : Reducer) (b : Deeds) (y : Reducer × Turn) → slice_get a.actors.reducers p ≡ Some r → Runs e (reducer_turn r) a.deeds y b → Turned e (whose.Reducer p) a y.1 (record { actors = record a.actors { reducers = slice_set a.actors.reducers p y.0 }; deeds = b }) }
    ensures writer { (e : Bool) (a : World) (b : Deeds) (y : Writer × Turn) → Runs e (writer_turn a.actors.writer) a.deeds y b → Turned e whose.Writer a y.1 (record { actors = record a.actors { writer = y.0 }; deeds = b }) }
{}

/// Over any ends, each turn of an actor is the step that is due at its place; a merger's turn changes nothing.
pub fn turns_are_due()
    ensures listed { (e : Bool) (who : Who) (later : List Order) (a b : World) (t : Turn) → Turned e who a t b → Went e (Listed (TurnOf who ∷ later), a) (unless_spent t (Listed later), b) }
    ensures merger { (e : Bool) (j : ℕ) (later : List Order) (a b : World) → b.actors ≡ a.actors → Learns e a.deeds b.deeds → Went e (Listed (TurnOf (whose.Merger j) ∷ later), a) (Listed later, b) }
    ensures mapping { (e : Bool) (w : ℕ) (ended : List Bool) (a b : World) (t : Turn) → w < length a.actors.mappers → slice_index_or ended w false ≡ false → Turned e (whose.Mapper w) a t b → Went e (Mapping w ended, a) (unless_spent t (Mapping (w + 1) (slice_set ended w (is_ended t))), b) }
    ensures draining { (e : Bool) (p : ℕ) (ended : List Bool) (a b : World) (t : Turn) → p < length a.actors.reducers → Turned e (whose.Reducer p) a t b → Went e (Draining p ended, a) (once_idle t (Draining (p + 1) ended) (Draining p ended), b) }
    ensures emptying { (e : Bool) (p : ℕ) (a b : World) (t : Turn) → p < length a.actors.reducers → Turned e (whose.Reducer p) a t b → Went e (Emptying p, a) (once_idle t (Emptying (p + 1)) (Emptying p), b) }
    ensures writing { (e : Bool) (a b : World) (t : Turn) → Turned e whose.Writer a t b → Went e (Writing, a) (once_idle t Over Writing, b) }
{}

/// Over any ends, so is each call for a reducer: its first cuts, catching up, a pull of settling and its finish.
pub fn calls_are_due()
    ensures opening { (e : Bool) (p : ℕ) (list : List Order) (a : World) (r : Reducer) (b : Deeds) (ok : Bool) → slice_get a.actors.reducers p ≡ Some r → p < length a.actors.reducers → Runs e (send_due r) a.deeds ok b → Went e (Opening p list, a) (unless_halted (Opening (p + 1) list) ok, record { actors = record a.actors { reducers = slice_set a.actors.reducers p r }; deeds = b }) }
    ensures catching { (e : Bool) (p : ℕ) (later : List Order) (a : World) (r : Reducer) (b : Deeds) (y : Reducer × Bool) → slice_get a.actors.reducers p ≡ Some r → p < length a.actors.reducers → Runs e (catch_up (kept_rows a.actors.mappers a.deeds.setup.attempts 0 (splits_of a.deeds.setup)) r) a.deeds y b → Went e (CatchingUp p later, a) (unless_halted (CatchingUp (p + 1) later) y.1, record { actors = record a.actors { reducers = slice_set a.actors.reducers p y.0 }; deeds = b }) }
    ensures pulling { (e : Bool) (p i : ℕ) (a : World) (r : Reducer) (b : Deeds) (y : Reducer × Option Bool) → slice_get a.actors.reducers p ≡ Some r → p < length a.actors.reducers → i < splits_of a.deeds.setup → Runs e (pull_split i r) a.deeds y b → Went e (Pulling p i, a) (after_pull p i y.1, record { actors = record a.actors { reducers = slice_set a.actors.reducers p y.0 }; deeds = b }) }
    ensures finishing { (e : Bool) (p i : ℕ) (a : World) (r : Reducer) (b : Deeds) (ok : Bool) → slice_get a.actors.reducers p ≡ Some r → p < length a.actors.reducers → nat_lt i (splits_of a.deeds.setup) ≡ false → Runs e (finish r) a.deeds ok b → Went e (Pulling p i, a) (unless_halted (Pulling (p + 1) 0) ok, record { actors = record a.actors { reducers = slice_set a.actors.reducers p r }; deeds = b }) }
{}

/// Over any ends, a run goes on where a list or a pass is done, and no end does anything.
pub fn places_follow()
    ensures opened { (e : Bool) (list : List Order) (a : World) → nat_lt (length a.actors.reducers) (length a.actors.reducers) ≡ false → Went e (Opening (length a.actors.reducers) list, a) (Listed list, a) }
    ensures catches { (e : Bool) (later : List Order) (a : World) → Went e (Listed (CatchUp ∷ later), a) (CatchingUp 0 later, a) }
    ensures caught { (e : Bool) (p : ℕ) (later : List Order) (a : World) → nat_lt p (length a.actors.reducers) ≡ false → Went e (CatchingUp p later, a) (Listed later, a) }
    ensures settles { (e : Bool) (a b : World) → b.actors ≡ record a.actors { reducers = map is_late a.actors.reducers } → b.deeds ≡ a.deeds → Went e (Listed [], a) (Passing (map has_ended a.actors.mappers), b) }
    ensures again { (e : Bool) (ended : List Bool) (a : World) → all_true ended ≡ false → Went e (Passing ended, a) (Mapping 0 ended, a) }
    ensures passed { (e : Bool) (ended : List Bool) (a : World) → all_true ended ≡ true → Went e (Passing ended, a) (Emptying 0, a) }
    ensures skips { (e : Bool) (w : ℕ) (ended : List Bool) (a : World) → w < length a.actors.mappers → slice_index_or ended w false ≡ true → Went e (Mapping w ended, a) (Mapping (w + 1) ended, a) }
    ensures mapped { (e : Bool) (w : ℕ) (ended : List Bool) (a : World) → nat_lt w (length a.actors.mappers) ≡ false → Went e (Mapping w ended, a) (Draining 0 ended, a) }
    ensures drained { (e : Bool) (p : ℕ) (ended : List Bool) (a : World) → nat_lt p (length a.actors.reducers) ≡ false → Went e (Draining p ended, a) (Passing ended, a) }
    ensures emptied { (e : Bool) (p : ℕ) (a : World) → nat_lt p (length a.actors.reducers) ≡ false → Went e (Emptying p, a) (Pulling 0 0, a) }
    ensures pulled { (e : Bool) (p i : ℕ) (a : World) → nat_lt p (length a.actors.reducers) ≡ false → Went e (Pulling p i, a) (Writing, a) }
{}
