//! Single steps.
ghost use Rattle.std.specs.Prelude.{◌≡◌, ℕ, ◌<◌, Bool, List, [], ◌∷◌, ◌++◌, Option, Some};
ghost use Rattle.hop_event.specs.Legal.{Rules};
ghost use Rattle.hop_machine.specs.declared.words.Who.{Who};
ghost use Rattle.hop_machine.specs.declared.words.Message.{Message};
ghost use Rattle.hop_machine.specs.step.Setup.{CutSaid, rules_of};
ghost use Rattle.hop_machine.specs.step.CutLane.{AreCuts};
ghost use Rattle.hop_machine.specs.step.Pushing.{IsWorkersList};
ghost use Rattle.hop_machine.specs.step.Steps.{Step, Found, Take, TakeCut, Risk, Deeds, Grows, Runs, Steps, IsKnown};
ghost use Rattle.hop_base.specs.declared.part.Part.{Part};
ghost use Rattle.hop_machine.specs.actors.MapperTurns.{Mapper, mapper_turn};
ghost use Rattle.hop_machine.specs.actors.ReducerTurns.{Reducer, Writer, reducer_turn, writer_turn, take_pull, send_due, restart_if_due, finish};
ghost use Rattle.hop_machine.specs.play.Play.{Row, catch_up, pull_split};
ghost use Rattle.hop_machine.specs.home.Conditions.{HasMapper, HasReducer, HasWriter, HasAll};

use crate::words::Turn;

/// Over any ends, each step keeps what a run fixes and the ends that the value has; what ends are told only grows, and what they know of winners and revocations stays right.
pub fn steps_keep()
    ensures setup { (e : Bool) (s : Step) (o : Found s) (a b : Deeds) → Steps e s o a b → b.setup ≡ a.setup }
    ensures ends { (e : Bool) (s : Step) (o : Found s) (a b : Deeds) → Steps e s o a b → b.ends ≡ a.ends }
    ensures grows { (e : Bool) (s : Step) (o : Found s) (a b : Deeds) → Steps e s o a b → Grows a.told b.told }
    ensures known { (e : Bool) (s : Step) (o : Found s) (a b : Deeds) → Steps e s o a b → (who : Who) → IsKnown a.setup (a.told.knows who) → IsKnown b.setup (b.told.knows who) }
{}

/// A risk that goes well or badly moves nothing.
pub fn risks_move_nothing()
    ensures { (e ok : Bool) (a : Deeds) → Steps e Risk ok a a }
{}

/// A message that is taken stands last in a worker's list, and a cut in a list that its cut lane allows.
pub fn takes_are_allowed()
    ensures message { (e : Bool) (w p : ℕ) (m : Message) (a b : Deeds) → Steps e (Take w p) (Some m) a b → IsWorkersList (rules_of a.setup) ((a.did.ins w p).taken ++ m ∷ []) }
    ensures cut { (e : Bool) (p : ℕ) (c : CutSaid) (a b : Deeds) → Steps e (TakeCut p) (Some c) a b → AreCuts a.setup ((a.did.cut_ins p).taken ++ c ∷ []) }
{}

/// A list that a worker may send begins with such lists.
pub fn beginnings_are_workers_lists()
    ensures { (rules : Rules) (xs ys : List Message) → IsWorkersList rules (xs ++ ys) → IsWorkersList rules xs }
{}

/// Where what a run fixes and the ends are the same, a value has an actor's ends as before.
pub fn ends_stay()
    ensures mapper { (w : ℕ) (a b : Deeds) → b.setup ≡ a.setup → b.ends ≡ a.ends → HasMapper w a → HasMapper w b }
    ensures reducer { (p : ℕ) (a b : Deeds) → b.setup ≡ a.setup → b.ends ≡ a.ends → HasReducer p a → HasReducer p b }
    ensures writer { (a b : Deeds) → b.setup ≡ a.setup → b.ends ≡ a.ends → HasWriter a → HasWriter b }
    ensures all { (a b : Deeds) → b.setup ≡ a.setup → b.ends ≡ a.ends → HasAll a → HasAll b }
{}

/// Over any ends, each turn of an actor and each call for a reducer leaves the value the same ends.
pub fn turns_keep_ends()
    ensures mapper { (e : Bool) (m : Mapper) (a b : Deeds) (y : Mapper × Turn) → Runs e (mapper_turn m) a y b → b.ends ≡ a.ends }
    ensures reducer { (e : Bool) (r : Reducer) (a b : Deeds) (y : Reducer × Turn) → Runs e (reducer_turn r) a y b → b.ends ≡ a.ends }
    ensures writer { (e : Bool) (x : Writer) (a b : Deeds) (y : Writer × Turn) → Runs e (writer_turn x) a y b → b.ends ≡ a.ends }
    ensures pull { (e : Bool) (r : Reducer) (part : Part) (a b : Deeds) (ok : Bool) → Runs e (take_pull r part) a ok b → b.ends ≡ a.ends }
    ensures cuts { (e : Bool) (r : Reducer) (a b : Deeds) (ok : Bool) → Runs e (send_due r) a ok b → b.ends ≡ a.ends }
    ensures restart { (e : Bool) (r : Reducer) (a b : Deeds) (y : Reducer × Option Bool) → Runs e (restart_if_due r) a y b → b.ends ≡ a.ends }
    ensures finish { (e : Bool) (r : Reducer) (a b : Deeds) (ok : Bool) → Runs e (finish r) a ok b → b.ends ≡ a.ends }
    ensures catching { (e : Bool) (rows : List Row) (r : Reducer) (a b : Deeds) (y : Reducer × Bool) → Runs e (catch_up rows r) a y b → b.ends ≡ a.ends }
    ensures pulling { (e : Bool) (i : ℕ) (r : Reducer) (a b : Deeds) (y : Reducer × Option Bool) → Runs e (pull_split i r) a y b → b.ends ≡ a.ends }
{}
