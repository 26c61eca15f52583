//! Catching up.
ghost use Rattle.std.specs.Prelude.{◌≡◌, ◌⊎◌, ℕ, ◌<◌, ◌≤◌, Bool, true, false, List, Option, Some};
ghost use Rattle.std.specs.List.{slice_get};
ghost use Rattle.hop_base.specs.declared.part.Part.{Part};
ghost use Rattle.hop_event.specs.History.{upto};
ghost use Rattle.hop_machine.specs.step.Steps.{Deeds, Runs};
ghost use Rattle.hop_machine.specs.actors.MapperTurns.{Mapper};
ghost use Rattle.hop_machine.specs.actors.ReducerTurns.{Reducer, wanted, reads_upto, reads_wants, restart_if_due};
ghost use Rattle.hop_machine.specs.home.Said.{history_of};
ghost use Rattle.hop_machine.specs.home.ReducerHome.{MayPull};
ghost use Rattle.hop_machine.specs.play.Play.{Actors, Row, kept_by, rows_of_split, pull_row};
ghost use Rattle.hop_machine.specs.run.AllHome.{Ready};
ghost use Rattle.hop_machine.specs.run.Catches.{ReducerNow, AreHome, Lagging};

/// Over any ends, a reducer that lags may be given each row of kept spills that it wants and lacks, from where its records of the attempt end, and it still lags after each after which no
/// restart came.
pub fn rows_are_pulled()
    ensures ready { (x : Actors) (p : ℕ) (r : Reducer) (d : Deeds) → Ready x d → slice_get x.reducers p ≡ Some r → ReducerNow r d }
    ensures begins { (e : Bool) (ms : List Mapper) (r y : Reducer) (a b : Deeds) → ReducerNow r a → r.lagging ≡ true → AreHome ms a → Runs e (restart_if_due r) a (y, Some false) b → (y ≡ r) × Lagging ms r b }
    ensures wants { (e : Bool) (ms : List Mapper) (r : Reducer) (i n : ℕ) (t : Bool) (a b : Deeds) → Lagging ms r a → Runs e (reads_wants r i n) a t b → Lagging ms r b × (t ≡ wanted (history_of b r.number) i n) }
    ensures upto { (e : Bool) (ms : List Mapper) (r : Reducer) (i n from : ℕ) (a b : Deeds) → Lagging ms r a → Runs e (reads_upto r i n) a from b → Lagging ms r b × (from ≡ upto i n (history_of b r.number)) × (history_of b r.number ≡ history_of a r.number) }
    ensures pull { (ms : List Mapper) (r : Reducer) (d : Deeds) (part : Part) → Lagging ms r d → wanted (history_of d r.number) part.split part.attempt ≡ true → part.from ≡ upto part.split part.attempt (history_of d r.number) → part.to ≡ kept_by ms part.split part.attempt → part.from < part.to → MayPull r part d }
    ensures row { (e : Bool) (ms : List Mapper) (r y : Reducer) (k : Row) (a b : Deeds) → Lagging ms r a → k.end ≡ kept_by ms k.split k.attempt → Runs e (pull_row k r) a (y, Some false) b → (y ≡ r) × Lagging ms r b }
{}

/// What is kept of a split is of its first attempts, as many as some mapper began and no more than the limit.
pub fn begun_rows_are_all()
    ensures few { (ms : List Mapper) (w i : ℕ) (m : Mapper) (d : Deeds) → AreHome ms d → slice_get ms w ≡ Some m → m.begun i ≤ d.setup.attempts }
    ensures rows { (ms : List Mapper) (i n : ℕ) (d : Deeds) → AreHome ms d → ((w : ℕ) (m : Mapper) → slice_get ms w ≡ Some m → m.begun i ≤ n) → n ≤ d.setup.attempts → rows_of_split ms i 0 d.setup.attempts ≡ rows_of_split ms i 0 n }
{}
