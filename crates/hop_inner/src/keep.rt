//! A lock over a value with a history.
ghost use Rattle.std.specs.Prelude.{◌≡◌, ℕ, Bool, true, false, IfSome, IsSome, is_some};
ghost use Rattle.std.specs.Option.{option_map};
ghost use Rattle.hop_machine.specs.step.Steps.{holding, TellsValue};
ghost use Rattle.hop_inner.specs.Locks.{Lock, MayGive, given_back};

/// A value with a history, as contracts see it.
pub trait Logged: Drop {
    ghost use Rattle.std.specs.Prelude.{ℕ};
    ghost use Rattle.hop_machine.specs.step.Steps.{Value};

    /// Its events, the last one first, and the marks whose cuts are due.
    ghost value: { Self → Value };

    /// Its number, which no call changes.
    ghost number: { Self → ℕ };
}

/// The recorder's end of a lock.
pub trait Keep<V: Logged> {
    /// Whether its answers are exact, as on one thread.
    ghost exact: { Bool };

    /// What it did, and the number of the value under it.
    ghost lock: { Self → Lock };

    /// The value, unless somebody else has it.
    fn try_hold(&mut self) -> Option<V>
        requires { (lock self.old).kept.held ≡ false }
        ensures lock { lock self.new ≡ record (lock self.old) { kept = holding (option_map V.value result) (lock self.old).kept } }
        ensures value { IfSome result (λ x. TellsValue (V.value x) (lock self.old).kept) }
        ensures number { IfSome result (λ x. V.number x ≡ (lock self.old).number) }
        ensures found { exact ≡ true → IsSome result };

    /// The same, but it is not counted where somebody else has it.
    fn try_again(&mut self) -> Option<V>
        requires { (lock self.old).kept.held ≡ false }
        ensures lock { lock self.new ≡ record (lock self.old) { kept = record (lock self.old).kept { held = is_some result } } }
        ensures value { IfSome result (λ x. TellsValue (V.value x) (lock self.old).kept) }
        ensures number { IfSome result (λ x. V.number x ≡ (lock self.old).number) };

    /// The value is under the lock again, with the events that it had or one more.
    fn give_back(&mut self, value: V)
        requires held { (lock self.old).kept.held ≡ true }
        requires number { V.number value ≡ (lock self.old).number }
        requires events { MayGive (V.value value) (lock self.old).kept }
        ensures { lock self.new ≡ given_back (V.value value) (lock self.old) };
}
