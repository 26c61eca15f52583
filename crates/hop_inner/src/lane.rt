//! The two ends of a lane.
ghost use Rattle.std.specs.Prelude.{◌≡◌, ℕ, Bool, List, Option, IfErr, is_ok, IfSome};
ghost use Rattle.hop_inner.specs.Lines.{Key, Line, Sends, Takes};

/// The lane is full; the message is handed back.
#[derive(Debug, Drop)]
pub struct Full<T>(pub T);

/// What lanes of one kind allow, by the lane's key: which message may come after which list. And how
/// many messages one holds.
pub trait LaneRule<T> {
    ghost allows: { Key → List T → T → Type 0 };

    ghost capacity: { ℕ };
}

/// The end that sends.
pub trait Sender<T, L: LaneRule<T>> {
    /// Whether its answers are exact, as on one thread.
    ghost exact: { Bool };

    /// What it shows of its lane.
    ghost line: { Self → Line T };

    /// The message is last in the lane. `Full` hands it back, only where the lane may be full.
    fn send(&mut self, msg: T) -> Result<(), Full<T>>
        requires { L.allows (line self.old).key (line self.old).out.sent msg }
        ensures sends { Sends exact L.capacity msg (is_ok result) (line self.old) (line self.new) }
        ensures back { IfErr result (λ e. e.0 ≡ msg) };
}

/// The end that takes.
pub trait Receiver<T, L: LaneRule<T>> {
    /// Whether its answers are exact, as on one thread.
    ghost exact: { Bool };

    /// What it shows of its lane.
    ghost line: { Self → Line T };

    /// The first message, which the lane allowed after those that were taken before.
    fn take(&mut self) -> Option<T>
        ensures takes { Takes exact result (line self.old) (line self.new) }
        ensures allowed { IfSome result (λ m. L.allows (line self.old).key (line self.old).into.taken m) };
}
