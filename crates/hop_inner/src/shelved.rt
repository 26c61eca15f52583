//! A reducer's shelf, as the value under its lock.
ghost use Rattle.std.specs.Prelude.{◌≡◌};
ghost use Rattle.hop_inner.specs.Shelved.{value_of};

use crate::keep::Logged;
use hop_base::RunName;
use hop_shelf::Shelf;

impl<N: RunName> Logged for Shelf<N> {
    ghost use Rattle.hop_inner.specs.Shelved.{value_of};

    ghost value = { value_of };

    ghost number = { λ s. s.p };
}
