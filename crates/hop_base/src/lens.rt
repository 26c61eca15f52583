//! The record counts of the splits.
ghost use Rattle.std.specs.Prelude.{◌≡◌, ◌<◌, ◌≤◌, [], ◌∷◌, ◌++◌, length, OnOk, OnErr};
ghost use Rattle.hop_base.specs.Ranges.{AreLens};

use crate::memory::NoMemory;
use std::alloc::Global;
use std::marker::Model;

/// How many records each split has: at most 1,024 numbers, each 1 to 16,777,216.
#[derive(Debug, Drop)]
pub struct Lens {
    lens: Vec<u32>,
}

impl Model for Lens {
    ghost use Rattle.std.specs.Prelude.{List, ℕ};
    ghost use Rattle.hop_base.specs.Ranges.{AreLens};

    ghost Value = { List ℕ };

    ghost view = { λ l. l.lens.items };

    ghost invariant = { λ l. AreLens l.lens.items };
}

impl Lens {
    /// No splits. It takes no memory.
    pub fn new(alloc: Global) -> Lens
        ensures { result ≡ [] }
    {
        Lens {
            lens: Vec::new(alloc),
        }
    }

    /// The length is last: 1 to 16,777,216, in a list of fewer than 1,024. After `NoMemory` the list is
    /// as before.
    pub fn push(&mut self, len: u32) -> Result<(), NoMemory>
        requires room { length self.old < 1024 }
        requires some { 1 ≤ len }
        requires few { len ≤ 16777216 }
        ensures ok { OnOk result (self.new ≡ self.old ++ len ∷ []) }
        ensures err { OnErr result (self.new ≡ self.old) }
    {
        self.lens.push(len)?;
        Ok(())
    }

    /// The lengths, by split.
    pub fn as_slice(&self) -> &[u32]
        ensures value { result.now ≡ self.now }
        ensures ranges { AreLens self.now }
    {
        &self.lens
    }

    /// The lengths themselves. It takes no memory.
    pub fn into_vec(self) -> Vec<u32>
        ensures value { result.items ≡ self }
        ensures ranges { AreLens self }
    {
        let Lens { lens } = self;
        lens
    }
}
