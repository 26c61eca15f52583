//! The progress marks at which snapshots are taken.
ghost use Rattle.std.specs.Prelude.{◌≡◌, ◌<◌, ◌≤◌, [], ◌∷◌, ◌++◌, length, OnOk, OnErr, IfOk};
ghost use Rattle.hop_base.specs.Ranges.{AreMarks, last_mark};

use crate::memory::NoMemory;
use std::alloc::Global;
use std::marker::Model;

/// At most 16 marks, each 1 to 10,000, strictly ascending. A mark is a progress: 10,000 is all
/// records of all splits.
#[derive(Debug, Drop)]
pub struct Marks {
    marks: Vec<u16>,
}

impl Model for Marks {
    ghost use Rattle.std.specs.Prelude.{List, ℕ};
    ghost use Rattle.hop_base.specs.Ranges.{AreMarks};

    ghost Value = { List ℕ };

    ghost view = { λ m. m.marks.items };

    ghost invariant = { λ m. AreMarks m.marks.items };
}

impl Marks {
    /// No marks. It takes no memory.
    pub fn new(alloc: Global) -> Marks
        ensures { result ≡ [] }
    {
        Marks {
            marks: Vec::new(alloc),
        }
    }

    /// The mark is last: above the one before it, 1 to 10,000, in a list of fewer than 16. After
    /// `NoMemory` the list is as before.
    pub fn push(&mut self, mark: u16) -> Result<(), NoMemory>
        requires room { length self.old < 16 }
        requires above { last_mark self.old < mark }
        requires most { mark ≤ 10000 }
        ensures ok { OnOk result (self.new ≡ self.old ++ mark ∷ []) }
        ensures err { OnErr result (self.new ≡ self.old) }
    {
        self.marks.push(mark)?;
        Ok(())
    }

    /// The marks, ascending.
    pub fn as_slice(&self) -> &[u16]
        ensures value { result.now ≡ self.now }
        ensures ranges { AreMarks self.now }
    {
        &self.marks
    }

    /// The marks themselves. It takes no memory.
    pub fn into_vec(self) -> Vec<u16>
        ensures value { result.items ≡ self }
        ensures ranges { AreMarks self }
    {
        let Marks { marks } = self;
        marks
    }

    /// Equal marks.
    pub fn copy(&self) -> Result<Marks, NoMemory>
        ensures { IfOk result (λ marks. marks ≡ self.now) }
    {
        let marks = self.marks.clone()?;
        Ok(Marks { marks })
    }
}
