//! The words of a command line.
ghost use Rattle.std.specs.Prelude.{◌≡◌, ◌<◌, [], ◌∷◌, ◌++◌, length, Some, OnOk, OnErr, slice_get};

use crate::memory::NoMemory;
use std::alloc::Global;
use std::marker::Model;

/// The words after a program's name, seen as the list of their bytes.
#[derive(Debug, Drop)]
pub struct Words {
    items: Vec<String>,
}

impl Model for Words {
    ghost use Rattle.std.specs.Prelude.{List, ℕ, map, string_bytes};

    ghost Value = { List (List ℕ) };

    ghost view = { λ w. map string_bytes w.items.items };
}

impl Words {
    /// No words. It takes no memory.
    pub fn new(alloc: Global) -> Words
        ensures { result ≡ [] }
    {
        Words {
            items: Vec::new(alloc),
        }
    }

    /// The word is last. After `NoMemory` the words are as before.
    pub fn push(&mut self, word: &str) -> Result<(), NoMemory>
        ensures ok { OnOk result (self.new ≡ self.old ++ word.now ∷ []) }
        ensures err { OnErr result (self.new ≡ self.old) }
    {
        let item = String::from_str(*self.items.allocator(), word)?;
        self.items.push(item)?;
        Ok(())
    }

    /// How many words there are.
    pub fn len(&self) -> u64
        ensures { result ≡ length self.now }
    {
        self.items.len() as u64
    }

    /// Word `k`, counted from 0 and below `len`.
    pub fn word(&self, k: u64) -> &str
        requires { k < length self.now }
        ensures { slice_get self.now k ≡ Some result.now }
    {
        self.items[k as usize].as_str()
    }
}
