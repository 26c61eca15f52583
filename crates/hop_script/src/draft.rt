//! A script while it is read.
ghost use Rattle.std.specs.Prelude.{◌≡◌, [], ◌∷◌, ◌++◌, List, IfOk, IsTrue, not};
ghost use Rattle.std.specs.List.{list_any};
ghost use Rattle.hop_script.specs.Lines.{same_name, HasPartition};

use crate::line::Line;
use hop_base::NoMemory;
use std::alloc::Global;
use std::collections::{BTreeMap, BTreeSet};

// An attempt of a split.
#[derive(Clone, Copy, Debug, PartialEq, Eq, PartialOrd, Ord)]
pub struct Attempt {
    pub split: u32,
    pub attempt: u8,
}

// A restart of a reducer, after its arrival of that number.
#[derive(Clone, Copy, Debug, PartialEq, Eq, PartialOrd, Ord)]
pub struct Restart {
    pub partition: u8,
    pub arrivals: u32,
}

// The lines that were read, by what they name.
#[derive(Drop)]
pub struct Draft {
    pub fails: BTreeMap<Attempt, u32>,
    pub restarts: BTreeSet<Restart>,
    pub delays: BTreeMap<u8, u32>,
}

impl Draft {
    ghost use Rattle.hop_script.specs.Draft.{IsDraftOf};

    // No lines.
    pub fn new(alloc: Global) -> Draft
        ensures { IsDraftOf result [] }
    {
        Draft {
            fails: BTreeMap::new(alloc),
            restarts: BTreeSet::new(alloc),
            delays: BTreeMap::new(alloc),
        }
    }

    // Adds a line, and says whether it names what no line before it does. The draft is of no use
    // afterwards if it doesn't.
    pub fn add(&mut self, line: Line) -> Result<bool, NoMemory>
        requires { HasPartition line }
        ensures first { (lines : List Line) → IsDraftOf self.old lines → IfOk result (λ first. first ≡ not (list_any (same_name line) lines)) }
        ensures added { (lines : List Line) → IsDraftOf self.old lines → IfOk result (λ first. IsTrue first → IsDraftOf self.new (lines ++ line ∷ [])) }
    {
        match line {
            Line::Fail { split, attempt, at } => {
                let before = self.fails.insert(Attempt { split, attempt }, at)?;
                Ok(before.is_none())
            }
            Line::Restart {
                partition,
                arrivals,
            } => {
                let first = self.restarts.insert(Restart {
                    partition,
                    arrivals,
                })?;
                Ok(first)
            }
            Line::Delay { worker, turns } => {
                let before = self.delays.insert(worker, turns)?;
                Ok(before.is_none())
            }
        }
    }
}
