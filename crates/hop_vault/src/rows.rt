//! The spills that a vault keeps, by split and attempt.
ghost use Rattle.std.specs.Prelude.{◌≡◌, ◌<◌, ◌≤◌, ◌++◌, ◌∷◌, [], OnOk, OnErr, length, vec_len};
ghost use Rattle.hop_vault.specs.Rows.{row_of, lists_of, list_at, all_but_last, SameRows, AddsTo, TakesFrom, Changes, SameLists};

use crate::kept::Kept;
use hop_base::NoMemory;
use std::alloc::Global;
use std::marker::Model;

/// The kept spills of each attempt of each split, each in order.
#[derive(Drop)]
pub struct Rows {
    alloc: Global,
    splits: Vec<Vec<Vec<Kept>>>,
}

impl Model for Rows {
    ghost use Rattle.std.specs.Prelude.{List, map};
    ghost use Rattle.hop_vault.specs.declared.kept.Kept.{Kept};
    ghost use Rattle.hop_vault.specs.Rows.{lists_of};

    ghost Value = { List (List (List Kept)) };

    ghost view = { λ rows. map lists_of (lists_of rows.splits.items) };
}

impl Rows {
    /// No spills. It takes no memory.
    pub fn new(alloc: Global) -> Rows
        ensures { result ≡ [] }
    {
        Rows {
            alloc,
            splits: Vec::new(alloc),
        }
    }

    /// The spills of an attempt, in order.
    pub fn row(&self, split: u32, attempt: u8) -> &[Kept]
        ensures { result.now ≡ row_of self.now split attempt }
    {
        if (split as usize) < self.splits.len() {
            row_at(&self.splits[split as usize], attempt as usize)
        } else {
            &[]
        }
    }

    /// The spill becomes the last of its attempt.
    pub fn add(&mut self, split: u32, attempt: u8, kept: Kept) -> Result<(), NoMemory>
        ensures ok { OnOk result (AddsTo self.old self.new split attempt kept) }
        ensures err { OnErr result (SameRows self.old self.new) }
    {
        pad(self.alloc, &mut self.splits, split as usize + 1)?;
        add_at(
            self.alloc,
            &mut self.splits[split as usize],
            attempt as usize,
            kept,
        )
    }

    /// The last spill of an attempt goes. It takes no memory.
    pub fn take_back(&mut self, split: u32, attempt: u8)
        requires { 0 < length (row_of self.old split attempt) }
        ensures { TakesFrom self.old self.new split attempt }
    {
        take_at(&mut self.splits[split as usize], attempt as usize);
    }
}

// The spills of an attempt.
fn row_at(attempts: &Vec<Vec<Kept>>, attempt: usize) -> &[Kept]
    ensures { result.now ≡ list_at (lists_of attempts.now.items) attempt }
{
    match attempts.get(attempt) {
        Some(row) => row,
        None => &[],
    }
}

// The spill becomes the last of its attempt.
fn add_at(
    alloc: Global,
    attempts: &mut Vec<Vec<Kept>>,
    attempt: usize,
    kept: Kept,
) -> Result<(), NoMemory>
    requires { attempt < 256 }
    ensures ok { OnOk result (Changes (lists_of attempts.old.items) (lists_of attempts.new.items) attempt (λ row. row ++ kept ∷ [])) }
    ensures err { OnErr result (SameLists (lists_of attempts.old.items) (lists_of attempts.new.items)) }
{
    pad(alloc, attempts, attempt + 1)?;
    attempts[attempt].push(kept)?;
    Ok(())
}

// The last spill of an attempt goes.
fn take_at(attempts: &mut Vec<Vec<Kept>>, attempt: usize)
    requires { attempt < length attempts.old.items }
    ensures { Changes (lists_of attempts.old.items) (lists_of attempts.new.items) attempt all_but_last }
{
    let _last = attempts[attempt].pop();
}

// There are at least so many lists, the new ones empty.
fn pad<T: Drop>(alloc: Global, lists: &mut Vec<Vec<T>>, len: usize) -> Result<(), NoMemory>
    ensures same { SameLists (lists_of lists.old.items) (lists_of lists.new.items) }
    ensures enough { OnOk result (len ≤ vec_len lists.new) }
{
    while lists.len() < len {
        lists.push(Vec::new(alloc))?;
    }
    Ok(())
}
