//! Merging sheets: the least pair among the first ones of all sheets comes next.
ghost use Rattle.std.specs.Prelude.{◌≡◌, ◌++◌, ◌+◌, [], length, IfOk, OnOk};
ghost use Rattle.std.specs.Bool.{OnTrue, OnFalse};
ghost use Rattle.hop_base.specs.Order.{pair_cmp};
ghost use Rattle.hop_base.specs.Sorted.{ord};

use crate::head::Head;
use hop_base::{FlatSheet, FlatSheetBuilder, NoMemory};
use std::alloc::Global;
use std::collections::BinaryHeap;
use std::marker::Model;

/// Sheets that are being merged, seen as the pairs of all of them that are left, in order.
#[derive(Drop)]
pub struct Heads<'a> {
    heap: BinaryHeap<Head<'a>>,
    alloc: Global,
    bytes: usize,
    pairs: usize,
}

impl<'a> Model for Heads<'a> {
    ghost use Rattle.std.specs.Prelude.{List, All};
    ghost use Rattle.std.specs.BinaryHeap.{heap_items, IsHeap};
    ghost use Rattle.hop_base.specs.declared.value.Pair.{Pair};
    ghost use Rattle.hop_run.specs.Heads.{merged_pairs, head_cmp, IsSortedHead};

    ghost Value = { List Pair };

    ghost view = { λ h. merged_pairs (heap_items h.heap) };

    ghost invariant = { λ h. IsHeap head_cmp (heap_items h.heap) × All IsSortedHead (heap_items h.heap) };
}

impl<'a> Heads<'a> {
    /// No sheets. It takes no memory.
    pub fn new(alloc: Global) -> Heads<'a>
        ensures { result ≡ [] }
    {
        Heads {
            heap: BinaryHeap::new(alloc),
            alloc,
            bytes: 0,
            pairs: 0,
        }
    }

    /// One more sheet.
    pub fn add(&mut self, sheet: &'a FlatSheet) -> Result<(), NoMemory>
        ensures { OnOk result (self.new ≡ ord pair_cmp (self.old ++ sheet.now)) }
    {
        if sheet.len() == 0 {
            let _heap = &self.heap;
            return Ok(());
        }
        self.heap.push(Head::new(sheet, 0))?;
        self.bytes = self.bytes.saturating_add(sheet.bytes().len());
        self.pairs = self.pairs.saturating_add(sheet.len() as usize);
        Ok(())
    }

    /// The sheet of all pairs that are left. With n sheets it makes about log n comparisons a pair, and
    /// allocates none of them.
    pub fn merged(mut self) -> Result<FlatSheet, NoMemory>
        ensures { IfOk result (λ flat. flat ≡ self.entry) }
    {
        let mut builder = FlatSheetBuilder::with_room(self.alloc, self.bytes, self.pairs)?;
        while self.step(&mut builder)? {}
        builder.finish()
    }

    // The least pair that is left goes to the builder, if there is any.
    fn step(&mut self, to: &mut FlatSheetBuilder) -> Result<bool, NoMemory>
        ensures same { OnOk result (to.new ++ self.new ≡ to.old ++ self.old) }
        ensures less { IfOk result (λ more. OnTrue more (length self.new + 1 ≡ length self.old)) }
        ensures none { IfOk result (λ more. OnFalse more (self.new ≡ [])) }
    {
        match self.heap.pop() {
            None => Ok(false),
            Some(head) => {
                head.push_to(to)?;
                if let Some(next) = head.next() {
                    self.heap.push(next)?;
                }
                Ok(true)
            }
        }
    }
}
