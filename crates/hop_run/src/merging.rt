//! Merging two sheets.
ghost use Rattle.std.specs.Prelude.{◌≡◌, ◌++◌, IfOk};
ghost use Rattle.hop_base.specs.Order.{pair_cmp};
ghost use Rattle.hop_base.specs.Sorted.{ord};

use crate::heads::Heads;
use hop_base::{FlatSheet, NoMemory};
use std::alloc::Global;

// The pairs of both sheets in order, each as often as in both.
pub(crate) fn merge_sheets(
    alloc: Global,
    a: &FlatSheet,
    b: &FlatSheet,
) -> Result<FlatSheet, NoMemory>
    ensures { IfOk result (λ flat. flat ≡ ord pair_cmp (a.now ++ b.now)) }
{
    let mut heads = Heads::new(alloc);
    heads.add(a)?;
    heads.add(b)?;
    heads.merged()
}
