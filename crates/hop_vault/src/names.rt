//! The names of spill files.
ghost use Rattle.std.specs.Prelude.{◌≡◌, IfOk, string_bytes};
ghost use Rattle.hop_spill.specs.SpillFiles.{name_of};

use hop_base::NoMemory;
use std::alloc::Global;

// The name of a spill's file: `s-SPLIT-ATTEMPT-FROM`.
pub fn spill_name(alloc: Global, split: u32, attempt: u8, from: u32) -> Result<String, NoMemory>
    ensures { IfOk result (λ name. string_bytes name ≡ name_of split attempt from) }
{
    let name = format!(in alloc; "s-{split}-{attempt}-{from}")?;
    Ok(name)
}
