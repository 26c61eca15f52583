//! The spill of some runs.
ghost use Rattle.std.specs.Prelude.{◌≡◌, IfOk, All, map};
ghost use Rattle.hop_base.specs.Order.{IsSheet};
ghost use Rattle.hop_run.specs.Runs.{RunValue};
ghost use Rattle.hop_spill.specs.Spelling.{spill_in};

use hop_base::{FlatSheets, Listed, NoMemory, Part};
use hop_run::Runs;
use hop_spill::FlatSpill;
use std::alloc::Global;

// The sheets of the runs, which share their bytes.
fn sheets_of(alloc: Global, runs: &Runs) -> Result<FlatSheets, NoMemory>
    ensures { IfOk result (λ sheets. sheets ≡ map (λ (run : RunValue). run.sheet) runs.now) }
{
    let mut sheets = Listed::new(alloc);
    for run in runs.as_slice() {
        sheets.push(run.flat().copy()?)?;
    }
    Ok(sheets)
}

// The spill of a range whose runs these are, one for each partition. No pair of it is copied.
pub(crate) fn spill_of(alloc: Global, part: Part, runs: &Runs) -> Result<FlatSpill, NoMemory>
    ensures { IfOk result (λ spill. spill_in spill ≡ record { split = part.split; attempt = part.attempt; from = part.from; to = part.to; sheets = map (λ (run : RunValue). run.sheet) runs.now }) }
{
    let sheets = sheets_of(alloc, runs)?;
    Ok(FlatSpill {
        split: part.split,
        attempt: part.attempt,
        from: part.from,
        to: part.to,
        sheets,
    })
}

// Each sheet is in order and within the limits. It does nothing: proofs learn it so.
pub(crate) fn all_known(sheets: &FlatSheets)
    ensures { All IsSheet sheets.now }
{
    for sheet in sheets.as_slice() {
        sheet.known();
    }
}
