//! What went wrong, as a worker's fault.
ghost use Rattle.std.specs.Prelude.{◌≡◌};
ghost use Rattle.hop_mapper.specs.Faults.{flush_fault, fetch_fault, turn_of};

use hop_actors::{Fault, Turn};
use hop_base::NoMemory;
use hop_press::FlushFault;
use hop_vault::FetchFault;

// A flush's fault as this worker's.
pub(crate) fn flush_fault(worker: u8, fault: FlushFault) -> Fault
    ensures { result ≡ flush_fault worker fault }
{
    match fault {
        FlushFault::SpillFailed => Fault::SpillFailed { worker },
        FlushFault::Damaged { at, kept, found } => Fault::SpillDamaged {
            worker,
            at,
            kept,
            found,
        },
        FlushFault::Collides { at, place } => Fault::SpillCollides { worker, at, place },
        FlushFault::NoMemory => Fault::NoMemory,
    }
}

// A fetch's fault as this worker's.
pub(crate) fn fetch_fault(worker: u8, fault: FetchFault) -> Fault
    ensures { result ≡ fetch_fault worker fault }
{
    match fault {
        FetchFault::NotKept { .. } | FetchFault::NoMemory => Fault::NoMemory,
        FetchFault::StoreFailed => Fault::SpillFailed { worker },
        FetchFault::Damaged { at, kept, found } => Fault::SpillDamaged {
            worker,
            at,
            kept,
            found,
        },
        FetchFault::Collides { at, place } => Fault::SpillCollides { worker, at, place },
    }
}

// What a turn answers after the lanes: it fails where memory was wanting.
pub(crate) fn turn_of(gone: Result<(), NoMemory>) -> Turn
    ensures { result ≡ turn_of gone }
{
    match gone {
        Ok(()) => Turn::Worked,
        Err(NoMemory) => Turn::Failed(Fault::NoMemory),
    }
}
