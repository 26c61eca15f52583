//! Mapping the records of a part.
ghost use Rattle.std.specs.Prelude.{◌<◌, ◌≤◌, OnOk};
ghost use Rattle.std.specs.List.{flat_map};
ghost use Rattle.hop_laws.specs.Blocking.{part_records};
ghost use Rattle.hop_records.specs.Records.{splits_of, len_of};

use hop_base::{NoMemory, Part};
use hop_laws::{Job, PairSink};
use hop_records::Book;
use std::alloc::Global;

// The pairs that map emits for the records of the part go to a sink, in order.
pub(crate) fn map_part<J: Job, S: PairSink>(
    alloc: Global,
    job: &J,
    book: &Book,
    part: Part,
    sink: &mut S,
) -> Result<(), NoMemory>
    requires split { part.split < splits_of book.now }
    requires ordered { part.from ≤ part.to }
    requires within { part.to ≤ len_of book.now part.split }
    ensures { OnOk result (S.takes sink.old (flat_map (J.meaning job.now).emits (part_records book.now.records book.now.split part)) sink.new) }
{
    for k in part.from..part.to {
        job.emit(alloc, book.record_at(part.split, k), sink)?;
    }
    Ok(())
}
