//! The blocking job over a book, and over the texts of another job.
ghost use Rattle.std.specs.Prelude.{◌≡◌, ◌≤◌, length, All, IfOk};
ghost use Rattle.std.specs.List.{concat};
ghost use Rattle.hop_laws.specs.Blocking.{blocking_texts};
ghost use Rattle.hop_records.specs.Records.{records_of};
ghost use Rattle.hop_fold.specs.Within.{records_within};

use crate::lines::{first_line, joined};
use crate::lists::{Lists, reduce_all};
use hop_base::limits::MAX_LATER_RECORD;
use hop_base::{NoMemory, Texts};
use hop_laws::Job;
use hop_records::Book;
use std::alloc::Global;

// Bytes of a line that a lawful job writes over an input, at most: 21 more than a record of an input has.
const MAX_JOB_LINE: usize = 65_556;

/// The blocking job's text of each of `r` partitions, 1 to 8, over the records of a book: what the
/// programming model of MapReduce (OSDI 2004) gives, with the keys of a partition in ascending order.
/// It keeps about as many pairs as combine leaves of them; some 16,384 in all partitions together are
/// kept before any are combined.
pub fn block<J: Job>(alloc: Global, job: &J, book: &Book, r: u8) -> Result<Texts, NoMemory>
    requires some { 1 ≤ r }
    requires few { r ≤ 8 }
    ensures { IfOk result (λ texts. texts ≡ blocking_texts (J.meaning job.now) book.now.records r) }
{
    let mut lists = Lists::new(alloc, job, r)?;
    for k in 0..book.records() {
        job.emit(alloc, book.record(k), &mut lists)?;
    }
    let texts = reduce_all(alloc, job, lists.lists)?;
    Ok(texts)
}

/// The same over the records of the texts joined in their order, as of a job before it in a chain, for
/// 1 to 8 partitions. No record there has more than 131,050 bytes.
pub fn block_lines<J: Job>(alloc: Global, job: &J, texts: &Texts, r: u8) -> Result<Texts, NoMemory>
    requires some { 1 ≤ r }
    requires few { r ≤ 8 }
    requires short { All (λ line. length line ≤ 131050) (records_of (concat texts.now)) }
    ensures { IfOk result (λ out. out ≡ blocking_texts (J.meaning job.now) (records_of (concat texts.now)) r) }
{
    let out = block_within(alloc, job, texts, MAX_LATER_RECORD, r)?;
    Ok(out)
}

/// The same over those records of the joined texts that have at most 65,556 bytes, which is as long as a
/// lawful job's lines over an input can be. Longer ones are left out, so any texts can be read.
pub fn block_short_lines<J: Job>(
    alloc: Global,
    job: &J,
    texts: &Texts,
    r: u8,
) -> Result<Texts, NoMemory>
    requires some { 1 ≤ r }
    requires few { r ≤ 8 }
    ensures { IfOk result (λ out. out ≡ blocking_texts (J.meaning job.now) (records_within 65556 texts.now) r) }
{
    block_within(alloc, job, texts, MAX_JOB_LINE, r)
}

// The blocking job over those records of the joined texts that have at most `most` bytes, for 1 to 8
// partitions.
fn block_within<J: Job>(
    alloc: Global,
    job: &J,
    texts: &Texts,
    most: usize,
    r: u8,
) -> Result<Texts, NoMemory>
    requires some { 1 ≤ r }
    requires few { r ≤ 8 }
    requires readable { most ≤ 131050 }
    ensures { IfOk result (λ out. out ≡ blocking_texts (J.meaning job.now) (records_within most texts.now) r) }
{
    let bytes = joined(alloc, texts)?;
    let mut lists = Lists::new(alloc, job, r)?;
    let mut rest = bytes.as_slice();
    while !rest.is_empty() {
        let (line, later) = first_line(rest);
        if line.len() <= most {
            job.emit(alloc, line, &mut lists)?;
        }
        rest = later;
    }
    let out = reduce_all(alloc, job, lists.lists)?;
    Ok(out)
}
