//! The command `block`.
ghost use Rattle.std.specs.Prelude.{◌≡◌, ◌<◌, ◌≤◌, true, IfOk, length, string_bytes};
ghost use Rattle.hop_jobs.specs.Known.{known_meaning};
ghost use Rattle.hop_words.specs.Names.{is_name};
ghost use Rattle.hop_words.specs.Options.{AskedOptions, block as asked_block, settings_of};
ghost use Rattle.hop_top.specs.Faults.{FaultsAnswered};
ghost use Rattle.hop_top.specs.Meets.{MeetsOptions};
ghost use Rattle.hop_top.specs.Puts.{files_in, part_files, part_name};
ghost use Rattle.hop_replay.specs.Folders.{Spilling};
ghost use Rattle.hop_top.specs.Work.{block_summary};

use crate::outcome::{File, Outcome, Refusal};
use crate::puts::hand_out;
use crate::reads::read_file;
use hop_base::limits::{MAX_INPUT, MAX_RECORDS};
use hop_base::{NoMemory, Settings, Text, Texts};
use hop_jobs::Known;
use hop_ports::{Folder, Sink};
use hop_records::{Book, BookFault};
use hop_words::file_name;
use hop_writer::NamedFile;
use std::alloc::{AllocError, Global};

/// All records stand in one split, since `block` makes no spills.
const ONE_SPLIT: u32 = MAX_RECORDS;

// What is printed at the end.
fn summary(alloc: Global, records: u32, parts: u8) -> Result<String, AllocError>
    ensures { IfOk result (λ text. string_bytes text ≡ block_summary records parts) }
{
    format!(in alloc; "done records={records} parts={parts}\n")
}

// The name of the part file of partition p.
fn part_name(alloc: Global, p: u8) -> Result<String, AllocError>
    ensures { IfOk result (λ name. string_bytes name ≡ part_name p) }
{
    format!(in alloc; "part-{p}")
}

/// The texts as part files, by partition.
pub(crate) fn part_files(alloc: Global, texts: Texts) -> Result<Vec<NamedFile>, NoMemory>
    requires { length texts ≤ 8 }
    ensures { IfOk result (λ files. files_in files.items ≡ part_files 0 texts) }
{
    let mut files = Vec::new(alloc);
    let mut p: u8 = 0;
    for bytes in texts.into_vec() {
        let name = part_name(alloc, p)?;
        files.push(NamedFile { name, bytes })?;
        p += 1;
    }
    Ok(files)
}

/// The blocking job over the input: a part file for each partition.
pub fn block<F: Folder, O: Sink>(
    alloc: Global,
    job: &Known,
    input: &Text,
    settings: &Settings,
    folder: &mut F,
    out: &mut O,
) -> Outcome
    requires { is_name input.now ≡ true }
    ensures meets { (s : Spilling) (options : AskedOptions) → options.command ≡ asked_block (known_meaning job.now) input.now → options.settings ≡ settings_of settings.now → MeetsOptions (F.seen folder.old) (F.seen folder.new) (O.seen out.old) (O.seen out.new) s options result }
    ensures answered { FaultsAnswered (F.seen folder.old) (F.seen folder.new) (O.seen out.old) (O.seen out.new) result }
{
    let reducers = settings.reducers;
    let bytes = match read_file(folder, File::Input, file_name(input), MAX_INPUT) {
        Ok(bytes) => bytes,
        Err(fault) => return fault,
    };
    let book = match Book::from_vec(alloc, bytes, ONE_SPLIT) {
        Ok(book) => book,
        Err(BookFault::RecordTooLong { index }) => {
            return Outcome::InputRefused(Refusal::RecordTooLong { index });
        }
        Err(BookFault::TooManySplits { .. }) => unreachable!(),
        Err(BookFault::NoMemory) => return Outcome::NoMemory,
    };
    let Ok(texts) = hop_fold::block(alloc, job, &book, reducers) else {
        return Outcome::NoMemory;
    };
    let Ok(files) = part_files(alloc, texts) else {
        return Outcome::NoMemory;
    };
    let Ok(summary) = summary(alloc, book.records(), reducers) else {
        return Outcome::NoMemory;
    };
    hand_out(folder, out, &files, summary.as_str())
}
