//! How a run ends: what it puts and prints, or why it stopped.
ghost use Rattle.std.specs.Prelude.{◌≡◌, ◌≤◌, ◌+◌, ◌*◌, ◌++◌, ◌∷◌, ℕ, List, All, IfOk, OnOk, codes, length, map, sum, string_bytes};
ghost use Rattle.hop_chain.specs.Chain.{chained_texts};
ghost use Rattle.hop_jobs.specs.Known.{known_meaning};
ghost use Rattle.hop_laws.specs.Laws.{IsName};
ghost use Rattle.hop_trace.specs.Told.{IsTold};
ghost use Rattle.hop_trace.specs.Totals.{kept_in_all};
ghost use Rattle.hop_trace.specs.Trace.{in_order, trace_of};
ghost use Rattle.hop_trace.specs.declared.totals.Way.TheVariants.{Pulled, Settled};
ghost use Rattle.hop_top.specs.Puts.{file_of, files_in, part_files};
ghost use Rattle.hop_top.specs.Runs.{jobs_words, later_parts, numbers_text, stage_name, stage_parts, summary_text, trace_name};
ghost use Rattle.hop_top.specs.Stops.{outcome_of};

use crate::block::part_files;
use crate::outcome::Outcome;
use hop_actors::Fault;
use hop_base::{Blob, NoMemory, Text, Texts};
use hop_chain::later;
use hop_event::History;
use hop_jobs::Known;
use hop_trace::{Way, attempts_in_all, kept_in_all, trace_text};
use hop_writer::NamedFile;
use std::alloc::{AllocError, Global};

/// How a call ends where a run stopped so.
pub fn outcome_of(fault: Fault) -> Outcome
    ensures { result ≡ outcome_of fault }
{
    match fault {
        Fault::SpentAt { split } => Outcome::RetriesSpent { split },
        Fault::FolderFailed => Outcome::FolderFailed,
        Fault::SpillFailed { worker } => Outcome::SpillFailed { worker },
        Fault::SpillDamaged {
            worker,
            at,
            kept,
            found,
        } => Outcome::SpillDamaged {
            worker,
            at,
            kept,
            found,
        },
        Fault::SpillCollides { worker, at, place } => Outcome::SpillCollides { worker, at, place },
        Fault::NoMemory => Outcome::NoMemory,
    }
}

// The trace of a run as a file.
fn trace_file(
    alloc: Global,
    name: &Blob,
    begun: &[u8],
    histories: &[History],
) -> Result<NamedFile, NoMemory>
    ensures file { IfOk result (λ file. file_of file ≡ (trace_name, trace_of name.now begun.now (in_order histories.now))) }
    ensures told { IfOk result (λ file. IsName name.now → IsTold name.now begun.now (in_order histories.now)) }
{
    let bytes = trace_text(alloc, name, begun, histories)?;
    let name = String::from_str(alloc, "trace")?;
    Ok(NamedFile { name, bytes })
}

// The name of the part file of partition p of job j of a chain.
fn stage_name(alloc: Global, j: u8, p: u8) -> Result<String, AllocError>
    ensures { IfOk result (λ name. string_bytes name ≡ stage_name j p) }
{
    format!(in alloc; "j{j}-part-{p}")
}

// A part file more for each text of job j, counted from p.
fn stage_parts(
    alloc: Global,
    j: u8,
    p: u8,
    texts: &[Text],
    files: &mut Vec<NamedFile>,
) -> Result<(), NoMemory>
    requires few { p + length texts.now ≤ 255 }
    ensures { OnOk result (files_in files.new.items ≡ files_in files.old.items ++ stage_parts j p texts.now) }
{
    let [text, others @ ..] = texts else {
        return Ok(());
    };
    let name = stage_name(alloc, j, p)?;
    let bytes = text.copy()?;
    files.push(NamedFile { name, bytes })?;
    stage_parts(alloc, j, p + 1, others, files)
}

// The part files of all jobs of a chain from job j on, behind those that are there.
fn later_parts(
    alloc: Global,
    j: u8,
    all: &[Texts],
    files: &mut Vec<NamedFile>,
) -> Result<(), NoMemory>
    requires few { j + length all.now ≤ 255 }
    requires parts { All (λ (texts : List (List ℕ)). length texts ≤ 255) all.now }
    ensures { OnOk result (files_in files.new.items ≡ files_in files.old.items ++ later_parts j all.now) }
{
    let [texts, others @ ..] = all else {
        return Ok(());
    };
    stage_parts(alloc, j, 0, texts.as_slice(), files)?;
    later_parts(alloc, j + 1, others, files)
}

/// The files of a run that came to its end: a part file for each text, the trace, and in a chain the part files of its later jobs, at most three, each over the parts of the job before it. `r` is the number of
/// partitions, 1 to 8.
pub fn run_files(
    alloc: Global,
    name: &Blob,
    begun: &[u8],
    histories: &[History],
    texts: Texts,
    jobs: &[Known],
    r: u8,
) -> Result<Vec<NamedFile>, NoMemory>
    requires few { length texts ≤ 8 }
    requires jobs { length jobs.now ≤ 3 }
    requires some { 1 ≤ r }
    requires most { r ≤ 8 }
    ensures files { IfOk result (λ files. files_in files.items ≡ part_files 0 texts ++ (trace_name, trace_of name.now begun.now (in_order histories.now)) ∷ later_parts 2 (chained_texts (map known_meaning jobs.now) texts r)) }
    ensures told { IfOk result (λ files. IsName name.now → IsTold name.now begun.now (in_order histories.now)) }
{
    let trace = trace_file(alloc, name, begun, histories)?;
    let all = later(alloc, jobs, &texts, r)?;
    let mut files = part_files(alloc, texts)?;
    files.push(trace)?;
    later_parts(alloc, 2, &all, &mut files)?;
    Ok(files)
}

// In a chain, what its summary says of its jobs.
fn jobs_words(alloc: Global, jobs: &[Known]) -> Result<String, AllocError>
    requires { length jobs.now ≤ 3 }
    ensures { IfOk result (λ text. string_bytes text ≡ jobs_words (map known_meaning jobs.now)) }
{
    if jobs.is_empty() {
        return Ok(String::new(alloc));
    }
    let count = jobs.len() + 1;
    format!(in alloc; " jobs={count}")
}

// These numbers as they are printed.
fn summary_numbers(
    alloc: Global,
    records: u32,
    splits: u32,
    parts: u8,
    snapshots: u32,
    attempts: u64,
    pulled: u64,
    settled: u64,
) -> Result<String, AllocError>
    ensures { IfOk result (λ text. string_bytes text ≡ numbers_text records splits parts snapshots attempts pulled settled) }
{
    format!(in alloc;
        "done records={records} splits={splits} parts={parts} snapshots={snapshots} attempts={attempts} pulled={pulled} settled={settled}"
    )
}

// These numbers, and what is said of the jobs, as one line.
fn summary_line(alloc: Global, numbers: &str, jobs: &str) -> Result<String, AllocError>
    ensures { IfOk result (λ text. string_bytes text ≡ numbers.now ++ (jobs.now ++ codes "\n")) }
{
    format!(in alloc; "{numbers}{jobs}\n")
}

/// What is printed at the end of a run of at most 1,024 splits, 8 reducers and 16 marks, with at most three later jobs.
pub fn run_summary(
    alloc: Global,
    records: u32,
    splits: u32,
    parts: u8,
    marks: u32,
    begun: &[u8],
    histories: &[History],
    jobs: &[Known],
) -> Result<String, AllocError>
    requires splits { length begun.now ≤ 1024 }
    requires reducers { length histories.now ≤ 8 }
    requires parts { parts ≤ 8 }
    requires marks { marks ≤ 16 }
    requires jobs { length jobs.now ≤ 3 }
    ensures { IfOk result (λ text. string_bytes text ≡ summary_text records splits parts (parts * marks) (sum begun.now) (kept_in_all Pulled (in_order histories.now)) (kept_in_all Settled (in_order histories.now)) (jobs_words (map known_meaning jobs.now))) }
{
    let words = jobs_words(alloc, jobs)?;
    let attempts = attempts_in_all(begun);
    let pulled = kept_in_all(Way::Pulled, histories);
    let settled = kept_in_all(Way::Settled, histories);
    let numbers = summary_numbers(
        alloc,
        records,
        splits,
        parts,
        parts as u32 * marks,
        attempts,
        pulled,
        settled,
    )?;
    summary_line(alloc, numbers.as_str(), words.as_str())
}
