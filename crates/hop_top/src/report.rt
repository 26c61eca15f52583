//! What the program says of an outcome.
ghost use Rattle.std.specs.Prelude.{◌≡◌, IfOk, string_bytes};
ghost use Rattle.hop_top.specs.Report.{file_name, report_of, status_of};

use crate::outcome::{File, Outcome, Refusal};
use hop_base::{NoMemory, Text};
use std::alloc::{AllocError, Global};

fn file_name(file: File) -> &'static str
    ensures { result.now ≡ file_name file }
{
    match file {
        File::Input => "input",
        File::Script => "script",
        File::Turns => "turn list",
        File::Trace => "trace",
    }
}

// The line of an outcome, as text.
fn line_of(alloc: Global, outcome: &Outcome) -> Result<String, AllocError>
    ensures { IfOk result (λ line. string_bytes line ≡ report_of outcome.now) }
{
    match outcome {
        Outcome::Done => Ok(String::new(alloc)),
        Outcome::Usage => String::from_str(alloc, "hop: the words are not understood\n"),
        Outcome::InputFailed { file } => {
            let name = file_name(*file);
            format!(in alloc; "hop: cannot read the {name}\n")
        }
        Outcome::InputRefused(Refusal::TooLong { file }) => {
            let name = file_name(*file);
            format!(in alloc; "hop: the {name} is too long\n")
        }
        Outcome::InputRefused(Refusal::RecordTooLong { index }) => {
            format!(in alloc; "hop: record {index} is too long\n")
        }
        Outcome::InputRefused(Refusal::TooManySplits { count }) => {
            format!(in alloc; "hop: {count} splits are too many\n")
        }
        Outcome::InputRefused(Refusal::TooManySpills { count }) => {
            format!(in alloc; "hop: {count} spills are too many\n")
        }
        Outcome::ScriptRefused { file, line } => {
            let name = file_name(*file);
            format!(in alloc; "hop: line {line} of the {name} is not understood\n")
        }
        Outcome::RetriesSpent { split } => {
            format!(in alloc; "hop: split {split} has spent its attempts\n")
        }
        Outcome::FolderFailed => String::from_str(alloc, "hop: the job folder failed\n"),
        Outcome::SpillFailed { worker } => format!(in alloc; "hop: spill folder {worker} failed\n"),
        Outcome::SpillDamaged { worker, .. } => {
            format!(in alloc; "hop: a spill of worker {worker} is damaged\n")
        }
        Outcome::SpillCollides { worker, .. } => {
            format!(in alloc; "hop: a spill of worker {worker} is no spill\n")
        }
        Outcome::SayFailed => String::from_str(alloc, "hop: cannot write the summary\n"),
        Outcome::NoMemory => String::from_str(alloc, "hop: no memory\n"),
    }
}

/// The line that goes to standard error, with its LF; empty where there is none.
pub fn fault_line(alloc: Global, outcome: &Outcome) -> Result<Text, NoMemory>
    ensures { IfOk result (λ line. line ≡ report_of outcome.now) }
{
    let line = line_of(alloc, outcome)?;
    let text = Text::from_slice(alloc, line.as_bytes())?;
    Ok(text)
}

/// The exit status, 0 to 11. It takes no memory.
pub fn status(outcome: &Outcome) -> u8
    ensures { result ≡ status_of outcome.now }
{
    match outcome {
        Outcome::Done => 0,
        Outcome::Usage => 1,
        Outcome::InputFailed { .. } => 2,
        Outcome::InputRefused(_) => 3,
        Outcome::ScriptRefused { .. } => 4,
        Outcome::RetriesSpent { .. } => 5,
        Outcome::FolderFailed => 6,
        Outcome::SpillFailed { .. } => 7,
        Outcome::SpillDamaged { .. } | Outcome::SpillCollides { .. } => 8,
        Outcome::SayFailed => 11,
        Outcome::NoMemory => 9,
    }
}
