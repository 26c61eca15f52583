//! The plain words as a command.
ghost use Rattle.std.specs.Prelude.{◌≡◌, ◌≤◌, true, length, Some, None, IfOk, IfSome, IsErrOf, map};
ghost use Rattle.std.specs.Option.{option_map};
ghost use Rattle.hop_jobs.specs.Known.{known_meaning};
ghost use Rattle.hop_words.specs.Options.{HasNames, asked_plainly, chain_asked, command_named, command_of, job_asked, job_named, jobs_named};
ghost use Rattle.hop_words.specs.Names.{is_name};

use crate::fault::WordsFault;
use crate::names::is_name;
use crate::options::Command;
use hop_base::Text;
use hop_jobs::{Jobs, Known, Max, Sum, Top, Wc};
use std::alloc::Global;

/// The least and the greatest number of jobs of a chain.
const MIN_CHAIN: usize = 2;

const MAX_CHAIN: usize = 4;

// The job of this name.
fn job_named(word: &str, k: u32) -> Option<Known>
    requires some { 1 ≤ k }
    requires few { k ≤ 1000 }
    ensures { option_map known_meaning result ≡ job_named k word.now }
{
    if word == "wc" {
        Some(Known::Wc(Wc))
    } else if word == "sum" {
        Some(Known::Sum(Sum))
    } else if word == "max" {
        Some(Known::Max(Max))
    } else if word == "top" {
        Some(Known::Top(Top::new(k)))
    } else {
        None
    }
}

// The command of this name.
fn command_named(word: &str, job: Known, input: Text) -> Option<Command>
    requires { is_name input ≡ true }
    ensures named { option_map command_of result ≡ command_named word.now (known_meaning job) input }
    ensures names { IfSome result HasNames }
{
    if word == "block" {
        Some(Command::Block { job, input })
    } else if word == "run" {
        Some(Command::Run { job, input })
    } else if word == "replay" {
        Some(Command::Replay { job, input })
    } else {
        None
    }
}

// `COMMAND JOB INPUT`.
fn read_job(
    alloc: Global,
    k: u32,
    command: &str,
    job: &str,
    input: &str,
) -> Result<Command, WordsFault>
    requires some_k { 1 ≤ k }
    requires few_k { k ≤ 1000 }
    ensures command { IfOk result (λ found. job_asked k command.now job.now input.now ≡ Some (command_of found)) }
    ensures names { IfOk result HasNames }
    ensures usage { IsErrOf result WordsFault.Usage → job_asked k command.now job.now input.now ≡ None }
{
    if !is_name(input.as_bytes()) {
        return Err(WordsFault::Usage);
    }
    let Some(job) = job_named(job, k) else {
        return Err(WordsFault::Usage);
    };
    let Ok(input) = Text::from_slice(alloc, input.as_bytes()) else {
        return Err(WordsFault::NoMemory);
    };
    match command_named(command, job, input) {
        Some(command) => Ok(command),
        None => Err(WordsFault::Usage),
    }
}

// The jobs of these names, in order.
fn read_jobs(alloc: Global, k: u32, words: &[&str]) -> Result<Jobs, WordsFault>
    requires some_k { 1 ≤ k }
    requires few_k { k ≤ 1000 }
    ensures jobs { IfOk result (λ jobs. jobs_named k (map (λ word. word.now) words.entry.now) ≡ Some (map known_meaning jobs)) }
    ensures count { IfOk result (λ jobs. length jobs ≡ length words.entry.now) }
    ensures usage { IsErrOf result WordsFault.Usage → jobs_named k (map (λ word. word.now) words.entry.now) ≡ None }
{
    let mut jobs = Jobs::new(alloc);
    for word in words {
        let Some(job) = job_named(word, k) else {
            return Err(WordsFault::Usage);
        };
        let Ok(()) = jobs.push(job) else {
            return Err(WordsFault::NoMemory);
        };
    }
    Ok(jobs)
}

// `chain JOB JOB INPUT`, with two to four jobs.
fn read_chain(
    alloc: Global,
    k: u32,
    command: &str,
    jobs: &[&str],
    input: &str,
) -> Result<Command, WordsFault>
    requires some_k { 1 ≤ k }
    requires few_k { k ≤ 1000 }
    requires some { 2 ≤ length jobs.now }
    requires few { length jobs.now ≤ 4 }
    ensures command { IfOk result (λ found. chain_asked k command.now (map (λ word. word.now) jobs.entry.now) input.now ≡ Some (command_of found)) }
    ensures names { IfOk result HasNames }
    ensures usage { IsErrOf result WordsFault.Usage → chain_asked k command.now (map (λ word. word.now) jobs.entry.now) input.now ≡ None }
{
    if command != "chain" || !is_name(input.as_bytes()) {
        return Err(WordsFault::Usage);
    }
    let jobs = match read_jobs(alloc, k, jobs) {
        Ok(jobs) => jobs,
        Err(fault) => return Err(fault),
    };
    let Ok(input) = Text::from_slice(alloc, input.as_bytes()) else {
        return Err(WordsFault::NoMemory);
    };
    Ok(Command::Chain { jobs, input })
}

/// The plain words as a command, by the forms of the commands.
pub fn read_plain(alloc: Global, k: u32, plain: &[&str]) -> Result<Command, WordsFault>
    requires some_k { 1 ≤ k }
    requires few_k { k ≤ 1000 }
    ensures command { IfOk result (λ found. asked_plainly k (map (λ word. word.now) plain.entry.now) ≡ Some (command_of found)) }
    ensures names { IfOk result HasNames }
    ensures usage { IsErrOf result WordsFault.Usage → asked_plainly k (map (λ word. word.now) plain.entry.now) ≡ None }
{
    if plain.len() == 3 {
        return read_job(alloc, k, plain[0], plain[1], plain[2]);
    }
    if plain.len() < MIN_CHAIN + 2 || plain.len() > MAX_CHAIN + 2 {
        return Err(WordsFault::Usage);
    }
    let last = plain.len() - 1;
    read_chain(alloc, k, plain[0], &plain[1..last], plain[last])
}
