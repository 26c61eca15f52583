//! The snapshots of the later jobs of a chain.
ghost use Rattle.std.specs.Prelude.{◌≡◌, ◌≤◌, ◌+◌, ◌++◌, Some, None, All, List, ℕ, IfOk, OnOk, IfSome, length, map, string_bytes};
ghost use Rattle.std.specs.Option.{option_map};
ghost use Rattle.hop_jobs.specs.Known.{known_meaning};
ghost use Rattle.hop_writer.specs.Later.{bodies_at, body_at, later_files, later_header, later_name, stage_files, with_last};
ghost use Rattle.hop_writer.specs.Puts.{files_in};

use crate::files::NamedFile;
use crate::kept::Kept;
use hop_base::{Listed, NoMemory, Text, Texts};
use hop_chain::later;
use hop_jobs::Known;
use hop_laws::Job;
use std::alloc::Global;

// The name of the file of a later job's snapshot.
fn name_of(alloc: Global, j: u8, mark: u16, p: u8) -> Result<String, NoMemory>
    ensures { IfOk result (λ name. string_bytes name ≡ later_name j mark p) }
{
    let name = format!(in alloc; "j{j}-snap-{mark}-{p}")?;
    Ok(name)
}

// The header of a later job's snapshot.
fn header_of(
    alloc: Global,
    j: u8,
    name: &[u8],
    mark: u16,
    p: u8,
    r: u8,
) -> Result<Vec<u8>, NoMemory>
    ensures { IfOk result (λ text. text.items ≡ later_header j name.now mark p r) }
{
    let first = format!(in alloc; "hop-chain-snapshot 1\nstage {j}\njob ")?;
    let last = format!(in alloc; "\nmark {mark}\nreducer {p} of {r}\n--\n")?;
    let mut text = Vec::new(alloc);
    text.extend_from_slice(first.as_bytes())?;
    text.extend_from_slice(name)?;
    text.extend_from_slice(last.as_bytes())?;
    Ok(text)
}

// The file of a later job's snapshot.
fn later_file(
    alloc: Global,
    j: u8,
    name: &[u8],
    mark: u16,
    p: u8,
    r: u8,
    body: &[u8],
) -> Result<NamedFile, NoMemory>
    ensures name { IfOk result (λ file. string_bytes file.name ≡ later_name j mark p) }
    ensures bytes { IfOk result (λ file. file.bytes ≡ later_header j name.now mark p r ++ body.now) }
{
    let file = name_of(alloc, j, mark, p)?;
    let mut text = header_of(alloc, j, name, mark, p, r)?;
    text.extend_from_slice(body)?;
    Ok(NamedFile {
        name: file,
        bytes: Listed::from_vec(text),
    })
}

// A file more for each body of job j, from partition p on.
fn stage_files(
    alloc: Global,
    j: u8,
    name: &[u8],
    mark: u16,
    r: u8,
    p: u8,
    bodies: &[Text],
    files: &mut Vec<NamedFile>,
) -> Result<(), NoMemory>
    requires few { p + length bodies.now ≤ 255 }
    ensures { OnOk result (files_in files.new.items ≡ files_in files.old.items ++ stage_files j name.now mark r p bodies.now) }
{
    let [body, others @ ..] = bodies else {
        return Ok(());
    };
    let file = later_file(alloc, j, name, mark, p, r, body.as_slice())?;
    files.push(file)?;
    stage_files(alloc, j, name, mark, r, p + 1, others, files)
}

// A file more for each text of each job, from job j on.
fn later_files(
    alloc: Global,
    j: u8,
    jobs: &[Known],
    mark: u16,
    r: u8,
    all: &[Texts],
    files: &mut Vec<NamedFile>,
) -> Result<(), NoMemory>
    requires few { j + length jobs.now ≤ 255 }
    requires parts { All (λ (texts : List (List ℕ)). length texts ≤ 255) all.now }
    ensures { OnOk result (files_in files.new.items ≡ files_in files.old.items ++ later_files j (map known_meaning jobs.now) mark r all.now) }
{
    let [job, other_jobs @ ..] = jobs else {
        return Ok(());
    };
    let [texts, others @ ..] = all else {
        return Ok(());
    };
    let name = job.name(alloc)?;
    stage_files(
        alloc,
        j,
        name.as_slice(),
        mark,
        r,
        0,
        texts.as_slice(),
        files,
    )?;
    later_files(alloc, j + 1, other_jobs, mark, r, others, files)
}

// The body of the snapshot of reducer p at this mark, where it was put.
fn body_at<'a>(kept: &'a [Kept], mark: u16, p: u8) -> Option<&'a Text>
    ensures { option_map (λ body. body.now) result ≡ body_at kept.entry.now mark p }
{
    match kept {
        [] => None,
        [first, others @ ..] => {
            if first.mark == mark && first.reducer == p {
                Some(&first.body)
            } else {
                body_at(others, mark, p)
            }
        }
    }
}

// The bodies of the r reducers' snapshots at this mark, in order; None where one wasn't put yet.
fn bodies_at(alloc: Global, kept: &[Kept], mark: u16, r: u8) -> Result<Option<Texts>, NoMemory>
    ensures { IfOk result (λ bodies. bodies ≡ bodies_at kept.now mark r) }
{
    let mut bodies = Listed::new(alloc);
    for p in 0..r {
        match body_at(kept, mark, p) {
            Some(body) => {
                let body = Text::from_slice(alloc, body.as_slice())?;
                bodies.push(body)?;
            }
            None => return Ok(None),
        }
    }
    Ok(Some(bodies))
}

/// The files of the later jobs that are put with the last of the `r` snapshots of a mark, behind those that are there. None come with any other snapshot. At most three later jobs, and 1 to 8 reducers.
pub(crate) fn add_later(
    alloc: Global,
    jobs: &[Known],
    kept: &[Kept],
    mark: u16,
    r: u8,
    files: &mut Vec<NamedFile>,
) -> Result<(), NoMemory>
    requires few { length jobs.now ≤ 3 }
    requires some { 1 ≤ r }
    requires most { r ≤ 8 }
    ensures { OnOk result (files_in files.new.items ≡ files_in files.old.items ++ with_last (map known_meaning jobs.now) r kept.now mark) }
{
    if jobs.is_empty() {
        return Ok(());
    }
    match bodies_at(alloc, kept, mark, r)? {
        None => Ok(()),
        Some(bodies) => {
            let all = later(alloc, jobs, &bodies, r)?;
            later_files(alloc, 2, jobs, mark, r, &all, files)
        }
    }
}
