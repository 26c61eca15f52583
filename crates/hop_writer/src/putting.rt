//! The files of a cut.
ghost use Rattle.std.specs.Prelude.{◌≡◌, ◌≤◌, IfOk, IfErr, OnOk, OnErr, length, map, string_bytes};
ghost use Rattle.hop_cut.specs.Covered.{header_of, text_with};
ghost use Rattle.hop_cut.specs.Snapshot.{header_lines, text_of};
ghost use Rattle.hop_jobs.specs.Known.{known_meaning};
ghost use Rattle.hop_records.specs.Records.{lens_of};
ghost use Rattle.hop_shelf.specs.Names.{book_of};
ghost use Rattle.hop_inner.specs.Messages.{said_cut, CutFitsAt};
ghost use Rattle.hop_actors.specs.Counting.{WriterCause};
ghost use Rattle.hop_writer.specs.Puts.{files_in};
ghost use Rattle.hop_writer.specs.Snapshots.{IsWhole, kept_of, snap_name};
ghost use Rattle.hop_writer.specs.Writers.{LeavesCut, MakesFiles, PutsCut, counts_of, snapshot_made};

use crate::chain_name::ChainName;
use crate::files::{NamedFile, put_files};
use crate::kept::Kept;
use crate::later::add_later;
use hop_actors::Fault;
use hop_base::{Lens, Listed, NoMemory, RunName, Text};
use hop_cut::{Cut, cut_text};
use hop_jobs::Known;
use hop_laws::Job;
use hop_ports::{Folder, PutFault};
use std::alloc::Global;

// The name of the file of a snapshot.
fn name_of(alloc: Global, mark: u16, p: u8) -> Result<String, NoMemory>
    ensures { IfOk result (λ name. string_bytes name ≡ snap_name mark p) }
{
    let name = format!(in alloc; "snap-{mark}-{p}")?;
    Ok(name)
}

// How long the header of the cut's snapshot is, in bytes: it is the whole snapshot of the same cut without runs.
fn header_size<J: Job>(
    alloc: Global,
    job: &J,
    p: u8,
    r: u8,
    lens: &Lens,
    cut: &Cut,
) -> Result<usize, NoMemory>
    requires { length cut.now.declared ≡ length lens.now }
    ensures { IfOk result (λ size. size ≡ length (text_of (header_lines (header_of (J.meaning job.now).name cut.now.mark p r cut.now.progress lens.now cut.now.declared)))) }
{
    let declared = Vec::from_slice(alloc, cut.declared.as_slice())?;
    let bare = Cut {
        mark: cut.mark,
        progress: cut.progress,
        declared: Listed::from_vec(declared),
        runs: Listed::new(alloc),
    };
    let header = cut_text(alloc, job, p, r, lens, &bare)?;
    Ok(header.as_slice().len())
}

// What the later jobs take of the snapshot with this text.
fn kept_of<J: Job>(
    alloc: Global,
    job: &J,
    p: u8,
    r: u8,
    lens: &Lens,
    cut: &Cut,
    text: &[u8],
) -> Result<Kept, NoMemory>
    requires each { length cut.now.declared ≡ length lens.now }
    requires text { text.now ≡ text_with (header_of (J.meaning job.now).name cut.now.mark p r cut.now.progress lens.now cut.now.declared) (snapshot_made (J.meaning job.now) p r lens.now cut.now).body }
    ensures { IfOk result (λ kept. kept ≡ kept_of (snapshot_made (J.meaning job.now) p r lens.now cut.now)) }
{
    let from = header_size(alloc, job, p, r, lens, cut)?;
    let body = Text::from_slice(alloc, &text[from..])?;
    Ok(Kept {
        mark: cut.mark,
        reducer: p,
        body,
    })
}

// The files of a cut: its snapshot's, and with the last snapshot of a mark those of the later jobs. What the later jobs take of the snapshot is kept.
fn cut_files<N: RunName, C: ChainName, J: Job>(
    alloc: Global,
    job: &J,
    later: &[Known],
    kept: &mut Vec<Kept>,
    p: u8,
    r: u8,
    lens: &Lens,
    cut: &Cut,
) -> Result<Vec<NamedFile>, NoMemory>
    requires job { J.meaning job.now ≡ N.job }
    requires later { map known_meaning later.now ≡ C.later }
    requires few { length later.now ≤ 3 }
    requires lens { lens.now ≡ lens_of (book_of N.records N.settings) }
    requires reducers { r ≡ N.settings.reducers }
    requires some { 1 ≤ r }
    requires most { r ≤ 8 }
    requires whole { IsWhole lens.now (said_cut cut.now) }
    requires fits { CutFitsAt N.job N.records N.settings N.tells p cut.now }
    ensures { IfOk result (λ files. MakesFiles N.job N.records N.settings C.later N.tells p (said_cut cut.now) kept.old.items kept.new.items (files_in files.items)) }
{
    let text = cut_text(alloc, job, p, r, lens, cut)?;
    let name = name_of(alloc, cut.mark, p)?;
    if !later.is_empty() {
        kept.push(kept_of(alloc, job, p, r, lens, cut, text.as_slice())?)?;
    }
    let mut files = Vec::new(alloc);
    files.push(NamedFile { name, bytes: text })?;
    add_later(alloc, later, kept, cut.mark, r, &mut files)?;
    Ok(files)
}

// The files of the cut are made, and then put in order.
pub(crate) fn put_cut<N: RunName, C: ChainName, F: Folder, J: Job>(
    alloc: Global,
    folder: &mut F,
    job: &J,
    later: &[Known],
    kept: &mut Vec<Kept>,
    p: u8,
    r: u8,
    lens: &Lens,
    cut: &Cut,
) -> Result<(), Fault>
    requires job { J.meaning job.now ≡ N.job }
    requires later { map known_meaning later.now ≡ C.later }
    requires few { length later.now ≤ 3 }
    requires lens { lens.now ≡ lens_of (book_of N.records N.settings) }
    requires reducers { r ≡ N.settings.reducers }
    requires some { 1 ≤ r }
    requires most { r ≤ 8 }
    requires whole { IsWhole lens.now (said_cut cut.now) }
    requires fits { CutFitsAt N.job N.records N.settings N.tells p cut.now }
    ensures put { OnOk result (PutsCut N.job N.records N.settings C.later N.tells p (said_cut cut.now) kept.old.items kept.new.items (F.seen folder.old).held (F.seen folder.new).held) }
    ensures left { OnErr result (LeavesCut N.job N.records N.settings C.later N.tells p (said_cut cut.now) kept.old.items (F.seen folder.old).held (F.seen folder.new).held) }
    ensures answered { OnOk result (counts_of (F.seen folder.new) ≡ counts_of (F.seen folder.old)) }
    ensures cause { IfErr result (WriterCause (counts_of (F.seen folder.old)) (counts_of (F.seen folder.new))) }
{
    let Ok(files) = cut_files::<N, C, J>(alloc, job, later, kept, p, r, lens, cut) else {
        return Err(Fault::NoMemory);
    };
    match put_files(folder, &files) {
        Ok(()) => Ok(()),
        Err(PutFault::Failed) => Err(Fault::FolderFailed),
        Err(PutFault::NoMemory) => Err(Fault::NoMemory),
    }
}
