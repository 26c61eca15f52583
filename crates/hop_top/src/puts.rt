//! Files that are put one after another, and the summary behind them.
ghost use Rattle.hop_top.specs.Faults.{FaultsAnswered};
ghost use Rattle.hop_top.specs.Puts.{HandsOut, files_in};

use crate::outcome::Outcome;
use hop_ports::{Folder, PutFault, SayFault, Sink};
use hop_writer::{NamedFile, put_files};

/// Puts the files in order and then writes the summary.
pub fn hand_out<F: Folder, O: Sink>(
    folder: &mut F,
    out: &mut O,
    files: &[NamedFile],
    summary: &str,
) -> Outcome
    ensures hands { HandsOut (F.seen folder.old) (F.seen folder.new) (O.seen out.old) (O.seen out.new) (files_in files.now) summary.now result }
    ensures answered { FaultsAnswered (F.seen folder.old) (F.seen folder.new) (O.seen out.old) (O.seen out.new) result }
{
    match put_files(folder, files) {
        Ok(()) => match out.write(summary.as_bytes()) {
            Ok(()) => Outcome::Done,
            Err(SayFault::Failed) => Outcome::SayFailed,
            Err(SayFault::NoMemory) => Outcome::NoMemory,
        },
        Err(PutFault::Failed) => Outcome::FolderFailed,
        Err(PutFault::NoMemory) => Outcome::NoMemory,
    }
}
