//! A folder on disk.
ghost use Rattle.std.specs.Prelude.{◌≡◌, ◌≤◌, IfOk, IfErr, OnOk, length, vec_len};
ghost use Rattle.hop_ports.specs.Causes.{OnlyRead, OnlyPut, GetCause, PutCause};

use crate::count::raised;
use crate::folder::{Folder, GetFault, PutFault};
use hop_base::NoMemory;
use std::alloc::Global;
use std::fs::OpenFile;
use std::io::{ErrorKind, Read, Write};
use std::rt::Files;
use std::{fs, io};

/// The most bytes that are read at once.
const PIECE: u64 = 65_536;

/// The least size of the buffer, also where the system gives no size of the file, as of a pipe.
const LEAST_PIECE: u64 = 4_096;

/// A directory of the file system. It doesn't tell contracts what it holds: what the file system does
/// is trusted.
///
/// Each get that failed, was missing or too long raises the first count, each put that failed the
/// second. The directory is made at the first put where it is absent, and not before. A put writes a
/// file `.hop-NAME` beside and renames it; where that fails, the file beside is removed if it can be.
#[derive(Drop)]
pub struct DiskFolder<R: Files + AllocGlobal + Drop> {
    rt: R,
    path: String,
    pub(crate) gets: u64,
    pub(crate) puts: u64,
}

impl<R: Files + AllocGlobal + Drop> DiskFolder<R> {
    ghost use Rattle.hop_ports.specs.Disk.{untold, disk_view};

    /// The directory at this path, with no faults yet. Nothing is looked at.
    pub fn new(rt: R, path: &str) -> Result<DiskFolder<R>, NoMemory>
        ensures { IfOk result (λ folder. disk_view folder ≡ untold 0 0) }
    {
        let path = String::from_str(rt.alloc(), path)?;
        Ok(DiskFolder {
            rt,
            path,
            gets: 0,
            puts: 0,
        })
    }

    // The bytes under a name.
    fn read(&self, name: &str, max: u64) -> Result<Vec<u8>, GetFault>
        ensures { IfOk result (λ bytes. vec_len bytes ≤ max) }
    {
        let alloc = self.rt.alloc();
        let directory = self.path.as_str();
        let Ok(path) = format!(in alloc; "{directory}/{name}") else {
            return Err(GetFault::NoMemory);
        };
        match fs::open(&self.rt, path.as_str()) {
            Ok(mut file) => {
                let expected = file.metadata().map_or(0, |about| about.len());
                read_at_most(alloc, &mut file, expected, max)
            }
            Err(error) => Err(open_fault(error)),
        }
    }

    // Writes a file beside and renames it.
    fn replace(&self, name: &str, bytes: &[u8]) -> Result<(), PutFault> {
        let alloc = self.rt.alloc();
        let directory = self.path.as_str();
        let Ok(path) = format!(in alloc; "{directory}/{name}") else {
            return Err(PutFault::NoMemory);
        };
        let Ok(beside) = format!(in alloc; "{directory}/.hop-{name}") else {
            return Err(PutFault::NoMemory);
        };
        match self.write_by_way_of(beside.as_str(), path.as_str(), bytes) {
            Ok(()) => Ok(()),
            Err(_) => Err(PutFault::Failed),
        }
    }

    // Writes a file that wasn't there. What an earlier call left under its name goes first, so that nothing is
    // written through a link.
    fn write_anew(&self, path: &str, bytes: &[u8]) -> io::Result<()> {
        let _ = fs::remove_file(&self.rt, path);
        let mut file = fs::File::create_new(&self.rt, path)?;
        file.write_all(bytes)
    }

    // Makes the directory where it is absent, writes the file beside, and renames it.
    fn write_by_way_of(&self, beside: &str, path: &str, bytes: &[u8]) -> io::Result<()> {
        if !fs::exists(&self.rt, self.path.as_str())? {
            fs::create_dir(&self.rt, self.path.as_str())?;
        }
        let written = match self.write_anew(beside, bytes) {
            Ok(()) => fs::rename(&self.rt, beside, path),
            Err(error) => Err(error),
        };
        if written.is_err() {
            // The answer is a fault already, whether or not this succeeds.
            let _ = fs::remove_file(&self.rt, beside);
        }
        written
    }
}

// Why a file was not opened.
fn open_fault(error: io::Error) -> GetFault {
    match error.kind() {
        ErrorKind::NotFound => GetFault::Missing,
        _ => GetFault::Failed,
    }
}

// Some bytes of a reader, at most as many as the buffer has.
fn read_piece<F: Read>(reader: &mut F, buffer: &mut [u8]) -> Result<usize, GetFault>
    ensures { IfOk result (λ count. count ≤ length buffer.new) }
{
    for _ in 0..u64::MAX {
        match reader.read(buffer) {
            Ok(count) => return Ok(count),
            Err(error) => {
                if error.kind() != ErrorKind::Interrupted {
                    return Err(GetFault::Failed);
                }
            }
        }
    }
    Err(GetFault::Failed)
}

// All bytes of a reader, if they are at most `max`. About `expected` of them are expected.
fn read_at_most<F: Read>(
    alloc: Global,
    reader: &mut F,
    expected: u64,
    max: u64,
) -> Result<Vec<u8>, GetFault>
    ensures { IfOk result (λ bytes. vec_len bytes ≤ max) }
{
    let Ok(mut bytes) = Vec::with_capacity(alloc, expected.min(max) as usize) else {
        return Err(GetFault::NoMemory);
    };
    // One byte more than expected shows the end of the file without a further piece.
    let size = expected.min(max).min(PIECE - 1).max(LEAST_PIECE - 1) as usize + 1;
    let Ok(mut buffer) = vec![in alloc; 0u8; size] else {
        return Err(GetFault::NoMemory);
    };
    for _ in 0..u64::MAX {
        let count = read_piece(reader, &mut buffer)?;
        if count == 0 {
            return Ok(bytes);
        }
        if count as u64 > max - bytes.len() as u64 {
            return Err(GetFault::TooLong);
        }
        if bytes.extend_from_slice(&buffer[..count]).is_err() {
            return Err(GetFault::NoMemory);
        }
    }
    Err(GetFault::Failed)
}

impl<R: Files + AllocGlobal + Drop> Folder for DiskFolder<R> {
    ghost use Rattle.hop_ports.specs.Disk.{disk_view, GetCounted, PutCounted};

    ghost seen = { disk_view };

    fn get(&mut self, name: &str, max: u64) -> Result<Vec<u8>, GetFault>
        ensures left { OnlyRead (disk_view self.old) (disk_view self.new) }
        ensures no_fault { OnOk result ((disk_view self.new).gets ≡ (disk_view self.old).gets) }
        ensures bound { IfOk result (λ bytes. vec_len bytes ≤ max) }
        ensures cause { IfErr result (GetCause (disk_view self.old) (disk_view self.new) name.now max) }
        ensures counted { GetCounted (disk_view self.old).gets result (disk_view self.new).gets }
    {
        match self.read(name, max) {
            Ok(bytes) => Ok(bytes),
            Err(GetFault::NoMemory) => Err(GetFault::NoMemory),
            Err(fault) => {
                self.gets = raised(self.gets);
                Err(fault)
            }
        }
    }

    fn put(&mut self, name: &str, bytes: &[u8]) -> Result<(), PutFault>
        ensures counts { OnlyPut (disk_view self.old) (disk_view self.new) }
        ensures no_fault { OnOk result ((disk_view self.new).puts ≡ (disk_view self.old).puts) }
        ensures cause { IfErr result (PutCause (disk_view self.old) (disk_view self.new) name.now bytes.now) }
        ensures counted { PutCounted (disk_view self.old).puts result (disk_view self.new).puts }
    {
        match self.replace(name, bytes) {
            Ok(()) => Ok(()),
            Err(PutFault::NoMemory) => Err(PutFault::NoMemory),
            Err(PutFault::Failed) => {
                self.puts = raised(self.puts);
                Err(PutFault::Failed)
            }
        }
    }
}
