//! Files that are put one after another.
ghost use Rattle.std.specs.Prelude.{◌≡◌, IfErr, OnOk, string_bytes};
ghost use Rattle.hop_ports.specs.Causes.{OnlyPut, PutCause};
ghost use Rattle.hop_ports.specs.Views.{with_file};
ghost use Rattle.hop_writer.specs.Puts.{PutsCause, files_in, with_files};

use hop_base::Text;
use hop_ports::{Folder, PutFault};

/// A file to be put.
#[derive(Drop)]
pub struct NamedFile {
    pub name: String,
    pub bytes: Text,
}

// Puts a file.
fn put_file<F: Folder>(folder: &mut F, file: &NamedFile) -> Result<(), PutFault>
    ensures counts { OnlyPut (F.seen folder.old) (F.seen folder.new) }
    ensures no_fault { OnOk result ((F.seen folder.new).puts ≡ (F.seen folder.old).puts) }
    ensures done { OnOk result ((F.seen folder.new).held ≡ with_file (F.seen folder.old).held (string_bytes file.now.name) file.now.bytes) }
    ensures cause { IfErr result (PutCause (F.seen folder.old) (F.seen folder.new) (string_bytes file.now.name) file.now.bytes) }
{
    folder.put(file.name.as_str(), file.bytes.as_slice())
}

/// Puts the files in order, up to the first that fails. That one may be there or not.
pub fn put_files<F: Folder>(folder: &mut F, files: &[NamedFile]) -> Result<(), PutFault>
    ensures counts { OnlyPut (F.seen folder.old) (F.seen folder.new) }
    ensures no_fault { OnOk result ((F.seen folder.new).puts ≡ (F.seen folder.old).puts) }
    ensures done { OnOk result ((F.seen folder.new).held ≡ with_files (F.seen folder.old).held (files_in files.now)) }
    ensures cause { IfErr result (PutsCause (F.seen folder.old) (F.seen folder.new) (files_in files.now)) }
{
    for file in files {
        match put_file(folder, file) {
            Ok(()) => {}
            Err(fault) => return Err(fault),
        }
    }
    Ok(())
}
