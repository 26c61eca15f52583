//! Folders: bytes by name.
ghost use Rattle.std.specs.Prelude.{◌≡◌, ◌≤◌, Some, IfOk, IfErr, OnOk, IfSome, vec_len};
ghost use Rattle.std.specs.FinMap as map;
ghost use Rattle.hop_ports.specs.Views.{FolderView, with_file};
ghost use Rattle.hop_ports.specs.Causes.{OnlyRead, OnlyPut, GetCause, PutCause};

use thiserror::Error;

/// Why a get has no bytes.
#[derive(Clone, Copy, Debug, PartialEq, Eq, Error)]
pub enum GetFault {
    /// Nothing is held under the name. Of a folder that doesn't tell what it holds, it comes only where
    /// the count of faults in gets rose in this call.
    #[error("no such file")]
    Missing,
    /// The file has more bytes than were asked for; of a folder that doesn't tell, as for `Missing`.
    #[error("the file is too long")]
    TooLong,
    /// The folder failed. It comes only where the count of faults in gets rose in this call.
    #[error("the file can't be read")]
    Failed,
    /// No memory was to be had. Nothing changed.
    #[error("no memory")]
    NoMemory,
}

/// Why bytes were not put.
#[derive(Clone, Copy, Debug, PartialEq, Eq, Error)]
pub enum PutFault {
    /// The folder failed. It comes only where the count of faults in puts rose in this call. The name
    /// is as before or as put.
    #[error("the file can't be written")]
    Failed,
    /// No memory was to be had. Nothing changed.
    #[error("no memory")]
    NoMemory,
}

/// Bytes by name. A folder may tell contracts what it holds, as one in memory does, or not, as one on
/// disk. It has a count of faults in gets and one of faults in puts, and says itself which calls raise
/// them: `Failed` always does, and a call that succeeds or finds no memory never, so that a fault has its
/// answer. Neither count falls, and one that stands at 2^64 - 1 counts as risen.
pub trait Folder {
    /// What the folder holds, where it tells it, and its two counts of faults.
    ghost seen: { Self → FolderView };

    /// The bytes under the name, at most `max` of them. A get changes nothing that is held.
    ///
    /// Where the folder tells what it holds, `Missing` comes exactly where the name is absent and
    /// `TooLong` exactly where there are more than `max` bytes; where it doesn't, both come only where
    /// the count rose.
    fn get(&mut self, name: &str, max: u64) -> Result<Vec<u8>, GetFault>
        ensures left { OnlyRead (seen self.old) (seen self.new) }
        ensures no_fault { OnOk result ((seen self.new).gets ≡ (seen self.old).gets) }
        ensures found { IfOk result (λ bytes. IfSome (seen self.old).held (λ files. map.get files name.now ≡ Some bytes.items)) }
        ensures bound { IfOk result (λ bytes. vec_len bytes ≤ max) }
        ensures cause { IfErr result (GetCause (seen self.old) (seen self.new) name.now max) };

    /// Afterwards the name has these bytes, and all else is as before.
    fn put(&mut self, name: &str, bytes: &[u8]) -> Result<(), PutFault>
        ensures counts { OnlyPut (seen self.old) (seen self.new) }
        ensures no_fault { OnOk result ((seen self.new).puts ≡ (seen self.old).puts) }
        ensures done { OnOk result ((seen self.new).held ≡ with_file (seen self.old).held name.now bytes.now) }
        ensures cause { IfErr result (PutCause (seen self.old) (seen self.new) name.now bytes.now) };
}
