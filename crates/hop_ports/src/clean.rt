//! A folder in memory that never fails.
ghost use Rattle.std.specs.Prelude.{◌≡◌};

use crate::files::{FileMap, look_up, store};
use crate::folder::{Folder, GetFault, PutFault};
use hop_base::NoMemory;
use std::alloc::Global;
use std::collections::BTreeMap;

/// A folder in memory that tells what it holds and never fails, but for want of memory. Its counts of
/// faults are always 0.
#[derive(Drop)]
pub struct CleanFolder {
    alloc: Global,
    files: FileMap,
}

impl CleanFolder {
    ghost use Rattle.hop_ports.specs.Clean.{clean_view, nothing_held};

    /// A folder that holds nothing. It takes no memory.
    pub fn new(alloc: Global) -> CleanFolder
        ensures { clean_view result ≡ nothing_held }
    {
        CleanFolder {
            alloc,
            files: BTreeMap::new(alloc),
        }
    }
}

impl Folder for CleanFolder {
    ghost use Rattle.hop_ports.specs.Clean.{clean_view};

    ghost seen = { clean_view };

    fn get(&mut self, name: &str, max: u64) -> Result<Vec<u8>, GetFault> {
        look_up(self.alloc, &self.files, name, max)
    }

    fn put(&mut self, name: &str, bytes: &[u8]) -> Result<(), PutFault> {
        match store(self.alloc, &mut self.files, name, bytes) {
            Ok(()) => Ok(()),
            Err(NoMemory) => Err(PutFault::NoMemory),
        }
    }
}
