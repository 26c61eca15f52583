//! A vault whose folder holds another text than the one that was kept, with the digest that was kept.
ghost use Rattle.std.specs.Prelude.{◌<◌};

use super::Vault;
use crate::kept::{FetchFault, Kept};
use crate::reading::digest_of;
use crate::rows::Rows;
use hop_base::{NoMemory, Part};
use hop_ports::{Folder, GetFault, PutFault};
use std::alloc::Global;
use std::test::Fail;

// The text of split 0, attempt 0, records 1 to 2, with one sheet without pairs.
const OTHER: [u8; 28] = [
    0x48, 0x53, 0x50, 0x31, 0, 0, 0, 0, 0, 0, 0, 0, 0, 0, 0, 1, 0, 0, 0, 2, 0, 0, 0, 1, 0, 0, 0, 0,
];

// A folder that gives that text at each get, and takes none.
#[derive(Drop)]
struct Fixed {
    alloc: Global,
}

impl Folder for Fixed {
    ghost use Rattle.hop_ports.specs.Disk.{untold};

    ghost seen = { λ _. untold 0 0 };

    fn get(&mut self, _name: &str, max: u64) -> Result<Vec<u8>, GetFault> {
        if max < 28 {
            return Err(GetFault::NoMemory);
        }
        match Vec::from_slice(self.alloc, &OTHER) {
            Ok(bytes) => Ok(bytes),
            Err(_) => Err(GetFault::NoMemory),
        }
    }

    fn put(&mut self, _name: &str, _bytes: &[u8]) -> Result<(), PutFault> {
        Err(PutFault::NoMemory)
    }
}

// A vault that takes that text for the one of records 0 to 1.
fn mistaken(alloc: Global) -> Result<Vault<Fixed>, NoMemory> {
    let mut rows = Rows::new(alloc);
    let kept = Kept {
        from: 0,
        to: 1,
        sheets: 1,
        len: 28,
        digest: digest_of(&OTHER),
    };
    rows.add(0, 0, kept)?;
    Ok(Vault {
        alloc,
        folder: Fixed { alloc },
        worker: 0,
        rows,
    })
}

#[test]
fn notices_the_text_of_another_range(rt: HostRuntime) -> Result<(), Fail> {
    let mut vault = mistaken(rt.alloc())?;
    if !vault.has_sheets(0, 0, 0) {
        return Err(Fail::from("a spill has no sheet"));
    }
    let part = Part {
        split: 0,
        attempt: 0,
        from: 0,
        to: 1,
    };
    match vault.fetch(part, 0) {
        Err(FetchFault::Collides { at, place }) => {
            assert_eq!(rt; at, part);
            assert_eq!(rt; place, 12);
        }
        Err(FetchFault::NoMemory) => return Err(Fail::from("no memory")),
        _ => return Err(Fail::from("the text is of another range")),
    }
    Ok(())
}
