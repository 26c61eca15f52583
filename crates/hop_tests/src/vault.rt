//! Spills that are kept and fetched, over folders that work, fail and alter what they hold.

use hop_base::Part;
use hop_ports::{CleanFolder, Folder, GetFault, MemFolder, PutFault};
use hop_spill::decode;
use hop_vault::{FetchFault, KeepFault, Vault};
use std::alloc::Global;
use std::test::Fail;

// The text of split 0, attempt 0, records 0 to 1, with one sheet of one pair: `a`, 1.
const FIRST: [u8; 45] = [
    0x48, 0x53, 0x50, 0x31, 0, 0, 0, 0, 0, 0, 0, 0, 0, 0, 0, 0, 0, 0, 0, 1, 0, 0, 0, 1, 0, 0, 0, 1,
    0, 0, 0, 1, 0x61, 0, 0, 0, 0, 0, 0, 0, 1, 0, 0, 0, 0,
];

// The same of records 1 to 2, with the key `b`.
const SECOND: [u8; 45] = [
    0x48, 0x53, 0x50, 0x31, 0, 0, 0, 0, 0, 0, 0, 0, 0, 0, 0, 1, 0, 0, 0, 2, 0, 0, 0, 1, 0, 0, 0, 1,
    0, 0, 0, 1, 0x62, 0, 0, 0, 0, 0, 0, 0, 1, 0, 0, 0, 0,
];

// The SHA-256 of the first text, and of it with the number 2.
const KEPT: [u8; 32] = [
    0xb8, 0x93, 0x41, 0x3a, 0xe4, 0xd8, 0x62, 0xe9, 0x3b, 0x83, 0x0e, 0x5f, 0x41, 0x7c, 0x6c, 0x13,
    0x54, 0x9f, 0xd6, 0x83, 0xdc, 0xd7, 0x96, 0xb0, 0x61, 0x37, 0xdf, 0x05, 0xb0, 0x11, 0x1d, 0xfa,
];

const FOUND: [u8; 32] = [
    0x60, 0x13, 0xf2, 0xb1, 0x57, 0x6c, 0x9d, 0xcb, 0x0c, 0x8d, 0xa2, 0xab, 0xa9, 0xbb, 0x36, 0x58,
    0x4e, 0x8f, 0xac, 0xf4, 0x03, 0x00, 0x76, 0x44, 0x5a, 0x2d, 0x51, 0x04, 0x99, 0x70, 0x3b, 0x1d,
];

// Keeps the spill of a text, which is the next of its attempt.
fn keep<V: Folder>(alloc: Global, vault: &mut Vault<V>, text: &[u8]) -> Result<bool, Fail> {
    let spill = decode(alloc, text)?;
    if spill.from != vault.kept(spill.split, spill.attempt) {
        return Err(Fail::from("the spill is not the next"));
    }
    match vault.keep(&spill) {
        Ok(()) => Ok(true),
        Err(KeepFault::StoreFailed) => Ok(false),
        Err(KeepFault::NoMemory) => Err(Fail::from("no memory")),
    }
}

// What a fetch of the first attempt gives: the keys of its sheets, or why it gives none.
fn fetch<V: Folder>(
    alloc: Global,
    vault: &mut Vault<V>,
    to: u32,
) -> Result<Result<Vec<u8>, FetchFault>, Fail> {
    if !vault.has_sheets(0, 0, 0) {
        return Err(Fail::from("a spill has no sheet"));
    }
    let part = Part {
        split: 0,
        attempt: 0,
        from: 0,
        to,
    };
    let sheets = match vault.fetch(part, 0) {
        Ok(sheets) => sheets,
        Err(fault) => return Ok(Err(fault)),
    };
    let mut keys = Vec::new(alloc);
    for sheet in sheets.as_slice() {
        for pair in sheet.as_slice() {
            keys.extend_from_slice(pair.key.as_slice())?;
        }
    }
    Ok(Ok(keys))
}

// The vault of worker 3 with both spills.
fn vault_of_both(alloc: Global) -> Result<Vault<CleanFolder>, Fail> {
    let mut vault = Vault::new(alloc, CleanFolder::new(alloc), 3);
    keep(alloc, &mut vault, &FIRST)?;
    keep(alloc, &mut vault, &SECOND)?;
    Ok(vault)
}

#[test]
fn fetches_what_was_kept(rt: HostRuntime) -> Result<(), Fail> {
    let mut vault = vault_of_both(rt.alloc())?;
    match fetch(rt.alloc(), &mut vault, 2)? {
        Ok(keys) => assert_eq!(rt; keys.as_slice(), b"ab".as_slice()),
        Err(fault) => return Err(Fail::from(fault)),
    }
    let fetched = fetch(rt.alloc(), &mut vault, 3)?;
    assert!(rt; matches!(fetched, Err(FetchFault::NotKept { have: 2 })));
    Ok(())
}

#[test]
fn holds_the_texts_of_what_was_kept(rt: HostRuntime) -> Result<(), Fail> {
    let vault = vault_of_both(rt.alloc())?;
    assert_eq!(rt; vault.worker(), 3);
    assert_eq!(rt; [vault.kept(0, 0), vault.kept(0, 1)], [2, 0]);
    let mut folder = vault.into_folder();
    let held = folder.get("s-0-0-1", 100)?;
    assert_eq!(rt; held.as_slice(), SECOND.as_slice());
    Ok(())
}

#[test]
fn keeps_nothing_where_the_folder_fails(rt: HostRuntime) -> Result<(), Fail> {
    let alloc = rt.alloc();
    let mut fails = Vec::new(alloc);
    fails.push(1)?;
    fails.push(3)?;
    let mut vault = Vault::new(alloc, MemFolder::new(alloc, fails), 0);
    assert!(rt; !keep(alloc, &mut vault, &FIRST)?);
    assert_eq!(rt; vault.kept(0, 0), 0);
    assert!(rt; keep(alloc, &mut vault, &FIRST)?);
    assert_eq!(rt; vault.kept(0, 0), 1);
    assert!(rt; matches!(fetch(alloc, &mut vault, 1)?, Err(FetchFault::StoreFailed)));
    Ok(())
}

// A vault with both spills over a folder of which these calls fail; the first two put the spills.
fn vault_that_fails(alloc: Global, first: u64, second: u64) -> Result<Vault<MemFolder>, Fail> {
    let mut fails = Vec::new(alloc);
    fails.push(first)?;
    fails.push(second)?;
    let mut vault = Vault::new(alloc, MemFolder::new(alloc, fails), 0);
    keep(alloc, &mut vault, &FIRST)?;
    keep(alloc, &mut vault, &SECOND)?;
    Ok(vault)
}

// How often the folder is asked is no clause's: a fetch makes one get for each kept spill of the range, in
// order, and none after one that failed.
#[test]
fn gets_each_kept_spill_once(rt: HostRuntime) -> Result<(), Fail> {
    let alloc = rt.alloc();
    let mut vault = vault_that_fails(alloc, 3, 6)?;
    assert!(rt; matches!(fetch(alloc, &mut vault, 2)?, Err(FetchFault::StoreFailed)));
    assert!(rt; matches!(fetch(alloc, &mut vault, 2)?, Ok(_)));
    assert!(rt; matches!(fetch(alloc, &mut vault, 2)?, Err(FetchFault::StoreFailed)));
    Ok(())
}

// A folder of one file, whose byte 40 it alters at each get.
#[derive(Drop)]
struct Altering {
    text: Vec<u8>,
}

impl Folder for Altering {
    ghost use Rattle.hop_ports.specs.Disk.{untold};

    ghost seen = { λ _. untold 0 0 };

    fn get(&mut self, _name: &str, max: u64) -> Result<Vec<u8>, GetFault> {
        let Ok(mut bytes) = self.text.clone() else {
            return Err(GetFault::NoMemory);
        };
        if let Some(byte) = bytes.get_mut(40) {
            *byte = 2;
        }
        if bytes.len() as u64 > max {
            return Err(GetFault::NoMemory);
        }
        Ok(bytes)
    }

    fn put(&mut self, _name: &str, bytes: &[u8]) -> Result<(), PutFault> {
        self.text.clear();
        if self.text.extend_from_slice(bytes).is_err() {
            return Err(PutFault::NoMemory);
        }
        Ok(())
    }
}

#[test]
fn notices_altered_bytes(rt: HostRuntime) -> Result<(), Fail> {
    let alloc = rt.alloc();
    let folder = Altering {
        text: Vec::new(alloc),
    };
    let mut vault = Vault::new(alloc, folder, 0);
    assert!(rt; keep(alloc, &mut vault, &FIRST)?);
    match fetch(alloc, &mut vault, 1)? {
        Err(FetchFault::Damaged { at, kept, found }) => {
            assert_eq!(rt; (at.split, at.to), (0, 1));
            assert_eq!(rt; [kept, found], [KEPT, FOUND]);
        }
        Err(FetchFault::NoMemory) => return Err(Fail::from("no memory")),
        _ => return Err(Fail::from("the bytes are altered")),
    }
    Ok(())
}
