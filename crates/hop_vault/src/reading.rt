//! Kept spills read back.
ghost use Rattle.std.specs.Prelude.{◌≡◌, ◌≢◌, ◌<◌, true, false, None, Some, IfOk, IfErr, OnOk, IfSome, All, length};
ghost use Rattle.std.specs.FinMap as map;
ghost use Rattle.sha2.specs.Sha256.{sha256};
ghost use Rattle.hop_ports.specs.Causes.{OnlyRead};
ghost use Rattle.hop_vault.specs.Rows.{range_of};
ghost use Rattle.hop_spill.specs.SpillFiles.{name_of};
ghost use Rattle.hop_vault.specs.Stored.{IsStored, AreStored, IsFetched, AreFetched, first_other, sheet_of};
ghost use Rattle.hop_spill.specs.Spelling.{spill_in};
ghost use Rattle.hop_vault.specs.Reads.{GotCause, GetsAnswered, IsOpened, OpenedCause, ReadCause, ReadsCause};

use crate::kept::{FetchFault, Kept};
use crate::names::spill_name;
use hop_base::{FlatSheet, FlatSheets, Listed, NoMemory, Part};
use hop_ports::{Folder, GetFault};
use hop_spill::{FlatSpill, SpillFault, decode_flat};
use sha2::{Digest, Sha256};
use std::alloc::Global;

// The SHA-256 of bytes.
pub fn digest_of(bytes: &[u8]) -> [u8; 32]
    ensures { result ≡ sha256 bytes.now }
{
    Sha256::digest(bytes)
}

// Whether two digests are the same.
fn is_same(one: &[u8; 32], other: &[u8; 32]) -> bool
    ensures same { result ≡ true → one.now ≡ other.now }
    ensures other { result ≡ false → one.now ≢ other.now }
{
    one == other
}

// The bytes under the name of a kept spill.
pub fn got<V: Folder>(
    alloc: Global,
    folder: &mut V,
    split: u32,
    attempt: u8,
    kept: &Kept,
) -> Result<Vec<u8>, FetchFault>
    requires { IfSome (V.seen folder.old).held (λ files. IsStored files split attempt kept.now) }
    ensures left { OnlyRead (V.seen folder.old) (V.seen folder.new) }
    ensures no_fault { OnOk result ((V.seen folder.new).gets ≡ (V.seen folder.old).gets) }
    ensures answered { IfErr result (GetsAnswered (V.seen folder.old) (V.seen folder.new)) }
    ensures found { IfOk result (λ bytes. IfSome (V.seen folder.old).held (λ files. map.get files (name_of split attempt kept.now.from) ≡ Some bytes.items)) }
    ensures cause { IfErr result (GotCause (V.seen folder.old) (V.seen folder.new)) }
{
    let Ok(name) = spill_name(alloc, split, attempt, kept.from) else {
        return Err(FetchFault::NoMemory);
    };
    match folder.get(name.as_str(), kept.len) {
        Ok(bytes) => Ok(bytes),
        Err(GetFault::NoMemory) => Err(FetchFault::NoMemory),
        Err(GetFault::Missing | GetFault::TooLong | GetFault::Failed) => {
            Err(FetchFault::StoreFailed)
        }
    }
}

// The sheets of partition p of kept spills, in order.
pub fn read_all<V: Folder>(
    alloc: Global,
    folder: &mut V,
    split: u32,
    attempt: u8,
    p: u8,
    spills: &[Kept],
) -> Result<FlatSheets, FetchFault>
    requires stored { IfSome (V.seen folder.old).held (λ files. AreStored files split attempt spills.now) }
    requires within { All (λ kept. p < kept.sheets) spills.now }
    ensures left { OnlyRead (V.seen folder.old) (V.seen folder.new) }
    ensures no_fault { OnOk result ((V.seen folder.new).gets ≡ (V.seen folder.old).gets) }
    ensures answered { IfErr result (GetsAnswered (V.seen folder.old) (V.seen folder.new)) }
    ensures found { IfOk result (AreFetched (V.seen folder.old).held split attempt p spills.now) }
    ensures cause { IfErr result (ReadsCause (V.seen folder.old) (V.seen folder.new) split attempt p spills.now) }
{
    let mut sheets = Listed::new(alloc);
    for kept in spills {
        let sheet = read(alloc, folder, split, attempt, p, kept)?;
        match sheets.push(sheet) {
            Ok(()) => {}
            Err(NoMemory) => return Err(FetchFault::NoMemory),
        }
    }
    Ok(sheets)
}

// The sheet of partition p of a kept spill.
fn read<V: Folder>(
    alloc: Global,
    folder: &mut V,
    split: u32,
    attempt: u8,
    p: u8,
    kept: &Kept,
) -> Result<FlatSheet, FetchFault>
    requires stored { IfSome (V.seen folder.old).held (λ files. IsStored files split attempt kept.now) }
    requires within { p < kept.now.sheets }
    ensures left { OnlyRead (V.seen folder.old) (V.seen folder.new) }
    ensures no_fault { OnOk result ((V.seen folder.new).gets ≡ (V.seen folder.old).gets) }
    ensures answered { IfErr result (GetsAnswered (V.seen folder.old) (V.seen folder.new)) }
    ensures found { IfOk result (IsFetched (V.seen folder.old).held split attempt p kept.now) }
    ensures cause { IfErr result (ReadCause (V.seen folder.old) (V.seen folder.new) (range_of split attempt kept.now) p kept.now.digest) }
{
    let at = Part {
        split,
        attempt,
        from: kept.from,
        to: kept.to,
    };
    let bytes = got(alloc, folder, split, attempt, kept)?;
    opened(alloc, at, p, &kept.digest, &bytes)
}

// The sheet of partition p of the spill that the bytes spell, where they have the digest and it is of the range.
pub fn opened(
    alloc: Global,
    at: Part,
    p: u8,
    digest: &[u8; 32],
    bytes: &[u8],
) -> Result<FlatSheet, FetchFault>
    ensures found { IfOk result (λ sheet. IsOpened at p digest.now bytes.now sheet) }
    ensures cause { IfErr result (OpenedCause at p digest.now bytes.now) }
{
    let found = digest_of(bytes);
    if !is_same(&found, digest) {
        return Err(FetchFault::Damaged {
            at,
            kept: *digest,
            found,
        });
    }
    match decode_flat(alloc, bytes) {
        Ok(spill) => match first_other(at, p, &spill) {
            Some(place) => Err(FetchFault::Collides { at, place }),
            None => Ok(sheet_at(spill, p)),
        },
        Err(SpillFault::Damaged { place }) => Err(FetchFault::Collides { at, place }),
        Err(SpillFault::NoMemory) => Err(FetchFault::NoMemory),
    }
}

// The sheet of partition p.
fn sheet_at(spill: FlatSpill, p: u8) -> FlatSheet
    requires { p < length spill.sheets }
    ensures { result ≡ sheet_of (spill_in spill) p }
{
    let FlatSpill { sheets, .. } = spill;
    sheets.into_vec().remove(p as usize)
}

// Where a spill's text first differs from one of the range that has a sheet p, if it does.
fn first_other(at: Part, p: u8, spill: &FlatSpill) -> Option<u64>
    ensures { result ≡ first_other at p (spill_in spill.now) }
{
    if spill.split != at.split {
        Some(4)
    } else if spill.attempt != at.attempt {
        Some(8)
    } else if spill.from != at.from {
        Some(12)
    } else if spill.to != at.to {
        Some(16)
    } else if spill.sheets.as_slice().len() <= p as usize {
        Some(20)
    } else {
        None
    }
}
