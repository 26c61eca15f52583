//! The vault of a worker.
ghost use Rattle.std.specs.Prelude.{◌≡◌, ◌↔◌, IsTrue, ◌<◌, ◌≤◌, [], ℕ, true, false, nat_lt, nat_le, length, All, None, Some, Ok, Err, IfOk, IfErr, OnOk, MatchOption, string_bytes};
ghost use Rattle.std.specs.List.Sorted.{IsPartitionPoint};
ghost use Rattle.hop_ports.specs.Causes.{OnlyRead, OnlyPut};
ghost use Rattle.hop_spill.specs.Spelling.{IsSpill, spill_in, spill_text};
ghost use Rattle.hop_vault.specs.Rows.{row_of, end_of, kept_end, IsChain, IsStretch, NoStretch};
ghost use Rattle.hop_spill.specs.SpillFiles.{name_of};
ghost use Rattle.hop_vault.specs.Vaults.{IsKept, IsKeptIn, KeepCause, not_put};

use crate::kept::{FetchFault, KeepFault, Kept};
use crate::names::spill_name;
use crate::reading::{digest_of, read_all};
use crate::rows::Rows;
use hop_base::{FlatSheet, FlatSheets, Listed, NoMemory, Part, Sheets};
use hop_ports::{Folder, PutFault};
use hop_spill::{FlatSpill, Spill, encode_flat, sheets_in};
use std::alloc::Global;
use std::marker::Model;

#[cfg(test)]
mod tests;

/// The spills of a worker's attempts, kept in a folder of its own, with a SHA-256 of each.
#[derive(Drop)]
pub struct Vault<V: Folder> {
    alloc: Global,
    folder: V,
    worker: u8,
    rows: Rows,
}

impl<V: Folder> Model for Vault<V> {
    ghost use Rattle.hop_vault.specs.Vaults.{VaultValue, IsSound};

    ghost Value = { VaultValue V };

    ghost view = { λ vault. record { worker = vault.worker; folder = vault.folder; rows = vault.rows } };

    ghost invariant = { λ vault. IsSound (V.seen vault.folder) vault.rows };
}

impl<V: Folder> Vault<V> {
    ghost use Rattle.hop_vault.specs.Reads.{GetsAnswered};
    ghost use Rattle.hop_vault.specs.Vaults.{IsKeptIn, KeepCause, Fetches, AreOfHeld, FetchCause};

    /// An empty vault of this worker that owns its folder. It takes no memory.
    pub fn new(alloc: Global, folder: V, worker: u8) -> Vault<V>
        ensures { result ≡ record { worker = worker; folder = folder; rows = [] } }
    {
        Vault {
            alloc,
            folder,
            worker,
            rows: Rows::new(alloc),
        }
    }

    /// The folder as the calls left it. It takes no memory.
    pub fn into_folder(self) -> V
        ensures { result ≡ self.folder }
    {
        let Vault { folder, .. } = self;
        folder
    }

    /// Its worker.
    pub fn worker(&self) -> u8
        ensures { result ≡ self.now.worker }
    {
        self.worker
    }

    /// Keeps a spill. After a fault it isn't kept: the same spills are, and the folder is as before or, where it
    /// failed, as put.
    pub fn keep(&mut self, spill: &Spill) -> Result<(), KeepFault>
        requires spill { IsSpill spill.now }
        requires next { spill.now.from ≡ kept_end self.old.rows spill.now.split spill.now.attempt }
        ensures worker { self.new.worker ≡ self.old.worker }
        ensures counts { OnlyPut (V.seen self.old.folder) (V.seen self.new.folder) }
        ensures no_fault { OnOk result ((V.seen self.new.folder).puts ≡ (V.seen self.old.folder).puts) }
        ensures kept { OnOk result (IsKeptIn (V.seen self.old.folder) (V.seen self.new.folder) self.old.rows self.new.rows spill.now) }
        ensures cause { IfErr result (KeepCause (V.seen self.old.folder) (V.seen self.new.folder) self.old.rows self.new.rows spill.now) }
    {
        let Ok(flat) = flat_of(self.alloc, spill) else {
            return Err(KeepFault::NoMemory);
        };
        self.keep_flat(&flat)
    }

    /// The same of a spill whose sheets are kept as bytes: none of its pairs is looked at.
    pub fn keep_flat(&mut self, spill: &FlatSpill) -> Result<(), KeepFault>
        requires spill { IsSpill (spill_in spill.now) }
        requires next { spill.now.from ≡ kept_end self.old.rows spill.now.split spill.now.attempt }
        ensures worker { self.new.worker ≡ self.old.worker }
        ensures counts { OnlyPut (V.seen self.old.folder) (V.seen self.new.folder) }
        ensures no_fault { OnOk result ((V.seen self.new.folder).puts ≡ (V.seen self.old.folder).puts) }
        ensures kept { OnOk result (IsKeptIn (V.seen self.old.folder) (V.seen self.new.folder) self.old.rows self.new.rows (spill_in spill.now)) }
        ensures cause { IfErr result (KeepCause (V.seen self.old.folder) (V.seen self.new.folder) self.old.rows self.new.rows (spill_in spill.now)) }
    {
        let Ok(file) = file_of(self.alloc, spill) else {
            return Err(KeepFault::NoMemory);
        };
        store(&mut self.folder, &mut self.rows, spill, &file)
    }

    /// Whether each kept spill of the attempt has a sheet of partition `p`.
    pub fn has_sheets(&self, split: u32, attempt: u8, p: u8) -> bool
        ensures { IsTrue result ↔ All (λ kept. p < kept.sheets) (row_of self.now.rows split attempt) }
    {
        all_have(self.rows.row(split, attempt), p)
    }

    /// The sheets of partition `p` of the kept spills of a range, in order. Each kept spill of the attempt has
    /// such a sheet: [`Vault::has_sheets`] tells. It changes nothing that is kept or held, and a get that failed
    /// is answered by `StoreFailed`.
    pub fn fetch(&mut self, part: Part, p: u8) -> Result<Sheets, FetchFault>
        requires { All (λ kept. p < kept.sheets) (row_of self.old.rows part.split part.attempt) }
        ensures rows { self.new.rows ≡ self.old.rows }
        ensures worker { self.new.worker ≡ self.old.worker }
        ensures left { OnlyRead (V.seen self.old.folder) (V.seen self.new.folder) }
        ensures no_fault { OnOk result ((V.seen self.new.folder).gets ≡ (V.seen self.old.folder).gets) }
        ensures answered { IfErr result (GetsAnswered (V.seen self.old.folder) (V.seen self.new.folder)) }
        ensures found { IfOk result (Fetches (V.seen self.old.folder).held self.old.rows part p) }
        ensures held { IfOk result (AreOfHeld (V.seen self.old.folder).held part p) }
        ensures not_kept { NoStretch (row_of self.old.rows part.split part.attempt) part.from part.to → result ≡ Err (FetchFault.NotKept (kept_end self.old.rows part.split part.attempt)) }
        ensures cause { IfErr result (FetchCause V.seen self.old self.new part p) }
    {
        let flat = match self.fetch_flat(part, p) {
            Ok(flat) => flat,
            Err(fault) => return Err(fault),
        };
        match sheets_in(self.alloc, &flat) {
            Ok(sheets) => Ok(sheets),
            Err(NoMemory) => Err(FetchFault::NoMemory),
        }
    }

    /// The same sheets, kept as bytes: no pair of them is allocated.
    pub fn fetch_flat(&mut self, part: Part, p: u8) -> Result<FlatSheets, FetchFault>
        requires { All (λ kept. p < kept.sheets) (row_of self.old.rows part.split part.attempt) }
        ensures rows { self.new.rows ≡ self.old.rows }
        ensures worker { self.new.worker ≡ self.old.worker }
        ensures left { OnlyRead (V.seen self.old.folder) (V.seen self.new.folder) }
        ensures no_fault { OnOk result ((V.seen self.new.folder).gets ≡ (V.seen self.old.folder).gets) }
        ensures answered { IfErr result (GetsAnswered (V.seen self.old.folder) (V.seen self.new.folder)) }
        ensures found { IfOk result (Fetches (V.seen self.old.folder).held self.old.rows part p) }
        ensures held { IfOk result (AreOfHeld (V.seen self.old.folder).held part p) }
        ensures not_kept { NoStretch (row_of self.old.rows part.split part.attempt) part.from part.to → result ≡ Err (FetchFault.NotKept (kept_end self.old.rows part.split part.attempt)) }
        ensures cause { IfErr result (FetchCause V.seen self.old self.new part p) }
    {
        let row = self.rows.row(part.split, part.attempt);
        match stretch(row, part.from, part.to) {
            None => Err(FetchFault::NotKept { have: end(row) }),
            Some(spills) => read_all(
                self.alloc,
                &mut self.folder,
                part.split,
                part.attempt,
                p,
                spills,
            ),
        }
    }

    /// Where the kept spills of the attempt end: 0 where there are none.
    pub fn kept(&self, split: u32, attempt: u8) -> u32
        ensures { result ≡ kept_end self.now.rows split attempt }
    {
        end(self.rows.row(split, attempt))
    }
}

// A spill's file, and what is known of it.
#[derive(Drop)]
struct SpillFile {
    name: String,
    text: Vec<u8>,
    kept: Kept,
}

// The spill with its sheets as bytes.
fn flat_of(alloc: Global, spill: &Spill) -> Result<FlatSpill, NoMemory>
    ensures { IfOk result (λ flat. spill_in flat ≡ spill.now) }
{
    let mut sheets = Listed::new(alloc);
    for sheet in spill.sheets.as_slice() {
        sheets.push(FlatSheet::from_sheet(alloc, sheet)?)?;
    }
    Ok(FlatSpill {
        split: spill.split,
        attempt: spill.attempt,
        from: spill.from,
        to: spill.to,
        sheets,
    })
}

// The file of a spill.
fn file_of(alloc: Global, spill: &FlatSpill) -> Result<SpillFile, NoMemory>
    requires { IsSpill (spill_in spill.now) }
    ensures { IfOk result (λ file. (string_bytes file.name ≡ name_of spill.now.split spill.now.attempt spill.now.from) × (file.text.items ≡ spill_text (spill_in spill.now)) × IsKept (spill_in spill.now) file.kept) }
{
    let text = encode_flat(alloc, spill)?;
    let name = spill_name(alloc, spill.split, spill.attempt, spill.from)?;
    let kept = Kept {
        from: spill.from,
        to: spill.to,
        sheets: spill.sheets.as_slice().len() as u8,
        len: text.len() as u64,
        digest: digest_of(&text),
    };
    Ok(SpillFile { name, text, kept })
}

// Notes what is known of the file, and puts it; where it can't be put, the note is taken back.
fn store<V: Folder>(
    folder: &mut V,
    rows: &mut Rows,
    spill: &FlatSpill,
    file: &SpillFile,
) -> Result<(), KeepFault>
    requires name { string_bytes file.now.name ≡ name_of spill.now.split spill.now.attempt spill.now.from }
    requires text { file.now.text.items ≡ spill_text (spill_in spill.now) }
    requires known { IsKept (spill_in spill.now) file.now.kept }
    ensures counts { OnlyPut (V.seen folder.old) (V.seen folder.new) }
    ensures no_fault { OnOk result ((V.seen folder.new).puts ≡ (V.seen folder.old).puts) }
    ensures kept { OnOk result (IsKeptIn (V.seen folder.old) (V.seen folder.new) rows.old rows.new (spill_in spill.now)) }
    ensures cause { IfErr result (KeepCause (V.seen folder.old) (V.seen folder.new) rows.old rows.new (spill_in spill.now)) }
{
    let Ok(()) = rows.add(spill.split, spill.attempt, file.kept) else {
        return Err(KeepFault::NoMemory);
    };
    match folder.put(file.name.as_str(), &file.text) {
        Ok(()) => Ok(()),
        Err(fault) => {
            rows.take_back(spill.split, spill.attempt);
            Err(not_put(fault))
        }
    }
}

// A put's fault as a fault of keeping.
fn not_put(fault: PutFault) -> KeepFault
    ensures { result ≡ not_put fault }
{
    match fault {
        PutFault::Failed => KeepFault::StoreFailed,
        PutFault::NoMemory => KeepFault::NoMemory,
    }
}

// The spills of a row whose ranges together are this range, if some are.
fn stretch(row: &[Kept], from: u32, to: u32) -> Option<&[Kept]>
    requires { (end : ℕ) × IsChain 0 row.now end }
    ensures { MatchOption result (NoStretch row.now from to) (λ spills. IsStretch row.now from to spills.now) }
{
    let first = first_from(row, from);
    let end = end_within(row, to);
    if first < end && row[first].from == from && row[end - 1].to == to {
        Some(&row[first..end])
    } else {
        None
    }
}

// How many spills of a row begin before a record.
fn first_from(row: &[Kept], from: u32) -> usize
    requires { (end : ℕ) × IsChain 0 row.now end }
    ensures within { result ≤ length row.now }
    ensures place { IsPartitionPoint (λ kept. nat_lt kept.from from ≡ true) (λ kept. nat_lt kept.from from ≡ false) row.now result }
{
    row.partition_point(|kept| kept.from < from)
}

// How many spills of a row end at a record or before.
fn end_within(row: &[Kept], to: u32) -> usize
    requires { (end : ℕ) × IsChain 0 row.now end }
    ensures within { result ≤ length row.now }
    ensures place { IsPartitionPoint (λ kept. nat_le kept.to to ≡ true) (λ kept. nat_le kept.to to ≡ false) row.now result }
{
    row.partition_point(|kept| kept.to <= to)
}

// Whether each spill of a row has a sheet of partition p.
fn all_have(row: &[Kept], p: u8) -> bool
    ensures { IsTrue result ↔ All (λ kept. p < kept.sheets) row.now }
{
    row.iter().all(|kept| p < kept.sheets)
}

// Where the spills of a row end.
fn end(row: &[Kept]) -> u32
    ensures { result ≡ end_of row.now }
{
    match row.last() {
        Some(kept) => kept.to,
        None => 0,
    }
}
