//! Books: the records of an input and their splits.
ghost use Rattle.std.specs.Prelude.{◌≡◌, ◌<◌, ◌≤◌, Some, IfOk, IfErr, length, slice_get, vec_len};
ghost use Rattle.std.specs.Int.{div_ceil};
ghost use Rattle.hop_records.specs.Records.{BookValue, records_of, splits_of, split_records, len_of, spill_count, BookCause, IsBook};

use crate::ends::{EndsFault, ends_of, record_of};
use hop_base::limits::MAX_SPLITS;
use std::alloc::Global;
use std::marker::Model;
use thiserror::Error;

/// Why bytes make no book. A record that is too long comes before too many splits.
#[derive(Clone, Copy, Debug, PartialEq, Eq, Error)]
pub enum BookFault {
    /// Record `index`, counted from 0, is the first of more than 65,535 bytes.
    #[error("record {index} is too long")]
    RecordTooLong { index: u32 },
    /// There are more than 1,024 splits, namely `count`.
    #[error("{count} splits are too many")]
    TooManySplits { count: u32 },
    #[error("no memory")]
    NoMemory,
}

/// The records of an input and how many of them a split has.
///
/// Each line feed (byte 10) ends a record; a last piece without one is a record if it has a byte. A
/// carriage return is an ordinary byte. With `n` records a split, split `i` has the records from
/// `i * n` on, `n` of them or as many as are left, so each split has at least one record. Contracts
/// see the list of the records and the size of a split.
#[derive(Drop)]
pub struct Book {
    bytes: Vec<u8>,
    ends: Vec<u32>,
    split: u32,
}

impl Model for Book {
    ghost use Rattle.hop_records.specs.Records.{BookValue};
    ghost use Rattle.hop_records.specs.Ends.{book_value, IsKept};

    ghost Value = { BookValue };

    ghost view = { book_value };

    ghost invariant = { IsKept };
}

impl Book {
    /// The book of these bytes, at most 16,777,216, with `split` records a split, at least 1.
    ///
    /// `RecordTooLong` comes exactly where a record has more than 65,535 bytes, with the first such
    /// record; otherwise `TooManySplits` exactly where there are more than 1,024 splits.
    pub fn read(alloc: Global, bytes: &[u8], split: u32) -> Result<Book, BookFault>
        requires few { length bytes.now ≤ 16777216 }
        requires some { 1 ≤ split }
        ensures value { IfOk result (λ book. book ≡ record { records = records_of bytes.now; split = split }) }
        ensures accepted { IfOk result IsBook }
        ensures cause { IfErr result (BookCause (records_of bytes.now) split) }
    {
        let Ok(copy) = Vec::from_slice(alloc, bytes) else {
            return Err(BookFault::NoMemory);
        };
        Book::from_vec(alloc, copy, split)
    }

    /// The same without a copy of the bytes.
    pub fn from_vec(alloc: Global, bytes: Vec<u8>, split: u32) -> Result<Book, BookFault>
        requires few { vec_len bytes ≤ 16777216 }
        requires some { 1 ≤ split }
        ensures value { IfOk result (λ book. book ≡ record { records = records_of bytes.items; split = split }) }
        ensures accepted { IfOk result IsBook }
        ensures cause { IfErr result (BookCause (records_of bytes.items) split) }
    {
        let ends = match ends_of(alloc, &bytes) {
            Ok(ends) => ends,
            Err(EndsFault::Long { index }) => return Err(BookFault::RecordTooLong { index }),
            Err(EndsFault::NoMemory) => return Err(BookFault::NoMemory),
        };
        let count = (ends.len() as u32).div_ceil(split);
        if count > MAX_SPLITS {
            return Err(BookFault::TooManySplits { count });
        }
        Ok(Book { bytes, ends, split })
    }

    /// How many records there are.
    pub fn records(&self) -> u32
        ensures count { result ≡ length self.now.records }
        ensures known { IsBook self.now }
    {
        self.count()
    }

    // How many records there are.
    fn count(&self) -> u32
        ensures count { result ≡ length self.now.records }
        ensures known { IsBook self.now }
    {
        self.ends.len() as u32
    }

    /// The bytes of record `k` of all, counted from 0.
    pub fn record(&self, k: u32) -> &[u8]
        requires { k < length self.now.records }
        ensures value { slice_get self.now.records k ≡ Some result.now }
        ensures short { length result.now ≤ 65535 }
    {
        record_of(&self.bytes, &self.ends, k as usize)
    }

    /// How many splits there are, at most 1,024.
    pub fn splits(&self) -> u32
        ensures count { result ≡ splits_of self.now }
        ensures known { IsBook self.now }
    {
        self.count().div_ceil(self.split)
    }

    /// How many records split `i` has, at least 1.
    pub fn len(&self, i: u32) -> u32
        requires { i < splits_of self.now }
        ensures value { result ≡ len_of self.now i }
        ensures some { 1 ≤ result }
        ensures few { result ≤ 16777216 }
    {
        let first = i as u64 * self.split as u64;
        let left = self.count() as u64 - first;
        left.min(self.split as u64) as u32
    }

    /// The bytes of record `r` of split `i`, each counted from 0.
    pub fn record_at(&self, i: u32, r: u32) -> &[u8]
        requires split { i < splits_of self.now }
        requires within { r < len_of self.now i }
        ensures value { slice_get (split_records self.now i) r ≡ Some result.now }
        ensures short { length result.now ≤ 65535 }
    {
        let k = i as u64 * self.split as u64 + r as u64;
        self.record(k as u32)
    }

    /// How many spills one attempt of each split makes, where a spill has `spill` records, at least 1:
    /// the sum over the splits of their records divided by `spill`, rounded up.
    pub fn spills(&self, spill: u32) -> u64
        requires { 1 ≤ spill }
        ensures { result ≡ spill_count self.now spill }
    {
        let splits = self.splits();
        let mut total = 0;
        for i in 0..splits {
            total += self.spills_of(i, spill) as u64;
        }
        total
    }

    // How many spills one attempt of split `i` makes.
    fn spills_of(&self, i: u32, spill: u32) -> u32
        requires split { i < splits_of self.now }
        requires some { 1 ≤ spill }
        ensures value { result ≡ div_ceil (len_of self.now i) spill }
        ensures few { result ≤ 16777216 }
    {
        self.len(i).div_ceil(spill)
    }
}
