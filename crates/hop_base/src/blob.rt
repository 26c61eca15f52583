//! Byte strings of bounded length: keys, and the texts of values.
ghost use Rattle.std.specs.Prelude.{◌≡◌, ℕ, ◌<◌, ◌≤◌, ◌↔◌, [], length, IfOk, OnOk, OnErr};

use crate::limits::MAX_BLOB;
use crate::memory::NoMemory;
use std::alloc::Global;
use std::cmp::Ordering;
use std::marker::Model;
use thiserror::Error;

/// Why bytes are no blob.
#[derive(Clone, Copy, Debug, PartialEq, Eq, Error)]
pub enum BlobFault {
    /// There are more than 131,071 of them, namely `len`.
    #[error("{len} bytes are too many for a blob")]
    TooLong { len: u64 },
    #[error("no memory")]
    NoMemory,
}

/// A byte string of at most 131,071 bytes. Blobs are ordered byte by byte.
#[derive(Debug, Drop)]
pub struct Blob {
    bytes: Vec<u8>,
}

impl Model for Blob {
    ghost use Rattle.std.specs.Prelude.{List, ℕ, ◌≤◌, length};

    ghost Value = { List ℕ };

    ghost view = { λ b. b.bytes.items };

    ghost invariant = { λ b. length b.bytes.items ≤ 131071 };
}

impl Blob {
    /// A blob of these bytes. `TooLong` comes exactly above 131,071 bytes.
    pub fn from_slice(alloc: Global, bytes: &[u8]) -> Result<Blob, BlobFault>
        ensures ok { IfOk result (λ blob. blob ≡ bytes.now) }
        ensures too_long { (result ≡ Err (BlobFault.TooLong (length bytes.now))) ↔ (131071 < length bytes.now) }
        ensures only_so { (len : ℕ) → result ≡ Err (BlobFault.TooLong len) → len ≡ length bytes.now }
    {
        if bytes.len() > MAX_BLOB {
            return Err(BlobFault::TooLong {
                len: bytes.len() as u64,
            });
        }
        match Blob::from_short(alloc, bytes) {
            Ok(blob) => Ok(blob),
            Err(NoMemory) => Err(BlobFault::NoMemory),
        }
    }

    /// A blob of these bytes, which are known to be at most 131,071.
    pub fn from_short(alloc: Global, bytes: &[u8]) -> Result<Blob, NoMemory>
        requires { length bytes.now ≤ 131071 }
        ensures { IfOk result (λ blob. blob ≡ bytes.now) }
    {
        let bytes = Vec::from_slice(alloc, bytes)?;
        Ok(Blob { bytes })
    }

    /// Becomes a blob of these bytes, which are known to be at most 131,071, in the memory that it has where
    /// that is enough. After `NoMemory` it is empty.
    pub fn set(&mut self, bytes: &[u8]) -> Result<(), NoMemory>
        requires { length bytes.now ≤ 131071 }
        ensures ok { OnOk result (self.new ≡ bytes.now) }
        ensures err { OnErr result (self.new ≡ []) }
    {
        self.bytes.clear();
        self.bytes.extend_from_slice(bytes)?;
        Ok(())
    }

    /// Its bytes.
    pub fn as_slice(&self) -> &[u8]
        ensures value { result.now ≡ self.now }
        ensures short { length self.now ≤ 131071 }
    {
        &self.bytes
    }

    /// An equal blob.
    pub fn copy(&self) -> Result<Blob, NoMemory>
        ensures { IfOk result (λ blob. blob ≡ self.now) }
    {
        let bytes = self.bytes.clone()?;
        Ok(Blob { bytes })
    }
}

impl PartialEq for Blob {
    ghost use Rattle.std.specs.Prelude.{nat_eq};
    ghost use Rattle.std.specs.Cmp.{partial_equiv_from_equiv};
    ghost use Rattle.std.specs.Cmp.Lexicographic.{pointwise, nat_list_eq_equiv};

    ghost eq = { pointwise nat_eq };

    ghost laws = { partial_equiv_from_equiv nat_list_eq_equiv };

    fn eq(&self, other: &Blob) -> bool {
        self.as_slice() == other.as_slice()
    }
}

impl Eq for Blob {
    ghost use Rattle.std.specs.Cmp.Lexicographic.{nat_list_eq_equiv};

    ghost laws = { nat_list_eq_equiv };
}

impl PartialOrd for Blob {
    ghost use Rattle.std.specs.Prelude.{Some};
    ghost use Rattle.std.specs.Ordering.{nat_cmp};
    ghost use Rattle.std.specs.Cmp.Lexicographic.{slice_cmp, texts_po};

    ghost partial_cmp = { λ x y. Some (slice_cmp nat_cmp x y) };

    ghost laws = { texts_po };

    fn partial_cmp(&self, other: &Blob) -> Option<Ordering> {
        Some(self.cmp(other))
    }
}

impl Ord for Blob {
    ghost use Rattle.std.specs.Prelude.{refl};
    ghost use Rattle.std.specs.Ordering.{nat_cmp};
    ghost use Rattle.std.specs.Cmp.Lexicographic.{slice_cmp, nat_list_cmp_total, texts_ties};

    ghost cmp = { slice_cmp nat_cmp };

    ghost total = { nat_list_cmp_total };

    ghost matches_partial_cmp = { λ x y. refl };

    ghost matches_eq = { texts_ties };

    fn cmp(&self, other: &Blob) -> Ordering {
        self.as_slice().cmp(other.as_slice())
    }
}
