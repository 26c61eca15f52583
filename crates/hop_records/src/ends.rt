//! Where the records of some bytes end.
ghost use Rattle.std.specs.Prelude.{◌≡◌, ◌+◌, ◌<◌, ◌≤◌, ℕ, [], ◌∷◌, All, Some, IfOk, OnOk, drop, length, slice_get, slice_range, vec_len};
ghost use Rattle.hop_records.specs.Records.{records_of, first_long, IsShort};
ghost use Rattle.hop_records.specs.Ends.{AreEnds, start_of};

use hop_base::NoMemory;
use hop_base::limits::MAX_RECORD;
use memchr::{memchr, memchr_iter};
use std::alloc::Global;

// Why there are no ends.
pub enum EndsFault {
    Long { index: u32 },
    NoMemory,
}

// Where the record that begins at `start` ends, and where the next one begins.
fn next_end(bytes: &[u8], start: usize) -> (usize, usize)
    requires { start < length bytes.now }
    ensures forward { start < result.1 }
    ensures within { result.1 ≤ length bytes.now }
    ensures ordered { start ≤ result.0 }
    ensures inside { result.0 ≤ length bytes.now }
    ensures next { result.1 < length bytes.now → result.1 ≡ result.0 + 1 }
    ensures first { records_of (drop start bytes.now) ≡ slice_range bytes.now start result.0 ∷ records_of (drop result.1 bytes.now) }
{
    match memchr(b'\n', &bytes[start..]) {
        Some(k) => (start + k, start + k + 1),
        None => (bytes.len(), bytes.len()),
    }
}

// Room for the ends of all records.
fn room_for_ends(alloc: Global, bytes: &[u8]) -> Result<Vec<u32>, NoMemory>
    ensures { IfOk result (λ ends. ends.items ≡ []) }
{
    let lines = memchr_iter(b'\n', bytes).count();
    let ends = Vec::with_capacity(alloc, lines.saturating_add(1))?;
    Ok(ends)
}

// The places where the records of the bytes end, if no record is too long.
pub fn ends_of(alloc: Global, bytes: &[u8]) -> Result<Vec<u32>, EndsFault>
    requires { length bytes.now ≤ 16777216 }
    ensures ends { IfOk result (λ ends. AreEnds bytes.now ends.items) }
    ensures few { IfOk result (λ ends. vec_len ends ≤ length bytes.now) }
    ensures short { OnOk result (All IsShort (records_of bytes.now)) }
    ensures long { (index : ℕ) → result ≡ Err (EndsFault.Long index) → first_long (records_of bytes.now) ≡ Some index }
{
    let Ok(mut ends) = room_for_ends(alloc, bytes) else {
        return Err(EndsFault::NoMemory);
    };
    let mut start = 0;
    while start < bytes.len() {
        let (end, next) = next_end(bytes, start);
        if end - start > MAX_RECORD {
            return Err(EndsFault::Long {
                index: ends.len() as u32,
            });
        }
        if ends.push(end as u32).is_err() {
            return Err(EndsFault::NoMemory);
        }
        start = next;
    }
    Ok(ends)
}

// Where record `k` begins: at the first byte, or behind the line feed that ends the one before it.
fn start_at(ends: &[u32], k: usize) -> usize
    requires { k < length ends.now }
    ensures { result ≡ start_of 0 ends.now k }
{
    if k == 0 { 0 } else { ends[k - 1] as usize + 1 }
}

// The bytes of record `k`.
pub fn record_of<'a>(bytes: &'a [u8], ends: &[u32], k: usize) -> &'a [u8]
    requires kept { AreEnds bytes.now ends.now }
    requires within { k < length ends.now }
    ensures { slice_get (records_of bytes.now) k ≡ Some result.now }
{
    let start = start_at(ends, k);
    &bytes[start..ends[k] as usize]
}
