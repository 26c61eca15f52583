//! The records of a text, one after the other.
ghost use Rattle.std.specs.Prelude.{◌≡◌, ◌<◌, ◌∷◌, length, IfOk};
ghost use Rattle.std.specs.List.{concat};
ghost use Rattle.hop_records.specs.Records.{records_of};

use hop_base::{NoMemory, Texts};
use memchr::memchr;
use std::alloc::Global;

// The first record, and the bytes behind its line feed.
pub(crate) fn first_line(bytes: &[u8]) -> (&[u8], &[u8])
    requires { 0 < length bytes.now }
    ensures cut { records_of bytes.now ≡ result.0.now ∷ records_of result.1.now }
    ensures shorter { length result.1.now < length bytes.now }
{
    match memchr(b'\n', bytes) {
        Some(end) => {
            let (line, _) = bytes.split_at(end);
            let (_, later) = bytes.split_at(end + 1);
            (line, later)
        }
        None => bytes.split_at(bytes.len()),
    }
}

// The texts, one behind the other.
pub(crate) fn joined(alloc: Global, texts: &Texts) -> Result<Vec<u8>, NoMemory>
    ensures { IfOk result (λ bytes. bytes.items ≡ concat texts.now) }
{
    let mut bytes = Vec::new(alloc);
    for text in texts.as_slice() {
        bytes.extend_from_slice(text.as_slice())?;
    }
    Ok(bytes)
}
