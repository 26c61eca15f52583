//! Records that are read at their last tab: a key, and a number in decimal digits.
ghost use Rattle.std.specs.Prelude.{◌≡◌, ◌<◌, ◌+◌, take, drop, length, IfOk, IfSome, OnOk};
ghost use Rattle.std.specs.Option.{option_map};
ghost use Rattle.hop_jobs.specs.Numbered.{number_of, at_last_tab, numbered_emits};

use crate::numbers::number;
use hop_base::{Blob, NoMemory, Pair};
use hop_laws::PairSink;
use memchr::memrchr;
use std::alloc::Global;

// The key with the number, or nothing where the record isn't of this form.
pub(crate) fn numbered(alloc: Global, line: &[u8]) -> Result<Vec<Pair>, NoMemory>
    requires { length line.now < 131072 }
    ensures { IfOk result (λ pairs. pairs.items ≡ numbered_emits line.now) }
{
    let mut pairs = Vec::new(alloc);
    if let Some(tab) = last_tab(line) {
        if let Some(n) = read_number(&line[tab + 1..]) {
            let key = Blob::from_short(alloc, &line[..tab])?;
            let val = number(alloc, n)?;
            pairs.push(Pair { key, val })?;
        }
    }
    Ok(pairs)
}

// Hands the key with the number to a sink, or nothing where the record isn't of this form.
pub(crate) fn emit_numbered<S: PairSink>(line: &[u8], sink: &mut S) -> Result<(), NoMemory>
    requires { length line.now < 131072 }
    ensures { OnOk result (S.takes sink.old (numbered_emits line.now) sink.new) }
{
    if let Some(tab) = last_tab(line) {
        if let Some(n) = read_number(&line[tab + 1..]) {
            sink.take(&line[..tab], n, b"")?;
        }
    }
    Ok(())
}

// The place of the last tab.
pub(crate) fn last_tab(line: &[u8]) -> Option<usize>
    ensures within { IfSome result (λ i. i < length line.now) }
    ensures split { at_last_tab line.now ≡ option_map (λ i. (take i line.now, drop (i + 1) line.now)) result }
{
    memrchr(b'\t', line)
}

// The number, where these are 1 to 20 decimal digits whose value is below 2^64. Leading zeros are
// allowed, a sign is not.
pub(crate) fn read_number(digits: &[u8]) -> Option<u64>
    ensures { result ≡ number_of digits.now }
{
    if digits.is_empty() || digits.len() > 20 {
        return None;
    }
    let mut n: u64 = 0;
    for digit in digits {
        if *digit < b'0' || *digit > b'9' {
            return None;
        }
        let by_ten = n.checked_mul(10)?;
        n = by_ten.checked_add(u64::from(*digit - b'0'))?;
    }
    Some(n)
}
