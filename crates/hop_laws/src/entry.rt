//! Flat pairs.
ghost use Rattle.std.specs.Prelude.{◌≡◌, ◌<◌, ◌≤◌, ◌+◌, ◌++◌, length, take, drop, IfOk, OnOk, OnErr, IsPermutation, IsSorted};
ghost use Rattle.std.specs.Str.{bytes_eq};
ghost use Rattle.std.specs.List.{AllByRecursion};
ghost use Rattle.hop_laws.specs.Entries.{stored_key as stored_key_of, text_in, key_in, pair_in, IsEntry, entry_cmp, value_cmp, stored_bytes};
ghost use Rattle.hop_laws.specs.Heads.{head_bytes};
ghost use Rattle.hop_base.specs.Fields.{pair_of};

use crate::head::Head;
use hop_base::NoMemory;
use std::cmp::Ordering;

// One pair. A key of at most 15 bytes stands in the head; a longer one stands in an arena from `at` on, and behind
// it the text.
#[derive(Clone, Copy)]
pub(crate) struct Entry {
    pub(crate) head: Head,
    pub(crate) number: u64,
    pub(crate) at: usize,
    pub(crate) stored_len: u32,
    pub(crate) text_len: u32,
}

// Appends what of the pair doesn't stand in its entry to the arena. After `NoMemory` the arena is as before.
pub(crate) fn append(
    arena: &mut Vec<u8>,
    key: &[u8],
    number: u64,
    text: &[u8],
) -> Result<Entry, NoMemory>
    requires short_key { length key.now ≤ 131071 }
    requires short_text { length text.now ≤ 131071 }
    ensures entry { IfOk result (IsEntry arena.new.items) }
    ensures pair { IfOk result (λ e. pair_in arena.new.items e ≡ pair_of key.now number text.now) }
    ensures ok { OnOk result (take (length arena.old.items) arena.new.items ≡ arena.old.items) }
    ensures err { OnErr result (arena.new.items ≡ arena.old.items) }
{
    let stored = stored_part(key);
    let at = arena.len();
    extend(arena, stored, text)?;
    Ok(Entry {
        head: Head::of(key),
        number,
        at,
        stored_len: stored.len() as u32,
        text_len: text.len() as u32,
    })
}

// Appends both. After `NoMemory` the arena is as before.
fn extend(arena: &mut Vec<u8>, stored: &[u8], text: &[u8]) -> Result<(), NoMemory>
    requires { length stored.now + length text.now ≤ 262142 }
    ensures ok { OnOk result (arena.new.items ≡ (arena.old.items ++ stored.now) ++ text.now) }
    ensures err { OnErr result (arena.new.items ≡ arena.old.items) }
{
    if stored.is_empty() && text.is_empty() {
        return Ok(());
    }
    arena.reserve(stored.len() + text.len())?;
    arena.extend_from_slice(stored)?;
    arena.extend_from_slice(text)?;
    Ok(())
}

// What of a key stands in the arena: all of a long one.
fn stored_part(key: &[u8]) -> &[u8]
    ensures { result.now ≡ stored_bytes key.now }
{
    if key.len() <= 15 {
        return &[];
    }
    key
}

// The order of pairs. What most comparisons need stands in the entries.
pub(crate) fn compare(arena: &[u8], x: &Entry, y: &Entry) -> Ordering
    ensures { result ≡ entry_cmp arena.now x.now y.now }
{
    match x.head.first.cmp(&y.head.first) {
        Ordering::Equal => match x.head.second.cmp(&y.head.second) {
            Ordering::Equal => compare_below(arena, x, y),
            other => other,
        },
        other => other,
    }
}

// Puts entries in order.
pub(crate) fn sort(arena: &[u8], entries: &mut Vec<Entry>)
    ensures same { IsPermutation entries.old.items entries.new.items }
    ensures sorted { IsSorted (entry_cmp arena.now) entries.new.items }
{
    entries.sort_unstable_by(|x, y| compare(arena, x, y));
}

// Whether two entries have one key.
pub(crate) fn is_same_key(arena: &[u8], x: &Entry, y: &Entry) -> bool
    requires first { IsEntry arena.now x.now }
    requires second { IsEntry arena.now y.now }
    ensures { result ≡ bytes_eq (key_in arena.now x.now) (key_in arena.now y.now) }
{
    if x.head.first != y.head.first {
        return false;
    }
    if x.head.second != y.head.second {
        return false;
    }
    stored_key(arena, x) == stored_key(arena, y)
}

// Whether an entry has this key.
pub(crate) fn has_key(arena: &[u8], entry: &Entry, key: &[u8]) -> bool
    requires entry { IsEntry arena.now entry.now }
    requires bytes { AllByRecursion (λ b. b < 256) key.now }
    ensures { result ≡ bytes_eq (key_in arena.now entry.now) key.now }
{
    let head = Head::of(key);
    if entry.head.first != head.first {
        return false;
    }
    if entry.head.second != head.second {
        return false;
    }
    if key.len() <= 15 {
        return true;
    }
    stored_key(arena, entry) == key
}

// The key, given the bytes of the head.
pub(crate) fn key_of<'a>(arena: &'a [u8], entry: &Entry, bytes: &'a [u8; 16]) -> &'a [u8]
    requires { bytes.now ≡ head_bytes entry.now.head }
    ensures { result.now ≡ key_in arena.now entry.now }
{
    if entry.stored_len == 0 {
        piece(bytes, (entry.head.second % 256) as u32)
    } else {
        stored_key(arena, entry)
    }
}

// The text.
pub(crate) fn text_of<'a>(arena: &'a [u8], entry: &Entry) -> &'a [u8]
    ensures { result.now ≡ text_in arena.now entry.now }
{
    let stored = behind(arena, entry.at);
    piece(behind(stored, entry.stored_len as usize), entry.text_len)
}

// The order of entries with one head.
fn compare_below(arena: &[u8], x: &Entry, y: &Entry) -> Ordering
    requires first { x.now.head.first ≡ y.now.head.first }
    requires second { x.now.head.second ≡ y.now.head.second }
    ensures { result ≡ entry_cmp arena.now x.now y.now }
{
    if x.stored_len == 0 && y.stored_len == 0 {
        return compare_values(arena, x, y);
    }
    match stored_key(arena, x).cmp(stored_key(arena, y)) {
        Ordering::Equal => compare_values(arena, x, y),
        other => other,
    }
}

// The order of values.
fn compare_values(arena: &[u8], x: &Entry, y: &Entry) -> Ordering
    ensures { result ≡ value_cmp arena.now x.now y.now }
{
    match x.number.cmp(&y.number) {
        Ordering::Equal => {
            if x.text_len == 0 && y.text_len == 0 {
                Ordering::Equal
            } else {
                text_of(arena, x).cmp(text_of(arena, y))
            }
        }
        other => other,
    }
}

// The part of the key that stands in the arena.
fn stored_key<'a>(arena: &'a [u8], entry: &Entry) -> &'a [u8]
    ensures { result.now ≡ stored_key_of arena.now entry.now }
{
    piece(behind(arena, entry.at), entry.stored_len)
}

// The first bytes, as many as there are of so many.
fn piece(bytes: &[u8], len: u32) -> &[u8]
    ensures { result.now ≡ take len bytes.now }
{
    let (piece, _) = bytes.split_at(bytes.len().min(len as usize));
    piece
}

// The bytes from a place on.
fn behind(bytes: &[u8], at: usize) -> &[u8]
    ensures { result.now ≡ drop at bytes.now }
{
    let (_, rest) = bytes.split_at(bytes.len().min(at));
    rest
}
