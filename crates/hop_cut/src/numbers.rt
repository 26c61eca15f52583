//! Numbers and fixed pieces at the beginning of a text.
ghost use Rattle.std.specs.Prelude.{◌≡◌, ◌<◌, ◌≤◌, ◌^◌, ◌++◌, ℕ, List, length, take, drop, true, MatchOption, decimal};
ghost use Rattle.std.specs.Char.{is_ascii_digit};
ghost use Rattle.std.specs.List.{list_all};
ghost use Rattle.hop_base.specs.Fronts.{StopsAt};
ghost use Rattle.hop_cut.specs.Numbers.{IsNumbered, is_name_byte};

use itoa::Buffer;

// How many digits the text begins with.
fn digits(text: &[u8]) -> usize
    ensures within { result ≤ length text.now }
    ensures all { list_all is_ascii_digit (take result text.now) ≡ true }
    ensures ends { StopsAt is_ascii_digit (drop result text.now) }
{
    let mut n = 0;
    while n < text.len() && text[n].is_ascii_digit() {
        n += 1;
    }
    n
}

// The number that these bytes write. Writing it again tells leading zeros.
fn value(digits: &[u8]) -> Option<u32>
    ensures { MatchOption result ((n : ℕ) → n < 2 ^ 32 → digits.now ≡ decimal n → ⊥) (λ n. digits.now ≡ decimal n) }
{
    let Ok(text) = std::str::from_utf8(digits) else {
        return None;
    };
    let Ok(n) = text.parse::<u32>() else {
        return None;
    };
    let mut buffer = Buffer::new();
    if buffer.format(n).as_bytes() == digits {
        Some(n)
    } else {
        None
    }
}

/// How many bytes the text begins with that a name may have.
pub(crate) fn name_len(text: &[u8]) -> usize
    ensures within { result ≤ length text.now }
    ensures all { list_all is_name_byte (take result text.now) ≡ true }
    ensures ends { StopsAt is_name_byte (drop result text.now) }
{
    let mut n = 0;
    while n < text.len() && is_name_byte(text[n]) {
        n += 1;
    }
    n
}

// Whether a name may have the byte.
fn is_name_byte(byte: u8) -> bool
    ensures { result ≡ is_name_byte byte }
{
    byte != b' ' && byte != b'\n'
}

/// What follows the piece.
pub(crate) fn after<'a>(piece: &[u8], text: &'a [u8]) -> Option<&'a [u8]>
    ensures { MatchOption result ((rest : List ℕ) → text.now ≡ piece.now ++ rest → ⊥) (λ rest. text.now ≡ piece.now ++ rest.now) }
{
    if text.len() < piece.len() {
        return None;
    }
    let (front, rest) = text.split_at(piece.len());
    if front == piece { Some(rest) } else { None }
}

/// The number behind the piece, in decimal without leading zeros, and what follows it.
pub(crate) fn numbered<'a>(piece: &[u8], text: &'a [u8]) -> Option<(u32, &'a [u8])>
    ensures { MatchOption result ((n : ℕ) (rest : List ℕ) → IsNumbered piece.now text.now n rest → ⊥) (λ r. IsNumbered piece.now text.now r.0 r.1.now) }
{
    let Some(text) = after(piece, text) else {
        return None;
    };
    let (digits, rest) = text.split_at(digits(text));
    let Some(n) = value(digits) else {
        return None;
    };
    Some((n, rest))
}
