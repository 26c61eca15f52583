//! The lines of a snapshot's header.
ghost use Rattle.std.specs.Prelude.{ℕ, List, Bool, MatchOption, Option};
ghost use Rattle.hop_cut.specs.Lines.{IsJobLine, IsReducerLine, IsNumberLine, IsSplitText, IsWordsOf, IsKind};
ghost use Rattle.hop_cut.specs.declared.head.SplitLine.{SplitLine};

use crate::head::SplitLine;
use crate::numbers::{after, name_len, numbered};
use hop_base::limits::{MAX_ATTEMPTS, MAX_RECORDS, MAX_REDUCERS};
use hop_event::Declared;

/// What follows the line of the job's name.
pub(crate) fn job_line(text: &[u8]) -> Option<&[u8]>
    ensures { MatchOption result ((name rest : List ℕ) → IsJobLine text.now name rest → ⊥) (λ rest. (name : List ℕ) × IsJobLine text.now name rest.now) }
{
    let Some(text) = after(b"job ", text) else {
        return None;
    };
    let (name, rest) = text.split_at(name_len(text));
    if name.is_empty() {
        return None;
    }
    let Some(rest) = after(b"\n", rest) else {
        return None;
    };
    Some(rest)
}

/// The number of a line that has the piece and one number from `low` to `high`, and what follows it.
pub(crate) fn number_line<'a>(
    piece: &[u8],
    low: u32,
    high: u32,
    text: &'a [u8],
) -> Option<(u32, &'a [u8])>
    ensures { MatchOption result ((n : ℕ) (rest : List ℕ) → IsNumberLine piece.now low high text.now n rest → ⊥) (λ r. IsNumberLine piece.now low high text.now r.0 r.1.now) }
{
    let Some((n, rest)) = numbered(piece, text) else {
        return None;
    };
    if n < low || high < n {
        return None;
    }
    let Some(rest) = after(b"\n", rest) else {
        return None;
    };
    Some((n, rest))
}

/// The reducer and the number of reducers, and what follows their line.
pub(crate) fn reducer_line(text: &[u8]) -> Option<(u32, u32, &[u8])>
    ensures { MatchOption result ((p r : ℕ) (rest : List ℕ) → IsReducerLine text.now p r rest → ⊥) (λ x. IsReducerLine text.now x.0 x.1 x.2.now) }
{
    let Some((p, rest)) = numbered(b"reducer ", text) else {
        return None;
    };
    let Some((r, rest)) = number_line(b" of ", 1, MAX_REDUCERS as u32, rest) else {
        return None;
    };
    if p < r { Some((p, r, rest)) } else { None }
}

/// What the line of split `i` says, and what follows it.
pub(crate) fn split_line(i: u32, text: &[u8]) -> Option<(Option<SplitLine>, &[u8])>
    ensures { MatchOption result ((s : Option SplitLine) (rest : List ℕ) → IsSplitText i text.now s rest → ⊥) (λ x. IsSplitText i text.now x.0 x.1.now) }
{
    let Some((n, words)) = numbered(b"split ", text) else {
        return None;
    };
    if n != i {
        return None;
    }
    if let Some(rest) = after(b" none\n", words) {
        return Some((None, rest));
    }
    match split_words(words) {
        None => None,
        Some((line, rest)) => Some((Some(line), rest)),
    }
}

// What a split declares, by the words behind its number, and what follows the line.
fn split_words(text: &[u8]) -> Option<(SplitLine, &[u8])>
    ensures { MatchOption result ((s : SplitLine) (rest : List ℕ) → IsWordsOf text.now s rest → ⊥) (λ x. IsWordsOf text.now x.0 x.1.now) }
{
    let Some((attempt, text)) = numbered(b" attempt ", text) else {
        return None;
    };
    let Some((records, text)) = numbered(b" records ", text) else {
        return None;
    };
    let Some((len, text)) = numbered(b" of ", text) else {
        return None;
    };
    if attempt >= MAX_ATTEMPTS as u32 || records == 0 || records > len || len > MAX_RECORDS {
        return None;
    }
    let Some((committed, rest)) = kind_words(text) else {
        return None;
    };
    let declared = Declared {
        attempt: attempt as u8,
        records,
        committed,
    };
    Some((SplitLine { declared, len }, rest))
}

// Whether the split's records are committed, and what follows the line.
fn kind_words(text: &[u8]) -> Option<(bool, &[u8])>
    ensures { MatchOption result ((committed : Bool) (rest : List ℕ) → IsKind text.now committed rest → ⊥) (λ x. IsKind text.now x.0 x.1.now) }
{
    if let Some(rest) = after(b" committed\n", text) {
        return Some((true, rest));
    }
    match after(b" tentative\n", text) {
        None => None,
        Some(rest) => Some((false, rest)),
    }
}
