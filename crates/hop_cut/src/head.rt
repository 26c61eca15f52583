//! The head of a snapshot, and its reader.
ghost use Rattle.std.specs.Prelude.{◌≡◌, ◌<◌, ◌++◌, ℕ, List, IfOk, Option, MatchResult, MatchOption};
ghost use Rattle.hop_cut.specs.Snapshot.{Header, IsHeader, header_lines, text_of, IsHead, IsFirstNotDue, declared_part};
ghost use Rattle.hop_cut.specs.Lines.{IsSplitText};
ghost use Rattle.hop_cut.specs.declared.head.SplitLine.{SplitLine};
ghost use Rattle.hop_cut.specs.Parts.{IsFirstPart, IsSplitsPart, SplitsStop};

use crate::lines::{job_line, number_line, reducer_line, split_line};
use crate::numbers::after;
use hop_base::limits::{MAX_MARK, MAX_SPLITS};
use hop_base::{Listed, NoMemory};
use hop_cover::{Declared, Declares};
use std::alloc::Global;
use thiserror::Error;

/// What the line of a split says that isn't `none`: what it declares, and the records that the split
/// has.
#[derive(Clone, Copy, Debug, PartialEq, Eq)]
pub struct SplitLine {
    pub declared: Declared,
    pub len: u32,
}

/// What a snapshot's header says, and where its body begins.
#[derive(Debug, Drop)]
pub struct SnapHead {
    /// The mark, 1 to 10,000.
    pub mark: u16,
    /// The reducer, counted from 0.
    pub reducer: u8,
    /// How many reducers there are, 1 to 8.
    pub reducers: u8,
    /// The progress of what is covered, at most 10,000.
    pub progress: u16,
    /// What each split declares.
    pub declared: Declares,
    /// The place of the body's first byte.
    pub body: u64,
}

/// Why a text is no snapshot.
#[derive(Clone, Copy, Debug, PartialEq, Eq, Error)]
pub enum SnapFault {
    /// The first line, counted from 1, that isn't the one due. A missing line counts.
    #[error("line {line} is not the one due")]
    NotASnapshot { line: u32 },
    #[error("no memory")]
    NoMemory,
}

// What the first five lines say, and what follows them.
#[derive(Clone, Copy)]
struct First<'a> {
    mark: u32,
    reducer: u32,
    reducers: u32,
    progress: u32,
    rest: &'a [u8],
}

// What the lines of the splits declare, and what follows the header.
#[derive(Drop)]
struct Splits<'a> {
    declared: Declares,
    rest: &'a [u8],
}

/// The head of a snapshot. `NotASnapshot` comes exactly where the text doesn't begin with a header, with
/// the first line that isn't the one due. Any body may follow.
pub fn cut_read(alloc: Global, bytes: &[u8]) -> Result<SnapHead, SnapFault>
    ensures found { IfOk result (IsHead bytes.now) }
    ensures refused { (line : ℕ) → result ≡ Err (SnapFault.NotASnapshot line) → IsFirstNotDue bytes.now line }

    // A text that begins with a header is read.
    ensures accepted { (header : Header) (body : List ℕ) → IsHeader header → bytes.now ≡ text_of (header_lines header) ++ body → (line : ℕ) → result ≡ Err (SnapFault.NotASnapshot line) → ⊥ }
{
    let first = match first_lines(bytes) {
        Ok(first) => first,
        Err(line) => return Err(SnapFault::NotASnapshot { line }),
    };
    match split_lines(alloc, first.rest) {
        Err(fault) => Err(fault),
        Ok(splits) => Ok(SnapHead {
            mark: first.mark as u16,
            reducer: first.reducer as u8,
            reducers: first.reducers as u8,
            progress: first.progress as u16,
            body: (bytes.len() - splits.rest.len()) as u64,
            declared: splits.declared,
        }),
    }
}

// The lines before those of the splits, or the number of the first that isn't due.
fn first_lines(text: &[u8]) -> Result<First<'_>, u32>
    ensures { MatchResult result (λ first. IsFirstPart text.now first.mark first.reducer first.reducers first.progress first.rest.now) (IsFirstNotDue text.now) }
{
    let Some(rest) = after(b"hop-snapshot 1\n", text) else {
        return Err(1);
    };
    let Some(rest) = job_line(rest) else {
        return Err(2);
    };
    let Some((mark, rest)) = number_line(b"mark ", 1, MAX_MARK as u32, rest) else {
        return Err(3);
    };
    let Some((reducer, reducers, rest)) = reducer_line(rest) else {
        return Err(4);
    };
    let Some((progress, rest)) = number_line(b"progress ", 0, MAX_MARK as u32, rest) else {
        return Err(5);
    };
    Ok(First {
        mark,
        reducer,
        reducers,
        progress,
        rest,
    })
}

// The lines of the splits up to the header's last line.
fn split_lines(alloc: Global, text: &[u8]) -> Result<Splits<'_>, SnapFault>
    ensures found { IfOk result (λ splits. IsSplitsPart text.now splits.declared splits.rest.now) }
    ensures refused { (line : ℕ) → result ≡ Err (SnapFault.NotASnapshot line) → SplitsStop text.now line }
{
    let mut declared = Listed::new(alloc);
    let mut rest = text;
    let mut i = 0;
    loop {
        if let Some(rest) = after(b"--\n", rest) {
            return Ok(Splits { declared, rest });
        }
        let Some((line, later)) = next_split(i, rest) else {
            return Err(SnapFault::NotASnapshot { line: i + 6 });
        };
        if let Err(NoMemory) = declared.push(declared_part(line)) {
            return Err(SnapFault::NoMemory);
        }
        rest = later;
        i += 1;
    }
}

// What the line of split i says, where there may be such a split, and what follows it.
fn next_split(i: u32, text: &[u8]) -> Option<(Option<SplitLine>, &[u8])>
    ensures { MatchOption result (i < 1024 → (s : Option SplitLine) (rest : List ℕ) → IsSplitText i text.now s rest → ⊥) (λ x. (i < 1024) × IsSplitText i text.now x.0 x.1.now) }
{
    if i < MAX_SPLITS {
        split_line(i, text)
    } else {
        None
    }
}

// What the line declares.
fn declared_part(line: Option<SplitLine>) -> Option<Declared>
    ensures { result ≡ declared_part line }
{
    match line {
        None => None,
        Some(line) => Some(line.declared),
    }
}
