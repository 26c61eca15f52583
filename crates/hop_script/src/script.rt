//! Fault scripts.
ghost use Rattle.std.specs.Prelude.{◌≡◌, ◌<◌, ◌^◌, ◌==◌, None, List, map, filter, MatchOption, IfOk, IfErr, OnOk, length};
ghost use Rattle.hop_base.specs.Sorted.{ord};
ghost use Rattle.hop_base.specs.Run.{RestartLine, no_lines, fails_at, restarts_of, delay_of};
ghost use Rattle.hop_script.specs.declared.line.Line.{Line};
ghost use Rattle.hop_script.specs.declared.draft.Restart.{Restart};
ghost use Rattle.hop_script.specs.Draft.{IsDraftOf, HasRestarts, BeginsBadly, Begins};
ghost use Rattle.hop_script.specs.Kept.{lines_from};
ghost use Rattle.hop_script.specs.Script.{script_of, by_kinds, restart_cmp, first_bad, BadCause};

use crate::draft::{Attempt, Draft, Restart};
use crate::fault::LineFault;
use crate::line::line_of;
use crate::text::next_line;
use hop_base::NoMemory;
use hop_base::limits::MAX_REDUCERS;
use std::alloc::Global;
use std::collections::{BTreeMap, BTreeSet};
use std::marker::Model;

/// Where attempts fail, reducers restart and workers idle. Lines on what a run hasn't got have no effect
/// there.
#[derive(Drop)]
pub struct Script {
    fails: BTreeMap<Attempt, u32>,
    // The arrivals after which the reducer of each partition restarts, ascending.
    restarts: Vec<Vec<u32>>,
    delays: BTreeMap<u8, u32>,
}

impl Model for Script {
    ghost use Rattle.hop_base.specs.Run.{ScriptLines};
    ghost use Rattle.hop_script.specs.Kept.{script_view};

    ghost Value = { ScriptLines };

    ghost view = { script_view };
}

impl Script {
    /// The script without lines. It takes no memory.
    pub fn empty(alloc: Global) -> Script
        ensures { result ≡ no_lines }
    {
        Script {
            fails: BTreeMap::new(alloc),
            restarts: Vec::new(alloc),
            delays: BTreeMap::new(alloc),
        }
    }

    /// The script of a text. Each line ends with a line feed and is `fail SPLIT ATTEMPT AT`,
    /// `restart PARTITION ARRIVALS` or `delay WORKER TURNS`, with single spaces and numbers without
    /// leading zeros in the ranges of [`Line`]. A line is bad if it isn't so, or if an earlier line
    /// names the same attempt, the same restart or the same worker. `BadLine` comes exactly where there
    /// is a bad line, with the first one. The text is below 2^32 bytes.
    pub fn read(alloc: Global, bytes: &[u8]) -> Result<Script, LineFault>
        requires { length bytes.now < 2 ^ 32 }
        ensures value { IfOk result (λ script. script ≡ script_of bytes.now) }
        ensures accepted { OnOk result (first_bad bytes.now ≡ None) }
        ensures cause { IfErr result (BadCause (first_bad bytes.now)) }
    {
        let mut draft = Draft::new(alloc);
        let mut rest = bytes;
        let mut number = 0;
        while !rest.is_empty() {
            number += 1;
            match read_line(&mut draft, rest) {
                Ok(Some(after)) => rest = after,
                Ok(None) => return Err(LineFault::BadLine { line: number }),
                Err(NoMemory) => return Err(LineFault::NoMemory),
            }
        }
        match Script::from_draft(alloc, draft) {
            Ok(script) => Ok(script),
            Err(NoMemory) => Err(LineFault::NoMemory),
        }
    }

    // The script of the lines that were read.
    fn from_draft(alloc: Global, draft: Draft) -> Result<Script, NoMemory>
        ensures { (lines : List Line) → IsDraftOf draft lines → IfOk result (λ script. script ≡ by_kinds lines) }
    {
        let Draft {
            fails,
            restarts,
            delays,
        } = draft;
        let restarts = lists_of(alloc, &restarts)?;
        Ok(Script {
            fails,
            restarts,
            delays,
        })
    }

    /// After how many of its records attempt `attempt` of split `split` fails, if it does.
    pub fn fails_at(&self, split: u32, attempt: u8) -> Option<u32>
        ensures { result ≡ fails_at self.now split attempt }
    {
        self.fails.get(&Attempt { split, attempt }).copied()
    }

    /// After which of its arrivals, counted from 1, the reducer of partition `p` restarts, ascending.
    pub fn restarts(&self, p: u8) -> &[u32]
        ensures { result.now ≡ restarts_of self.now p }
    {
        if (p as usize) < self.restarts.len() {
            self.restarts[p as usize].as_slice()
        } else {
            &[]
        }
    }

    /// How many of its first turns worker `w` idles.
    pub fn delay(&self, w: u8) -> u32
        ensures { result ≡ delay_of self.now w }
    {
        self.delays.get(&w).copied().unwrap_or(0)
    }
}

// Adds the first line of the text to the draft, and gives the text behind it; None where it is bad.
fn read_line<'a>(draft: &mut Draft, text: &'a [u8]) -> Result<Option<&'a [u8]>, NoMemory>
    requires { 0 < length text.now }
    ensures { (lines : List Line) → IsDraftOf draft.old lines → IfOk result (λ found. MatchOption found (BeginsBadly text.now lines) (λ after. Begins text.now lines draft.new after.now)) }
{
    let Some((bytes, after)) = next_line(text) else {
        return Ok(None);
    };
    let Some(line) = line_of(bytes) else {
        return Ok(None);
    };
    if draft.add(line)? {
        Ok(Some(after))
    } else {
        Ok(None)
    }
}

// The arrivals of the partition, ascending.
fn arrivals_of(
    alloc: Global,
    restarts: &BTreeSet<Restart>,
    partition: u8,
) -> Result<Vec<u32>, NoMemory>
    ensures { IfOk result (λ arrivals. arrivals.items ≡ map (λ (restart : Restart). restart.arrivals) (filter (λ (restart : Restart). restart.partition == partition) restarts.now.keys)) }
{
    let arrivals = restarts
        .iter()
        .filter(|restart| restart.partition == partition)
        .map(|restart| restart.arrivals)
        .collect(alloc)?;
    Ok(arrivals)
}

// The arrivals of each partition.
fn lists_of(alloc: Global, restarts: &BTreeSet<Restart>) -> Result<Vec<Vec<u32>>, NoMemory>
    ensures { (lines : List RestartLine) → HasRestarts restarts.now lines → IfOk result (λ lists. lines_from 0 (map (λ list. list.items) lists.items) ≡ ord restart_cmp lines) }
{
    let mut lists = Vec::with_capacity(alloc, MAX_REDUCERS as usize)?;
    for partition in 0..MAX_REDUCERS {
        lists.push(arrivals_of(alloc, restarts, partition)?)?;
    }
    Ok(lists)
}
