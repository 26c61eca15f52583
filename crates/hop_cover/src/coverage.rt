//! What each split declares, and the progress.
ghost use Rattle.std.specs.Prelude.{◌≡◌, ℕ, ◌<◌, ◌≤◌, List, [], ◌∷◌, length, IfOk, slice_index, slice_set, map};
ghost use Rattle.hop_base.specs.Ranges.{AreLens};
ghost use Rattle.hop_event.specs.declared.event.Event.{Event};
ghost use Rattle.hop_event.specs.History.{upto, is_revoked, winner};
ghost use Rattle.hop_event.specs.Coverage.{declared, progress, score, records_of};
ghost use Rattle.hop_cover.specs.Rows.{row_declared, cleared, IsRow};
ghost use Rattle.hop_cover.specs.Table.{FitsSplit};

use crate::row::{self, Row, Try};
use hop_base::limits::MAX_MARK;
use hop_base::{Lens, Listed, NoMemory};
use hop_event::{Declared, Event};
use std::alloc::Global;
use std::marker::Model;

/// What each split declares, by split.
pub type Declares = Listed<Option<Declared>>;

/// What a history covers, kept as a table of the records that are there of each attempt, the winners
/// and the revocations, with the sum of the scores of the splits. It stands for each history off which
/// this table is read. (Progress and snapshots of NSDI 2010, "MapReduce Online"; the formula is this
/// project's own.)
#[derive(Debug, Drop)]
pub struct Coverage {
    lens: Vec<u32>,
    tentative: bool,
    rows: Vec<Row>,
    total: u64,
}

impl Model for Coverage {
    ghost use Rattle.hop_cover.specs.Table.{Table, IsSummed};

    ghost Value = { Table };

    ghost view = { λ c. record { lens = c.lens.items; tentative = c.tentative; rows = c.rows.items } };

    ghost invariant = { λ c. IsSummed c.lens.items c.tentative c.rows.items c.total };
}

// The score of a split with this row: 10,000 where all its records are declared.
fn score(row: &Row, tentative: bool, len: u32) -> u64
    requires some { 0 < len }
    requires fits { FitsSplit row.now len }
    ensures value { result ≡ score (records_of (row_declared tentative row.now)) len }
    ensures bound { result ≤ 10000 }
{
    match row::declared(row, tentative) {
        None => 0,
        Some(d) => MAX_MARK as u64 * u64::from(d.records) / u64::from(len),
    }
}

impl Coverage {
    ghost use Rattle.hop_cover.specs.Table.{StandsFor, MayBeNoted, row_at};

    /// The coverage of the empty history, for splits with these record counts. `tentative` says
    /// whether the records of an attempt that hasn't won may count.
    pub fn new(alloc: Global, lens: &Lens, tentative: bool) -> Result<Coverage, NoMemory>
        ensures lens { IfOk result (λ c. c.lens ≡ lens.now) }
        ensures wanted { IfOk result (λ c. c.tentative ≡ tentative) }
        ensures stands { IfOk result (λ c. StandsFor c []) }
    {
        let empty = Row {
            winner: None,
            tries: [Try {
                upto: 0,
                revoked: false,
            }; 16],
        };
        let lens = lens.as_slice();
        let rows = vec![in alloc; empty; lens.len()]?;
        let lens = Vec::from_slice(alloc, lens)?;
        Ok(Coverage {
            lens,
            tentative,
            rows,
            total: 0,
        })
    }

    /// One event more. For every history that the coverage stood for, it afterwards stands for that
    /// history with the event. It takes no memory, and touches one split but at a restart.
    pub fn note(&mut self, e: Event)
        requires { MayBeNoted self.old.lens e }
        ensures lens { self.new.lens ≡ self.old.lens }
        ensures wanted { self.new.tentative ≡ self.old.tentative }
        ensures stands { (h : List Event) → StandsFor self.old h → StandsFor self.new (e ∷ h) }
    {
        match e {
            Event::Arrive { part, via: _ } => {
                let row = self.row(part.split);
                self.replace(part.split, row::arrived(row, part.attempt, part.to));
            }
            Event::Won { split, attempt } => {
                let row = self.row(split);
                self.replace(split, row::won(row, attempt));
            }
            Event::Revoked { split, attempt } => {
                let row = self.row(split);
                self.replace(split, row::revoked(row, attempt));
            }
            Event::Restart => self.clear(),
            Event::Ignore {
                part: _,
                via: _,
                have: _,
            }
            | Event::Finish => {}
        }
    }

    /// What split `i` declares: the records of its winner; where it has none and tentative data is
    /// wanted, those of the unrevoked attempt with the most, the least attempt at a tie; none where
    /// that is no record.
    pub fn at(&self, i: u32) -> Option<Declared>
        requires { i < length self.now.lens }
        ensures { (h : List Event) → StandsFor self.now h → result ≡ declared self.now.tentative h i }
    {
        let row = &self.rows[i as usize];
        row::declared(row, self.tentative)
    }

    /// The progress, 0 to 10,000: the mean over the splits, rounded down, of 10,000 times the share of
    /// their records that is declared, each rounded down. Without splits it is 10,000.
    pub fn progress(&self) -> u16
        ensures value { (h : List Event) → StandsFor self.now h → result ≡ progress self.now.tentative self.now.lens h }
        ensures bound { result ≤ 10000 }
    {
        let lens: &[u32] = &self.lens;
        if lens.is_empty() {
            MAX_MARK
        } else {
            (self.total / lens.len() as u64) as u16
        }
    }

    /// The number of splits, at most 1,024.
    pub fn splits(&self) -> u32
        ensures value { result ≡ length self.now.lens }
        ensures lens { AreLens self.now.lens }
    {
        let lens: &[u32] = &self.lens;
        lens.len() as u32
    }

    /// The records of split `i`, at least one.
    pub fn split_len(&self, i: u32) -> u32
        requires { i < length self.now.lens }
        ensures value { result ≡ slice_index self.now.lens i }
        ensures some { 1 ≤ result }
    {
        self.lens[i as usize]
    }

    /// The records that are there of an attempt, in a row from the first.
    pub fn upto(&self, i: u32, attempt: u8) -> u32
        requires split { i < length self.now.lens }
        requires attempt { attempt < 16 }
        ensures { (h : List Event) → StandsFor self.now h → result ≡ upto i attempt h }
    {
        let row = self.row(i);
        row.tries[attempt as usize].upto
    }

    /// Whether an attempt was revoked.
    pub fn is_revoked(&self, i: u32, attempt: u8) -> bool
        requires split { i < length self.now.lens }
        requires attempt { attempt < 16 }
        ensures { (h : List Event) → StandsFor self.now h → result ≡ is_revoked i attempt h }
    {
        let row = self.row(i);
        row.tries[attempt as usize].revoked
    }

    /// The attempt that won split `i`, if one did.
    pub fn winner(&self, i: u32) -> Option<u8>
        requires { i < length self.now.lens }
        ensures { (h : List Event) → StandsFor self.now h → result ≡ winner i h }
    {
        let row = self.row(i);
        row.winner
    }

    // The row of split i.
    fn row(&self, i: u32) -> Row
        requires { i < length self.now.lens }
        ensures place { i < length self.now.rows }
        ensures value { result ≡ row_at self.now.rows i }
        ensures fits { FitsSplit result (slice_index self.now.lens i) }
    {
        self.rows[i as usize]
    }

    // Puts another row in its place, and its score in the sum.
    fn replace(&mut self, i: u32, row: Row)
        requires split { i < length self.old.lens }
        requires fits { FitsSplit row (slice_index self.old.lens i) }
        ensures { self.new ≡ record self.old { rows = slice_set self.old.rows i row } }
    {
        let len = self.lens[i as usize];
        let tentative = self.tentative;
        let old = &self.rows[i as usize];
        let before = score(old, tentative, len);
        let after = score(&row, tentative, len);
        self.total = self.total - before + after;
        self.rows[i as usize] = row;
    }

    // No records of any attempt are there.
    fn clear(&mut self)
        ensures whole { (i : ℕ) → i < length self.old.lens → (i < length self.old.rows) × IsRow (row_at self.old.rows i) }
        ensures cleared { self.new ≡ record self.old { rows = map cleared self.old.rows } }
    {
        row::clear(&mut self.rows);
        self.total = 0;
    }
}
