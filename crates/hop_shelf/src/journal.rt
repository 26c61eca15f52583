//! A history with what is read off it: the coverage, the restart that is due, and the marks that are reached.
ghost use Rattle.std.specs.Prelude.{◌≡◌, ◌+◌, ◌^◌, ◌<◌, ◌≤◌, [], ℕ, length, All, IfOk, OnOk, IfSome, IfNone, IsTrue, ◌↔◌, ◌⊎◌, true, false, ◌==◌, ◌&&◌, if◌then◌else◌};
ghost use Rattle.std.specs.List.{list_any};
ghost use Rattle.hop_event.specs.History.{upto, winner, is_revoked};
ghost use Rattle.hop_event.specs.Legal.{restart_due, IsWon, AllSettled};
ghost use Rattle.hop_event.specs.Coverage.{declared, progress, cut_at};
ghost use Rattle.hop_shelf.specs.Journal.{marks_between, is_arrival, IsWinnerSmall};
ghost use Rattle.hop_cover.specs.Table.{MayBeNoted};

use hop_base::NoMemory;
use hop_base::limits::MAX_ATTEMPTS;
use hop_cover::{Coverage, Declared};
use hop_event::{Event, History};
use std::alloc::{AllocError, Global};
use std::marker::Model;

/// A history with what is read off it: its coverage, how many ranges arrived, whether a restart is
/// due, the progress up to which the marks were cut, and the greatest progress so far.
#[derive(Drop)]
pub struct Journal {
    history: History,
    coverage: Coverage,
    restarts: Vec<u32>,
    marks: Vec<u16>,
    count: u64,
    restart: bool,
    before: u16,
    top: u16,
}

impl Model for Journal {
    ghost use Rattle.hop_shelf.specs.Journal.{JournalValue, IsRecorded, marks_between};

    ghost Value = { JournalValue };

    ghost view = { λ j. record { events = j.history.events; spare = j.history.spare; lens = j.coverage.lens; tentative = j.coverage.tentative; restarts = j.restarts.items; marks = j.marks.items; due = marks_between j.before j.top j.marks.items } };

    ghost invariant = { λ j. IsRecorded j.history.events j.coverage j.restarts.items j.count j.restart j.before j.top };
}

// Whether the number is among these.
fn contains(items: &[u32], item: u64) -> bool
    ensures { result ≡ list_any (λ k. k == item) items.now }
{
    items.iter().any(|k| u64::from(*k) == item)
}

// Whether the event is an arrival.
fn is_arrival(e: &Event) -> bool
    ensures { result ≡ is_arrival e.now }
{
    matches!(e, Event::Arrive { part: _, via: _ })
}

// The marks above one progress and up to another.
fn between(alloc: Global, marks: &[u16], before: u16, top: u16) -> Result<Vec<u16>, AllocError>
    ensures { IfOk result (λ found. found.items ≡ marks_between before top marks.now) }
{
    marks
        .iter()
        .copied()
        .filter(|m| before < *m && *m <= top)
        .collect(alloc)
}

// The number of arrivals after an event.
fn counted(count: u64, arrival: bool) -> u64
    requires { count + 1 < 2 ^ 64 }
    ensures { result ≡ (if arrival then count + 1 else count) }
{
    if arrival { count + 1 } else { count }
}

// Whether a restart is due after an event.
fn restart_after(restarts: &[u32], count: u64, arrival: bool) -> bool
    ensures { result ≡ (arrival && list_any (λ k. k == count) restarts.now) }
{
    arrival && contains(restarts, count)
}

impl Journal {
    ghost use Rattle.hop_shelf.specs.Journal.{AddsEvent, IsBeginning};
    ghost use Rattle.hop_cover.specs.Table.{StandsFor};
    ghost use Rattle.hop_shelf.specs.Finish.{IsFirstNotDone, AllDone};

    /// The journal of the empty history.
    pub fn new(
        alloc: Global,
        coverage: Coverage,
        restarts: Vec<u32>,
        marks: Vec<u16>,
    ) -> Result<Journal, NoMemory>
        requires { StandsFor coverage [] }
        ensures begins { IfOk result (λ j. IsBeginning coverage.lens coverage.tentative restarts.items marks.items j) }
    {
        let history = History::new(alloc)?;
        let top = coverage.progress();
        Ok(Journal {
            history,
            coverage,
            restarts,
            marks,
            count: 0,
            restart: false,
            before: 0,
            top,
        })
    }

    /// Makes room for one event more.
    pub fn reserve(&mut self) -> Result<(), NoMemory>
        ensures same { self.new ≡ record self.old { spare = self.new.spare } }
        ensures room { OnOk result (1 ≤ self.new.spare) }
    {
        self.history.reserve()
    }

    /// Records an event.
    pub fn add(&mut self, e: Event)
        requires room { 1 ≤ self.old.spare }
        requires fits { MayBeNoted self.old.lens e }
        ensures adds { AddsEvent self.old e self.new }
        ensures few { length self.new.events < 2 ^ 64 }
    {
        self.history.push(e);
        self.coverage.note(e);
        self.before = self.top;
        self.top = self.coverage.progress().max(self.top);
        let arrival = is_arrival(&e);
        self.count = counted(self.count, arrival);
        self.restart = restart_after(&self.restarts, self.count, arrival);
    }

    /// Whether the run may have the attempt of the split.
    pub fn has_attempt(&self, i: u32, attempt: u8) -> bool
        ensures there { result ≡ true → (i < length self.now.lens) × (attempt < 16) }
        ensures absent { result ≡ false → (length self.now.lens ≤ i) ⊎ (16 ≤ attempt) }
    {
        i < self.splits() && attempt < MAX_ATTEMPTS
    }

    /// The records that are there of an attempt.
    pub fn upto(&self, i: u32, attempt: u8) -> u32
        requires { (i < length self.now.lens) × (attempt < 16) }
        ensures { result ≡ upto i attempt self.now.events }
    {
        self.coverage.upto(i, attempt)
    }

    /// Whether an attempt was revoked.
    pub fn is_revoked(&self, i: u32, attempt: u8) -> bool
        requires { (i < length self.now.lens) × (attempt < 16) }
        ensures { result ≡ is_revoked i attempt self.now.events }
    {
        self.coverage.is_revoked(i, attempt)
    }

    /// The attempt that won the split.
    pub fn winner(&self, i: u32) -> Option<u8>
        requires { i < length self.now.lens }
        ensures { result ≡ winner i self.now.events }
    {
        self.coverage.winner(i)
    }

    /// What the split declares.
    pub fn at(&self, i: u32) -> Option<Declared>
        requires { i < length self.now.lens }
        ensures { result ≡ declared self.now.tentative self.now.events i }
    {
        self.coverage.at(i)
    }

    /// The progress.
    pub fn progress(&self) -> u16
        ensures { result ≡ progress self.now.tentative self.now.lens self.now.events }
    {
        self.coverage.progress()
    }

    /// The number of splits.
    pub fn splits(&self) -> u32
        ensures { result ≡ length self.now.lens }
    {
        self.coverage.splits()
    }

    /// Whether the split's winner is there with all its records.
    pub fn is_won(&self, i: u32) -> bool
        requires { (i < length self.now.lens) × IsWinnerSmall i self.now.events }
        ensures { IsTrue result ↔ IsWon self.now.lens self.now.events i }
    {
        match self.coverage.winner(i) {
            None => false,
            Some(a) => self.coverage.upto(i, a) == self.coverage.split_len(i),
        }
    }

    // Whether the attempt is the winner or revoked.
    fn is_out(&self, i: u32, b: u8) -> bool
        requires { (i < length self.now.lens) × (b < 16) }
        ensures { IsTrue result ↔ ((winner i self.now.events ≡ Some b) ⊎ (is_revoked i b self.now.events ≡ true)) }
    {
        if self.coverage.is_revoked(i, b) {
            return true;
        }
        match self.coverage.winner(i) {
            None => false,
            Some(a) => a == b,
        }
    }

    /// Whether each attempt of the split below this number is the winner or revoked.
    pub fn is_settled(&self, i: u32, begun: u8) -> bool
        requires { (i < length self.now.lens) × (begun ≤ 16) }
        ensures { IsTrue result ↔ AllSettled self.now.events i begun }
    {
        for b in 0..begun {
            if !self.is_out(i, b) {
                return false;
            }
        }
        true
    }

    /// The marks whose cuts are due: the last event, or the empty history, first reached them.
    pub fn due(&self) -> Result<Vec<u16>, NoMemory>
        ensures due { IfOk result (λ marks. marks.items ≡ self.now.due) }
        ensures first { IfOk result (λ marks. All (λ m. cut_at self.now.tentative self.now.lens m self.now.events ≡ Some self.now.events) marks.items) }
    {
        let marks = between(*self.marks.allocator(), &self.marks, self.before, self.top)?;
        Ok(marks)
    }

    /// Whether the next event has to be a restart.
    pub fn restart_due(&self) -> bool
        ensures { result ≡ restart_due self.now.restarts self.now.events }
    {
        self.restart
    }

    /// The history.
    pub fn history(&self) -> &History
        ensures { result.now.events ≡ self.now.events }
    {
        &self.history
    }

    /// The history itself. It takes no memory.
    pub fn into_history(self) -> History
        ensures { result.events ≡ self.events }
    {
        let Journal {
            history,
            coverage: _,
            restarts: _,
            marks: _,
            count: _,
            restart: _,
            before: _,
            top: _,
        } = self;
        history
    }

    /// The number of events.
    pub fn len(&self) -> u64
        ensures { result ≡ length self.now.events }
    {
        self.history.len()
    }

    /// The cuts of the marks that are due were handed out.
    pub fn hand_out(&mut self)
        ensures { self.new ≡ record self.old { due = [] } }
    {
        self.before = self.top;
    }

    /// The first split that is not done.
    pub fn first_not_done(&self, begun: &[u8]) -> Option<u32>
        requires winners { (i : ℕ) → IsWinnerSmall i self.now.events }
        requires each { length begun.now ≡ length self.now.lens }
        requires few { All (λ b. b ≤ 16) begun.now }
        ensures found { IfSome result (IsFirstNotDone self.now begun.now) }
        ensures none { IfNone result (AllDone self.now begun.now) }
    {
        for i in 0..self.splits() {
            if !self.is_done(i, begun[i as usize]) {
                return Some(i);
            }
        }
        None
    }

    // Whether the split's winner is there whole, and each other attempt that was begun is revoked.
    fn is_done(&self, i: u32, begun: u8) -> bool
        requires { (i < length self.now.lens) × (begun ≤ 16) × IsWinnerSmall i self.now.events }
        ensures { IsTrue result ↔ (IsWon self.now.lens self.now.events i × AllSettled self.now.events i begun) }
    {
        self.is_won(i) && self.is_settled(i, begun)
    }
}
