//! What is held for one lane.
ghost use Rattle.std.specs.Prelude.{◌≡◌, ℕ, ◌≢◌, ◌+◌, ◌<◌, ◌≤◌, [], ◌↔◌, ◌++◌, List, map, IsTrue, IsSome, IfSome, IfErr, OnOk, OnErr, None, All};
ghost use Rattle.std.specs.Option.{option_map};
ghost use Rattle.std.specs.VecDeque.{deque_len, deque_capacity};
ghost use Rattle.hop_ports.specs.Causes.{OnlyRead};
ghost use Rattle.hop_shelf.specs.Names.{IsRun};
ghost use Rattle.hop_machine.specs.declared.words.Message.TheVariants as machine;
ghost use Rattle.hop_machine.specs.step.Steps.{Runs};
ghost use Rattle.hop_machine.specs.actors.MapperTurns.{flush, offer, with_row, joined, last_row};
ghost use Rattle.hop_machine.specs.home.Conditions.{Safe};
ghost use Rattle.hop_vault.specs.Rows.{Table};
ghost use Rattle.hop_inner.specs.Setups.{parts};
ghost use Rattle.hop_inner.specs.Messages.{said, FitsAt};
ghost use Rattle.hop_press.specs.Held.{said_row, said_lane, lane_left, no_lane, IsReady};
ghost use Rattle.hop_press.specs.Fits.{KeepsMade, AreChained, IsWhole, IsWholeRow, LaneFits, FitsRow, FitsLast, FitsAsRow};
ghost use Rattle.hop_press.specs.Faults.{FlushCause, FlushAnswered};

use crate::fault::FlushFault;
use crate::fetching::fetched;
use crate::row::Row;
use hop_base::{NoMemory, Part, RunName};
use hop_inner::steps::send_on;
use hop_inner::{Full, Knowing, Message, Reach};
use hop_laws::Job;
use hop_ports::Folder;
use hop_vault::Vault;
use std::alloc::Global;
use std::collections::VecDeque;
use std::marker::Model;

// At most one ready message, and behind it rows.
#[derive(Drop)]
pub struct Lane<K: Knowing> {
    ready: Option<Message<K>>,
    rows: VecDeque<Row<K>>,
}

impl<K: Knowing> Model for Lane<K> {
    ghost use Rattle.hop_press.specs.Held.{LaneValue};

    ghost Value = { LaneValue K };

    ghost view = { λ lane. record { ready = lane.ready; rows = lane.rows.items } };
}

impl<K: Knowing> Lane<K> {
    // Nothing is held. It takes no memory.
    pub fn new(alloc: Global) -> Lane<K>
        ensures { result ≡ no_lane }
    {
        Lane {
            ready: None,
            rows: VecDeque::new(alloc),
        }
    }

    // Whether nothing is held.
    pub fn is_clear(&self) -> bool
        ensures { IsTrue result ↔ (said_lane self.now ≡ []) }
    {
        self.ready.is_none() && self.rows.is_empty()
    }

    // Sends the message where nothing is held, and holds it where the lane is full; else it becomes the last
    // row, or part of it.
    pub fn offer<N: RunName, E: Reach<N, Seat = K>>(
        &mut self,
        reach: &mut E,
        w: u8,
        p: u8,
        msg: Message<K>,
    ) -> Result<(), NoMemory>
        requires ready { IsReady self.old }
        requires safe { Safe parts E.exact (offer w (said msg) p (said_lane self.old)) (E.deeds reach.old) }
        requires fits { FitsAt N.job N.records N.settings N.tells p K.knows K.board (E.deeds reach.old).ends.board msg }
        ensures runs { Runs E.exact (offer w (said msg) p (said_lane self.old)) (E.deeds reach.old) (lane_left result (said_lane self.new)) (E.deeds reach.new) }
        ensures ready { IsReady self.new }
        ensures fits { (table : Table)
            → LaneFits N.job N.records N.settings N.tells table K.knows K.board (E.deeds reach.old).ends.board p self.old
            → FitsAsRow table K.knows K.board (E.deeds reach.old).ends.board msg
            → LaneFits N.job N.records N.settings N.tells table K.knows K.board (E.deeds reach.new).ends.board p self.new }
    {
        if self.ready.is_some() {
            return self.add(row_of(msg));
        }
        if let Err(Full(msg)) = send_on(reach, w, p, msg) {
            self.ready = Some(msg);
        }
        Ok(())
    }

    // The row becomes the last one, or part of it.
    fn add(&mut self, row: Row<K>) -> Result<(), NoMemory>
        ensures ready { self.new.ready ≡ self.old.ready }
        ensures ok { OnOk result (map said_row self.new.rows ≡ with_row (map said_row self.old.rows) (said_row row)) }
        ensures err { OnErr result (self.new ≡ self.old) }
        ensures fits { (table : Table) (name : List ℕ)
            → All (FitsRow table K.knows K.board name) self.old.rows → FitsLast table K.knows K.board name row
            → All (FitsRow table K.knows K.board name) self.new.rows }
    {
        self.rows.reserve(1)?;
        match self.rows.pop_back() {
            None => self.rows.push_back_reserved(row),
            Some(last) => push_joined(&mut self.rows, last, row),
        }
        Ok(())
    }

    // Sends what is held, in order, until the lane is full.
    pub fn flush<N: RunName, E: Reach<N, Seat = K>, J: Job, V: Folder>(
        &mut self,
        alloc: Global,
        reach: &mut E,
        w: u8,
        p: u8,
        job: &J,
        vault: &mut Vault<V>,
    ) -> Result<(), FlushFault>
        requires run { IsRun N.job N.records N.settings }
        requires job { J.meaning job.now ≡ N.job }
        requires below { p < N.settings.reducers }
        requires keeps { KeepsMade N.job N.records N.settings (V.seen vault.old.folder).held vault.old.rows }
        requires tells { IsTrue N.tells → IsSome (V.seen vault.old.folder).held }
        requires ready { IsReady self.old }
        requires fits { LaneFits N.job N.records N.settings N.tells vault.old.rows K.knows K.board (E.deeds reach.old).ends.board p self.old }
        requires safe { Safe parts E.exact (flush w p (said_lane self.old)) (E.deeds reach.old) }
        ensures runs { Runs E.exact (flush w p (said_lane self.old)) (E.deeds reach.old) (lane_left result (said_lane self.new)) (E.deeds reach.new) }
        ensures ready { OnOk result (IsReady self.new) }
        ensures fits { LaneFits N.job N.records N.settings N.tells vault.new.rows K.knows K.board (E.deeds reach.new).ends.board p self.new }
        ensures rows { vault.new.rows ≡ vault.old.rows }
        ensures worker { vault.new.worker ≡ vault.old.worker }
        ensures left { OnlyRead (V.seen vault.old.folder) (V.seen vault.new.folder) }
        ensures no_fault { OnOk result ((V.seen vault.new.folder).gets ≡ (V.seen vault.old.folder).gets) }
        ensures answered { IfErr result (FlushAnswered (V.seen vault.old.folder) (V.seen vault.new.folder)) }
        ensures cause { IfErr result (FlushCause V.seen vault.old vault.new p) }
    {
        while let Some(msg) = self.ready.take() {
            if let Err(Full(msg)) = send_on(reach, w, p, msg) {
                self.ready = Some(msg);
                return Ok(());
            }
            self.ready_first::<N, J, V>(alloc, job, vault, p)?;
        }
        Ok(())
    }

    // The first row becomes the ready message: a range is read back.
    fn ready_first<N: RunName, J: Job, V: Folder>(
        &mut self,
        alloc: Global,
        job: &J,
        vault: &mut Vault<V>,
        p: u8,
    ) -> Result<(), FlushFault>
        requires run { IsRun N.job N.records N.settings }
        requires job { J.meaning job.now ≡ N.job }
        requires below { p < N.settings.reducers }
        requires keeps { KeepsMade N.job N.records N.settings (V.seen vault.old.folder).held vault.old.rows }
        requires tells { IsTrue N.tells → IsSome (V.seen vault.old.folder).held }
        requires none { self.old.ready ≡ None }
        requires whole { All (IsWholeRow vault.old.rows) self.old.rows }
        ensures ok { OnOk result (said_lane self.new ≡ map said_row self.old.rows) }
        ensures ready { OnOk result (IsReady self.new) }
        ensures err { OnErr result (self.new ≡ self.old) }
        ensures some { OnErr result (map said_row self.old.rows ≢ []) }
        ensures fits { (name : List ℕ) → All (FitsRow vault.old.rows K.knows K.board name) self.old.rows
            → LaneFits N.job N.records N.settings N.tells vault.old.rows K.knows K.board name p self.new }
        ensures rows { vault.new.rows ≡ vault.old.rows }
        ensures worker { vault.new.worker ≡ vault.old.worker }
        ensures left { OnlyRead (V.seen vault.old.folder) (V.seen vault.new.folder) }
        ensures no_fault { OnOk result ((V.seen vault.new.folder).gets ≡ (V.seen vault.old.folder).gets) }
        ensures answered { IfErr result (FlushAnswered (V.seen vault.old.folder) (V.seen vault.new.folder)) }
        ensures cause { IfErr result (FlushCause V.seen vault.old vault.new p) }
    {
        let Some(row) = self.rows.pop_front() else {
            return Ok(());
        };
        match row {
            Row::Notice {
                split,
                attempt,
                known,
            } => {
                self.ready = Some(Message::Notice {
                    split,
                    attempt,
                    known,
                });
                Ok(())
            }
            Row::Range(part) => match fetched::<N, J, V>(alloc, job, vault, part, p) {
                Ok(parcel) => {
                    self.ready = Some(Message::Parcel(parcel));
                    Ok(())
                }
                Err(fault) => {
                    self.rows.push_front_reserved(Row::Range(part));
                    Err(fault)
                }
            },
        }
    }
}

// A message as a row: of a parcel the range alone, since the vault has its run.
fn row_of<K: Knowing>(msg: Message<K>) -> Row<K>
    ensures said { said_row result ≡ said msg }
    ensures fits { (table : Table) (name : List ℕ) → FitsAsRow table K.knows K.board name msg → FitsLast table K.knows K.board name result }
{
    match msg {
        Message::Parcel(parcel) => Row::Range(parcel.part),
        Message::Notice {
            split,
            attempt,
            known,
        } => Row::Notice {
            split,
            attempt,
            known,
        },
    }
}

// The last row and one behind it come last, as one row where they join.
fn push_joined<K: Knowing>(rows: &mut VecDeque<Row<K>>, last: Row<K>, row: Row<K>)
    requires { deque_len rows.old + 2 ≤ deque_capacity rows.old }
    ensures rows { map said_row rows.new.items ≡ map said_row rows.old.items ++ last_row (joined (said_row last) (said_row row)) (said_row last) (said_row row) }
    ensures fits { (table : Table) (name : List ℕ)
        → All (FitsRow table K.knows K.board name) rows.old.items → FitsRow table K.knows K.board name last → FitsLast table K.knows K.board name row
        → All (FitsRow table K.knows K.board name) rows.new.items }
{
    match joined(&last, &row) {
        Some(both) => rows.push_back_reserved(Row::Range(both)),
        None => {
            rows.push_back_reserved(last);
            rows.push_back_reserved(row);
        }
    }
}

// The range of two rows, where they are ranges that follow each other.
fn joined<K: Knowing>(last: &Row<K>, row: &Row<K>) -> Option<Part>
    ensures joined { joined (said_row last.now) (said_row row.now) ≡ option_map machine.Range result }
    ensures whole { (table : Table) (name : List ℕ)
        → FitsRow table K.knows K.board name last.now → FitsLast table K.knows K.board name row.now
        → IfSome result (IsWhole table) }
{
    match last {
        Row::Notice { .. } => None,
        Row::Range(before) => match row {
            Row::Notice { .. } => None,
            Row::Range(after) => continued(before, after),
        },
    }
}

// A range and one that goes on where it ends, in the same attempt, as one.
fn continued(before: &Part, after: &Part) -> Option<Part>
    ensures joined { joined (machine.Range before.now) (machine.Range after.now) ≡ option_map machine.Range result }
    ensures whole { (table : Table) → AreChained table → IsWhole table before.now → IsWhole table after.now → IfSome result (IsWhole table) }
{
    if after.split == before.split && after.attempt == before.attempt && after.from == before.to {
        Some(Part {
            to: after.to,
            ..*before
        })
    } else {
        None
    }
}
