//! A lane of one thread.
ghost use Rattle.std.specs.Prelude.{◌≡◌, ℕ, ◌<◌, [], ◌∷◌, ◌++◌, IfOk};
ghost use Rattle.hop_inner.specs.Lines.{Key};
ghost use Rattle.hop_lane.specs.Logs.{key_in};

use atomic_table::{Play, Seat, Table, TableRule};
use hop_base::NoMemory;
use hop_inner::{Full, Knowing, LaneRule, Receiver, Sender};
use std::alloc::Global;
use std::collections::{LinkedList, VecDeque};
use std::marker::{Brand, Model, PhantomData};

/// The key of a lane that is being made.
pub trait LaneKey {
    ghost key: { Key };
}

impl LaneKey for Brand {
    ghost use Rattle.hop_inner.specs.Lines.{no_key};

    ghost key = { no_key };
}

/// What a lane's seat knows. No value of it is made.
pub struct Log<T> {
    pub mapper: u8,
    pub reducer: u8,
    pub board: LinkedList<u64>,
    pub taken: LinkedList<T>,
}

struct Anything;

impl<T> TableRule<T, Log<T>, ()> for Anything {
    ghost use Rattle.std.specs.Prelude.{[]};

    ghost holds = { λ _ _. Unit {0} };

    ghost first = { λ _. record { mapper = 0; reducer = 0; board = []; taken = [] } };
}

// The lane gets its key.
struct Keyed<K> {
    key: PhantomData<K>,
}

impl<T, K: LaneKey> Play<T, Log<T>> for Keyed<K> {
    ghost use Rattle.std.specs.Prelude.{◌≡◌};
    ghost use Rattle.hop_lane.specs.Logs.{key_in};

    ghost then = { λ s v n w. (key_in w.0 ≡ K.key) × (w.0.taken ≡ v.0.taken) × (w.1 ≡ v.1) };
}

// A message is taken.
struct Taken;

impl<T> Play<T, Log<T>> for Taken {
    ghost use Rattle.std.specs.Prelude.{◌≡◌, ◌++◌};
    ghost use Rattle.hop_lane.specs.Noted.{noted};

    ghost then = { λ s v n w. (w.0 ≡ record v.0 { taken = v.0.taken ++ noted s.said }) × (w.1 ≡ v.1) };
}

#[derive(Drop)]
struct Notes<T: Drop> {
    table: Table<T, Log<T>, (), Anything, Global>,
    seat: Seat<T, Log<T>>,
    ghost own: { seat.table_id ≡ table.shared.table_id },
    ghost one: { table.shared.table_id.words ≡ 1 },
}

// The lane's notes get the key of a lane from this mapper to this reducer, by the board of a seat.
fn give_key<T: Drop, S: Knowing, K: LaneKey>(
    notes: &mut Notes<T>,
    _mapper: u8,
    _reducer: u8,
    _seat: &S,
)
    ensures key { key_in notes.new.seat.me.0 ≡ K.key }
    ensures taken { notes.new.seat.me.0.taken ≡ notes.old.seat.me.0.taken }
{
    let Notes { table, seat } = notes;
    table.shared.load::<Keyed<K>>(seat, 0);
}

impl<T: Drop> Notes<T> {
    fn new<S: Knowing>(
        alloc: Global,
        mapper: u8,
        reducer: u8,
        seat: &S,
    ) -> Result<Notes<T>, NoMemory>
        ensures key { IfOk result (λ n. key_in n.seat.me.0 ≡ record { mapper = mapper; reducer = reducer; board = S.board seat.now }) }
        ensures taken { IfOk result (λ n. n.seat.me.0.taken ≡ []) }
    {
        let (table, own) = Table::of_words(alloc, &[0], &())?;
        let mut notes = Notes { table, seat: own };
        give_key::<T, S, Brand>(&mut notes, mapper, reducer, seat);
        Ok(notes)
    }

    fn note_taken(&mut self, x: &T)
        ensures log { self.new.seat.me.0 ≡ record self.old.seat.me.0 { taken = self.old.seat.me.0.taken ++ x.now ∷ [] } }
        ensures name { self.new.table.shared.table_id ≡ self.old.table.shared.table_id }
    {
        let Notes { table, seat } = self;
        table
            .shared
            .compare_exchange_with::<Taken>(seat, 0, 0, 0, x);
    }
}

/// A lane of one thread, which is its own two ends. What was taken stands in proofs alone.
#[derive(Drop)]
pub struct PlainLane<T: Drop, L: LaneRule<T>> {
    queue: VecDeque<T>,
    notes: Notes<T>,
    capacity: usize,
    fulls: u64,
    nones: u64,
    rule: PhantomData<L>,
}

impl<T: Drop, L: LaneRule<T>> Model for PlainLane<T, L> {
    ghost use Rattle.hop_inner.specs.Lines.{name_of};
    ghost use Rattle.hop_lane.specs.PlainLanes.{Lane};
    ghost use Rattle.hop_lane.specs.Logs.{key_in};

    ghost Value = { Lane T };

    ghost use Rattle.std.specs.Prelude.{◌≡◌, ◌≤◌, ◌++◌};
    ghost use Rattle.std.specs.VecDeque.{deque_len, deque_capacity};
    ghost use Rattle.hop_inner.specs.Lines.{EachAllowed};

    ghost view = { λ a. record {
      name = name_of a.notes.table.shared.table_id;
      key = key_in a.notes.seat.me.0;
      taken = a.notes.seat.me.0.taken;
      held = a.queue.items;
      fulls = a.fulls;
      nones = a.nones;
    } };

    ghost invariant = { λ a. (a.capacity ≡ L.capacity) × (deque_len a.queue ≤ a.capacity) × (a.capacity ≤ deque_capacity a.queue)
        × EachAllowed (L.allows (key_in a.notes.seat.me.0)) (a.notes.seat.me.0.taken ++ a.queue.items) };
}

impl<T: Drop, L: LaneRule<T>> PlainLane<T, L> {
    /// An empty lane of this capacity, at least 1, from a mapper to a reducer. Which lane it is, and that its notices bring seats of the board that `seat` is of, stands in proofs alone.
    pub fn new<S: Knowing>(
        alloc: Global,
        capacity: u8,
        mapper: u8,
        reducer: u8,
        seat: &S,
    ) -> Result<PlainLane<T, L>, NoMemory>
        requires some { 0 < capacity }
        requires rule { capacity ≡ L.capacity }
        ensures key { IfOk result (λ l. l.key ≡ record { mapper = mapper; reducer = reducer; board = S.board seat.now }) }
        ensures taken { IfOk result (λ l. l.taken ≡ []) }
        ensures held { IfOk result (λ l. l.held ≡ []) }
        ensures counts { IfOk result (λ l. (l.fulls ≡ 0) × (l.nones ≡ 0)) }
    {
        let queue = VecDeque::with_capacity(alloc, capacity as usize)?;
        let notes = Notes::new(alloc, mapper, reducer, seat)?;
        Ok(PlainLane {
            queue,
            notes,
            capacity: capacity as usize,
            fulls: 0,
            nones: 0,
            rule: PhantomData,
        })
    }
}

impl<T: Drop, L: LaneRule<T>> Sender<T, L> for PlainLane<T, L> {
    ghost use Rattle.std.specs.Prelude.{true};
    ghost use Rattle.hop_lane.specs.PlainLanes.{line_of};

    ghost exact = { true };

    ghost line = { line_of };

    fn send(&mut self, msg: T) -> Result<(), Full<T>> {
        if self.queue.len() >= self.capacity {
            self.fulls = self.fulls.saturating_add(1);
            return Err(Full(msg));
        }
        self.queue.push_back_reserved(msg);
        Ok(())
    }
}

impl<T: Drop, L: LaneRule<T>> Receiver<T, L> for PlainLane<T, L> {
    ghost use Rattle.std.specs.Prelude.{true};
    ghost use Rattle.hop_lane.specs.PlainLanes.{line_of};

    ghost exact = { true };

    ghost line = { line_of };

    fn take(&mut self) -> Option<T> {
        let Some(msg) = self.queue.pop_front() else {
            self.nones = self.nones.saturating_add(1);
            return None;
        };
        self.notes.note_taken(&msg);
        Some(msg)
    }
}
