//! A lock of one thread.
ghost use Rattle.std.specs.Prelude.{◌≡◌, [], false, IfOk};

use atomic_table::{Play, Seat, Table, TableRule};
use hop_base::NoMemory;
use hop_event::Event;
use hop_inner::{Keep, Logged};
use std::alloc::Global;
use std::collections::LinkedList;
use std::marker::Model;

/// What is known of the value while it is out. No value of it is made.
pub struct Memo {
    pub number: u64,
    pub events: LinkedList<Event>,
    pub due: LinkedList<u16>,
}

struct Anything;

impl<V> TableRule<V, Memo, ()> for Anything {
    ghost use Rattle.std.specs.Prelude.{[]};

    ghost holds = { λ _ _. Unit {0} };

    ghost first = { λ _. record { number = 0; events = []; due = [] } };
}

// The value that is announced is remembered.
struct Notes;

impl<V: Logged> Play<V, Memo> for Notes {
    ghost use Rattle.std.specs.Prelude.{◌≡◌};
    ghost use Rattle.hop_crew.specs.PlainKeeps.{memo_of};

    ghost then = { λ s v n w. (w.0 ≡ memo_of V.value V.number s.said v.0) × (w.1 ≡ v.1) };
}

/// A lock of one thread, which is its recorder's end.
#[derive(Drop)]
pub struct PlainKeep<V: Logged> {
    value: Option<V>,
    busy: u64,
    table: Table<V, Memo, (), Anything, Global>,
    seat: Seat<V, Memo>,
}

impl<V: Logged> Model for PlainKeep<V> {
    ghost use Rattle.std.specs.Prelude.{◌≡◌, is_none};
    ghost use Rattle.hop_inner.specs.Locks.{Lock};
    ghost use Rattle.hop_crew.specs.PlainKeeps.{Remembers};

    ghost Value = { Lock };

    ghost view = { λ a. record { kept = record { events = a.seat.me.0.events; due = a.seat.me.0.due; held = is_none a.value; busy = a.busy }; number = a.seat.me.0.number } };

    ghost invariant = { λ a. (a.seat.table_id ≡ a.table.shared.table_id) × (a.table.shared.table_id.words ≡ 1) × Remembers V.value V.number a.value a.seat.me.0 };
}

impl<V: Logged> PlainKeep<V> {
    /// A free lock over the value.
    pub fn new(alloc: Global, value: V) -> Result<PlainKeep<V>, NoMemory>
        requires { (V.value value).events ≡ [] }
        ensures events { IfOk result (λ k. k.kept.events ≡ []) }
        ensures due { IfOk result (λ k. k.kept.due ≡ (V.value value).due) }
        ensures free { IfOk result (λ k. k.kept.held ≡ false) }
        ensures busy { IfOk result (λ k. k.kept.busy ≡ 0) }
        ensures number { IfOk result (λ k. k.number ≡ V.number value) }
    {
        let (table, mut seat) = Table::of_words(alloc, &[0], &())?;
        table
            .shared
            .compare_exchange_with::<Notes>(&mut seat, 0, 0, 0, &value);
        Ok(PlainKeep {
            value: Some(value),
            busy: 0,
            table,
            seat,
        })
    }
}

impl<V: Logged> Keep<V> for PlainKeep<V> {
    ghost use Rattle.std.specs.Prelude.{true};

    ghost exact = { true };

    ghost lock = { λ k. k };

    fn try_hold(&mut self) -> Option<V> {
        self.value.take()
    }

    fn try_again(&mut self) -> Option<V> {
        self.value.take()
    }

    fn give_back(&mut self, value: V) {
        let PlainKeep {
            value: place,
            busy: _,
            table,
            seat,
        } = self;
        table
            .shared
            .compare_exchange_with::<Notes>(seat, 0, 0, 0, &value);
        *place = Some(value);
    }
}
