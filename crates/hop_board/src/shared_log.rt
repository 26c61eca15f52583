//! A list that stands in proofs alone, of which copies can be made.
ghost use Rattle.std.specs.Prelude.{◌≡◌, [], ◌∷◌, IfOk};
ghost use Rattle.hop_board.specs.SharedLogs.{Ends};

use atomic_table::{Join, Play, Seat, Split, Table, TableRule};
use hop_base::NoMemory;
use std::alloc::Global;
use std::collections::LinkedList;
use std::marker::Model;

/// What a seat knows of the list. No value of it is made.
pub struct Known<T> {
    pub writes: bool,
    pub items: LinkedList<T>,
    pub heard: LinkedList<T>,
}

// One seat writes, and each other knows the list as it once was.
struct Older;

impl<T> TableRule<T, Known<T>, ()> for Older {
    ghost use Rattle.std.specs.Prelude.{true, []};
    ghost use Rattle.hop_board.specs.SharedLogs.{Shares, known};

    ghost holds = { λ _ s. Shares s.views };

    ghost first = { λ _. known true [] [] };
}

struct Adds;

impl<T> Play<T, Known<T>> for Adds {
    ghost use Rattle.std.specs.Prelude.{◌≡◌, ◌++◌};
    ghost use Rattle.hop_board.specs.Noted.{noted};
    ghost use Rattle.hop_board.specs.SharedLogs.{known};

    ghost then = { λ s v n w. (w.0 ≡ known v.0.writes (noted s.said ++ v.0.items) v.0.heard) × (w.1 ≡ v.1) };
}

struct Copies;

impl<T> Split<Known<T>> for Copies {
    ghost use Rattle.std.specs.Prelude.{false, []};
    ghost use Rattle.hop_board.specs.SharedLogs.{known};

    ghost left = { λ v. v };

    ghost right = { λ v. known false v.items [] };
}

struct Hears;

impl<T> Join<Known<T>> for Hears {
    ghost use Rattle.std.specs.Prelude.{false, []};
    ghost use Rattle.hop_board.specs.SharedLogs.{known};

    ghost both = { λ v w. known v.writes v.items w.items };

    ghost spent = { known false [] [] };
}

struct Learns;

impl<T> Play<T, Known<T>> for Learns {
    ghost use Rattle.std.specs.Prelude.{◌≡◌};
    ghost use Rattle.hop_board.specs.SharedLogs.{Ends};

    ghost then = { λ s v n w. (w ≡ v) × Ends v.0.items v.0.heard };
}

/// A list, the last item first.
#[derive(Drop)]
pub struct SharedLog<T: Drop> {
    table: Table<T, Known<T>, (), Older, Global>,
    seat: Seat<T, Known<T>>,
}

impl<T: Drop> Model for SharedLog<T> {
    ghost use Rattle.std.specs.Prelude.{◌≡◌, true};
    ghost use Rattle.hop_board.specs.SharedLogs.{LogValue};
    ghost use Rattle.hop_inner.specs.Lines.{name_of};

    ghost Value = { LogValue T };

    ghost view = { λ a. record { name = name_of a.table.shared.table_id; items = a.seat.me.0.items } };

    ghost invariant = { λ a. (a.seat.table_id ≡ a.table.shared.table_id) × (a.table.shared.table_id.words ≡ 1) × (a.seat.me.0.writes ≡ true) };
}

/// The list as it once was. It has no bytes.
#[derive(Drop)]
pub struct LogCopy<T: Drop> {
    seat: Seat<T, Known<T>>,
}

impl<T: Drop> Model for LogCopy<T> {
    ghost use Rattle.std.specs.Prelude.{◌≡◌, []};
    ghost use Rattle.hop_board.specs.SharedLogs.{LogValue};
    ghost use Rattle.hop_inner.specs.Lines.{name_of};

    ghost Value = { LogValue T };

    ghost view = { λ a. record { name = name_of a.seat.table_id; items = a.seat.me.0.items } };

    ghost invariant = { λ a. a.seat.me.1 ≡ [] };
}

impl<T: Drop> SharedLog<T> {
    /// The empty list.
    pub fn new(alloc: Global) -> Result<SharedLog<T>, NoMemory>
        ensures { IfOk result (λ l. l.items ≡ []) }
    {
        let (table, seat) = Table::of_words(alloc, &[0], &())?;
        Ok(SharedLog { table, seat })
    }

    /// The item stands first.
    pub fn add(&mut self, x: &T)
        ensures { self.new ≡ record self.old { items = x.now ∷ self.old.items } }
    {
        let SharedLog { table, seat } = self;
        table.shared.compare_exchange_with::<Adds>(seat, 0, 0, 0, x);
    }

    /// A copy, which has no bytes.
    pub fn copy(&mut self) -> LogCopy<T>
        ensures same { self.new ≡ self.old }
        ensures copy { result ≡ self.old }
    {
        let SharedLog { table, seat } = self;
        let seat = table.shared.split_seat::<Copies>(seat);
        LogCopy { seat }
    }

    /// A copy of this list is an older part of it.
    pub fn hear(&mut self, copy: LogCopy<T>)
        requires { copy.name ≡ self.old.name }
        ensures same { self.new ≡ self.old }
        ensures older { Ends self.old.items copy.items }
    {
        let SharedLog { table, seat } = self;
        table.shared.join_seat::<Hears>(seat, copy.seat);
        table.shared.load::<Learns>(seat, 0);
    }
}
