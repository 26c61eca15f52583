//! What a writer notes of the cuts that it takes, for proofs alone.
ghost use Rattle.std.specs.Prelude.{◌≡◌, [], ◌∷◌, ◌++◌, IfOk};

use atomic_table::{Play, Seat, Table, TableRule};
use hop_base::NoMemory;
use hop_cut::Cut;
use std::alloc::Global;
use std::collections::LinkedList;
use std::marker::Model;

// What is noted of a cut that was taken: its reducer, and whether its file was put.
#[derive(Clone, Copy)]
pub struct Noted {
    pub reducer: u8,
    pub put: bool,
}

// Any notes may be made. At first there are none.
struct Free;

impl TableRule<(Noted, Cut), LinkedList<(Noted, Cut)>, ()> for Free {
    ghost use Rattle.std.specs.Prelude.{[]};

    ghost holds = { λ _ _. Unit {0} };

    ghost first = { λ _. [] };
}

// What is announced becomes the last note.
struct Adds;

impl Play<(Noted, Cut), LinkedList<(Noted, Cut)>> for Adds {
    ghost use Rattle.std.specs.Prelude.{◌≡◌};
    ghost use Rattle.hop_writer.specs.Notes.{with_said};

    ghost then = { λ s v n w. (w.0 ≡ with_said v.0 s.said) × (w.1 ≡ v.1) };
}

// The notes, in the order in which they were made. Contracts see their list, which the one seat of a table of one word knows; the word stays 0.
#[derive(Drop)]
pub struct Notes {
    table: Table<(Noted, Cut), LinkedList<(Noted, Cut)>, (), Free, Global>,
    seat: Seat<(Noted, Cut), LinkedList<(Noted, Cut)>>,
}

impl Model for Notes {
    ghost use Rattle.std.specs.Prelude.{◌≡◌, List};
    ghost use Rattle.hop_cut.specs.declared.cut.Cut.{Cut};
    ghost use Rattle.hop_writer.specs.declared.notes.Noted.{Noted};

    ghost Value = { List (Noted × Cut) };

    ghost view = { λ n. n.seat.me.0 };

    ghost invariant = { λ n. (n.seat.table_id ≡ n.table.shared.table_id) × (n.table.shared.table_id.words ≡ 1) };
}

impl Notes {
    // Nothing was noted.
    pub fn new(alloc: Global) -> Result<Notes, NoMemory>
        ensures { IfOk result (λ n. n ≡ []) }
    {
        let (table, seat) = Table::of_words(alloc, &[0], &())?;
        Ok(Notes { table, seat })
    }

    // A cut that was taken is noted last.
    pub fn add(&mut self, noted: Noted, cut: Cut)
        ensures { self.new ≡ self.old ++ (noted, cut) ∷ [] }
    {
        let Notes { table, seat } = self;
        let last = (noted, cut);
        table
            .shared
            .compare_exchange_with::<Adds>(seat, 0, 0, 0, &last);
    }
}
