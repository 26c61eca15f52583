//! Turn lists.
ghost use Rattle.std.specs.Prelude.{◌≡◌, ◌≤◌, ◌<◌, ◌^◌, All, None, MatchOption, IfOk, IfErr, OnOk, length};
ghost use Rattle.hop_script.specs.Script.{BadCause};
ghost use Rattle.hop_script.specs.TurnLines.{turns_of, first_bad_turn, turn_count, IsTurn, BeginsBadly, Begins};

use crate::fault::LineFault;
use crate::text::next_line;
use crate::turn::{Actors, Turn, turn_of};
use hop_base::limits::MAX_TURNS;
use std::alloc::Global;
use std::marker::Model;

/// In which order the actors of a run take turns: at most 1,000,000 turns.
#[derive(Debug, Drop)]
pub struct Turns {
    turns: Vec<Turn>,
}

impl Model for Turns {
    ghost use Rattle.std.specs.Prelude.{List, ◌≤◌};
    ghost use Rattle.hop_script.specs.declared.turn.Turn.{Turn};
    ghost use Rattle.hop_script.specs.TurnLines.{turn_count};

    ghost Value = { List Turn };

    ghost view = { λ t. t.turns.items };

    ghost invariant = { λ t. turn_count t.turns.items ≤ 1000000 };
}

impl Turns {
    /// The turn list of a text, for a run that has so many workers, reducers and mergers. Each line
    /// ends with a line feed and is an actor, `mW`, `rP`, `gJ`, `s` or `c`, or an actor, a space and a
    /// count from 1 to 1,000,000. A line is bad if it isn't so, names an actor that the run hasn't got,
    /// or brings the number of turns above 1,000,000. `BadLine` comes exactly where there is a bad
    /// line, with the first one. The text is below 2^32 bytes.
    pub fn read(
        alloc: Global,
        bytes: &[u8],
        workers: u8,
        reducers: u8,
        mergers: u8,
    ) -> Result<Turns, LineFault>
        requires { length bytes.now < 2 ^ 32 }
        ensures value { IfOk result (λ turns. turns ≡ turns_of (record { workers = workers; reducers = reducers; mergers = mergers }) bytes.now) }
        ensures known { IfOk result (λ turns. All (IsTurn (record { workers = workers; reducers = reducers; mergers = mergers })) turns) }
        ensures accepted { OnOk result (first_bad_turn (record { workers = workers; reducers = reducers; mergers = mergers }) bytes.now ≡ None) }
        ensures cause { IfErr result (BadCause (first_bad_turn (record { workers = workers; reducers = reducers; mergers = mergers }) bytes.now)) }
    {
        let actors = Actors {
            workers,
            reducers,
            mergers,
        };
        Turns::of_text(alloc, bytes, actors)
    }

    // The turn list of a text, for a run that has these actors.
    fn of_text(alloc: Global, bytes: &[u8], actors: Actors) -> Result<Turns, LineFault>
        requires { length bytes.now < 2 ^ 32 }
        ensures value { IfOk result (λ turns. turns ≡ turns_of actors bytes.now) }
        ensures known { IfOk result (λ turns. All (IsTurn actors) turns) }
        ensures accepted { OnOk result (first_bad_turn actors bytes.now ≡ None) }
        ensures cause { IfErr result (BadCause (first_bad_turn actors bytes.now)) }
    {
        let mut turns = Vec::new(alloc);
        let mut total = 0;
        let mut rest = bytes;
        let mut number = 0;
        while !rest.is_empty() {
            number += 1;
            let Some((turn, after)) = read_turn(actors, rest, total) else {
                return Err(LineFault::BadLine { line: number });
            };
            if turns.push(turn).is_err() {
                return Err(LineFault::NoMemory);
            }
            total += turn.count as u64;
            rest = after;
        }
        Ok(Turns { turns })
    }

    /// The turns, in order.
    pub fn turns(&self) -> &[Turn]
        ensures value { result.now ≡ self.now }
        ensures few { turn_count self.now ≤ 1000000 }
    {
        &self.turns
    }
}

// What the first line of a text says behind so many turns, and the text behind it; None where it is
// bad.
fn read_turn(actors: Actors, text: &[u8], before: u64) -> Option<(Turn, &[u8])>
    requires some { 0 < length text.now }
    requires few { before ≤ 1000000 }
    ensures { MatchOption result (BeginsBadly actors text.now before) (λ x. Begins actors text.now before x.0 x.1.now) }
{
    let (bytes, after) = next_line(text)?;
    let turn = turn_of(actors, bytes)?;
    if before + turn.count as u64 > MAX_TURNS {
        None
    } else {
        Some((turn, after))
    }
}
