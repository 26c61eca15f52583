//! Turns of actors.
ghost use Rattle.std.specs.Prelude.{◌≡◌, ◌<◌, ◌∷◌, IfSome};
ghost use Rattle.hop_script.specs.Text.{words_of};
ghost use Rattle.hop_script.specs.TurnLines.{turn_form, actor_of, number_below, HasActor, IsTurn};

use crate::number::number;
use crate::text::next_word;

/// Whose turn it is.
#[derive(Clone, Copy, Debug, PartialEq, Eq)]
pub enum TurnOf {
    /// `mW`, map worker W.
    Mapper(u8),
    /// `rP`, the reducer of partition P.
    Reducer(u8),
    /// `gJ`, background merger J.
    Merger(u8),
    /// `s`, the writer of the snapshots.
    Writer,
    /// `c`, the coordinator, which lets the reducers catch up with every attempt that has kept spills and
    /// that they still want, a tentative one too.
    CatchUp,
}

/// So many turns of an actor in a row, 1 to 1,000,000.
#[derive(Clone, Copy, Debug, PartialEq, Eq)]
pub struct Turn {
    pub actor: TurnOf,
    pub count: u32,
}

/// How many actors of each kind a run has.
#[derive(Clone, Copy, Debug, PartialEq, Eq)]
pub struct Actors {
    pub workers: u8,
    pub reducers: u8,
    pub mergers: u8,
}

// The turns that a line is, if it has one of the two forms and the run has the actor.
pub(crate) fn turn_of(actors: Actors, bytes: &[u8]) -> Option<Turn>
    ensures form { result ≡ turn_form actors (words_of bytes.now) }
    ensures known { IfSome result (IsTurn actors) }
{
    match next_word(bytes) {
        None => {
            let actor = actor_named(actors, bytes)?;
            Some(Turn { actor, count: 1 })
        }
        Some((word, rest)) => counted_turn(actors, word, rest),
    }
}

// The turns of the actor that the word names, as many as the rest of the line says.
fn counted_turn(actors: Actors, word: &[u8], rest: &[u8]) -> Option<Turn>
    ensures form { result ≡ turn_form actors (word.now ∷ words_of rest.now) }
    ensures known { IfSome result (IsTurn actors) }
{
    match next_word(rest) {
        Some(_) => None,
        None => {
            let actor = actor_named(actors, word)?;
            let count = number(1, 1_000_000, rest)?;
            Some(Turn { actor, count })
        }
    }
}

// The actor of the run that a word names.
fn actor_named(actors: Actors, word: &[u8]) -> Option<TurnOf>
    ensures form { result ≡ actor_of actors word.now }
    ensures known { IfSome result (HasActor actors) }
{
    match word {
        [b's'] => Some(TurnOf::Writer),
        [b'c'] => Some(TurnOf::CatchUp),
        [b'm', digits @ ..] => Some(TurnOf::Mapper(below(actors.workers, digits)?)),
        [b'r', digits @ ..] => Some(TurnOf::Reducer(below(actors.reducers, digits)?)),
        [b'g', digits @ ..] => Some(TurnOf::Merger(below(actors.mergers, digits)?)),
        _ => None,
    }
}

// The number below `end` that the digits spell.
fn below(end: u8, digits: &[u8]) -> Option<u8>
    ensures form { result ≡ number_below end digits.now }
    ensures below { IfSome result (λ n. n < end) }
{
    let value = number(0, 255, digits)? as u8;
    if value < end { Some(value) } else { None }
}
