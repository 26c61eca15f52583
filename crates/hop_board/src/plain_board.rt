//! A board of one thread.
ghost use Rattle.std.specs.Prelude.{◌≡◌, ◌<◌, ◌≤◌, ◌+◌, [], IfOk, length};
ghost use Rattle.hop_records.specs.Records.{lens_of};
ghost use Rattle.hop_shelf.specs.Names.{book_of};
ghost use Rattle.hop_machine.specs.declared.words.Who.TheVariants as actor;
ghost use Rattle.hop_machine.specs.step.Steps.{verdict_of as verdict_by, has_bit as bit_in, with_bit as bit_with, with_winner as winner_with, next_of as next_by, rules_of};
ghost use Rattle.hop_machine.specs.board.Board.{BoardRule};
ghost use Rattle.hop_inner.specs.Setups.{setup_of};
ghost use Rattle.hop_board.specs.PlainBoards.{given_count, words_of, seats_of};

use crate::shared_log::{LogCopy, SharedLog};
use hop_base::{NoMemory, RunName};
use hop_inner::{Board, Knowing};
use hop_machine::{Verdict, Who};
use std::alloc::Global;
use std::marker::{Model, PhantomData};

/// What a call of the board was answered.
#[derive(Clone, Copy)]
pub enum Call {
    Gave(Option<u32>),
    Drew {
        split: u32,
        number: u64,
    },
    Committed {
        split: u32,
        attempt: u8,
        verdict: Verdict,
    },
    Revoked {
        split: u32,
        attempt: u8,
        mask: u16,
    },
}

/// A call, and whose end made it.
#[derive(Clone, Copy)]
pub struct Made {
    pub who: Who,
    pub call: Call,
}

/// A board of one thread. It is the end of one actor at a time. The calls that were made stand in
/// proofs alone.
#[derive(Drop)]
pub struct PlainBoard<N: RunName> {
    splits: u32,
    cursor: u32,
    drawn: Vec<u64>,
    winners: Vec<Option<u8>>,
    masks: Vec<u16>,
    who: Who,
    calls: SharedLog<Made>,
    name: PhantomData<N>,
}

impl<N: RunName> Model for PlainBoard<N> {
    ghost use Rattle.std.specs.Prelude.{◌≡◌};
    ghost use Rattle.hop_machine.specs.step.Setup.{splits_of};
    ghost use Rattle.hop_inner.specs.Setups.{setup_of};
    ghost use Rattle.hop_board.specs.PlainBoards.{BoardValue, IsBoard};

    ghost Value = { BoardValue };

    ghost view = { λ a. record { name = a.calls.name; who = a.who; calls = a.calls.items } };

    ghost invariant = { λ a. (a.splits ≡ splits_of (setup_of N.records N.script N.settings)) × IsBoard (setup_of N.records N.script N.settings) a.cursor a.drawn.items a.winners.items a.masks.items a.calls.items };
}

/// What the board's calls were, up to some time. It has no bytes.
#[derive(Drop)]
pub struct PlainSeat {
    calls: LogCopy<Made>,
}

impl Model for PlainSeat {
    ghost use Rattle.hop_board.specs.SharedLogs.{LogValue};
    ghost use Rattle.hop_board.specs.declared.plain_board.Made.{Made};

    ghost Value = { LogValue Made };

    ghost view = { λ a. a.calls };
}

impl Knowing for PlainSeat {
    ghost use Rattle.hop_board.specs.PlainBoards.{words_of, verdicts_of};

    ghost knows = { λ s. verdicts_of (words_of s.items) };

    ghost board = { λ s. s.name };
}

impl<N: RunName> PlainBoard<N> {
    /// A board at which nothing was asked. It is first the end of mapper 0.
    pub fn new(alloc: Global, splits: u32) -> Result<PlainBoard<N>, NoMemory>
        requires splits { splits ≡ length (lens_of (book_of N.records N.settings)) }
        requires some { 0 < N.settings.attempts }
        requires few { N.settings.attempts ≤ 16 }
        requires workers { N.settings.workers ≤ 8 }
        ensures calls { IfOk result (λ b. b.calls ≡ []) }
        ensures who { IfOk result (λ b. b.who ≡ actor.Mapper 0) }
    {
        let drawn = vec![in alloc; 0u64; splits as usize]?;
        let nobody: Option<u8> = None;
        let winners = vec![in alloc; nobody; splits as usize]?;
        let masks = vec![in alloc; 0u16; splits as usize]?;
        let calls = SharedLog::new(alloc)?;
        Ok(PlainBoard {
            splits,
            cursor: 0,
            drawn,
            winners,
            masks,
            who: Who::Mapper(0),
            calls,
            name: PhantomData,
        })
    }

    /// What every board keeps: its words and what the mappers' ends did stand to one another by the
    /// board's rule.
    pub fn keeps_its_rule(&self)
        ensures { BoardRule (rules_of (setup_of N.records N.script N.settings)) (words_of self.now.calls) (λ w. seats_of self.now.calls (actor.Mapper w)) }
    {
        let _splits = self.splits;
    }

    /// From now on it is the end of that actor.
    pub fn end_of(&mut self, who: Who)
        ensures { self.new ≡ record self.old { who = who } }
    {
        self.who = who;
    }
}

impl<N: RunName> Board<PlainSeat> for PlainBoard<N> {
    ghost use Rattle.std.specs.Prelude.{true};
    ghost use Rattle.hop_inner.specs.Setups.{setup_of};
    ghost use Rattle.hop_board.specs.PlainBoards.{board_deeds};

    ghost exact = { true };

    ghost whose = { λ s. s.who };

    ghost deeds = { board_deeds (setup_of N.records N.script N.settings) };

    fn next_split(&mut self) -> Option<u32> {
        let found = next_of(self.splits, self.cursor);
        self.cursor = advanced(self.splits, self.cursor, found);
        self.calls.add(&Made {
            who: self.who,
            call: Call::Gave(found),
        });
        found
    }

    fn draw(&mut self, split: u32) -> u64 {
        let number = self.drawn[split as usize];
        self.drawn[split as usize] = number + 1;
        self.calls.add(&Made {
            who: self.who,
            call: Call::Drew { split, number },
        });
        number
    }

    fn commit(&mut self, split: u32, attempt: u8) -> Verdict {
        let winner = self.winners[split as usize];
        let verdict = verdict_of(winner, attempt);
        self.winners[split as usize] = with_winner(winner, attempt);
        self.calls.add(&Made {
            who: self.who,
            call: Call::Committed {
                split,
                attempt,
                verdict,
            },
        });
        verdict
    }

    fn revoke(&mut self, split: u32, attempt: u8) -> u16 {
        let mask = with_bit(self.masks[split as usize], attempt);
        self.masks[split as usize] = mask;
        self.calls.add(&Made {
            who: self.who,
            call: Call::Revoked {
                split,
                attempt,
                mask,
            },
        });
        mask
    }

    fn winner(&mut self, split: u32) -> Option<u8> {
        self.winners[split as usize]
    }

    fn is_revoked(&mut self, split: u32, attempt: u8) -> bool {
        has_bit(self.masks[split as usize], attempt)
    }

    fn split_seat(&mut self) -> PlainSeat {
        PlainSeat {
            calls: self.calls.copy(),
        }
    }

    fn join_seat(&mut self, other: PlainSeat) {
        self.calls.hear(other.calls);
    }
}

fn verdict_of(winner: Option<u8>, attempt: u8) -> Verdict
    ensures { result ≡ verdict_by winner attempt }
{
    match winner {
        None => Verdict::Won,
        Some(b) => if b == attempt {
            Verdict::Won
        } else {
            Verdict::Lost { winner: b }
        },
    }
}

fn has_bit(mask: u16, attempt: u8) -> bool
    ensures { result ≡ bit_in mask attempt }
{
    if attempt >= 16 {
        return false;
    }
    (mask >> attempt) % 2 == 1
}

fn with_bit(mask: u16, attempt: u8) -> u16
    requires { attempt < 16 }
    ensures { result ≡ bit_with mask attempt }
{
    mask | (1 << attempt)
}

fn with_winner(winner: Option<u8>, attempt: u8) -> Option<u8>
    ensures { result ≡ winner_with winner attempt }
{
    match winner {
        None => Some(attempt),
        Some(b) => Some(b),
    }
}

fn next_of(splits: u32, cursor: u32) -> Option<u32>
    ensures { result ≡ next_by splits cursor }
{
    if cursor < splits { Some(cursor) } else { None }
}

fn advanced(splits: u32, cursor: u32, found: Option<u32>) -> u32
    requires found { found ≡ next_by splits cursor }
    requires within { cursor ≤ splits }
    ensures { result ≡ cursor + given_count found }
{
    if cursor < splits { cursor + 1 } else { cursor }
}
