//! One step each, at an end that is reached. Generic code reaches what it shares by these alone: each asks
//! for the step's condition, and gives the step.
ghost use Rattle.std.specs.Prelude.{◌≡◌, ℕ, ◌∷◌, true, false, IfSome, IfErr, is_ok};
ghost use Rattle.std.specs.Option.{option_map};
ghost use Rattle.hop_event.specs.declared.event.Event.{Event};
ghost use Rattle.hop_machine.specs.declared.words.Who.TheVariants as actor;
ghost use Rattle.hop_machine.specs.step.Steps.{Steps, Send, Take, NextSplit, Draw, Commit, Revoke, AskWinner, AskRevoked, Join, TryHold, GiveBack, SendCut, TakeCut, BoardEnd};
ghost use Rattle.hop_machine.specs.home.Conditions.{May};
ghost use Rattle.hop_inner.specs.Setups.{parts};
ghost use Rattle.hop_inner.specs.Messages.{said, said_cut, FitsAt, CutFitsAt};
ghost use Rattle.hop_inner.specs.Lines.{option_said};
ghost use Rattle.hop_inner.specs.Boards.{KnowsVerdict};
ghost use Rattle.hop_inner.specs.Locks.{AddsOne, RecordsOne};
ghost use Rattle.hop_inner.specs.Shelved.{value_of};

use crate::board::{Board, Knowing};
use crate::keep::Keep;
use crate::lane::{Full, Receiver, Sender};
use crate::message::Message;
use crate::reach::Reach;
use hop_base::RunName;
use hop_cut::Cut;
use hop_machine::{Verdict, Who};
use hop_shelf::Shelf;

/// Sends a message to reducer `p`.
pub fn send_on<N: RunName, E: Reach<N>>(
    reach: &mut E,
    w: u8,
    p: u8,
    msg: Message<E::Seat>,
) -> Result<(), Full<Message<E::Seat>>>
    requires may { May parts (Send w p (said msg)) (E.deeds reach.old) }
    requires fits { FitsAt N.job N.records N.settings N.tells p E.Seat.knows E.Seat.board (E.deeds reach.old).ends.board msg }
    ensures step { Steps E.exact (Send w p (said msg)) (is_ok result) (E.deeds reach.old) (E.deeds reach.new) }
    ensures back { IfErr result (λ e. e.0 ≡ msg) }
{
    reach.out(w, p).send(msg)
}

/// Takes a message from mapper `w`.
pub fn take_on<N: RunName, E: Reach<N>>(reach: &mut E, w: u8, p: u8) -> Option<Message<E::Seat>>
    requires { May parts (Take w p) (E.deeds reach.old) }
    ensures step { Steps E.exact (Take w p) (option_said said result) (E.deeds reach.old) (E.deeds reach.new) }
    ensures fits { IfSome result (FitsAt N.job N.records N.settings N.tells p E.Seat.knows E.Seat.board (E.deeds reach.old).ends.board) }
{
    reach.input(p, w).take()
}

/// Sends a cut to the writer.
pub fn send_cut_on<N: RunName, E: Reach<N>>(reach: &mut E, p: u8, cut: Cut) -> Result<(), Full<Cut>>
    requires may { May parts (SendCut p (said_cut cut)) (E.deeds reach.old) }
    requires fits { CutFitsAt N.job N.records N.settings N.tells p cut }
    ensures step { Steps E.exact (SendCut p (said_cut cut)) (is_ok result) (E.deeds reach.old) (E.deeds reach.new) }
    ensures back { IfErr result (λ e. e.0 ≡ cut) }
{
    reach.cut_out(p).send(cut)
}

/// Takes a cut of reducer `p`.
pub fn take_cut_on<N: RunName, E: Reach<N>>(reach: &mut E, p: u8) -> Option<Cut>
    requires { May parts (TakeCut p) (E.deeds reach.old) }
    ensures step { Steps E.exact (TakeCut p) (option_said said_cut result) (E.deeds reach.old) (E.deeds reach.new) }
    ensures fits { IfSome result (CutFitsAt N.job N.records N.settings N.tells p) }
{
    reach.cut_in(p).take()
}

/// Asks the board for a split.
pub fn next_split_on<N: RunName, E: Reach<N>>(reach: &mut E, w: u8) -> Option<u32>
    requires { May parts (NextSplit w) (E.deeds reach.old) }
    ensures { Steps E.exact (NextSplit w) result (E.deeds reach.old) (E.deeds reach.new) }
{
    reach.board(Who::Mapper(w)).next_split()
}

/// Draws a number of the split.
pub fn draw_on<N: RunName, E: Reach<N>>(reach: &mut E, w: u8, split: u32) -> u64
    requires { May parts (Draw w split) (E.deeds reach.old) }
    ensures { Steps E.exact (Draw w split) result (E.deeds reach.old) (E.deeds reach.new) }
{
    reach.board(Who::Mapper(w)).draw(split)
}

/// Commits the attempt.
pub fn commit_on<N: RunName, E: Reach<N>>(reach: &mut E, w: u8, split: u32, attempt: u8) -> Verdict
    requires { May parts (Commit w split attempt) (E.deeds reach.old) }
    ensures { Steps E.exact (Commit w split attempt) result (E.deeds reach.old) (E.deeds reach.new) }
{
    reach.board(Who::Mapper(w)).commit(split, attempt)
}

/// Revokes the attempt.
pub fn revoke_on<N: RunName, E: Reach<N>>(reach: &mut E, w: u8, split: u32, attempt: u8) -> u16
    requires { May parts (Revoke w split attempt) (E.deeds reach.old) }
    ensures { Steps E.exact (Revoke w split attempt) result (E.deeds reach.old) (E.deeds reach.new) }
{
    reach.board(Who::Mapper(w)).revoke(split, attempt)
}

/// Asks for the winner of the split.
pub fn winner_on<N: RunName, E: Reach<N>>(reach: &mut E, who: Who, split: u32) -> Option<u8>
    requires { May parts (AskWinner who split) (E.deeds reach.old) }
    ensures { Steps E.exact (AskWinner who split) result (E.deeds reach.old) (E.deeds reach.new) }
{
    reach.board(who).winner(split)
}

/// Asks whether the attempt is revoked.
pub fn is_revoked_on<N: RunName, E: Reach<N>>(
    reach: &mut E,
    who: Who,
    split: u32,
    attempt: u8,
) -> bool
    requires { May parts (AskRevoked who split attempt) (E.deeds reach.old) }
    ensures { Steps E.exact (AskRevoked who split attempt) result (E.deeds reach.old) (E.deeds reach.new) }
{
    reach.board(who).is_revoked(split, attempt)
}

/// A seat that knows what this end knows. No end does anything.
pub fn split_seat_on<N: RunName, E: Reach<N>>(reach: &mut E, who: Who) -> E::Seat
    requires { (E.deeds reach.old).ends.has (BoardEnd who) ≡ true }
    ensures same { E.deeds reach.new ≡ E.deeds reach.old }
    ensures knows { E.Seat.knows result ≡ (E.deeds reach.old).told.knows who }
    ensures board { E.Seat.board result ≡ (E.deeds reach.old).ends.board }
{
    reach.board(who).split_seat()
}

/// Joins the seat that came with a notice.
pub fn join_on<N: RunName, E: Reach<N>>(
    reach: &mut E,
    p: u8,
    split: u32,
    attempt: u8,
    known: E::Seat,
)
    requires may { May parts (Join p split attempt) (E.deeds reach.old) }
    requires board { E.Seat.board known ≡ (E.deeds reach.old).ends.board }
    requires known { KnowsVerdict (E.Seat.knows known) split attempt }
    ensures { Steps E.exact (Join p split attempt) tt (E.deeds reach.old) (E.deeds reach.new) }
{
    reach.board(Who::Reducer(p)).join_seat(known);
}

/// The value of reducer `p`'s lock, unless somebody else has it.
pub fn try_hold_on<N: RunName, E: Reach<N>>(reach: &mut E, p: u8) -> Option<Shelf<N>>
    requires may { May parts (TryHold p) (E.deeds reach.old) }
    requires free { ((E.deeds reach.old).did.keeps p).held ≡ false }
    ensures step { Steps E.exact (TryHold p) (option_map value_of result) (E.deeds reach.old) (E.deeds reach.new) }
    ensures number { IfSome result (λ x. x.p ≡ p) }
{
    reach.keep(p).try_hold()
}

/// The value is given back with no event more.
pub fn give_back_on<N: RunName, E: Reach<N>>(reach: &mut E, p: u8, value: Shelf<N>)
    requires may { May parts (GiveBack p (value_of value).due) (E.deeds reach.old) }
    requires held { ((E.deeds reach.old).did.keeps p).held ≡ true }
    requires number { value.p ≡ p }
    requires same { (value_of value).events ≡ ((E.deeds reach.old).did.keeps p).events }
    ensures { Steps E.exact (GiveBack p (value_of value).due) tt (E.deeds reach.old) (E.deeds reach.new) }
{
    reach.keep(p).give_back(value);
}

/// The value is given back with one event more, which is recorded as it is given back.
pub fn record_on<N: RunName, E: Reach<N>>(reach: &mut E, p: u8, value: Shelf<N>)
    requires adds { AddsOne p (value_of value) (E.deeds reach.old) }
    requires held { ((E.deeds reach.old).did.keeps p).held ≡ true }
    requires number { value.p ≡ p }
    ensures { (e : Event) → (value_of value).events ≡ e ∷ ((E.deeds reach.old).did.keeps p).events → RecordsOne E.exact p e (value_of value).due (E.deeds reach.old) (E.deeds reach.new) }
{
    reach.keep(p).give_back(value);
}
