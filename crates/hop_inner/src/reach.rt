//! What actors reach.
ghost use Rattle.std.specs.Prelude.{◌≡◌, ℕ, Bool, true, false, Option, Some, map};
ghost use Rattle.std.specs.Borrow.{Lends, sem};
ghost use Rattle.hop_cut.specs.declared.cut.Cut.{Cut};
ghost use Rattle.hop_machine.specs.declared.words.Who.{Who};
ghost use Rattle.hop_machine.specs.step.Steps.{Deeds, Step, Found, Steps, Send, Take, SendCut, TakeCut, Hold, OutEnd, InEnd, CutOutEnd, CutInEnd, BoardEnd, KeepEnd, TellsTaken, TellsCuts};
ghost use Rattle.hop_machine.specs.home.Conditions.{HasAll};
ghost use Rattle.hop_machine.specs.settling.Meeting.{Meets, CutMeets, Gathers};
ghost use Rattle.hop_inner.specs.Setups.{setup_of};
ghost use Rattle.hop_inner.specs.Messages.{said, said_cut};
ghost use Rattle.hop_inner.specs.Lines.{Sends, Takes, option_said};
ghost use Rattle.hop_inner.specs.Boards.{IsEndOf, boards_step};
ghost use Rattle.hop_inner.specs.Locks.{with_kept};
ghost use Rattle.hop_inner.specs.Shelved.{value_of};
ghost use Rattle.hop_inner.specs.declared.message.Message.{Message as Msg};

use crate::board::{Board, Knowing};
use crate::keep::Keep;
use crate::lane::{Receiver, Sender};
use crate::message::{CutLane, Message, MessageLane};
use hop_base::RunName;
use hop_cut::Cut;
use hop_machine::Who;
use hop_shelf::Shelf;

/// Ends of the lanes, the board and the locks of a run, which it lends one at a time. Each step of an
/// end that is lent is that step of the whole, and nothing else.
pub trait Reach<N: RunName> {
    type Seat: Knowing;

    type Out: Sender<Message<Self::Seat>, MessageLane<N, Self::Seat>>;

    type In: Receiver<Message<Self::Seat>, MessageLane<N, Self::Seat>>;

    type CutOut: Sender<Cut, CutLane<N>>;

    type CutIn: Receiver<Cut, CutLane<N>>;

    type Board: Board<Self::Seat>;

    type Keep: Keep<Shelf<N>>;

    /// Whether each answer is the one of the state, as on one thread.
    ghost exact: { Bool };

    /// What all ends did.
    ghost deeds: { Self → Deeds };

    /// The ends that are lent, and the value with another end in the place of one.
    ghost the_out: { Self → ℕ → ℕ → Option Self.Out };

    ghost the_in: { Self → ℕ → ℕ → Option Self.In };

    ghost the_cut_out: { Self → ℕ → Option Self.CutOut };

    ghost the_cut_in: { Self → ℕ → Option Self.CutIn };

    ghost the_board: { Self → Who → Option Self.Board };

    ghost the_keep: { Self → ℕ → Option Self.Keep };

    ghost with_out: { Self → ℕ → ℕ → Self.Out → Self };

    ghost with_in: { Self → ℕ → ℕ → Self.In → Self };

    ghost with_cut_out: { Self → ℕ → Self.CutOut → Self };

    ghost with_cut_in: { Self → ℕ → Self.CutIn → Self };

    ghost with_board: { Self → Who → Self.Board → Self };

    ghost with_keep: { Self → ℕ → Self.Keep → Self };

    /// The sender of the lane from mapper `w` to reducer `p`.
    fn out(&mut self, w: u8, p: u8) -> &mut Self::Out
        requires { (deeds self.old).ends.has (OutEnd w p) ≡ true }
        ensures* lends { sem 𝓛 (Lends Self.row Self.Out.row self.entry result (with_out self.old w p)) }
        ensures end { the_out self.old w p ≡ Some result.now }
        ensures key { (Self.Out.line result.now).key ≡ record { mapper = w; reducer = p; board = (deeds self.old).ends.board } }
        ensures sent { map said (Self.Out.line result.now).out.sent ≡ ((deeds self.old).did.outs w p).sent };

    /// Its receiver.
    fn input(&mut self, p: u8, w: u8) -> &mut Self::In
        requires { (deeds self.old).ends.has (InEnd w p) ≡ true }
        ensures* lends { sem 𝓛 (Lends Self.row Self.In.row self.entry result (with_in self.old p w)) }
        ensures end { the_in self.old p w ≡ Some result.now }
        ensures key { (Self.In.line result.now).key ≡ record { mapper = w; reducer = p; board = (deeds self.old).ends.board } }
        ensures taken { map said (Self.In.line result.now).into.taken ≡ ((deeds self.old).did.ins w p).taken };

    /// The sender of reducer `p`'s cut lane.
    fn cut_out(&mut self, p: u8) -> &mut Self::CutOut
        requires { (deeds self.old).ends.has (CutOutEnd p) ≡ true }
        ensures* lends { sem 𝓛 (Lends Self.row Self.CutOut.row self.entry result (with_cut_out self.old p)) }
        ensures end { the_cut_out self.old p ≡ Some result.now }
        ensures key { (Self.CutOut.line result.now).key.reducer ≡ p }
        ensures sent { map said_cut (Self.CutOut.line result.now).out.sent ≡ ((deeds self.old).did.cut_outs p).sent };

    /// Its receiver.
    fn cut_in(&mut self, p: u8) -> &mut Self::CutIn
        requires { (deeds self.old).ends.has (CutInEnd p) ≡ true }
        ensures* lends { sem 𝓛 (Lends Self.row Self.CutIn.row self.entry result (with_cut_in self.old p)) }
        ensures end { the_cut_in self.old p ≡ Some result.now }
        ensures key { (Self.CutIn.line result.now).key.reducer ≡ p }
        ensures taken { map said_cut (Self.CutIn.line result.now).into.taken ≡ ((deeds self.old).did.cut_ins p).taken };

    /// The actor's end of the board.
    fn board(&mut self, who: Who) -> &mut Self::Board
        requires { (deeds self.old).ends.has (BoardEnd who) ≡ true }
        ensures* lends { sem 𝓛 (Lends Self.row Self.Board.row self.entry result (with_board self.old who)) }
        ensures end { the_board self.old who ≡ Some result.now }
        ensures whose { Self.Board.whose result.now ≡ who }
        ensures shows { IsEndOf who (Self.Board.deeds result.now) (deeds self.old) };

    /// The recorder's end of reducer `p`'s lock.
    fn keep(&mut self, p: u8) -> &mut Self::Keep
        requires { (deeds self.old).ends.has (KeepEnd p) ≡ true }
        ensures* lends { sem 𝓛 (Lends Self.row Self.Keep.row self.entry result (with_keep self.old p)) }
        ensures end { the_keep self.old p ≡ Some result.now }
        ensures number { (Self.Keep.lock result.now).number ≡ p }
        ensures shows { (Self.Keep.lock result.now).kept ≡ (deeds self.old).did.keeps p };

    /// The value of reducer `p`'s lock, held through its recorder's end. It may wait for it.
    fn hold(&mut self, p: u8) -> Shelf<N>
        requires end { (deeds self.old).ends.has (KeepEnd p) ≡ true }
        requires free { ((deeds self.old).did.keeps p).held ≡ false }
        ensures step { Steps exact (Hold p) (value_of result) (deeds self.old) (deeds self.new) }
        ensures number { result.p ≡ p };

    /// Each end of the lane is told of the other's whole list.
    fn meet(&mut self, w: u8, p: u8)
        requires out { (deeds self.old).ends.has (OutEnd w p) ≡ true }
        requires into { (deeds self.old).ends.has (InEnd w p) ≡ true }
        ensures { Meets w p (deeds self.old) (deeds self.new) };

    /// The same of reducer `p`'s cut lane.
    fn cut_meet(&mut self, p: u8)
        requires out { (deeds self.old).ends.has (CutOutEnd p) ≡ true }
        requires into { (deeds self.old).ends.has (CutInEnd p) ≡ true }
        ensures { CutMeets p (deeds self.old) (deeds self.new) };

    /// What is known of all ends of the board together is so, and from now on no mapper asks.
    fn gather(&mut self)
        requires { HasAll (deeds self.old) }
        ensures { Gathers (deeds self.old) (deeds self.new) };

    /// What the run fixes.
    ghost of_run: { (s : Self) → (deeds s).setup ≡ setup_of N.records N.script N.settings };

    // A step of an end is that step of the whole.
    ghost out_step: { (s : Self) (w p : ℕ) (x y : Self.Out) (m : Msg Self.Seat) (ok : Bool) → the_out s w p ≡ Some x
        → Sends Self.Out.exact N.settings.lane m ok (Self.Out.line x) (Self.Out.line y)
        → Steps exact (Send w p (said m)) ok (deeds s) (deeds (with_out s w p y)) };

    ghost in_step: { (s : Self) (w p : ℕ) (x y : Self.In) (o : Option (Msg Self.Seat)) → the_in s p w ≡ Some x
        → Takes Self.In.exact o (Self.In.line x) (Self.In.line y)
        → TellsTaken (deeds s).setup (option_said said o) ((deeds s).did.ins w p).taken
        → Steps exact (Take w p) (option_said said o) (deeds s) (deeds (with_in s p w y)) };

    ghost cut_out_step: { (s : Self) (p : ℕ) (x y : Self.CutOut) (c : Cut) (ok : Bool) → the_cut_out s p ≡ Some x
        → Sends Self.CutOut.exact 16 c ok (Self.CutOut.line x) (Self.CutOut.line y)
        → Steps exact (SendCut p (said_cut c)) ok (deeds s) (deeds (with_cut_out s p y)) };

    ghost cut_in_step: { (s : Self) (p : ℕ) (x y : Self.CutIn) (o : Option Cut) → the_cut_in s p ≡ Some x
        → Takes Self.CutIn.exact o (Self.CutIn.line x) (Self.CutIn.line y)
        → TellsCuts (deeds s).setup (option_said said_cut o) ((deeds s).did.cut_ins p).taken
        → Steps exact (TakeCut p) (option_said said_cut o) (deeds s) (deeds (with_cut_in s p y)) };

    ghost board_step: { (s : Self) (who : Who) (x y : Self.Board) (q : Step) (o : Found q) → the_board s who ≡ Some x → boards_step q ≡ Some who
        → Steps Self.Board.exact q o (Self.Board.deeds x) (Self.Board.deeds y)
        → Steps exact q o (deeds s) (deeds (with_board s who y)) };

    ghost board_same: { (s : Self) (who : Who) (x y : Self.Board) → the_board s who ≡ Some x → Self.Board.deeds y ≡ Self.Board.deeds x → deeds (with_board s who y) ≡ deeds s };

    ghost keep_put: { (s : Self) (p : ℕ) (x k : Self.Keep) → the_keep s p ≡ Some x → (Self.Keep.lock k).number ≡ (Self.Keep.lock x).number
        → deeds (with_keep s p k) ≡ with_kept p (Self.Keep.lock k).kept (deeds s) };

    ghost exact_keep: { exact ≡ true → Self.Keep.exact ≡ true };
}
