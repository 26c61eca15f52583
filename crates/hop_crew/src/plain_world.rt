//! All lanes, the board and the locks, on one thread.
ghost use Rattle.std.specs.Prelude.{◌≡◌};
ghost use Rattle.hop_inner.specs.Setups.{setup_of};
ghost use Rattle.hop_crew.specs.PlainWorlds.{deeds_of};

use crate::making::{cut_lanes, locks, message_lanes};
use crate::plain_keep::PlainKeep;
use hop_base::{NoMemory, RunName};
use hop_board::{PlainBoard, PlainSeat};
use hop_cut::Cut;
use hop_inner::{Board, CutLane, Keep, Logged, Message, MessageLane, Reach};
use hop_lane::PlainLane;
use hop_machine::Who;
use hop_shelf::Shelf;
use std::alloc::Global;

/// All lanes, the board and the locks, on one thread.
#[derive(Drop)]
pub struct PlainWorld<N: RunName, V: Logged> {
    workers: u8,
    reducers: u8,
    lanes: Vec<PlainLane<Message<PlainSeat>, MessageLane<N, PlainSeat>>>,
    cuts: Vec<PlainLane<Cut, CutLane<N>>>,
    board: PlainBoard<N>,
    keeps: Vec<PlainKeep<V>>,
    // Whether the ends of the board were gathered.
    gathered: bool,
}

impl<N: RunName, V: Logged> PlainWorld<N, V> {
    ghost use Rattle.std.specs.Prelude.{◌<◌, ◌≤◌, [], length, IfOk};
    ghost use Rattle.hop_machine.specs.home.Conditions.{HasAll};
    ghost use Rattle.hop_machine.specs.run.AllHome.{new_deeds};
    ghost use Rattle.hop_crew.specs.Unused.{AreFirst};

    /// The world of a run of which nothing was done, with all its ends: a board that was asked nothing, the reducers' values, whose histories are empty, in the order of their
    /// numbers, and lanes of this capacity.
    pub fn new(
        alloc: Global,
        mut board: PlainBoard<N>,
        values: Vec<V>,
        workers: u8,
        lane: u8,
    ) -> Result<PlainWorld<N, V>, NoMemory>
        requires workers { workers ≡ N.settings.workers }
        requires few { workers ≤ 8 }
        requires reducers { length values.items ≡ N.settings.reducers }
        requires some { N.settings.reducers ≤ 8 }
        requires lane { lane ≡ N.settings.lane }
        requires room { 0 < lane }
        requires unasked { board.calls ≡ [] }
        requires first { AreFirst (setup_of N.records N.script N.settings) V.value V.number values.items }
        ensures new { IfOk result (λ w. deeds_of (setup_of N.records N.script N.settings) w ≡ new_deeds (setup_of N.records N.script N.settings) (deeds_of (setup_of N.records N.script N.settings) w).ends) }
        ensures all { IfOk result (λ w. HasAll (deeds_of (setup_of N.records N.script N.settings) w)) }
    {
        let reducers = values.len() as u8;
        let seat = board.split_seat();
        let lanes = message_lanes(alloc, workers, reducers, lane, &seat)?;
        let cuts = cut_lanes(alloc, reducers, &seat)?;
        let keeps = locks::<N, V>(alloc, values)?;
        Ok(PlainWorld {
            workers,
            reducers,
            lanes,
            cuts,
            board,
            keeps,
            gathered: false,
        })
    }
}

impl<N: RunName> Reach<N> for PlainWorld<N, Shelf<N>> {
    ghost use Rattle.std.specs.Prelude.{true, Some, refl};
    ghost use Rattle.hop_inner.specs.Setups.{setup_of};
    ghost use Rattle.hop_crew.specs.PlainWorlds.{deeds_of, lane_of, cut_of, keep_of, with_lane, with_cut, with_keep};

    type Seat = PlainSeat;

    type Out = PlainLane<Message<PlainSeat>, MessageLane<N, PlainSeat>>;

    type In = PlainLane<Message<PlainSeat>, MessageLane<N, PlainSeat>>;

    type CutOut = PlainLane<Cut, CutLane<N>>;

    type CutIn = PlainLane<Cut, CutLane<N>>;

    type Board = PlainBoard<N>;

    type Keep = PlainKeep<Shelf<N>>;

    ghost exact = { true };

    ghost deeds = { deeds_of (setup_of N.records N.script N.settings) };

    ghost the_out = { lane_of };

    ghost the_in = { λ s p w. lane_of s w p };

    ghost the_cut_out = { cut_of };

    ghost the_cut_in = { cut_of };

    ghost the_board = { λ s who. Some (record s.board { who = who }) };

    ghost the_keep = { keep_of };

    ghost with_out = { with_lane };

    ghost with_in = { λ s p w o. with_lane s w p o };

    ghost with_cut_out = { with_cut };

    ghost with_cut_in = { with_cut };

    ghost with_board = { λ s who o. record s { board = o } };

    ghost with_keep = { with_keep };

    fn out(
        &mut self,
        w: u8,
        p: u8,
    ) -> &mut PlainLane<Message<PlainSeat>, MessageLane<N, PlainSeat>> {
        let at = w as usize * self.reducers as usize + p as usize;
        &mut self.lanes[at]
    }

    fn input(
        &mut self,
        p: u8,
        w: u8,
    ) -> &mut PlainLane<Message<PlainSeat>, MessageLane<N, PlainSeat>> {
        let at = w as usize * self.reducers as usize + p as usize;
        &mut self.lanes[at]
    }

    fn cut_out(&mut self, p: u8) -> &mut PlainLane<Cut, CutLane<N>> {
        &mut self.cuts[p as usize]
    }

    fn cut_in(&mut self, p: u8) -> &mut PlainLane<Cut, CutLane<N>> {
        &mut self.cuts[p as usize]
    }

    fn board(&mut self, who: Who) -> &mut PlainBoard<N> {
        self.board.end_of(who);
        &mut self.board
    }

    fn keep(&mut self, p: u8) -> &mut PlainKeep<Shelf<N>> {
        &mut self.keeps[p as usize]
    }

    fn hold(&mut self, p: u8) -> Shelf<N> {
        match self.keeps[p as usize].try_hold() {
            Some(value) => value,
            None => unreachable!(),
        }
    }

    fn meet(&mut self, w: u8, p: u8) {
        let _ = (w, p);
    }

    fn cut_meet(&mut self, p: u8) {
        let _ = p;
    }

    fn gather(&mut self) {
        self.board.keeps_its_rule();
        self.gathered = true;
    }

    ghost use Rattle.hop_crew.specs.PlainWorldSteps.{out_steps, in_steps, cut_out_steps, cut_in_steps, board_steps, board_stays, keep_puts};

    ghost of_run = { λ s. refl };

    ghost out_step = { λ s w p x y m ok is h. out_steps (setup_of N.records N.script N.settings) s w p x y m ok is h };

    ghost in_step = { λ s w p x y o is h t. in_steps (setup_of N.records N.script N.settings) s w p x y o is h t };

    ghost cut_out_step = { λ s p x y c ok is h. cut_out_steps (setup_of N.records N.script N.settings) s p x y c ok is h };

    ghost cut_in_step = { λ s p x y o is h t. cut_in_steps (setup_of N.records N.script N.settings) s p x y o is h t };

    ghost board_step = { λ s who x y q o is at h. board_steps (setup_of N.records N.script N.settings) s who x y q o is at h };

    ghost board_same = { λ s who x y is h. board_stays (setup_of N.records N.script N.settings) s who x y is h };

    ghost keep_put = { λ s p x k is n. keep_puts (setup_of N.records N.script N.settings) s p x k is n };

    ghost exact_keep = { λ e. e };
}
