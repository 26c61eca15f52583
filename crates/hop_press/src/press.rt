//! What is held for all lanes.
ghost use Rattle.std.specs.Prelude.{◌≡◌, ℕ, ◌<◌, ◌≤◌, true, length, replicate, slice_index_or, IsTrue, IsSome, IfOk, IfErr, OnOk};
ghost use Rattle.hop_ports.specs.Causes.{OnlyRead};
ghost use Rattle.hop_run.specs.Runs.{RunStands, empty_run};
ghost use Rattle.hop_shelf.specs.Names.{pairs_of, IsRun};
ghost use Rattle.hop_shelf.specs.Sound.{IsParcel};
ghost use Rattle.hop_vault.specs.Rows.{Table};
ghost use Rattle.hop_machine.specs.declared.words.Message.TheVariants as machine;
ghost use Rattle.hop_machine.specs.declared.words.Who.TheVariants as actor;
ghost use Rattle.hop_machine.specs.step.Steps.{Runs, BoardEnd};
ghost use Rattle.hop_machine.specs.actors.MapperTurns.{flush, offer, each_lane, is_clear};
ghost use Rattle.hop_machine.specs.home.Conditions.{Safe};
ghost use Rattle.hop_inner.specs.Setups.{parts};
ghost use Rattle.hop_inner.specs.Boards.{KnowsVerdict};
ghost use Rattle.hop_inner.specs.Messages.{FitsParcel, FitsNotice};
ghost use Rattle.hop_press.specs.Held.{no_lane, lane_at, said_lane, said_lanes, lane_left, lanes_left, AreReady, OnlyAt};
ghost use Rattle.hop_press.specs.Fits.{KeepsMade, AreChained, IsWhole, HeldFits};
ghost use Rattle.hop_press.specs.Faults.{FlushCause, FlushAnswered};

use crate::fault::FlushFault;
use crate::lane::Lane;
use hop_base::{NoMemory, Part, RunName};
use hop_inner::steps::split_seat_on;
use hop_inner::{Knowing, Message, Reach};
use hop_laws::Job;
use hop_machine::Who;
use hop_ports::Folder;
use hop_run::{Parcel, Runs};
use hop_vault::Vault;
use std::alloc::Global;
use std::marker::Model;

/// What a map worker holds for the lanes to its reducers, one for each. Contracts see the list of lanes, each
/// with its ready message and its rows.
#[derive(Drop)]
pub struct Press<K: Knowing> {
    alloc: Global,
    lanes: Vec<Lane<K>>,
}

impl<K: Knowing> Model for Press<K> {
    ghost use Rattle.std.specs.Prelude.{List, length, ◌≤◌};
    ghost use Rattle.hop_press.specs.Held.{LaneValue};

    ghost Value = { List (LaneValue K) };

    ghost view = { λ press. press.lanes.items };

    ghost invariant = { λ press. length press.lanes.items ≤ 255 };
}

impl<K: Knowing> Press<K> {
    /// Nothing is held for any of so many lanes.
    pub fn new(alloc: Global, lanes: u8) -> Result<Press<K>, NoMemory>
        ensures { IfOk result (λ press. press ≡ replicate lanes no_lane) }
    {
        let mut list = Vec::new(alloc);
        for _ in 0..lanes {
            list.push(Lane::new(alloc))?;
        }
        Ok(Press { alloc, lanes: list })
    }

    /// Whether nothing is held for any lane.
    pub fn is_clear(&self) -> bool
        ensures { result ≡ is_clear (said_lanes self.now) }
    {
        for lane in &self.lanes {
            if !lane.is_clear() {
                return false;
            }
        }
        true
    }

    /// Mapper `w` offers a parcel to reducer `p`. Where nothing is held for it, the parcel is sent, and is the ready
    /// message if the lane is full; else its range is the last row, joined to the row before it where it continues
    /// that one, and its run is dropped, since the vault has it. After `NoMemory` what is held is as before.
    pub fn offer<N: RunName, E: Reach<N, Seat = K>>(
        &mut self,
        reach: &mut E,
        w: u8,
        p: u8,
        parcel: Parcel,
    ) -> Result<(), NoMemory>
        requires lane { p < length self.old }
        requires ready { AreReady self.old }
        requires fits { FitsParcel N.tells N.job.reduced (pairs_of N.job N.records N.settings p) parcel }
        requires safe { Safe parts E.exact (offer w (machine.Range parcel.part) p (said_lane (lane_at self.old p))) (E.deeds reach.old) }
        ensures runs { Runs E.exact (offer w (machine.Range parcel.part) p (said_lane (lane_at self.old p))) (E.deeds reach.old) (lane_left result (said_lane (lane_at self.new p))) (E.deeds reach.new) }
        ensures only { OnlyAt p self.old self.new }
        ensures ready { AreReady self.new }

        // What is held fits still, where the range is one of whole kept spills.
        ensures fits { (table : Table)
            → HeldFits N.job N.records N.settings N.tells table K.knows K.board (E.deeds reach.old).ends.board self.old
            → AreChained table → IsWhole table parcel.part
            → HeldFits N.job N.records N.settings N.tells table K.knows K.board (E.deeds reach.new).ends.board self.new }
    {
        self.lanes[p as usize].offer::<N, E>(reach, w, p, Message::Parcel(parcel))
    }

    /// The same of the notice that the attempt has ended, whose seat knows that it won or is revoked.
    pub fn notice<N: RunName, E: Reach<N, Seat = K>>(
        &mut self,
        reach: &mut E,
        w: u8,
        p: u8,
        split: u32,
        attempt: u8,
        known: K,
    ) -> Result<(), NoMemory>
        requires lane { p < length self.old }
        requires ready { AreReady self.old }
        requires fits { FitsNotice split attempt (K.knows known) (K.board known) (E.deeds reach.old).ends.board }
        requires safe { Safe parts E.exact (offer w (machine.Notice split attempt) p (said_lane (lane_at self.old p))) (E.deeds reach.old) }
        ensures runs { Runs E.exact (offer w (machine.Notice split attempt) p (said_lane (lane_at self.old p))) (E.deeds reach.old) (lane_left result (said_lane (lane_at self.new p))) (E.deeds reach.new) }
        ensures only { OnlyAt p self.old self.new }
        ensures ready { AreReady self.new }

        // What is held fits still.
        ensures fits { (table : Table)
            → HeldFits N.job N.records N.settings N.tells table K.knows K.board (E.deeds reach.old).ends.board self.old
            → HeldFits N.job N.records N.settings N.tells table K.knows K.board (E.deeds reach.new).ends.board self.new }
    {
        let msg = Message::Notice {
            split,
            attempt,
            known,
        };
        self.lanes[p as usize].offer::<N, E>(reach, w, p, msg)
    }

    /// Mapper `w` sends what is held for reducer `p`, in order, until the lane is full. A held range is read back
    /// from the vault, and its sheets are merged and combined into one run, once there was room for what is
    /// before it. After a fault the row that couldn't be read back is held still.
    pub fn flush<N: RunName, E: Reach<N, Seat = K>, J: Job, V: Folder>(
        &mut self,
        reach: &mut E,
        w: u8,
        p: u8,
        job: &J,
        vault: &mut Vault<V>,
    ) -> Result<(), FlushFault>
        requires lane { p < length self.old }
        requires run { IsRun N.job N.records N.settings }
        requires job { J.meaning job.now ≡ N.job }
        requires lanes { length self.old ≡ N.settings.reducers }
        requires keeps { KeepsMade N.job N.records N.settings (V.seen vault.old.folder).held vault.old.rows }
        requires tells { IsTrue N.tells → IsSome (V.seen vault.old.folder).held }
        requires ready { AreReady self.old }
        requires fits { HeldFits N.job N.records N.settings N.tells vault.old.rows K.knows K.board (E.deeds reach.old).ends.board self.old }
        requires safe { Safe parts E.exact (flush w p (said_lane (lane_at self.old p))) (E.deeds reach.old) }
        ensures runs { Runs E.exact (flush w p (said_lane (lane_at self.old p))) (E.deeds reach.old) (lane_left result (said_lane (lane_at self.new p))) (E.deeds reach.new) }
        ensures only { OnlyAt p self.old self.new }
        ensures ready { OnOk result (AreReady self.new) }

        // What is held fits still, also after a fault.
        ensures fits { HeldFits N.job N.records N.settings N.tells vault.new.rows K.knows K.board (E.deeds reach.new).ends.board self.new }

        // The vault is read.
        ensures rows { vault.new.rows ≡ vault.old.rows }
        ensures worker { vault.new.worker ≡ vault.old.worker }
        ensures left { OnlyRead (V.seen vault.old.folder) (V.seen vault.new.folder) }
        ensures no_fault { OnOk result ((V.seen vault.new.folder).gets ≡ (V.seen vault.old.folder).gets) }
        ensures answered { IfErr result (FlushAnswered (V.seen vault.old.folder) (V.seen vault.new.folder)) }
        ensures cause { IfErr result (FlushCause V.seen vault.old vault.new p) }
    {
        self.lanes[p as usize].flush::<N, E, J, V>(self.alloc, reach, w, p, job, vault)
    }

    /// What is held is sent to each reducer in turn, as by [`Press::flush`], up to the first fault.
    pub fn flush_all<N: RunName, E: Reach<N, Seat = K>, J: Job, V: Folder>(
        &mut self,
        reach: &mut E,
        w: u8,
        job: &J,
        vault: &mut Vault<V>,
    ) -> Result<(), FlushFault>
        requires run { IsRun N.job N.records N.settings }
        requires job { J.meaning job.now ≡ N.job }
        requires lanes { length self.old ≡ N.settings.reducers }
        requires keeps { KeepsMade N.job N.records N.settings (V.seen vault.old.folder).held vault.old.rows }
        requires tells { IsTrue N.tells → IsSome (V.seen vault.old.folder).held }
        requires ready { AreReady self.old }
        requires fits { HeldFits N.job N.records N.settings N.tells vault.old.rows K.knows K.board (E.deeds reach.old).ends.board self.old }
        requires safe { Safe parts E.exact (each_lane (flush w) 0 (said_lanes self.old)) (E.deeds reach.old) }
        ensures runs { Runs E.exact (each_lane (flush w) 0 (said_lanes self.old)) (E.deeds reach.old) (lanes_left result (said_lanes self.new)) (E.deeds reach.new) }
        ensures lanes { length self.new ≡ length self.old }
        ensures ready { OnOk result (AreReady self.new) }

        // What is held fits still, also after a fault.
        ensures fits { HeldFits N.job N.records N.settings N.tells vault.new.rows K.knows K.board (E.deeds reach.new).ends.board self.new }

        // The vault is read.
        ensures rows { vault.new.rows ≡ vault.old.rows }
        ensures worker { vault.new.worker ≡ vault.old.worker }
        ensures left { OnlyRead (V.seen vault.old.folder) (V.seen vault.new.folder) }
        ensures no_fault { OnOk result ((V.seen vault.new.folder).gets ≡ (V.seen vault.old.folder).gets) }
        ensures answered { IfErr result (FlushAnswered (V.seen vault.old.folder) (V.seen vault.new.folder)) }
        ensures cause { IfErr result (λ fault. (p : ℕ) × (p < length self.old) × FlushCause V.seen vault.old vault.new p fault) }
    {
        for p in 0..self.lanes.len() {
            self.flush::<N, E, J, V>(reach, w, p as u8, job, vault)?;
        }
        Ok(())
    }

    /// Each reducer is offered the part with its run, as by [`Press::offer`]: reducer p run p. After `NoMemory` the
    /// first ones were.
    pub fn offer_all<N: RunName, E: Reach<N, Seat = K>>(
        &mut self,
        reach: &mut E,
        w: u8,
        part: Part,
        runs: Runs,
    ) -> Result<(), NoMemory>
        requires ready { AreReady self.old }
        requires lanes { length runs ≡ length self.old }
        requires own { (p : ℕ) → p < length runs → IsParcel part (slice_index_or runs p empty_run) }
        requires stands { IsTrue N.tells → (p : ℕ) → p < length runs → RunStands N.job.reduced (pairs_of N.job N.records N.settings p) (slice_index_or runs p empty_run) }
        requires safe { Safe parts E.exact (each_lane (offer w (machine.Range part)) 0 (said_lanes self.old)) (E.deeds reach.old) }
        ensures runs { Runs E.exact (each_lane (offer w (machine.Range part)) 0 (said_lanes self.old)) (E.deeds reach.old) (lanes_left result (said_lanes self.new)) (E.deeds reach.new) }
        ensures lanes { length self.new ≡ length self.old }
        ensures ready { AreReady self.new }

        // What is held fits still, where the range is one of whole kept spills.
        ensures fits { (table : Table)
            → HeldFits N.job N.records N.settings N.tells table K.knows K.board (E.deeds reach.old).ends.board self.old
            → AreChained table → IsWhole table part
            → HeldFits N.job N.records N.settings N.tells table K.knows K.board (E.deeds reach.new).ends.board self.new }
    {
        // There are at most 255 lanes.
        let _lanes = &self.lanes;
        let mut p = 0;
        for run in runs.into_vec() {
            let _known = run.flat();
            self.offer::<N, E>(reach, w, p, Parcel { part, run })?;
            p += 1;
        }
        Ok(())
    }

    /// Each reducer is offered the notice that the attempt has ended, as by [`Press::notice`], with a seat of what
    /// the mapper's end of the board knows. After `NoMemory` the first ones were.
    pub fn notice_all<N: RunName, E: Reach<N, Seat = K>>(
        &mut self,
        reach: &mut E,
        w: u8,
        split: u32,
        attempt: u8,
    ) -> Result<(), NoMemory>
        requires ready { AreReady self.old }
        requires end { (E.deeds reach.old).ends.has (BoardEnd (actor.Mapper w)) ≡ true }
        requires known { KnowsVerdict ((E.deeds reach.old).told.knows (actor.Mapper w)) split attempt }
        requires safe { Safe parts E.exact (each_lane (offer w (machine.Notice split attempt)) 0 (said_lanes self.old)) (E.deeds reach.old) }
        ensures runs { Runs E.exact (each_lane (offer w (machine.Notice split attempt)) 0 (said_lanes self.old)) (E.deeds reach.old) (lanes_left result (said_lanes self.new)) (E.deeds reach.new) }
        ensures lanes { length self.new ≡ length self.old }
        ensures ready { AreReady self.new }

        // What is held fits still.
        ensures fits { (table : Table)
            → HeldFits N.job N.records N.settings N.tells table K.knows K.board (E.deeds reach.old).ends.board self.old
            → HeldFits N.job N.records N.settings N.tells table K.knows K.board (E.deeds reach.new).ends.board self.new }
    {
        for p in 0..self.lanes.len() {
            let known = split_seat_on::<N, E>(reach, Who::Mapper(w));
            self.notice::<N, E>(reach, w, p as u8, split, attempt, known)?;
        }
        Ok(())
    }
}
