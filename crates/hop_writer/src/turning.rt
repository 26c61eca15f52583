//! A turn of the writer.
ghost use Rattle.std.specs.Prelude.{◌≡◌, ◌<◌, not, false};
ghost use Rattle.hop_machine.specs.step.Steps.{Runs};
ghost use Rattle.hop_machine.specs.actors.ReducerTurns.{writer_turn, lane_after, wrote, works};
ghost use Rattle.hop_machine.specs.home.Conditions.{Safe};
ghost use Rattle.hop_machine.specs.home.MapperHome.{has_failed};
ghost use Rattle.hop_inner.specs.Setups.{parts};
ghost use Rattle.hop_inner.specs.Messages.{said_cut, CutFitsAt};
ghost use Rattle.hop_actors.specs.Acting.{Writes, said_turn};
ghost use Rattle.hop_actors.specs.Counting.{TurnCause};
ghost use Rattle.hop_writer.specs.Snapshots.{IsWhole};
ghost use Rattle.hop_writer.specs.Writers.{counts_of};

use crate::chain_name::ChainName;
use crate::notes::Noted;
use crate::putting::put_cut;
use crate::writer::Writer;
use hop_actors::Turn;
use hop_base::RunName;
use hop_cut::Cut;
use hop_inner::Reach;
use hop_inner::steps::take_cut_on;
use hop_laws::Job;
use hop_ports::{Folder, Gate, Point};

impl<'a, N: RunName, C: ChainName, F: Folder, J: Job, G: Gate> Writer<'a, N, C, F, J, G> {
    // The first of the cut lanes follows the last.
    fn lane_after(&self, p: u8) -> u8
        requires { p < self.now.writer.setup.reducers }
        ensures next { result ≡ lane_after self.now.writer.setup.reducers p }
        ensures below { result < self.now.writer.setup.reducers }
    {
        let reducers = self.settings.reducers;
        if p + 1 == reducers { 0 } else { p + 1 }
    }

    // The files of the cut of reducer p are put, and the lane after its lane is looked at first from now on.
    fn write(&mut self, p: u8, cut: Cut) -> Turn
        requires well { self.old.failed ≡ false }
        requires lane { p < self.old.writer.setup.reducers }
        requires whole { IsWhole self.old.writer.setup.lens (said_cut cut) }
        requires fits { CutFitsAt N.job N.records N.settings N.tells p cut }
        ensures wrote { self.new.writer ≡ wrote self.old.writer p (said_cut cut) (not self.new.failed) }
        ensures said { said_turn result ≡ works (not self.new.failed) }
        ensures cause { TurnCause N.job N.records N.script N.settings (Writes self.old.writer) (counts_of (F.seen self.old.folder)) (counts_of (F.seen self.new.folder)) result }
    {
        let next = self.lane_after(p);
        let put = put_cut::<N, C, F, J>(
            self.alloc,
            &mut self.folder,
            self.job,
            &self.later,
            &mut self.kept,
            p,
            self.settings.reducers,
            self.lens,
            &cut,
        );
        let noted = Noted {
            reducer: p,
            put: put.is_ok(),
        };
        let mark = cut.mark;
        self.notes.add(noted, cut);
        self.failed = put.is_err();
        self.next = next;
        match put {
            Ok(()) => {
                self.gate.pass(Point::Snapshot { mark, reducer: p });
                Turn::Worked
            }
            Err(fault) => Turn::Failed(fault),
        }
    }

    // The cut lanes are looked at in turn, and one cut is taken from the first that gives one.
    pub(crate) fn look<E: Reach<N>>(&mut self, reach: &mut E) -> Turn
        requires well { self.old.failed ≡ false }
        requires safe { Safe parts E.exact (writer_turn self.old.writer) (E.deeds reach.old) }
        ensures runs { Runs E.exact (writer_turn self.old.writer) (E.deeds reach.old) (self.new.writer, said_turn result) (E.deeds reach.new) }
        ensures failed { self.new.failed ≡ has_failed (said_turn result) }
        ensures cause { TurnCause N.job N.records N.script N.settings (Writes self.old.writer) (counts_of (F.seen self.old.folder)) (counts_of (F.seen self.new.folder)) result }
    {
        let mut p = self.next;
        let mut left = self.settings.reducers;
        while left > 0 {
            match take_cut_on(reach, p) {
                Some(cut) => return self.write(p, cut),
                None => {
                    p = self.lane_after(p);
                    left -= 1;
                }
            }
        }
        Turn::Idle
    }
}
