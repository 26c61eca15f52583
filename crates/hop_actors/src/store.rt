//! What a coordinator asks of a mapper.
ghost use Rattle.std.specs.Prelude.{◌≡◌, false, ℕ, List, ◌<◌, IsTrue, IfOk, IfErr, OnOk, Option, slice_index_or, None};
ghost use Rattle.hop_base.specs.Files.{Files};
ghost use Rattle.hop_shelf.specs.Names.{pairs_of};
ghost use Rattle.hop_machine.specs.declared.words.Turn.TheVariants as said;
ghost use Rattle.hop_machine.specs.actors.MapperTurns.{Mapper};
ghost use Rattle.hop_actors.specs.Acting.{Maps, said_fault};
ghost use Rattle.hop_actors.specs.Counting.{StoreCause};
ghost use Rattle.hop_actors.specs.Spilled.{IsSpilled, OnlySpills, MayFetch, TogetherStand};

use crate::actor::Actor;
use crate::fault::Fault;
use hop_base::{FlatSheets, Part, RunName};
use hop_inner::Reach;

/// A mapper, as a coordinator sees it: a store of spills.
pub trait Store<N: RunName, E: Reach<N>>: Actor<N, E> {
    /// Its part of the machine.
    ghost mapper: { Self → Mapper };

    /// What its folder holds, where it tells.
    ghost held: { Self → Option Files };

    /// What its folder holds. Unless a turn failed, it is what it held at the start, and the files of what it kept; and always, under a name that no spill's
    /// file has, it is what it held at the start. It does nothing: proofs learn it so.
    fn known(&self)
        ensures spilled { Self.failed self.now ≡ false → IsSpilled N.job N.records N.settings.split N.settings.reducers N.settings.spill (mapper self.now).rules.lens (mapper self.now).kept (slice_index_or N.spills (mapper self.now).number None) (held self.now) }
        ensures only { OnlySpills (slice_index_or N.spills (mapper self.now).number None) (held self.now) };

    /// The end of the kept spills of the attempt, in records of its split: 0 where there are none.
    fn kept(&self, split: u32, attempt: u8) -> u32
        ensures { result ≡ (mapper self.now).kept split attempt };

    /// One more than the greatest attempt of the split that it began, at most 16: 0 where it began none.
    fn begun(&self, split: u32) -> u8
        ensures { result ≡ (mapper self.now).begun split };

    /// Whether it has ended: its last turn was answered Ended.
    fn has_ended(&self) -> bool
        ensures { result ≡ (mapper self.now).ended };

    /// The sheets of partition `p` of whole kept spills, in order. Where the spill folders tell, all their pairs together stand for the range.
    fn fetch_back(&mut self, part: Part, p: u8) -> Result<FlatSheets, Fault>
        requires range { MayFetch (mapper self.old) part }
        requires partition { p < N.settings.reducers }
        ensures mapper { mapper self.new ≡ mapper self.old }
        ensures failed { Self.failed self.new ≡ Self.failed self.old }
        ensures held { held self.new ≡ held self.old }
        ensures fits { (board : List ℕ) → Self.fits self.old board → Self.fits self.new board }
        ensures stands { IfOk result (λ sheets. IsTrue N.tells → TogetherStand N.job.reduced sheets (pairs_of N.job N.records N.settings p part)) }
        ensures answered { OnOk result (Self.counts self.new ≡ Self.counts self.old) }
        ensures cause { IfErr result (StoreCause N.job N.records N.script N.settings (mapper self.old).number (Self.counts self.old) (Self.counts self.new)) }
        ensures stops { IfErr result (λ fault. said_fault fault ≡ said.Stopped) };

    ghost is_mapper: { (s : Self) → Self.acting s ≡ Maps (mapper s) };
}
