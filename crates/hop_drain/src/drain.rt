//! A reducer.
ghost use Rattle.std.specs.Prelude.{◌≡◌, false};
ghost use Rattle.hop_records.specs.Records.{lens_of};
ghost use Rattle.hop_shelf.specs.Names.{book_of};
ghost use Rattle.hop_inner.specs.Setups.{setup_of};
ghost use Rattle.hop_drain.specs.Drains.{reducer_of};

use hop_base::{Lens, RunName, Settings};
use hop_laws::Job;
use std::marker::{Model, PhantomData};

/// A reducer: it takes the messages of its lanes in turn, one a turn, and records each in the history under its lock. Contracts see
/// the machine's reducer. (The reduce task of NSDI 2010, "MapReduce Online", which pulls and is pushed to alike.)
#[derive(Drop)]
pub struct Drain<'a, N: RunName, J: Job> {
    pub(crate) p: u8,
    pub(crate) job: &'a J,
    pub(crate) lens: &'a Lens,
    pub(crate) settings: &'a Settings,
    // The lane that is looked at first.
    pub(crate) next: u8,
    pub(crate) late: bool,
    pub(crate) lagging: bool,
    name: PhantomData<N>,
}

impl<'a, N: RunName, J: Job> Model for Drain<'a, N, J> {
    ghost use Rattle.hop_machine.specs.actors.ReducerTurns.{Reducer};
    ghost use Rattle.hop_inner.specs.Setups.{setup_of};
    ghost use Rattle.hop_drain.specs.Drains.{reducer_of, IsOfRun};

    ghost Value = { Reducer };

    ghost view = { λ d. reducer_of (setup_of N.records N.script N.settings) d.p d.next d.late d.lagging };

    ghost invariant = { λ d. IsOfRun N.job N.records N.settings (J.meaning d.job.now) d.lens.now d.settings.now d.next };
}

impl<'a, N: RunName, J: Job> Drain<'a, N, J> {
    /// The reducer of partition `p`, which looks at lane 0 first. The job, the record counts and the settings are those of its run. It takes
    /// no memory.
    pub fn new(p: u8, job: &'a J, lens: &'a Lens, settings: &'a Settings) -> Drain<'a, N, J>
        requires job { J.meaning job.now ≡ N.job }
        requires lens { lens.now ≡ lens_of (book_of N.records N.settings) }
        requires workers { settings.now.workers ≡ N.settings.workers }
        ensures { result ≡ reducer_of (setup_of N.records N.script N.settings) p 0 false false }
    {
        Drain {
            p,
            job,
            lens,
            settings,
            next: 0,
            late: false,
            lagging: false,
            name: PhantomData,
        }
    }

    // What its run fixes. It does nothing: proofs learn it so.
    pub(crate) fn fixed(&self)
        ensures { self.now.setup ≡ setup_of N.records N.script N.settings }
    {
        let _p = self.p;
    }
}
