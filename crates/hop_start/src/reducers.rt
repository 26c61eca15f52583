//! The reducers of a run as it begins.
ghost use Rattle.std.specs.Prelude.{◌≡◌, IfOk};
ghost use Rattle.hop_machine.specs.play.FirstState.{new_actors};
ghost use Rattle.hop_inner.specs.Setups.{setup_of};
ghost use Rattle.hop_start.specs.Given.{AreCounted};

use hop_base::{Lens, NoMemory, RunName, Settings};
use hop_drain::Drain;
use hop_laws::Job;
use std::alloc::Global;

/// The reducers of a run on one thread, one for each partition, in the order of their numbers: they are the machine's
/// new reducers. What is borrowed is of the run.
pub fn new_reducers<'a, N: RunName, J: Job>(
    alloc: Global,
    job: &'a J,
    lens: &'a Lens,
    settings: &'a Settings,
) -> Result<Vec<Drain<'a, N, J>>, NoMemory>
    requires job { J.meaning job.now ≡ N.job }
    requires given { AreCounted N.records N.settings lens.now settings.now }
    ensures { IfOk result (λ reducers. reducers.items ≡ (new_actors (setup_of N.records N.script N.settings) N.settings.backup).reducers) }
{
    let mut reducers = Vec::new(alloc);
    for p in 0..settings.reducers {
        reducers.push(Drain::new(p, job, lens, settings))?;
    }
    Ok(reducers)
}
