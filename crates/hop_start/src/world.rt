//! The world of a run as it begins.
ghost use Rattle.std.specs.Prelude.{◌≡◌, IfOk, length};
ghost use Rattle.hop_machine.specs.home.Conditions.{HasAll};
ghost use Rattle.hop_machine.specs.run.AllHome.{new_deeds};
ghost use Rattle.hop_inner.specs.Setups.{setup_of};
ghost use Rattle.hop_inner.specs.Shelved.{value_of};
ghost use Rattle.hop_crew.specs.PlainWorlds.{deeds_of};
ghost use Rattle.hop_crew.specs.Unused.{AreFirst};
ghost use Rattle.hop_start.specs.Given.{AreOfRun};

use hop_base::{Lens, NoMemory, RunName, Settings};
use hop_board::PlainBoard;
use hop_crew::PlainWorld;
use hop_script::Script;
use hop_shelf::Shelf;
use std::alloc::Global;

// The shelf of each reducer, of the empty history.
fn new_shelves<N: RunName>(
    alloc: Global,
    lens: &Lens,
    script: &Script,
    settings: &Settings,
) -> Result<Vec<Shelf<N>>, NoMemory>
    requires given { AreOfRun N.job N.records N.script N.settings lens.now script.now settings.now }
    ensures count { IfOk result (λ shelves. length shelves.items ≡ N.settings.reducers) }
    ensures first { IfOk result (λ shelves. AreFirst (setup_of N.records N.script N.settings) value_of (λ s. s.p) shelves.items) }
{
    let mut shelves = Vec::new(alloc);
    for p in 0..settings.reducers {
        let shelf = Shelf::new(alloc, lens, p, &settings.marks, settings.tentative, script)?;
        shelves.push(shelf)?;
    }
    Ok(shelves)
}

/// The world of a run on one thread, with all its ends: lanes and cut lanes in which nothing lies, a board at which
/// nothing was asked, and a free lock over each reducer's empty history. What is borrowed is of the run.
pub fn new_world<N: RunName>(
    alloc: Global,
    lens: &Lens,
    script: &Script,
    settings: &Settings,
) -> Result<PlainWorld<N, Shelf<N>>, NoMemory>
    requires given { AreOfRun N.job N.records N.script N.settings lens.now script.now settings.now }
    ensures new { IfOk result (λ w. deeds_of (setup_of N.records N.script N.settings) w ≡ new_deeds (setup_of N.records N.script N.settings) (deeds_of (setup_of N.records N.script N.settings) w).ends) }
    ensures all { IfOk result (λ w. HasAll (deeds_of (setup_of N.records N.script N.settings) w)) }
{
    let board = PlainBoard::new(alloc, lens.as_slice().len() as u32)?;
    let shelves = new_shelves::<N>(alloc, lens, script, settings)?;
    PlainWorld::new(alloc, board, shelves, settings.workers, settings.lane)
}
