//! A world of one thread.
ghost use Rattle.std.specs.Prelude.{◌≡◌, ◌+◌, ◌<◌, None, IfOk};
ghost use Rattle.hop_machine.specs.home.Conditions.{HasAll};
ghost use Rattle.hop_actor_tests.specs.Worlds.{shown, calls_made, AreFirstOfRun};

use crate::boards::{TwoSplits, board};
use hop_base::{Lens, Marks};
use hop_crew::PlainWorld;
use hop_crew::samples::plain_turn;
use hop_machine::step_laws::ends_stay;
use hop_script::Script;
use hop_shelf::Shelf;
use std::alloc::Global;
use std::test::Fail;

type World = PlainWorld<TwoSplits, Shelf<TwoSplits>>;

// The values of that run's one reducer.
fn shelves(alloc: Global) -> Result<Vec<Shelf<TwoSplits>>, Fail>
    ensures { IfOk result (λ values. AreFirstOfRun values.items) }
{
    let mut lens = Lens::new(alloc);
    lens.push(1)?;
    lens.push(1)?;
    let shelf = Shelf::new(
        alloc,
        &lens,
        0,
        &Marks::new(alloc),
        false,
        &Script::empty(alloc),
    )?;
    let mut shelves = Vec::new(alloc);
    shelves.push(shelf)?;
    Ok(shelves)
}

// The world of that run, with all its ends.
fn world(alloc: Global) -> Result<World, Fail>
    ensures all { IfOk result (λ w. HasAll (shown w)) }
    ensures unasked { IfOk result (λ w. calls_made w ≡ 0) }
{
    let board = board(alloc)?;
    let shelves = shelves(alloc)?;
    Ok(PlainWorld::new(alloc, board, shelves, 1, 1)?)
}

// Mapper 0 asks for a split.
fn ask(world: &mut World) -> Option<u32>
    requires all { HasAll (shown world.old) }
    requires few { calls_made world.old < 8 }
    ensures all { HasAll (shown world.new) }
    ensures calls { calls_made world.new ≡ calls_made world.old + 1 }
{
    ends_stay();
    let mut held = None;
    plain_turn(world, 0, 0, &mut held)
}

#[test]
fn a_world_lends_all_its_ends(rt: HostRuntime) -> Result<(), Fail> {
    let mut world = world(rt.alloc())?;
    assert_eq!(rt; ask(&mut world), Some(0));
    assert_eq!(rt; ask(&mut world), Some(1));
    assert_eq!(rt; ask(&mut world), None);
    Ok(())
}
