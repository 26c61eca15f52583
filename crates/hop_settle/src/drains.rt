//! Turns of the reducers until each is idle, while a run is settled.
ghost use Rattle.std.specs.Prelude.{◌≡◌, ◌<◌, ◌+◌, ℕ, length, List, map, OnOk, IfErr};
ghost use Rattle.hop_machine.specs.step.Steps.{Deeds};
ghost use Rattle.hop_machine.specs.actors.MapperTurns.{Mapper};
ghost use Rattle.hop_machine.specs.actors.ReducerTurns.{Writer};
ghost use Rattle.hop_machine.specs.home.Conditions.{HasAll};
ghost use Rattle.hop_machine.specs.play.Play.{Went};
ghost use Rattle.hop_machine.specs.settling.Settling.{Drained};
ghost use Rattle.hop_settle.specs.Crews.{actors_of, world_of};
ghost use Rattle.hop_settle.specs.Drains.{Stage, DrainsHere, drains_at, after_drains};
ghost use Rattle.hop_settle.specs.Stops.{place_after};

use crate::turns::{reduce_turn, was_idle};
use hop_actors::{Fault, Taker};
use hop_base::RunName;
use hop_inner::Reach;

// Turns of reducer `p` until it is idle. It fails only where memory is wanting.
fn drain_one<N: RunName, E: Reach<N>, D: Taker<N, E>>(
    reducers: &mut Vec<D>,
    p: usize,
    reach: &mut E,
) -> Result<(), Fault>
    requires place { p < length reducers.old.items }
    requires home { (ms : List Mapper) × (x : Writer) × DrainsHere p (actors_of ms (map D.reducer reducers.old.items) x) (E.deeds reach.old) }
    requires ends { HasAll (E.deeds reach.old) }
    ensures went { (s : Stage) (ms : List Mapper) (x : Writer) → Went E.exact (drains_at s p, world_of ms (map D.reducer reducers.old.items) x (E.deeds reach.old)) (place_after result (drains_at s (p + 1)), world_of ms (map D.reducer reducers.new.items) x (E.deeds reach.new)) }
    ensures ends { (E.deeds reach.new).ends ≡ (E.deeds reach.old).ends }
    ensures count { length reducers.new.items ≡ length reducers.old.items }
    ensures drained { OnOk result ((a : Deeds) → Drained p a (E.deeds reach.old) → Drained (p + 1) a (E.deeds reach.new)) }
    ensures memory { IfErr result (λ f. f ≡ Fault.NoMemory) }
{
    let mut idle = false;
    while !idle {
        idle = was_idle(reduce_turn(reducers, p, reach))?;
    }
    Ok(())
}

/// Turns of each reducer until it is idle, ascending: they take all that their lanes hold. It fails only where memory is wanting.
pub fn drain_all<N: RunName, E: Reach<N>, D: Taker<N, E>>(
    reducers: &mut Vec<D>,
    reach: &mut E,
) -> Result<(), Fault>
    requires home { (ms : List Mapper) × (x : Writer) × DrainsHere 0 (actors_of ms (map D.reducer reducers.old.items) x) (E.deeds reach.old) }
    requires ends { HasAll (E.deeds reach.old) }
    ensures went { (s : Stage) (ms : List Mapper) (x : Writer) → Went E.exact (drains_at s 0, world_of ms (map D.reducer reducers.old.items) x (E.deeds reach.old)) (place_after result (after_drains s (length reducers.old.items)), world_of ms (map D.reducer reducers.new.items) x (E.deeds reach.new)) }
    ensures ends { (E.deeds reach.new).ends ≡ (E.deeds reach.old).ends }
    ensures count { length reducers.new.items ≡ length reducers.old.items }
    ensures drained { OnOk result (Drained (length reducers.old.items) (E.deeds reach.old) (E.deeds reach.new)) }
    ensures memory { IfErr result (λ f. f ≡ Fault.NoMemory) }
{
    for p in 0..reducers.len() {
        drain_one(reducers, p, reach)?;
    }
    Ok(())
}
