//! The first cuts.
ghost use Rattle.std.specs.Prelude.{◌≡◌, List, length, map, IfErr};
ghost use Rattle.hop_machine.specs.actors.MapperTurns.{Mapper};
ghost use Rattle.hop_machine.specs.actors.ReducerTurns.{Writer};
ghost use Rattle.hop_machine.specs.home.Conditions.{HasAll};
ghost use Rattle.hop_machine.specs.play.Play.{Order, Opening, Listed, Went};
ghost use Rattle.hop_machine.specs.run.AllHome.{Opens};
ghost use Rattle.hop_settle.specs.Crews.{actors_of, world_of};
ghost use Rattle.hop_settle.specs.Stops.{place_after};

use hop_actors::{Fault, Taker};
use hop_base::RunName;
use hop_inner::Reach;

/// The cuts that are due on the empty histories are sent to the writer, by reducer, ascending. It fails only where memory is wanting.
pub fn open<N: RunName, E: Reach<N>, D: Taker<N, E>>(
    reducers: &mut Vec<D>,
    reach: &mut E,
) -> Result<(), Fault>
    requires home { (ms : List Mapper) × (x : Writer) × Opens 0 (actors_of ms (map D.reducer reducers.old.items) x) (E.deeds reach.old) }
    requires ends { HasAll (E.deeds reach.old) }
    ensures went { (list : List Order) (ms : List Mapper) (x : Writer) → Went E.exact (Opening 0 list, world_of ms (map D.reducer reducers.old.items) x (E.deeds reach.old)) (place_after result (Listed list), world_of ms (map D.reducer reducers.new.items) x (E.deeds reach.new)) }
    ensures ends { (E.deeds reach.new).ends ≡ (E.deeds reach.old).ends }
    ensures count { length reducers.new.items ≡ length reducers.old.items }
    ensures memory { IfErr result (λ f. f ≡ Fault.NoMemory) }
{
    for p in 0..reducers.len() {
        match reducers[p].send_due(reach) {
            Ok(()) => {}
            Err(_) => return Err(Fault::NoMemory),
        }
    }
    Ok(())
}
