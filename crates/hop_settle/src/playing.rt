//! The turns of a turn list.
ghost use Rattle.std.specs.Prelude.{◌≡◌, ◌≤◌, ◌<◌, ◌+◌, ◌-◌, ◌^◌, ℕ, List, false, [], ◌∷◌, length, map, All, OnOk, IfErr};
ghost use Rattle.hop_script.specs.TurnLines.{HasActor, IsTurn, turn_count};
ghost use Rattle.hop_machine.specs.declared.words.Who.TheVariants as whose;
ghost use Rattle.hop_machine.specs.actors.MapperTurns.{Mapper};
ghost use Rattle.hop_machine.specs.actors.ReducerTurns.{Reducer, Writer};
ghost use Rattle.hop_machine.specs.home.Conditions.{HasAll};
ghost use Rattle.hop_machine.specs.play.Play.{Order, TurnOf as TurnFor, Opening, Listed, Learns, Went};
ghost use Rattle.hop_machine.specs.run.AllHome.{Opens, Ready};
ghost use Rattle.hop_actors.specs.Counting.{WriterCause};
ghost use Rattle.hop_settle.specs.Crews.{AreWell, TurnsBelow, actors_of, world_of};
ghost use Rattle.hop_settle.specs.Playing.{AreMergers, WentOn, numbers, order_of, orders_of, repeated};
ghost use Rattle.hop_settle.specs.Stops.{CrewStops, StoresStop, place_after};

use crate::catching::catch_up;
use crate::opening::open;
use crate::turns::{map_turn, reduce_turn, went_on, write_turn};
use hop_actors::{Actor, Fault, SnapshotWriter, Store, Taker};
use hop_base::RunName;
use hop_inner::Reach;
use hop_script::{Turn, TurnOf, Turns};

// A turn of mapper `w`.
fn order_mapper<N: RunName, E: Reach<N>, M: Store<N, E>>(
    mappers: &mut Vec<M>,
    w: u8,
    reach: &mut E,
) -> Result<(), Fault>
    requires place { w < length mappers.old.items }
    requires home { (rs : List Reducer) × (x : Writer) × Ready (actors_of (map M.mapper mappers.old.items) rs x) (E.deeds reach.old) }
    requires ends { HasAll (E.deeds reach.old) }
    requires well { AreWell M.failed M.fits (E.deeds reach.old).ends.board mappers.old.items }
    requires turns { TurnsBelow (2 ^ 56) (map M.mapper mappers.old.items) }
    ensures went { (later : List Order) (rs : List Reducer) (x : Writer) → Went E.exact (Listed (TurnFor (whose.Mapper w) ∷ later), world_of (map M.mapper mappers.old.items) rs x (E.deeds reach.old)) (place_after result (Listed later), world_of (map M.mapper mappers.new.items) rs x (E.deeds reach.new)) }
    ensures ends { (E.deeds reach.new).ends ≡ (E.deeds reach.old).ends }
    ensures count { length mappers.new.items ≡ length mappers.old.items }
    ensures well { OnOk result (AreWell M.failed M.fits (E.deeds reach.new).ends.board mappers.new.items) }
    ensures turns { (n : ℕ) → TurnsBelow n (map M.mapper mappers.old.items) → TurnsBelow (n + 1) (map M.mapper mappers.new.items) }
    ensures counts { OnOk result (map M.counts mappers.new.items ≡ map M.counts mappers.old.items) }
    ensures cause { IfErr result (StoresStop N.job N.records N.script N.settings (map M.counts mappers.old.items) (map M.counts mappers.new.items)) }
{
    went_on(map_turn(mappers, w as usize, reach))
}

// A turn of reducer `p`.
fn order_reducer<N: RunName, E: Reach<N>, D: Taker<N, E>>(
    reducers: &mut Vec<D>,
    p: u8,
    reach: &mut E,
) -> Result<(), Fault>
    requires place { p < length reducers.old.items }
    requires home { (ms : List Mapper) × (x : Writer) × Ready (actors_of ms (map D.reducer reducers.old.items) x) (E.deeds reach.old) }
    requires ends { HasAll (E.deeds reach.old) }
    ensures went { (later : List Order) (ms : List Mapper) (x : Writer) → Went E.exact (Listed (TurnFor (whose.Reducer p) ∷ later), world_of ms (map D.reducer reducers.old.items) x (E.deeds reach.old)) (place_after result (Listed later), world_of ms (map D.reducer reducers.new.items) x (E.deeds reach.new)) }
    ensures ends { (E.deeds reach.new).ends ≡ (E.deeds reach.old).ends }
    ensures count { length reducers.new.items ≡ length reducers.old.items }
    ensures memory { IfErr result (λ f. f ≡ Fault.NoMemory) }
{
    went_on(reduce_turn(reducers, p as usize, reach))
}

// A turn of merger `j`, which changes no history.
fn order_merger<N: RunName, E: Reach<N>, G: Actor<N, E>>(
    mergers: &mut Vec<G>,
    j: u8,
    reach: &mut E,
) -> Result<(), Fault>
    requires place { j < length mergers.old.items }
    requires merges { AreMergers G.acting mergers.old.items }
    requires well { AreWell G.failed G.fits (E.deeds reach.old).ends.board mergers.old.items }
    ensures learns { Learns E.exact (E.deeds reach.old) (E.deeds reach.new) }
    ensures ends { (E.deeds reach.new).ends ≡ (E.deeds reach.old).ends }
    ensures count { length mergers.new.items ≡ length mergers.old.items }
    ensures merges { AreMergers G.acting mergers.new.items }
    ensures well { OnOk result (AreWell G.failed G.fits (E.deeds reach.new).ends.board mergers.new.items) }
    ensures memory { IfErr result (λ f. f ≡ Fault.NoMemory) }
{
    went_on(mergers[j as usize].turn(reach))
}

// A turn of the writer.
fn order_writer<N: RunName, E: Reach<N>, W: SnapshotWriter<N, E>>(
    writer: &mut W,
    reach: &mut E,
) -> Result<(), Fault>
    requires home { (ms : List Mapper) × (rs : List Reducer) × Ready (actors_of ms rs (W.writer writer.old)) (E.deeds reach.old) }
    requires ends { HasAll (E.deeds reach.old) }
    requires well { W.failed writer.old ≡ false }
    requires fits { W.fits writer.old (E.deeds reach.old).ends.board }
    ensures went { (later : List Order) (ms : List Mapper) (rs : List Reducer) → Went E.exact (Listed (TurnFor whose.Writer ∷ later), world_of ms rs (W.writer writer.old) (E.deeds reach.old)) (place_after result (Listed later), world_of ms rs (W.writer writer.new) (E.deeds reach.new)) }
    ensures ends { (E.deeds reach.new).ends ≡ (E.deeds reach.old).ends }
    ensures well { OnOk result (W.failed writer.new ≡ false) }
    ensures fits { W.fits writer.new (E.deeds reach.new).ends.board }
    ensures counts { OnOk result (W.counts writer.new ≡ W.counts writer.old) }
    ensures cause { IfErr result (WriterCause (W.counts writer.old) (W.counts writer.new)) }
{
    went_on(write_turn(writer, reach))
}

// A turn of the actor, or catching up.
fn order<
    N: RunName,
    E: Reach<N>,
    M: Store<N, E>,
    D: Taker<N, E>,
    G: Actor<N, E>,
    W: SnapshotWriter<N, E>,
>(
    mappers: &mut Vec<M>,
    reducers: &mut Vec<D>,
    mergers: &mut Vec<G>,
    writer: &mut W,
    reach: &mut E,
    actor: TurnOf,
) -> Result<(), Fault>
    requires actor { HasActor (numbers (length mappers.old.items) (length reducers.old.items) (length mergers.old.items)) actor }
    requires few { length reducers.old.items ≤ 256 }
    requires home { Ready (actors_of (map M.mapper mappers.old.items) (map D.reducer reducers.old.items) (W.writer writer.old)) (E.deeds reach.old) }
    requires ends { HasAll (E.deeds reach.old) }
    requires well { AreWell M.failed M.fits (E.deeds reach.old).ends.board mappers.old.items }
    requires merges { AreMergers G.acting mergers.old.items }
    requires mergers { AreWell G.failed G.fits (E.deeds reach.old).ends.board mergers.old.items }
    requires writer { W.failed writer.old ≡ false }
    requires fits { W.fits writer.old (E.deeds reach.old).ends.board }
    requires turns { TurnsBelow (2 ^ 56) (map M.mapper mappers.old.items) }
    ensures went { (later : List Order) → WentOn E.exact (Listed (order_of actor ∷ later), world_of (map M.mapper mappers.old.items) (map D.reducer reducers.old.items) (W.writer writer.old) (E.deeds reach.old)) result (Listed later) (world_of (map M.mapper mappers.new.items) (map D.reducer reducers.new.items) (W.writer writer.new) (E.deeds reach.new)) }
    ensures ends { (E.deeds reach.new).ends ≡ (E.deeds reach.old).ends }
    ensures mappers { length mappers.new.items ≡ length mappers.old.items }
    ensures reducers { length reducers.new.items ≡ length reducers.old.items }
    ensures mergers { length mergers.new.items ≡ length mergers.old.items }
    ensures well { OnOk result (AreWell M.failed M.fits (E.deeds reach.new).ends.board mappers.new.items) }
    ensures merges { AreMergers G.acting mergers.new.items }
    ensures merging { OnOk result (AreWell G.failed G.fits (E.deeds reach.new).ends.board mergers.new.items) }
    ensures writer { OnOk result (W.failed writer.new ≡ false) }
    ensures fits { W.fits writer.new (E.deeds reach.new).ends.board }
    ensures turns { (n : ℕ) → TurnsBelow n (map M.mapper mappers.old.items) → TurnsBelow (n + 1) (map M.mapper mappers.new.items) }
    ensures counts { OnOk result (map M.counts mappers.new.items ≡ map M.counts mappers.old.items) }
    ensures put { OnOk result (W.counts writer.new ≡ W.counts writer.old) }
    ensures cause { IfErr result (CrewStops N.job N.records N.script N.settings (map M.counts mappers.old.items) (map M.counts mappers.new.items) (W.counts writer.old) (W.counts writer.new)) }
{
    match actor {
        TurnOf::Mapper(w) => order_mapper(mappers, w, reach),
        TurnOf::Reducer(p) => order_reducer(reducers, p, reach),
        TurnOf::Merger(j) => order_merger(mergers, j, reach),
        TurnOf::Writer => order_writer(writer, reach),
        TurnOf::CatchUp => catch_up(mappers, reducers, reach),
    }
}

// So many turns of an actor.
fn line<
    N: RunName,
    E: Reach<N>,
    M: Store<N, E>,
    D: Taker<N, E>,
    G: Actor<N, E>,
    W: SnapshotWriter<N, E>,
>(
    mappers: &mut Vec<M>,
    reducers: &mut Vec<D>,
    mergers: &mut Vec<G>,
    writer: &mut W,
    reach: &mut E,
    turn: Turn,
) -> Result<(), Fault>
    requires actor { IsTurn (numbers (length mappers.old.items) (length reducers.old.items) (length mergers.old.items)) turn }
    requires few { length reducers.old.items ≤ 256 }
    requires home { Ready (actors_of (map M.mapper mappers.old.items) (map D.reducer reducers.old.items) (W.writer writer.old)) (E.deeds reach.old) }
    requires ends { HasAll (E.deeds reach.old) }
    requires well { AreWell M.failed M.fits (E.deeds reach.old).ends.board mappers.old.items }
    requires merges { AreMergers G.acting mergers.old.items }
    requires mergers { AreWell G.failed G.fits (E.deeds reach.old).ends.board mergers.old.items }
    requires writer { W.failed writer.old ≡ false }
    requires fits { W.fits writer.old (E.deeds reach.old).ends.board }
    requires turns { TurnsBelow (2 ^ 56 - turn.count) (map M.mapper mappers.old.items) }
    ensures went { (later : List Order) → WentOn E.exact (Listed (repeated turn.count (order_of turn.actor) later), world_of (map M.mapper mappers.old.items) (map D.reducer reducers.old.items) (W.writer writer.old) (E.deeds reach.old)) result (Listed later) (world_of (map M.mapper mappers.new.items) (map D.reducer reducers.new.items) (W.writer writer.new) (E.deeds reach.new)) }
    ensures ends { (E.deeds reach.new).ends ≡ (E.deeds reach.old).ends }
    ensures mappers { length mappers.new.items ≡ length mappers.old.items }
    ensures reducers { length reducers.new.items ≡ length reducers.old.items }
    ensures mergers { length mergers.new.items ≡ length mergers.old.items }
    ensures well { OnOk result (AreWell M.failed M.fits (E.deeds reach.new).ends.board mappers.new.items) }
    ensures merges { AreMergers G.acting mergers.new.items }
    ensures merging { OnOk result (AreWell G.failed G.fits (E.deeds reach.new).ends.board mergers.new.items) }
    ensures writer { OnOk result (W.failed writer.new ≡ false) }
    ensures fits { W.fits writer.new (E.deeds reach.new).ends.board }
    ensures turns { (n : ℕ) → TurnsBelow n (map M.mapper mappers.old.items) → TurnsBelow (n + turn.count) (map M.mapper mappers.new.items) }
    ensures counts { OnOk result (map M.counts mappers.new.items ≡ map M.counts mappers.old.items) }
    ensures put { OnOk result (W.counts writer.new ≡ W.counts writer.old) }
    ensures cause { IfErr result (CrewStops N.job N.records N.script N.settings (map M.counts mappers.old.items) (map M.counts mappers.new.items) (W.counts writer.old) (W.counts writer.new)) }
{
    for i in 0..turn.count {
        order(mappers, reducers, mergers, writer, reach, turn.actor)?;
    }
    Ok(())
}

/// The cuts that are due on the empty histories are sent, and then the actors take the turns of a turn list, in order; `c` is catching up. A fault ends it: of a mapper or the writer that
/// failed, or want of memory.
pub fn play<
    N: RunName,
    E: Reach<N>,
    M: Store<N, E>,
    D: Taker<N, E>,
    G: Actor<N, E>,
    W: SnapshotWriter<N, E>,
>(
    mappers: &mut Vec<M>,
    reducers: &mut Vec<D>,
    mergers: &mut Vec<G>,
    writer: &mut W,
    reach: &mut E,
    turns: &Turns,
) -> Result<(), Fault>
    requires actor { All (IsTurn (numbers (length mappers.old.items) (length reducers.old.items) (length mergers.old.items))) turns.now }
    requires few { length reducers.old.items ≤ 256 }
    requires home { Opens 0 (actors_of (map M.mapper mappers.old.items) (map D.reducer reducers.old.items) (W.writer writer.old)) (E.deeds reach.old) }
    requires ends { HasAll (E.deeds reach.old) }
    requires well { AreWell M.failed M.fits (E.deeds reach.old).ends.board mappers.old.items }
    requires merges { AreMergers G.acting mergers.old.items }
    requires mergers { AreWell G.failed G.fits (E.deeds reach.old).ends.board mergers.old.items }
    requires writer { W.failed writer.old ≡ false }
    requires fits { W.fits writer.old (E.deeds reach.old).ends.board }
    requires turns { TurnsBelow (2 ^ 56 - turn_count turns.now) (map M.mapper mappers.old.items) }
    ensures went { WentOn E.exact (Opening 0 (orders_of turns.now), world_of (map M.mapper mappers.old.items) (map D.reducer reducers.old.items) (W.writer writer.old) (E.deeds reach.old)) result (Listed []) (world_of (map M.mapper mappers.new.items) (map D.reducer reducers.new.items) (W.writer writer.new) (E.deeds reach.new)) }
    ensures ends { (E.deeds reach.new).ends ≡ (E.deeds reach.old).ends }
    ensures mappers { length mappers.new.items ≡ length mappers.old.items }
    ensures reducers { length reducers.new.items ≡ length reducers.old.items }
    ensures mergers { length mergers.new.items ≡ length mergers.old.items }
    ensures well { OnOk result (AreWell M.failed M.fits (E.deeds reach.new).ends.board mappers.new.items) }
    ensures merges { AreMergers G.acting mergers.new.items }
    ensures merging { OnOk result (AreWell G.failed G.fits (E.deeds reach.new).ends.board mergers.new.items) }
    ensures writer { OnOk result (W.failed writer.new ≡ false) }
    ensures fits { W.fits writer.new (E.deeds reach.new).ends.board }
    ensures turns { (n : ℕ) → TurnsBelow n (map M.mapper mappers.old.items) → TurnsBelow (n + turn_count turns.now) (map M.mapper mappers.new.items) }
    ensures counts { OnOk result (map M.counts mappers.new.items ≡ map M.counts mappers.old.items) }
    ensures put { OnOk result (W.counts writer.new ≡ W.counts writer.old) }
    ensures cause { IfErr result (CrewStops N.job N.records N.script N.settings (map M.counts mappers.old.items) (map M.counts mappers.new.items) (W.counts writer.old) (W.counts writer.new)) }
{
    open(reducers, reach)?;
    for turn in turns.turns() {
        line(mappers, reducers, mergers, writer, reach, *turn)?;
    }
    Ok(())
}
