//! A map worker.
ghost use Rattle.std.specs.Prelude.{◌≡◌, ℕ, ◌<◌, false, None, Some, IsTrue, IsSome, IfOk, IfSome, replicate, slice_index_or, []};
ghost use Rattle.hop_mapper.specs.Mappers.{settings_of};
ghost use Rattle.hop_records.specs.Records.{lens_of};
ghost use Rattle.hop_shelf.specs.Names.{book_of, rules_of, IsRun};

use crate::no_mapper::NoMapper;
use crate::state::State;
use hop_actors::{Fault, Turn};
use hop_base::{FlatSheets, Part, RunName, Settings};
use hop_inner::{Knowing, Reach};
use hop_laws::Job;
use hop_ports::{Folder, Gate};
use hop_press::Press;
use hop_records::Book;
use hop_script::Script;
use hop_vault::Vault;
use std::alloc::Global;
use std::marker::Model;

/// A map worker of a run. It has at most one running attempt, keeps the spills of all its attempts in its
/// vault, and holds what its lanes have no room for in its press. Where its folder tells, that holds what it
/// held at the start and the files of just the spills that were kept, unless a turn failed. Then too only files
/// of spills were put.
#[derive(Drop)]
pub struct Mapper<'a, N: RunName, V: Folder, J: Job, G: Gate, K: Knowing> {
    state: State<'a, N, V, J, G, K>,
}

impl<'a, N: RunName, V: Folder, J: Job, G: Gate, K: Knowing> Model for Mapper<'a, N, V, J, G, K> {
    ghost use Rattle.hop_mapper.specs.Mappers.{MapperValue};
    ghost use Rattle.hop_mapper.specs.Sound.{KeepsFolder};

    ghost Value = { MapperValue V K };

    ghost view = { λ m. m.state };

    ghost invariant = { λ m. KeepsFolder N.job N.records N.settings N.spills V.seen m.state };
}

impl<'a, N: RunName, V: Folder + Drop, J: Job, G: Gate, K: Knowing> Mapper<'a, N, V, J, G, K> {
    ghost use Rattle.std.specs.Prelude.{IfErr};
    ghost use Rattle.hop_machine.specs.home.Starts.{new_mapper};
    ghost use Rattle.hop_machine.specs.step.Steps.{Deeds};
    ghost use Rattle.hop_press.specs.Held.{no_lane};
    ghost use Rattle.hop_mapper.specs.Mappers.{mapper_of, FitsBoard};

    /// A mapper without an attempt, the worker of its vault. The vault has kept nothing, and where its folder
    /// tells, it holds what the name of the run says that the folders held at the start. The press holds
    /// nothing and has a lane for each reducer. What is borrowed is of the run. Where memory is wanting, the vault
    /// is handed back.
    pub fn new(
        alloc: Global,
        vault: Vault<V>,
        press: Press<K>,
        book: &'a Book,
        job: &'a J,
        script: &'a Script,
        gate: &'a G,
        settings: &'a Settings,
    ) -> Result<Mapper<'a, N, V, J, G, K>, NoMapper<V>>
        requires run { IsRun N.job N.records N.settings }
        requires job { J.meaning job.now ≡ N.job }
        requires book { book.now ≡ book_of N.records N.settings }
        requires script { script.now ≡ N.script }
        requires settings { settings_of settings.now ≡ N.settings }
        requires vault { vault.rows ≡ [] }
        requires told { IsTrue N.tells → IsSome (V.seen vault.folder).held }
        requires start { IfSome (V.seen vault.folder).held (λ files. slice_index_or N.spills vault.worker None ≡ Some files) }
        requires press { press ≡ replicate N.settings.reducers no_lane }
        ensures made { IfOk result (λ m. mapper_of N.records N.script N.settings m ≡ new_mapper vault.worker (rules_of N.records N.script N.settings) N.settings.backup N.settings.reducers) }
        ensures vault { IfOk result (λ m. m.vault ≡ vault) }
        ensures held { IfOk result (λ m. m.held ≡ press) }
        ensures fits { IfOk result (λ m. (d : Deeds) → FitsBoard N.job N.records N.settings N.tells K.knows K.board m d) }
        ensures well { IfOk result (λ m. m.failed ≡ false) }
        ensures back { IfErr result (λ e. e.0 ≡ vault) }
    {
        let state = State::new(alloc, vault, press, book, job, script, gate, settings)?;
        Ok(Mapper { state })
    }
}

impl<'a, N: RunName, V: Folder, J: Job, G: Gate, K: Knowing> Mapper<'a, N, V, J, G, K> {
    ghost use Rattle.hop_machine.specs.actors.MapperTurns.{mapper_turn};
    ghost use Rattle.hop_machine.specs.home.MapperHome.{has_failed};
    ghost use Rattle.hop_machine.specs.step.Steps.{Runs};
    ghost use Rattle.hop_actors.specs.Acting.{said_turn, said_fault, Maps, MayMap};
    ghost use Rattle.hop_machine.specs.declared.words.Turn.TheVariants as said;
    ghost use Rattle.hop_actors.specs.Counting.{StoreCause, TurnCause};
    ghost use Rattle.hop_actors.specs.Spilled.{OnlySpills, MayFetch, TogetherStand};
    ghost use Rattle.hop_shelf.specs.Names.{pairs_of};
    ghost use Rattle.std.specs.Prelude.{IfErr, OnOk};
    ghost use Rattle.hop_mapper.specs.Mappers.{mapper_of, counts_of, FitsBoard};
    ghost use Rattle.hop_mapper.specs.Sound.{HoldsSpills, PutOnlySpills};

    /// Its vault, as its turns left it. It takes no memory.
    pub fn into_vault(self) -> Vault<V>
        ensures { result ≡ self.entry.vault }
    {
        let Mapper { state } = self;
        state.into_vault()
    }

    /// One turn: the machine's program of a mapper's turn runs. No turn of it failed before, it is at home in a
    /// value that has its ends, and what it holds can be sent over them.
    pub(crate) fn take_turn<E: Reach<N, Seat = K>>(&mut self, reach: &mut E) -> Turn
        requires well { self.old.failed ≡ false }
        requires may { MayMap (mapper_of N.records N.script N.settings self.old) (E.deeds reach.old) }
        requires fits { FitsBoard N.job N.records N.settings N.tells K.knows K.board self.old (E.deeds reach.old) }
        ensures runs { Runs E.exact (mapper_turn (mapper_of N.records N.script N.settings self.old)) (E.deeds reach.old) (mapper_of N.records N.script N.settings self.new, said_turn result) (E.deeds reach.new) }
        ensures failed { self.new.failed ≡ has_failed (said_turn result) }
        ensures fits { FitsBoard N.job N.records N.settings N.tells K.knows K.board self.new (E.deeds reach.new) }
        ensures cause { TurnCause N.job N.records N.script N.settings (Maps (mapper_of N.records N.script N.settings self.old)) (counts_of V.seen self.old.vault) (counts_of V.seen self.new.vault) result }
        ensures spilled { HoldsSpills N.job N.records N.settings N.spills V.seen self.new }
        ensures only { OnlySpills (V.seen self.old.vault.folder).held (V.seen self.new.vault.folder).held }
    {
        self.state.turn(reach)
    }

    /// The end of the kept spills of the attempt, in records of its split: 0 where there are none.
    pub(crate) fn kept_end(&self, split: u32, attempt: u8) -> u32
        ensures { result ≡ (mapper_of N.records N.script N.settings self.now).kept split attempt }
    {
        self.state.kept(split, attempt)
    }

    /// One more than the greatest attempt of the split that it began, at most 16: 0 where it began none.
    pub(crate) fn begun_of(&self, split: u32) -> u8
        ensures { result ≡ (mapper_of N.records N.script N.settings self.now).begun split }
    {
        self.state.begun(split)
    }

    /// Whether it has ended: its last turn was answered Ended.
    pub(crate) fn ended(&self) -> bool
        ensures { result ≡ (mapper_of N.records N.script N.settings self.now).ended }
    {
        self.state.has_ended()
    }

    /// The sheets of partition `p` of whole kept spills, in order: the range begins and ends where spills do.
    /// Where the spill folders tell, all their pairs together stand for the range. A fault comes as in a turn.
    pub(crate) fn fetch(&mut self, part: Part, p: u8) -> Result<FlatSheets, Fault>
        requires range { MayFetch (mapper_of N.records N.script N.settings self.old) part }
        requires partition { p < N.settings.reducers }
        ensures mapper { mapper_of N.records N.script N.settings self.new ≡ mapper_of N.records N.script N.settings self.old }
        ensures same { self.new ≡ record self.old { vault = self.new.vault } }
        ensures rows { self.new.vault.rows ≡ self.old.vault.rows }
        ensures files { (V.seen self.new.vault.folder).held ≡ (V.seen self.old.vault.folder).held }
        ensures stands { IfOk result (λ sheets. IsTrue N.tells → TogetherStand N.job.reduced sheets (pairs_of N.job N.records N.settings p part)) }
        ensures answered { OnOk result (counts_of V.seen self.new.vault ≡ counts_of V.seen self.old.vault) }
        ensures cause { IfErr result (StoreCause N.job N.records N.script N.settings self.old.vault.worker (counts_of V.seen self.old.vault) (counts_of V.seen self.new.vault)) }
        ensures stops { IfErr result (λ fault. said_fault fault ≡ said.Stopped) }
    {
        self.state.fetch_back(part, p)
    }

    /// What its folder holds: at every answer only files of spills were put, and unless a turn failed, those of just the spills that were kept. It does
    /// nothing: proofs learn it so.
    pub(crate) fn holds_spills(&self)
        ensures spilled { HoldsSpills N.job N.records N.settings N.spills V.seen self.now }
        ensures only { PutOnlySpills N.spills V.seen self.now }
    {
        let _state = &self.state;
    }
}
