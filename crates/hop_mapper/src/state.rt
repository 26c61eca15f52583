//! What a map worker has, and the parts of its turn.
ghost use Rattle.std.specs.Prelude.{◌≡◌, ◌+◌, ◌-◌, ◌<◌, ◌≤◌, false, length, slice_index, IfOk, IfErr, OnOk, replicate};

use crate::faults::fetch_fault;
use crate::no_mapper::NoMapper;
use crate::spilling::all_known;
use crate::work::Work;
use hop_actors::{Fault, Turn};
use hop_base::{FlatSheets, NoMemory, Part, RunName, Settings};
use hop_inner::Knowing;
use hop_laws::Job;
use hop_ports::{Folder, Gate};
use hop_press::Press;
use hop_records::Book;
use hop_script::Script;
use hop_vault::Vault;
use std::alloc::Global;
use std::marker::{Model, PhantomData};

// It has at most one running attempt, keeps the spills of all its attempts in its vault, and holds what its
// lanes have no room for in its press.
#[derive(Drop)]
pub struct State<'a, N: RunName, V: Folder, J: Job, G: Gate, K: Knowing> {
    pub(crate) alloc: Global,
    pub(crate) vault: Vault<V>,
    pub(crate) press: Press<K>,
    pub(crate) book: &'a Book,
    pub(crate) job: &'a J,
    pub(crate) script: &'a Script,
    pub(crate) gate: &'a G,
    pub(crate) settings: &'a Settings,
    pub(crate) turns: u64,
    pub(crate) work: Work,
    pub(crate) dry: bool,
    pub(crate) place: u32,
    // One more than the greatest attempt that it began of each split.
    pub(crate) begun: Vec<u8>,
    pub(crate) ended: bool,
    pub(crate) failed: bool,
    name: PhantomData<N>,
}

impl<'a, N: RunName, V: Folder, J: Job, G: Gate, K: Knowing> Model for State<'a, N, V, J, G, K> {
    ghost use Rattle.hop_mapper.specs.Mappers.{MapperValue};
    ghost use Rattle.hop_mapper.specs.Sound.{IsSound};

    ghost Value = { MapperValue V K };

    ghost view = { λ m. record { vault = m.vault; held = m.press; turns = m.turns; work = m.work; dry = m.dry; place = m.place; begun = m.begun.items; ended = m.ended; failed = m.failed } };

    ghost invariant = { λ m. IsSound N.job N.records N.script N.settings N.tells (J.meaning m.job.now) m.book.now m.script.now m.settings.now (V.seen m.vault.folder) m.vault.rows m.press m.begun.items m.failed };
}

impl<'a, N: RunName, V: Folder, J: Job, G: Gate, K: Knowing> State<'a, N, V, J, G, K> {
    ghost use Rattle.std.specs.Prelude.{◌^◌, nat_lt, IsTrue};
    ghost use Rattle.hop_base.specs.Run.{delay_of};
    ghost use Rattle.hop_records.specs.Records.{lens_of};
    ghost use Rattle.hop_shelf.specs.Names.{book_of, pairs_of};
    ghost use Rattle.hop_machine.specs.actors.MapperTurns.{begins, spills, is_ended};
    ghost use Rattle.hop_machine.specs.home.MapperHome.{has_failed};
    ghost use Rattle.hop_actors.specs.Acting.{said_turn, said_fault};
    ghost use Rattle.hop_actors.specs.Counting.{StoreCause};
    ghost use Rattle.hop_mapper.specs.Mappers.{mapper_of, counts_of};
    ghost use Rattle.hop_mapper.specs.Next.{IsWithinLimits};
    ghost use Rattle.hop_actors.specs.Spilled.{MayFetch, TogetherStand};
    ghost use Rattle.hop_machine.specs.declared.words.Turn.TheVariants as said;

    // How many splits there are.
    pub(crate) fn splits(&self) -> u32
        ensures { result ≡ length (lens_of (book_of N.records N.settings)) }
    {
        self.book.splits()
    }

    // How many records the split has.
    pub(crate) fn len_of(&self, split: u32) -> u32
        requires { split < length (lens_of (book_of N.records N.settings)) }
        ensures value { result ≡ slice_index (lens_of (book_of N.records N.settings)) split }
        ensures few { result ≤ 16777216 }
    {
        self.book.len(split)
    }

    // The limits of the run. It does nothing: proofs learn them so.
    pub(crate) fn known(&self, split: u32)
        requires { split < length (lens_of (book_of N.records N.settings)) }
        ensures { IsWithinLimits N.records N.settings split }
    {
        let _splits = self.book.splits();
        let _len = self.book.len(split);
    }

    // How many records a spill has.
    pub(crate) fn spill_size(&self) -> u32
        ensures value { result ≡ N.settings.spill }
        ensures some { 1 ≤ result }
        ensures few { result ≤ 65535 }
    {
        self.settings.spill
    }

    // How many attempts of a split may be begun.
    pub(crate) fn limit(&self) -> u8
        ensures value { result ≡ N.settings.attempts }
        ensures few { result ≤ 16 }
    {
        self.settings.attempts
    }

    // Whether it begins backup attempts.
    pub(crate) fn has_backup(&self) -> bool
        ensures { result ≡ N.settings.backup }
    {
        self.settings.backup
    }

    // Its number.
    pub(crate) fn worker(&self) -> u8
        ensures { result ≡ self.now.vault.worker }
    {
        self.vault.worker()
    }

    // What it has to do from now on.
    pub(crate) fn set_work(&mut self, work: Work)
        ensures { self.new ≡ record self.old { work = work } }
    {
        self.work = work;
    }

    // One turn more was taken.
    pub(crate) fn count(&mut self)
        requires { self.old.turns < 2 ^ 56 }
        ensures { self.new ≡ record self.old { turns = self.old.turns + 1 } }
    {
        self.turns += 1;
    }

    // Whether it idles still.
    pub(crate) fn is_delayed(&self) -> bool
        ensures { result ≡ nat_lt self.now.turns (delay_of N.script self.now.vault.worker) }
    {
        self.turns < self.delay() as u64
    }

    // Whether a turn answered that nothing is left.
    pub(crate) fn has_ended(&self) -> bool
        ensures { result ≡ self.now.ended }
    {
        self.ended
    }

    // Whether it has ended or failed is as its turn answered.
    pub(crate) fn close(&mut self, turn: Turn)
        requires { has_failed (said_turn turn) ≡ false → self.old.failed ≡ false }
        ensures { self.new ≡ record self.old { ended = is_ended (said_turn turn); failed = has_failed (said_turn turn) } }
    {
        self.ended = matches!(turn, Turn::Ended);
        self.failed = matches!(turn, Turn::Failed(_));
    }

    // How many of its first turns it idles.
    pub(crate) fn delay(&self) -> u32
        ensures { result ≡ delay_of N.script self.now.vault.worker }
    {
        self.script.delay(self.vault.worker())
    }

    // Its vault.
    pub fn into_vault(self) -> Vault<V>
        ensures { result ≡ self.entry.vault }
    {
        let State { vault, .. } = self;
        vault
    }

    // The end of the kept spills of the attempt.
    pub fn kept(&self, split: u32, attempt: u8) -> u32
        ensures { result ≡ (mapper_of N.records N.script N.settings self.now).kept split attempt }
    {
        self.vault.kept(split, attempt)
    }

    // The sheets of partition p of whole kept spills.
    pub fn fetch_back(&mut self, part: Part, p: u8) -> Result<FlatSheets, Fault>
        requires range { MayFetch (mapper_of N.records N.script N.settings self.old) part }
        requires partition { p < N.settings.reducers }
        ensures rest { self.new ≡ record self.old { vault = self.new.vault } }
        ensures rows { self.new.vault.rows ≡ self.old.vault.rows }
        ensures worker { self.new.vault.worker ≡ self.old.vault.worker }
        ensures files { (V.seen self.new.vault.folder).held ≡ (V.seen self.old.vault.folder).held }
        ensures stands { IfOk result (λ sheets. IsTrue N.tells → TogetherStand N.job.reduced sheets (pairs_of N.job N.records N.settings p part)) }
        ensures answered { OnOk result (counts_of V.seen self.new.vault ≡ counts_of V.seen self.old.vault) }
        ensures cause { IfErr result (StoreCause N.job N.records N.script N.settings self.old.vault.worker (counts_of V.seen self.old.vault) (counts_of V.seen self.new.vault)) }
        ensures stops { IfErr result (λ fault. said_fault fault ≡ said.Stopped) }
    {
        let worker = self.vault.worker();
        let sheets = match self.vault.fetch_flat(part, p) {
            Ok(sheets) => sheets,
            Err(fault) => return Err(fetch_fault(worker, fault)),
        };
        all_known(&sheets);
        Ok(sheets)
    }

    // One more than the greatest attempt of the split that it began.
    pub fn begun(&self, split: u32) -> u8
        ensures { result ≡ (mapper_of N.records N.script N.settings self.now).begun split }
    {
        self.begun.get(split as usize).copied().unwrap_or(0)
    }
}

impl<'a, N: RunName, V: Folder + Drop, J: Job, G: Gate, K: Knowing> State<'a, N, V, J, G, K> {
    ghost use Rattle.std.specs.Prelude.{replicate, IsTrue, IsSome, []};
    ghost use Rattle.hop_shelf.specs.Names.{book_of, rules_of, IsRun};
    ghost use Rattle.hop_machine.specs.home.Starts.{new_mapper};
    ghost use Rattle.hop_press.specs.Held.{no_lane};
    ghost use Rattle.hop_mapper.specs.Mappers.{mapper_of, settings_of};

    // A mapper without an attempt. Where memory is wanting, its vault is handed back.
    pub fn new(
        alloc: Global,
        vault: Vault<V>,
        press: Press<K>,
        book: &'a Book,
        job: &'a J,
        script: &'a Script,
        gate: &'a G,
        settings: &'a Settings,
    ) -> Result<State<'a, N, V, J, G, K>, NoMapper<V>>
        requires run { IsRun N.job N.records N.settings }
        requires job { J.meaning job.now ≡ N.job }
        requires book { book.now ≡ book_of N.records N.settings }
        requires script { script.now ≡ N.script }
        requires settings { settings_of settings.now ≡ N.settings }
        requires vault { vault.rows ≡ [] }
        requires told { IsTrue N.tells → IsSome (V.seen vault.folder).held }
        requires press { press ≡ replicate N.settings.reducers no_lane }
        ensures made { IfOk result (λ m. mapper_of N.records N.script N.settings m ≡ new_mapper vault.worker (rules_of N.records N.script N.settings) N.settings.backup N.settings.reducers) }
        ensures vault { IfOk result (λ m. m.vault ≡ vault) }
        ensures held { IfOk result (λ m. m.held ≡ press) }
        ensures well { IfOk result (λ m. m.failed ≡ false) }
        ensures back { IfErr result (λ e. e.0 ≡ vault) }
    {
        let Ok(begun) = none_begun(alloc, book.splits()) else {
            return Err(NoMapper(vault));
        };
        Ok(State {
            alloc,
            vault,
            press,
            book,
            job,
            script,
            gate,
            settings,
            turns: 0,
            work: Work::Free,
            dry: false,
            place: 0,
            begun,
            ended: false,
            failed: false,
            name: PhantomData,
        })
    }
}

// No attempt of so many splits was begun.
fn none_begun(alloc: Global, splits: u32) -> Result<Vec<u8>, NoMemory>
    ensures { IfOk result (λ begun. begun.items ≡ replicate splits 0) }
{
    let begun = vec![in alloc; 0u8; splits as usize]?;
    Ok(begun)
}
