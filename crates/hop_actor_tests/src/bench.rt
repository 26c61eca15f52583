//! The actors of a run in their world, and turns of them.
ghost use Rattle.std.specs.Prelude.{◌≡◌, ◌≤◌, ◌<◌, ◌^◌, [], length, IfOk, true, false};
ghost use Rattle.hop_records.specs.Records.{records_of};
ghost use Rattle.hop_script.specs.Script.{script_of};
ghost use Rattle.hop_base.specs.Run.{RunSettings};
ghost use Rattle.hop_jobs.specs.Wc.{wc_meaning};
ghost use Rattle.hop_inner.specs.Setups.{setup_of};
ghost use Rattle.hop_machine.specs.actors.ReducerTurns.{marks_due};
ghost use Rattle.hop_machine.specs.home.MapperHome.{has_failed};
ghost use Rattle.hop_ports.specs.Memory.{memory_view};
ghost use Rattle.hop_actors.specs.Acting.{said_turn};
ghost use Rattle.hop_mapper.specs.Mappers.{settings_of};
ghost use Rattle.hop_start.specs.Given.{AreSpillFolders};
ghost use Rattle.hop_actor_tests.specs.Benches.{IsGiven, IsCutEnd};
ghost use Rattle.hop_actor_tests.specs.Runs.{no_files};

use hop_actors::{Store, Turn};
use hop_base::{Lens, Marks, RunName, Settings};
use hop_board::PlainSeat;
use hop_crew::PlainWorld;
use hop_cut::Cut;
use hop_drain::Drain;
use hop_event::History;
use hop_inner::Reach;
use hop_inner::steps::take_cut_on;
use hop_jobs::Wc;
use hop_machine::run_laws::runs_stay_at_home;
use hop_mapper::Mapper;
use hop_ports::{MemFolder, OpenGate};
use hop_records::Book;
use hop_script::Script;
use hop_settle::{map_turn, reduce_turn};
use hop_shelf::Shelf;
use hop_start::start_laws::{new_actors_start, settings_make_a_setup};
use hop_start::{lens_of_book, new_mappers, new_reducers, new_world};
use std::alloc::Global;
use std::marker::Model;
use std::test::Fail;

// What a run that counts words is given.
#[derive(Drop)]
pub(crate) struct Given {
    pub job: Wc,
    pub gate: OpenGate,
    pub book: Book,
    pub lens: Lens,
    pub script: Script,
    pub settings: Settings,
}

// What the run of that input, script and settings is given.
pub(crate) fn read_given<N: RunName>(
    alloc: Global,
    input: &[u8],
    script: &[u8],
    settings: Settings,
) -> Result<Given, Fail>
    requires short { length input.now ≤ 16777216 }
    requires job { N.job ≡ wc_meaning }
    requires records { N.records ≡ records_of input.now }
    requires script { N.script ≡ script_of script.now }
    requires few { length script.now < 2 ^ 32 }
    requires settings { settings_of settings ≡ N.settings }
    ensures { IfOk result (λ g. IsGiven N.job N.records N.script N.settings g.book g.lens g.script g.settings) }
{
    let book = Book::read(alloc, input, settings.split)?;
    let script = Script::read(alloc, script)?;
    let lens = lens_of_book(alloc, &book)?;
    Ok(Given {
        job: Wc,
        gate: OpenGate,
        book,
        lens,
        script,
        settings,
    })
}

// Settings without marks.
pub(crate) fn settings(alloc: Global) -> Settings
    ensures { settings_of result ≡ record { reducers = 1; split = 1; spill = 1; workers = 1; attempts = 1; lane = 1; mergers = 0; threads = 1; backup = false; tentative = false; marks = [] } }
{
    Settings {
        reducers: 1,
        split: 1,
        spill: 1,
        workers: 1,
        attempts: 1,
        lane: 1,
        mergers: 0,
        threads: 1,
        backup: false,
        tentative: false,
        marks: Marks::new(alloc),
    }
}

// The folders of one or two workers, which hold nothing. Of the first these calls fail.
pub(crate) fn folders(alloc: Global, workers: u8, fails: Vec<u64>) -> Result<Vec<MemFolder>, Fail>
    requires some { 1 ≤ workers }
    requires few { workers ≤ 2 }
    ensures { IfOk result (λ folders. AreSpillFolders true no_files workers memory_view folders.items) }
{
    let mut folders = Vec::new(alloc);
    folders.push(MemFolder::new(alloc, fails))?;
    if workers == 2 {
        folders.push(MemFolder::new(alloc, Vec::new(alloc)))?;
    }
    Ok(folders)
}

// Whether a turn failed.
fn has_failed(turn: &Turn) -> bool
    ensures { result ≡ has_failed (said_turn turn.now) }
{
    matches!(turn, Turn::Failed(_))
}

type World<N> = PlainWorld<N, Shelf<N>>;

// Mappers and reducers with their world. Unless a turn failed, all are at home.
#[derive(Drop)]
pub(crate) struct Bench<'a, N: RunName> {
    mappers: Vec<Mapper<'a, N, MemFolder, Wc, OpenGate, PlainSeat>>,
    reducers: Vec<Drain<'a, N, Wc>>,
    world: World<N>,
    turns: u64,
    failed: bool,
}

impl<'a, N: RunName> Model for Bench<'a, N> {
    ghost use Rattle.std.specs.Prelude.{◌≡◌, false};
    ghost use Rattle.hop_inner.specs.Setups.{setup_of};
    ghost use Rattle.hop_crew.specs.PlainWorlds.{deeds_of};
    ghost use Rattle.hop_press.specs.Fits.{HeldFits};
    ghost use Rattle.hop_mapper.specs.Mappers.{mapper_of};
    ghost use Rattle.hop_start.specs.Made.{known_by, board_of};
    ghost use Rattle.hop_actor_tests.specs.Benches.{AtHome};

    ghost Value = { Unit {0} };

    ghost view = { λ b. tt };

    ghost invariant = { λ b. b.failed ≡ false → AtHome (setup_of N.records N.script N.settings) (mapper_of N.records N.script N.settings) (λ m. m.failed) (λ m board. HeldFits N.job N.records N.settings N.tells m.vault.rows known_by board_of board m.held) b.turns b.mappers.items b.reducers.items (deeds_of (setup_of N.records N.script N.settings) b.world) };
}

impl<'a, N: RunName> Bench<'a, N> {
    // The actors of the run as it begins. It has no marks.
    pub(crate) fn new(
        alloc: Global,
        folders: Vec<MemFolder>,
        given: &'a Given,
    ) -> Result<Bench<'a, N>, Fail>
        requires given { IsGiven N.job N.records N.script N.settings given.now.book given.now.lens given.now.script given.now.settings }
        requires folders { AreSpillFolders N.tells N.spills N.settings.workers memory_view folders.items }
        requires unmarked { N.settings.marks ≡ [] }
    {
        Bench::with_marks(alloc, folders, given)
    }

    // The same with marks, none of which the empty history reaches.
    pub(crate) fn with_marks(
        alloc: Global,
        mut folders: Vec<MemFolder>,
        given: &'a Given,
    ) -> Result<Bench<'a, N>, Fail>
        requires given { IsGiven N.job N.records N.script N.settings given.now.book given.now.lens given.now.script given.now.settings }
        requires folders { AreSpillFolders N.tells N.spills N.settings.workers memory_view folders.items }
        requires unreached { marks_due (setup_of N.records N.script N.settings) [] ≡ [] }
    {
        let Given {
            job,
            gate,
            book,
            lens,
            script,
            settings,
        } = given;
        let mappers = new_mappers(alloc, &mut folders, book, job, script, gate, settings)?;
        let reducers = new_reducers(alloc, job, lens, settings)?;
        let world = new_world(alloc, lens, script, settings)?;
        settings_make_a_setup::<N>(settings);
        new_actors_start();
        runs_stay_at_home();
        Ok(Bench {
            mappers,
            reducers,
            world,
            turns: 0,
            failed: false,
        })
    }

    // A turn of mapper `w`, while none failed.
    pub(crate) fn map(&mut self, w: usize) -> Result<Turn, Fail> {
        if self.failed || w >= self.mappers.len() || self.turns >= 1000 {
            return Err(Fail::from("no such turn"));
        }
        let turn = map_turn(&mut self.mappers, w, &mut self.world);
        self.turns += 1;
        self.failed = has_failed(&turn);
        Ok(turn)
    }

    // A turn of reducer `p`, while none failed.
    pub(crate) fn reduce(&mut self, p: usize) -> Result<Turn, Fail> {
        if self.failed || p >= self.reducers.len() {
            return Err(Fail::from("no such turn"));
        }
        let turn = reduce_turn(&mut self.reducers, p, &mut self.world);
        self.failed = has_failed(&turn);
        Ok(turn)
    }

    // The end of what mapper `w` kept of the attempt, and one more than the greatest attempt of the split that it began.
    pub(crate) fn kept_and_begun(&self, w: usize, split: u32, attempt: u8) -> Option<(u32, u8)> {
        let mapper = self.mappers.get(w)?;
        let kept = Store::<N, World<N>>::kept(mapper, split, attempt);
        let begun = Store::<N, World<N>>::begun(mapper, split);
        Some((kept, begun))
    }

    // The history of reducer 0, where no turn failed.
    pub(crate) fn into_history(self) -> Result<History, Fail> {
        if self.failed {
            return Err(Fail::from("a turn failed"));
        }
        let Bench {
            mappers: _,
            reducers: _,
            mut world,
            turns: _,
            failed: _,
        } = self;
        Ok(world.hold(0).into_history())
    }

    // The marks of the cuts that reducer 0 sent, in order, each with the progress of what the cut covers, where no turn failed.
    pub(crate) fn into_cuts(self, alloc: Global) -> Result<Vec<(u16, u16)>, Fail> {
        if self.failed {
            return Err(Fail::from("a turn failed"));
        }
        let Bench {
            mappers: _,
            reducers: _,
            mut world,
            turns: _,
            failed: _,
        } = self;
        let mut cuts = Vec::new(alloc);
        for _ in 0..16u8 {
            let Some(cut) = take_cut(&mut world) else {
                return Ok(cuts);
            };
            cuts.push((cut.mark, cut.progress))?;
        }
        Ok(cuts)
    }
}

// The next cut of reducer 0's cut lane.
fn take_cut<N: RunName>(world: &mut World<N>) -> Option<Cut>
    requires { IsCutEnd (setup_of N.records N.script N.settings) world.old }
    ensures { IsCutEnd (setup_of N.records N.script N.settings) world.new }
{
    take_cut_on::<N, World<N>>(world, 0)
}
