//! The mappers of a run as it begins, and their folders when it is over.
ghost use Rattle.std.specs.Prelude.{◌≡◌, ◌≤◌, ◌<◌, ◌+◌, ◌++◌, ◌∷◌, [], IfOk, IfErr, OnOk, OnErr, map, vec_len, vec_capacity};
ghost use Rattle.hop_shelf.specs.Names.{rules_of};
ghost use Rattle.hop_machine.specs.home.Starts.{new_mapper};
ghost use Rattle.hop_machine.specs.play.FirstState.{new_actors};
ghost use Rattle.hop_inner.specs.Setups.{setup_of};
ghost use Rattle.hop_mapper.specs.Mappers.{mapper_of};
ghost use Rattle.hop_mapper.specs.Sound.{IsOfRun};
ghost use Rattle.hop_start.specs.Given.{IsSpillFolder, AreSpillFolders};
ghost use Rattle.hop_start.specs.Made.{folder_of, IsFresh, AreFresh};

use hop_base::{NoMemory, RunName, Settings};
use hop_board::PlainSeat;
use hop_inner::Knowing;
use hop_laws::Job;
use hop_mapper::{Mapper, NoMapper};
use hop_ports::{Folder, Gate};
use hop_press::Press;
use hop_records::Book;
use hop_script::Script;
use hop_vault::Vault;
use std::alloc::Global;

/// The mappers of a run on one thread, one for each worker, in the order of their numbers: they are the machine's
/// new mappers. Folder k is where worker k keeps its spills. What is borrowed is of the run. At Ok the mappers own
/// the folders, and the list is empty and has its room; after `NoMemory` the list has them all again.
pub fn new_mappers<'a, N: RunName, V: Folder + Drop, J: Job, G: Gate>(
    alloc: Global,
    folders: &mut Vec<V>,
    book: &'a Book,
    job: &'a J,
    script: &'a Script,
    gate: &'a G,
    settings: &'a Settings,
) -> Result<Vec<Mapper<'a, N, V, J, G, PlainSeat>>, NoMemory>
    requires given { IsOfRun N.job N.records N.script N.settings (J.meaning job.now) book.now script.now settings.now }
    requires folders { AreSpillFolders N.tells N.spills N.settings.workers V.seen folders.old.items }
    ensures mappers { IfOk result (λ mappers. map (mapper_of N.records N.script N.settings) mappers.items ≡ (new_actors (setup_of N.records N.script N.settings) N.settings.backup).mappers) }
    ensures fresh { IfOk result (λ mappers. AreFresh N.job N.records N.settings N.tells mappers.items) }
    ensures folders { IfOk result (λ mappers. map folder_of mappers.items ≡ folders.old.items) }
    ensures emptied { OnOk result (folders.new.items ≡ []) }
    ensures back { OnErr result (folders.new.items ≡ folders.old.items) }
    ensures room { vec_capacity folders.old ≤ vec_capacity folders.new }
{
    let Ok(mut mappers) = Vec::with_capacity(alloc, folders.len()) else {
        return Err(NoMemory);
    };
    match fill(
        alloc,
        folders,
        &mut mappers,
        book,
        job,
        script,
        gate,
        settings,
    ) {
        Ok(()) => Ok(mappers),
        Err(NoMemory) => {
            folders_back(mappers, folders);
            Err(NoMemory)
        }
    }
}

/// The mappers' folders, as their turns left them, in the mappers' order and before the others of the list. The list
/// has room for them, so it takes no memory.
pub fn folders_back<'a, N: RunName, V: Folder + Drop, J: Job, G: Gate, K: Knowing>(
    mut mappers: Vec<Mapper<'a, N, V, J, G, K>>,
    folders: &mut Vec<V>,
)
    requires room { vec_len mappers + vec_len folders.old ≤ vec_capacity folders.old }
    ensures items { folders.new.items ≡ map folder_of mappers.entry.items ++ folders.old.items }
    ensures room { vec_capacity folders.old ≤ vec_capacity folders.new }
{
    while let Some(mapper) = mappers.pop() {
        put_first(folders, mapper.into_vault().into_folder());
    }
}

// The mappers of all workers, which own their folders. Where memory is wanting, those that were made have theirs.
fn fill<'a, N: RunName, V: Folder + Drop, J: Job, G: Gate>(
    alloc: Global,
    folders: &mut Vec<V>,
    mappers: &mut Vec<Mapper<'a, N, V, J, G, PlainSeat>>,
    book: &'a Book,
    job: &'a J,
    script: &'a Script,
    gate: &'a G,
    settings: &'a Settings,
) -> Result<(), NoMemory>
    requires given { IsOfRun N.job N.records N.script N.settings (J.meaning job.now) book.now script.now settings.now }
    requires folders { AreSpillFolders N.tells N.spills N.settings.workers V.seen folders.old.items }
    requires none { mappers.old.items ≡ [] }
    requires space { vec_len folders.old ≤ vec_capacity mappers.old }
    ensures mappers { OnOk result (map (mapper_of N.records N.script N.settings) mappers.new.items ≡ (new_actors (setup_of N.records N.script N.settings) N.settings.backup).mappers) }
    ensures fresh { OnOk result (AreFresh N.job N.records N.settings N.tells mappers.new.items) }
    ensures emptied { OnOk result (folders.new.items ≡ []) }
    ensures folders { map folder_of mappers.new.items ++ folders.new.items ≡ folders.old.items }
    ensures room { vec_capacity folders.old ≤ vec_capacity folders.new }
{
    for w in 0..settings.workers {
        let folder = folders.remove(0);
        match worker_mapper(alloc, folder, w, book, job, script, gate, settings) {
            Ok(mapper) => put_last(mappers, mapper),
            Err(NoMapper(vault)) => {
                put_first(folders, vault.into_folder());
                return Err(NoMemory);
            }
        }
    }
    Ok(())
}

// The mapper of worker `w`, which owns the folder.
fn worker_mapper<'a, N: RunName, V: Folder + Drop, J: Job, G: Gate>(
    alloc: Global,
    folder: V,
    w: u8,
    book: &'a Book,
    job: &'a J,
    script: &'a Script,
    gate: &'a G,
    settings: &'a Settings,
) -> Result<Mapper<'a, N, V, J, G, PlainSeat>, NoMapper<V>>
    requires given { IsOfRun N.job N.records N.script N.settings (J.meaning job.now) book.now script.now settings.now }
    requires folder { IsSpillFolder N.tells N.spills w (V.seen folder) }
    ensures made { IfOk result (λ m. mapper_of N.records N.script N.settings m ≡ new_mapper w (rules_of N.records N.script N.settings) N.settings.backup N.settings.reducers) }
    ensures fresh { IfOk result (λ m. IsFresh N.job N.records N.settings N.tells m) }
    ensures folder { IfOk result (λ m. folder_of m ≡ folder) }
    ensures back { IfErr result (λ e. e.0.folder ≡ folder) }
{
    let vault = Vault::new(alloc, folder, w);
    let Ok(press) = Press::new(alloc, settings.reducers) else {
        return Err(NoMapper(vault));
    };
    Mapper::new(alloc, vault, press, book, job, script, gate, settings)
}

// The item is the first. There is room for it.
fn put_first<T: Drop>(list: &mut Vec<T>, item: T)
    requires { vec_len list.old < vec_capacity list.old }
    ensures items { list.new.items ≡ item ∷ list.old.items }
    ensures room { vec_capacity list.old ≤ vec_capacity list.new }
{
    match list.insert(0, item) {
        Ok(()) => {}
        Err(_) => unreachable!(),
    }
}

// The item is the last. There is room for it.
fn put_last<T: Drop>(list: &mut Vec<T>, item: T)
    requires { vec_len list.old < vec_capacity list.old }
    ensures items { list.new.items ≡ list.old.items ++ item ∷ [] }
    ensures room { vec_capacity list.old ≤ vec_capacity list.new }
{
    match list.push(item) {
        Ok(()) => {}
        Err(_) => unreachable!(),
    }
}
