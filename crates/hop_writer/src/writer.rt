//! The writer of snapshots.
ghost use Rattle.std.specs.Prelude.{◌≡◌, ◌≤◌, false, Some, IfSome, IfOk, IfErr, map, vec_len};
ghost use Rattle.hop_jobs.specs.Known.{known_meaning};
ghost use Rattle.hop_records.specs.Records.{lens_of};
ghost use Rattle.hop_shelf.specs.Names.{book_of};
ghost use Rattle.hop_machine.specs.home.Starts.{new_writer};
ghost use Rattle.hop_inner.specs.Setups.{setup_of};
ghost use Rattle.hop_writer.specs.Snapshots.{HoldsSnaps};

use crate::chain_name::ChainName;
use crate::kept::Kept;
use crate::no_snapshots::NoSnapshots;
use crate::notes::Notes;
use hop_base::{Lens, RunName, Settings};
use hop_jobs::Known;
use hop_laws::Job;
use hop_ports::{Folder, Gate};
use std::alloc::Global;
use std::marker::{Model, PhantomData};

/// The writer of a run: it takes the cuts of the reducers, one a turn and lane after lane, and puts the snapshot of each as a file of its folder. Contracts see the machine's writer, the folder, and whether
/// a turn failed, after which it takes none. At every answer the folder holds what `known` says. (Snapshots of NSDI 2010, "MapReduce Online", which reducers write to the file system while the job runs.)
#[derive(Drop)]
pub struct Writer<'a, N: RunName, C: ChainName, F: Folder, J: Job, G: Gate> {
    pub(crate) alloc: Global,
    pub(crate) folder: F,
    // The jobs of a chain after the first.
    pub(crate) later: Vec<Known>,
    pub(crate) job: &'a J,
    pub(crate) lens: &'a Lens,
    pub(crate) gate: &'a G,
    pub(crate) settings: &'a Settings,
    // The cut lane that is looked at first.
    pub(crate) next: u8,
    pub(crate) failed: bool,
    // What the later jobs take of the snapshots that were put.
    pub(crate) kept: Vec<Kept>,
    // The cuts that were taken, for proofs alone.
    pub(crate) notes: Notes,
    name: PhantomData<N>,
    chain: PhantomData<C>,
}

impl<'a, N: RunName, C: ChainName, F: Folder, J: Job, G: Gate> Model for Writer<'a, N, C, F, J, G> {
    ghost use Rattle.hop_inner.specs.Setups.{setup_of};
    ghost use Rattle.hop_writer.specs.Writers.{WriterValue, writer_of, IsSound};

    ghost Value = { WriterValue F };

    ghost view = { λ w. record { writer = writer_of (setup_of N.records N.script N.settings) w.next w.notes; folder = w.folder; failed = w.failed } };

    ghost invariant = { λ w. IsSound N.job N.records N.settings C.later N.tells N.folder w.later.items (J.meaning w.job.now) w.lens.now w.settings.now w.next (F.seen w.folder).held w.failed w.kept.items w.notes };
}

impl<'a, N: RunName, C: ChainName, F: Folder, J: Job, G: Gate> Writer<'a, N, C, F, J, G> {
    /// A writer that wrote nothing, which looks at cut lane 0 first. `later` are the jobs of a chain after the first, in order: none for a run of one job, and at most three. What is borrowed is of the run, and where
    /// the folder tells, it holds what the run's name says that it held at the start. It takes memory for the one word of its notes, which stand in proofs alone; where memory is wanting, the folder is handed back.
    pub fn new(
        alloc: Global,
        folder: F,
        later: Vec<Known>,
        job: &'a J,
        lens: &'a Lens,
        gate: &'a G,
        settings: &'a Settings,
    ) -> Result<Writer<'a, N, C, F, J, G>, NoSnapshots<F>>
        requires later { map known_meaning later.items ≡ C.later }
        requires few { vec_len later ≤ 3 }
        requires job { J.meaning job.now ≡ N.job }
        requires lens { lens.now ≡ lens_of (book_of N.records N.settings) }
        requires reducers { settings.now.reducers ≡ N.settings.reducers }
        requires start { IfSome (F.seen folder).held (λ files. N.folder ≡ Some files) }
        ensures made { IfOk result (λ w. w ≡ record { writer = new_writer (setup_of N.records N.script N.settings); folder = folder; failed = false }) }
        ensures back { IfErr result (λ e. e.0 ≡ folder) }
    {
        let Ok(notes) = Notes::new(alloc) else {
            return Err(NoSnapshots(folder));
        };
        Ok(Writer {
            alloc,
            folder,
            later,
            job,
            lens,
            gate,
            settings,
            next: 0,
            failed: false,
            kept: Vec::new(alloc),
            notes,
            name: PhantomData,
            chain: PhantomData,
        })
    }

    /// The folder, as its turns left it. It takes no memory.
    pub fn into_folder(self) -> F
        ensures { result ≡ self.entry.folder }
    {
        let Writer { folder, .. } = self;
        folder
    }

    /// What its folder holds, where it tells: what it held at the start, with the files of a snapshot of each cut that was put, in order; where a turn failed, perhaps without the last files of that turn. Each snapshot
    /// has the name and the header of its cut, and where the spill folders tell its body is the reduction of what the cut declares. In a chain the later jobs' snapshots of a mark come with the last of the
    /// reducers' snapshots of that mark, each job's over the bodies of the one before it. It does nothing: proofs learn it so.
    pub fn known(&self)
        ensures { HoldsSnaps N.job N.records N.settings C.later N.tells self.now.failed N.folder (F.seen self.now.folder).held self.now.writer.writings }
    {
        let _next = self.next;
    }
}
