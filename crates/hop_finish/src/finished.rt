//! What a run that came to its end leaves.
ghost use Rattle.std.specs.Prelude.{◌≡◌, ◌<◌, ℕ, IfOk, IsTrue, length, map};
ghost use Rattle.std.specs.List.{range_with_len};
ghost use Rattle.hop_laws.specs.Blocking.{blocking_texts};
ghost use Rattle.hop_records.specs.Records.{lens_of};
ghost use Rattle.hop_shelf.specs.Names.{book_of};
ghost use Rattle.hop_machine.specs.home.Said.{history_of};
ghost use Rattle.hop_finish.specs.Left.{EachWon, IsFree};

use crate::shelves::{histories, part_texts, take_shelves};
use hop_base::{NoMemory, RunName, Texts};
use hop_event::History;
use hop_inner::Reach;
use hop_laws::Job;
use std::alloc::Global;

/// Of each reducer its history and the text of its part, in the order of their numbers.
#[derive(Drop)]
pub struct Finished {
    pub histories: Vec<History>,
    pub texts: Texts,
}

/// What each reducer leaves, where all records of each split's winner are there. The values are taken from under their
/// locks. Where the spill folders tell, the texts are those of the blocking job.
pub fn take_finished<N: RunName, E: Reach<N>, J: Job>(
    alloc: Global,
    job: &J,
    reducers: u8,
    reach: &mut E,
) -> Result<Finished, NoMemory>
    requires reducers { reducers ≡ N.settings.reducers }
    requires job { J.meaning job.now ≡ N.job }
    requires free { (p : ℕ) → p < reducers → IsFree (E.deeds reach.old) p }
    requires won { EachWon (lens_of (book_of N.records N.settings)) (E.deeds reach.old) reducers }
    ensures histories { IfOk result (λ f. map (λ h. h.events) f.histories.items ≡ map (history_of (E.deeds reach.old)) (range_with_len 0 reducers)) }
    ensures count { IfOk result (λ f. length f.texts ≡ reducers) }
    ensures texts { IfOk result (λ f. IsTrue N.tells → f.texts ≡ blocking_texts N.job N.records reducers) }
{
    let shelves = take_shelves::<N, E>(alloc, reducers, reach)?;
    let texts = part_texts(alloc, job, &shelves)?;
    let histories = histories(alloc, shelves)?;
    Ok(Finished { histories, texts })
}
