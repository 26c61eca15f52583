//! The shelves of reducers.
ghost use Rattle.std.specs.Prelude.{◌≡◌, ◌<◌, ℕ, IfOk, IsTrue, All, length, map};
ghost use Rattle.hop_event.specs.Legal.{AllWon};
ghost use Rattle.hop_laws.specs.Blocking.{blocking};
ghost use Rattle.hop_records.specs.Records.{lens_of};
ghost use Rattle.hop_shelf.specs.Names.{book_of};
ghost use Rattle.hop_finish.specs.Left.{IsFree, numbered_history, recorded_of};

use hop_base::{NoMemory, RunName, Text, Texts};
use hop_event::History;
use hop_inner::Reach;
use hop_laws::Job;
use hop_shelf::Shelf;
use std::alloc::Global;

/// The shelf of each of so many reducers, in the order of their numbers, taken from under its lock.
pub(crate) fn take_shelves<N: RunName, E: Reach<N>>(
    alloc: Global,
    reducers: u8,
    reach: &mut E,
) -> Result<Vec<Shelf<N>>, NoMemory>
    requires free { (p : ℕ) → p < reducers → IsFree (E.deeds reach.old) p }
    ensures { IfOk result (λ shelves. map numbered_history shelves.items ≡ recorded_of (E.deeds reach.old) reducers) }
{
    let mut shelves = Vec::new(alloc);
    for p in 0..reducers {
        let shelf = reach.hold(p);
        shelves.push(shelf)?;
    }
    Ok(shelves)
}

// The text of a shelf's part.
fn part_text<N: RunName, J: Job>(job: &J, shelf: &Shelf<N>) -> Result<Text, NoMemory>
    requires job { J.meaning job.now ≡ N.job }
    requires won { AllWon (lens_of (book_of N.records N.settings)) shelf.now.journal.events }
    ensures { IfOk result (λ text. IsTrue N.tells → text ≡ blocking N.job N.records shelf.now.p N.settings.reducers) }
{
    shelf.known();
    shelf.reduced(job)
}

/// The text of each part, where the histories are finished.
pub(crate) fn part_texts<N: RunName, J: Job>(
    alloc: Global,
    job: &J,
    shelves: &[Shelf<N>],
) -> Result<Texts, NoMemory>
    requires job { J.meaning job.now ≡ N.job }
    requires won { All (λ s. AllWon (lens_of (book_of N.records N.settings)) s.journal.events) shelves.now }
    ensures count { IfOk result (λ texts. length texts ≡ length shelves.now) }
    ensures texts { IfOk result (λ texts. IsTrue N.tells → texts ≡ map (λ s. blocking N.job N.records s.p N.settings.reducers) shelves.now) }
{
    let mut texts = Texts::new(alloc);
    for shelf in shelves {
        texts.push(part_text(job, shelf)?)?;
    }
    Ok(texts)
}

/// The history of each shelf.
pub(crate) fn histories<N: RunName>(
    alloc: Global,
    shelves: Vec<Shelf<N>>,
) -> Result<Vec<History>, NoMemory>
    ensures { IfOk result (λ histories. map (λ h. h.events) histories.items ≡ map (λ s. s.journal.events) shelves.items) }
{
    let mut histories = Vec::new(alloc);
    for shelf in shelves {
        histories.push(shelf.into_history())?;
    }
    Ok(histories)
}
