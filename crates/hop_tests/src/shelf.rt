//! Histories of a small run, by hand.
ghost use Rattle.std.specs.Prelude.{◌≡◌, ◌<◌, ◌≤◌, ◌↔◌, Some, [], length, IfOk, OnOk, IsTrue};
ghost use Rattle.hop_event.specs.History.{winner};
ghost use Rattle.hop_event.specs.Legal.{IsRange, AllWon};
ghost use Rattle.hop_shelf.specs.Names.{book_of, pairs_of};
ghost use Rattle.hop_tests.specs.Sample.{two_records, two_marks, sample_rules};
ghost use Rattle.hop_shelf.specs.Sound.{MayGrow, IsParcel};
ghost use Rattle.hop_shelf.specs.Holds.{RunHolds};
ghost use Rattle.hop_jobs.specs.Wc.{wc_meaning};

use hop_base::{Lens, Marks, Part, RunName, Text};
use hop_cut::cut_text;
use hop_event::{Event, Via};
use hop_jobs::Wc;
use hop_records::Book;
use hop_run::{Parcel, Run};
use hop_script::Script;
use hop_shelf::{Arrived, Installed, MergeWork, Merged, NotYet, Shelf};
use std::alloc::Global;
use std::test::Fail;

// The records `a` and `b` are one split, of which each of two attempts may be begun. Marks are 5,000 and
// 10,000, and the reducer restarts after its fourth arrival.
struct Sample;

impl RunName for Sample {
    ghost use Rattle.std.specs.Prelude.{true, None, []};
    ghost use Rattle.hop_jobs.specs.Wc.{wc_meaning};
    ghost use Rattle.hop_tests.specs.Sample.{two_records, two_marks, one_restart};

    ghost job = { wc_meaning };

    ghost records = { two_records };

    ghost script = { one_restart };

    ghost settings = { two_marks };

    ghost tells = { true };

    ghost folder = { None };

    ghost spills = { [] };
}

// A shelf without events.
fn empty(alloc: Global) -> Result<Shelf<Sample>, Fail>
    ensures { IfOk result (λ s. s.p ≡ 0) }
{
    let mut lens = Lens::new(alloc);
    lens.push(2)?;
    let mut marks = Marks::new(alloc);
    marks.push(5000)?;
    marks.push(10000)?;
    let script = Script::read(alloc, b"restart 0 4\n")?;
    Ok(Shelf::new(alloc, &lens, 0, &marks, true, &script)?)
}

// What happens to a reducer.
#[derive(Clone, Copy)]
enum Step {
    // These records of the attempt come.
    Take { attempt: u8, from: u32, to: u32 },
    Won(u8),
    Revoked(u8),
    Restart,
    // Two runs are lent and merged.
    Lend,
    // The merge that was lent first is installed.
    Install,
    // The runs of each owner become one, where a cut is due.
    Merge,
    // The snapshot of the one cut that is due is written.
    Cut,
    // What is there of the attempt is said.
    Look(u8),
    Finish,
}

fn take(attempt: u8, from: u32, to: u32) -> Step {
    Step::Take { attempt, from, to }
}

// Says a line.
fn say(said: &mut Vec<u8>, line: &[u8]) -> Result<(), Fail> {
    said.extend_from_slice(line)?;
    said.push(b'\n')?;
    Ok(())
}

// Records of an attempt, as they come.
fn parcel(alloc: Global, book: &Book, attempt: u8, from: u32, to: u32) -> Result<Parcel, Fail>
    requires book { book.now ≡ book_of two_records two_marks }
    requires attempt { attempt < 2 }
    requires some { from < to }
    requires within { to ≤ 2 }
    ensures range { IfOk result (λ x. IsRange sample_rules (λ i. 2) x.part) }
    ensures parts { IfOk result (λ x. IsParcel x.part x.run) }
    ensures holds { IfOk result (λ x. RunHolds wc_meaning.reduced (pairs_of wc_meaning two_records two_marks 0) x.run) }
{
    let part = Part {
        split: 0,
        attempt,
        from,
        to,
    };
    let run = Run::make(alloc, &Wc, book, part, 0, 1)?;
    let _known = run.flat();
    Ok(Parcel { part, run })
}

// Room for an event, where no restart is due. The cuts that are due are handed out.
fn room(shelf: &mut Shelf<Sample>) -> Result<(), Fail>
    ensures grows { OnOk result (MayGrow shelf.new) }
    ensures p { shelf.new.p ≡ shelf.old.p }
{
    shelf.reserve()?;
    let _cuts = shelf.cuts_due()?;
    if shelf.restart_due() {
        return Err(Fail::new("a restart is due"));
    }
    Ok(())
}

fn arrive(shelf: &mut Shelf<Sample>, parcel: Parcel) -> Result<Arrived, Fail>
    requires p { shelf.old.p ≡ 0 }
    requires range { IsRange sample_rules (λ i. 2) parcel.part }
    requires parts { IsParcel parcel.part parcel.run }
    requires holds { RunHolds wc_meaning.reduced (pairs_of wc_meaning two_records two_marks 0) parcel.run }
    ensures { shelf.new.p ≡ 0 }
{
    room(shelf)?;
    Ok(shelf.arrive(parcel, Via::Lane(0)))
}

fn taken(
    shelf: &mut Shelf<Sample>,
    alloc: Global,
    book: &Book,
    attempt: u8,
    from: u32,
    to: u32,
) -> Result<&'static [u8], Fail>
    requires p { shelf.old.p ≡ 0 }
    requires book { book.now ≡ book_of two_records two_marks }
    ensures { shelf.new.p ≡ 0 }
{
    if attempt >= 2 || from >= to || to > 2 {
        return Err(Fail::new("there are no such records"));
    }
    let parcel = parcel(alloc, book, attempt, from, to)?;
    match arrive(shelf, parcel)? {
        Arrived::Taken => Ok(b"taken"),
        Arrived::Ignored { have: _ } => Ok(b"ignored"),
    }
}

// Whether the attempt won.
fn wins(shelf: &Shelf<Sample>, attempt: u8) -> bool
    ensures { IsTrue result ↔ (winner 0 shelf.now.journal.events ≡ Some attempt) }
{
    match shelf.winner(0) {
        None => false,
        Some(a) => a == attempt,
    }
}

// The attempt wins, where it may.
fn win(shelf: &mut Shelf<Sample>, attempt: u8) -> Result<&'static [u8], Fail>
    ensures { shelf.new.p ≡ shelf.old.p }
{
    room(shelf)?;
    if attempt >= 2 || shelf.winner(0).is_some() || shelf.is_revoked(0, attempt) {
        return Err(Fail::new("the attempt may not win"));
    }
    shelf.won(0, attempt);
    Ok(b"won")
}

// The attempt is revoked, where it may be.
fn revoke(shelf: &mut Shelf<Sample>, attempt: u8) -> Result<&'static [u8], Fail>
    ensures { shelf.new.p ≡ shelf.old.p }
{
    room(shelf)?;
    if attempt >= 2 || wins(shelf, attempt) || shelf.is_revoked(0, attempt) {
        return Err(Fail::new("the attempt may not be revoked"));
    }
    shelf.revoked(0, attempt);
    Ok(b"revoked")
}

// The restart that is due is recorded.
fn restart(shelf: &mut Shelf<Sample>) -> Result<&'static [u8], Fail>
    ensures { shelf.new.p ≡ shelf.old.p }
{
    shelf.reserve()?;
    let _cuts = shelf.cuts_due()?;
    if !shelf.restart_due() {
        return Err(Fail::new("no restart is due"));
    }
    shelf.restart();
    Ok(b"restarted")
}

// The merge of two lent runs.
fn merged(alloc: Global, work: MergeWork<Sample>) -> Result<Merged<Sample>, Fail> {
    let run = Run::merge(alloc, work.a(), work.b())?;
    let _known = run.flat();
    Ok(work.merged(run))
}

fn lend(
    shelf: &Shelf<Sample>,
    alloc: Global,
    merges: &mut Vec<Merged<Sample>>,
) -> Result<&'static [u8], Fail> {
    let Some(work) = shelf.lend()? else {
        return Ok(b"nothing is lent");
    };
    merges.push(merged(alloc, work)?)?;
    Ok(b"lent")
}

fn install(
    shelf: &mut Shelf<Sample>,
    merges: &mut Vec<Merged<Sample>>,
) -> Result<&'static [u8], Fail>
    ensures { shelf.new.p ≡ shelf.old.p }
{
    if merges.is_empty() {
        return Err(Fail::new("nothing was lent"));
    }
    match shelf.install(merges.remove(0)) {
        Installed::Installed => Ok(b"installed"),
        Installed::Stale => Ok(b"stale"),
    }
}

// The runs of each owner become one, where a cut is due.
fn merge(shelf: &mut Shelf<Sample>) -> Result<&'static [u8], Fail>
    ensures { shelf.new.p ≡ shelf.old.p }
{
    shelf.merge_due(&Wc)?;
    Ok(b"merged")
}

// The run has one split.
fn know_splits(shelf: &Shelf<Sample>)
    ensures { length shelf.now.journal.lens ≡ 1 }
{
    shelf.known();
}

// The snapshot of the one cut that is due.
fn snapshot(shelf: &mut Shelf<Sample>, alloc: Global) -> Result<Text, Fail>
    ensures { shelf.new.p ≡ shelf.old.p }
{
    know_splits(shelf);
    let cuts = shelf.cuts_due()?;
    let [cut] = cuts.as_slice() else {
        return Err(Fail::new("it is not one cut"));
    };
    let mut lens = Lens::new(alloc);
    lens.push(2)?;
    Ok(cut_text(alloc, &Wc, 0, 1, &lens, cut)?)
}

// The split's winner, the records of an attempt, and whether it was revoked.
fn look(shelf: &Shelf<Sample>, attempt: u8) -> &'static [u8] {
    match (
        wins(shelf, attempt),
        shelf.upto(0, attempt),
        shelf.is_revoked(0, attempt),
    ) {
        (true, 2, false) => b"whole winner",
        (false, 0, true) => b"revoked, without records",
        (false, 0, false) => b"nothing",
        _ => b"something else",
    }
}

// The end is recorded, where it may be. Both attempts were begun.
fn end(shelf: &mut Shelf<Sample>) -> Result<Result<(), NotYet>, Fail>
    ensures won { IfOk result (λ ended. OnOk ended (AllWon shelf.new.journal.lens shelf.new.journal.events)) }
    ensures p { shelf.new.p ≡ shelf.old.p }
{
    room(shelf)?;
    shelf.known();
    Ok(shelf.finish(&[2]))
}

// The text of the partition after the end, or that the end may not come yet.
fn finish(shelf: &mut Shelf<Sample>, said: &mut Vec<u8>) -> Result<&'static [u8], Fail>
    ensures { shelf.new.p ≡ shelf.old.p }
{
    if end(shelf)?.is_err() {
        return Ok(b"not yet");
    }
    let text = shelf.reduced(&Wc)?;
    said.extend_from_slice(text.as_slice())?;
    Ok(b"finished")
}

// Takes the step and says what came of it.
fn take_step(
    shelf: &mut Shelf<Sample>,
    alloc: Global,
    book: &Book,
    merges: &mut Vec<Merged<Sample>>,
    step: Step,
    said: &mut Vec<u8>,
) -> Result<(), Fail>
    requires p { shelf.old.p ≡ 0 }
    requires book { book.now ≡ book_of two_records two_marks }
    ensures { shelf.new.p ≡ 0 }
{
    let line = match step {
        Step::Take { attempt, from, to } => taken(shelf, alloc, book, attempt, from, to)?,
        Step::Won(attempt) => win(shelf, attempt)?,
        Step::Revoked(attempt) => revoke(shelf, attempt)?,
        Step::Restart => restart(shelf)?,
        Step::Lend => lend(shelf, alloc, merges)?,
        Step::Install => install(shelf, merges)?,
        Step::Merge => merge(shelf)?,
        Step::Cut => {
            let text = snapshot(shelf, alloc)?;
            return say(said, text.as_slice());
        }
        Step::Look(attempt) => look(shelf, attempt),
        Step::Finish => finish(shelf, said)?,
    };
    say(said, line)
}

// What the steps say, one after the other.
fn said_of(alloc: Global, steps: &[Step]) -> Result<Vec<u8>, Fail> {
    let book = Book::read(alloc, b"a\nb\n", 2)?;
    let mut shelf = empty(alloc)?;
    let mut merges = Vec::new(alloc);
    let mut said = Vec::new(alloc);
    for step in steps {
        take_step(&mut shelf, alloc, &book, &mut merges, *step, &mut said)?;
    }
    Ok(said)
}

#[test]
fn plays_histories_by_hand(rt: HostRuntime) -> Result<(), Fail> {
    let merges_once = [
        take(0, 0, 1),
        Step::Lend,
        take(0, 1, 2),
        Step::Lend,
        Step::Lend,
        Step::Install,
        Step::Install,
    ];
    let cuts_a_mark_that_is_reached = [take(0, 0, 1), Step::Cut];
    let merges_before_a_cut = [
        take(0, 0, 1),
        take(0, 1, 2),
        Step::Merge,
        Step::Lend,
        Step::Cut,
    ];
    let ends_with_the_text_of_the_blocking_job = [
        take(0, 0, 1),
        take(0, 0, 1),
        take(0, 1, 2),
        Step::Won(0),
        Step::Finish,
        Step::Revoked(1),
        Step::Look(0),
        Step::Look(1),
        Step::Finish,
    ];
    let refuses_a_merge_of_a_revoked_attempt = [
        take(0, 0, 1),
        take(0, 1, 2),
        Step::Lend,
        Step::Revoked(0),
        Step::Install,
    ];
    let drops_a_merged_run_of_a_revoked_attempt = [
        take(0, 0, 1),
        take(0, 1, 2),
        Step::Lend,
        Step::Install,
        Step::Revoked(0),
        take(1, 0, 2),
        Step::Won(1),
        Step::Finish,
    ];
    let installs_a_merge_of_a_later_winner = [
        take(0, 0, 1),
        take(0, 1, 2),
        Step::Lend,
        Step::Won(0),
        Step::Install,
    ];
    let restarts_without_runs = [
        take(0, 0, 1),
        take(0, 1, 2),
        take(1, 0, 1),
        take(1, 1, 2),
        Step::Restart,
        Step::Lend,
        Step::Look(0),
    ];
    #[rattlefmt::skip]
    let cases: [(&[Step], &[u8]); 8] = [
        (&merges_once, b"taken\nnothing is lent\ntaken\nlent\nlent\ninstalled\nstale\n"),
        (&cuts_a_mark_that_is_reached, b"taken\nhop-snapshot 1\njob wc\nmark 5000\nreducer 0 of 1\nprogress 5000\nsplit 0 attempt 0 records 1 of 2 tentative\n--\na\t1\n\n"),
        (&merges_before_a_cut, b"taken\ntaken\nmerged\nnothing is lent\nhop-snapshot 1\njob wc\nmark 10000\nreducer 0 of 1\nprogress 10000\nsplit 0 attempt 0 records 2 of 2 tentative\n--\na\t1\nb\t1\n\n"),
        (&ends_with_the_text_of_the_blocking_job, b"taken\nignored\ntaken\nwon\nnot yet\nrevoked\nwhole winner\nrevoked, without records\na\t1\nb\t1\nfinished\n"),
        (&refuses_a_merge_of_a_revoked_attempt, b"taken\ntaken\nlent\nrevoked\nstale\n"),
        (&drops_a_merged_run_of_a_revoked_attempt, b"taken\ntaken\nlent\ninstalled\nrevoked\ntaken\nwon\na\t1\nb\t1\nfinished\n"),
        (&installs_a_merge_of_a_later_winner, b"taken\ntaken\nlent\nwon\ninstalled\n"),
        (&restarts_without_runs, b"taken\ntaken\ntaken\ntaken\nrestarted\nnothing is lent\nnothing\n"),
    ];
    for (number, (steps, wanted)) in cases.iter().enumerate() {
        let said = said_of(rt.alloc(), steps)?;
        assert_eq!(rt; said.as_slice(), *wanted, "in history {number}");
    }
    Ok(())
}

#[test]
fn hands_over_its_history(rt: HostRuntime) -> Result<(), Fail> {
    let mut shelf = empty(rt.alloc())?;
    revoke(&mut shelf, 1)?;
    win(&mut shelf, 0)?;
    let events = [
        Event::Revoked {
            split: 0,
            attempt: 1,
        },
        Event::Won {
            split: 0,
            attempt: 0,
        },
    ];
    assert_eq!(rt; shelf.history().len(), 2);
    assert_eq!(rt; shelf.into_history().events(), events.as_slice());
    Ok(())
}
