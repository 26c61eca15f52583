//! What was read for a run is cut and tested.
ghost use Rattle.std.specs.Prelude.{◌≡◌, ◌≤◌, All, None, IfOk, IfErr, OnOk, length, vec_len};
ghost use Rattle.hop_words.specs.Options.{settings_of};
ghost use Rattle.hop_records.specs.Records.{IsBook};
ghost use Rattle.hop_script.specs.Script.{script_of};
ghost use Rattle.hop_script.specs.TurnLines.{turns_of, IsTurn};
ghost use Rattle.hop_top.specs.Plans.{IsRefusal, actors_in, book_read, input_refusal, run_refusal, script_refusal, turns_refusal};

use crate::outcome::{File, Outcome, Refusal};
use crate::reads::RunTexts;
use hop_base::Settings;
use hop_base::limits::MAX_SPILLS;
use hop_records::{Book, BookFault};
use hop_script::{LineFault, Script, Turns};
use std::alloc::Global;

/// What a run is given: its records in splits, its script and its turn list.
#[derive(Drop)]
pub struct Plan {
    pub book: Book,
    pub script: Script,
    pub turns: Turns,
}

// The records in splits, where there are not too many splits and not too many spills.
fn read_book(alloc: Global, input: Vec<u8>, settings: &Settings) -> Result<Book, Outcome>
    requires { vec_len input ≤ 16777216 }
    ensures book { IfOk result (λ book. book ≡ book_read (settings_of settings.now) input.items) }
    ensures known { IfOk result IsBook }
    ensures accepted { OnOk result (input_refusal (settings_of settings.now) input.items ≡ None) }
    ensures refused { IfErr result (IsRefusal (input_refusal (settings_of settings.now) input.items)) }
{
    let book = match Book::from_vec(alloc, input, settings.split) {
        Ok(book) => book,
        Err(BookFault::RecordTooLong { index }) => {
            return Err(Outcome::InputRefused(Refusal::RecordTooLong { index }));
        }
        Err(BookFault::TooManySplits { count }) => {
            return Err(Outcome::InputRefused(Refusal::TooManySplits { count }));
        }
        Err(BookFault::NoMemory) => return Err(Outcome::NoMemory),
    };
    let count = book.spills(settings.spill);
    if count > MAX_SPILLS {
        return Err(Outcome::InputRefused(Refusal::TooManySpills { count }));
    }
    Ok(book)
}

// The script of the text.
fn read_script(alloc: Global, text: &[u8]) -> Result<Script, Outcome>
    requires { length text.now ≤ 1048576 }
    ensures script { IfOk result (λ script. script ≡ script_of text.now) }
    ensures accepted { OnOk result (script_refusal text.now ≡ None) }
    ensures refused { IfErr result (IsRefusal (script_refusal text.now)) }
{
    match Script::read(alloc, text) {
        Ok(script) => Ok(script),
        Err(LineFault::BadLine { line }) => Err(Outcome::ScriptRefused {
            file: File::Script,
            line: u64::from(line),
        }),
        Err(LineFault::NoMemory) => Err(Outcome::NoMemory),
    }
}

// The turn list of the text. There are no mergers yet.
fn read_turns(alloc: Global, text: &[u8], settings: &Settings) -> Result<Turns, Outcome>
    requires { length text.now ≤ 1048576 }
    ensures turns { IfOk result (λ turns. turns ≡ turns_of (actors_in (settings_of settings.now)) text.now) }
    ensures known { IfOk result (λ turns. All (IsTurn (actors_in (settings_of settings.now))) turns) }
    ensures accepted { OnOk result (turns_refusal (settings_of settings.now) text.now ≡ None) }
    ensures refused { IfErr result (IsRefusal (turns_refusal (settings_of settings.now) text.now)) }
{
    match Turns::read(alloc, text, settings.workers, settings.reducers, 0) {
        Ok(turns) => Ok(turns),
        Err(LineFault::BadLine { line }) => Err(Outcome::ScriptRefused {
            file: File::Turns,
            line: u64::from(line),
        }),
        Err(LineFault::NoMemory) => Err(Outcome::NoMemory),
    }
}

/// What a run of these texts is given, or its first refusal: of the records, the splits, the spills, the
/// script and the turn list, in this order.
pub fn planned(alloc: Global, texts: RunTexts, settings: &Settings) -> Result<Plan, Outcome>
    requires input { vec_len texts.input ≤ 16777216 }
    requires script { vec_len texts.script ≤ 1048576 }
    requires turns { vec_len texts.turns ≤ 1048576 }
    ensures book { IfOk result (λ plan. plan.book ≡ book_read (settings_of settings.now) texts.input.items) }
    ensures known { IfOk result (λ plan. IsBook plan.book) }
    ensures script { IfOk result (λ plan. plan.script ≡ script_of texts.script.items) }
    ensures turns { IfOk result (λ plan. plan.turns ≡ turns_of (actors_in (settings_of settings.now)) texts.turns.items) }
    ensures actors { IfOk result (λ plan. All (IsTurn (actors_in (settings_of settings.now))) plan.turns) }
    ensures accepted { OnOk result (run_refusal (settings_of settings.now) (record { input = texts.input.items; script = texts.script.items; turns = texts.turns.items }) ≡ None) }
    ensures refused { IfErr result (IsRefusal (run_refusal (settings_of settings.now) (record { input = texts.input.items; script = texts.script.items; turns = texts.turns.items }))) }
{
    let RunTexts {
        input,
        script,
        turns,
    } = texts;
    let book = match read_book(alloc, input, settings) {
        Ok(book) => book,
        Err(fault) => return Err(fault),
    };
    let script = match read_script(alloc, &script) {
        Ok(script) => script,
        Err(fault) => return Err(fault),
    };
    match read_turns(alloc, &turns, settings) {
        Ok(turns) => Ok(Plan {
            book,
            script,
            turns,
        }),
        Err(fault) => Err(fault),
    }
}
