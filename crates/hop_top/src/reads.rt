//! How the files that a command names are read.
ghost use Rattle.std.specs.Prelude.{◌≡◌, ◌≤◌, true, IfOk, IfErr, OnOk, vec_len};
ghost use Rattle.hop_ports.specs.Causes.{OnlyRead};
ghost use Rattle.hop_words.specs.Names.{is_name};
ghost use Rattle.hop_words.specs.Options.{NamesFile};
ghost use Rattle.hop_top.specs.Reading.{NamedAs, NamedFault, ReadsAs, ReadFault, ReadsFault, ReadsRun, run_reads};

use crate::outcome::{File, Outcome, Refusal};
use hop_base::Text;
use hop_base::limits::{MAX_INPUT, MAX_SCRIPT};
use hop_ports::{Folder, GetFault};
use hop_words::file_name;
use std::alloc::Global;

/// What a run reads: its input, and the texts of its script and its turn list, which are empty where
/// none is named.
#[derive(Drop)]
pub struct RunTexts {
    pub input: Vec<u8>,
    pub script: Vec<u8>,
    pub turns: Vec<u8>,
}

/// The bytes of a file, at most `most` of them, or the outcome that there is in their place.
pub fn read_file<F: Folder>(
    folder: &mut F,
    file: File,
    name: &str,
    most: u64,
) -> Result<Vec<u8>, Outcome>
    ensures left { OnlyRead (F.seen folder.old) (F.seen folder.new) }
    ensures no_fault { OnOk result ((F.seen folder.new).gets ≡ (F.seen folder.old).gets) }
    ensures read { IfOk result (λ bytes. ReadsAs (F.seen folder.old) (record { file = file; name = name.now; most = most }) bytes.items) }
    ensures bound { IfOk result (λ bytes. vec_len bytes ≤ most) }
    ensures fault { IfErr result (ReadFault (F.seen folder.old) (F.seen folder.new) (record { file = file; name = name.now; most = most })) }
{
    match folder.get(name, most) {
        Ok(bytes) => Ok(bytes),
        Err(GetFault::Missing | GetFault::Failed) => Err(Outcome::InputFailed { file }),
        Err(GetFault::TooLong) => Err(Outcome::InputRefused(Refusal::TooLong { file })),
        Err(GetFault::NoMemory) => Err(Outcome::NoMemory),
    }
}

// The bytes of a file that may be named, at most `most` of them: none where it isn't.
fn read_named<F: Folder>(
    alloc: Global,
    folder: &mut F,
    file: File,
    name: &Option<Text>,
    most: u64,
) -> Result<Vec<u8>, Outcome>
    requires { NamesFile name.now }
    ensures left { OnlyRead (F.seen folder.old) (F.seen folder.new) }
    ensures no_fault { OnOk result ((F.seen folder.new).gets ≡ (F.seen folder.old).gets) }
    ensures read { IfOk result (λ bytes. NamedAs (F.seen folder.old) (λ n. record { file = file; name = n; most = most }) name.now bytes.items) }
    ensures bound { IfOk result (λ bytes. vec_len bytes ≤ most) }
    ensures fault { IfErr result (NamedFault (F.seen folder.old) (F.seen folder.new) (λ n. record { file = file; name = n; most = most }) name.now) }
{
    match name {
        Some(name) => read_file(folder, file, file_name(name), most),
        None => Ok(Vec::new(alloc)),
    }
}

/// What a run reads: its input, then its script and its turn list, where they are named; or the outcome
/// that there is in their place.
pub fn read_run<F: Folder>(
    alloc: Global,
    folder: &mut F,
    input: &Text,
    script: &Option<Text>,
    turns: &Option<Text>,
) -> Result<RunTexts, Outcome>
    requires input { is_name input.now ≡ true }
    requires script { NamesFile script.now }
    requires turns { NamesFile turns.now }
    ensures left { OnlyRead (F.seen folder.old) (F.seen folder.new) }
    ensures no_fault { OnOk result ((F.seen folder.new).gets ≡ (F.seen folder.old).gets) }
    ensures read { IfOk result (λ texts. ReadsRun (F.seen folder.old) input.now script.now turns.now (record { input = texts.input.items; script = texts.script.items; turns = texts.turns.items })) }
    ensures input { IfOk result (λ texts. vec_len texts.input ≤ 16777216) }
    ensures script { IfOk result (λ texts. vec_len texts.script ≤ 1048576) }
    ensures turns { IfOk result (λ texts. vec_len texts.turns ≤ 1048576) }
    ensures fault { IfErr result (ReadsFault (F.seen folder.old) (F.seen folder.new) (run_reads input.now script.now turns.now)) }
{
    let input = match read_file(folder, File::Input, file_name(input), MAX_INPUT) {
        Ok(input) => input,
        Err(fault) => return Err(fault),
    };
    let script = match read_named(alloc, folder, File::Script, script, MAX_SCRIPT) {
        Ok(script) => script,
        Err(fault) => return Err(fault),
    };
    match read_named(alloc, folder, File::Turns, turns, MAX_SCRIPT) {
        Ok(turns) => Ok(RunTexts {
            input,
            script,
            turns,
        }),
        Err(fault) => Err(fault),
    }
}
