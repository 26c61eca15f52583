//! The values of options, by the table.
ghost use Rattle.std.specs.Prelude.{◌≡◌, ◌≤◌, ◌∷◌, [], map, Some, None, IfOk, IfSome, IsErrOf};
ghost use Rattle.std.specs.Option.{option_map};
ghost use Rattle.hop_words.specs.Clap.{given_in, texts_in};
ghost use Rattle.hop_words.specs.Names.{name_in};
ghost use Rattle.hop_words.specs.Numbers.{number_in};
ghost use Rattle.hop_words.specs.Options.{NamesFile, is_unset, options_untaken, command_of, numbers_asked, settings_asked, settings_of, takes_all};

use crate::fault::WordsFault;
use crate::marks::{marks_in, yes_or_no_in};
use crate::names::is_name;
use crate::numbers::number_in;
use crate::options::Command;
use crate::parse::values;
use clap::ArgMatches;
use hop_base::limits::{MAX_ATTEMPTS, MAX_RECORDS, MAX_REDUCERS, MAX_WORKERS};
use hop_base::{Marks, Settings, Text};
use std::alloc::Global;

/// The greatest number of records of a spill.
const MAX_SPILL: u32 = 65_535;

/// The greatest number of messages that a lane has room for.
const MAX_LANE: u32 = 64;

/// The number of an option: its default where it isn't given, and nothing where it is given twice or isn't in its
/// range.
pub fn number<'a>(
    matches: &ArgMatches<'a>,
    name: &str,
    least: u32,
    most: u32,
    default: u32,
) -> Option<u32>
    requires low { least ≤ default }
    requires high { default ≤ most }
    ensures value { result ≡ number_in least most default (given_in matches.now name.now) }
    ensures low { IfSome result (λ n. least ≤ n) }
    ensures high { IfSome result (λ n. n ≤ most) }
{
    number_in(least, most, default, values(matches, name))
}

// The settings with these two; nothing where a number isn't in its range.
fn read_numbers<'a>(matches: &ArgMatches<'a>, tentative: bool, marks: Marks) -> Option<Settings>
    ensures { option_map settings_of result ≡ numbers_asked (given_in matches.now) tentative marks }
{
    let reducers = number(matches, "reducers", 1, MAX_REDUCERS as u32, 1)?;
    let split = number(matches, "split", 1, MAX_RECORDS, 16_384)?;
    let spill = number(matches, "spill", 1, MAX_SPILL, 1_000)?;
    let workers = number(matches, "workers", 1, MAX_WORKERS as u32, 2)?;
    let attempts = number(matches, "attempts", 1, MAX_ATTEMPTS as u32, 4)?;
    let lane = number(matches, "lane", 1, MAX_LANE, 2)?;
    Some(Settings {
        reducers: reducers as u8,
        split,
        spill,
        workers: workers as u8,
        attempts: attempts as u8,
        lane: lane as u8,
        mergers: 1,
        threads: 4,
        backup: false,
        tentative,
        marks,
    })
}

/// The settings that the options give. `Usage` comes exactly where one isn't in its range.
pub fn read_settings<'a>(alloc: Global, matches: &ArgMatches<'a>) -> Result<Settings, WordsFault>
    ensures settings { IfOk result (λ settings. settings_asked (given_in matches.now) ≡ Some (settings_of settings)) }
    ensures usage { IsErrOf result WordsFault.Usage → settings_asked (given_in matches.now) ≡ None }
{
    let Some(tentative) = yes_or_no_in(true, values(matches, "tentative")) else {
        return Err(WordsFault::Usage);
    };
    let marks = match marks_in(alloc, values(matches, "marks")) {
        Ok(marks) => marks,
        Err(fault) => return Err(fault),
    };
    match read_numbers(matches, tentative, marks) {
        Some(settings) => Ok(settings),
        None => Err(WordsFault::Usage),
    }
}

/// The name of a file that an option gives, where it is given. `Usage` comes exactly where it is given twice, or is no
/// name.
pub fn read_name<'a>(
    alloc: Global,
    matches: &ArgMatches<'a>,
    option: &str,
) -> Result<Option<Text>, WordsFault>
    ensures name { IfOk result (λ name. name_in (given_in matches.now option.now) ≡ Some name) }
    ensures names { IfOk result NamesFile }
    ensures usage { IsErrOf result WordsFault.Usage → name_in (given_in matches.now option.now) ≡ None }
{
    match values(matches, option) {
        None | Some([]) => Ok(None),
        Some([name]) => read_one_name(alloc, name),
        Some(_) => Err(WordsFault::Usage),
    }
}

// A name of a file.
fn read_one_name(alloc: Global, name: &str) -> Result<Option<Text>, WordsFault>
    ensures name { IfOk result (λ found. name_in (name.now ∷ []) ≡ Some found) }
    ensures names { IfOk result NamesFile }
    ensures usage { IsErrOf result WordsFault.Usage → name_in (name.now ∷ []) ≡ None }
{
    if !is_name(name.as_bytes()) {
        return Err(WordsFault::Usage);
    }
    match Text::from_slice(alloc, name.as_bytes()) {
        Ok(name) => Ok(Some(name)),
        Err(_) => Err(WordsFault::NoMemory),
    }
}

fn is_unset<'a>(matches: &ArgMatches<'a>, name: &str) -> bool
    ensures { result ≡ is_unset (given_in matches.now name.now) }
{
    match values(matches, name) {
        None => true,
        Some(values) => values.is_empty(),
    }
}

// The options that a command doesn't take.
fn options_untaken(command: &Command) -> &'static [&'static str]
    ensures { map (λ name. name.now) result.now ≡ options_untaken (command_of command.now) }
{
    match command {
        Command::Block { .. } => {
            &[
                "split",
                "spill",
                "workers",
                "attempts",
                "lane",
                "marks",
                "tentative",
                "script",
                "turns",
            ]
        }
        Command::Run { .. } | Command::Chain { .. } => &["turns"],
        Command::Replay { .. } => &[],
    }
}

/// Whether no option is given that the command doesn't take.
pub fn takes_all<'a>(command: &Command, matches: &ArgMatches<'a>) -> bool
    ensures { result ≡ takes_all (command_of command.now) (given_in matches.now) }
{
    options_untaken(command)
        .iter()
        .all(|name| is_unset(matches, name))
}
