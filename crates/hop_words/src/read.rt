//! The words of a command line, read by the tables of commands and options.
ghost use Rattle.std.specs.Prelude.{◌≡◌, None, Some, IfOk, IsErrOf};
ghost use Rattle.hop_words.specs.Clap.{given_in, plain_id};
ghost use Rattle.hop_words.specs.Options.{HasFiles, HasNames, asked, asked_from, command_asked, command_of, has_all, options_asked, options_of};

use crate::command::read_plain;
use crate::fault::WordsFault;
use crate::options::{Command, Options};
use crate::parse::{PLAIN, parsed, texts, values};
use crate::values::{number, read_name, read_settings, takes_all};
use clap::ArgMatches;
use hop_base::{Text, Words};
use std::alloc::Global;

/// The greatest number of values that `top` keeps, and how many it keeps where nothing is said.
const MAX_K: u32 = 1_000;

const DEFAULT_K: u32 = 10;

// The command of the plain words.
fn read_command<'a>(alloc: Global, matches: &ArgMatches<'a>) -> Result<Command, WordsFault>
    ensures command { IfOk result (λ command. command_asked (given_in matches.now) (given_in matches.now plain_id) ≡ Some (command_of command)) }
    ensures names { IfOk result HasNames }
    ensures usage { IsErrOf result WordsFault.Usage → command_asked (given_in matches.now) (given_in matches.now plain_id) ≡ None }
{
    let Some(k) = number(matches, "k", 1, MAX_K, DEFAULT_K) else {
        return Err(WordsFault::Usage);
    };
    match values(matches, PLAIN) {
        Some(plain) => read_plain(alloc, k, plain),
        None => Err(WordsFault::Usage),
    }
}

// Whether the options that must be given are given.
fn has_all(command: &Command, turns: &Option<Text>) -> bool
    ensures { result ≡ has_all (command_of command.now) turns.now }
{
    match command {
        Command::Block { .. } | Command::Run { .. } | Command::Chain { .. } => true,
        Command::Replay { .. } => turns.is_some(),
    }
}

// A command with what the options give it.
fn read_options<'a>(
    alloc: Global,
    command: Command,
    matches: &ArgMatches<'a>,
) -> Result<Options, WordsFault>
    requires { HasNames command }
    ensures options { IfOk result (λ options. options_asked (given_in matches.now) (command_of command) ≡ Some (options_of options)) }
    ensures files { IfOk result HasFiles }
    ensures usage { IsErrOf result WordsFault.Usage → options_asked (given_in matches.now) (command_of command) ≡ None }
{
    if !takes_all(&command, matches) {
        return Err(WordsFault::Usage);
    }
    let settings = match read_settings(alloc, matches) {
        Ok(settings) => settings,
        Err(fault) => return Err(fault),
    };
    let script = match read_name(alloc, matches, "script") {
        Ok(script) => script,
        Err(fault) => return Err(fault),
    };
    let turns = match read_name(alloc, matches, "turns") {
        Ok(turns) => turns,
        Err(fault) => return Err(fault),
    };
    if !has_all(&command, &turns) {
        return Err(WordsFault::Usage);
    }
    Ok(Options {
        command,
        settings,
        script,
        turns,
        trace: None,
    })
}

// What the values of the options and the plain words ask for.
fn read_found<'a>(alloc: Global, matches: &ArgMatches<'a>) -> Result<Options, WordsFault>
    ensures options { IfOk result (λ options. asked_from (given_in matches.now) (given_in matches.now plain_id) ≡ Some (options_of options)) }
    ensures files { IfOk result HasFiles }
    ensures usage { IsErrOf result WordsFault.Usage → asked_from (given_in matches.now) (given_in matches.now plain_id) ≡ None }
{
    match read_command(alloc, matches) {
        Ok(command) => read_options(alloc, command, matches),
        Err(fault) => Err(fault),
    }
}

/// The options that the words ask for. `Usage` comes exactly where they ask for nothing.
pub fn read_words(alloc: Global, words: &Words) -> Result<Options, WordsFault>
    ensures options { IfOk result (λ options. asked words.now ≡ Some (options_of options)) }
    ensures files { IfOk result HasFiles }
    ensures usage { IsErrOf result WordsFault.Usage → asked words.now ≡ None }
{
    let Ok(texts) = texts(alloc, words) else {
        return Err(WordsFault::NoMemory);
    };
    let matches = match parsed(alloc, &texts) {
        Ok(matches) => matches,
        Err(fault) => return Err(fault),
    };
    read_found(alloc, &matches)
}
