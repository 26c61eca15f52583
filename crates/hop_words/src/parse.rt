//! The one call of `clap`: it cuts the words into plain words and the values of options.
ghost use Rattle.std.specs.Prelude.{◌≡◌, None, false, map, IfOk, IsErrOf};
ghost use Rattle.clap.specs.Words.{app_of, kind_of, rule_of, with_rule};
ghost use Rattle.hop_words.specs.Clap.{Finds, NamesProgram, given_in, hop_app, hop_bare, option_rule, plain_rule, texts_in, words_behind};
ghost use Rattle.hop_words.specs.Table.{option_names};
ghost use Rattle.hop_words.specs.Scan.{scan};

use crate::fault::WordsFault;
use clap::error::ErrorKind;
use clap::{Arg, ArgAction, ArgMatches, Command, Error};
use hop_base::{NoMemory, Words};
use std::alloc::{AllocError, Global};

/// The id of the plain words, which is no option's name.
pub const PLAIN: &str = "--";

/// The word that stands for the program's name.
const PROGRAM: &str = "hop";

// An option that takes a value each time that it is given.
fn option<'a>(alloc: Global, name: &'a str) -> Arg<'a>
    ensures rule { rule_of result ≡ option_rule name.entry.now }
    ensures local { result.global ≡ false }
{
    Arg::new(alloc, name).long(name).action(ArgAction::Append)
}

// One option more.
fn with_option<'a>(
    alloc: Global,
    command: Command<'a>,
    name: &'a str,
) -> Result<Command<'a>, AllocError>
    ensures { IfOk result (λ c. app_of c ≡ with_rule (app_of command.entry) (option_rule name.entry.now)) }
{
    command.arg(option(alloc, name))
}

// The plain words, each of which is a value.
fn plain_words<'a>(alloc: Global) -> Arg<'a>
    ensures rule { rule_of result ≡ plain_rule }
    ensures local { result.global ≡ false }
{
    Arg::new(alloc, PLAIN).action(ArgAction::Append)
}

// The command without arguments.
fn bare_command<'a>(alloc: Global) -> Command<'a>
    ensures { app_of result ≡ hop_bare }
{
    Command::new(alloc, PROGRAM).disable_help_flag(true)
}

// The flat command: all options, and a row of plain words.
fn command<'a>(alloc: Global) -> Result<Command<'a>, AllocError>
    ensures { IfOk result (λ c. app_of c ≡ hop_app option_names) }
{
    let command = bare_command(alloc);
    let command = with_option(alloc, command, "k")?;
    let command = with_option(alloc, command, "reducers")?;
    let command = with_option(alloc, command, "split")?;
    let command = with_option(alloc, command, "spill")?;
    let command = with_option(alloc, command, "workers")?;
    let command = with_option(alloc, command, "attempts")?;
    let command = with_option(alloc, command, "lane")?;
    let command = with_option(alloc, command, "marks")?;
    let command = with_option(alloc, command, "tentative")?;
    let command = with_option(alloc, command, "script")?;
    let command = with_option(alloc, command, "turns")?;
    command.arg(plain_words(alloc))
}

/// The words as clap takes them, behind one that stands for the program's name.
pub fn texts<'a>(alloc: Global, words: &'a Words) -> Result<Vec<&'a str>, NoMemory>
    ensures named { IfOk result (λ texts. NamesProgram (map (λ t. t.now) texts.items)) }
    ensures words { IfOk result (λ texts. words_behind (map (λ t. t.now) texts.items) ≡ words.now) }
{
    let mut texts = Vec::new(alloc);
    texts.push(PROGRAM)?;
    for k in 0..words.len() {
        texts.push(words.word(k))?;
    }
    Ok(texts)
}

// A refusal of clap, where it isn't for want of memory, is one of the words.
fn fault_of(error: &Error) -> WordsFault
    ensures { result ≡ WordsFault.Usage → kind_of error.now ≡ ErrorKind.OutOfMemory → ⊥ }
{
    match error.kind() {
        ErrorKind::OutOfMemory => WordsFault::NoMemory,
        _ => WordsFault::Usage,
    }
}

/// What clap finds in the texts. `Usage` comes exactly where the words can't be cut.
pub fn parsed<'a>(alloc: Global, texts: &'a [&'a str]) -> Result<ArgMatches<'a>, WordsFault>
    requires { NamesProgram (map (λ t. t.now) texts.now) }
    ensures found { IfOk result (Finds (words_behind (map (λ t. t.now) texts.now))) }
    ensures usage { IsErrOf result WordsFault.Usage → scan option_names None (words_behind (map (λ t. t.now) texts.now)) ≡ None }
{
    let command = match command(alloc) {
        Ok(command) => command,
        Err(AllocError) => return Err(WordsFault::NoMemory),
    };
    match command.try_get_matches_from(texts) {
        Ok(matches) => Ok(matches),
        Err(error) => Err(fault_of(&error)),
    }
}

/// The values that were found for an option, or the plain words; nothing where there are none.
pub fn values<'m, 'a>(matches: &'m ArgMatches<'a>, id: &str) -> Option<&'m [&'a str]>
    ensures { texts_in result ≡ given_in matches.now id.now }
{
    matches.get_raw(id)
}
