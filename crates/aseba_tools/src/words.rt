//! The words that a tool takes behind its name, read by one command of `clap`.

ghost use Rattle.std.specs.Prelude.{◌≡◌, IfErr, IfOk, Some, false, true, map, option_map, pos, string_bytes};
ghost use Rattle.clap.specs.Words.{app_of, first_of, found_of, is_simple_and_free, new_rule, rows_of, rule_of};
ghost use Rattle.clap.specs.declared.builder.value_parser.ValueParser.TheVariants as parser;
ghost use Rattle.aseba_tools.specs.Words.{Unread, app, found, is_set, number_at, rule, text_at, word_view};
ghost use Rattle.aseba_tools.specs.Words as spec;

use crate::status::Status;
use clap::builder::ValueParser;
use clap::error::ErrorKind;
use clap::{Arg, ArgAction, ArgMatches, Command};
use std::alloc::{AllocError, Global};

/// One word of a tool's command line, with the name by which it is read back.
#[derive(Clone, Copy, Debug)]
pub enum Word {
    /// A word that has to be there.
    Text(&'static str),
    /// A number from the first to the last of these, which has to be there.
    Number(&'static str, u32, u32),
    /// `--NAME WORD`, which may be left out.
    Option(&'static str),
    /// `--NAME NUMBER` with a number from the first to the last of these, which may be left out.
    NumberOption(&'static str, u32, u32),
    /// `--NAME`, which may be left out.
    Flag(&'static str),
}

/// What `clap` finds in the words that are given where these are wanted. Other words are `Usage`;
/// `Memory` comes where memory doesn't suffice.
pub fn find<'a>(
    alloc: Global,
    wanted: &'static [Word],
    given: &'a [String],
) -> Result<ArgMatches<'a>, Status>
    requires { is_simple_and_free (app (map word_view wanted.now)) ≡ true }
    ensures read { IfOk result (λ matches. found (map word_view wanted.now) (map string_bytes given.now) ≡ Some (rows_of (found_of matches))) }
    ensures unread { IfErr result (Unread (found (map word_view wanted.now) (map string_bytes given.now))) }
{
    let command = match command_of(alloc, wanted) {
        Ok(command) => command,
        Err(_) => return Err(Status::Memory),
    };
    match command.try_get_matches_from(given) {
        Ok(matches) => Ok(matches),
        Err(error) => match error.kind() {
            ErrorKind::OutOfMemory => Err(Status::Memory),
            _ => Err(Status::Usage),
        },
    }
}

/// The command of `clap` that takes these words. There is no help to ask for and no version.
fn command_of<'a>(alloc: Global, words: &'static [Word]) -> Result<Command<'a>, AllocError>
    ensures { IfOk result (λ command. app_of command ≡ app (map word_view words.now)) }
{
    let mut command = Command::new(alloc, "aseba")
        .no_binary_name(true)
        .disable_help_flag(true)
        .disable_version_flag(true);
    for word in words {
        command = command.arg(argument(alloc, *word))?;
    }
    Ok(command)
}

/// A word as an argument of a command.
fn argument<'a>(alloc: Global, word: Word) -> Arg<'a>
    ensures rule { rule_of result ≡ rule (word_view word) }
    ensures local { result.global ≡ false }
{
    match word {
        Word::Text(name) => wanted(alloc, name),
        Word::Number(name, least, most) => wanted(alloc, name).value_parser(between(least, most)),
        Word::Option(name) => option(alloc, name).action(ArgAction::Set),
        Word::NumberOption(name, least, most) => option(alloc, name)
            .action(ArgAction::Set)
            .value_parser(between(least, most)),
        Word::Flag(name) => option(alloc, name).action(ArgAction::SetTrue),
    }
}

/// A word that has to be there.
fn wanted<'a>(alloc: Global, name: &'a str) -> Arg<'a>
    ensures rule { rule_of result ≡ rule (spec.text name.now) }
    ensures local { result.global ≡ false }
{
    Arg::new(alloc, name).required(true).action(ArgAction::Set)
}

/// A word behind `--NAME`.
fn option<'a>(alloc: Global, name: &'a str) -> Arg<'a>
    ensures rule { rule_of result ≡ record (new_rule name.now) { long = Some name.now } }
    ensures local { result.global ≡ false }
{
    Arg::new(alloc, name).long(name)
}

/// A number from the first to the last of these.
fn between(least: u32, most: u32) -> ValueParser<'static>
    ensures { result ≡ parser.Signed (pos least) (pos most) }
{
    ValueParser::Signed(i64::from(least), i64::from(most))
}

/// A word that has to be there.
pub fn text<'a>(matches: &ArgMatches<'a>, name: &str) -> &'a str
    ensures { result.now ≡ text_at name.now (rows_of (found_of matches.now)) }
{
    text_or_none(matches, name).unwrap_or("")
}

/// A word that may be left out.
pub fn text_or_none<'a>(matches: &ArgMatches<'a>, name: &str) -> Option<&'a str>
    ensures { option_map (λ text. text.now) result ≡ first_of name.now (rows_of (found_of matches.now)) }
{
    matches.get_str(name)
}

/// A number that has to be there.
pub fn number(matches: &ArgMatches<'_>, name: &str) -> u32
    ensures { result ≡ number_at name.now (rows_of (found_of matches.now)) }
{
    number_or_none(matches, name).unwrap_or(0)
}

/// A number that may be left out.
pub fn number_or_none(matches: &ArgMatches<'_>, name: &str) -> Option<u32>
    ensures { result ≡ spec.number_or_none name.now (rows_of (found_of matches.now)) }
{
    matches.get_one::<u32>(name)
}

/// Whether a flag is there, which `clap` tells as a text.
pub fn flag(matches: &ArgMatches<'_>, name: &str) -> bool
    ensures { result ≡ is_set name.now (rows_of (found_of matches.now)) }
{
    match text_or_none(matches, name) {
        Some(text) => text == "true",
        None => false,
    }
}
