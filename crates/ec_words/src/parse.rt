//! The parse of words that pass the rule, by `clap`.

ghost use Rattle.std.specs.Prelude.{◌≡◌, true, false, IfOk, map, string_bytes, drop};
ghost use Rattle.clap.specs.Walk.{rule_of};
ghost use Rattle.clap.specs.Simple.{app_of, with_rule};
ghost use Rattle.ec_words.specs.Rule.{is_line};
ghost use Rattle.ec_words.specs.Commands.{parts_of};
ghost use Rattle.ec_words.specs.Given.{parts_in};
ghost use Rattle.ec_words.specs.Parse.{line_app, empty_app, words_rule, short_rule, long_rule, parts_found};

use crate::given::Given;
use crate::table::Verb;
use clap::error::ErrorKind;
use clap::{Arg, ArgAction, ArgMatches};
use std::alloc::{AllocError, Global};

/// The positional words, as many as there are.
fn positional<'a>(alloc: Global) -> Arg<'a>
    ensures rule { rule_of result ≡ words_rule }
    ensures local { result.global ≡ false }
{
    Arg::new(alloc, "words").action(ArgAction::Append)
}

/// An option of one value, by a letter.
fn short_option<'a>(alloc: Global, id: &'a str, letter: char) -> Arg<'a>
    ensures rule { rule_of result ≡ short_rule id.entry.now letter }
    ensures local { result.global ≡ false }
{
    Arg::new(alloc, id).short(letter)
}

/// An option of one value, by a word.
fn long_option<'a>(alloc: Global, id: &'a str) -> Arg<'a>
    ensures rule { rule_of result ≡ long_rule id.entry.now }
    ensures local { result.global ≡ false }
{
    Arg::new(alloc, id).long(id)
}

/// The command line with one more argument.
fn with<'a>(line: clap::Command<'a>, arg: Arg<'a>) -> Result<clap::Command<'a>, AllocError>
    requires { arg.global ≡ false }
    ensures { IfOk result (λ c. app_of c ≡ with_rule (app_of line.entry) (rule_of arg.entry)) }
{
    let more = line.arg(arg)?;
    Ok(more)
}

/// The command line before its arguments.
fn empty_line<'a>(alloc: Global) -> clap::Command<'a>
    ensures { app_of result ≡ empty_app }
{
    clap::Command::new(alloc, "ecc").disable_help_flag(true)
}

/// The command line: positional words, and the options of all commands, each with one value.
fn line<'a>(alloc: Global) -> Result<clap::Command<'a>, AllocError>
    ensures { IfOk result (λ c. app_of c ≡ line_app) }
{
    let line = empty_line(alloc);
    let line = with(line, positional(alloc))?;
    let line = with(line, short_option(alloc, "output", 'o'))?;
    let line = with(line, short_option(alloc, "marking", 'm'))?;
    let line = with(line, long_option(alloc, "stack"))?;
    let line = with(line, long_option(alloc, "base"))?;
    let line = with(line, long_option(alloc, "fuel"))?;
    let line = with(line, long_option(alloc, "size"))?;
    Ok(line)
}

/// Parses the words, of which the first is the command's name, and the others are as its row of the
/// table says.
pub fn parse<'a>(
    alloc: Global,
    verb: Verb,
    words: &'a [String],
) -> Result<ArgMatches<'a>, AllocError>
    requires { is_line verb (drop 1 (map string_bytes words.now)) ≡ true }
    ensures { IfOk result (λ m. parts_found m ≡ parts_of (drop 1 (map string_bytes words.entry.now))) }
{
    let _ = verb;
    let line = line(alloc)?;
    match line.try_get_matches_from(words) {
        Ok(matches) => Ok(matches),
        Err(error) => match error.kind() {
            ErrorKind::OutOfMemory => Err(AllocError),
            _ => unreachable!(),
        },
    }
}

/// What a parse gave.
pub fn given<'m, 'a>(matches: &'m ArgMatches<'a>) -> Given<'m, 'a>
    ensures { parts_in result ≡ parts_found matches.entry.now }
{
    Given {
        operands: matches.get_strs("words"),
        output: matches.get_str("output"),
        marking: matches.get_str("marking"),
        stack: matches.get_str("stack"),
        base: matches.get_str("base"),
        fuel: matches.get_str("fuel"),
        size: matches.get_str("size"),
    }
}
