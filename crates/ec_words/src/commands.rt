//! The commands that words are.

ghost use Rattle.std.specs.Prelude.{◌≡◌, true, IfOk, drop, map, option_map, string_bytes};
ghost use Rattle.ec_words.specs.Commands.{Form, form_of, first_of, output_of, stack_of, base_of, fuel_of, size_of, command_in, command_of, parts_of};
ghost use Rattle.ec_words.specs.Rule.{is_line};
ghost use Rattle.ec_words.specs.Given.{parts_in};

use crate::given::Given;
use crate::markings::{Marking, marking_of};
use crate::numbers::{number, rounded, setting};
use crate::parse::{given, parse};
use crate::rule::is_line;
use crate::table::{Verb, verb_of};
use std::alloc::{AllocError, Global};

/// What the program is to do.
#[derive(Debug, Drop)]
pub enum Command {
    /// Checks the units.
    Check {
        units: Vec<String>,
    },
    /// Runs the meaning of the units, with this many units of cost.
    Interp {
        units: Vec<String>,
        fuel: u64,
    },
    /// Compiles each unit, and saves its objects under names that begin with the stem.
    Compile {
        units: Vec<String>,
        stem: String,
        marking: Marking,
    },
    /// Links the objects into an image with this stack, in bytes.
    Link {
        objects: Vec<String>,
        image: String,
        stack: u64,
    },
    /// Compiles and links the units.
    Build {
        units: Vec<String>,
        image: String,
        marking: Marking,
        stack: u64,
    },
    /// Runs the image at this base, with this many steps.
    Run {
        image: String,
        base: u64,
        fuel: u64,
    },
    /// Builds and runs.
    Exec {
        units: Vec<String>,
        image: String,
        marking: Marking,
        stack: u64,
        base: u64,
        fuel: u64,
    },
    /// Gives the text of a number, of this size.
    Gen {
        number: u64,
        size: u32,
    },
    /// Builds the text of a number under eight markings, and runs the images.
    Many {
        number: u64,
        stem: String,
    },
}

fn stack_of(given: &Given<'_, '_>) -> Option<u64>
    ensures { result ≡ stack_of (parts_in given.now) }
{
    let stack = setting(1_048_576, 65_536, 268_435_456, given.stack)?;
    Some(rounded(stack))
}

fn base_of(given: &Given<'_, '_>) -> Option<u64>
    ensures { result ≡ base_of (parts_in given.now) }
{
    setting(0x1_4000_0000, 0, u64::MAX, given.base)
}

fn fuel_of(given: &Given<'_, '_>) -> Option<u64>
    ensures { result ≡ fuel_of (parts_in given.now) }
{
    setting(100_000_000, 0, 1_000_000_000_000, given.fuel)
}

fn size_of(given: &Given<'_, '_>) -> Option<u32>
    ensures { result ≡ size_of (parts_in given.now) }
{
    let size = setting(200, 1, 1000, given.size)?;
    Some(size as u32)
}

/// The first positional word, and the empty text where there is none.
fn first_of<'a>(given: &Given<'_, 'a>) -> &'a str
    ensures { result.now ≡ first_of (parts_in given.now) }
{
    match given.operands {
        Some([first, ..]) => *first,
        _ => "",
    }
}

/// The value of `-o` as the command's own, and the empty text where there is none.
fn output_of(alloc: Global, given: &Given<'_, '_>) -> Result<String, AllocError>
    ensures { IfOk result (λ text. string_bytes text ≡ output_of (parts_in given.now)) }
{
    match given.output {
        Some(text) => String::from_str(alloc, text),
        None => Ok(String::new(alloc)),
    }
}

/// Words as texts of their own.
fn owned(alloc: Global, words: &[&str]) -> Result<Vec<String>, AllocError>
    ensures { IfOk result (λ all. map string_bytes all.items ≡ map (λ w. w.now) words.now) }
{
    let mut all = Vec::with_capacity(alloc, words.len())?;
    for word in words {
        all.push(String::from_str(alloc, word)?)?;
    }
    Ok(all)
}

/// The positional words as the command's own.
fn operands_of(alloc: Global, given: &Given<'_, '_>) -> Result<Vec<String>, AllocError>
    ensures { IfOk result (λ all. map string_bytes all.items ≡ (parts_in given.now).operands) }
{
    match given.operands {
        Some(words) => owned(alloc, words),
        None => Ok(Vec::new(alloc)),
    }
}

fn interp(alloc: Global, given: &Given<'_, '_>) -> Result<Option<Command>, AllocError>
    ensures { IfOk result (λ c. option_map form_of c ≡ command_in Verb.Interp (parts_in given.now)) }
{
    let Some(fuel) = fuel_of(given) else {
        return Ok(None);
    };
    let units = operands_of(alloc, given)?;
    Ok(Some(Command::Interp { units, fuel }))
}

fn compile(alloc: Global, given: &Given<'_, '_>) -> Result<Option<Command>, AllocError>
    ensures { IfOk result (λ c. option_map form_of c ≡ command_in Verb.Compile (parts_in given.now)) }
{
    let Some(marking) = marking_of(alloc, given.marking)? else {
        return Ok(None);
    };
    let units = operands_of(alloc, given)?;
    let stem = output_of(alloc, given)?;
    Ok(Some(Command::Compile {
        units,
        stem,
        marking,
    }))
}

fn link(alloc: Global, given: &Given<'_, '_>) -> Result<Option<Command>, AllocError>
    ensures { IfOk result (λ c. option_map form_of c ≡ command_in Verb.Link (parts_in given.now)) }
{
    let Some(stack) = stack_of(given) else {
        return Ok(None);
    };
    let objects = operands_of(alloc, given)?;
    let image = output_of(alloc, given)?;
    Ok(Some(Command::Link {
        objects,
        image,
        stack,
    }))
}

fn build(alloc: Global, given: &Given<'_, '_>) -> Result<Option<Command>, AllocError>
    ensures { IfOk result (λ c. option_map form_of c ≡ command_in Verb.Build (parts_in given.now)) }
{
    let Some(marking) = marking_of(alloc, given.marking)? else {
        return Ok(None);
    };
    let Some(stack) = stack_of(given) else {
        return Ok(None);
    };
    let units = operands_of(alloc, given)?;
    let image = output_of(alloc, given)?;
    Ok(Some(Command::Build {
        units,
        image,
        marking,
        stack,
    }))
}

fn run(alloc: Global, given: &Given<'_, '_>) -> Result<Option<Command>, AllocError>
    ensures { IfOk result (λ c. option_map form_of c ≡ command_in Verb.Run (parts_in given.now)) }
{
    let Some(base) = base_of(given) else {
        return Ok(None);
    };
    let Some(fuel) = fuel_of(given) else {
        return Ok(None);
    };
    let image = String::from_str(alloc, first_of(given))?;
    Ok(Some(Command::Run { image, base, fuel }))
}

fn exec(alloc: Global, given: &Given<'_, '_>) -> Result<Option<Command>, AllocError>
    ensures { IfOk result (λ c. option_map form_of c ≡ command_in Verb.Exec (parts_in given.now)) }
{
    let Some(marking) = marking_of(alloc, given.marking)? else {
        return Ok(None);
    };
    let Some(stack) = stack_of(given) else {
        return Ok(None);
    };
    let Some(base) = base_of(given) else {
        return Ok(None);
    };
    let Some(fuel) = fuel_of(given) else {
        return Ok(None);
    };
    let units = operands_of(alloc, given)?;
    let image = output_of(alloc, given)?;
    Ok(Some(Command::Exec {
        units,
        image,
        marking,
        stack,
        base,
        fuel,
    }))
}

fn generate(given: &Given<'_, '_>) -> Option<Command>
    ensures { option_map form_of result ≡ command_in Verb.Gen (parts_in given.now) }
{
    let number = number(first_of(given))?;
    let size = size_of(given)?;
    Some(Command::Gen { number, size })
}

fn many(alloc: Global, given: &Given<'_, '_>) -> Result<Option<Command>, AllocError>
    ensures { IfOk result (λ c. option_map form_of c ≡ command_in Verb.Many (parts_in given.now)) }
{
    let Some(number) = number(first_of(given)) else {
        return Ok(None);
    };
    let stem = output_of(alloc, given)?;
    Ok(Some(Command::Many { number, stem }))
}

/// The command of this name with what was given.
fn command_in(
    alloc: Global,
    verb: Verb,
    given: &Given<'_, '_>,
) -> Result<Option<Command>, AllocError>
    ensures { IfOk result (λ c. option_map form_of c ≡ command_in verb (parts_in given.now)) }
{
    match verb {
        Verb::Check => {
            let units = operands_of(alloc, given)?;
            Ok(Some(Command::Check { units }))
        }
        Verb::Interp => interp(alloc, given),
        Verb::Compile => compile(alloc, given),
        Verb::Link => link(alloc, given),
        Verb::Build => build(alloc, given),
        Verb::Run => run(alloc, given),
        Verb::Exec => exec(alloc, given),
        Verb::Gen => Ok(generate(given)),
        Verb::Many => many(alloc, given),
    }
}

/// The command of this name that the words are, where those after the name are as its row of the table
/// says.
fn parsed(alloc: Global, verb: Verb, words: &[String]) -> Result<Option<Command>, AllocError>
    requires { is_line verb (drop 1 (map string_bytes words.now)) ≡ true }
    ensures { IfOk result (λ c. option_map form_of c ≡ command_in verb (parts_of (drop 1 (map string_bytes words.now)))) }
{
    let matches = parse(alloc, verb, words)?;
    let given = given(&matches);
    let command = command_in(alloc, verb, &given)?;
    Ok(command)
}

/// The command that the words are, by the rule of words; None for all words that are none.
///
/// The words are those after the program's name. Refused where memory runs out.
pub fn read_command(alloc: Global, words: &[String]) -> Result<Option<Command>, AllocError>
    ensures { IfOk result (λ c. option_map form_of c ≡ command_of (map string_bytes words.now)) }
{
    if words.is_empty() {
        return Ok(None);
    }
    let Some(verb) = verb_of(words[0].as_str()) else {
        return Ok(None);
    };
    if !is_line(verb, &words[1..]) {
        return Ok(None);
    }
    let command = parsed(alloc, verb, words)?;
    Ok(command)
}
