ghost use Rattle.std.specs.Prelude.{◌≡◌, ◌≤◌, ◌<◌, ℕ, Ok, Err, IfOk, IfErr};
ghost use Rattle.c_tree.specs.declared.declarations.Unit.{Unit};
ghost use Rattle.c_tree.specs.Height.{unit_height};
ghost use Rattle.parse_item.specs.ItemGrammar.{IsUnit};
ghost use Rattle.parse_item.specs.UnitMachine.{unit_start};
ghost use Rattle.c_parser.specs.Texts.{terminals, IsNoUnit, Stops};
ghost use Rattle.c_parser.specs.Readings.{answer_at_end};
ghost use Rattle.c_parser.specs.Answers.{answer_from, answer_of, Gives, IsRefusal, IsSyntax};

use crate::refusals::ParseRefusal;
use c_lex::Token;
use c_tree::Unit;
use parse_item::{UnitPart, begin_unit, finish_unit, step_unit};
use parse_stmt::Capped;
use parse_terms::{Terminal, to_terminal};
use std::alloc::{AllocError, Global};

/// The tokens as the grammar sees them.
fn terminals_of(alloc: Global, tokens: &[Token]) -> Result<Vec<Terminal>, AllocError>
    ensures { IfOk result (λ seen. seen.items ≡ terminals tokens.now) }
{
    let mut seen = Vec::new(alloc);
    for token in tokens {
        let terminal = to_terminal(alloc, token)?;
        seen.push(terminal)?;
    }
    Ok(seen)
}

/// What the part says of the tokens, which end at a place.
fn settle(part: Option<UnitPart>, end: u32) -> Result<Unit, ParseRefusal>
    ensures { result ≡ answer_at_end end part }
{
    match part {
        None => Err(ParseRefusal::Syntax(end)),
        Some(Capped::Built(unit, _)) => Ok(unit),
        Some(Capped::Deep) => Err(ParseRefusal::TooDeep),
    }
}

/// The machine reads the tokens. Its state is handed on from call to call and never dropped here.
fn read(alloc: Global, tokens: &[Terminal]) -> Result<Unit, ParseRefusal>
    ensures { Gives result (answer_from 0 tokens.now unit_start) }
{
    let mut state = begin_unit(alloc);
    let mut end = 0;
    for token in tokens {
        match step_unit(alloc, token, state) {
            Ok(Some(next)) => {
                state = next;
                end = token.span.end;
            }
            Ok(None) => return Err(ParseRefusal::Syntax(token.span.start)),
            Err(_) => return Err(ParseRefusal::NoMemory),
        }
    }
    settle(finish_unit(state), end)
}

fn answer(alloc: Global, tokens: &[Token]) -> Result<Unit, ParseRefusal>
    ensures { Gives result (answer_of tokens.now) }
{
    match terminals_of(alloc, tokens) {
        Ok(seen) => read(alloc, seen.as_slice()),
        Err(_) => Err(ParseRefusal::NoMemory),
    }
}

/// The unit that tokens are.
///
/// # Errors
///
/// [`ParseRefusal::Syntax`] where no unit has these tokens, with the place at which the list stops to
/// begin one. [`ParseRefusal::TooDeep`] where a unit has them, and is higher than 256 nodes.
/// [`ParseRefusal::NoMemory`] may come at any list.
pub fn parse(alloc: Global, tokens: &[Token]) -> Result<Unit, ParseRefusal>
    // What is given is the unit that the tokens are.
    ensures sound { IfOk result (λ u. IsUnit u (terminals tokens.now) × (unit_height u ≤ 256)) }
    // Each unit is given that isn't too high.
    ensures whole { (u : Unit) → IsUnit u (terminals tokens.now) → unit_height u ≤ 256 → Gives result (Ok u) }
    // No unit is given in another's place.
    ensures one { (u v : Unit) → IsUnit u (terminals tokens.now) → IsUnit v (terminals tokens.now) → u ≡ v }

    // A refusal says what is wrong with the tokens, and where.
    ensures refused { IfErr result (λ refusal. IsRefusal (terminals tokens.now) refusal) }
    // Tokens of no unit are refused so.
    ensures syntax { IsNoUnit (terminals tokens.now) → IsSyntax result }
    // They are refused with the place at which the list stops.
    ensures stops { (at : ℕ) → Stops (terminals tokens.now) at → Gives result (Err (ParseRefusal.Syntax at)) }
    // A unit that is too high is refused so.
    ensures deep { (u : Unit) → IsUnit u (terminals tokens.now) → 256 < unit_height u → Gives result (Err ParseRefusal.TooDeep) }

    // The same as one function of the tokens.
    ensures exact { Gives result (answer_of tokens.now) }
{
    answer(alloc, tokens)
}
