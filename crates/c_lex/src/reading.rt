//! The reading of a whole text.

ghost use Rattle.std.specs.Prelude.{◌≡◌, ◌||◌, ◌≤◌, ◌<◌, length, List, true, Ok, Err, IfOk, IfErr};
ghost use Rattle.c_lex.specs.Reading.{ends_line, refusal_of, tokens_of, Gives};
ghost use Rattle.c_lex.specs.Grammar.{AreTokens, IsRefusal, IsRefusedAs};
ghost use Rattle.c_lex.specs.declared.token.Token.{Token};
ghost use Rattle.c_lex.specs.declared.token.LexRefusal.{LexRefusal};

use crate::bytes::{behind, ends_line, front};
use crate::next::{Fault, Next, next_of};
use crate::token::{LexRefusal, Token};
use c_types::Span;
use std::alloc::Global;

#[tactic(auto, unfolding(crate::specs::Reading::refusal_of))]
fn refusal_of(fault: Fault, place: u32) -> LexRefusal
    ensures { result ≡ refusal_of fault place }
{
    match fault {
        Fault::BadByte => LexRefusal::BadByte(place),
        Fault::BadNumber => LexRefusal::BadNumber(place),
        Fault::Unclosed => LexRefusal::Unclosed(place),
        Fault::Directive => LexRefusal::Directive(place),
    }
}

/// Whether no token stands in the line behind a blank or a comment.
fn is_first(first: bool, gap: &[u8]) -> bool
    ensures { result ≡ (first || ends_line gap.now) }
{
    first || ends_line(gap)
}

/// Reads a text from left to right.
fn read(alloc: Global, bytes: &[u8]) -> Result<Vec<Token>, LexRefusal>
    requires { length bytes.now ≤ 1_048_576 }
    ensures exact { Gives result (tokens_of bytes.now) }
{
    let mut tokens = Vec::new(alloc);
    let mut rest = bytes;
    let mut first = true;
    while !rest.is_empty() {
        let place = (bytes.len() - rest.len()) as u32;
        let length = match next_of(alloc, first, rest)? {
            Next::Gap(length) => {
                first = is_first(first, front(rest, length));
                length
            }
            Next::Found(kind, length) => {
                let end = place + length as u32;
                let span = Span { start: place, end };
                tokens.push(Token { kind, span })?;
                first = false;
                length
            }
            Next::Refused(fault) => return Err(refusal_of(fault, place)),
        };
        rest = behind(rest, length);
    }
    Ok(tokens)
}

/// The tokens of a text of at most 1 MiB, in order (C, 6.4). A refusal tells the first place at which no
/// token stands, and why; [`LexRefusal::NoMemory`] may come at any text.
pub fn lex(alloc: Global, bytes: &[u8]) -> Result<Vec<Token>, LexRefusal>
    requires { length bytes.now ≤ 1_048_576 }

    // What is given are the tokens, each the longest that stands at its place.
    ensures tokens { IfOk result (λ tokens. AreTokens 0 bytes.now tokens.items) }
    // A text that has tokens is given these.
    ensures only { (tokens : List Token) → AreTokens 0 bytes.now tokens → Gives result (Ok tokens) }

    // What is told stands at the first place at which there is no token.
    ensures refused { IfErr result (λ refusal. IsRefusedAs refusal bytes.now) }
    // A text that has such a place is refused with it.
    ensures stops { (refusal : LexRefusal) → IsRefusal true 0 bytes.now refusal → Gives result (Err refusal) }

    // The same as one function of the bytes.
    ensures exact { Gives result (tokens_of bytes.now) }
{
    read(alloc, bytes)
}
