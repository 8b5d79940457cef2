ghost use Rattle.std.specs.Prelude.{◌≡◌, ◌≤◌, length};
ghost use Rattle.ec_units.specs.Verdicts.{kind_bytes, longest_in};
ghost use Rattle.ec_units.specs.Steps.{told_lexical, told_syntactic, ReadsText};

use c_lex::{LexRefusal, TokKind, Token, lex};
use c_parser::{ParseRefusal, parse};
use c_tree::Unit;
use ec_report::UnitRefusal;
use std::alloc::Global;

/// A unit, and the bytes of its longest identifier.
#[derive(Drop)]
pub struct Text {
    pub unit: Unit,
    pub longest_name: u64,
}

/// Why bytes are no unit, or want of memory.
#[derive(Clone, Copy, Debug)]
pub enum TextRefusal {
    Refused(UnitRefusal),
    NoMemory,
}

/// The bytes of an identifier.
fn name_bytes(kind: &TokKind) -> u64
    ensures { result ≡ kind_bytes kind.now }
{
    match kind {
        TokKind::Ident(name) => name.len() as u64,
        _ => 0,
    }
}

/// The bytes of the longest identifier.
fn longest_name(tokens: &[Token]) -> u64
    ensures { result ≡ longest_in tokens.now }
{
    let mut most = 0;
    for token in tokens {
        most = most.max(name_bytes(&token.kind));
    }
    most
}

fn of_lexer(refusal: LexRefusal) -> TextRefusal
    ensures { result ≡ told_lexical refusal }
{
    match refusal {
        LexRefusal::BadByte(at) => TextRefusal::Refused(UnitRefusal::BadByte(at)),
        LexRefusal::BadNumber(at) => TextRefusal::Refused(UnitRefusal::BadNumber(at)),
        LexRefusal::Unclosed(at) => TextRefusal::Refused(UnitRefusal::Unclosed(at)),
        LexRefusal::Directive(at) => TextRefusal::Refused(UnitRefusal::Directive(at)),
        LexRefusal::NoMemory => TextRefusal::NoMemory,
    }
}

fn of_parser(refusal: ParseRefusal) -> TextRefusal
    ensures { result ≡ told_syntactic refusal }
{
    match refusal {
        ParseRefusal::Syntax(at) => TextRefusal::Refused(UnitRefusal::Syntax(at)),
        ParseRefusal::TooDeep => TextRefusal::Refused(UnitRefusal::TooDeep),
        ParseRefusal::NoMemory => TextRefusal::NoMemory,
    }
}

/// The unit that the bytes of a file are.
pub fn read_text(alloc: Global, bytes: &[u8]) -> Result<Text, TextRefusal>
    requires { length bytes.now ≤ 1048576 }
    ensures { ReadsText bytes.now result }
{
    let tokens = match lex(alloc, bytes) {
        Ok(tokens) => tokens,
        Err(refusal) => return Err(of_lexer(refusal)),
    };
    match parse(alloc, tokens.as_slice()) {
        Ok(unit) => {
            let longest_name = longest_name(tokens.as_slice());
            Ok(Text { unit, longest_name })
        }
        Err(refusal) => Err(of_parser(refusal)),
    }
}
