use crate::calculator::CALCULATOR;
use crate::lines::line_of;
use crate::rows::{EXPRESSIONS, NO_EXPRESSIONS, NO_STATEMENTS, NO_UNITS, Row, STATEMENTS, UNITS};
use c_lex::{Token, lex};
use c_parser::{ParseRefusal, parse};
use std::alloc::{AllocError, Global};
use std::process::Abort;
use std::test::Fail;

/// The tree of the tokens, or why they have none.
fn line_of_tokens(alloc: Global, tokens: &[Token]) -> Result<String, AllocError> {
    match parse(alloc, tokens) {
        Ok(unit) => line_of(alloc, &unit),
        Err(ParseRefusal::Syntax(at)) => format!(in alloc; "Syntax at {at}"),
        Err(ParseRefusal::TooDeep) => String::from_str(alloc, "too deep"),
        Err(ParseRefusal::NoMemory) => String::from_str(alloc, "no memory"),
    }
}

fn told(alloc: Global, text: &[u8]) -> Result<String, AllocError> {
    if text.len() > 1_048_576 {
        return String::from_str(alloc, "too long");
    }
    match lex(alloc, text) {
        Ok(tokens) => line_of_tokens(alloc, tokens.as_slice()),
        Err(_) => String::from_str(alloc, "no tokens"),
    }
}

fn check(rt: &impl Abort, alloc: Global, rows: &[Row]) -> Result<(), AllocError> {
    for (text, want) in rows {
        let line = told(alloc, text)?;
        assert_eq!(rt; line.as_str(), *want, "at {text:?}");
    }
    Ok(())
}

#[test]
fn small_texts(rt: HostRuntime) -> Result<(), Fail> {
    let alloc = rt.alloc();
    check(&rt, alloc, &EXPRESSIONS)?;
    check(&rt, alloc, &NO_EXPRESSIONS)?;
    check(&rt, alloc, &STATEMENTS)?;
    check(&rt, alloc, &NO_STATEMENTS)?;
    check(&rt, alloc, &UNITS)?;
    check(&rt, alloc, &NO_UNITS)?;
    Ok(())
}

/// A function that returns a number in parentheses.
fn in_parens(alloc: Global, open: u32, close: u32) -> Result<Vec<u8>, AllocError> {
    let mut text = Vec::new(alloc);
    text.extend_from_slice(b"int f(){return ")?;
    for _ in 0..open {
        text.push(b'(')?;
    }
    text.push(b'1')?;
    for _ in 0..close {
        text.push(b')')?;
    }
    text.extend_from_slice(b";}")?;
    Ok(text)
}

/// A number below 251 parentheses, a `return`, a block, an item and a unit are 256 nodes on a path;
/// one more is too high, and 200,000 overflow nothing. Where one of them isn't closed, the text stops
/// at the `;`.
#[test]
fn high_texts(rt: HostRuntime) -> Result<(), Fail> {
    let alloc = rt.alloc();
    let most = told(alloc, in_parens(alloc, 251, 251)?.as_slice())?;
    assert!(rt;
        most.as_str()
            .starts_with("height 256: (define I32 f { (return (paren (paren ")
    );
    let more = told(alloc, in_parens(alloc, 252, 252)?.as_slice())?;
    assert_eq!(rt; more.as_str(), "too deep");
    let deep = told(alloc, in_parens(alloc, 200_000, 200_000)?.as_slice())?;
    assert_eq!(rt; deep.as_str(), "too deep");
    let open = told(alloc, in_parens(alloc, 200_000, 199_999)?.as_slice())?;
    assert_eq!(rt; open.as_str(), "Syntax at 400015");
    Ok(())
}

/// Each list that begins the tokens of a text is a unit, or stops at its own end; how many are units.
fn units_in_front(rt: &impl Abort, alloc: Global, text: &[u8]) -> Result<u32, AllocError> {
    assert!(rt; text.len() < 10_000);
    let Ok(tokens) = lex(alloc, text) else {
        return Ok(0);
    };
    let mut units = 0u32;
    for (before, token) in tokens.as_slice().iter().enumerate() {
        let front = tokens.as_slice().split_at(before + 1).0;
        match parse(alloc, front) {
            Ok(_) => units = units.wrapping_add(1),
            Err(refusal) => assert_eq!(rt; refusal, ParseRefusal::Syntax(token.span.end)),
        }
    }
    Ok(units)
}

#[test]
fn front_parts(rt: HostRuntime) -> Result<(), Fail> {
    for (text, items) in &CALCULATOR {
        assert_eq!(rt; units_in_front(&rt, rt.alloc(), text)?, *items);
    }
    Ok(())
}
