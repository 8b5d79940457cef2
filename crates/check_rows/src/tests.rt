use crate::rows::{
    CALLS, COUNTED, Counted, MEETING, NAMES, OPERANDS, ORDER, PLACES, PROGRAMS, Program, REST, Row,
    TYPES,
};
use c_check::{CheckRefusal, check, program_nodes};
use c_lex::lex;
use c_parser::parse;
use c_tree::Unit;
use std::alloc::{AllocError, Global};
use std::fmt::Write;
use std::process::Abort;
use std::test::Fail;

/// The unit that a text is, if it is one.
fn unit_of(alloc: Global, text: &[u8]) -> Option<Unit> {
    if text.len() > 1_048_576 {
        return None;
    }
    match lex(alloc, text) {
        Ok(tokens) => parse(alloc, tokens.as_slice()).ok(),
        Err(_) => None,
    }
}

fn units_of(alloc: Global, texts: &[&[u8]]) -> Result<Option<Vec<Unit>>, AllocError> {
    let mut units = Vec::new(alloc);
    for text in texts {
        let Some(unit) = unit_of(alloc, text) else {
            return Ok(None);
        };
        units.push(unit)?;
    }
    Ok(Some(units))
}

/// The number of nodes of the program that the units are.
fn count(alloc: Global, units: &[Unit], whole: bool) -> Result<u64, CheckRefusal> {
    match check(alloc, units, whole) {
        Ok(program) => Ok(program_nodes(&program)),
        Err(refusal) => Err(refusal),
    }
}

fn told(alloc: Global, texts: &[&[u8]], whole: bool) -> Result<String, AllocError> {
    let Some(units) = units_of(alloc, texts)? else {
        return String::from_str(alloc, "no units");
    };
    match count(alloc, units.as_slice(), whole) {
        Ok(_) => String::from_str(alloc, "ok"),
        Err(CheckRefusal::Bad { unit, kind, at }) => {
            format!(in alloc; "{kind:?} in {unit} at {at}")
        }
        Err(CheckRefusal::NoMemory) => Err(AllocError),
    }
}

/// The number of nodes of a unit without a fault.
fn counted(alloc: Global, text: &[u8]) -> Result<Option<u64>, AllocError> {
    match units_of(alloc, &[text])? {
        Some(units) => Ok(count(alloc, units.as_slice(), false).ok()),
        None => Ok(None),
    }
}

/// The rows of which something else is said, each with that.
fn differing(alloc: Global, rows: &[Row]) -> Result<String, AllocError> {
    let mut lines = String::new(alloc);
    for (text, want) in rows {
        let line = told(alloc, &[*text], false)?;
        if line.as_str() != *want {
            write!(lines, "{text:?}: {line}; ")?;
        }
    }
    Ok(lines)
}

fn check_units(rt: &impl Abort, alloc: Global, rows: &[Row]) -> Result<(), AllocError> {
    let lines = differing(alloc, rows)?;
    assert!(rt; lines.is_empty(), "{lines}");
    Ok(())
}

#[test]
fn names(rt: HostRuntime) -> Result<(), Fail> {
    check_units(&rt, rt.alloc(), &NAMES)?;
    Ok(())
}

#[test]
fn types(rt: HostRuntime) -> Result<(), Fail> {
    check_units(&rt, rt.alloc(), &TYPES)?;
    Ok(())
}

#[test]
fn places(rt: HostRuntime) -> Result<(), Fail> {
    check_units(&rt, rt.alloc(), &PLACES)?;
    Ok(())
}

#[test]
fn operands(rt: HostRuntime) -> Result<(), Fail> {
    check_units(&rt, rt.alloc(), &OPERANDS)?;
    Ok(())
}

#[test]
fn calls(rt: HostRuntime) -> Result<(), Fail> {
    check_units(&rt, rt.alloc(), &CALLS)?;
    Ok(())
}

#[test]
fn initials_jumps_and_adjustors(rt: HostRuntime) -> Result<(), Fail> {
    check_units(&rt, rt.alloc(), &REST)?;
    Ok(())
}

#[test]
fn kinds_that_meet(rt: HostRuntime) -> Result<(), Fail> {
    check_units(&rt, rt.alloc(), &MEETING)?;
    Ok(())
}

#[test]
fn order_of_visit(rt: HostRuntime) -> Result<(), Fail> {
    check_units(&rt, rt.alloc(), &ORDER)?;
    Ok(())
}

fn differing_programs(alloc: Global, rows: &[Program]) -> Result<String, AllocError> {
    let mut lines = String::new(alloc);
    for (texts, want) in rows {
        let line = told(alloc, texts, true)?;
        if line.as_str() != *want {
            write!(lines, "{texts:?}: {line}; ")?;
        }
    }
    Ok(lines)
}

#[test]
fn programs(rt: HostRuntime) -> Result<(), Fail> {
    let lines = differing_programs(rt.alloc(), &PROGRAMS)?;
    assert!(rt; lines.is_empty(), "{lines}");
    Ok(())
}

fn differing_counts(alloc: Global, rows: &[Counted]) -> Result<String, AllocError> {
    let mut lines = String::new(alloc);
    for (text, want) in rows {
        let nodes = counted(alloc, text)?;
        if nodes != Some(*want) {
            write!(lines, "{text:?}: {nodes:?}; ")?;
        }
    }
    Ok(lines)
}

#[test]
fn nodes(rt: HostRuntime) -> Result<(), Fail> {
    let lines = differing_counts(rt.alloc(), &COUNTED)?;
    assert!(rt; lines.is_empty(), "{lines}");
    Ok(())
}
