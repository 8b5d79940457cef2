//! The sides that a marking gives.

ghost use Rattle.std.specs.Prelude.{◌≡◌, map, IfOk, IfErr, OnOk, option_map};
ghost use Rattle.ec_words.specs.Markings.{marks_of, base_side, other_side, side_of, sides_from, unknown_mark, is_among, TellsMark};

use crate::markings::{BaseMarking, Marking};
use hx_names::Side;
use std::alloc::{AllocError, Global};
use thiserror::Error;

/// Why a marking gives no sides.
#[derive(Debug, Drop, Error)]
pub enum MarkRefusal {
    /// The first name of the marking that no function and no adjustor has.
    #[error("a name that nothing defines")]
    Unknown(Vec<u8>),
    /// Memory ran out.
    #[error("out of memory")]
    NoMemory,
}

/// The side that a base gives the definition of this number.
fn base_side(base: BaseMarking, number: u64) -> Side
    ensures { result ≡ base_side base number }
{
    let bit = match base {
        BaseMarking::X64 => 0,
        BaseMarking::Ec => 1,
        BaseMarking::Alternate => number % 2,
        BaseMarking::Pattern(digit) => match number % 3 {
            0 => u64::from(digit % 2),
            1 => u64::from(digit / 2 % 2),
            _ => u64::from(digit / 4 % 2),
        },
    };
    if bit == 1 { Side::Ec } else { Side::X64 }
}

fn other_side(side: Side) -> Side
    ensures { result ≡ other_side side }
{
    match side {
        Side::X64 => Side::Ec,
        Side::Ec => Side::X64,
    }
}

/// Whether the marking names this definition.
fn is_turned(turned: &[Vec<u8>], name: &[u8]) -> bool
    ensures { result ≡ is_among (map (λ n. n.items) turned.now) name.now }
{
    for n in turned {
        if n.as_slice() == name {
            return true;
        }
    }
    false
}

/// Whether a definition has this name.
fn is_defined(names: &[&[u8]], name: &[u8]) -> bool
    ensures { result ≡ is_among (map (λ n. n.now) names.now) name.now }
{
    for n in names {
        if *n == name {
            return true;
        }
    }
    false
}

/// The first of the names that are turned that no definition has.
fn unknown_mark<'a>(turned: &'a [Vec<u8>], names: &[&[u8]]) -> Option<&'a [u8]>
    ensures { option_map (λ n. n.now) result ≡ unknown_mark (map (λ n. n.items) turned.entry.now) (map (λ n. n.now) names.now) }
{
    for name in turned {
        if !is_defined(names, name) {
            return Some(name.as_slice());
        }
    }
    None
}

/// The side of the definition of this number and name.
fn side_of(marking: &Marking, number: u64, name: &[u8]) -> Side
    ensures { result ≡ side_of (marks_of marking.now) number name.now }
{
    let side = base_side(marking.base, number);
    if is_turned(&marking.turned, name) {
        other_side(side)
    } else {
        side
    }
}

/// The sides of the definitions with these names.
fn all_sides(alloc: Global, marking: &Marking, names: &[&[u8]]) -> Result<Vec<Side>, AllocError>
    ensures { IfOk result (λ sides. sides.items ≡ sides_from (marks_of marking.now) 0 (map (λ n. n.now) names.now)) }
{
    let mut sides = Vec::with_capacity(alloc, names.len())?;
    for (number, name) in names.iter().enumerate() {
        sides.push(side_of(marking, number as u64, name))?;
    }
    Ok(sides)
}

/// The refusal that tells this name.
fn unknown(alloc: Global, name: &[u8]) -> MarkRefusal
    ensures { TellsMark (Some name.now) result }
{
    match Vec::from_slice(alloc, name) {
        Ok(name) => MarkRefusal::Unknown(name),
        Err(AllocError) => MarkRefusal::NoMemory,
    }
}

/// The sides of the functions and adjustors with these names, in order of definition.
///
/// `Unknown` gives the first name of the marking that none of them has.
pub fn sides_of(alloc: Global, marking: &Marking, names: &[&[u8]]) -> Result<Vec<Side>, MarkRefusal>
    ensures sides { IfOk result (λ sides. sides.items ≡ sides_from (marks_of marking.now) 0 (map (λ n. n.now) names.now)) }
    ensures known { OnOk result (unknown_mark (marks_of marking.now).turned (map (λ n. n.now) names.now) ≡ None) }
    ensures refused { IfErr result (TellsMark (unknown_mark (marks_of marking.now).turned (map (λ n. n.now) names.now))) }
{
    if let Some(name) = unknown_mark(&marking.turned, names) {
        return Err(unknown(alloc, name));
    }
    match all_sides(alloc, marking, names) {
        Ok(sides) => Ok(sides),
        Err(AllocError) => Err(MarkRefusal::NoMemory),
    }
}
