//! The state in which a run begins.
ghost use Rattle.std.specs.Prelude.{◌≡◌, IfOk, map, pos};
ghost use Rattle.c_values.specs.Numbers.{wrapped};
ghost use Rattle.c_meaning.specs.Start.{initial as initial_in, filled, global_value, main_of as main_in};

use c_program::{Constant, GlobalDef, Program, Target};
use c_types::IntTy;
use c_values::{Object, Parts, Root, Value, wrap, zero};
use hx_words::Items;
use std::alloc::{AllocError, Global};

/// The first parts by their constants, and the others as they are.
#[cycle(initial)]
fn fill(
    alloc: Global,
    constants: &[Constant],
    zeros: Parts<Value>,
) -> Result<Parts<Value>, AllocError>
    ensures { IfOk result (λ parts. parts ≡ filled (map initial_in constants.now) zeros) }
{
    let mut parts = zeros;
    let count = constants.len().min(parts.as_slice().len());
    for at in 0..count {
        let part = parts.replace(at, Value::Null);
        parts.set(at, initial(alloc, &constants[at], part)?);
    }
    Ok(parts)
}

fn number_constant(int: IntTy, n: u64) -> Value
    ensures { result ≡ Value.Number (wrapped int (pos n)) }
{
    Value::Number(wrap(int, n as i128))
}

/// What a constant makes of the zero of its type.
#[cycle(initial)]
#[tactic(auto, using(crate::proofs::ConstantLaws::initials))]
fn initial(alloc: Global, constant: &Constant, zero: Value) -> Result<Value, AllocError>
    ensures { IfOk result (λ v. v ≡ initial_in constant.now zero) }
{
    match constant {
        Constant::Zero => Ok(zero),
        Constant::Number(int, n) => Ok(number_constant(*int, *n)),
        Constant::Address(g, path) => Ok(Value::Pointer(Object {
            root: Root::Global(*g),
            path: Items::from_slice(alloc, path.as_slice())?,
        })),
        Constant::Function(t) => Ok(Value::Function(*t)),
        Constant::List(constants) => {
            let zeros = match zero {
                Value::Aggregate(parts) => parts,
                Value::Number(_) | Value::Null | Value::Pointer(_) | Value::Function(_) => {
                    Parts::new(alloc)
                }
            };
            Ok(Value::Aggregate(fill(alloc, constants.as_slice(), zeros)?))
        }
    }
}

fn global(alloc: Global, p: &Program, g: &GlobalDef) -> Result<Value, AllocError>
    ensures { IfOk result (λ v. v ≡ global_value p.now.types g.now) }
{
    let zero = zero(alloc, &p.types, g.ty)?;
    match &g.body {
        Some(body) => {
            let value = initial(alloc, body.init.get(), zero)?;
            Ok(value)
        }
        None => Ok(zero),
    }
}

/// The values of the globals at the start.
pub fn globals(alloc: Global, p: &Program) -> Result<Parts<Value>, AllocError>
    ensures { IfOk result (λ values. values ≡ map (global_value p.now.types) p.now.globals) }
{
    let mut values = Parts::new(alloc);
    for g in p.globals.as_slice() {
        values.push(global(alloc, p, g)?)?;
    }
    Ok(values)
}

/// The first function of the name `main`, or the number behind the last function.
pub fn main_of(p: &Program) -> Result<Target, AllocError>
    ensures { IfOk result (λ main. main ≡ main_in p.now) }
{
    let mut at: u32 = 0;
    for f in p.functions.as_slice() {
        if b"main".as_slice() == f.name.as_slice() {
            return Ok(Target::Function(at));
        }
        at = at.checked_add(1).ok_or(AllocError)?;
    }
    Ok(Target::Function(at))
}
