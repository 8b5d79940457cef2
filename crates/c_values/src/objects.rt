ghost use Rattle.std.specs.Prelude.{◌≡◌, ◌∷◌, ◌++◌, IfOk, MatchOption, get_or, slice_get, slice_set};
ghost use Rattle.c_values.specs.Objects.{nothing, parts_of, place_in, part_of, read_path, write_path};

use crate::parts::Parts;
use crate::value::{Object, Value};
use c_program::PathStep;
use hx_words::Items;
use std::alloc::{AllocError, Global};

/// The same object.
pub fn copy_object(alloc: Global, o: &Object) -> Result<Object, AllocError>
    ensures { IfOk result (λ copy. copy ≡ o.now) }
{
    let path = Items::from_slice(alloc, o.path.as_slice())?;
    Ok(Object { root: o.root, path })
}

#[cycle(copy)]
fn copy_parts(alloc: Global, parts: &[Value]) -> Result<Parts<Value>, AllocError>
    ensures { IfOk result (λ copy. copy ≡ parts.now) }
{
    let mut copy = Parts::new(alloc);
    for part in parts {
        copy.push(copy_value(alloc, part)?)?;
    }
    Ok(copy)
}

/// The same value.
#[cycle(copy)]
pub fn copy_value(alloc: Global, v: &Value) -> Result<Value, AllocError>
    ensures { IfOk result (λ copy. copy ≡ v.now) }
{
    match v {
        Value::Number(z) => Ok(Value::Number(*z)),
        Value::Null => Ok(Value::Null),
        Value::Pointer(o) => Ok(Value::Pointer(copy_object(alloc, o)?)),
        Value::Function(t) => Ok(Value::Function(*t)),
        Value::Aggregate(parts) => Ok(Value::Aggregate(copy_parts(alloc, parts.as_slice())?)),
    }
}

/// The number of a part.
pub fn place(step: PathStep) -> u64
    ensures { result ≡ place_in step }
{
    match step {
        PathStep::Field(k) => k as u64,
        PathStep::Element(k) => k,
    }
}

/// A part of a value; none where the value has no such part.
#[tactic(auto, using(crate::proofs::ValueLaws::parts))]
pub fn part(v: &Value, step: PathStep) -> Option<&Value>
    ensures { MatchOption result (part_of v.now step ≡ nothing) (λ part. part.now ≡ part_of v.now step) }
{
    match v {
        Value::Aggregate(parts) => parts.as_slice().get(place(step) as usize),
        Value::Number(_) | Value::Null | Value::Pointer(_) | Value::Function(_) => None,
    }
}

/// What stands where a path leads; none where it leads to nothing.
pub fn find<'a>(v: &'a Value, path: &[PathStep]) -> Option<&'a Value>
    ensures { MatchOption result (read_path v.now path.now ≡ nothing) (λ found. found.now ≡ read_path v.now path.now) }
{
    let mut found = v;
    for step in path {
        match part(found, *step) {
            Some(part) => found = part,
            None => return None,
        }
    }
    Some(found)
}

/// The parts with another value where a path leads in one of them.
#[cycle(write)]
#[tactic(auto, using(crate::proofs::ValueLaws::part_beyond, crate::proofs::ValueLaws::part_put))]
fn with_part(mut parts: Parts<Value>, at: usize, path: &[PathStep], new: Value) -> Parts<Value>
    ensures { result ≡ slice_set parts at (write_path (get_or parts at nothing) path.now new) }
{
    if at >= parts.as_slice().len() {
        return parts;
    }
    let part = parts.replace(at, Value::Null);
    parts.set(at, write(part, path, new));
    parts
}

/// The value with another where a path leads.
#[cycle(write)]
#[tactic(auto, using(crate::proofs::ValueLaws::writes))]
pub fn write(v: Value, path: &[PathStep], new: Value) -> Value
    ensures { result ≡ write_path v path.now new }
{
    let Some((step, rest)) = path.split_first() else {
        return new;
    };
    match v {
        Value::Aggregate(parts) => Value::Aggregate(with_part(
            parts,
            place(*step) as usize,
            rest,
            new,
        )),
        Value::Number(z) => Value::Number(z),
        Value::Null => Value::Null,
        Value::Pointer(o) => Value::Pointer(o),
        Value::Function(t) => Value::Function(t),
    }
}
