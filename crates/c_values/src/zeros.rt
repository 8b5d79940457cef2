ghost use Rattle.std.specs.Prelude.{◌≡◌, IfOk, map, replicate, slice_get};
ghost use Rattle.c_types.specs.Layout.{depth_of};
ghost use Rattle.c_values.specs.Objects.{zero_field, zero_struct, zero_element, zero_within, zero_of};

use crate::objects::copy_value;
use crate::parts::Parts;
use crate::value::Value;
use c_types::{FieldDef, Ty, Types};
use std::alloc::{AllocError, Global};

/// A value is kept as a tree, which is made, copied and let go by recursion: as many levels of it as a stack of 8 MiB
/// holds for certain.
const LEVELS: u64 = 4096;

/// As many places as a `u32` can name.
const PLACES: u64 = 1 << 32;

/// More than the types on a way from a type to a part of it, where no type is a part of itself.
fn depth(types: &Types) -> u64
    ensures { result ≡ depth_of types.now }
{
    let tys = (types.tys.len() as u64).min(PLACES);
    let structs = (types.structs.len() as u64).min(PLACES);
    tys + structs + 1
}

/// So many copies of a value.
#[tactic(auto, using(crate::proofs::ZeroLaws::one_more))]
fn row(alloc: Global, element: &Value, count: u64) -> Result<Parts<Value>, AllocError>
    ensures { IfOk result (λ row. row ≡ replicate count element.now) }
{
    let mut row = Parts::new(alloc);
    for _ in 0..count {
        row.push(copy_value(alloc, element)?)?;
    }
    Ok(row)
}

#[cycle(zero)]
fn zero_fields(
    alloc: Global,
    types: &Types,
    fields: &[FieldDef],
    depth: u64,
    levels: u64,
) -> Result<Parts<Value>, AllocError>
    ensures { IfOk result (λ parts. parts ≡ map (zero_field (zero_within depth types.now)) fields.now) }
{
    let mut parts = Parts::new(alloc);
    for field in fields {
        parts.push(zero_at(alloc, types, field.ty, depth, levels)?)?;
    }
    Ok(parts)
}

#[cycle(zero)]
fn zero_parts(
    alloc: Global,
    types: &Types,
    place: u32,
    depth: u64,
    levels: u64,
) -> Result<Parts<Value>, AllocError>
    ensures { IfOk result (λ parts. parts ≡ zero_struct (zero_within depth types.now) (slice_get types.now.structs place)) }
{
    match types.structs.get(place as usize) {
        Some(definition) => zero_fields(alloc, types, definition.fields.as_slice(), depth, levels),
        None => Ok(Parts::new(alloc)),
    }
}

#[cycle(zero)]
fn zero_row(
    alloc: Global,
    types: &Types,
    place: u32,
    count: u64,
    depth: u64,
    levels: u64,
) -> Result<Parts<Value>, AllocError>
    ensures { IfOk result (λ parts. parts ≡ replicate count (zero_element (zero_within depth types.now) (slice_get types.now.tys place))) }
{
    match types.tys.get(place as usize) {
        Some(element) => {
            let element = zero_at(alloc, types, *element, depth, levels)?;
            row(alloc, &element, count)
        }
        None => row(alloc, &Value::Number(0), count),
    }
}

/// The zero of a type whose parts are nested less deep than `depth`; want of memory where they are nested deeper than
/// so many levels.
#[cycle(zero)]
#[tactic(auto, using(crate::proofs::ZeroLaws::zero_step, crate::proofs::ZeroLaws::zero_base))]
fn zero_at(
    alloc: Global,
    types: &Types,
    ty: Ty,
    depth: u64,
    levels: u64,
) -> Result<Value, AllocError>
    ensures { IfOk result (λ v. v ≡ zero_within depth types.now ty) }
{
    if depth == 0 {
        return Ok(Value::Number(0));
    }
    if levels == 0 {
        return Err(AllocError);
    }
    match ty {
        Ty::Void | Ty::Int(_) => Ok(Value::Number(0)),
        Ty::Ptr(_) | Ty::Fun(_) => Ok(Value::Null),
        Ty::Struct(place) => Ok(Value::Aggregate(zero_parts(
            alloc,
            types,
            place,
            depth - 1,
            levels - 1,
        )?)),
        Ty::Array(place, count) => Ok(Value::Aggregate(zero_row(
            alloc,
            types,
            place,
            count,
            depth - 1,
            levels - 1,
        )?)),
    }
}

/// The zero of a type: 0, null, or the zeros of all parts. Want of memory also where its parts are nested deeper than
/// 4,096 levels.
pub fn zero(alloc: Global, types: &Types, ty: Ty) -> Result<Value, AllocError>
    ensures { IfOk result (λ v. v ≡ zero_of types.now ty) }
{
    zero_at(alloc, types, ty, depth(types), LEVELS)
}
