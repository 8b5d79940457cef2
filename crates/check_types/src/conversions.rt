ghost use Rattle.std.specs.Prelude.{◌≡◌, IfOk, if◌then◌else◌};
ghost use Rattle.c_typing.specs.TypeForms.{is_void};
ghost use Rattle.check_types.specs.Unlike.{unlike_joined};
ghost use Rattle.c_typing.specs.Visits.{Tells};
ghost use Rattle.c_typing.specs.Conversions.{converted, as_read, as_given, as_function, as_value, tree_of, as_effect, as_scalar, is_zero, is_null, to_same, to_integer, converted_to, joined};

use crate::forms::{as_integer, is_array_type, is_pointer_type, is_struct_type, is_void_type};
use crate::integers::common_type;
use crate::refusals::refusal;
use crate::same::{is_same_int, is_same_type};
use c_program::{Place, Target, TypedExpr};
use c_types::{IntTy, Ty};
use c_typing::{Designated, Operand, Refusal, TypeKind, Value};
use hx_words::Boxed;
use std::alloc::{AllocError, Global};

/// An integer in another integer type; the conversion is written out where the types differ.
///
/// # Errors
///
/// Want of memory.
#[tactic(auto, unfolding(c_typing::specs::Conversions::converted))]
pub fn convert(
    alloc: Global,
    to: IntTy,
    from: IntTy,
    e: Boxed<TypedExpr>,
) -> Result<Boxed<TypedExpr>, AllocError>
    ensures { IfOk result (λ r. r ≡ converted to from e) }
{
    if is_same_int(to, from) {
        Ok(e)
    } else {
        Boxed::new(alloc, TypedExpr::Convert(to, e))
    }
}

/// What a place holds.
fn read(alloc: Global, at: u32, ty: Ty, place: Boxed<Place>) -> Result<Value, Refusal>
    ensures { Tells (as_read at ty place) result }
{
    if is_array_type(ty) {
        return Err(refusal(TypeKind::NotValue, at));
    }
    let tree = Boxed::new(alloc, TypedExpr::Load(ty, place))?;
    Ok(Value {
        ty,
        tree,
        literal: None,
    })
}

fn usable(at: u32, value: Value) -> Result<Value, Refusal>
    ensures { Tells (as_given at value) result }
{
    if is_void_type(value.ty) || is_array_type(value.ty) {
        Err(refusal(TypeKind::NotValue, at))
    } else {
        Ok(value)
    }
}

/// The name of a function as a pointer to it (C11, 6.3.2.1p4).
fn pointer_to(alloc: Global, ty: u32, function: Target) -> Result<Value, AllocError>
    ensures { IfOk result (λ v. v ≡ as_function ty function) }
{
    let pointer = Ty::Fun(ty);
    let tree = Boxed::new(alloc, TypedExpr::Function(pointer, function))?;
    Ok(Value {
        ty: pointer,
        tree,
        literal: None,
    })
}

/// What an expression gives that is used as a value: a place is read (C11, 6.3.2.1p2), and nothing
/// makes a pointer of an array.
///
/// # Errors
///
/// [`TypeKind::NotValue`] for an array, void, a service's or a typedef's name and a `va_list`, and want
/// of memory.
#[tactic(auto, unfolding(c_typing::specs::Conversions::as_value))]
pub fn value_of(alloc: Global, operand: Operand) -> Result<Value, Refusal>
    ensures { Tells (as_value operand) result }
{
    let Operand { at, what } = operand;
    match what {
        Designated::Value(value) => usable(at, value),
        Designated::Place(ty, place, _) => read(alloc, at, ty, place),
        Designated::Function(ty, function) => Ok(pointer_to(alloc, ty, function)?),
        Designated::Service(_) | Designated::Typedef | Designated::VaList => {
            Err(refusal(TypeKind::NotValue, at))
        }
    }
}

/// An expression whose value is dropped, which may be void (C11, 6.8.3).
///
/// # Errors
///
/// As [`value_of`] but for void.
#[tactic(auto, unfolding(c_typing::specs::Conversions::as_effect, c_typing::specs::Conversions::as_value), using(crate::proofs::VisitLaws::tells_tree))]
pub fn effect_of(alloc: Global, operand: Operand) -> Result<Boxed<TypedExpr>, Refusal>
    ensures { Tells (as_effect operand) result }
{
    let Operand { at, what } = operand;
    match what {
        Designated::Value(value) => dropped_value(at, value),
        Designated::Place(ty, place, _) => Ok(read(alloc, at, ty, place)?.tree),
        Designated::Function(ty, function) => Ok(pointer_to(alloc, ty, function)?.tree),
        Designated::Service(_) | Designated::Typedef | Designated::VaList => {
            Err(refusal(TypeKind::NotValue, at))
        }
    }
}

fn dropped_value(at: u32, value: Value) -> Result<Boxed<TypedExpr>, Refusal>
    ensures { Tells (if is_void value.ty then Ok value.tree else tree_of (as_given at value)) result }
{
    if is_array_type(value.ty) {
        Err(refusal(TypeKind::NotValue, at))
    } else {
        Ok(value.tree)
    }
}

/// A condition, or an operand of `!`, `&&` or `||` (C11, 6.5.3.3, 6.5.13, 6.8.4.1): an integer, or a
/// pointer, which is true where it isn't null. No conversion is made.
///
/// # Errors
///
/// [`TypeKind::NotScalar`] for a struct.
#[tactic(auto, unfolding(c_typing::specs::Conversions::as_scalar))]
pub fn scalar_of(at: u32, value: Value) -> Result<Boxed<TypedExpr>, Refusal>
    ensures { Tells (as_scalar at value) result }
{
    if is_struct_type(value.ty) {
        Err(refusal(TypeKind::NotScalar, at))
    } else {
        Ok(value.tree)
    }
}

fn is_literal_zero(literal: Option<u64>) -> bool
    ensures { result ≡ is_zero literal }
{
    match literal {
        Some(n) => n == 0,
        None => false,
    }
}

/// Whether a value is the literal 0 where a pointer of this type is to stand (C11, 6.3.2.3p3).
pub fn makes_null(ty: Ty, value: &Value) -> bool
    ensures { result ≡ is_null ty value.now }
{
    is_pointer_type(ty) && is_literal_zero(value.literal)
}

fn to_same_type(alloc: Global, ty: Ty, value: Value) -> Result<Option<Boxed<TypedExpr>>, AllocError>
    ensures { IfOk result (λ r. r ≡ to_same ty value) }
{
    if is_same_type(ty, value.ty) {
        Ok(Some(value.tree))
    } else if makes_null(ty, &value) {
        let null = Boxed::new(alloc, TypedExpr::Null(ty))?;
        Ok(Some(null))
    } else {
        Ok(None)
    }
}

fn to_int(alloc: Global, to: IntTy, value: Value) -> Result<Option<Boxed<TypedExpr>>, AllocError>
    ensures { IfOk result (λ r. r ≡ to_integer to value) }
{
    match as_integer(value.ty) {
        Some(from) => {
            let tree = convert(alloc, to, from, value.tree)?;
            Ok(Some(tree))
        }
        None => Ok(None),
    }
}

/// A value in a type, as if by assignment (C11, 6.5.16.1); none where no conversion is allowed.
///
/// # Errors
///
/// Want of memory.
#[tactic(auto, unfolding(c_typing::specs::Conversions::converted_to))]
pub fn convert_to(
    alloc: Global,
    ty: Ty,
    value: Value,
) -> Result<Option<Boxed<TypedExpr>>, AllocError>
    ensures { IfOk result (λ r. r ≡ converted_to ty value) }
{
    match ty {
        Ty::Int(int) => to_int(alloc, int, value),
        Ty::Void | Ty::Ptr(_) | Ty::Fun(_) | Ty::Struct(_) | Ty::Array(_, _) => {
            to_same_type(alloc, ty, value)
        }
    }
}

fn join_unlike(left: &Value, right: &Value) -> Option<Ty>
    ensures { result ≡ unlike_joined left.now right.now }
{
    if is_same_type(left.ty, right.ty) {
        Some(left.ty)
    } else if makes_null(left.ty, right) {
        Some(left.ty)
    } else if makes_null(right.ty, left) {
        Some(right.ty)
    } else {
        None
    }
}

/// The type in which two values meet, as the sides of `?:` (C11, 6.5.15) and of `==` (6.5.9) do; none
/// where they meet in none.
#[tactic(auto, unfolding(c_typing::specs::Conversions::joined))]
pub fn join(left: &Value, right: &Value) -> Option<Ty>
    ensures { result ≡ joined left.now right.now }
{
    if let Some(i) = as_integer(left.ty) {
        if let Some(j) = as_integer(right.ty) {
            return Some(Ty::Int(common_type(i, j)));
        }
    }
    join_unlike(left, right)
}
