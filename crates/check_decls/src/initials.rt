ghost use Rattle.std.specs.Prelude.{◌≡◌, IfOk, map};
ghost use Rattle.c_typing.specs.Visits.{Tells, fault};
ghost use Rattle.c_typing.specs.declared.faults.TypeKind.TheVariants.{BadInitial};
ghost use Rattle.c_typing.specs.TypeForms.{fields_at};
ghost use Rattle.c_typing.specs.Initials.{for_type, number_at, char_at, chars, text_in, text_at, valueless, function_at, address_at, part_at, name_means, name_at, part_in, part_type, has_parts, for_parts, braced, list_at, start_or, visit_init, visit_optional_init};
ghost use Rattle.check_decls.specs.Steps.{part_of};

use crate::numbers::{char_constant, number_constant, number_of};
use crate::paths::{FoundPart, check_no_part, part_by_path};
use c_program::{Constant, Target};
use c_tree::{Init, Literal, Name, Step};
use c_types::{FieldDef, IntTy, Span, Ty, Types};
use c_typing::{Meaning, Refusal, TypeKind, UnitScope};
use check_types::{
    bytes, find_meaning, find_service, is_array_type, is_same_type, refusal, type_at,
};
use hx_words::{Boxed, Items};
use std::alloc::{AllocError, Global};

fn fields_of(types: &Types, place: u32) -> &[FieldDef]
    ensures { result.now ≡ fields_at types.now place }
{
    match types.structs.get(place as usize) {
        Some(s) => s.fields.as_slice(),
        None => &[],
    }
}

fn bad_initial(at: u32) -> Result<Constant, Refusal>
    ensures { Tells (Err (fault BadInitial at)) result }
{
    Err(refusal(TypeKind::BadInitial, at))
}

fn char_constants(alloc: Global, i: IntTy, text: &[u8]) -> Result<Items<Constant>, AllocError>
    ensures { IfOk result (λ cs. cs ≡ chars i text.now) }
{
    let mut constants = Items::new(alloc);
    for b in text {
        constants.push(Constant::Number(i, number_of(i, u64::from(*b))))?;
    }
    Ok(constants)
}

fn text_elements(
    alloc: Global,
    at: u32,
    text: &[u8],
    length: u64,
    element: Ty,
) -> Result<Constant, Refusal>
    ensures { Tells (text_in at text.now length element) result }
{
    match element {
        Ty::Int(i) if bytes(i) == 1 && text.len() as u64 <= length => {
            Ok(Constant::List(char_constants(alloc, i, text)?))
        }
        _ => bad_initial(at),
    }
}

/// A text as the initial value of a type (C11, 6.7.9p14).
fn text_constant(
    alloc: Global,
    at: u32,
    types: &Types,
    text: &[u8],
    ty: Ty,
) -> Result<Constant, Refusal>
    ensures { Tells (text_at at types.now text.now ty) result }
{
    match ty {
        Ty::Array(place, length) => {
            Ok(text_elements(alloc, at, text, length, type_at(types, place))?)
        }
        _ => bad_initial(at),
    }
}

fn text_constant_for(
    alloc: Global,
    at: u32,
    types: &Types,
    text: &[u8],
    ty: Option<Ty>,
) -> Result<Constant, Refusal>
    ensures { Tells (for_type (text_at at types.now text.now) ty) result }
{
    match ty {
        Some(ty) => Ok(text_constant(alloc, at, types, text, ty)?),
        None => Ok(Constant::Zero),
    }
}

fn number_constant_for(
    at: u32,
    minus: Option<Span>,
    n: Literal,
    ty: Option<Ty>,
) -> Result<Constant, Refusal>
    ensures { Tells (for_type (number_at at minus n) ty) result }
{
    match ty {
        Some(ty) => Ok(number_constant(at, minus, n, ty)?),
        None => Ok(Constant::Zero),
    }
}

fn char_constant_for(at: u32, c: i32, ty: Option<Ty>) -> Result<Constant, Refusal>
    ensures { Tells (for_type (char_at at c) ty) result }
{
    match ty {
        Some(ty) => Ok(char_constant(at, c, ty)?),
        None => Ok(Constant::Zero),
    }
}

fn function_constant(at: u32, fun: u32, target: Target, ty: Ty) -> Result<Constant, Refusal>
    ensures { Tells (function_at at fun target ty) result }
{
    if is_same_type(Ty::Fun(fun), ty) {
        Ok(Constant::Function(target))
    } else {
        bad_initial(at)
    }
}

/// What has no value, and no address after `&`.
fn valueless_constant(at: u32, and: Option<Span>) -> Result<Constant, Refusal>
    ensures { Tells (valueless at and) result }
{
    match and {
        Some(_) => Err(refusal(TypeKind::NotPlace, at)),
        None => Err(refusal(TypeKind::NotValue, at)),
    }
}

/// The name of a function, for a type if there is one.
fn function_constant_for(
    at: u32,
    fun: u32,
    target: Target,
    ty: Option<Ty>,
) -> Result<Constant, Refusal>
    ensures { Tells (for_type (function_at at fun target) ty) result }
{
    match ty {
        Some(ty) => Ok(function_constant(at, fun, target, ty)?),
        None => Ok(Constant::Zero),
    }
}

/// The address of a part of a global.
fn address_constant(
    at: u32,
    global: u32,
    types: &Types,
    part: FoundPart,
    ty: Ty,
) -> Result<Constant, Refusal>
    ensures { Tells (address_at at global types.now (part_of part) ty) result }
{
    match ty {
        Ty::Ptr(place) if is_same_type(type_at(types, place), part.ty) => {
            Ok(Constant::Address(global, part.path))
        }
        _ => bad_initial(at),
    }
}

/// A part of a global, whose address may be a constant.
fn part_constant(
    at: u32,
    and: Option<Span>,
    global: u32,
    types: &Types,
    part: FoundPart,
    ty: Option<Ty>,
) -> Result<Constant, Refusal>
    ensures { Tells (part_at at and global types.now (part_of part) ty) result }
{
    if is_array_type(part.ty) {
        return Ok(valueless_constant(at, and)?);
    }
    if and.is_none() || !part.inside {
        return bad_initial(at);
    }
    match ty {
        Some(ty) => Ok(address_constant(at, global, types, part, ty)?),
        None => Ok(Constant::Zero),
    }
}

fn means_constant(
    alloc: Global,
    at: u32,
    types: &Types,
    and: Option<Span>,
    steps: &[Step],
    meaning: Option<Meaning>,
    ty: Option<Ty>,
) -> Result<Constant, Refusal>
    ensures { Tells (name_means at types.now and steps.now meaning ty) result }
{
    match meaning {
        None | Some(Meaning::Typedef(_)) => {
            check_no_part(steps)?;
            Ok(valueless_constant(at, and)?)
        }
        Some(Meaning::Function(f, fun)) => {
            check_no_part(steps)?;
            Ok(function_constant_for(at, fun, Target::Function(f), ty)?)
        }
        Some(Meaning::Adjustor(a, fun)) => {
            check_no_part(steps)?;
            Ok(function_constant_for(at, fun, Target::Adjustor(a), ty)?)
        }
        Some(Meaning::Global(g, whole)) => {
            let part = part_by_path(alloc, types, steps, whole)?;
            Ok(part_constant(at, and, g, types, part, ty)?)
        }
    }
}

/// A name with steps behind it, and a `&` before it or not (C11, 6.6p9).
fn name_constant(
    alloc: Global,
    unit: &UnitScope,
    types: &Types,
    and: Option<Span>,
    name: &Name,
    steps: &[Step],
    ty: Option<Ty>,
) -> Result<Constant, Refusal>
    ensures { Tells (name_at (start_or and name.now.span.start) unit.now types.now and name.now steps.now ty) result }
{
    let at = start_of(and, name.span.start);
    let meaning = find_meaning(unit, name.text.as_slice());
    if meaning.is_none() && find_service(name.text.as_slice()).is_none() {
        return Err(refusal(TypeKind::Unknown, at));
    }
    Ok(means_constant(alloc, at, types, and, steps, meaning, ty)?)
}

fn start_of(sign: Option<Span>, at: u32) -> u32
    ensures { result ≡ start_or sign at }
{
    match sign {
        Some(s) => s.start,
        None => at,
    }
}

/// The type of the part of this number of a type: a field, or an element.
fn part_in_type(types: &Types, number: u64, ty: Ty) -> Option<Ty>
    ensures { result ≡ part_in types.now number ty }
{
    match ty {
        Ty::Struct(place) => match fields_of(types, place).get(number as usize) {
            Some(field) => Some(field.ty),
            None => None,
        },
        Ty::Array(place, length) if number < length => Some(type_at(types, place)),
        _ => None,
    }
}

fn type_of_part(types: &Types, number: u64, ty: Option<Ty>) -> Option<Ty>
    ensures { result ≡ part_type types.now number ty }
{
    match ty {
        Some(ty) => part_in_type(types, number, ty),
        None => None,
    }
}

fn has_so_many_parts(types: &Types, count: u64, ty: Ty) -> bool
    ensures { result ≡ has_parts types.now count ty }
{
    match ty {
        Ty::Struct(place) => count <= fields_of(types, place).len() as u64,
        Ty::Array(_, length) => count <= length,
        _ => false,
    }
}

/// Values in braces, which are no more than the parts of their type, if there is one.
fn braced_constant(
    at: u32,
    types: &Types,
    constants: Items<Constant>,
    ty: Option<Ty>,
) -> Result<Constant, Refusal>
    ensures { Tells (for_type (braced at types.now constants) ty) result }
{
    match ty {
        Some(ty) if has_so_many_parts(types, constants.len() as u64, ty) => {
            Ok(Constant::List(constants))
        }
        Some(_) => bad_initial(at),
        None => Ok(Constant::Zero),
    }
}

/// Values in braces for the parts of a type, the first for the first.
#[cycle(inits)]
fn part_constants(
    alloc: Global,
    unit: &UnitScope,
    types: &Types,
    inits: &[Init],
    ty: Option<Ty>,
) -> Result<Items<Constant>, Refusal>
    ensures { Tells (for_parts types.now ty 0 (map (visit_init unit.now types.now) inits.now)) result }
{
    let mut constants = Items::new(alloc);
    for (k, init) in inits.iter().enumerate() {
        let part = type_of_part(types, k as u64, ty);
        constants.push(constant_of(alloc, unit, types, init, part)?)?;
    }
    Ok(constants)
}

#[cycle(inits)]
fn list_constant(
    alloc: Global,
    at: u32,
    unit: &UnitScope,
    types: &Types,
    inits: &[Init],
    ty: Option<Ty>,
) -> Result<Constant, Refusal>
    ensures { Tells (list_at at types.now (map (visit_init unit.now types.now) inits.now) ty) result }
{
    let constants = part_constants(alloc, unit, types, inits, ty)?;
    Ok(braced_constant(at, types, constants, ty)?)
}

/// An initial value of a part of a global of this type, if there is the part (C11, 6.7.9).
#[cycle(inits)]
#[tactic(auto, using(c_typing::proofs::InitLaws::init_visits))]
fn constant_of(
    alloc: Global,
    unit: &UnitScope,
    types: &Types,
    init: &Init,
    ty: Option<Ty>,
) -> Result<Constant, Refusal>
    ensures { Tells (visit_init unit.now types.now init.now ty) result }
{
    match init {
        Init::Number(minus, n) => {
            let at = start_of(*minus, n.span.start);
            Ok(number_constant_for(at, *minus, *n, ty)?)
        }
        Init::Char(c, at) => Ok(char_constant_for(at.start, *c, ty)?),
        Init::Text(text, at) => {
            Ok(text_constant_for(alloc, at.start, types, text.as_slice(), ty)?)
        }
        Init::Name(and, name, steps) => {
            Ok(name_constant(alloc, unit, types, *and, name, steps.as_slice(), ty)?)
        }
        Init::List(at, inits) => {
            Ok(list_constant(alloc, at.start, unit, types, inits.as_slice(), ty)?)
        }
    }
}

/// What a global of this type begins with: its initial value, or zero (C11, 6.7.9p10).
///
/// # Errors
///
/// The first fault in the value, or want of memory.
pub fn optional_constant(
    alloc: Global,
    unit: &UnitScope,
    types: &Types,
    init: &Option<Boxed<Init>>,
    ty: Ty,
) -> Result<Constant, Refusal>
    ensures { Tells (visit_optional_init unit.now types.now init.now ty) result }
{
    match init {
        Some(init) => Ok(constant_of(alloc, unit, types, init.get(), Some(ty))?),
        None => Ok(Constant::Zero),
    }
}
