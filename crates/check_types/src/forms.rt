ghost use Rattle.std.specs.Prelude.{◌≡◌, ◌*◌, nat_lt, option_map};
ghost use Rattle.c_types.specs.Layout.{size_of};
ghost use Rattle.c_typing.specs.Scopes.{meaning_in, tag_in};
ghost use Rattle.c_typing.specs.declared.tables.Tables.{Tables};
ghost use Rattle.c_typing.specs.Visits.{Tells, Leaves};
ghost use Rattle.c_typing.specs.TypeForms.{complete_type, of_tag, of_typedef, most_bytes, is_void, is_array, is_struct, is_pointer, integer_in, base_type, pointer_type, starred, starred_if, formed_type, result_of, object_of, result_type, object_type, array_type, array_types, declared_type};
ghost use Rattle.check_types.specs.FormedTypes.{as_formed, formed_or};

use crate::refusals::refusal;
use crate::scopes::{find_meaning, find_tag};
use crate::tables::enter_ty;
use c_tree::{Base, Decl, Literal, Span, TypeName};
use c_types::{IntTy, Ty};
use c_typing::{Meaning, Refusal, Tables, TypeKind, UnitScope};
use measured_types::MeasuredTypes;

/// A type as it is written, and whether it is complete (C11, 6.2.5p22).
#[derive(Clone, Copy, Debug, PartialEq, Eq)]
pub struct FormedType {
    pub ty: Ty,
    pub complete: bool,
}

/// No array and no struct takes more bytes.
pub const MOST_BYTES: u64 = 33_554_432;

pub fn is_void_type(ty: Ty) -> bool
    ensures { result ≡ is_void ty }
{
    match ty {
        Ty::Void => true,
        Ty::Int(_) | Ty::Ptr(_) | Ty::Fun(_) | Ty::Struct(_) | Ty::Array(_, _) => false,
    }
}

pub fn is_array_type(ty: Ty) -> bool
    ensures { result ≡ is_array ty }
{
    match ty {
        Ty::Array(_, _) => true,
        Ty::Void | Ty::Int(_) | Ty::Ptr(_) | Ty::Fun(_) | Ty::Struct(_) => false,
    }
}

pub fn is_struct_type(ty: Ty) -> bool
    ensures { result ≡ is_struct ty }
{
    match ty {
        Ty::Struct(_) => true,
        Ty::Void | Ty::Int(_) | Ty::Ptr(_) | Ty::Fun(_) | Ty::Array(_, _) => false,
    }
}

/// Whether a type is a pointer to an object or to a function.
pub fn is_pointer_type(ty: Ty) -> bool
    ensures { result ≡ is_pointer ty }
{
    match ty {
        Ty::Ptr(_) | Ty::Fun(_) => true,
        Ty::Void | Ty::Int(_) | Ty::Struct(_) | Ty::Array(_, _) => false,
    }
}

/// The integer type that a type is.
pub fn as_integer(ty: Ty) -> Option<IntTy>
    ensures { result ≡ integer_in ty }
{
    match ty {
        Ty::Int(int) => Some(int),
        Ty::Void | Ty::Ptr(_) | Ty::Fun(_) | Ty::Struct(_) | Ty::Array(_, _) => None,
    }
}

fn complete_type_of(ty: Ty) -> Option<FormedType>
    ensures { option_map as_formed result ≡ Some (complete_type ty) }
{
    Some(FormedType { ty, complete: true })
}

fn struct_named(unit: &UnitScope, tag: &[u8]) -> Option<FormedType>
    ensures { option_map as_formed result ≡ of_tag (tag_in unit.now.tags tag.now) }
{
    match find_tag(unit, tag) {
        Some(tag) => Some(FormedType {
            ty: Ty::Struct(tag.place),
            complete: tag.complete,
        }),
        None => None,
    }
}

fn typedef_named(unit: &UnitScope, name: &[u8]) -> Option<FormedType>
    ensures { option_map as_formed result ≡ of_typedef (meaning_in unit.now.names name.now) }
{
    match find_meaning(unit, name) {
        Some(Meaning::Typedef(place)) => complete_type_of(Ty::Fun(place)),
        Some(Meaning::Function(_, _) | Meaning::Adjustor(_, _) | Meaning::Global(_, _)) => None,
        None => None,
    }
}

/// What a base names; none where its name or tag isn't declared in the unit.
fn named_base(unit: &UnitScope, base: &Base) -> Option<FormedType>
    ensures { option_map as_formed result ≡ base_type unit.now base.now }
{
    match base {
        Base::Void(_) => complete_type_of(Ty::Void),
        Base::Int(int, _) => complete_type_of(Ty::Int(*int)),
        Base::Struct(_, tag) => struct_named(unit, tag.text.as_slice()),
        Base::Named(name) => typedef_named(unit, name.text.as_slice()),
    }
}

/// A pointer for each star.
#[tactic(auto, unfolding(c_typing::specs::TypeForms::pointer_type, c_typing::specs::Visits::followed, c_typing::specs::Visits::give), using(crate::proofs::VisitLaws::leaves_refused))]
fn pointers(stars: &[Span], ty: Ty, tables: &mut Tables) -> Result<Ty, Refusal>
    ensures { Leaves (pointer_type stars.now ty tables.old) result tables.new }
{
    let mut ty = ty;
    for _star in stars {
        ty = Ty::Ptr(enter_ty(ty, tables)?);
    }
    Ok(ty)
}

#[tactic(auto, unfolding(c_typing::specs::TypeForms::starred, c_typing::specs::Visits::followed, c_typing::specs::Visits::give, c_typing::specs::Visits::refuse), using(crate::proofs::VisitLaws::leaves_refused))]
fn with_stars(
    at: u32,
    stars: &[Span],
    base: FormedType,
    tables: &mut Tables,
) -> Result<FormedType, Refusal>
    ensures { Leaves (starred at stars.now (as_formed base) tables.old) (formed_or result) tables.new }
{
    if stars.is_empty() {
        return Ok(base);
    }
    if is_void_type(base.ty) {
        return Err(refusal(TypeKind::BadType, at));
    }
    let ty = pointers(stars, base.ty, tables)?;
    Ok(FormedType { ty, complete: true })
}

/// A base and its stars; a fault lies at the given byte, that of the part whose type this is.
///
/// # Errors
///
/// [`TypeKind::Unknown`] where the base isn't declared in the unit, [`TypeKind::BadType`] for a pointer
/// to void, and want of memory.
#[tactic(auto, unfolding(c_typing::specs::TypeForms::formed_type, c_typing::specs::Visits::refuse))]
pub fn form_type(
    unit: &UnitScope,
    at: u32,
    base: &Base,
    stars: &[Span],
    tables: &mut Tables,
) -> Result<FormedType, Refusal>
    ensures { Leaves (formed_type unit.now at base.now stars.now tables.old) (formed_or result) tables.new }
{
    match named_base(unit, base) {
        Some(formed) => with_stars(at, stars, formed, tables),
        None => Err(refusal(TypeKind::Unknown, at)),
    }
}

fn complete_or_void(at: u32, ty: Ty, complete: bool) -> Result<Ty, Refusal>
    ensures { (t : Tables) → Leaves (result_of at (record { ty = ty; complete = complete }) t) result t }
{
    if complete {
        Ok(ty)
    } else {
        Err(refusal(TypeKind::Incomplete, at))
    }
}

#[tactic(auto, unfolding(c_typing::specs::Visits::give, c_typing::specs::Visits::refuse))]
fn complete_object(at: u32, formed: FormedType) -> Result<Ty, Refusal>
    ensures { (t : Tables) → Leaves (object_of at (as_formed formed) t) result t }
{
    if !formed.complete {
        Err(refusal(TypeKind::Incomplete, at))
    } else if is_void_type(formed.ty) {
        Err(refusal(TypeKind::BadType, at))
    } else {
        Ok(formed.ty)
    }
}

/// The type that a function gives: a complete type or void.
///
/// # Errors
///
/// Those of [`form_type`], and [`TypeKind::Incomplete`].
#[tactic(auto, unfolding(c_typing::specs::TypeForms::result_type, c_typing::specs::Visits::followed), using(crate::proofs::VisitLaws::leaves_refused))]
pub fn result_type_of(
    unit: &UnitScope,
    at: u32,
    ty: &TypeName,
    tables: &mut Tables,
) -> Result<Ty, Refusal>
    ensures { Leaves (result_type unit.now at ty.now tables.old) result tables.new }
{
    let formed = form_type(unit, at, &ty.base, ty.stars.as_slice(), tables)?;
    complete_or_void(at, formed.ty, formed.complete)
}

/// The type of an object: a complete type that isn't void.
///
/// # Errors
///
/// Those of [`form_type`], [`TypeKind::Incomplete`], and [`TypeKind::BadType`] for void.
#[tactic(auto, unfolding(c_typing::specs::TypeForms::object_type, c_typing::specs::Visits::followed), using(crate::proofs::VisitLaws::leaves_refused))]
pub fn object_type_of(
    unit: &UnitScope,
    at: u32,
    base: &Base,
    stars: &[Span],
    tables: &mut Tables,
) -> Result<Ty, Refusal>
    ensures { Leaves (object_type unit.now at base.now stars.now tables.old) result tables.new }
{
    let formed = form_type(unit, at, base, stars, tables)?;
    complete_object(at, formed)
}

fn is_large(types: &MeasuredTypes, length: u64, ty: Ty) -> bool
    ensures { result ≡ nat_lt most_bytes (length * size_of types.now ty) }
{
    match length.checked_mul(types.size(ty)) {
        Some(bytes) => bytes > MOST_BYTES,
        None => true,
    }
}

/// So many elements of a type.
#[tactic(auto, unfolding(c_typing::specs::TypeForms::array_type, c_typing::specs::Visits::followed, c_typing::specs::Visits::refuse, c_typing::specs::Visits::give), using(crate::proofs::VisitLaws::leaves_refused))]
fn array_of(at: u32, length: u64, ty: Ty, tables: &mut Tables) -> Result<Ty, Refusal>
    ensures { Leaves (array_type at length ty tables.old) result tables.new }
{
    if length == 0 || is_large(&tables.types, length, ty) {
        return Err(refusal(TypeKind::BadType, at));
    }
    let place = enter_ty(ty, tables)?;
    Ok(Ty::Array(place, length))
}

/// The type of what has these lengths in brackets, of which the last is the innermost array's (C11,
/// 6.7.6.2), over elements of a type.
///
/// # Errors
///
/// [`TypeKind::BadType`] for a length of 0 and for more than [`MOST_BYTES`], and want of memory.
pub fn length_types(
    at: u32,
    lengths: &[Literal],
    ty: Ty,
    tables: &mut Tables,
) -> Result<Ty, Refusal>
    ensures { Leaves (array_types at lengths.now ty tables.old) result tables.new }
{
    let mut ty = ty;
    let mut left = lengths.len();
    while left > 0 {
        left -= 1;
        let length = lengths[left];
        ty = array_of(at, length.value, ty, tables)?;
    }
    Ok(ty)
}

/// The type of a declarator (C11, 6.7.6), whose faults lie at its name.
///
/// # Errors
///
/// Those of [`object_type_of`] and [`length_types`].
#[tactic(auto, unfolding(c_typing::specs::TypeForms::declared_type, c_typing::specs::Visits::followed), using(crate::proofs::VisitLaws::leaves_refused))]
pub fn declared_type_of(
    unit: &UnitScope,
    base: &Base,
    decl: &Decl,
    tables: &mut Tables,
) -> Result<Ty, Refusal>
    ensures { Leaves (declared_type unit.now base.now decl.now tables.old) result tables.new }
{
    let at = decl.name.span.start;
    let ty = object_type_of(unit, at, base, decl.stars.as_slice(), tables)?;
    length_types(at, decl.lengths.as_slice(), ty, tables)
}
