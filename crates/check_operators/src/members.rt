ghost use Rattle.std.specs.Prelude.{◌≡◌};
ghost use Rattle.c_typing.specs.Visits.{Tells, Leaves};
ghost use Rattle.c_typing.specs.Expressions.{field_of_place, field_of_value, field_of_target, dotted, arrow, selected, element_of_place, element_of_value, indexed};

use crate::parts::{found_operand, given_operand, integer_type};
use c_program::{Place, TypedExpr};
use c_tree::Selector;
use c_types::{Ty, Types};
use c_typing::{Designated, Operand, Refusal, Tables, TypeKind, Value};
use check_types::{find_field, refusal, small_place, type_at, value_of};
use hx_words::Boxed;
use std::alloc::Global;

fn place_field(
    alloc: Global,
    at: u32,
    types: &Types,
    name: &[u8],
    place: Boxed<Place>,
    local: bool,
    ty: Ty,
) -> Result<Operand, Refusal>
    ensures { Tells (field_of_place at types.now name.now place local ty) result }
{
    match ty {
        Ty::Struct(structure) => {
            let Some((number, field)) = find_field(types, structure, name) else {
                return Err(refusal(TypeKind::NoField, at));
            };
            let place = Boxed::new(alloc, Place::Field(place, structure, small_place(number)?))?;
            Ok(found_operand(at, field, place, local))
        }
        Ty::Void | Ty::Int(_) | Ty::Ptr(_) | Ty::Fun(_) | Ty::Array(_, _) => Err(refusal(
            TypeKind::NoField,
            at,
        )),
    }
}

fn value_field(
    alloc: Global,
    at: u32,
    types: &Types,
    name: &[u8],
    whole: Boxed<TypedExpr>,
    ty: Ty,
) -> Result<Operand, Refusal>
    ensures { Tells (field_of_value at types.now name.now whole ty) result }
{
    match ty {
        Ty::Struct(structure) => {
            let Some((number, field)) = find_field(types, structure, name) else {
                return Err(refusal(TypeKind::NoField, at));
            };
            let number = small_place(number)?;
            let tree = Boxed::new(alloc, TypedExpr::FieldOf(field, whole, structure, number))?;
            Ok(given_operand(at, field, tree))
        }
        Ty::Void | Ty::Int(_) | Ty::Ptr(_) | Ty::Fun(_) | Ty::Array(_, _) => Err(refusal(
            TypeKind::NoField,
            at,
        )),
    }
}

fn target_field(
    alloc: Global,
    at: u32,
    types: &Types,
    name: &[u8],
    pointer: Boxed<TypedExpr>,
    ty: Ty,
) -> Result<Operand, Refusal>
    ensures { Tells (field_of_target at types.now name.now pointer ty) result }
{
    match ty {
        Ty::Struct(structure) => {
            let Some((number, field)) = find_field(types, structure, name) else {
                return Err(refusal(TypeKind::NoField, at));
            };
            let place = Boxed::new(
                alloc,
                Place::Arrow(pointer, structure, small_place(number)?),
            )?;
            Ok(found_operand(at, field, place, false))
        }
        Ty::Void | Ty::Int(_) | Ty::Ptr(_) | Ty::Fun(_) | Ty::Array(_, _) => Err(refusal(
            TypeKind::NoField,
            at,
        )),
    }
}

/// `e.f`, a place where `e` is one (C11, 6.5.2.3p3).
#[tactic(auto, unfolding(c_typing::specs::Expressions::dotted))]
fn dot(
    alloc: Global,
    at: u32,
    operand: Operand,
    name: &[u8],
    types: &Types,
) -> Result<Operand, Refusal>
    ensures { Tells (dotted at operand name.now types.now) result }
{
    let Operand { at: _, what } = operand;
    match what {
        Designated::Value(whole) => value_field(alloc, at, types, name, whole.tree, whole.ty),
        Designated::Place(ty, place, local) => {
            place_field(alloc, at, types, name, place, local, ty)
        }
        Designated::Function(_, _)
        | Designated::Service(_)
        | Designated::Typedef
        | Designated::VaList => Err(refusal(TypeKind::NoField, at)),
    }
}

/// `e->f` (C11, 6.5.2.3p4).
#[tactic(auto, unfolding(c_typing::specs::Expressions::arrow))]
fn follow_to(
    alloc: Global,
    at: u32,
    value: Value,
    name: &[u8],
    types: &Types,
) -> Result<Operand, Refusal>
    ensures { Tells (arrow at value name.now types.now) result }
{
    let Value {
        ty,
        tree,
        literal: _,
    } = value;
    match ty {
        Ty::Ptr(place) => {
            let target = type_at(types, place);
            target_field(alloc, at, types, name, tree, target)
        }
        Ty::Void | Ty::Int(_) | Ty::Fun(_) | Ty::Struct(_) | Ty::Array(_, _) => {
            Err(refusal(TypeKind::NotPointer, at))
        }
    }
}

/// A part of what an operand designates or points to, by a field's name.
#[tactic(auto, unfolding(c_typing::specs::Visits::looked), using(check_types::proofs::VisitLaws::leaves_judged, check_types::proofs::VisitLaws::leaves_told, check_types::proofs::VisitLaws::tells_refused, check_types::proofs::VisitLaws::tells_next))]
pub fn select(
    alloc: Global,
    selector: Selector,
    at: u32,
    name: &[u8],
    operand: Operand,
    tables: &Tables,
) -> Result<Operand, Refusal>
    ensures { Leaves (selected selector at name.now operand tables.now) result tables.now }
{
    match selector {
        Selector::Dot => dot(alloc, at, operand, name, tables.types.as_types()),
        Selector::Arrow => follow_to(
            alloc,
            at,
            value_of(alloc, operand)?,
            name,
            tables.types.as_types(),
        ),
    }
}

#[tactic(auto, using(check_types::proofs::VisitLaws::tells_refused))]
fn place_element(
    alloc: Global,
    at: u32,
    types: &Types,
    index: Value,
    place: Boxed<Place>,
    local: bool,
    ty: Ty,
) -> Result<Operand, Refusal>
    ensures { Tells (element_of_place at types.now index place local ty) result }
{
    match ty {
        Ty::Array(place_of_element, length) => {
            let _index = integer_type(at, &index)?;
            let element = type_at(types, place_of_element);
            let place = Place::Element(element, place, index.tree, length);
            let place = Boxed::new(alloc, place)?;
            Ok(found_operand(at, element, place, local))
        }
        Ty::Void | Ty::Int(_) | Ty::Ptr(_) | Ty::Fun(_) | Ty::Struct(_) => {
            Err(refusal(TypeKind::NotArray, at))
        }
    }
}

#[tactic(auto, using(check_types::proofs::VisitLaws::tells_refused))]
fn value_element(
    alloc: Global,
    at: u32,
    types: &Types,
    index: Value,
    whole: Boxed<TypedExpr>,
    ty: Ty,
) -> Result<Operand, Refusal>
    ensures { Tells (element_of_value at types.now index whole ty) result }
{
    match ty {
        Ty::Array(place_of_element, length) => {
            let _index = integer_type(at, &index)?;
            let element = type_at(types, place_of_element);
            let tree = TypedExpr::ElementOf(element, whole, index.tree, length);
            let tree = Boxed::new(alloc, tree)?;
            Ok(given_operand(at, element, tree))
        }
        Ty::Void | Ty::Int(_) | Ty::Ptr(_) | Ty::Fun(_) | Ty::Struct(_) => {
            Err(refusal(TypeKind::NotArray, at))
        }
    }
}

/// `a[i]` of an array (C11, 6.5.2.1); the index stays in its own type.
#[tactic(auto, unfolding(c_typing::specs::Expressions::indexed))]
pub fn subscript(
    alloc: Global,
    at: u32,
    operand: Operand,
    index: Value,
    types: &Types,
) -> Result<Operand, Refusal>
    ensures { Tells (indexed at operand index types.now) result }
{
    let Operand { at: _, what } = operand;
    match what {
        Designated::Value(whole) => value_element(alloc, at, types, index, whole.tree, whole.ty),
        Designated::Place(ty, place, local) => {
            place_element(alloc, at, types, index, place, local, ty)
        }
        Designated::Function(_, _)
        | Designated::Service(_)
        | Designated::Typedef
        | Designated::VaList => Err(refusal(TypeKind::NotArray, at)),
    }
}
