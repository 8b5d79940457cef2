ghost use Rattle.c_types.specs.declared.types.Ty.TheVariants.{Fun};
ghost use Rattle.std.specs.Prelude.{◌≡◌, IfOk};
ghost use Rattle.c_typing.specs.Visits.{Tells, Leaves};
ghost use Rattle.c_typing.specs.Expressions.{negated, kept, complemented, denied, address_of_place, addressed, pointed_at, as_place, integer_place, stepped_before, stepped_after, unary, cast, given};

use crate::parts::{INT, found_operand, given_operand, integer_type};
use c_program::{Place, Target, TypedExpr};
use c_tree::UnaryOp;
use c_types::{IntTy, Ty, Types};
use c_typing::{Designated, Operand, Refusal, Tables, TypeKind, Value};
use check_types::{
    as_integer, convert, enter_ty, is_array_type, promote, refusal, scalar_of, type_at, value_of,
};
use hx_words::Boxed;
use std::alloc::{AllocError, Global};

#[tactic(auto, unfolding(c_typing::specs::Expressions::negated), using(check_types::proofs::VisitLaws::tells_refused))]
fn negate(alloc: Global, at: u32, value: Value) -> Result<Operand, Refusal>
    ensures { Tells (negated at value) result }
{
    let from = integer_type(at, &value)?;
    let to = promote(from);
    let operand = convert(alloc, to, from, value.tree)?;
    let tree = Boxed::new(alloc, TypedExpr::Negate(to, operand))?;
    Ok(given_operand(at, Ty::Int(to), tree))
}

#[tactic(auto, unfolding(c_typing::specs::Expressions::kept), using(check_types::proofs::VisitLaws::tells_refused))]
fn keep(alloc: Global, at: u32, value: Value) -> Result<Operand, Refusal>
    ensures { Tells (kept at value) result }
{
    let from = integer_type(at, &value)?;
    let to = promote(from);
    let operand = convert(alloc, to, from, value.tree)?;
    let tree = Boxed::new(alloc, TypedExpr::Same(operand))?;
    Ok(given_operand(at, Ty::Int(to), tree))
}

#[tactic(auto, unfolding(c_typing::specs::Expressions::complemented), using(check_types::proofs::VisitLaws::tells_refused))]
fn complement(alloc: Global, at: u32, value: Value) -> Result<Operand, Refusal>
    ensures { Tells (complemented at value) result }
{
    let from = integer_type(at, &value)?;
    let to = promote(from);
    let operand = convert(alloc, to, from, value.tree)?;
    let tree = Boxed::new(alloc, TypedExpr::Complement(to, operand))?;
    Ok(given_operand(at, Ty::Int(to), tree))
}

#[tactic(auto, unfolding(c_typing::specs::Expressions::denied), using(check_types::proofs::VisitLaws::tells_refused))]
fn deny(alloc: Global, at: u32, value: Value) -> Result<Operand, Refusal>
    ensures { Tells (denied at value) result }
{
    let operand = scalar_of(at, value)?;
    let tree = Boxed::new(alloc, TypedExpr::Not(operand))?;
    Ok(given_operand(at, INT, tree))
}

#[tactic(auto, unfolding(c_typing::specs::Visits::followed, c_typing::specs::Visits::give, c_typing::specs::Visits::refuse), using(check_types::proofs::VisitLaws::leaves_refused))]
fn address_place(
    alloc: Global,
    at: u32,
    ty: Ty,
    place: Boxed<Place>,
    local: bool,
    tables: &mut Tables,
) -> Result<Operand, Refusal>
    ensures { Leaves (address_of_place at ty place local tables.old) result tables.new }
{
    if is_array_type(ty) {
        return Err(refusal(TypeKind::NotPlace, at));
    }
    if local {
        return Err(refusal(TypeKind::NoAddress, at));
    }
    let pointer = Ty::Ptr(enter_ty(ty, tables)?);
    let tree = Boxed::new(alloc, TypedExpr::Address(pointer, place))?;
    Ok(given_operand(at, pointer, tree))
}

fn address_function(
    alloc: Global,
    at: u32,
    ty: u32,
    function: Target,
) -> Result<Operand, AllocError>
    ensures { IfOk result (λ o. o ≡ given at (Fun ty) (TypedExpr.Same (TypedExpr.Function (Fun ty) function))) }
{
    let pointer = Ty::Fun(ty);
    let name = Boxed::new(alloc, TypedExpr::Function(pointer, function))?;
    let tree = Boxed::new(alloc, TypedExpr::Same(name))?;
    Ok(given_operand(at, pointer, tree))
}

/// `&` of a place or of a function's name (C11, 6.5.3.2p3).
#[tactic(auto, unfolding(c_typing::specs::Expressions::addressed, c_typing::specs::Visits::give, c_typing::specs::Visits::refuse))]
fn address(
    alloc: Global,
    at: u32,
    operand: Operand,
    tables: &mut Tables,
) -> Result<Operand, Refusal>
    ensures { Leaves (addressed at operand tables.old) result tables.new }
{
    let Operand { at: _, what } = operand;
    match what {
        Designated::Place(ty, place, local) => address_place(alloc, at, ty, place, local, tables),
        Designated::Function(ty, function) => Ok(address_function(alloc, at, ty, function)?),
        Designated::Value(_) | Designated::Service(_) | Designated::Typedef | Designated::VaList =>
            Err(refusal(TypeKind::NotPlace, at)),
    }
}

/// `*` of a pointer finds its target; of a function pointer it gives that pointer (C11, 6.5.3.2p4).
#[tactic(auto, unfolding(c_typing::specs::Expressions::pointed_at))]
fn follow(alloc: Global, at: u32, value: Value, types: &Types) -> Result<Operand, Refusal>
    ensures { Tells (pointed_at at value types.now) result }
{
    let Value {
        ty,
        tree,
        literal: _,
    } = value;
    match ty {
        Ty::Ptr(place) => {
            let target = type_at(types, place);
            let place = Boxed::new(alloc, Place::Target(target, tree))?;
            Ok(found_operand(at, target, place, false))
        }
        Ty::Fun(_) => {
            let tree = Boxed::new(alloc, TypedExpr::Same(tree))?;
            Ok(given_operand(at, ty, tree))
        }
        Ty::Void | Ty::Int(_) | Ty::Struct(_) | Ty::Array(_, _) => {
            Err(refusal(TypeKind::NotPointer, at))
        }
    }
}

/// A place that can be assigned (C11, 6.3.2.1p1: a modifiable lvalue).
#[tactic(auto, unfolding(c_typing::specs::Expressions::as_place))]
pub fn place_of(at: u32, operand: Operand) -> Result<(Ty, Boxed<Place>), Refusal>
    ensures { Tells (as_place at operand) result }
{
    let Operand { at: _, what } = operand;
    match what {
        Designated::Place(ty, place, _) => {
            if is_array_type(ty) {
                Err(refusal(TypeKind::NotPlace, at))
            } else {
                Ok((ty, place))
            }
        }
        Designated::Value(_)
        | Designated::Function(_, _)
        | Designated::Service(_)
        | Designated::Typedef
        | Designated::VaList => Err(refusal(TypeKind::NotPlace, at)),
    }
}

/// A place of integer type.
#[tactic(auto, unfolding(c_typing::specs::Expressions::integer_place), using(check_types::proofs::VisitLaws::tells_refused))]
pub fn integer_place_of(at: u32, operand: Operand) -> Result<(IntTy, Boxed<Place>), Refusal>
    ensures { Tells (integer_place at operand) result }
{
    let (ty, place) = place_of(at, operand)?;
    match as_integer(ty) {
        Some(int) => Ok((int, place)),
        None => Err(refusal(TypeKind::NotInteger, at)),
    }
}

/// `++` (true) or `--` before an operand (C11, 6.5.3.1).
#[tactic(auto, unfolding(c_typing::specs::Expressions::stepped_before), using(check_types::proofs::VisitLaws::tells_refused))]
pub fn step_before(alloc: Global, at: u32, up: bool, operand: Operand) -> Result<Operand, Refusal>
    ensures { Tells (stepped_before at up operand) result }
{
    let (int, place) = integer_place_of(at, operand)?;
    let tree = Boxed::new(alloc, TypedExpr::Before(int, up, place))?;
    Ok(given_operand(at, Ty::Int(int), tree))
}

/// `++` (true) or `--` behind an operand (C11, 6.5.2.4).
#[tactic(auto, unfolding(c_typing::specs::Expressions::stepped_after), using(check_types::proofs::VisitLaws::tells_refused))]
pub fn step_after(alloc: Global, at: u32, up: bool, operand: Operand) -> Result<Operand, Refusal>
    ensures { Tells (stepped_after at up operand) result }
{
    let (int, place) = integer_place_of(at, operand)?;
    let tree = Boxed::new(alloc, TypedExpr::After(int, up, place))?;
    Ok(given_operand(at, Ty::Int(int), tree))
}

/// A prefix operator and what its operand designates.
#[tactic(auto, unfolding(c_typing::specs::Visits::judged, c_typing::specs::Visits::looked), using(check_types::proofs::VisitLaws::leaves_judged, check_types::proofs::VisitLaws::leaves_told, check_types::proofs::VisitLaws::tells_refused, check_types::proofs::VisitLaws::tells_next))]
pub fn apply_prefix(
    alloc: Global,
    operator: UnaryOp,
    at: u32,
    operand: Operand,
    tables: &mut Tables,
) -> Result<Operand, Refusal>
    ensures { Leaves (unary operator at operand tables.old) result tables.new }
{
    match operator {
        UnaryOp::Increment => step_before(alloc, at, true, operand),
        UnaryOp::Decrement => step_before(alloc, at, false, operand),
        UnaryOp::Negate => negate(alloc, at, value_of(alloc, operand)?),
        UnaryOp::Plus => keep(alloc, at, value_of(alloc, operand)?),
        UnaryOp::Complement => complement(alloc, at, value_of(alloc, operand)?),
        UnaryOp::Not => deny(alloc, at, value_of(alloc, operand)?),
        UnaryOp::Address => address(alloc, at, operand, tables),
        UnaryOp::Indirect => follow(
            alloc,
            at,
            value_of(alloc, operand)?,
            tables.types.as_types(),
        ),
    }
}

/// `( inttype ) e` (C11, 6.5.4), which is a conversion also where the type stays.
#[tactic(auto, unfolding(c_typing::specs::Expressions::cast), using(check_types::proofs::VisitLaws::tells_refused))]
pub fn cast_to(alloc: Global, at: u32, int: IntTy, value: Value) -> Result<Operand, Refusal>
    ensures { Tells (cast at int value) result }
{
    let _from = integer_type(at, &value)?;
    let tree = Boxed::new(alloc, TypedExpr::Convert(int, value.tree))?;
    Ok(given_operand(at, Ty::Int(int), tree))
}
