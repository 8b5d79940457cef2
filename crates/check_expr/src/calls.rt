ghost use Rattle.std.specs.Prelude.{◌≡◌, [], ◌∷◌, false, slice_get, MatchResult};
ghost use Rattle.c_typing.specs.Visits.{Tells, Leaves};
ghost use Rattle.c_program.specs.ValueTypes.{service_type};
ghost use Rattle.c_typing.specs.Conversions.{as_value};
ghost use Rattle.c_typing.specs.Expressions.{passed, with_extras, call_at, called_by_name, pointer_call, called_by_pointer, service_params, called_service, pointer_called, called};
ghost use Rattle.c_typing.specs.declared.faults.Refusal.TheVariants.{NoMemory};

use crate::arguments::{pass, pass_to};
use c_program::{Service, Target, TypedExpr};
use c_types::Ty;
use c_typing::{Designated, Operand, Refusal, Tables, TypeKind, Value};
use check_operators::{INT, given_operand};
use check_types::{refusal, small_place, value_of};
use hx_words::{Boxed, Items};
use std::alloc::Global;

/// The most extra arguments so far.
fn note_extras(extras: usize, tables: &mut Tables) -> Result<(), Refusal>
    ensures { MatchResult result (λ u. tables.new ≡ with_extras extras tables.old) (λ e. e ≡ NoMemory) }
{
    let extras = small_place(extras)?;
    tables.extras = tables.extras.max(extras);
    Ok(())
}

/// A call by name of a function or an adjustor of the type at a place of the table.
#[tactic(auto, unfolding(c_typing::specs::Expressions::called_by_name), using(crate::proofs::CallLaws::call_left, crate::proofs::CallLaws::call_passed))]
fn call_by_name(
    alloc: Global,
    at: u32,
    ty: u32,
    function: Target,
    values: Items<Value>,
    tables: &mut Tables,
) -> Result<Operand, Refusal>
    ensures { Leaves (called_by_name at ty function values tables.old) result tables.new }
{
    let passed = pass_to(alloc, at, ty, values, tables.types.as_types())?;
    note_extras(passed.extras, tables)?;
    let tree = TypedExpr::Call(passed.result, function, passed.arguments);
    let tree = Boxed::new(alloc, tree)?;
    Ok(given_operand(at, passed.result, tree))
}

/// A call by a pointer to functions of the type at a place of the table.
#[tactic(auto, using(crate::proofs::CallLaws::call_left, crate::proofs::CallLaws::call_passed))]
fn call_through(
    alloc: Global,
    at: u32,
    ty: u32,
    pointer: Boxed<TypedExpr>,
    values: Items<Value>,
    tables: &mut Tables,
) -> Result<Operand, Refusal>
    ensures { Leaves (call_at at ty values (λ es result. TypedExpr.CallPointer result ty pointer es) tables.old) result tables.new }
{
    let passed = pass_to(alloc, at, ty, values, tables.types.as_types())?;
    note_extras(passed.extras, tables)?;
    let tree = TypedExpr::CallPointer(passed.result, ty, pointer, passed.arguments);
    let tree = Boxed::new(alloc, tree)?;
    Ok(given_operand(at, passed.result, tree))
}

/// A call of a value, which must be a pointer to functions.
#[tactic(auto, unfolding(c_typing::specs::Expressions::called_by_pointer, c_typing::specs::Visits::refuse))]
fn call_by_pointer(
    alloc: Global,
    at: u32,
    value: Value,
    values: Items<Value>,
    tables: &mut Tables,
) -> Result<Operand, Refusal>
    ensures { Leaves (called_by_pointer at value values tables.old) result tables.new }
{
    match value.ty {
        Ty::Fun(ty) => call_through(alloc, at, ty, value.tree, values, tables),
        Ty::Void | Ty::Int(_) | Ty::Ptr(_) | Ty::Struct(_) | Ty::Array(_, _) => {
            Err(refusal(TypeKind::NotFunction, at))
        }
    }
}

/// What is no value is no function either.
#[tactic(auto, unfolding(c_typing::specs::Visits::refuse))]
fn call_value(
    alloc: Global,
    at: u32,
    operand: Operand,
    values: Items<Value>,
    tables: &mut Tables,
) -> Result<Operand, Refusal>
    ensures { Leaves (pointer_called at (as_value operand) values tables.old) result tables.new }
{
    match value_of(alloc, operand) {
        Ok(value) => call_by_pointer(alloc, at, value, values, tables),
        Err(Refusal::Fault(_)) => Err(refusal(TypeKind::NotFunction, at)),
        Err(Refusal::NoMemory) => Err(Refusal::NoMemory),
    }
}

fn pass_to_service(
    alloc: Global,
    at: u32,
    service: Service,
    values: Items<Value>,
) -> Result<Items<TypedExpr>, Refusal>
    ensures { Tells (passed at (service_params service) false values) result }
{
    match service {
        Service::PutByte | Service::Exit => pass(alloc, at, &[INT], false, values),
        Service::GetByte => pass(alloc, at, &[], false, values),
    }
}

fn service_result(service: Service) -> Ty
    ensures { result ≡ service_type service }
{
    match service {
        Service::PutByte | Service::Exit => Ty::Void,
        Service::GetByte => INT,
    }
}

/// A call of a service.
#[tactic(auto, unfolding(c_typing::specs::Expressions::called_service), using(check_types::proofs::VisitLaws::tells_refused))]
fn call_service(
    alloc: Global,
    at: u32,
    service: Service,
    values: Items<Value>,
) -> Result<Operand, Refusal>
    ensures { Tells (called_service at service values) result }
{
    let arguments = pass_to_service(alloc, at, service, values)?;
    let tree = Boxed::new(alloc, TypedExpr::CallService(service, arguments))?;
    Ok(given_operand(at, service_result(service), tree))
}

/// A call whose `(` lies at this byte (C11, 6.5.2.2). A call of a name, also one in parentheses, is a
/// call by name; any other is one by pointer.
///
/// # Errors
///
/// [`TypeKind::NotFunction`] for what is no function, and those of [`pass`].
#[tactic(auto, unfolding(c_typing::specs::Expressions::called, c_typing::specs::Visits::refuse, c_typing::specs::Visits::judged), using(check_types::proofs::VisitLaws::leaves_judged))]
pub fn call(
    alloc: Global,
    at: u32,
    operand: Operand,
    values: Items<Value>,
    tables: &mut Tables,
) -> Result<Operand, Refusal>
    ensures { Leaves (called at operand values tables.old) result tables.new }
{
    let Operand { at: own, what } = operand;
    match what {
        Designated::Function(ty, function) => {
            call_by_name(alloc, at, ty, function, values, tables)
        }
        Designated::Service(service) => call_service(alloc, at, service, values),
        Designated::Typedef | Designated::VaList => Err(refusal(TypeKind::NotFunction, at)),
        Designated::Value(value) => {
            let what = Designated::Value(value);
            call_value(alloc, at, Operand { at: own, what }, values, tables)
        }
        Designated::Place(ty, place, local) => {
            let what = Designated::Place(ty, place, local);
            call_value(alloc, at, Operand { at: own, what }, values, tables)
        }
    }
}
