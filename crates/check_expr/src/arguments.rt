ghost use Rattle.std.specs.Prelude.{◌≡◌, drop, length, map, reverse, slice_get, IfOk};
ghost use Rattle.c_typing.specs.Visits.{Tells};
ghost use Rattle.c_typing.specs.Expressions.{converted_arguments, is_counted, is_number, literal_at, tells_extras, are_integers, extras_fit, passed};
ghost use Rattle.check_expr.specs.Calls.{argument_in, passed_to};

use c_program::TypedExpr;
use c_types::{Ty, Types};
use c_typing::{Refusal, TypeKind, Value};
use check_types::{as_integer, convert_to, refusal};
use hx_words::{Boxed, Items};
use std::alloc::{AllocError, Global};

/// The arguments of a call of a function of some type, what it gives, and the number of extra ones.
#[derive(Drop)]
pub struct Passed {
    pub arguments: Items<TypedExpr>,
    pub result: Ty,
    pub extras: usize,
}

#[tactic(auto, using(crate::proofs::ArgumentLaws::reversed_more))]
fn reversed(alloc: Global, values: Items<Value>) -> Result<Items<Value>, AllocError>
    ensures { IfOk result (λ r. r ≡ reverse values) }
{
    let mut values = values;
    let mut last_first = Items::new(alloc);
    while let Some(value) = values.pop() {
        last_first.push(value)?;
    }
    Ok(last_first)
}

fn next_argument(
    alloc: Global,
    params: &[Ty],
    place: usize,
    value: Value,
) -> Result<Option<Boxed<TypedExpr>>, AllocError>
    ensures { IfOk result (λ r. r ≡ argument_in (slice_get params.now place) value) }
{
    match params.get(place) {
        Some(ty) => convert_to(alloc, *ty, value),
        None => Ok(Some(value.tree)),
    }
}

/// Each argument in its parameter's type, up to the end of either list, and the extra ones as they are.
fn convert_arguments(
    alloc: Global,
    params: &[Ty],
    values: Items<Value>,
) -> Result<Option<Items<TypedExpr>>, AllocError>
    ensures { IfOk result (λ r. r ≡ converted_arguments params.now values) }
{
    let mut left = reversed(alloc, values)?;
    let mut arguments = Items::new(alloc);
    while let Some(value) = left.pop() {
        let place = arguments.len();
        let Some(argument) = next_argument(alloc, params, place, value)? else {
            return Ok(None);
        };
        arguments.push(argument.into_inner())?;
    }
    Ok(Some(arguments))
}

/// Whether a number of arguments fits the parameters (C11, 6.5.2.2p2).
fn fits_count(parameters: usize, variadic: bool, arguments: usize) -> bool
    ensures { result ≡ is_counted parameters variadic arguments }
{
    if variadic {
        arguments >= parameters
    } else {
        arguments == parameters
    }
}

fn is_literal_of(n: usize, literal: Option<u64>) -> bool
    ensures { result ≡ is_number n literal }
{
    match literal {
        Some(m) => m == n as u64,
        None => false,
    }
}

/// Whether the last fixed argument is the number of extra ones, as it is written.
fn tells_extra_count(parameters: usize, values: &[Value]) -> bool
    ensures { result ≡ tells_extras parameters values.now }
{
    let extras = values.len().saturating_sub(parameters);
    match values.get(parameters.saturating_sub(1)) {
        Some(last_fixed) => is_literal_of(extras, last_fixed.literal),
        None => false,
    }
}

fn are_all_integers(values: &[Value]) -> bool
    ensures { result ≡ are_integers values.now }
{
    values.iter().all(|v| as_integer(v.ty).is_some())
}

#[tactic(auto, using(std::proofs::lemmas::List::drop_all))]
fn are_extras_integers(parameters: usize, values: &[Value]) -> bool
    ensures { result ≡ are_integers (drop parameters values.now) }
{
    if parameters < values.len() {
        are_all_integers(&values[parameters..])
    } else {
        true
    }
}

/// The rules of a call of a variadic function.
fn fit_extras(at: u32, parameters: usize, values: &[Value]) -> Result<(), Refusal>
    ensures { Tells (extras_fit at parameters values.now) result }
{
    if !tells_extra_count(parameters, values) {
        Err(refusal(TypeKind::VariadicCount, at))
    } else if are_extras_integers(parameters, values) {
        Ok(())
    } else {
        Err(refusal(TypeKind::Variadic, at))
    }
}

/// The arguments of a call whose `(` lies at this byte, each in its parameter's type (C11, 6.5.2.2p7).
///
/// # Errors
///
/// [`TypeKind::Mismatch`] where one can't be converted, [`TypeKind::ArgumentCount`], for a variadic
/// function [`TypeKind::VariadicCount`] where the last fixed argument isn't the number of extra ones as
/// it is written and [`TypeKind::Variadic`] for an extra argument that is no integer, in this order; and
/// want of memory.
#[tactic(auto, unfolding(c_typing::specs::Expressions::passed), using(check_types::proofs::VisitLaws::tells_refused))]
pub fn pass(
    alloc: Global,
    at: u32,
    params: &[Ty],
    variadic: bool,
    values: Items<Value>,
) -> Result<Items<TypedExpr>, Refusal>
    ensures { Tells (passed at params.now variadic values) result }
{
    let count = values.len();
    let fit = fit_extras(at, params.len(), values.as_slice());
    let Some(arguments) = convert_arguments(alloc, params, values)? else {
        return Err(refusal(TypeKind::Mismatch, at));
    };
    if !fits_count(params.len(), variadic, count) {
        return Err(refusal(TypeKind::ArgumentCount, at));
    }
    if variadic {
        fit?;
    }
    Ok(arguments)
}

/// What is passed to a function of the type at a place of the table.
#[tactic(auto, using(check_types::proofs::VisitLaws::tells_refused))]
pub fn pass_to(
    alloc: Global,
    at: u32,
    ty: u32,
    values: Items<Value>,
    types: &Types,
) -> Result<Passed, Refusal>
    ensures { Tells (passed_to at values (slice_get types.now.funs ty)) result }
{
    let Some(function) = types.funs.get(ty as usize) else {
        return Err(refusal(TypeKind::NotFunction, at));
    };
    let extras = values.len().saturating_sub(function.params.len());
    let arguments = pass(
        alloc,
        at,
        function.params.as_slice(),
        function.variadic,
        values,
    )?;
    Ok(Passed {
        arguments,
        result: function.result,
        extras,
    })
}
