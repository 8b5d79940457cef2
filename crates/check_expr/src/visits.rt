ghost use Rattle.c_typing.specs.Visits.{Leaves};
ghost use Rattle.c_typing.specs.Expressions.{value, visit_expr, visit_values};

use crate::calls::call;
use c_tree::Expr;
use c_typing::{LocalScope, Operand, Refusal, Tables, UnitScope, Value};
use check_operators::{
    apply_assign, apply_binary, apply_prefix, cast_to, choose, operand_of_char, operand_of_extra,
    operand_of_name, operand_of_number, operand_of_size, select, step_after, subscript,
};
use check_types::value_of;
use hx_words::Items;
use std::alloc::Global;

/// An expression that is used as a value.
///
/// # Errors
///
/// The first fault in the expression, [`TypeKind::NotValue`](c_typing::TypeKind::NotValue) where it has
/// no value, and want of memory.
#[cycle(expressions)]
#[tactic(auto, unfolding(c_typing::specs::Visits::followed, c_typing::specs::Visits::judged), using(check_types::proofs::VisitLaws::leaves_refused, check_types::proofs::VisitLaws::leaves_judged))]
pub fn visit_value(
    alloc: Global,
    unit: &UnitScope,
    locals: &LocalScope,
    e: &Expr,
    tables: &mut Tables,
) -> Result<Value, Refusal>
    ensures { Leaves (value (visit_expr unit.now locals.now e.now) tables.old) result tables.new }
{
    let operand = visit_expr(alloc, unit, locals, e, tables)?;
    value_of(alloc, operand)
}

/// Expressions that are used as values, in order.
///
/// # Errors
///
/// The first fault in them, and want of memory.
#[cycle(expressions)]
#[tactic(auto, unfolding(c_typing::specs::Expressions::visit_values))]
pub fn visit_values(
    alloc: Global,
    unit: &UnitScope,
    locals: &LocalScope,
    es: &[Expr],
    tables: &mut Tables,
) -> Result<Items<Value>, Refusal>
    ensures { Leaves (visit_values unit.now locals.now es.now tables.old) result tables.new }
{
    let mut values = Items::new(alloc);
    for e in es {
        let value = visit_value(alloc, unit, locals, e, tables)?;
        values.push(value)?;
    }
    Ok(values)
}

/// What an expression designates (C11, 6.5), with its typed tree. It recurses as deep as the tree is
/// high, which is at most 256 for a tree that the parser gives.
///
/// # Errors
///
/// The first fault in the order of visit, parts before the whole and from left to right, and want of
/// memory.
#[cycle(expressions)]
#[tactic(auto, unfolding(c_typing::specs::Visits::followed, c_typing::specs::Visits::judged, c_typing::specs::Visits::looked, c_typing::specs::Visits::give, c_typing::specs::Expressions::visit_values), using(c_typing::proofs::ExprLaws::expr_visits, check_types::proofs::VisitLaws::leaves_refused, check_types::proofs::VisitLaws::leaves_judged))]
pub fn visit_expr(
    alloc: Global,
    unit: &UnitScope,
    locals: &LocalScope,
    e: &Expr,
    tables: &mut Tables,
) -> Result<Operand, Refusal>
    ensures { Leaves (visit_expr unit.now locals.now e.now tables.old) result tables.new }
{
    match e {
        Expr::Name(name) => operand_of_name(alloc, unit, locals, name),
        Expr::Number(n) => Ok(operand_of_number(alloc, n)?),
        Expr::Char(c, at) => Ok(operand_of_char(alloc, at.start, *c)?),
        Expr::Paren(_, part) => visit_expr(alloc, unit, locals, part.get(), tables),
        Expr::VaArg(at, name, ty) => {
            operand_of_extra(alloc, unit, locals, at.start, name, ty, tables)
        }
        Expr::SizeOf(at, ty) => operand_of_size(alloc, unit, at.start, ty, tables),
        Expr::Call(function, at, arguments) => {
            let operand = visit_expr(alloc, unit, locals, function.get(), tables)?;
            let values = visit_values(alloc, unit, locals, arguments.as_slice(), tables)?;
            call(alloc, at.start, operand, values, tables)
        }
        Expr::Index(whole, at, index) => {
            let operand = visit_expr(alloc, unit, locals, whole.get(), tables)?;
            let index = visit_value(alloc, unit, locals, index.get(), tables)?;
            subscript(alloc, at.start, operand, index, tables.types.as_types())
        }
        Expr::Select(whole, selector, at, name) => {
            let operand = visit_expr(alloc, unit, locals, whole.get(), tables)?;
            select(
                alloc,
                *selector,
                at.start,
                name.text.as_slice(),
                operand,
                tables,
            )
        }
        Expr::PostIncrement(part, at) => {
            let operand = visit_expr(alloc, unit, locals, part.get(), tables)?;
            step_after(alloc, at.start, true, operand)
        }
        Expr::PostDecrement(part, at) => {
            let operand = visit_expr(alloc, unit, locals, part.get(), tables)?;
            step_after(alloc, at.start, false, operand)
        }
        Expr::Unary(operator, at, part) => {
            let operand = visit_expr(alloc, unit, locals, part.get(), tables)?;
            apply_prefix(alloc, *operator, at.start, operand, tables)
        }
        Expr::Cast(at, int, _, part) => {
            let value = visit_value(alloc, unit, locals, part.get(), tables)?;
            cast_to(alloc, at.start, *int, value)
        }
        Expr::Binary(operator, at, left, right) => {
            let left = visit_value(alloc, unit, locals, left.get(), tables)?;
            let right = visit_value(alloc, unit, locals, right.get(), tables)?;
            apply_binary(alloc, *operator, at.start, left, right)
        }
        Expr::Conditional(test, at, left, right) => {
            let test = visit_value(alloc, unit, locals, test.get(), tables)?;
            let left = visit_value(alloc, unit, locals, left.get(), tables)?;
            let right = visit_value(alloc, unit, locals, right.get(), tables)?;
            choose(alloc, at.start, test, left, right)
        }
        Expr::Assign(operator, at, left, right) => {
            let operand = visit_expr(alloc, unit, locals, left.get(), tables)?;
            let value = visit_value(alloc, unit, locals, right.get(), tables)?;
            apply_assign(alloc, *operator, at.start, operand, value)
        }
    }
}
