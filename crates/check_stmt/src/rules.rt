ghost use Rattle.std.specs.Prelude.{◌≡◌};
ghost use Rattle.c_typing.specs.Visits.{Leaves, Tells, optionally};
ghost use Rattle.c_typing.specs.Statements.{visit_value, visit_effect, condition_of, returned, jump};
ghost use Rattle.c_typing.specs.TypeForms.{is_void};

use crate::locals::type_effect;
use c_program::{TypedExpr, TypedStmt};
use c_tree::Expr;
use c_types::Ty;
use c_typing::{Enclosing, LocalScope, Refusal, Tables, TypeKind, UnitScope, Value};
use check_expr::visit_value;
use check_types::{convert_to, refusal, scalar_of};
use hx_words::Boxed;
use std::alloc::Global;

/// A value where there is an expression.
#[tactic(auto, unfolding(c_typing::specs::Visits::followed, c_typing::specs::Visits::give))]
pub fn type_optional_value(
    alloc: Global,
    unit: &UnitScope,
    locals: &LocalScope,
    e: &Option<Boxed<Expr>>,
    tables: &mut Tables,
) -> Result<Option<Value>, Refusal>
    ensures { Leaves (optionally (visit_value unit.now locals.now) e.now tables.old) result tables.new }
{
    match e {
        Some(e) => {
            let value = visit_value(alloc, unit, locals, e.get(), tables)?;
            Ok(Some(value))
        }
        None => Ok(None),
    }
}

/// An effect where there is an expression.
#[tactic(auto, unfolding(c_typing::specs::Visits::followed, c_typing::specs::Visits::give))]
pub fn type_optional_effect(
    alloc: Global,
    unit: &UnitScope,
    locals: &LocalScope,
    e: &Option<Boxed<Expr>>,
    tables: &mut Tables,
) -> Result<Option<Boxed<TypedExpr>>, Refusal>
    ensures { Leaves (optionally (visit_effect unit.now locals.now) e.now tables.old) result tables.new }
{
    match e {
        Some(e) => {
            let tree = type_effect(alloc, unit, locals, e.get(), tables)?;
            Ok(Some(tree))
        }
        None => Ok(None),
    }
}

/// A condition where there is a value.
#[tactic(auto, unfolding(c_typing::specs::Visits::followed, c_typing::specs::Visits::judged, c_typing::specs::Visits::give))]
pub fn optional_condition(
    at: u32,
    test: Option<Value>,
    tables: &Tables,
) -> Result<Option<Boxed<TypedExpr>>, Refusal>
    ensures { Leaves (optionally (condition_of at) test tables.now) result tables.now }
{
    match test {
        Some(value) => {
            let tree = scalar_of(at, value)?;
            Ok(Some(tree))
        }
        None => Ok(None),
    }
}

fn is_void_result(f: Enclosing) -> bool
    ensures { result ≡ is_void f.result }
{
    match f.result {
        Ty::Void => true,
        _ => false,
    }
}

/// The value that a `return` gives, converted as if by assignment (C11, 6.8.6.4).
pub fn return_value(
    alloc: Global,
    f: Enclosing,
    at: u32,
    value: Option<Value>,
) -> Result<Option<Boxed<TypedExpr>>, Refusal>
    ensures { Tells (returned f at value) result }
{
    let Some(value) = value else {
        if !is_void_result(f) {
            return Err(refusal(TypeKind::Flow, at));
        }
        return Ok(None);
    };
    if is_void_result(f) {
        return Err(refusal(TypeKind::Flow, at));
    }
    match convert_to(alloc, f.result, value)? {
        Some(tree) => Ok(Some(tree)),
        None => Err(refusal(TypeKind::Mismatch, at)),
    }
}

/// A `break` or a `continue`, which stands in a loop (C11, 6.8.6.2, 6.8.6.3).
#[tactic(auto, unfolding(c_typing::specs::Visits::give, c_typing::specs::Visits::refuse))]
pub fn jump_in(
    at: u32,
    statement: TypedStmt,
    in_loop: bool,
    tables: &Tables,
) -> Result<TypedStmt, Refusal>
    ensures { Leaves (jump at statement in_loop tables.now) result tables.now }
{
    if !in_loop {
        return Err(refusal(TypeKind::Flow, at));
    }
    Ok(statement)
}
