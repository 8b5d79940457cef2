ghost use Rattle.std.specs.Prelude.{◌≡◌, IfOk};
ghost use Rattle.c_typing.specs.Conversions.{joined};
ghost use Rattle.c_typing.specs.Visits.{Tells};
ghost use Rattle.c_typing.specs.Expressions.{computed, shifted, ordered, both_in, compared_in, equated, both_true, either_true, operated, chosen};

use crate::parts::{INT, given_operand, integer_type};
use c_program::{Arithmetic, Comparison, TypedExpr};
use c_tree::BinaryOp;
use c_types::Ty;
use c_typing::{Operand, Refusal, TypeKind, Value};
use check_types::{
    common_type, convert, convert_to, is_struct_type, join, promote, refusal, scalar_of,
};
use hx_words::Boxed;
use std::alloc::{AllocError, Global};

/// `+ - * / % & | ^` of two integers, in their common type (C11, 6.5.5, 6.5.6, 6.5.10 to 6.5.12).
#[tactic(auto, unfolding(c_typing::specs::Expressions::computed), using(check_types::proofs::VisitLaws::tells_refused))]
fn compute(
    alloc: Global,
    operator: Arithmetic,
    at: u32,
    left: Value,
    right: Value,
) -> Result<Operand, Refusal>
    ensures { Tells (computed operator at left right) result }
{
    let i = integer_type(at, &left)?;
    let j = integer_type(at, &right)?;
    let common = common_type(i, j);
    let left = convert(alloc, common, i, left.tree)?;
    let right = convert(alloc, common, j, right.tree)?;
    let tree = Boxed::new(alloc, TypedExpr::Binary(operator, common, left, right))?;
    Ok(given_operand(at, Ty::Int(common), tree))
}

/// `<<` and `>>` in the promoted type of the left operand; each is promoted by itself (C11, 6.5.7p3).
#[tactic(auto, unfolding(c_typing::specs::Expressions::shifted), using(check_types::proofs::VisitLaws::tells_refused))]
fn shift(
    alloc: Global,
    operator: Arithmetic,
    at: u32,
    left: Value,
    right: Value,
) -> Result<Operand, Refusal>
    ensures { Tells (shifted operator at left right) result }
{
    let i = integer_type(at, &left)?;
    let j = integer_type(at, &right)?;
    let ty = promote(i);
    let left = convert(alloc, ty, i, left.tree)?;
    let right = convert(alloc, promote(j), j, right.tree)?;
    let tree = Boxed::new(alloc, TypedExpr::Binary(operator, ty, left, right))?;
    Ok(given_operand(at, Ty::Int(ty), tree))
}

/// `< <= > >=` of two integers, in their common type (C11, 6.5.8p3).
#[tactic(auto, unfolding(c_typing::specs::Expressions::ordered), using(check_types::proofs::VisitLaws::tells_refused))]
fn order(
    alloc: Global,
    operator: Comparison,
    at: u32,
    left: Value,
    right: Value,
) -> Result<Operand, Refusal>
    ensures { Tells (ordered operator at left right) result }
{
    let i = integer_type(at, &left)?;
    let j = integer_type(at, &right)?;
    let common = common_type(i, j);
    let left = convert(alloc, common, i, left.tree)?;
    let right = convert(alloc, common, j, right.tree)?;
    let tree = Boxed::new(
        alloc,
        TypedExpr::Compare(operator, Ty::Int(common), left, right),
    )?;
    Ok(given_operand(at, INT, tree))
}

fn compare_in(
    alloc: Global,
    operator: Comparison,
    ty: Ty,
    left: Value,
    right: Value,
) -> Result<Option<Boxed<TypedExpr>>, AllocError>
    ensures { IfOk result (λ r. r ≡ both_in ty left right (TypedExpr.Compare operator ty)) }
{
    let Some(left) = convert_to(alloc, ty, left)? else {
        return Ok(None);
    };
    let Some(right) = convert_to(alloc, ty, right)? else {
        return Ok(None);
    };
    let tree = Boxed::new(alloc, TypedExpr::Compare(operator, ty, left, right))?;
    Ok(Some(tree))
}

fn compare_joined(
    alloc: Global,
    operator: Comparison,
    left: Value,
    right: Value,
) -> Result<Option<Boxed<TypedExpr>>, AllocError>
    ensures { IfOk result (λ r. r ≡ compared_in operator left right (joined left right)) }
{
    match join(&left, &right) {
        Some(ty) => {
            if is_struct_type(ty) {
                Ok(None)
            } else {
                compare_in(alloc, operator, ty, left, right)
            }
        }
        None => Ok(None),
    }
}

/// `==` and `!=` of two values that meet in a type (C11, 6.5.9); structs are never compared.
#[tactic(auto, unfolding(c_typing::specs::Expressions::equated), using(check_types::proofs::VisitLaws::tells_refused))]
fn equate(
    alloc: Global,
    operator: Comparison,
    at: u32,
    left: Value,
    right: Value,
) -> Result<Operand, Refusal>
    ensures { Tells (equated operator at left right) result }
{
    match compare_joined(alloc, operator, left, right)? {
        Some(tree) => Ok(given_operand(at, INT, tree)),
        None => Err(refusal(TypeKind::Mismatch, at)),
    }
}

/// `&&` (C11, 6.5.13).
#[tactic(auto, unfolding(c_typing::specs::Expressions::both_true), using(check_types::proofs::VisitLaws::tells_refused))]
fn both(alloc: Global, at: u32, left: Value, right: Value) -> Result<Operand, Refusal>
    ensures { Tells (both_true at left right) result }
{
    let left = scalar_of(at, left)?;
    let right = scalar_of(at, right)?;
    let tree = Boxed::new(alloc, TypedExpr::And(left, right))?;
    Ok(given_operand(at, INT, tree))
}

/// `||` (C11, 6.5.14).
#[tactic(auto, unfolding(c_typing::specs::Expressions::either_true), using(check_types::proofs::VisitLaws::tells_refused))]
fn either(alloc: Global, at: u32, left: Value, right: Value) -> Result<Operand, Refusal>
    ensures { Tells (either_true at left right) result }
{
    let left = scalar_of(at, left)?;
    let right = scalar_of(at, right)?;
    let tree = Boxed::new(alloc, TypedExpr::Or(left, right))?;
    Ok(given_operand(at, INT, tree))
}

/// An operator between two values.
pub fn apply_binary(
    alloc: Global,
    operator: BinaryOp,
    at: u32,
    left: Value,
    right: Value,
) -> Result<Operand, Refusal>
    ensures { Tells (operated operator at left right) result }
{
    match operator {
        BinaryOp::Or => either(alloc, at, left, right),
        BinaryOp::And => both(alloc, at, left, right),
        BinaryOp::BitOr => compute(alloc, Arithmetic::BitOr, at, left, right),
        BinaryOp::BitXor => compute(alloc, Arithmetic::BitXor, at, left, right),
        BinaryOp::BitAnd => compute(alloc, Arithmetic::BitAnd, at, left, right),
        BinaryOp::Equal => equate(alloc, Comparison::Equal, at, left, right),
        BinaryOp::NotEqual => equate(alloc, Comparison::NotEqual, at, left, right),
        BinaryOp::Less => order(alloc, Comparison::Less, at, left, right),
        BinaryOp::LessEqual => order(alloc, Comparison::LessEqual, at, left, right),
        BinaryOp::Greater => order(alloc, Comparison::Greater, at, left, right),
        BinaryOp::GreaterEqual => order(alloc, Comparison::GreaterEqual, at, left, right),
        BinaryOp::ShiftLeft => shift(alloc, Arithmetic::ShiftLeft, at, left, right),
        BinaryOp::ShiftRight => shift(alloc, Arithmetic::ShiftRight, at, left, right),
        BinaryOp::Add => compute(alloc, Arithmetic::Add, at, left, right),
        BinaryOp::Subtract => compute(alloc, Arithmetic::Subtract, at, left, right),
        BinaryOp::Multiply => compute(alloc, Arithmetic::Multiply, at, left, right),
        BinaryOp::Divide => compute(alloc, Arithmetic::Divide, at, left, right),
        BinaryOp::Remainder => compute(alloc, Arithmetic::Remainder, at, left, right),
    }
}

fn choose_in(
    alloc: Global,
    ty: Ty,
    test: Boxed<TypedExpr>,
    left: Value,
    right: Value,
) -> Result<Option<Boxed<TypedExpr>>, AllocError>
    ensures { IfOk result (λ r. r ≡ both_in ty left right (TypedExpr.Conditional ty test)) }
{
    let Some(left) = convert_to(alloc, ty, left)? else {
        return Ok(None);
    };
    let Some(right) = convert_to(alloc, ty, right)? else {
        return Ok(None);
    };
    let tree = Boxed::new(alloc, TypedExpr::Conditional(ty, test, left, right))?;
    Ok(Some(tree))
}

/// `test ? left : right` (C11, 6.5.15).
#[tactic(auto, unfolding(c_typing::specs::Expressions::chosen), using(check_types::proofs::VisitLaws::tells_refused))]
pub fn choose(
    alloc: Global,
    at: u32,
    test: Value,
    left: Value,
    right: Value,
) -> Result<Operand, Refusal>
    ensures { Tells (chosen at test left right) result }
{
    let test = scalar_of(at, test)?;
    let Some(ty) = join(&left, &right) else {
        return Err(refusal(TypeKind::Mismatch, at));
    };
    match choose_in(alloc, ty, test, left, right)? {
        Some(tree) => Ok(given_operand(at, ty, tree)),
        None => Err(refusal(TypeKind::Mismatch, at)),
    }
}
