ghost use Rattle.std.specs.Prelude.{◌≡◌};
ghost use Rattle.c_typing.specs.Visits.{Tells};
ghost use Rattle.c_typing.specs.Expressions.{stored, work_type, updated, assigned};

use crate::parts::{given_operand, integer_type};
use crate::prefix::{integer_place_of, place_of};
use c_program::{Arithmetic, TypedExpr};
use c_tree::AssignOp;
use c_types::{IntTy, Ty};
use c_typing::{Operand, Refusal, TypeKind, Value};
use check_types::{common_type, convert_to, promote, refusal};
use hx_words::Boxed;
use std::alloc::Global;

/// `p = e` (C11, 6.5.16.1).
#[tactic(auto, unfolding(c_typing::specs::Expressions::stored), using(check_types::proofs::VisitLaws::tells_refused))]
fn store(alloc: Global, at: u32, operand: Operand, value: Value) -> Result<Operand, Refusal>
    ensures { Tells (stored at operand value) result }
{
    let (ty, place) = place_of(at, operand)?;
    match convert_to(alloc, ty, value)? {
        Some(value) => {
            let tree = Boxed::new(alloc, TypedExpr::Assign(ty, place, value))?;
            Ok(given_operand(at, ty, tree))
        }
        None => Err(refusal(TypeKind::Mismatch, at)),
    }
}

/// The type in which a compound assignment works: that of its operator between the two values.
fn work_type_of(operator: Arithmetic, left: IntTy, right: IntTy) -> IntTy
    ensures { result ≡ work_type operator left right }
{
    match operator {
        Arithmetic::ShiftLeft | Arithmetic::ShiftRight => promote(left),
        Arithmetic::Add
        | Arithmetic::Subtract
        | Arithmetic::Multiply
        | Arithmetic::Divide
        | Arithmetic::Remainder
        | Arithmetic::BitAnd
        | Arithmetic::BitOr
        | Arithmetic::BitXor => common_type(left, right),
    }
}

/// `p op= e` (C11, 6.5.16.2): the right side stands as it is, since the node includes its conversions.
#[tactic(auto, unfolding(c_typing::specs::Expressions::updated), using(check_types::proofs::VisitLaws::tells_refused))]
fn update(
    alloc: Global,
    operator: Arithmetic,
    at: u32,
    operand: Operand,
    value: Value,
) -> Result<Operand, Refusal>
    ensures { Tells (updated operator at operand value) result }
{
    let (int, place) = integer_place_of(at, operand)?;
    let other = integer_type(at, &value)?;
    let work = work_type_of(operator, int, other);
    let tree = TypedExpr::Update(operator, int, work, place, value.tree);
    let tree = Boxed::new(alloc, tree)?;
    Ok(given_operand(at, Ty::Int(int), tree))
}

/// An assignment to what an operand designates.
pub fn apply_assign(
    alloc: Global,
    operator: AssignOp,
    at: u32,
    operand: Operand,
    value: Value,
) -> Result<Operand, Refusal>
    ensures { Tells (assigned operator at operand value) result }
{
    match operator {
        AssignOp::Set => store(alloc, at, operand, value),
        AssignOp::Add => update(alloc, Arithmetic::Add, at, operand, value),
        AssignOp::Subtract => update(alloc, Arithmetic::Subtract, at, operand, value),
        AssignOp::Multiply => update(alloc, Arithmetic::Multiply, at, operand, value),
        AssignOp::Divide => update(alloc, Arithmetic::Divide, at, operand, value),
        AssignOp::Remainder => update(alloc, Arithmetic::Remainder, at, operand, value),
        AssignOp::BitAnd => update(alloc, Arithmetic::BitAnd, at, operand, value),
        AssignOp::BitOr => update(alloc, Arithmetic::BitOr, at, operand, value),
        AssignOp::BitXor => update(alloc, Arithmetic::BitXor, at, operand, value),
        AssignOp::ShiftLeft => update(alloc, Arithmetic::ShiftLeft, at, operand, value),
        AssignOp::ShiftRight => update(alloc, Arithmetic::ShiftRight, at, operand, value),
    }
}
