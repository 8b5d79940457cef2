ghost use Rattle.std.specs.Prelude.{◌≡◌, ◌+◌, ◌-◌, ◌<◌, ◌≤◌, ℕ, MatchOption};
ghost use Rattle.c_program.specs.Nodes.{small};
ghost use Rattle.c_program.specs.FrameBytes.{struct_bytes};
ghost use Rattle.c_program.specs.declared.expressions.TypedExpr.{out-TypedExpr};
ghost use Rattle.c_meaning.specs.Costs.{call_cost, expr_cost as cost_in, declarator_cost as declarator_cost_in};

use c_program::{Declared, TypedExpr};
use c_types::{Ty, Types, size};

/// The bytes of a struct, and none of another type.
fn of_struct(types: &Types, ty: Ty) -> u64
    ensures { result ≡ struct_bytes types.now ty }
{
    match ty {
        Ty::Struct(_) => size(types, ty),
        _ => 0,
    }
}

/// The units that a call with so many arguments pays; the largest `u64` where they are more.
pub fn call_cost(arguments: usize) -> u64
    ensures { result ≡ small (9 + arguments) }
{
    (arguments as u64).saturating_add(9)
}

/// The units that one evaluation of an expression pays; the largest `u64` where they are more.
#[tactic(auto, using(crate::proofs::CostLaws::costs))]
pub fn expr_cost(types: &Types, e: &TypedExpr) -> u64
    ensures { result ≡ small (cost_in types.now (out-TypedExpr e.now)) }
{
    match e {
        TypedExpr::Number(_, _)
        | TypedExpr::Char(_)
        | TypedExpr::Null(_)
        | TypedExpr::Function(_, _)
        | TypedExpr::Address(_, _)
        | TypedExpr::Same(_)
        | TypedExpr::Negate(_, _)
        | TypedExpr::Complement(_, _)
        | TypedExpr::Not(_)
        | TypedExpr::Convert(_, _)
        | TypedExpr::Binary(_, _, _, _)
        | TypedExpr::Compare(_, _, _, _)
        | TypedExpr::And(_, _)
        | TypedExpr::Or(_, _)
        | TypedExpr::Update(_, _, _, _, _)
        | TypedExpr::Before(_, _, _)
        | TypedExpr::After(_, _, _)
        | TypedExpr::VaArg(_) => 1,
        TypedExpr::Load(ty, _)
        | TypedExpr::Conditional(ty, _, _, _)
        | TypedExpr::Assign(ty, _, _)
        | TypedExpr::FieldOf(ty, _, _, _)
        | TypedExpr::ElementOf(ty, _, _, _) => of_struct(types, *ty).saturating_add(1),
        TypedExpr::Call(ty, _, arguments) | TypedExpr::CallPointer(ty, _, _, arguments) => {
            call_cost(arguments.len()).saturating_add(of_struct(types, *ty))
        }
        TypedExpr::CallService(_, arguments) => call_cost(arguments.len()),
    }
}

/// The units that one evaluation of a declarator pays; the largest `u64` where they are more.
pub fn declarator_cost(types: &Types, declared: &Declared) -> u64
    ensures { result ≡ small (declarator_cost_in types.now declared.now) }
{
    size(types, declared.ty).saturating_add(1)
}

/// The units left after so many, where they are there.
pub fn after_paying(cost: u64, left: u64) -> Option<u64>
    requires { left < 18446744073709551615 }
    ensures { (n : ℕ) → cost ≡ small n → MatchOption result (left < n) (λ rest. (n ≤ left) × (rest ≡ left - n)) }
{
    left.checked_sub(cost)
}
