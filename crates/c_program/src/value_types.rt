ghost use Rattle.std.specs.Prelude.{◌≡◌};
ghost use Rattle.c_program.specs.ValueTypes.{service_type, value_type};

use crate::expressions::{Service, TypedExpr};
use c_types::{IntTy, Ty};

fn service_type_of(service: Service) -> Ty
    ensures { result ≡ service_type service }
{
    match service {
        Service::PutByte | Service::Exit => Ty::Void,
        Service::GetByte => Ty::Int(IntTy::I32),
    }
}

/// The type of an expression's value (C11, 6.5). It takes no memory.
#[tactic(auto, using(crate::proofs::ValueTypeLaws::value_types))]
pub fn type_of(e: &TypedExpr) -> Ty
    ensures { result ≡ value_type e.now }
{
    match e {
        TypedExpr::Number(int, _)
        | TypedExpr::Negate(int, _)
        | TypedExpr::Complement(int, _)
        | TypedExpr::Convert(int, _)
        | TypedExpr::Binary(_, int, _, _)
        | TypedExpr::Update(_, int, _, _, _)
        | TypedExpr::Before(int, _, _)
        | TypedExpr::After(int, _, _)
        | TypedExpr::VaArg(int) => Ty::Int(*int),
        TypedExpr::Char(_)
        | TypedExpr::Not(_)
        | TypedExpr::Compare(_, _, _, _)
        | TypedExpr::And(_, _)
        | TypedExpr::Or(_, _) => Ty::Int(IntTy::I32),
        TypedExpr::Null(ty)
        | TypedExpr::Function(ty, _)
        | TypedExpr::Load(ty, _)
        | TypedExpr::Address(ty, _)
        | TypedExpr::Conditional(ty, _, _, _)
        | TypedExpr::Assign(ty, _, _)
        | TypedExpr::Call(ty, _, _)
        | TypedExpr::CallPointer(ty, _, _, _)
        | TypedExpr::FieldOf(ty, _, _, _)
        | TypedExpr::ElementOf(ty, _, _, _) => *ty,
        TypedExpr::Same(operand) => type_of(operand.get()),
        TypedExpr::CallService(service, _) => service_type_of(*service),
    }
}
