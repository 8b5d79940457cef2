ghost use Rattle.std.specs.Prelude.{◌≡◌};
ghost use Rattle.c_typing.specs.Visits.{Tells};
ghost use Rattle.c_typing.specs.Expressions.{given, found, integer_of};

use c_program::{Place, TypedExpr};
use c_types::{IntTy, Ty};
use c_typing::{Designated, Operand, Refusal, TypeKind, Value};
use check_types::{as_integer, refusal};
use hx_words::Boxed;

pub const INT: Ty = Ty::Int(IntTy::I32);

/// A value that a form gives.
pub fn given_operand(at: u32, ty: Ty, tree: Boxed<TypedExpr>) -> Operand
    ensures { result ≡ given at ty tree }
{
    Operand {
        at,
        what: Designated::Value(Value {
            ty,
            tree,
            literal: None,
        }),
    }
}

/// A place that a form finds.
pub fn found_operand(at: u32, ty: Ty, place: Boxed<Place>, local: bool) -> Operand
    ensures { result ≡ found at ty place local }
{
    Operand {
        at,
        what: Designated::Place(ty, place, local),
    }
}

/// The type of an operand that must be an integer.
pub fn integer_type(at: u32, value: &Value) -> Result<IntTy, Refusal>
    ensures { Tells (integer_of at value.now) result }
{
    match as_integer(value.ty) {
        Some(int) => Ok(int),
        None => Err(refusal(TypeKind::NotInteger, at)),
    }
}
