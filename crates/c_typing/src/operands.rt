use c_program::{Place, Service, Target, TypedExpr};
use c_types::Ty;
use hx_words::Boxed;

/// An expression that has been evaluated for its value, which is void or an array only before it is
/// used. A number as it is written has its value beside it.
#[derive(Drop)]
pub struct Value {
    pub ty: Ty,
    pub tree: Boxed<TypedExpr>,
    pub literal: Option<u64>,
}

/// What an expression designates before it is used.
#[derive(Drop)]
pub enum Designated {
    Value(Value),
    /// A place of this type; whether it begins at a local without passing a pointer.
    Place(Ty, Boxed<Place>, bool),
    /// The name of a function or an adjustor, with its type's place in `funs`.
    Function(u32, Target),
    Service(Service),
    Typedef,
    VaList,
}

/// An expression that was visited: the place of a fault of its own, and what it designates.
#[derive(Drop)]
pub struct Operand {
    pub at: u32,
    pub what: Designated,
}
