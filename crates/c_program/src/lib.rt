//! A checked program: the typed trees that the meaning and the lowering of the language go by.
//!
//! Every name is resolved to a place in a list, every conversion is written out, and each node that
//! units of work are counted by is a node of these trees: a statement, a declarator, an expression,
//! an inserted conversion. Parentheses are gone. A place ([`Place`]) is what C calls an lvalue: its
//! evaluation finds an object and reads nothing of it; [`TypedExpr`] is a value.
#![tactic(auto)]

mod counting;
mod expressions;
mod frames;
mod named;
mod program;
mod statements;
mod value_types;

pub use c_types::{IntTy, Ty, Types};
pub use counting::{nodes, nodes_of_function};
pub use expressions::{Arithmetic, Comparison, Place, Service, Target, TypedExpr};
pub use frames::frame_bytes;
pub use named::function_named;
pub use program::{
    AdjustDef, Constant, FunDef, FunctionBody, GlobalBody, GlobalDef, PathStep, Program,
};
pub use statements::{Declared, ForBegin, TypedItem, TypedStmt};
pub use value_types::type_of;
