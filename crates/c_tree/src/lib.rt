//! The trees of the C subset: a unit as it is written, one variant for each production of the grammar
//! (docs/LANGUAGE.md), its parts in order.
//!
//! Each part that a token stands for has that token's [`Span`]: a name, a literal, an operator, an
//! opening mark, a leading word, a star of a pointer. Where a production begins with one of its own
//! parts, its first token is that part's. Parentheses, commas and semicolons that a tree doesn't need
//! are left out, but a parenthesised expression is a node. [`height`] counts the nodes on the longest
//! path from the root.
#![tactic(auto)]

mod declarations;
mod expressions;
mod measure;
mod operators;
mod statements;

pub use c_types::{IntTy, Span};
pub use declarations::{
    Decl, Field, FunctionHead, GlobalDecl, Init, Item, Param, Params, Step, Unit,
};
pub use expressions::{Base, Expr, Literal, Name, TypeName};
pub use measure::height;
pub use operators::{AssignOp, BinaryOp, Selector, UnaryOp};
pub use statements::{BlockItem, ForStart, Local, LocalDecl, Stmt};
