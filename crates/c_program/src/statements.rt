use crate::expressions::TypedExpr;
use c_types::Ty;
use hx_words::{Boxed, Items};

/// A declarator of a local: the local's number and type, and its initial value.
#[derive(Drop)]
pub struct Declared {
    pub local: u32,
    pub ty: Ty,
    pub init: Option<Boxed<TypedExpr>>,
}

/// What stands before the first `;` of a `for`.
#[derive(Drop)]
pub enum ForBegin {
    Locals(Items<Declared>),
    Effect(Boxed<TypedExpr>),
    Nothing,
}

/// What a block holds. A declaration of locals is its declarators, one after the other.
#[cycle(statements)]
#[derive(Drop)]
pub enum TypedItem {
    Declare(Declared),
    /// A declarator of the `va_list`: `va_start` is no longer in force.
    VaList,
    Stmt(Boxed<TypedStmt>),
}

/// A statement.
#[cycle(statements)]
#[derive(Drop)]
pub enum TypedStmt {
    Block(Items<TypedItem>),
    Empty,
    Effect(Boxed<TypedExpr>),
    Break,
    Continue,
    If(Boxed<TypedExpr>, Boxed<TypedStmt>),
    IfElse(Boxed<TypedExpr>, Boxed<TypedStmt>, Boxed<TypedStmt>),
    While(Boxed<TypedExpr>, Boxed<TypedStmt>),
    Do(Boxed<TypedStmt>, Boxed<TypedExpr>),
    /// The start, the condition, the step and the body.
    For(ForBegin, Option<Boxed<TypedExpr>>, Option<Boxed<TypedExpr>>, Boxed<TypedStmt>),
    Return(Option<Boxed<TypedExpr>>),
    VaStart,
    VaEnd,
}
