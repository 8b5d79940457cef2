use crate::declarations::Decl;
use crate::expressions::{Base, Expr, Name};
use c_types::Span;
use hx_words::{Boxed, Items};

/// A local variable and its initial value.
#[derive(Drop)]
pub struct LocalDecl {
    pub decl: Decl,
    pub init: Option<Boxed<Expr>>,
}

/// A declaration of locals.
#[derive(Drop)]
pub enum Local {
    Declared(Base, Items<LocalDecl>),
    /// `va_list ID ;`
    VaList(Span, Name),
}

/// What stands before the first `;` of a `for`.
#[derive(Drop)]
pub enum ForStart {
    /// Locals, which are no `va_list`.
    Local(Base, Items<LocalDecl>),
    Effect(Boxed<Expr>),
    Nothing,
}

/// What a block holds.
#[cycle(statements)]
#[derive(Drop)]
pub enum BlockItem {
    Local(Local),
    Stmt(Boxed<Stmt>),
}

/// A statement, with the place of its first word or mark.
#[cycle(statements)]
#[derive(Drop)]
pub enum Stmt {
    Block(Span, Items<BlockItem>),
    Empty(Span),
    /// An assignment, `++`, `--` or a call.
    Effect(Boxed<Expr>),
    Break(Span),
    Continue(Span),
    If(Span, Boxed<Expr>, Boxed<Stmt>),
    IfElse(Span, Boxed<Expr>, Boxed<Stmt>, Boxed<Stmt>),
    While(Span, Boxed<Expr>, Boxed<Stmt>),
    Do(Span, Boxed<Stmt>, Boxed<Expr>),
    /// The start, the condition, the step and the body.
    For(Span, ForStart, Option<Boxed<Expr>>, Option<Boxed<Expr>>, Boxed<Stmt>),
    Return(Span, Option<Boxed<Expr>>),
    /// `va_start ( ID , ID ) ;`
    VaStart(Span, Name, Name),
    /// `va_end ( ID ) ;`
    VaEnd(Span, Name),
}
