use crate::operators::{AssignOp, BinaryOp, Selector, UnaryOp};
use c_types::{IntTy, Span};
use hx_words::{Boxed, Items};

/// An identifier.
#[derive(Drop)]
pub struct Name {
    pub text: Items<u8>,
    pub span: Span,
}

/// A number with its C type.
#[derive(Clone, Copy, Debug, PartialEq, Eq)]
pub struct Literal {
    pub value: u64,
    pub ty: IntTy,
    pub span: Span,
}

/// A type before its stars: `void`, an integer type, `struct` and a tag, or a typedef's name. The
/// span is that of the first word.
#[derive(Drop)]
pub enum Base {
    Void(Span),
    Int(IntTy, Span),
    Struct(Span, Name),
    Named(Name),
}

/// A type without a declared name: a base and the stars after it.
#[derive(Drop)]
pub struct TypeName {
    pub base: Base,
    pub stars: Items<Span>,
}

/// An expression. A span without a part of its own is that of the operator or the leading token.
#[derive(Drop)]
pub enum Expr {
    Name(Name),
    Number(Literal),
    Char(i32, Span),
    /// `( assign )`
    Paren(Span, Boxed<Expr>),
    /// `va_arg ( ID , type )`
    VaArg(Span, Name, TypeName),
    /// A call, with the place of its `(`.
    Call(Boxed<Expr>, Span, Items<Expr>),
    /// `postfix [ assign ]`, with the place of `[`.
    Index(Boxed<Expr>, Span, Boxed<Expr>),
    /// `postfix . ID` or `postfix -> ID`.
    Select(Boxed<Expr>, Selector, Span, Name),
    PostIncrement(Boxed<Expr>, Span),
    PostDecrement(Boxed<Expr>, Span),
    /// A prefix operator and its operand.
    Unary(UnaryOp, Span, Boxed<Expr>),
    /// `( inttype ) unary`, with the places of `(` and of the type.
    Cast(Span, IntTy, Span, Boxed<Expr>),
    /// `sizeof ( type )`
    SizeOf(Span, TypeName),
    Binary(BinaryOp, Span, Boxed<Expr>, Boxed<Expr>),
    /// `binary ? assign : cond`, with the place of `?`.
    Conditional(Boxed<Expr>, Span, Boxed<Expr>, Boxed<Expr>),
    Assign(AssignOp, Span, Boxed<Expr>, Boxed<Expr>),
}
