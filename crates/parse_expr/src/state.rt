ghost use Rattle.std.specs.Prelude.{◌≡◌};

use crate::parts::{Part, Parts};
use c_tree::{AssignOp, BinaryOp, Name, Selector, UnaryOp};
use c_types::{IntTy, Span};
use parse_terms::{IntWords, Stack, TypeState};
use std::mem;

/// What waits for the expression that is being read.
#[derive(Drop)]
pub enum Frame {
    Prefix(UnaryOp, Span),
    /// `(`, a type and its place.
    Casting(Span, IntTy, Span),
    Paren(Span),
    Calling(Part, Span, Parts),
    Indexing(Part, Span),
    Left(BinaryOp, Span, Part),
    /// `test ?`
    Asking(Part, Span),
    /// `test ? value :`
    Choosing(Part, Span, Part),
    Assigning(AssignOp, Span, Part),
}

/// What comes next.
#[derive(Drop)]
pub enum Focus {
    /// An operand is to begin.
    Operand,
    /// After `(` where an operand begins.
    Parened(Span),
    /// In the type of a cast.
    CastWords(Span, Span, IntWords),
    /// After `(` of a call: an argument is to begin, or the arguments end.
    Argument(Part, Span),
    /// After `.` or `->`.
    Selecting(Part, Selector, Span),
    /// After `sizeof`.
    SizeOpen(Span),
    /// In the type behind `sizeof (`.
    SizeType(Span, TypeState),
    /// After `va_arg`.
    VaOpen(Span),
    /// After `va_arg (`.
    VaName(Span),
    /// After `va_arg ( ID`.
    VaComma(Span, Name),
    /// In the type behind `va_arg ( ID ,`.
    VaType(Span, Name, TypeState),
    /// A postfix expression has been read.
    Operated(Part),
    /// A unary expression that is no postfix one has been read.
    Whole(Part),
}

/// An expression that is being read.
#[derive(Drop)]
pub struct ExprState {
    /// Whether its outermost form must be an assignment, `++`, `--` or a call.
    pub effect: bool,
    pub focus: Focus,
    pub frames: Stack<Frame>,
}

impl ExprState {
    /// Something else comes next. What came before is dropped by a call, whose proof is shared.
    pub fn go_to(&mut self, focus: Focus)
        ensures { self.new ≡ record self.old { focus = focus } }
    {
        drop(mem::replace(&mut self.focus, focus));
    }
}
