ghost use Rattle.std.specs.Prelude.{◌≡◌};
ghost use Rattle.parse_stmt.specs.StmtMachine.{body_start, idle};

use crate::parts::{Body, Capped, DeclsPart, ExprPart, ForHead, OptionPart, StmtPart, empty_items};
use c_tree::{Base, Decl, ForStart, Name};
use c_types::Span;
use parse_expr::{ExprState, Focus as ExprFocus};
use parse_terms::{DeclState, Stack, TypeState};
use std::alloc::Global;
use std::mem;

/// Where locals are declared.
#[derive(Clone, Copy)]
pub enum LocalPlace {
    Block,
    /// Behind `for (`, with the place of `for`.
    For(Span),
}

/// What a `(` opens, with the place of the statement's word.
#[derive(Drop)]
pub enum Header {
    If(Span),
    While(Span),
    /// `do statement while`
    Do(Span, StmtPart),
    For(Span),
    VaStart(Span),
    VaEnd(Span),
}

/// Where an expression may stand or not, with the place of the statement's word.
#[derive(Drop)]
pub enum Slot {
    /// Behind `for (`.
    Start(Span),
    /// Behind the first `;` of a `for`.
    Test(Span, Capped<ForStart>),
    /// Behind the second `;` of a `for`.
    Step(Span, Capped<ForStart>, OptionPart),
    Return(Span),
}

/// Where the expression that is being read stands.
#[derive(Drop)]
pub enum Hole {
    /// It is a statement.
    Effect,
    If(Span),
    While(Span),
    Do(Span, StmtPart),
    /// Behind the `=` of a declarator, with the declarators before it.
    Init(LocalPlace, Base, DeclsPart, Decl),
    Slot(Slot),
}

/// What waits for the statement that is being read.
#[derive(Drop)]
pub enum Frame {
    /// `{`, and what stands before it in the block around it.
    Nested(Span, Body),
    /// `if ( test )`
    Then(Span, ExprPart),
    /// `if ( test ) statement else`
    Else(Span, ExprPart, StmtPart),
    /// `while ( test )`
    While(Span, ExprPart),
    /// `do`
    Do(Span),
    /// `for ( .. )`
    For(Span, Capped<ForHead>),
}

/// What comes next.
#[derive(Drop)]
pub enum Focus {
    /// A local or a statement is to begin, or the block ends.
    Item,
    /// A statement is to begin.
    Stmt,
    /// A statement has been read, but for an `else`.
    Ended(StmtPart),
    /// A `(` is to come.
    Paren(Header),
    /// A `;` is to come, which ends the statement.
    Semicolon(StmtPart),
    /// In an expression.
    Expr(Hole),
    /// An expression may begin.
    Optional(Slot),
    /// After a name, where a local or an effect begins.
    Bare(LocalPlace, Name),
    /// In the type of locals.
    Typing(LocalPlace, TypeState),
    /// In a declarator, with those before it.
    Declaring(LocalPlace, Base, DeclsPart, DeclState),
    /// After `va_list`.
    VaList(Span),
    /// After `va_list ID`.
    VaListEnd(Span, Name),
    /// After `va_start (`.
    VaStartName(Span),
    /// After `va_start ( ID`.
    VaStartComma(Span, Name),
    /// After `va_start ( ID ,`.
    VaStartLast(Span, Name),
    /// After `va_end (`.
    VaEndName(Span),
    /// A `)` is to come, and then a `;`.
    VaClose(StmtPart),
}

/// A function's body that is being read, from behind its `{`.
#[derive(Drop)]
pub struct BodyState {
    pub focus: Focus,
    /// The expression at hand, where there is one.
    pub expr: ExprState,
    /// What the innermost block holds so far.
    pub done: Body,
    pub frames: Stack<Frame>,
}

impl BodyState {
    /// Something else comes next. What came before is dropped by a call, whose proof is shared.
    pub fn go_to(&mut self, focus: Focus)
        ensures { self.new ≡ record self.old { focus = focus } }
    {
        drop(mem::replace(&mut self.focus, focus));
    }

    /// Another expression is at hand. The last one is dropped by a call, too.
    pub fn take_expr(&mut self, expr: ExprState)
        ensures { self.new ≡ record self.old { expr = expr } }
    {
        drop(mem::replace(&mut self.expr, expr));
    }
}

/// An expression that hasn't begun.
pub fn begin_expr(alloc: Global, effect: bool) -> ExprState
    ensures { result ≡ record idle { effect = effect } }
{
    ExprState {
        effect,
        focus: ExprFocus::Operand,
        frames: Stack::new(alloc),
    }
}

/// Where a function's body begins, after its `{`.
pub fn begin_body(alloc: Global) -> BodyState
    ensures { result ≡ body_start }
{
    BodyState {
        focus: Focus::Item,
        expr: begin_expr(alloc, false),
        done: empty_items(alloc),
        frames: Stack::new(alloc),
    }
}
