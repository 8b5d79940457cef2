ghost use Rattle.std.specs.Prelude.{◌≡◌, IfOk};
ghost use Rattle.parse_expr.specs.declared.state.ExprState.{ExprState};
ghost use Rattle.parse_expr.specs.Operators.{level};
ghost use Rattle.parse_expr.specs.ExprMachine.{Says, binds, closed, reduce, is_free, is_assignable, left_of, asking_of, assigning_of, finish_part, close_of, bracket_of, colon_of, comma_of, semicolon_of, followed, operated_step, is_postfix, whole_step, expr_step};

use crate::operand::{
    with_argument, with_cast, with_operand, with_paren, with_parened, with_selected,
    with_size_type, with_va_comma, with_va_name, with_va_type,
};
use crate::operators::{Follower, as_follower, level_of};
use crate::parts::{
    Part, add, assign, call, choose, convert, decrement, has_part_effect, increment, join,
    parenthesize, prefix, subscript,
};
use crate::state::{ExprState, Focus, Frame};
use c_tree::{AssignOp, BinaryOp};
use c_types::Span;
use parse_terms::{Sort, Stack, Terminal, TypeState, Verdict};
use std::alloc::{AllocError, Global};
use std::mem;

/// Whether what waits in a frame binds at the level or tighter.
fn binds_at(least: u32, frame: &Frame) -> bool
    ensures { result ≡ binds least frame.now }
{
    match frame {
        Frame::Prefix(_, _) | Frame::Casting(_, _, _) => true,
        Frame::Left(operator, _, _) => least <= level_of(*operator),
        Frame::Choosing(_, _, _) | Frame::Assigning(_, _, _) => least == 0,
        _ => false,
    }
}

/// Closes a frame with its last part.
fn close(alloc: Global, frame: Frame, part: Part) -> Result<Part, AllocError>
    ensures { IfOk result (λ r. r ≡ closed 256 frame part) }
{
    match frame {
        Frame::Prefix(operator, at) => prefix(alloc, operator, at, part),
        Frame::Casting(at, ty, ty_at) => convert(alloc, at, ty, ty_at, part),
        Frame::Left(operator, at, left) => join(alloc, operator, at, left, part),
        Frame::Choosing(test, at, left) => choose(alloc, test, at, left, part),
        Frame::Assigning(operator, at, left) => assign(alloc, operator, at, left, part),
        other => {
            drop(other);
            Ok(part)
        }
    }
}

/// Closes what binds at the level or tighter.
#[tactic(auto, using(crate::proofs::ReduceLaws::reduce_frame))]
fn reduced(
    alloc: Global,
    least: u32,
    part: Part,
    frames: Stack<Frame>,
) -> Result<(Part, Stack<Frame>), AllocError>
    ensures { IfOk result (λ r. r ≡ reduce 256 least part frames) }
{
    let mut part = part;
    let mut frames = frames;
    while let Some(frame) = frames.pop() {
        if !binds_at(least, &frame) {
            frames.push(frame)?;
            return Ok((part, frames));
        }
        part = close(alloc, frame, part)?;
    }
    Ok((part, frames))
}

/// Closes what binds at the level or tighter.
fn reduce_in(
    alloc: Global,
    least: u32,
    part: Part,
    state: &mut ExprState,
) -> Result<Part, AllocError>
    ensures value { IfOk result (λ r. r ≡ (reduce 256 least part state.old.frames).0) }
    ensures rest { IfOk result (λ r. state.new ≡ record state.old { frames = (reduce 256 least part state.old.frames).1 }) }
{
    let frames = mem::replace(&mut state.frames, Stack::new(alloc));
    let (whole, frames) = reduced(alloc, least, part, frames)?;
    state.frames = frames;
    Ok(whole)
}

/// Whether an operator may follow.
fn frees(effect: bool, frames: &mut Stack<Frame>) -> Result<bool, AllocError>
    ensures value { IfOk result (λ r. r ≡ is_free effect frames.old) }
    ensures same { IfOk result (λ r. frames.new ≡ frames.old) }
{
    match frames.pop() {
        Some(frame) => {
            frames.push(frame)?;
            Ok(true)
        }
        None => Ok(!effect),
    }
}

/// Whether an assignment may follow a unary.
fn assignable(frames: &mut Stack<Frame>) -> Result<bool, AllocError>
    ensures value { IfOk result (λ r. r ≡ is_assignable frames.old) }
    ensures same { IfOk result (λ r. frames.new ≡ frames.old) }
{
    match frames.pop() {
        Some(frame) => {
            let takes = !matches!(
                &frame,
                Frame::Prefix(_, _)
                    | Frame::Casting(_, _, _)
                    | Frame::Left(_, _, _)
                    | Frame::Choosing(_, _, _)
            );
            frames.push(frame)?;
            Ok(takes)
        }
        None => Ok(true),
    }
}

fn with_left(
    alloc: Global,
    operator: BinaryOp,
    at: Span,
    part: Part,
    state: &mut ExprState,
) -> Result<Verdict<Part>, AllocError>
    ensures { IfOk result (λ r. Says r (left_of operator at state.old.effect (reduce 256 (level operator) part state.old.frames)) state.new) }
{
    let left = reduce_in(alloc, level_of(operator), part, state)?;
    if frees(state.effect, &mut state.frames)? {
        state.frames.push(Frame::Left(operator, at, left))?;
        state.go_to(Focus::Operand);
        Ok(Verdict::More)
    } else {
        Ok(Verdict::Bad)
    }
}

fn with_question(
    alloc: Global,
    at: Span,
    part: Part,
    state: &mut ExprState,
) -> Result<Verdict<Part>, AllocError>
    ensures { IfOk result (λ r. Says r (asking_of at state.old.effect (reduce 256 1 part state.old.frames)) state.new) }
{
    let test = reduce_in(alloc, 1, part, state)?;
    if frees(state.effect, &mut state.frames)? {
        state.frames.push(Frame::Asking(test, at))?;
        state.go_to(Focus::Operand);
        Ok(Verdict::More)
    } else {
        Ok(Verdict::Bad)
    }
}

fn with_assign(
    alloc: Global,
    operator: AssignOp,
    at: Span,
    part: Part,
    state: &mut ExprState,
) -> Result<Verdict<Part>, AllocError>
    ensures { IfOk result (λ r. Says r (assigning_of operator at state.old.effect (reduce 256 11 part state.old.frames)) state.new) }
{
    let left = reduce_in(alloc, 11, part, state)?;
    if assignable(&mut state.frames)? {
        state.frames.push(Frame::Assigning(operator, at, left))?;
        state.go_to(Focus::Operand);
        Ok(Verdict::More)
    } else {
        Ok(Verdict::Bad)
    }
}

/// The expression is over.
fn finished(effect: bool, part: Part) -> Verdict<Part>
    ensures { (st : ExprState) → Says result (finish_part effect part) st }
{
    if !effect || has_part_effect(&part) {
        Verdict::Done(part)
    } else {
        Verdict::Bad
    }
}

fn with_close(alloc: Global, part: Part, state: &mut ExprState) -> Result<Verdict<Part>, AllocError>
    ensures { IfOk result (λ r. Says r (close_of 256 state.old.effect (reduce 256 0 part state.old.frames).0 (reduce 256 0 part state.old.frames).1) state.new) }
{
    let whole = reduce_in(alloc, 0, part, state)?;
    let Some(frame) = state.frames.pop() else {
        return Ok(finished(state.effect, whole));
    };
    let closed = match frame {
        Frame::Paren(at) => parenthesize(alloc, at, whole)?,
        Frame::Calling(function, at, arguments) => {
            call(alloc, function, at, add(arguments, whole)?)?
        }
        other => {
            drop(other);
            return Ok(Verdict::Bad);
        }
    };
    state.go_to(Focus::Operated(closed));
    Ok(Verdict::More)
}

fn with_bracket(
    alloc: Global,
    part: Part,
    state: &mut ExprState,
) -> Result<Verdict<Part>, AllocError>
    ensures { IfOk result (λ r. Says r (bracket_of 256 state.old.effect (reduce 256 0 part state.old.frames).0 (reduce 256 0 part state.old.frames).1) state.new) }
{
    let whole = reduce_in(alloc, 0, part, state)?;
    match state.frames.pop() {
        Some(Frame::Indexing(array, at)) => {
            let part = subscript(alloc, array, at, whole)?;
            state.go_to(Focus::Operated(part));
            Ok(Verdict::More)
        }
        other => {
            drop(other);
            Ok(Verdict::Bad)
        }
    }
}

fn with_colon(alloc: Global, part: Part, state: &mut ExprState) -> Result<Verdict<Part>, AllocError>
    ensures { IfOk result (λ r. Says r (colon_of state.old.effect (reduce 256 0 part state.old.frames).0 (reduce 256 0 part state.old.frames).1) state.new) }
{
    let whole = reduce_in(alloc, 0, part, state)?;
    match state.frames.pop() {
        Some(Frame::Asking(test, at)) => {
            state.frames.push(Frame::Choosing(test, at, whole))?;
            state.go_to(Focus::Operand);
            Ok(Verdict::More)
        }
        other => {
            drop(other);
            Ok(Verdict::Bad)
        }
    }
}

fn with_comma(alloc: Global, part: Part, state: &mut ExprState) -> Result<Verdict<Part>, AllocError>
    ensures { IfOk result (λ r. Says r (comma_of state.old.effect (reduce 256 0 part state.old.frames).0 (reduce 256 0 part state.old.frames).1) state.new) }
{
    let whole = reduce_in(alloc, 0, part, state)?;
    let Some(frame) = state.frames.pop() else {
        return Ok(finished(state.effect, whole));
    };
    match frame {
        Frame::Calling(function, at, arguments) => {
            let more = add(arguments, whole)?;
            state.frames.push(Frame::Calling(function, at, more))?;
            state.go_to(Focus::Operand);
            Ok(Verdict::More)
        }
        other => {
            drop(other);
            Ok(Verdict::Bad)
        }
    }
}

fn with_semicolon(
    alloc: Global,
    part: Part,
    state: &mut ExprState,
) -> Result<Verdict<Part>, AllocError>
    ensures { IfOk result (λ r. Says r (semicolon_of state.old.effect (reduce 256 0 part state.old.frames).0 (reduce 256 0 part state.old.frames).1) state.new) }
{
    let whole = reduce_in(alloc, 0, part, state)?;
    match state.frames.pop() {
        Some(frame) => {
            drop(frame);
            Ok(Verdict::Bad)
        }
        None => Ok(finished(state.effect, whole)),
    }
}

fn with_follower(
    alloc: Global,
    follower: Follower,
    at: Span,
    part: Part,
    state: &mut ExprState,
) -> Result<Verdict<Part>, AllocError>
    ensures { IfOk result (λ r. Says r (followed 256 follower at part state.old.effect state.old.frames) state.new) }
{
    match follower {
        Follower::OpenParen => state.go_to(Focus::Argument(part, at)),
        Follower::OpenBracket => {
            state.frames.push(Frame::Indexing(part, at))?;
            state.go_to(Focus::Operand);
        }
        Follower::Increment => {
            let part = increment(alloc, part, at)?;
            state.go_to(Focus::Operated(part));
        }
        Follower::Decrement => {
            let part = decrement(alloc, part, at)?;
            state.go_to(Focus::Operated(part));
        }
        Follower::Select(selector) => state.go_to(Focus::Selecting(part, selector, at)),
        Follower::Question => return with_question(alloc, at, part, state),
        Follower::Assign(operator) => return with_assign(alloc, operator, at, part, state),
        Follower::Binary(operator) => return with_left(alloc, operator, at, part, state),
        Follower::CloseParen => return with_close(alloc, part, state),
        Follower::CloseBracket => return with_bracket(alloc, part, state),
        Follower::Colon => return with_colon(alloc, part, state),
        Follower::Comma => return with_comma(alloc, part, state),
        Follower::Semicolon => return with_semicolon(alloc, part, state),
        Follower::Nothing => return Ok(Verdict::Bad),
    }
    Ok(Verdict::More)
}

/// Behind a postfix expression.
fn with_operated(
    alloc: Global,
    token: &Terminal,
    part: Part,
    state: &mut ExprState,
) -> Result<Verdict<Part>, AllocError>
    ensures { IfOk result (λ r. Says r (operated_step 256 token.now.sort token.now.span part state.old.effect state.old.frames) state.new) }
{
    match &token.sort {
        Sort::Mark(mark) => with_follower(alloc, as_follower(*mark), token.span, part, state),
        _ => Ok(Verdict::Bad),
    }
}

fn follows_postfix(follower: Follower) -> bool
    ensures { result ≡ is_postfix follower }
{
    matches!(
        follower,
        Follower::OpenParen
            | Follower::OpenBracket
            | Follower::Increment
            | Follower::Decrement
            | Follower::Select(_)
    )
}

/// Behind a unary that is no postfix expression.
fn with_whole(
    alloc: Global,
    token: &Terminal,
    part: Part,
    state: &mut ExprState,
) -> Result<Verdict<Part>, AllocError>
    ensures { IfOk result (λ r. Says r (whole_step 256 token.now.sort token.now.span part state.old.effect state.old.frames) state.new) }
{
    let Sort::Mark(mark) = &token.sort else {
        return Ok(Verdict::Bad);
    };
    let follower = as_follower(*mark);
    if follows_postfix(follower) {
        Ok(Verdict::Bad)
    } else {
        with_follower(alloc, follower, token.span, part, state)
    }
}

/// An expression takes a token. After [`Verdict::Done`] and [`Verdict::Bad`] the state is spent.
pub fn step_expr(
    alloc: Global,
    token: &Terminal,
    state: &mut ExprState,
) -> Result<Verdict<Part>, AllocError>
    ensures { IfOk result (λ r. Says r (expr_step 256 token.now state.old) state.new) }
{
    match mem::replace(&mut state.focus, Focus::Operand) {
        Focus::Operand => with_operand(alloc, token, state),
        Focus::Parened(paren) => with_parened(alloc, token, paren, state),
        Focus::CastWords(paren, first, words) => with_cast(token, words, paren, first, state),
        Focus::Argument(function, paren) => with_argument(alloc, token, function, paren, state),
        Focus::Selecting(part, selector, at) => {
            with_selected(alloc, token, part, selector, at, state)
        }
        Focus::SizeOpen(at) => {
            let focus = Focus::SizeType(at, TypeState::Opening);
            Ok(with_paren(token, focus, state))
        }
        Focus::SizeType(at, so_far) => with_size_type(alloc, token, at, so_far, state),
        Focus::VaOpen(at) => Ok(with_paren(token, Focus::VaName(at), state)),
        Focus::VaName(at) => with_va_name(alloc, token, at, state),
        Focus::VaComma(at, name) => Ok(with_va_comma(token, at, name, state)),
        Focus::VaType(at, name, so_far) => with_va_type(alloc, token, at, name, so_far, state),
        Focus::Operated(part) => with_operated(alloc, token, part, state),
        Focus::Whole(part) => with_whole(alloc, token, part, state),
    }
}
