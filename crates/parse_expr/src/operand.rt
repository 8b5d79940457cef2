ghost use Rattle.std.specs.Prelude.{IfOk};
ghost use Rattle.parse_terms.specs.TypeNames.{type_step};
ghost use Rattle.parse_expr.specs.Parts.{leaf};
ghost use Rattle.parse_expr.specs.declared.state.Focus.TheVariants.{Operated};
ghost use Rattle.parse_expr.specs.ExprMachine.{Says, to, opened, word_operand, operand_step, parened_step, cast_step, argument_step, select_step, paren_step, ending_step, size_type, va_name_step, va_comma_step, va_type};

use crate::operators::{Opener, as_opener};
use crate::parts::{Part, call, empty_parts, make_leaf, select};
use crate::state::{ExprState, Focus, Frame};
use c_lex::{Mark, Word};
use c_tree::{Expr, Literal, Name, Selector};
use c_types::Span;
use parse_terms::{
    Answer, IntWords, Sort, Terminal, TypeState, Verdict, begin_int, copy_name, finish_int,
    step_int, step_type,
};
use std::alloc::{AllocError, Global};

fn operated(alloc: Global, e: Expr, state: &mut ExprState) -> Result<Verdict<Part>, AllocError>
    ensures { IfOk result (λ r. Says r (to state.old.effect (Operated (leaf e)) state.old.frames) state.new) }
{
    let part = make_leaf(alloc, e)?;
    state.go_to(Focus::Operated(part));
    Ok(Verdict::More)
}

fn with_opener(
    opener: Opener,
    span: Span,
    state: &mut ExprState,
) -> Result<Verdict<Part>, AllocError>
    ensures { IfOk result (λ r. Says r (opened opener span state.old.effect state.old.frames) state.new) }
{
    match opener {
        Opener::OpenParen => state.go_to(Focus::Parened(span)),
        Opener::Prefix(operator) => {
            state.frames.push(Frame::Prefix(operator, span))?;
            state.go_to(Focus::Operand);
        }
        Opener::CloseParen | Opener::Nothing => return Ok(Verdict::Bad),
    }
    Ok(Verdict::More)
}

fn with_word(word: Word, span: Span, state: &mut ExprState) -> Verdict<Part>
    ensures { Says result (word_operand word span state.old.effect state.old.frames) state.new }
{
    match word {
        Word::Sizeof => state.go_to(Focus::SizeOpen(span)),
        Word::VaArg => state.go_to(Focus::VaOpen(span)),
        _ => return Verdict::Bad,
    }
    Verdict::More
}

/// Where an operand begins.
pub fn with_operand(
    alloc: Global,
    token: &Terminal,
    state: &mut ExprState,
) -> Result<Verdict<Part>, AllocError>
    ensures { IfOk result (λ r. Says r (operand_step token.now.sort token.now.span state.old.effect state.old.frames) state.new) }
{
    let span = token.span;
    match &token.sort {
        Sort::Name(text) => {
            let name = copy_name(alloc, text, span)?;
            operated(alloc, Expr::Name(name), state)
        }
        Sort::Number(value, ty) => {
            let literal = Literal {
                value: *value,
                ty: *ty,
                span,
            };
            operated(alloc, Expr::Number(literal), state)
        }
        Sort::Char(value) => operated(alloc, Expr::Char(*value, span), state),
        Sort::Word(word) => Ok(with_word(*word, span, state)),
        Sort::Mark(mark) => with_opener(as_opener(*mark), span, state),
        Sort::Text(_) | Sort::Unknown => Ok(Verdict::Bad),
    }
}

/// After `(` where an operand begins.
pub fn with_parened(
    alloc: Global,
    token: &Terminal,
    paren: Span,
    state: &mut ExprState,
) -> Result<Verdict<Part>, AllocError>
    ensures { IfOk result (λ r. Says r (parened_step token.now.sort token.now.span paren state.old.effect state.old.frames) state.new) }
{
    if let Sort::Word(word) = &token.sort {
        if let Some(words) = begin_int(*word) {
            state.go_to(Focus::CastWords(paren, token.span, words));
            return Ok(Verdict::More);
        }
    }
    state.frames.push(Frame::Paren(paren))?;
    with_operand(alloc, token, state)
}

/// In the type of a cast.
pub fn with_cast(
    token: &Terminal,
    words: IntWords,
    paren: Span,
    first: Span,
    state: &mut ExprState,
) -> Result<Verdict<Part>, AllocError>
    ensures { IfOk result (λ r. Says r (cast_step token.now.sort words paren first state.old.effect state.old.frames) state.new) }
{
    match &token.sort {
        Sort::Word(word) => {
            if let Some(more) = step_int(*word, words) {
                state.go_to(Focus::CastWords(paren, first, more));
                return Ok(Verdict::More);
            }
        }
        Sort::Mark(mark) => {
            if matches!(as_opener(*mark), Opener::CloseParen) {
                if let Some(ty) = finish_int(words) {
                    state.frames.push(Frame::Casting(paren, ty, first))?;
                    state.go_to(Focus::Operand);
                    return Ok(Verdict::More);
                }
            }
        }
        _ => {}
    }
    Ok(Verdict::Bad)
}

/// After `(` of a call.
pub fn with_argument(
    alloc: Global,
    token: &Terminal,
    function: Part,
    paren: Span,
    state: &mut ExprState,
) -> Result<Verdict<Part>, AllocError>
    ensures { IfOk result (λ r. Says r (argument_step 256 token.now.sort token.now.span function paren state.old.effect state.old.frames) state.new) }
{
    if let Sort::Mark(mark) = &token.sort {
        if matches!(as_opener(*mark), Opener::CloseParen) {
            let called = call(alloc, function, paren, empty_parts(alloc))?;
            state.go_to(Focus::Operated(called));
            return Ok(Verdict::More);
        }
    }
    let frame = Frame::Calling(function, paren, empty_parts(alloc));
    state.frames.push(frame)?;
    with_operand(alloc, token, state)
}

/// After `.` or `->`.
pub fn with_selected(
    alloc: Global,
    token: &Terminal,
    part: Part,
    selector: Selector,
    at: Span,
    state: &mut ExprState,
) -> Result<Verdict<Part>, AllocError>
    ensures { IfOk result (λ r. Says r (select_step 256 token.now.sort token.now.span part selector at state.old.effect state.old.frames) state.new) }
{
    let Sort::Name(text) = &token.sort else {
        return Ok(Verdict::Bad);
    };
    let name = copy_name(alloc, text, token.span)?;
    let part = select(alloc, part, selector, at, name)?;
    state.go_to(Focus::Operated(part));
    Ok(Verdict::More)
}

/// A `(` that leads to a focus.
pub fn with_paren(token: &Terminal, focus: Focus, state: &mut ExprState) -> Verdict<Part>
    ensures { Says result (paren_step token.now.sort focus state.old.effect state.old.frames) state.new }
{
    if let Sort::Mark(mark) = &token.sort {
        if matches!(as_opener(*mark), Opener::OpenParen) {
            state.go_to(focus);
            return Verdict::More;
        }
    }
    drop(focus);
    Verdict::Bad
}

/// A `)` that leads to a focus.
fn with_ending(token: &Terminal, focus: Focus, state: &mut ExprState) -> Verdict<Part>
    ensures { Says result (ending_step token.now.sort focus state.old.effect state.old.frames) state.new }
{
    if let Sort::Mark(mark) = &token.sort {
        if matches!(as_opener(*mark), Opener::CloseParen) {
            state.go_to(focus);
            return Verdict::More;
        }
    }
    drop(focus);
    Verdict::Bad
}

/// In the type behind `sizeof (`.
pub fn with_size_type(
    alloc: Global,
    token: &Terminal,
    at: Span,
    so_far: TypeState,
    state: &mut ExprState,
) -> Result<Verdict<Part>, AllocError>
    ensures { IfOk result (λ r. Says r (size_type token.now.sort (type_step token.now so_far) at state.old.effect state.old.frames) state.new) }
{
    match step_type(alloc, token, so_far)? {
        Answer::More(so_far) => {
            state.go_to(Focus::SizeType(at, so_far));
            Ok(Verdict::More)
        }
        Answer::Done(ty) => {
            let focus = Focus::Whole(make_leaf(alloc, Expr::SizeOf(at, ty))?);
            Ok(with_ending(token, focus, state))
        }
        Answer::Bad => Ok(Verdict::Bad),
    }
}

/// After `va_arg (`.
pub fn with_va_name(
    alloc: Global,
    token: &Terminal,
    at: Span,
    state: &mut ExprState,
) -> Result<Verdict<Part>, AllocError>
    ensures { IfOk result (λ r. Says r (va_name_step token.now.sort token.now.span at state.old.effect state.old.frames) state.new) }
{
    let Sort::Name(text) = &token.sort else {
        return Ok(Verdict::Bad);
    };
    let name = copy_name(alloc, text, token.span)?;
    state.go_to(Focus::VaComma(at, name));
    Ok(Verdict::More)
}

/// After `va_arg ( ID`.
pub fn with_va_comma(token: &Terminal, at: Span, name: Name, state: &mut ExprState) -> Verdict<Part>
    ensures { Says result (va_comma_step token.now.sort at name state.old.effect state.old.frames) state.new }
{
    if let Sort::Mark(Mark::Comma) = &token.sort {
        state.go_to(Focus::VaType(at, name, TypeState::Opening));
        Verdict::More
    } else {
        Verdict::Bad
    }
}

/// In the type behind `va_arg ( ID ,`.
pub fn with_va_type(
    alloc: Global,
    token: &Terminal,
    at: Span,
    name: Name,
    so_far: TypeState,
    state: &mut ExprState,
) -> Result<Verdict<Part>, AllocError>
    ensures { IfOk result (λ r. Says r (va_type token.now.sort (type_step token.now so_far) at name state.old.effect state.old.frames) state.new) }
{
    match step_type(alloc, token, so_far)? {
        Answer::More(so_far) => {
            state.go_to(Focus::VaType(at, name, so_far));
            Ok(Verdict::More)
        }
        Answer::Done(ty) => {
            let focus = Focus::Operated(make_leaf(alloc, Expr::VaArg(at, name, ty))?);
            Ok(with_ending(token, focus, state))
        }
        Answer::Bad => Ok(Verdict::Bad),
    }
}
