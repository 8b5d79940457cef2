ghost use Rattle.std.specs.Prelude.{IfOk};
ghost use Rattle.parse_stmt.specs.StmtMachine.{Says, opened, paren_step, semicolon_step, close_step, comma_step, va_start_name, va_start_last, va_end_name, optional_name, optional_word, optional_mark, optional_step, body_step};

use crate::expressions::{
    begin_hole, go, with_expr, with_first, with_slot_close, with_slot_semicolon,
};
use crate::locals::{
    begins_type, with_bare, with_decl, with_first_word, with_type, with_va_list_end,
    with_va_list_name,
};
use crate::parts::{Body, absent, make_leaf};
use crate::state::{BodyState, Focus, Header, Hole, LocalPlace, Slot};
use crate::statements::{with_ended, with_item, with_stmt};
use c_lex::{Mark, Word};
use c_tree::{Name, Stmt};
use c_types::Span;
use hx_words::Items;
use parse_terms::{Sort, Terminal, Verdict, copy_name};
use std::alloc::{AllocError, Global};
use std::mem;

fn with_opened(alloc: Global, header: Header, state: &mut BodyState) -> Verdict<Body>
    ensures { Says result (opened header state.old) state.new }
{
    match header {
        Header::If(at) => begin_hole(alloc, Hole::If(at), state),
        Header::While(at) => begin_hole(alloc, Hole::While(at), state),
        Header::Do(at, x) => begin_hole(alloc, Hole::Do(at, x), state),
        Header::For(at) => go(Focus::Optional(Slot::Start(at)), state),
        Header::VaStart(at) => go(Focus::VaStartName(at), state),
        Header::VaEnd(at) => go(Focus::VaEndName(at), state),
    }
}

fn with_paren(
    alloc: Global,
    token: &Terminal,
    header: Header,
    state: &mut BodyState,
) -> Verdict<Body>
    ensures { Says result (paren_step token.now.sort header state.old) state.new }
{
    match &token.sort {
        Sort::Mark(Mark::OpenParen) => with_opened(alloc, header, state),
        _ => {
            drop(header);
            Verdict::Bad
        }
    }
}

/// A `;` that leads to a focus.
fn with_semicolon(token: &Terminal, focus: Focus, state: &mut BodyState) -> Verdict<Body>
    ensures { Says result (semicolon_step token.now.sort focus state.old) state.new }
{
    match &token.sort {
        Sort::Mark(Mark::Semicolon) => go(focus, state),
        _ => {
            drop(focus);
            Verdict::Bad
        }
    }
}

/// A `)` that leads to a focus.
fn with_close(token: &Terminal, focus: Focus, state: &mut BodyState) -> Verdict<Body>
    ensures { Says result (close_step token.now.sort focus state.old) state.new }
{
    match &token.sort {
        Sort::Mark(Mark::CloseParen) => go(focus, state),
        _ => {
            drop(focus);
            Verdict::Bad
        }
    }
}

/// A `,` that leads to a focus.
fn with_comma(token: &Terminal, focus: Focus, state: &mut BodyState) -> Verdict<Body>
    ensures { Says result (comma_step token.now.sort focus state.old) state.new }
{
    match &token.sort {
        Sort::Mark(Mark::Comma) => go(focus, state),
        _ => {
            drop(focus);
            Verdict::Bad
        }
    }
}

fn with_va_start_name(
    alloc: Global,
    token: &Terminal,
    at: Span,
    state: &mut BodyState,
) -> Result<Verdict<Body>, AllocError>
    ensures { IfOk result (λ r. Says r (va_start_name token.now.sort token.now.span at state.old) state.new) }
{
    let Sort::Name(text) = &token.sort else {
        return Ok(Verdict::Bad);
    };
    let list = copy_name(alloc, text, token.span)?;
    Ok(go(Focus::VaStartComma(at, list), state))
}

fn with_va_start_last(
    alloc: Global,
    token: &Terminal,
    at: Span,
    list: Name,
    state: &mut BodyState,
) -> Result<Verdict<Body>, AllocError>
    ensures { IfOk result (λ r. Says r (va_start_last token.now.sort token.now.span at list state.old) state.new) }
{
    let Sort::Name(text) = &token.sort else {
        return Ok(Verdict::Bad);
    };
    let last = copy_name(alloc, text, token.span)?;
    let x = make_leaf(alloc, Stmt::VaStart(at, list, last))?;
    Ok(go(Focus::VaClose(x), state))
}

fn with_va_end_name(
    alloc: Global,
    token: &Terminal,
    at: Span,
    state: &mut BodyState,
) -> Result<Verdict<Body>, AllocError>
    ensures { IfOk result (λ r. Says r (va_end_name token.now.sort token.now.span at state.old) state.new) }
{
    let Sort::Name(text) = &token.sort else {
        return Ok(Verdict::Bad);
    };
    let list = copy_name(alloc, text, token.span)?;
    let x = make_leaf(alloc, Stmt::VaEnd(at, list))?;
    Ok(go(Focus::VaClose(x), state))
}

fn with_optional_name(
    alloc: Global,
    token: &Terminal,
    text: &Items<u8>,
    slot: Slot,
    state: &mut BodyState,
) -> Result<Verdict<Body>, AllocError>
    ensures { IfOk result (λ r. Says r (optional_name 256 token.now text.now slot state.old) state.new) }
{
    match slot {
        Slot::Start(at) => {
            let name = copy_name(alloc, text, token.span)?;
            Ok(go(Focus::Bare(LocalPlace::For(at), name), state))
        }
        slot => with_first(alloc, token, Hole::Slot(slot), state),
    }
}

fn with_optional_word(
    alloc: Global,
    token: &Terminal,
    word: Word,
    slot: Slot,
    state: &mut BodyState,
) -> Result<Verdict<Body>, AllocError>
    ensures { IfOk result (λ r. Says r (optional_word 256 token.now word slot state.old) state.new) }
{
    match slot {
        Slot::Start(at) if begins_type(word) => {
            with_first_word(alloc, token, LocalPlace::For(at), state)
        }
        slot => with_first(alloc, token, Hole::Slot(slot), state),
    }
}

/// Where an expression may begin.
fn with_optional(
    alloc: Global,
    token: &Terminal,
    slot: Slot,
    state: &mut BodyState,
) -> Result<Verdict<Body>, AllocError>
    ensures { IfOk result (λ r. Says r (optional_step 256 token.now token.now.sort slot state.old) state.new) }
{
    match &token.sort {
        Sort::Name(text) => with_optional_name(alloc, token, text, slot, state),
        Sort::Word(word) => with_optional_word(alloc, token, *word, slot, state),
        Sort::Mark(Mark::Semicolon) => with_slot_semicolon(alloc, slot, absent(), state),
        Sort::Mark(Mark::CloseParen) => with_slot_close(slot, absent(), state),
        _ => with_first(alloc, token, Hole::Slot(slot), state),
    }
}

/// A function's body takes a token. [`Verdict::Done`] comes at the `}` that ends it, which is not
/// taken. After it and after [`Verdict::Bad`] the state is spent.
pub fn step_body(
    alloc: Global,
    token: &Terminal,
    state: &mut BodyState,
) -> Result<Verdict<Body>, AllocError>
    ensures { IfOk result (λ r. Says r (body_step 256 token.now state.old) state.new) }
{
    match mem::replace(&mut state.focus, Focus::Item) {
        Focus::Item => with_item(alloc, token, state),
        Focus::Stmt => with_stmt(alloc, token, state),
        Focus::Ended(x) => with_ended(alloc, token, x, state),
        Focus::Paren(header) => Ok(with_paren(alloc, token, header, state)),
        Focus::Semicolon(x) => Ok(with_semicolon(token, Focus::Ended(x), state)),
        Focus::Expr(hole) => with_expr(alloc, token, hole, state),
        Focus::Optional(slot) => with_optional(alloc, token, slot, state),
        Focus::Bare(place, name) => with_bare(alloc, token, place, name, state),
        Focus::Typing(place, so_far) => with_type(alloc, token, place, so_far, state),
        Focus::Declaring(place, base, decls, so_far) => {
            with_decl(alloc, token, place, base, decls, so_far, state)
        }
        Focus::VaList(at) => with_va_list_name(alloc, token, at, state),
        Focus::VaListEnd(at, name) => with_va_list_end(token, at, name, state),
        Focus::VaStartName(at) => with_va_start_name(alloc, token, at, state),
        Focus::VaStartComma(at, list) => {
            Ok(with_comma(token, Focus::VaStartLast(at, list), state))
        }
        Focus::VaStartLast(at, list) => with_va_start_last(alloc, token, at, list, state),
        Focus::VaEndName(at) => with_va_end_name(alloc, token, at, state),
        Focus::VaClose(x) => Ok(with_close(token, Focus::Semicolon(x), state)),
    }
}
