ghost use Rattle.std.specs.Prelude.{◌≡◌, IfOk};
ghost use Rattle.parse_stmt.specs.StmtMachine.{Says, stmt_word, stmt_mark, stmt_step, end_block, item_word, item_mark, item_step, is_else, frame_ends, frame_ended, settle, attach, do_step, after_stmt, ended_step};

use crate::expressions::{go, go_under, with_first};
use crate::locals::{begins_type, with_first_word};
use crate::parts::{
    Body, StmtPart, add_stmt, empty_items, make_block, make_for, make_if, make_if_else, make_leaf,
    make_while,
};
use crate::state::{BodyState, Focus, Frame, Header, Hole, LocalPlace, Slot};
use c_lex::{Mark, Word};
use c_tree::Stmt;
use c_types::Span;
use parse_terms::{Sort, Stack, Terminal, Verdict, copy_name};
use std::alloc::{AllocError, Global};
use std::mem;

fn with_word(
    alloc: Global,
    token: &Terminal,
    word: Word,
    state: &mut BodyState,
) -> Result<Verdict<Body>, AllocError>
    ensures { IfOk result (λ r. Says r (stmt_word 256 token.now word state.old) state.new) }
{
    let at = token.span;
    let focus = match word {
        Word::If => Focus::Paren(Header::If(at)),
        Word::While => Focus::Paren(Header::While(at)),
        Word::Do => return go_under(Frame::Do(at), state),
        Word::For => Focus::Paren(Header::For(at)),
        Word::Break => Focus::Semicolon(make_leaf(alloc, Stmt::Break(at))?),
        Word::Continue => Focus::Semicolon(make_leaf(alloc, Stmt::Continue(at))?),
        Word::Return => Focus::Optional(Slot::Return(at)),
        Word::VaStart => Focus::Paren(Header::VaStart(at)),
        Word::VaEnd => Focus::Paren(Header::VaEnd(at)),
        _ => return with_first(alloc, token, Hole::Effect, state),
    };
    Ok(go(focus, state))
}

fn with_mark(
    alloc: Global,
    token: &Terminal,
    mark: Mark,
    state: &mut BodyState,
) -> Result<Verdict<Body>, AllocError>
    ensures { IfOk result (λ r. Says r (stmt_mark 256 token.now mark state.old) state.new) }
{
    match mark {
        Mark::Semicolon => {
            let x = make_leaf(alloc, Stmt::Empty(token.span))?;
            Ok(go(Focus::Ended(x), state))
        }
        Mark::OpenBrace => {
            let before = mem::replace(&mut state.done, empty_items(alloc));
            state.frames.push(Frame::Nested(token.span, before))?;
            Ok(go(Focus::Item, state))
        }
        _ => with_first(alloc, token, Hole::Effect, state),
    }
}

/// Where a statement begins.
pub fn with_stmt(
    alloc: Global,
    token: &Terminal,
    state: &mut BodyState,
) -> Result<Verdict<Body>, AllocError>
    ensures { IfOk result (λ r. Says r (stmt_step 256 token.now token.now.sort state.old) state.new) }
{
    match &token.sort {
        Sort::Word(word) => with_word(alloc, token, *word, state),
        Sort::Mark(mark) => with_mark(alloc, token, *mark, state),
        _ => with_first(alloc, token, Hole::Effect, state),
    }
}

/// At a `}`, where a block or the body ends.
fn with_end(alloc: Global, state: &mut BodyState) -> Result<Verdict<Body>, AllocError>
    ensures { IfOk result (λ r. Says r (end_block 256 state.old.frames state.old) state.new) }
{
    match state.frames.pop() {
        None => Ok(Verdict::Done(mem::replace(&mut state.done, empty_items(alloc)))),
        Some(Frame::Nested(at, before)) => {
            let items = mem::replace(&mut state.done, before);
            let x = make_block(alloc, at, items)?;
            Ok(go(Focus::Ended(x), state))
        }
        Some(other) => {
            drop(other);
            Ok(Verdict::Bad)
        }
    }
}

fn with_item_word(
    alloc: Global,
    token: &Terminal,
    word: Word,
    state: &mut BodyState,
) -> Result<Verdict<Body>, AllocError>
    ensures { IfOk result (λ r. Says r (item_word 256 token.now word state.old) state.new) }
{
    if word == Word::VaList {
        Ok(go(Focus::VaList(token.span), state))
    } else if begins_type(word) {
        with_first_word(alloc, token, LocalPlace::Block, state)
    } else {
        with_word(alloc, token, word, state)
    }
}

/// Where a local or a statement begins, or the block ends.
pub fn with_item(
    alloc: Global,
    token: &Terminal,
    state: &mut BodyState,
) -> Result<Verdict<Body>, AllocError>
    ensures { IfOk result (λ r. Says r (item_step 256 token.now token.now.sort state.old) state.new) }
{
    match &token.sort {
        Sort::Name(text) => {
            let name = copy_name(alloc, text, token.span)?;
            Ok(go(Focus::Bare(LocalPlace::Block, name), state))
        }
        Sort::Word(word) => with_item_word(alloc, token, *word, state),
        Sort::Mark(Mark::CloseBrace) => with_end(alloc, state),
        Sort::Mark(mark) => with_mark(alloc, token, *mark, state),
        _ => with_first(alloc, token, Hole::Effect, state),
    }
}

/// Whether a frame ends where its last statement ends.
fn ends(continues: bool, frame: &Frame) -> bool
    ensures { result ≡ frame_ends continues frame.now }
{
    match frame {
        Frame::Then(_, _) => !continues,
        Frame::Else(_, _, _) | Frame::While(_, _) | Frame::For(_, _) => true,
        _ => false,
    }
}

/// The statement that a frame is with its last statement.
fn ended(alloc: Global, frame: Frame, x: StmtPart) -> Result<StmtPart, AllocError>
    ensures { IfOk result (λ r. r ≡ frame_ended 256 frame x) }
{
    match frame {
        Frame::Then(at, test) => make_if(alloc, at, test, x),
        Frame::Else(at, test, yes) => make_if_else(alloc, at, test, yes, x),
        Frame::While(at, test) => make_while(alloc, at, test, x),
        Frame::For(at, head) => make_for(alloc, at, head, x),
        other => {
            drop(other);
            Ok(x)
        }
    }
}

/// What ends where a statement ends; where an `else` follows, no `if` that has none.
#[tactic(auto, using(crate::proofs::SettleLaws::settle_frame))]
fn settled(
    alloc: Global,
    continues: bool,
    x: StmtPart,
    frames: Stack<Frame>,
) -> Result<(StmtPart, Stack<Frame>), AllocError>
    ensures { IfOk result (λ r. r ≡ settle 256 continues x frames) }
{
    let mut x = x;
    let mut frames = frames;
    while let Some(frame) = frames.pop() {
        if !ends(continues, &frame) {
            frames.push(frame)?;
            return Ok((x, frames));
        }
        x = ended(alloc, frame, x)?;
    }
    Ok((x, frames))
}

/// At an `else`.
fn with_else(x: StmtPart, state: &mut BodyState) -> Result<Verdict<Body>, AllocError>
    ensures { IfOk result (λ r. Says r (attach x state.old.frames state.old) state.new) }
{
    match state.frames.pop() {
        Some(Frame::Then(at, test)) => go_under(Frame::Else(at, test, x), state),
        other => {
            drop(other);
            Ok(Verdict::Bad)
        }
    }
}

/// Behind the statement of a `do`.
fn with_while(token: &Terminal, at: Span, x: StmtPart, state: &mut BodyState) -> Verdict<Body>
    ensures { Says result (do_step token.now.sort at x state.old.frames state.old) state.new }
{
    match &token.sort {
        Sort::Word(Word::While) => go(Focus::Paren(Header::Do(at, x)), state),
        _ => Verdict::Bad,
    }
}

/// Behind a statement that has ended.
fn with_next(
    alloc: Global,
    token: &Terminal,
    x: StmtPart,
    state: &mut BodyState,
) -> Result<Verdict<Body>, AllocError>
    ensures { IfOk result (λ r. Says r (after_stmt 256 token.now x state.old.frames state.old) state.new) }
{
    match state.frames.pop() {
        Some(Frame::Do(at)) => return Ok(with_while(token, at, x, state)),
        Some(frame) => state.frames.push(frame)?,
        None => {}
    }
    let done = mem::replace(&mut state.done, empty_items(alloc));
    state.done = add_stmt(done, x)?;
    with_item(alloc, token, state)
}

fn continues_if(token: &Terminal) -> bool
    ensures { result ≡ is_else token.now.sort }
{
    matches!(&token.sort, Sort::Word(Word::Else))
}

/// Behind a statement.
pub fn with_ended(
    alloc: Global,
    token: &Terminal,
    x: StmtPart,
    state: &mut BodyState,
) -> Result<Verdict<Body>, AllocError>
    ensures { IfOk result (λ r. Says r (ended_step 256 token.now x state.old) state.new) }
{
    let frames = mem::replace(&mut state.frames, Stack::new(alloc));
    let continues = continues_if(token);
    let (x, frames) = settled(alloc, continues, x, frames)?;
    state.frames = frames;
    if continues {
        with_else(x, state)
    } else {
        with_next(alloc, token, x, state)
    }
}
