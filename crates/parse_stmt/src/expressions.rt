ghost use Rattle.std.specs.Prelude.{◌≡◌, IfOk};
ghost use Rattle.parse_stmt.specs.StmtMachine.{Says, to, under, slot_effect, hole_effect, begin, end_locals, next_decl, slot_close, slot_semicolon, hole_close, hole_semicolon, hole_comma, hole_step, expr_at, feed, effect_hole};

use crate::parts::{
    Body, Capped, DeclsPart, ExprPart, OptionPart, add_decl, add_locals, as_capped, make_do,
    make_effect, make_head, make_return, present, start_with_effect, start_with_locals,
};
use crate::state::{BodyState, Focus, Frame, Hole, LocalPlace, Slot, begin_expr};
use c_lex::Mark;
use c_tree::Base;
use hx_words::Items;
use parse_expr::step_expr;
use parse_terms::{DeclState, Sort, Terminal, Verdict};
use std::alloc::{AllocError, Global};
use std::mem;

/// What comes next.
pub fn go(focus: Focus, state: &mut BodyState) -> Verdict<Body>
    ensures { Says result (to focus state.old) state.new }
{
    state.go_to(focus);
    Verdict::More
}

/// A statement begins under one more frame.
pub fn go_under(frame: Frame, state: &mut BodyState) -> Result<Verdict<Body>, AllocError>
    ensures { IfOk result (λ r. Says r (under frame state.old) state.new) }
{
    state.frames.push(frame)?;
    Ok(go(Focus::Stmt, state))
}

fn is_slot_effect(slot: &Slot) -> bool
    ensures { result ≡ slot_effect slot.now }
{
    matches!(slot, Slot::Start(_) | Slot::Step(_, _, _))
}

/// Whether the expression has to be an effect.
fn is_hole_effect(hole: &Hole) -> bool
    ensures { result ≡ hole_effect hole.now }
{
    match hole {
        Hole::Effect => true,
        Hole::Slot(slot) => is_slot_effect(slot),
        _ => false,
    }
}

/// The hole of an effect where locals may stand, too.
pub fn as_effect_hole(place: LocalPlace) -> Hole
    ensures { result ≡ effect_hole place }
{
    match place {
        LocalPlace::Block => Hole::Effect,
        LocalPlace::For(at) => Hole::Slot(Slot::Start(at)),
    }
}

/// An expression is to begin.
pub fn begin_hole(alloc: Global, hole: Hole, state: &mut BodyState) -> Verdict<Body>
    ensures { Says result (begin hole state.old) state.new }
{
    state.take_expr(begin_expr(alloc, is_hole_effect(&hole)));
    go(Focus::Expr(hole), state)
}

/// The locals of one type are over.
pub fn finish_locals(
    place: LocalPlace,
    base: Base,
    decls: DeclsPart,
    state: &mut BodyState,
) -> Result<Verdict<Body>, AllocError>
    ensures { IfOk result (λ r. Says r (end_locals 256 place base decls state.old) state.new) }
{
    match place {
        LocalPlace::Block => {
            let done = mem::replace(&mut state.done, Capped::Deep);
            state.done = add_locals(base, decls, done)?;
            Ok(go(Focus::Item, state))
        }
        LocalPlace::For(at) => {
            let start = start_with_locals(base, decls);
            Ok(go(Focus::Optional(Slot::Test(at, start)), state))
        }
    }
}

/// Another declarator is to come.
pub fn begin_decl(
    alloc: Global,
    place: LocalPlace,
    base: Base,
    decls: DeclsPart,
    state: &mut BodyState,
) -> Verdict<Body>
    ensures { Says result (next_decl place base decls state.old) state.new }
{
    let stars = DeclState::Stars(Items::new(alloc));
    go(Focus::Declaring(place, base, decls, stars), state)
}

/// A `)` behind an expression that may be left out.
pub fn with_slot_close(
    slot: Slot,
    part: OptionPart,
    state: &mut BodyState,
) -> Result<Verdict<Body>, AllocError>
    ensures { IfOk result (λ r. Says r (slot_close slot part state.old) state.new) }
{
    match slot {
        Slot::Step(at, start, test) => go_under(
            Frame::For(at, make_head(start, test, part)),
            state,
        ),
        other => {
            drop(other);
            Ok(Verdict::Bad)
        }
    }
}

/// A `;` behind an expression that may be left out.
pub fn with_slot_semicolon(
    alloc: Global,
    slot: Slot,
    part: OptionPart,
    state: &mut BodyState,
) -> Result<Verdict<Body>, AllocError>
    ensures { IfOk result (λ r. Says r (slot_semicolon 256 slot part state.old) state.new) }
{
    let focus = match slot {
        Slot::Start(at) => Focus::Optional(Slot::Test(at, start_with_effect(part))),
        Slot::Test(at, start) => Focus::Optional(Slot::Step(at, start, part)),
        Slot::Step(_, _, _) => return Ok(Verdict::Bad),
        Slot::Return(at) => Focus::Ended(make_return(alloc, at, part)?),
    };
    Ok(go(focus, state))
}

fn with_close(
    alloc: Global,
    hole: Hole,
    part: ExprPart,
    state: &mut BodyState,
) -> Result<Verdict<Body>, AllocError>
    ensures { IfOk result (λ r. Says r (hole_close 256 hole part state.old) state.new) }
{
    match hole {
        Hole::If(at) => go_under(Frame::Then(at, part), state),
        Hole::While(at) => go_under(Frame::While(at, part), state),
        Hole::Do(at, body) => {
            let x = make_do(alloc, at, body, part)?;
            Ok(go(Focus::Semicolon(x), state))
        }
        Hole::Slot(slot) => with_slot_close(slot, present(part), state),
        other => {
            drop(other);
            Ok(Verdict::Bad)
        }
    }
}

fn with_semicolon(
    alloc: Global,
    hole: Hole,
    part: ExprPart,
    state: &mut BodyState,
) -> Result<Verdict<Body>, AllocError>
    ensures { IfOk result (λ r. Says r (hole_semicolon 256 hole part state.old) state.new) }
{
    match hole {
        Hole::Effect => {
            let x = make_effect(alloc, part)?;
            Ok(go(Focus::Ended(x), state))
        }
        Hole::Init(place, base, decls, decl) => {
            let decls = add_decl(decls, decl, present(part))?;
            finish_locals(place, base, decls, state)
        }
        Hole::Slot(slot) => with_slot_semicolon(alloc, slot, present(part), state),
        other => {
            drop(other);
            Ok(Verdict::Bad)
        }
    }
}

fn with_comma(
    alloc: Global,
    hole: Hole,
    part: ExprPart,
    state: &mut BodyState,
) -> Result<Verdict<Body>, AllocError>
    ensures { IfOk result (λ r. Says r (hole_comma hole part state.old) state.new) }
{
    match hole {
        Hole::Init(place, base, decls, decl) => {
            let decls = add_decl(decls, decl, present(part))?;
            Ok(begin_decl(alloc, place, base, decls, state))
        }
        other => {
            drop(other);
            Ok(Verdict::Bad)
        }
    }
}

/// The expression of a hole is over.
fn with_hole(
    alloc: Global,
    token: &Terminal,
    hole: Hole,
    part: ExprPart,
    state: &mut BodyState,
) -> Result<Verdict<Body>, AllocError>
    ensures { IfOk result (λ r. Says r (hole_step 256 token.now.sort hole part state.old) state.new) }
{
    match &token.sort {
        Sort::Mark(Mark::CloseParen) => with_close(alloc, hole, part, state),
        Sort::Mark(Mark::Semicolon) => with_semicolon(alloc, hole, part, state),
        Sort::Mark(Mark::Comma) => with_comma(alloc, hole, part, state),
        _ => {
            drop(hole);
            Ok(Verdict::Bad)
        }
    }
}

/// The expression at hand takes a token.
pub fn with_expr(
    alloc: Global,
    token: &Terminal,
    hole: Hole,
    state: &mut BodyState,
) -> Result<Verdict<Body>, AllocError>
    ensures { IfOk result (λ r. Says r (expr_at 256 token.now hole state.old) state.new) }
{
    match step_expr(alloc, token, &mut state.expr) {
        Ok(Verdict::More) => Ok(go(Focus::Expr(hole), state)),
        Ok(Verdict::Done(part)) => {
            state.take_expr(begin_expr(alloc, false));
            with_hole(alloc, token, hole, as_capped(part), state)
        }
        Ok(Verdict::Bad) => {
            drop(hole);
            Ok(Verdict::Bad)
        }
        Err(AllocError) => {
            drop(hole);
            Err(AllocError)
        }
    }
}

/// A token begins an expression.
#[tactic(auto, unfolding(crate::specs::StmtMachine::feed))]
pub fn with_first(
    alloc: Global,
    token: &Terminal,
    hole: Hole,
    state: &mut BodyState,
) -> Result<Verdict<Body>, AllocError>
    ensures { IfOk result (λ r. Says r (feed 256 token.now hole state.old) state.new) }
{
    state.take_expr(begin_expr(alloc, is_hole_effect(&hole)));
    with_expr(alloc, token, hole, state)
}
