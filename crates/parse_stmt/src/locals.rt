ghost use Rattle.std.specs.Prelude.{◌≡◌, IfOk};
ghost use Rattle.parse_terms.specs.declared.answer.Answer.{Answer};
ghost use Rattle.parse_terms.specs.TypeNames.{type_step};
ghost use Rattle.parse_terms.specs.Declarators.{decl_step};
ghost use Rattle.parse_expr.specs.Parts.{leaf};
ghost use Rattle.parse_stmt.specs.StmtMachine.{Says, declared_step, decl_said, type_said, named_expr, named_effect, bare_local, bare_step, is_type_word, begin_type, va_list_name, va_list_end};

use crate::expressions::{as_effect_hole, begin_decl, begin_hole, finish_locals, go, with_expr};
use crate::parts::{Body, Capped, DeclsPart, absent, add_decl, add_va_list, empty_decls};
use crate::state::{BodyState, Focus, Hole, LocalPlace};
use c_lex::{Mark, Word};
use c_tree::{Base, Decl, Expr, Name};
use c_types::Span;
use hx_words::{Boxed, Items};
use parse_expr::{ExprState, Focus as ExprFocus, Part};
use parse_terms::{
    Answer, DeclState, Sort, Stack, Terminal, TypeState, Verdict, copy_name, step_decl, step_type,
};
use std::alloc::{AllocError, Global};
use std::mem;

/// A declarator is over.
fn with_declared(
    alloc: Global,
    token: &Terminal,
    place: LocalPlace,
    base: Base,
    decls: DeclsPart,
    decl: Decl,
    state: &mut BodyState,
) -> Result<Verdict<Body>, AllocError>
    ensures { IfOk result (λ r. Says r (declared_step 256 token.now.sort place base decls decl state.old) state.new) }
{
    match &token.sort {
        Sort::Mark(Mark::Equal) => {
            Ok(begin_hole(alloc, Hole::Init(place, base, decls, decl), state))
        }
        Sort::Mark(Mark::Comma) => {
            let decls = add_decl(decls, decl, absent())?;
            Ok(begin_decl(alloc, place, base, decls, state))
        }
        Sort::Mark(Mark::Semicolon) => {
            let decls = add_decl(decls, decl, absent())?;
            finish_locals(place, base, decls, state)
        }
        _ => Ok(Verdict::Bad),
    }
}

/// In a declarator.
pub fn with_decl(
    alloc: Global,
    token: &Terminal,
    place: LocalPlace,
    base: Base,
    decls: DeclsPart,
    so_far: DeclState,
    state: &mut BodyState,
) -> Result<Verdict<Body>, AllocError>
    ensures { IfOk result (λ r. Says r (decl_said 256 token.now.sort place base decls (decl_step token.now so_far) state.old) state.new) }
{
    match step_decl(alloc, token, so_far)? {
        Answer::More(so_far) => Ok(go(Focus::Declaring(place, base, decls, so_far), state)),
        Answer::Done(decl) => with_declared(alloc, token, place, base, decls, decl, state),
        Answer::Bad => Ok(Verdict::Bad),
    }
}

/// In the type of locals: the stars behind it are those of the first declarator.
pub fn with_type(
    alloc: Global,
    token: &Terminal,
    place: LocalPlace,
    so_far: TypeState,
    state: &mut BodyState,
) -> Result<Verdict<Body>, AllocError>
    ensures { IfOk result (λ r. Says r (type_said 256 token.now place (type_step token.now so_far) state.old) state.new) }
{
    match step_type(alloc, token, so_far)? {
        Answer::More(so_far) => Ok(go(Focus::Typing(place, so_far), state)),
        Answer::Done(ty) => {
            let stars = DeclState::Stars(ty.stars);
            with_decl(
                alloc,
                token,
                place,
                ty.base,
                empty_decls(alloc),
                stars,
                state,
            )
        }
        Answer::Bad => Ok(Verdict::Bad),
    }
}

/// A type's first word.
#[tactic(auto, unfolding(crate::specs::StmtMachine::begin_type))]
pub fn with_first_word(
    alloc: Global,
    token: &Terminal,
    place: LocalPlace,
    state: &mut BodyState,
) -> Result<Verdict<Body>, AllocError>
    ensures { IfOk result (λ r. Says r (begin_type 256 token.now place state.old) state.new) }
{
    with_type(alloc, token, place, TypeState::Opening, state)
}

/// Whether a type begins with the word.
pub fn begins_type(word: Word) -> bool
    ensures { result ≡ is_type_word word }
{
    matches!(
        word,
        Word::Void
            | Word::Struct
            | Word::Signed
            | Word::Unsigned
            | Word::Char
            | Word::Short
            | Word::Int
            | Word::Long
    )
}

/// Behind the name of a type.
fn with_typedef(
    alloc: Global,
    token: &Terminal,
    place: LocalPlace,
    name: Name,
    state: &mut BodyState,
) -> Result<Verdict<Body>, AllocError>
    ensures { IfOk result (λ r. Says r (bare_local 256 token.now place name state.old) state.new) }
{
    let so_far = TypeState::Stars(Base::Named(name), Items::new(alloc));
    with_type(alloc, token, place, so_far, state)
}

fn begin_named(alloc: Global, name: Name) -> Result<ExprState, AllocError>
    ensures { IfOk result (λ r. r ≡ named_expr name) }
{
    let part = Part::Built(Boxed::new(alloc, Expr::Name(name))?, 1);
    Ok(ExprState {
        effect: true,
        focus: ExprFocus::Operated(part),
        frames: Stack::new(alloc),
    })
}

/// Behind a name that begins an effect.
#[tactic(auto, unfolding(crate::specs::StmtMachine::named_effect))]
fn with_effect(
    alloc: Global,
    token: &Terminal,
    place: LocalPlace,
    name: Name,
    state: &mut BodyState,
) -> Result<Verdict<Body>, AllocError>
    ensures { IfOk result (λ r. Says r (named_effect 256 token.now place name state.old) state.new) }
{
    state.take_expr(begin_named(alloc, name)?);
    with_expr(alloc, token, as_effect_hole(place), state)
}

/// Behind a name, where a local or an effect begins.
pub fn with_bare(
    alloc: Global,
    token: &Terminal,
    place: LocalPlace,
    name: Name,
    state: &mut BodyState,
) -> Result<Verdict<Body>, AllocError>
    ensures { IfOk result (λ r. Says r (bare_step 256 token.now token.now.sort place name state.old) state.new) }
{
    match &token.sort {
        Sort::Name(_) | Sort::Mark(Mark::Star) => with_typedef(alloc, token, place, name, state),
        _ => with_effect(alloc, token, place, name, state),
    }
}

/// After `va_list`.
pub fn with_va_list_name(
    alloc: Global,
    token: &Terminal,
    at: Span,
    state: &mut BodyState,
) -> Result<Verdict<Body>, AllocError>
    ensures { IfOk result (λ r. Says r (va_list_name token.now.sort token.now.span at state.old) state.new) }
{
    let Sort::Name(text) = &token.sort else {
        return Ok(Verdict::Bad);
    };
    let name = copy_name(alloc, text, token.span)?;
    Ok(go(Focus::VaListEnd(at, name), state))
}

/// After `va_list ID`.
pub fn with_va_list_end(
    token: &Terminal,
    at: Span,
    name: Name,
    state: &mut BodyState,
) -> Result<Verdict<Body>, AllocError>
    ensures { IfOk result (λ r. Says r (va_list_end token.now.sort at name state.old) state.new) }
{
    if let Sort::Mark(Mark::Semicolon) = &token.sort {
        let done = mem::replace(&mut state.done, Capped::Deep);
        state.done = add_va_list(at, name, done)?;
        Ok(go(Focus::Item, state))
    } else {
        Ok(Verdict::Bad)
    }
}
