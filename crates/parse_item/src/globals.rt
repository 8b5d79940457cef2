ghost use Rattle.std.specs.Prelude.{◌≡◌, IfOk};
ghost use Rattle.parse_terms.specs.Declarators.{decl_step};
ghost use Rattle.parse_decl.specs.Inits.{init_start, init_step};
ghost use Rattle.parse_item.specs.DeclarationMachines.{global_end, declared_end, global_declared, global_valued, globals_step};

use crate::parts::{GlobalsPart, add_plain, add_valued};
use c_lex::Mark;
use c_tree::Decl;
use hx_words::Items;
use parse_decl::{InitFocus, InitPart, InitState, step_init};
use parse_terms::{Answer, DeclState, Sort, Stack, Terminal, Verdict, step_decl};
use std::alloc::{AllocError, Global};

/// How far the globals of one base have been read, with those before.
#[derive(Drop)]
pub enum GlobalsState {
    /// In a declarator.
    Declaring(GlobalsPart, DeclState),
    /// In the value of the last declarator.
    Valued(GlobalsPart, Decl, InitState),
}

type GlobalsAnswer = Answer<GlobalsState, GlobalsPart>;

fn begin_init(alloc: Global) -> InitState
    ensures { result ≡ init_start }
{
    InitState {
        focus: InitFocus::Value,
        frames: Stack::new(alloc),
    }
}

fn end_global(alloc: Global, token: &Terminal, globals: GlobalsPart) -> GlobalsAnswer
    ensures { result ≡ global_end token.now.sort globals }
{
    match &token.sort {
        Sort::Mark(Mark::Comma) => {
            let next = DeclState::Stars(Items::new(alloc));
            Answer::More(GlobalsState::Declaring(globals, next))
        }
        Sort::Mark(Mark::Semicolon) => Answer::Done(globals),
        _ => Answer::Bad,
    }
}

fn end_declarator(
    alloc: Global,
    token: &Terminal,
    globals: GlobalsPart,
    decl: Decl,
) -> Result<GlobalsAnswer, AllocError>
    ensures { IfOk result (λ r. r ≡ declared_end token.now.sort globals decl) }
{
    match &token.sort {
        Sort::Mark(Mark::Equal) => {
            let first = begin_init(alloc);
            Ok(Answer::More(GlobalsState::Valued(globals, decl, first)))
        }
        _ => Ok(end_global(alloc, token, add_plain(globals, decl)?)),
    }
}

fn declaring(
    alloc: Global,
    token: &Terminal,
    globals: GlobalsPart,
    so_far: DeclState,
) -> Result<GlobalsAnswer, AllocError>
    ensures { IfOk result (λ r. r ≡ global_declared token.now.sort globals (decl_step token.now so_far)) }
{
    match step_decl(alloc, token, so_far)? {
        Answer::More(more) => Ok(Answer::More(GlobalsState::Declaring(globals, more))),
        Answer::Done(decl) => end_declarator(alloc, token, globals, decl),
        Answer::Bad => Ok(Answer::Bad),
    }
}

/// A value takes a token.
fn advance_init(
    alloc: Global,
    token: &Terminal,
    so_far: InitState,
) -> Result<Answer<InitState, InitPart>, AllocError>
    ensures { IfOk result (λ r. r ≡ init_step 256 token.now so_far) }
{
    let mut so_far = so_far;
    let verdict = step_init(alloc, token, &mut so_far);
    match verdict {
        Ok(Verdict::More) => Ok(Answer::More(so_far)),
        Ok(Verdict::Done(init)) => {
            drop(so_far);
            Ok(Answer::Done(init))
        }
        Ok(Verdict::Bad) => {
            drop(so_far);
            Ok(Answer::Bad)
        }
        Err(AllocError) => {
            drop(so_far);
            Err(AllocError)
        }
    }
}

fn valued(
    alloc: Global,
    token: &Terminal,
    globals: GlobalsPart,
    decl: Decl,
    so_far: InitState,
) -> Result<GlobalsAnswer, AllocError>
    ensures { IfOk result (λ r. r ≡ global_valued token.now.sort globals decl (init_step 256 token.now so_far)) }
{
    match advance_init(alloc, token, so_far)? {
        Answer::More(more) => Ok(Answer::More(GlobalsState::Valued(globals, decl, more))),
        Answer::Done(init) => {
            let globals = add_valued(globals, decl, init)?;
            Ok(end_global(alloc, token, globals))
        }
        Answer::Bad => Ok(Answer::Bad),
    }
}

/// Globals take a token. They are over at `;`.
pub fn step_globals(
    alloc: Global,
    token: &Terminal,
    state: GlobalsState,
) -> Result<Answer<GlobalsState, GlobalsPart>, AllocError>
    ensures { IfOk result (λ r. r ≡ globals_step 256 token.now state) }
{
    match state {
        GlobalsState::Declaring(globals, so_far) => declaring(alloc, token, globals, so_far),
        GlobalsState::Valued(globals, decl, so_far) => {
            valued(alloc, token, globals, decl, so_far)
        }
    }
}
