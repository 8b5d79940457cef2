ghost use Rattle.std.specs.Prelude.{◌≡◌, IfOk};
ghost use Rattle.parse_terms.specs.Declarators.{decl_step, decl_stars_step, length_step};

use crate::answer::Answer;
use crate::terminal::{Sort, Terminal, copy_name};
use c_lex::Mark;
use c_tree::{Decl, Literal};
use c_types::Span;
use hx_words::Items;
use std::alloc::{AllocError, Global};

/// How far a declarator has been read.
#[derive(Drop)]
pub enum DeclState {
    /// After some stars: more or a name is to come.
    Stars(Items<Span>),
    /// After the name or a `]`.
    Named(Decl),
    /// After `[`.
    Length(Decl),
    /// After a length: `]` is to come.
    Closing(Decl),
}

fn after_stars(
    alloc: Global,
    token: &Terminal,
    stars: Items<Span>,
) -> Result<Answer<DeclState, Decl>, AllocError>
    ensures { IfOk result (λ r. r ≡ decl_stars_step token.now.sort token.now.span stars) }
{
    match &token.sort {
        Sort::Name(text) => {
            let name = copy_name(alloc, text, token.span)?;
            Ok(Answer::More(DeclState::Named(Decl {
                stars,
                name,
                lengths: Items::new(alloc),
            })))
        }
        Sort::Mark(Mark::Star) => {
            let mut stars = stars;
            stars.push(token.span)?;
            Ok(Answer::More(DeclState::Stars(stars)))
        }
        _ => Ok(Answer::Bad),
    }
}

fn after_open(token: &Terminal, decl: Decl) -> Result<Answer<DeclState, Decl>, AllocError>
    ensures { IfOk result (λ r. r ≡ length_step token.now.sort token.now.span decl) }
{
    match &token.sort {
        Sort::Number(value, ty) => {
            let mut decl = decl;
            decl.lengths.push(Literal {
                value: *value,
                ty: *ty,
                span: token.span,
            })?;
            Ok(Answer::More(DeclState::Closing(decl)))
        }
        _ => Ok(Answer::Bad),
    }
}

/// A declarator takes a token.
pub fn step_decl(
    alloc: Global,
    token: &Terminal,
    state: DeclState,
) -> Result<Answer<DeclState, Decl>, AllocError>
    ensures { IfOk result (λ r. r ≡ decl_step token.now state) }
{
    match state {
        DeclState::Stars(stars) => after_stars(alloc, token, stars),
        DeclState::Named(decl) => match &token.sort {
            Sort::Mark(Mark::OpenBracket) => Ok(Answer::More(DeclState::Length(decl))),
            _ => Ok(Answer::Done(decl)),
        },
        DeclState::Length(decl) => after_open(token, decl),
        DeclState::Closing(decl) => match &token.sort {
            Sort::Mark(Mark::CloseBracket) => Ok(Answer::More(DeclState::Named(decl))),
            _ => Ok(Answer::Bad),
        },
    }
}
