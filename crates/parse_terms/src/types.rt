ghost use Rattle.std.specs.Prelude.{◌≡◌, [], IfOk};
ghost use Rattle.parse_terms.specs.TypeNames.{type_step, stars_step, opening_step, words_step};

use crate::answer::Answer;
use crate::integers::{IntWords, begin_int, finish_int, step_int};
use crate::terminal::{Sort, Terminal, copy_name};
use c_lex::{Mark, Word};
use c_tree::{Base, TypeName};
use c_types::Span;
use hx_words::Items;
use std::alloc::{AllocError, Global};

/// How far a type has been read.
#[derive(Drop)]
pub enum TypeState {
    Opening,
    /// After `struct`.
    Tag(Span),
    /// In an integer type, with its first word's place.
    Words(Span, IntWords),
    /// After the base: stars may follow.
    Stars(Base, Items<Span>),
}

fn opened(alloc: Global, token: &Terminal) -> Result<Answer<TypeState, TypeName>, AllocError>
    ensures { IfOk result (λ r. r ≡ opening_step token.now.sort token.now.span) }
{
    let span = token.span;
    let state = match &token.sort {
        Sort::Name(text) => {
            let name = copy_name(alloc, text, span)?;
            TypeState::Stars(Base::Named(name), Items::new(alloc))
        }
        Sort::Word(Word::Void) => TypeState::Stars(Base::Void(span), Items::new(alloc)),
        Sort::Word(Word::Struct) => TypeState::Tag(span),
        Sort::Word(word) => match begin_int(*word) {
            Some(words) => TypeState::Words(span, words),
            None => return Ok(Answer::Bad),
        },
        _ => return Ok(Answer::Bad),
    };
    Ok(Answer::More(state))
}

fn starred(
    token: &Terminal,
    base: Base,
    stars: Items<Span>,
) -> Result<Answer<TypeState, TypeName>, AllocError>
    ensures { IfOk result (λ r. r ≡ stars_step token.now.sort token.now.span base stars) }
{
    match &token.sort {
        Sort::Mark(Mark::Star) => {
            let mut stars = stars;
            stars.push(token.span)?;
            Ok(Answer::More(TypeState::Stars(base, stars)))
        }
        _ => Ok(Answer::Done(TypeName { base, stars })),
    }
}

fn worded(
    alloc: Global,
    token: &Terminal,
    first: Span,
    words: IntWords,
) -> Result<Answer<TypeState, TypeName>, AllocError>
    ensures { IfOk result (λ r. r ≡ words_step token.now.sort token.now.span first words) }
{
    if let Sort::Word(word) = &token.sort {
        if let Some(more) = step_int(*word, words) {
            return Ok(Answer::More(TypeState::Words(first, more)));
        }
    }
    match finish_int(words) {
        Some(ty) => starred(token, Base::Int(ty, first), Items::new(alloc)),
        None => Ok(Answer::Bad),
    }
}

/// A type takes a token.
pub fn step_type(
    alloc: Global,
    token: &Terminal,
    state: TypeState,
) -> Result<Answer<TypeState, TypeName>, AllocError>
    ensures { IfOk result (λ r. r ≡ type_step token.now state) }
{
    match state {
        TypeState::Opening => opened(alloc, token),
        TypeState::Tag(first) => match &token.sort {
            Sort::Name(text) => {
                let tag = copy_name(alloc, text, token.span)?;
                let base = Base::Struct(first, tag);
                Ok(Answer::More(TypeState::Stars(base, Items::new(alloc))))
            }
            _ => Ok(Answer::Bad),
        },
        TypeState::Words(first, words) => worded(alloc, token, first, words),
        TypeState::Stars(base, stars) => starred(token, base, stars),
    }
}
