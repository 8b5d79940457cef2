ghost use Rattle.std.specs.Prelude.{◌≡◌, IfOk};
ghost use Rattle.parse_decl.specs.Params.{void_alone, all_named, closed, behind_step, typed_step, typing_step, opening_at, comma_at, ending_step, params_step};

use c_lex::Mark;
use c_tree::{Base, Param, Params, TypeName};
use c_types::Span;
use hx_words::Items;
use parse_terms::{Answer, Sort, Terminal, TypeState, copy_name, step_type};
use std::alloc::{AllocError, Global};

/// How far parameters have been read, with those before.
#[derive(Drop)]
pub enum ParamsState {
    /// After `(`.
    Opening,
    /// In the type of a parameter.
    Typing(Items<Param>, TypeState),
    /// After the name of a parameter.
    Behind(Items<Param>),
    /// After `,`.
    Comma(Items<Param>),
    /// After `...`, with its place.
    Ending(Items<Param>, Span),
}

/// Whether a parameter is `void` without stars and name, the only one.
fn is_void_alone(list: &[Param]) -> bool
    ensures { result ≡ void_alone list.now }
{
    let Some(first) = list.first() else {
        return false;
    };
    matches!(&first.base, Base::Void(_))
        && first.stars.is_empty()
        && first.name.is_none()
        && list.len() == 1
}

/// Whether each parameter has its name, as in a definition.
pub fn has_all_names(list: &[Param]) -> bool
    ensures { result ≡ all_named list.now }
{
    for param in list {
        if param.name.is_none() {
            return false;
        }
    }
    true
}

/// The parameters end without `...`.
fn close(alloc: Global, list: Items<Param>) -> Params
    ensures { result ≡ closed list }
{
    let list = if is_void_alone(list.as_slice()) {
        Items::new(alloc)
    } else {
        list
    };
    Params {
        list,
        ellipsis: None,
    }
}

fn behind(alloc: Global, token: &Terminal, list: Items<Param>) -> Answer<ParamsState, Params>
    ensures { result ≡ behind_step token.now.sort list }
{
    match &token.sort {
        Sort::Mark(Mark::Comma) => Answer::More(ParamsState::Comma(list)),
        Sort::Mark(Mark::CloseParen) => Answer::Done(close(alloc, list)),
        _ => Answer::Bad,
    }
}

fn typed(
    alloc: Global,
    token: &Terminal,
    list: Items<Param>,
    ty: TypeName,
) -> Result<Answer<ParamsState, Params>, AllocError>
    ensures { IfOk result (λ r. r ≡ typed_step token.now.sort token.now.span list ty) }
{
    let mut list = list;
    let name = match &token.sort {
        Sort::Name(text) => Some(copy_name(alloc, text, token.span)?),
        _ => None,
    };
    let has_name = name.is_some();
    list.push(Param {
        base: ty.base,
        stars: ty.stars,
        name,
    })?;
    if has_name {
        Ok(Answer::More(ParamsState::Behind(list)))
    } else {
        Ok(behind(alloc, token, list))
    }
}

fn typing(
    alloc: Global,
    token: &Terminal,
    list: Items<Param>,
    so_far: TypeState,
) -> Result<Answer<ParamsState, Params>, AllocError>
    ensures { IfOk result (λ r. r ≡ typing_step token.now list so_far) }
{
    match step_type(alloc, token, so_far)? {
        Answer::More(more) => Ok(Answer::More(ParamsState::Typing(list, more))),
        Answer::Done(ty) => typed(alloc, token, list, ty),
        Answer::Bad => Ok(Answer::Bad),
    }
}

fn opening(alloc: Global, token: &Terminal) -> Result<Answer<ParamsState, Params>, AllocError>
    ensures { IfOk result (λ r. r ≡ opening_at token.now.sort token.now) }
{
    match &token.sort {
        Sort::Mark(Mark::CloseParen) => Ok(Answer::Done(Params {
            list: Items::new(alloc),
            ellipsis: None,
        })),
        Sort::Mark(_) => Ok(Answer::Bad),
        _ => typing(alloc, token, Items::new(alloc), TypeState::Opening),
    }
}

fn after_comma(
    alloc: Global,
    token: &Terminal,
    list: Items<Param>,
) -> Result<Answer<ParamsState, Params>, AllocError>
    ensures { IfOk result (λ r. r ≡ comma_at token.now.sort token.now list) }
{
    match &token.sort {
        Sort::Mark(Mark::Ellipsis) => Ok(Answer::More(ParamsState::Ending(list, token.span))),
        Sort::Mark(_) => Ok(Answer::Bad),
        _ => typing(alloc, token, list, TypeState::Opening),
    }
}

fn ending(token: &Terminal, list: Items<Param>, dots: Span) -> Answer<ParamsState, Params>
    ensures { result ≡ ending_step token.now.sort dots list }
{
    match &token.sort {
        Sort::Mark(Mark::CloseParen) => Answer::Done(Params {
            list,
            ellipsis: Some(dots),
        }),
        _ => Answer::Bad,
    }
}

/// Parameters take a token. They are over at `)`.
pub fn step_params(
    alloc: Global,
    token: &Terminal,
    state: ParamsState,
) -> Result<Answer<ParamsState, Params>, AllocError>
    ensures { IfOk result (λ r. r ≡ params_step token.now state) }
{
    match state {
        ParamsState::Opening => opening(alloc, token),
        ParamsState::Typing(list, so_far) => typing(alloc, token, list, so_far),
        ParamsState::Behind(list) => Ok(behind(alloc, token, list)),
        ParamsState::Comma(list) => after_comma(alloc, token, list),
        ParamsState::Ending(list, dots) => Ok(ending(token, list, dots)),
    }
}
