ghost use Rattle.std.specs.Prelude.{◌≡◌, IfOk};
ghost use Rattle.parse_terms.specs.TypeNames.{type_step};
ghost use Rattle.parse_decl.specs.Params.{params_step};
ghost use Rattle.parse_item.specs.DeclarationMachines.{typedef_open, typedef_star, typedef_name, typedef_close, typedef_typed, typedef_params, typedef_end, typedef_step};

use c_lex::Mark;
use c_tree::{FunctionHead, Name, TypeName};
use parse_decl::{ParamsState, step_params};
use parse_terms::{Answer, Sort, Terminal, TypeState, copy_name, step_type};
use std::alloc::{AllocError, Global};

/// How far a typedef has been read, from behind its first word.
#[derive(Drop)]
pub enum TypedefState {
    /// In the result's type.
    Typing(TypeState),
    /// After `(`: `*` is to come.
    Star(TypeName),
    /// After `*`.
    Naming(TypeName),
    /// After the name: `)` is to come.
    Closing(TypeName, Name),
    /// After `)`: `(` is to come.
    Opening(TypeName, Name),
    Params(TypeName, Name, ParamsState),
    /// After the parameters: `;` is to come.
    Ended(FunctionHead),
}

type TypedefAnswer = Answer<TypedefState, FunctionHead>;

fn opened(token: &Terminal, next: TypedefState) -> TypedefAnswer
    ensures { result ≡ typedef_open token.now.sort next }
{
    match &token.sort {
        Sort::Mark(Mark::OpenParen) => Answer::More(next),
        _ => {
            drop(next);
            Answer::Bad
        }
    }
}

fn starred(token: &Terminal, next: TypedefState) -> TypedefAnswer
    ensures { result ≡ typedef_star token.now.sort next }
{
    match &token.sort {
        Sort::Mark(Mark::Star) => Answer::More(next),
        _ => {
            drop(next);
            Answer::Bad
        }
    }
}

fn closed(token: &Terminal, next: TypedefState) -> TypedefAnswer
    ensures { result ≡ typedef_close token.now.sort next }
{
    match &token.sort {
        Sort::Mark(Mark::CloseParen) => Answer::More(next),
        _ => {
            drop(next);
            Answer::Bad
        }
    }
}

fn ended(token: &Terminal, head: FunctionHead) -> TypedefAnswer
    ensures { result ≡ typedef_end token.now.sort head }
{
    match &token.sort {
        Sort::Mark(Mark::Semicolon) => Answer::Done(head),
        _ => Answer::Bad,
    }
}

fn named(alloc: Global, token: &Terminal, result_ty: TypeName) -> Result<TypedefAnswer, AllocError>
    ensures { IfOk result (λ r. r ≡ typedef_name token.now.sort token.now.span result_ty) }
{
    match &token.sort {
        Sort::Name(text) => {
            let name = copy_name(alloc, text, token.span)?;
            Ok(Answer::More(TypedefState::Closing(result_ty, name)))
        }
        _ => Ok(Answer::Bad),
    }
}

fn typing(alloc: Global, token: &Terminal, so_far: TypeState) -> Result<TypedefAnswer, AllocError>
    ensures { IfOk result (λ r. r ≡ typedef_typed token.now.sort (type_step token.now so_far)) }
{
    match step_type(alloc, token, so_far)? {
        Answer::More(more) => Ok(Answer::More(TypedefState::Typing(more))),
        Answer::Done(ty) => Ok(opened(token, TypedefState::Star(ty))),
        Answer::Bad => Ok(Answer::Bad),
    }
}

fn with_params(
    alloc: Global,
    token: &Terminal,
    result_ty: TypeName,
    name: Name,
    so_far: ParamsState,
) -> Result<TypedefAnswer, AllocError>
    ensures { IfOk result (λ r. r ≡ typedef_params result_ty name (params_step token.now so_far)) }
{
    match step_params(alloc, token, so_far)? {
        Answer::More(more) => Ok(Answer::More(TypedefState::Params(result_ty, name, more))),
        Answer::Done(params) => Ok(Answer::More(TypedefState::Ended(FunctionHead {
            result: result_ty,
            name,
            params,
        }))),
        Answer::Bad => Ok(Answer::Bad),
    }
}

/// A typedef takes a token. It is over at `;`.
pub fn step_typedef(
    alloc: Global,
    token: &Terminal,
    state: TypedefState,
) -> Result<Answer<TypedefState, FunctionHead>, AllocError>
    ensures { IfOk result (λ r. r ≡ typedef_step token.now state) }
{
    match state {
        TypedefState::Typing(so_far) => typing(alloc, token, so_far),
        TypedefState::Star(ty) => Ok(starred(token, TypedefState::Naming(ty))),
        TypedefState::Naming(ty) => named(alloc, token, ty),
        TypedefState::Closing(ty, name) => Ok(closed(token, TypedefState::Opening(ty, name))),
        TypedefState::Opening(ty, name) => {
            let next = TypedefState::Params(ty, name, ParamsState::Opening);
            Ok(opened(token, next))
        }
        TypedefState::Params(ty, name, so_far) => with_params(alloc, token, ty, name, so_far),
        TypedefState::Ended(head) => Ok(ended(token, head)),
    }
}
