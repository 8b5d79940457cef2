ghost use Rattle.std.specs.Prelude.{◌≡◌, IfOk};
ghost use Rattle.parse_item.specs.DeclarationMachines.{adjustor_name, adjustor_equal, adjustor_target, adjustor_comma, adjustor_parameter, adjustor_amount, adjustor_negated, adjustor_end, adjustor_step};

use c_lex::Mark;
use c_tree::{Item, Literal, Name};
use c_types::Span;
use parse_terms::{Answer, Sort, Terminal, copy_name};
use std::alloc::{AllocError, Global};

/// How far an adjustor has been read, from behind its first word.
#[derive(Drop)]
pub enum AdjustorState {
    Opening,
    /// After its name: `=` is to come.
    Equal(Name),
    /// After `=`.
    Target(Name),
    /// After the target: `,` is to come.
    Comma(Name, Name),
    /// After `,`: the parameter's number is to come.
    Parameter(Name, Name),
    /// After the parameter: `,` is to come.
    NextComma(Name, Name, Literal),
    /// After the second `,`.
    Amount(Name, Name, Literal),
    /// After `-`, with its place.
    Negated(Name, Name, Literal, Span),
    /// After the amount: `;` is to come.
    Ended(Name, Name, Literal, Option<Span>, Literal),
}

type AdjustorAnswer = Answer<AdjustorState, Item>;

fn named(alloc: Global, token: &Terminal) -> Result<AdjustorAnswer, AllocError>
    ensures { IfOk result (λ r. r ≡ adjustor_name token.now.sort token.now.span) }
{
    match &token.sort {
        Sort::Name(text) => {
            let name = copy_name(alloc, text, token.span)?;
            Ok(Answer::More(AdjustorState::Equal(name)))
        }
        _ => Ok(Answer::Bad),
    }
}

fn equal(token: &Terminal, name: Name) -> AdjustorAnswer
    ensures { result ≡ adjustor_equal token.now.sort name }
{
    match &token.sort {
        Sort::Mark(Mark::Equal) => Answer::More(AdjustorState::Target(name)),
        _ => Answer::Bad,
    }
}

fn targeted(alloc: Global, token: &Terminal, name: Name) -> Result<AdjustorAnswer, AllocError>
    ensures { IfOk result (λ r. r ≡ adjustor_target token.now.sort token.now.span name) }
{
    match &token.sort {
        Sort::Name(text) => {
            let target = copy_name(alloc, text, token.span)?;
            Ok(Answer::More(AdjustorState::Comma(name, target)))
        }
        _ => Ok(Answer::Bad),
    }
}

fn comma(token: &Terminal, next: AdjustorState) -> AdjustorAnswer
    ensures { result ≡ adjustor_comma token.now.sort next }
{
    match &token.sort {
        Sort::Mark(Mark::Comma) => Answer::More(next),
        _ => {
            drop(next);
            Answer::Bad
        }
    }
}

fn parameter(token: &Terminal, name: Name, target: Name) -> AdjustorAnswer
    ensures { result ≡ adjustor_parameter token.now.sort token.now.span name target }
{
    match &token.sort {
        Sort::Number(value, ty) => {
            let number = Literal {
                value: *value,
                ty: *ty,
                span: token.span,
            };
            Answer::More(AdjustorState::NextComma(name, target, number))
        }
        _ => Answer::Bad,
    }
}

fn amount(token: &Terminal, name: Name, target: Name, number: Literal) -> AdjustorAnswer
    ensures { result ≡ adjustor_amount token.now.sort token.now.span name target number }
{
    match &token.sort {
        Sort::Number(value, ty) => {
            let amount = Literal {
                value: *value,
                ty: *ty,
                span: token.span,
            };
            Answer::More(AdjustorState::Ended(name, target, number, None, amount))
        }
        Sort::Mark(Mark::Minus) => {
            Answer::More(AdjustorState::Negated(name, target, number, token.span))
        }
        _ => Answer::Bad,
    }
}

fn negated(
    token: &Terminal,
    name: Name,
    target: Name,
    number: Literal,
    minus: Span,
) -> AdjustorAnswer
    ensures { result ≡ adjustor_negated token.now.sort token.now.span name target number minus }
{
    match &token.sort {
        Sort::Number(value, ty) => {
            let amount = Literal {
                value: *value,
                ty: *ty,
                span: token.span,
            };
            Answer::More(AdjustorState::Ended(name, target, number, Some(minus), amount))
        }
        _ => Answer::Bad,
    }
}

fn ended(token: &Terminal, item: Item) -> AdjustorAnswer
    ensures { result ≡ adjustor_end token.now.sort item }
{
    match &token.sort {
        Sort::Mark(Mark::Semicolon) => Answer::Done(item),
        _ => {
            drop(item);
            Answer::Bad
        }
    }
}

/// An adjustor takes a token. It is over at `;`. The first argument after the allocator is the place of
/// its first word.
pub fn step_adjustor(
    alloc: Global,
    word: Span,
    token: &Terminal,
    state: AdjustorState,
) -> Result<Answer<AdjustorState, Item>, AllocError>
    ensures { IfOk result (λ r. r ≡ adjustor_step word token.now state) }
{
    match state {
        AdjustorState::Opening => named(alloc, token),
        AdjustorState::Equal(name) => Ok(equal(token, name)),
        AdjustorState::Target(name) => targeted(alloc, token, name),
        AdjustorState::Comma(name, target) => {
            Ok(comma(token, AdjustorState::Parameter(name, target)))
        }
        AdjustorState::Parameter(name, target) => Ok(parameter(token, name, target)),
        AdjustorState::NextComma(name, target, number) => {
            Ok(comma(token, AdjustorState::Amount(name, target, number)))
        }
        AdjustorState::Amount(name, target, number) => Ok(amount(token, name, target, number)),
        AdjustorState::Negated(name, target, number, minus) => {
            Ok(negated(token, name, target, number, minus))
        }
        AdjustorState::Ended(name, target, number, minus, amount) => Ok(ended(
            token,
            Item::Adjustor(word, name, target, number, minus, amount),
        )),
    }
}
