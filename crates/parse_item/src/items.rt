ghost use Rattle.std.specs.Prelude.{◌≡◌, IfOk};
ghost use Rattle.parse_terms.specs.TypeNames.{type_step};
ghost use Rattle.parse_terms.specs.Declarators.{decl_step};
ghost use Rattle.parse_decl.specs.Params.{params_step};
ghost use Rattle.parse_item.specs.BodyAnswers.{body_answer};
ghost use Rattle.parse_stmt.specs.StmtMachine.{Says};
ghost use Rattle.parse_item.specs.BodyVerdicts.{Answers};
ghost use Rattle.parse_item.specs.DeclarationMachines.{fields_step, typedef_step, adjustor_step, globals_step};
ghost use Rattle.parse_item.specs.UnitMachine.{typedef_said, adjustor_said, fields_said, fields_ended, extern_end, extern_declared, extern_typed, name_step, typed, globals_said, first_global, named_step, params_said, head_step, body_said, tag_step, tagged_type, tagged_step, begin_typed, item_begin, item_step};

use crate::adjustors::{AdjustorState, step_adjustor};
use crate::fields::{FieldsState, step_fields};
use crate::globals::{GlobalsState, step_globals};
use crate::parts::{ItemPart, empty_globals, height_of, make_definition, make_globals};
use crate::typedefs::{TypedefState, step_typedef};
use c_lex::{Mark, Word};
use c_tree::{Base, Decl, Field, FunctionHead, Item, Name, TypeName};
use c_types::Span;
use hx_words::Items;
use parse_decl::{ParamsState, has_all_names, step_params};
use parse_stmt::{Body, BodyState, Capped, begin_body, step_body};
use parse_terms::{
    Answer, DeclState, Sort, Terminal, TypeState, Verdict, copy_name, step_decl, step_type,
};
use std::alloc::{AllocError, Global};

/// How far an item has been read.
#[derive(Drop)]
pub enum ItemState {
    /// After `typedef`.
    Typedef(Span, TypedefState),
    /// After `struct` where an item begins.
    Tag(Span),
    /// After `struct ID`: a definition or a base.
    Tagged(Span, Name),
    /// Behind the `{` of a struct.
    Fields(Span, Name, FieldsState),
    /// After the `}` of a struct: `;` is to come.
    FieldsEnded(Span, Name, Items<Field>),
    /// In the type behind `extern`.
    ExternType(Span, TypeState),
    ExternDecl(Span, Base, DeclState),
    /// After `__adjustor`.
    Adjustor(Span, AdjustorState),
    /// In the type of globals or a function.
    Typing(TypeState),
    /// After the first name: globals or a function.
    Named(Base, Items<Span>, Name),
    Globals(Base, GlobalsState),
    /// Behind the `(` of a function.
    Params(TypeName, Name, ParamsState),
    /// After the `)` of a function: `;` or a block.
    Head(FunctionHead),
    /// In the block.
    Body(FunctionHead, Span, BodyState),
}

type ItemAnswer = Answer<ItemState, ItemPart>;

fn with_typedef(
    alloc: Global,
    token: &Terminal,
    word: Span,
    so_far: TypedefState,
) -> Result<ItemAnswer, AllocError>
    ensures { IfOk result (λ r. r ≡ typedef_said word (typedef_step token.now so_far)) }
{
    match step_typedef(alloc, token, so_far)? {
        Answer::More(more) => Ok(Answer::More(ItemState::Typedef(word, more))),
        Answer::Done(head) => {
            let height = height_of(&head.params) + 1;
            Ok(Answer::Done(Capped::Built(Item::Typedef(word, head), height)))
        }
        Answer::Bad => Ok(Answer::Bad),
    }
}

fn with_adjustor(
    alloc: Global,
    token: &Terminal,
    word: Span,
    so_far: AdjustorState,
) -> Result<ItemAnswer, AllocError>
    ensures { IfOk result (λ r. r ≡ adjustor_said word (adjustor_step word token.now so_far)) }
{
    match step_adjustor(alloc, word, token, so_far)? {
        Answer::More(more) => Ok(Answer::More(ItemState::Adjustor(word, more))),
        Answer::Done(item) => Ok(Answer::Done(Capped::Built(item, 1))),
        Answer::Bad => Ok(Answer::Bad),
    }
}

fn with_fields(
    alloc: Global,
    token: &Terminal,
    word: Span,
    tag: Name,
    so_far: FieldsState,
) -> Result<ItemAnswer, AllocError>
    ensures { IfOk result (λ r. r ≡ fields_said word tag (fields_step token.now so_far)) }
{
    match step_fields(alloc, token, so_far)? {
        Answer::More(more) => Ok(Answer::More(ItemState::Fields(word, tag, more))),
        Answer::Done(fields) => Ok(Answer::More(ItemState::FieldsEnded(word, tag, fields))),
        Answer::Bad => Ok(Answer::Bad),
    }
}

fn end_fields(token: &Terminal, word: Span, tag: Name, fields: Items<Field>) -> ItemAnswer
    ensures { result ≡ fields_ended token.now.sort word tag fields }
{
    match &token.sort {
        Sort::Mark(Mark::Semicolon) => {
            Answer::Done(Capped::Built(Item::Struct(word, tag, fields), 3))
        }
        _ => Answer::Bad,
    }
}

fn end_extern(token: &Terminal, word: Span, base: Base, decl: Decl) -> ItemAnswer
    ensures { result ≡ extern_end token.now.sort word base decl }
{
    match &token.sort {
        Sort::Mark(Mark::Semicolon) => {
            Answer::Done(Capped::Built(Item::Extern(word, base, decl), 2))
        }
        _ => Answer::Bad,
    }
}

fn with_extern_decl(
    alloc: Global,
    token: &Terminal,
    word: Span,
    base: Base,
    so_far: DeclState,
) -> Result<ItemAnswer, AllocError>
    ensures { IfOk result (λ r. r ≡ extern_declared token.now.sort word base (decl_step token.now so_far)) }
{
    match step_decl(alloc, token, so_far)? {
        Answer::More(more) => Ok(Answer::More(ItemState::ExternDecl(word, base, more))),
        Answer::Done(decl) => Ok(end_extern(token, word, base, decl)),
        Answer::Bad => Ok(Answer::Bad),
    }
}

fn with_extern_type(
    alloc: Global,
    token: &Terminal,
    word: Span,
    so_far: TypeState,
) -> Result<ItemAnswer, AllocError>
    ensures { IfOk result (λ r. r ≡ extern_typed token.now word (type_step token.now so_far)) }
{
    match step_type(alloc, token, so_far)? {
        Answer::More(more) => Ok(Answer::More(ItemState::ExternType(word, more))),
        Answer::Done(ty) => {
            with_extern_decl(alloc, token, word, ty.base, DeclState::Stars(ty.stars))
        }
        Answer::Bad => Ok(Answer::Bad),
    }
}

fn with_name(alloc: Global, token: &Terminal, ty: TypeName) -> Result<ItemAnswer, AllocError>
    ensures { IfOk result (λ r. r ≡ name_step token.now.sort token.now.span ty) }
{
    match &token.sort {
        Sort::Name(text) => {
            let name = copy_name(alloc, text, token.span)?;
            Ok(Answer::More(ItemState::Named(ty.base, ty.stars, name)))
        }
        _ => Ok(Answer::Bad),
    }
}

fn with_type(alloc: Global, token: &Terminal, so_far: TypeState) -> Result<ItemAnswer, AllocError>
    ensures { IfOk result (λ r. r ≡ typed token.now.sort token.now.span (type_step token.now so_far)) }
{
    match step_type(alloc, token, so_far)? {
        Answer::More(more) => Ok(Answer::More(ItemState::Typing(more))),
        Answer::Done(ty) => with_name(alloc, token, ty),
        Answer::Bad => Ok(Answer::Bad),
    }
}

fn with_globals(
    alloc: Global,
    token: &Terminal,
    base: Base,
    so_far: GlobalsState,
) -> Result<ItemAnswer, AllocError>
    ensures { IfOk result (λ r. r ≡ globals_said 256 base (globals_step 256 token.now so_far)) }
{
    match step_globals(alloc, token, so_far)? {
        Answer::More(more) => Ok(Answer::More(ItemState::Globals(base, more))),
        Answer::Done(globals) => Ok(Answer::Done(make_globals(base, globals))),
        Answer::Bad => Ok(Answer::Bad),
    }
}

#[tactic(auto, unfolding(crate::specs::UnitMachine::first_global))]
fn with_first_global(
    alloc: Global,
    token: &Terminal,
    base: Base,
    stars: Items<Span>,
    name: Name,
) -> Result<ItemAnswer, AllocError>
    ensures { IfOk result (λ r. r ≡ first_global 256 token.now base stars name) }
{
    let decl = Decl {
        stars,
        name,
        lengths: Items::new(alloc),
    };
    let first = GlobalsState::Declaring(empty_globals(alloc), DeclState::Named(decl));
    with_globals(alloc, token, base, first)
}

fn with_named(
    alloc: Global,
    token: &Terminal,
    base: Base,
    stars: Items<Span>,
    name: Name,
) -> Result<ItemAnswer, AllocError>
    ensures { IfOk result (λ r. r ≡ named_step 256 token.now token.now.sort base stars name) }
{
    match &token.sort {
        Sort::Mark(Mark::OpenParen) => Ok(Answer::More(ItemState::Params(
            TypeName { base, stars },
            name,
            ParamsState::Opening,
        ))),
        _ => with_first_global(alloc, token, base, stars, name),
    }
}

fn with_params(
    alloc: Global,
    token: &Terminal,
    ty: TypeName,
    name: Name,
    so_far: ParamsState,
) -> Result<ItemAnswer, AllocError>
    ensures { IfOk result (λ r. r ≡ params_said ty name (params_step token.now so_far)) }
{
    match step_params(alloc, token, so_far)? {
        Answer::More(more) => Ok(Answer::More(ItemState::Params(ty, name, more))),
        Answer::Done(params) => Ok(Answer::More(ItemState::Head(FunctionHead {
            result: ty,
            name,
            params,
        }))),
        Answer::Bad => Ok(Answer::Bad),
    }
}

fn with_head(alloc: Global, token: &Terminal, head: FunctionHead) -> ItemAnswer
    ensures { result ≡ head_step token.now.sort token.now.span head }
{
    match &token.sort {
        Sort::Mark(Mark::Semicolon) => {
            let height = height_of(&head.params) + 1;
            Answer::Done(Capped::Built(Item::Declare(head), height))
        }
        Sort::Mark(Mark::OpenBrace) => {
            if has_all_names(head.params.list.as_slice()) {
                Answer::More(ItemState::Body(head, token.span, begin_body(alloc)))
            } else {
                Answer::Bad
            }
        }
        _ => Answer::Bad,
    }
}

/// A verdict on a body, with the state that comes of it, as an answer.
fn answer_of(
    verdict: Result<Verdict<Body>, AllocError>,
    state: BodyState,
) -> Result<Answer<BodyState, Body>, AllocError>
    ensures { Answers verdict state result }
{
    match verdict {
        Ok(Verdict::More) => Ok(Answer::More(state)),
        Ok(Verdict::Done(body)) => {
            drop(state);
            Ok(Answer::Done(body))
        }
        Ok(Verdict::Bad) => {
            drop(state);
            Ok(Answer::Bad)
        }
        Err(AllocError) => {
            drop(state);
            Err(AllocError)
        }
    }
}

/// A body takes a token, in place.
#[tactic(auto, unfolding(crate::specs::BodyAnswers::body_answer))]
fn answer_body(
    alloc: Global,
    token: &Terminal,
    state: &mut BodyState,
) -> Result<Verdict<Body>, AllocError>
    ensures { IfOk result (λ r. Says r (body_answer 256 token.now state.old) state.new) }
{
    let verdict = step_body(alloc, token, state)?;
    Ok(verdict)
}

/// A body takes a token.
fn advance_body(
    alloc: Global,
    token: &Terminal,
    so_far: BodyState,
) -> Result<Answer<BodyState, Body>, AllocError>
    ensures { IfOk result (λ r. r ≡ body_answer 256 token.now so_far) }
{
    let mut so_far = so_far;
    let verdict = answer_body(alloc, token, &mut so_far);
    answer_of(verdict, so_far)
}

fn with_body(
    alloc: Global,
    token: &Terminal,
    head: FunctionHead,
    brace: Span,
    so_far: BodyState,
) -> Result<ItemAnswer, AllocError>
    ensures { IfOk result (λ r. r ≡ body_said 256 head brace (body_answer 256 token.now so_far)) }
{
    match advance_body(alloc, token, so_far)? {
        Answer::More(more) => Ok(Answer::More(ItemState::Body(head, brace, more))),
        Answer::Done(body) => Ok(Answer::Done(make_definition(head, brace, body))),
        Answer::Bad => Ok(Answer::Bad),
    }
}

fn with_tag(alloc: Global, token: &Terminal, word: Span) -> Result<ItemAnswer, AllocError>
    ensures { IfOk result (λ r. r ≡ tag_step token.now.sort token.now.span word) }
{
    match &token.sort {
        Sort::Name(text) => {
            let tag = copy_name(alloc, text, token.span)?;
            Ok(Answer::More(ItemState::Tagged(word, tag)))
        }
        _ => Ok(Answer::Bad),
    }
}

/// Behind a struct's tag, as a type of globals or a function.
#[tactic(auto, unfolding(crate::specs::UnitMachine::tagged_type))]
fn with_tagged_type(
    alloc: Global,
    token: &Terminal,
    word: Span,
    tag: Name,
) -> Result<ItemAnswer, AllocError>
    ensures { IfOk result (λ r. r ≡ tagged_type token.now word tag) }
{
    let base = Base::Struct(word, tag);
    with_type(alloc, token, TypeState::Stars(base, Items::new(alloc)))
}

fn with_tagged(
    alloc: Global,
    token: &Terminal,
    word: Span,
    tag: Name,
) -> Result<ItemAnswer, AllocError>
    ensures { IfOk result (λ r. r ≡ tagged_step token.now token.now.sort word tag) }
{
    match &token.sort {
        Sort::Mark(Mark::OpenBrace) => {
            let first = FieldsState::Between(Items::new(alloc));
            Ok(Answer::More(ItemState::Fields(word, tag, first)))
        }
        _ => with_tagged_type(alloc, token, word, tag),
    }
}

/// The first token of a type of globals or a function.
#[tactic(auto, unfolding(crate::specs::UnitMachine::begin_typed))]
fn begin_type(alloc: Global, token: &Terminal) -> Result<ItemAnswer, AllocError>
    ensures { IfOk result (λ r. r ≡ begin_typed token.now) }
{
    with_type(alloc, token, TypeState::Opening)
}

/// The first token of an item.
pub fn begin_item(
    alloc: Global,
    token: &Terminal,
) -> Result<Answer<ItemState, ItemPart>, AllocError>
    ensures { IfOk result (λ r. r ≡ item_begin token.now token.now.sort) }
{
    let span = token.span;
    let state = match &token.sort {
        Sort::Word(Word::Typedef) => {
            ItemState::Typedef(span, TypedefState::Typing(TypeState::Opening))
        }
        Sort::Word(Word::Struct) => ItemState::Tag(span),
        Sort::Word(Word::Extern) => ItemState::ExternType(span, TypeState::Opening),
        Sort::Word(Word::Adjustor) => ItemState::Adjustor(span, AdjustorState::Opening),
        _ => return begin_type(alloc, token),
    };
    Ok(Answer::More(state))
}

/// An item takes a token. Where it is over, the token is its last.
pub fn step_item(
    alloc: Global,
    token: &Terminal,
    state: ItemState,
) -> Result<Answer<ItemState, ItemPart>, AllocError>
    ensures { IfOk result (λ r. r ≡ item_step 256 token.now state) }
{
    match state {
        ItemState::Typedef(word, so_far) => with_typedef(alloc, token, word, so_far),
        ItemState::Tag(word) => with_tag(alloc, token, word),
        ItemState::Tagged(word, tag) => with_tagged(alloc, token, word, tag),
        ItemState::Fields(word, tag, so_far) => with_fields(alloc, token, word, tag, so_far),
        ItemState::FieldsEnded(word, tag, fields) => Ok(end_fields(token, word, tag, fields)),
        ItemState::ExternType(word, so_far) => with_extern_type(alloc, token, word, so_far),
        ItemState::ExternDecl(word, base, so_far) => {
            with_extern_decl(alloc, token, word, base, so_far)
        }
        ItemState::Adjustor(word, so_far) => with_adjustor(alloc, token, word, so_far),
        ItemState::Typing(so_far) => with_type(alloc, token, so_far),
        ItemState::Named(base, stars, name) => with_named(alloc, token, base, stars, name),
        ItemState::Globals(base, so_far) => with_globals(alloc, token, base, so_far),
        ItemState::Params(ty, name, so_far) => with_params(alloc, token, ty, name, so_far),
        ItemState::Head(head) => Ok(with_head(alloc, token, head)),
        ItemState::Body(head, brace, so_far) => with_body(alloc, token, head, brace, so_far),
    }
}
