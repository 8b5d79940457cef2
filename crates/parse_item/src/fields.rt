ghost use Rattle.std.specs.Prelude.{◌≡◌, IfOk};
ghost use Rattle.parse_terms.specs.TypeNames.{type_step};
ghost use Rattle.parse_terms.specs.Declarators.{decl_step};
ghost use Rattle.parse_item.specs.DeclarationMachines.{field_end, field_declared, field_typed, begin_field, between_step, fields_step};

use c_lex::Mark;
use c_tree::{Base, Decl, Field};
use hx_words::Items;
use parse_terms::{Answer, DeclState, Sort, Terminal, TypeState, step_decl, step_type};
use std::alloc::{AllocError, Global};

/// How far the fields of a struct have been read, with those before.
#[derive(Drop)]
pub enum FieldsState {
    /// After `{` or `;`.
    Between(Items<Field>),
    /// In the type of a field.
    Typing(Items<Field>, TypeState),
    /// In a declarator, with the base and the declarators before it.
    Declaring(Items<Field>, Base, Items<Decl>, DeclState),
}

type FieldsAnswer = Answer<FieldsState, Items<Field>>;

fn end_declarator(
    alloc: Global,
    token: &Terminal,
    fields: Items<Field>,
    base: Base,
    decls: Items<Decl>,
) -> Result<FieldsAnswer, AllocError>
    ensures { IfOk result (λ r. r ≡ field_end token.now.sort fields base decls) }
{
    match &token.sort {
        Sort::Mark(Mark::Comma) => {
            let next = DeclState::Stars(Items::new(alloc));
            Ok(Answer::More(FieldsState::Declaring(fields, base, decls, next)))
        }
        Sort::Mark(Mark::Semicolon) => {
            let mut fields = fields;
            fields.push(Field { base, decls })?;
            Ok(Answer::More(FieldsState::Between(fields)))
        }
        _ => Ok(Answer::Bad),
    }
}

fn declaring(
    alloc: Global,
    token: &Terminal,
    fields: Items<Field>,
    base: Base,
    decls: Items<Decl>,
    so_far: DeclState,
) -> Result<FieldsAnswer, AllocError>
    ensures { IfOk result (λ r. r ≡ field_declared token.now.sort fields base decls (decl_step token.now so_far)) }
{
    match step_decl(alloc, token, so_far)? {
        Answer::More(more) => Ok(Answer::More(FieldsState::Declaring(fields, base, decls, more))),
        Answer::Done(decl) => {
            let mut decls = decls;
            decls.push(decl)?;
            end_declarator(alloc, token, fields, base, decls)
        }
        Answer::Bad => Ok(Answer::Bad),
    }
}

fn typing(
    alloc: Global,
    token: &Terminal,
    fields: Items<Field>,
    so_far: TypeState,
) -> Result<FieldsAnswer, AllocError>
    ensures { IfOk result (λ r. r ≡ field_typed token.now fields (type_step token.now so_far)) }
{
    match step_type(alloc, token, so_far)? {
        Answer::More(more) => Ok(Answer::More(FieldsState::Typing(fields, more))),
        Answer::Done(ty) => {
            let first = DeclState::Stars(ty.stars);
            declaring(alloc, token, fields, ty.base, Items::new(alloc), first)
        }
        Answer::Bad => Ok(Answer::Bad),
    }
}

/// The first token of a field's type.
#[tactic(auto, unfolding(crate::specs::DeclarationMachines::begin_field))]
fn begin(alloc: Global, token: &Terminal, fields: Items<Field>) -> Result<FieldsAnswer, AllocError>
    ensures { IfOk result (λ r. r ≡ begin_field token.now fields) }
{
    typing(alloc, token, fields, TypeState::Opening)
}

fn between(
    alloc: Global,
    token: &Terminal,
    fields: Items<Field>,
) -> Result<FieldsAnswer, AllocError>
    ensures { IfOk result (λ r. r ≡ between_step token.now token.now.sort fields) }
{
    match &token.sort {
        Sort::Mark(Mark::CloseBrace) => {
            if fields.is_empty() {
                Ok(Answer::Bad)
            } else {
                Ok(Answer::Done(fields))
            }
        }
        Sort::Mark(_) => Ok(Answer::Bad),
        _ => begin(alloc, token, fields),
    }
}

/// The fields of a struct take a token. They are over at `}`.
pub fn step_fields(
    alloc: Global,
    token: &Terminal,
    state: FieldsState,
) -> Result<Answer<FieldsState, Items<Field>>, AllocError>
    ensures { IfOk result (λ r. r ≡ fields_step token.now state) }
{
    match state {
        FieldsState::Between(fields) => between(alloc, token, fields),
        FieldsState::Typing(fields, so_far) => typing(alloc, token, fields, so_far),
        FieldsState::Declaring(fields, base, decls, so_far) => {
            declaring(alloc, token, fields, base, decls, so_far)
        }
    }
}
