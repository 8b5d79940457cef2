ghost use Rattle.std.specs.Prelude.{◌≡◌, slice_get};
ghost use Rattle.c_typing.specs.Visits.{Leaves, Tells};
ghost use Rattle.c_typing.specs.Scopes.{no_locals, no_names};
ghost use Rattle.c_typing.specs.Heads.{visit_parameters};
ghost use Rattle.c_typing.specs.Statements.{visit_body};
ghost use Rattle.c_typing.specs.UnitVisits.{with_scope};
ghost use Rattle.c_typing.specs.Externals.{visit_definition, enclosing_in};
ghost use Rattle.c_typing.specs.Items.{visit_item, visit_items, visit_unit};
ghost use Rattle.c_check.specs.Bodies.{LeavesScoped, defined_behind};

use c_program::TypedItem;
use c_tree::{BlockItem, FunctionHead, Item, Unit};
use c_types::Ty;
use c_typing::{Enclosing, LocalScope, Progress, Refusal, UnitScope};
use check_decls::{
    declare_extern, declare_head, declare_new_head, declare_typedef, define_adjustment,
    define_body, define_globals, define_struct, enclosing, enter_parameters, start_body,
};
use check_stmt::type_items;
use hx_words::Items;
use named_rows::NamedRows;
use std::alloc::Global;

/// The parameters of a definition, and the locals that they are.
#[tactic(auto, unfolding(c_typing::specs::UnitVisits::with_scope, c_typing::specs::Heads::visit_parameters))]
fn scoped_parameters(
    alloc: Global,
    head: &FunctionHead,
    state: &mut Progress,
) -> Result<(Items<Ty>, LocalScope), Refusal>
    ensures { LeavesScoped (with_scope (λ s. visit_parameters s head.now.params.list) state.old) result state.new }
{
    let mut locals = LocalScope {
        own: NamedRows::new(alloc),
        outer: Items::new(alloc),
    };
    let params = head.params.list.as_slice();
    let types = enter_parameters(alloc, &state.scope, params, &mut locals, &mut state.tables)?;
    Ok((types, locals))
}

/// A body, in the scope of the parameters.
#[tactic(auto, unfolding(c_typing::specs::UnitVisits::with_scope))]
fn scoped_body(
    alloc: Global,
    f: Enclosing,
    items: &[BlockItem],
    parameters: LocalScope,
    state: &mut Progress,
) -> Result<(Items<TypedItem>, LocalScope), Refusal>
    ensures { LeavesScoped (with_scope (λ s. visit_body s f parameters items.now) state.old) result state.new }
{
    let mut locals = parameters;
    let block = type_items(
        alloc,
        &state.scope,
        f,
        false,
        items,
        &mut locals,
        &mut state.tables,
    )?;
    Ok((block, locals))
}

/// What a body needs to know of the function whose type stands at this place.
fn enclosing_of(state: &Progress, ty: u32) -> Result<Enclosing, Refusal>
    ensures { Tells (Ok (enclosing_in (slice_get state.now.tables.types.funs ty))) result }
{
    enclosing(state.tables.types.as_types().funs.as_slice(), ty)
}

/// The body of a function that is declared, by its place and its type's.
#[tactic(auto, unfolding(c_typing::specs::Visits::followed, c_typing::specs::Visits::looked))]
fn define_declared(
    alloc: Global,
    unit: u32,
    declared: (u32, u32),
    items: &[BlockItem],
    parameters: LocalScope,
    state: &mut Progress,
) -> Result<(), Refusal>
    ensures { Leaves (defined_behind unit declared parameters items.now state.old) result state.new }
{
    let (place, ty) = declared;
    let f = enclosing_of(state, ty)?;
    let (block, _) = scoped_body(alloc, f, items, parameters, state)?;
    define_body(alloc, unit, place, block, state)?;
    Ok(())
}

/// A function with its body (C11, 6.9.1), whose own name is declared before the body is visited.
#[tactic(auto, unfolding(c_typing::specs::Externals::visit_definition, c_typing::specs::Visits::followed))]
fn define_function(
    alloc: Global,
    unit: u32,
    head: &FunctionHead,
    items: &[BlockItem],
    state: &mut Progress,
) -> Result<(), Refusal>
    ensures { Leaves (visit_definition unit head.now items.now state.old) result state.new }
{
    start_body(alloc, state);
    let (params, locals) = scoped_parameters(alloc, head, state)?;
    let declared = declare_new_head(alloc, head, params, state)?;
    define_declared(alloc, unit, declared, items, locals, state)?;
    Ok(())
}

fn type_item(alloc: Global, unit: u32, item: &Item, state: &mut Progress) -> Result<(), Refusal>
    ensures { Leaves (visit_item unit item.now state.old) result state.new }
{
    match item {
        Item::Typedef(_, head) => Ok(declare_typedef(alloc, head, state)?),
        Item::Struct(_, name, fields) => {
            Ok(define_struct(alloc, name, fields.as_slice(), state)?)
        }
        Item::Extern(_, base, decl) => Ok(declare_extern(alloc, base, decl, state)?),
        Item::Globals(base, decls) => {
            Ok(define_globals(alloc, unit, base, decls.as_slice(), state)?)
        }
        Item::Declare(head) => Ok(declare_head(alloc, head, state)?),
        Item::Define(head, _, items) => {
            Ok(define_function(alloc, unit, head, items.as_slice(), state)?)
        }
        Item::Adjustor(_, a, b, p, m, n) => {
            Ok(define_adjustment(alloc, unit, a, b, p, *m, n, state)?)
        }
    }
}

#[tactic(auto, unfolding(c_typing::specs::Items::visit_items, c_typing::specs::Visits::followed, c_typing::specs::Visits::give))]
fn type_items_of(
    alloc: Global,
    unit: u32,
    items: &[Item],
    state: &mut Progress,
) -> Result<(), Refusal>
    ensures { Leaves (visit_items unit items.now state.old) result state.new }
{
    for item in items {
        type_item(alloc, unit, item, state)?;
    }
    Ok(())
}

/// The scope in which a unit begins.
fn no_names_of(alloc: Global) -> UnitScope
    ensures { result ≡ no_names }
{
    UnitScope {
        names: NamedRows::new(alloc),
        tags: NamedRows::new(alloc),
    }
}

/// A unit, which begins without names of its own.
#[tactic(auto, unfolding(c_typing::specs::Items::visit_unit))]
pub fn type_unit(alloc: Global, unit: u32, text: &Unit, state: &mut Progress) -> Result<(), Refusal>
    ensures { Leaves (visit_unit unit text.now state.old) result state.new }
{
    state.scope = no_names_of(alloc);
    type_items_of(alloc, unit, text.items.as_slice(), state)?;
    Ok(())
}
