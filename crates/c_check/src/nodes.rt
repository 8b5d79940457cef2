ghost use Rattle.std.specs.Prelude.{◌≡◌, ◌+◌, min, sum_by};
ghost use Rattle.c_program.specs.Nodes.{small};
ghost use Rattle.c_typing.specs.Items.{init_nodes, optional_init_nodes, global_nodes, field_nodes, head_nodes, item_nodes, unit_nodes};

use c_tree::{Field, GlobalDecl, Init, Item, Params, Unit};
use hx_words::Boxed;

/// One more node.
fn and_one(parts: u64) -> u64
    ensures { result ≡ min (parts + 1) 18446744073709551615 }
{
    parts.saturating_add(1)
}

#[cycle(inits)]
#[tactic(auto, using(crate::proofs::NodeLaws::init_counts))]
fn of_init(init: &Init) -> u64
    ensures { result ≡ small (init_nodes init.now) }
{
    match init {
        Init::Number(_, _) | Init::Char(_, _) | Init::Text(_, _) | Init::Name(_, _, _) => 1,
        Init::List(_, inits) => and_one(of_inits(inits.as_slice())),
    }
}

#[cycle(inits)]
fn of_inits(inits: &[Init]) -> u64
    ensures { result ≡ small (sum_by init_nodes inits.now) }
{
    let mut total = 0;
    for init in inits {
        total = of_init(init).saturating_add(total);
    }
    total
}

fn of_optional(init: &Option<Boxed<Init>>) -> u64
    ensures { result ≡ small (optional_init_nodes init.now) }
{
    match init {
        Some(init) => of_init(init.get()),
        None => 0,
    }
}

fn of_global(global: &GlobalDecl) -> u64
    ensures { result ≡ small (global_nodes global.now) }
{
    and_one(of_optional(&global.init))
}

fn of_globals(globals: &[GlobalDecl]) -> u64
    ensures { result ≡ small (sum_by global_nodes globals.now) }
{
    let mut total = 0;
    for global in globals {
        total = of_global(global).saturating_add(total);
    }
    total
}

fn of_field(field: &Field) -> u64
    ensures { result ≡ small (field_nodes field.now) }
{
    and_one(field.decls.len() as u64)
}

fn of_fields(fields: &[Field]) -> u64
    ensures { result ≡ small (sum_by field_nodes fields.now) }
{
    let mut total = 0;
    for field in fields {
        total = of_field(field).saturating_add(total);
    }
    total
}

fn of_head(params: &Params) -> u64
    ensures { result ≡ small (head_nodes params.now) }
{
    and_one(params.list.len() as u64)
}

/// The nodes of an item that defines no function and no adjustor.
fn of_item(item: &Item) -> u64
    ensures { result ≡ small (item_nodes item.now) }
{
    match item {
        Item::Typedef(_, head) | Item::Declare(head) => of_head(&head.params),
        Item::Struct(_, _, fields) => and_one(of_fields(fields.as_slice())),
        Item::Extern(_, _, _) => 2,
        Item::Globals(_, globals) => and_one(of_globals(globals.as_slice())),
        Item::Define(_, _, _) | Item::Adjustor(_, _, _, _, _, _) => 0,
    }
}

fn of_items(items: &[Item]) -> u64
    ensures { result ≡ small (sum_by item_nodes items.now) }
{
    let mut total = 0;
    for item in items {
        total = of_item(item).saturating_add(total);
    }
    total
}

fn of_unit(unit: &Unit) -> u64
    ensures { result ≡ small (unit_nodes unit.now) }
{
    of_items(unit.items.as_slice())
}

/// The nodes of units other than those of their definitions of functions and adjustors; the largest `u64`
/// where there are more. It takes no memory.
pub fn nodes_of_units(units: &[Unit]) -> u64
    ensures { result ≡ small (sum_by unit_nodes units.now) }
{
    let mut total = 0;
    for unit in units {
        total = of_unit(unit).saturating_add(total);
    }
    total
}
