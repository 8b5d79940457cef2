ghost use Rattle.std.specs.Prelude.{◌≡◌, IfOk};
ghost use Rattle.c_tree.specs.declared.declarations.Item.TheVariants as item;
ghost use Rattle.c_tree.specs.Height.{params_height};
ghost use Rattle.parse_stmt.specs.StmtParts.{mapped, raised};
ghost use Rattle.parse_item.specs.ItemGrammar.{unit_of};
ghost use Rattle.parse_item.specs.ItemParts.{no_globals, no_items, without_init, with_init, globals_part, define_part, with_item, unit_part};

use c_tree::{Base, Decl, FunctionHead, GlobalDecl, Item, Params, Unit};
use c_types::Span;
use hx_words::Items;
use parse_decl::InitPart;
use parse_expr::MOST;
use parse_stmt::{Body, Capped};
use std::alloc::{AllocError, Global};

/// Globals and the largest of their heights.
pub type GlobalsPart = Capped<Items<GlobalDecl>>;

/// An item and its height.
pub type ItemPart = Capped<Item>;

/// Items and the largest of their heights.
pub type ItemsPart = Capped<Items<Item>>;

/// A unit and its height.
pub type UnitPart = Capped<Unit>;

pub fn empty_globals(alloc: Global) -> GlobalsPart
    ensures { result ≡ no_globals }
{
    Capped::Built(Items::new(alloc), 0)
}

pub fn empty_items(alloc: Global) -> ItemsPart
    ensures { result ≡ no_items }
{
    Capped::Built(Items::new(alloc), 0)
}

/// One node above.
fn raise<T: Drop>(part: Capped<T>) -> Capped<T>
    ensures { result ≡ raised 256 part }
{
    match part {
        Capped::Built(x, height) if height < MOST => Capped::Built(x, height + 1),
        _ => Capped::Deep,
    }
}

/// The nodes on the longest path of parameters.
pub fn height_of(params: &Params) -> u32
    ensures { result ≡ params_height params.now }
{
    if params.list.is_empty() { 0 } else { 1 }
}

/// The globals and one more without a value.
#[tactic(auto, unfolding(crate::specs::ItemParts::without_init))]
pub fn add_plain(globals: GlobalsPart, decl: Decl) -> Result<GlobalsPart, AllocError>
    ensures { IfOk result (λ r. r ≡ without_init globals decl) }
{
    let Capped::Built(list, height) = globals else {
        return Ok(Capped::Deep);
    };
    let mut list = list;
    list.push(GlobalDecl { decl, init: None })?;
    Ok(Capped::Built(list, height.max(1)))
}

/// The globals and one more with a value.
#[tactic(auto, unfolding(crate::specs::ItemParts::with_init))]
pub fn add_valued(
    globals: GlobalsPart,
    decl: Decl,
    init: InitPart,
) -> Result<GlobalsPart, AllocError>
    ensures { IfOk result (λ r. r ≡ with_init globals decl init) }
{
    let Capped::Built(list, m) = globals else {
        return Ok(Capped::Deep);
    };
    let InitPart::Built(init, n) = init else {
        return Ok(Capped::Deep);
    };
    let mut list = list;
    list.push(GlobalDecl {
        decl,
        init: Some(init),
    })?;
    Ok(Capped::Built(list, m.max(n.max(1))))
}

fn with_globals(base: Base, globals: GlobalsPart) -> ItemPart
    ensures { result ≡ mapped (item.Globals base) globals }
{
    match globals {
        Capped::Built(list, height) => Capped::Built(Item::Globals(base, list), height),
        Capped::Deep => Capped::Deep,
    }
}

/// A declaration of globals.
#[tactic(auto, unfolding(crate::specs::ItemParts::globals_part))]
pub fn make_globals(base: Base, globals: GlobalsPart) -> ItemPart
    ensures { result ≡ globals_part 256 base globals }
{
    raise(with_globals(base, globals))
}

/// A function's definition.
#[tactic(auto, unfolding(crate::specs::ItemParts::define_part))]
pub fn make_definition(head: FunctionHead, brace: Span, body: Body) -> ItemPart
    ensures { result ≡ define_part 256 head brace body }
{
    let params = height_of(&head.params);
    let whole = match raise(body) {
        Capped::Built(items, height) => {
            Capped::Built(Item::Define(head, brace, items), params.max(height))
        }
        Capped::Deep => Capped::Deep,
    };
    raise(whole)
}

/// The items and one more.
#[tactic(auto, unfolding(crate::specs::ItemParts::with_item))]
pub fn add_item(items: ItemsPart, item: ItemPart) -> Result<ItemsPart, AllocError>
    ensures { IfOk result (λ r. r ≡ with_item items item) }
{
    let Capped::Built(list, m) = items else {
        drop(item);
        return Ok(Capped::Deep);
    };
    let Capped::Built(item, n) = item else {
        return Ok(Capped::Deep);
    };
    let mut list = list;
    list.push(item)?;
    Ok(Capped::Built(list, m.max(n)))
}

fn with_items(items: ItemsPart) -> UnitPart
    ensures { result ≡ mapped unit_of items }
{
    match items {
        Capped::Built(items, height) => Capped::Built(Unit { items }, height),
        Capped::Deep => Capped::Deep,
    }
}

/// The unit that the items are.
#[tactic(auto, unfolding(crate::specs::ItemParts::unit_part))]
pub fn make_unit(items: ItemsPart) -> UnitPart
    ensures { result ≡ unit_part 256 items }
{
    raise(with_items(items))
}
