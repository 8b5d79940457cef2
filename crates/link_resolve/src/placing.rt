//! The names that mean places in sections.

ghost use Rattle.std.specs.Prelude.{◌≡◌, ◌+◌, ◌<◌, ◌≤◌, ◌++◌, length, IfOk, OnOk};
ghost use Rattle.hx_names.specs.Mangling.{unmangled};
ghost use Rattle.link_resolve.specs.Names.{before_guest_end};
ghost use Rattle.link_resolve.specs.Resolution.{entry_of, plain_entry, guest_entry, other_entry, entries_at, entries_from};

use crate::listing::Listed;
use crate::meaning::means;
use crate::naming::{before_guest_end, is_guest_exit, is_import};
use crate::resolved::NamePlace;
use crate::table::Table;
use hx_names::unmangle;
use hx_words::Items;
use std::alloc::{AllocError, Global};

/// Adds a name with its place, unless it means an import slot.
#[tactic(auto, unfolding(crate::specs::Resolution::entry_of))]
fn add_entry(
    alloc: Global,
    table: &Table<'_>,
    name: &[u8],
    names: &mut Items<NamePlace>,
) -> Result<(), AllocError>
    ensures { OnOk result (names.new ≡ names.old ++ entry_of table.now name.now) }
{
    if is_import(name) {
        return Ok(());
    }
    if let Some(place) = means(alloc, table, name)? {
        names.push(NamePlace {
            name: Items::from_slice(alloc, name)?,
            home: place.home,
            at: place.at,
            sequence: place.sequence,
        })?;
    }
    Ok(())
}

/// Adds the name of a function, which leads to its Arm64EC body, unless that name has a `#` too.
fn add_plain(
    alloc: Global,
    table: &Table<'_>,
    plain: &[u8],
    names: &mut Items<NamePlace>,
) -> Result<(), AllocError>
    ensures { OnOk result (names.new ≡ names.old ++ plain_entry table.now plain.now (unmangled plain.now)) }
{
    if unmangle(plain).is_some() {
        return Ok(());
    }
    add_entry(alloc, table, plain, names)
}

/// Adds the name of an Arm64EC body, which leads to its guest exit thunk where nothing defines it.
fn add_guest(
    alloc: Global,
    table: &Table<'_>,
    thunk: &[u8],
    names: &mut Items<NamePlace>,
) -> Result<(), AllocError>
    ensures { OnOk result (names.new ≡ names.old ++ guest_entry table.now (before_guest_end thunk.now)) }
{
    let body = before_guest_end(thunk);
    if table.definition_of(body).is_some() {
        return Ok(());
    }
    add_entry(alloc, table, body, names)
}

/// Adds the other name that may lead to the place of a symbol of this name.
fn add_other(
    alloc: Global,
    table: &Table<'_>,
    name: &[u8],
    names: &mut Items<NamePlace>,
) -> Result<(), AllocError>
    ensures { OnOk result (names.new ≡ names.old ++ other_entry table.now name.now (unmangled name.now)) }
{
    let Some(plain) = unmangle(name) else {
        return Ok(());
    };
    if is_guest_exit(name) {
        return add_guest(alloc, table, name, names);
    }
    add_plain(alloc, table, plain, names)
}

/// Adds the names of a symbol's place.
#[tactic(auto, unfolding(crate::specs::Resolution::entries_at))]
fn add_entries(
    alloc: Global,
    table: &Table<'_>,
    symbol: &Listed<'_>,
    names: &mut Items<NamePlace>,
) -> Result<(), AllocError>
    ensures { OnOk result (names.new ≡ names.old ++ entries_at table.now symbol.now) }
{
    if table.is_first(symbol) {
        add_entry(alloc, table, symbol.name(), names)?;
        add_other(alloc, table, symbol.name(), names)?;
    }
    Ok(())
}

/// The names that mean places in sections.
pub fn name_places(alloc: Global, table: &Table<'_>) -> Result<Items<NamePlace>, AllocError>
    ensures { IfOk result (λ names. names ≡ entries_from table.now table.now) }
{
    let mut names = Items::new(alloc);
    for symbol in table.symbols() {
        add_entries(alloc, table, symbol, &mut names)?;
    }
    Ok(names)
}
