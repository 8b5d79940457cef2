//! The first symbol that each refusal holds of.

ghost use Rattle.std.specs.Prelude.{◌≡◌, ◌+◌, ◌<◌, ◌≤◌, length, find, IfOk};
ghost use Rattle.std.specs.Option.{option_copied};
ghost use Rattle.link_resolve.specs.Refusals.{is_undefined, is_duplicate, is_on_both_sides, lacks_entry, lacks_main};

use crate::listing::{Listed, is_marked};
use crate::meaning::{is_ec_body, means};
use crate::naming::{is_import, joined};
use crate::table::Table;
use hx_names::unmangle;
use std::alloc::{AllocError, Global};

#[tactic(auto, unfolding(crate::specs::Refusals::is_undefined))]
fn is_undefined(alloc: Global, table: &Table<'_>, symbol: &Listed<'_>) -> Result<bool, AllocError>
    ensures { IfOk result (λ b. b ≡ is_undefined table.now symbol.now) }
{
    if !symbol.is_open() || is_import(symbol.name()) {
        return Ok(false);
    }
    let place = means(alloc, table, symbol.name())?;
    Ok(place.is_none())
}

/// The first symbol whose name nothing defines.
pub fn undefined<'a>(alloc: Global, table: &Table<'a>) -> Result<Option<&'a Listed<'a>>, AllocError>
    ensures { IfOk result (λ s. option_copied s ≡ find (is_undefined table.now) table.now) }
{
    for symbol in table.symbols() {
        if is_undefined(alloc, table, symbol)? {
            return Ok(Some(symbol));
        }
    }
    Ok(None)
}

#[tactic(auto, unfolding(crate::specs::Refusals::is_duplicate))]
fn is_duplicate(table: &Table<'_>, symbol: &Listed<'_>) -> bool
    ensures { result ≡ is_duplicate table.now symbol.now }
{
    symbol.is_definition() && table.has_clash(symbol.name())
}

/// The first definition of a name that has two which aren't both COMDAT.
pub fn duplicate<'a>(table: &Table<'a>) -> Option<&'a Listed<'a>>
    ensures { option_copied result ≡ find (is_duplicate table.now) table.now }
{
    for symbol in table.symbols() {
        if is_duplicate(table, symbol) {
            return Some(symbol);
        }
    }
    None
}

#[tactic(auto, unfolding(crate::specs::Refusals::is_on_both_sides))]
fn is_on_both_sides(
    alloc: Global,
    table: &Table<'_>,
    symbol: &Listed<'_>,
) -> Result<bool, AllocError>
    ensures { IfOk result (λ b. b ≡ is_on_both_sides table.now symbol.now) }
{
    if !symbol.is_definition() || unmangle(symbol.name()).is_some() {
        return Ok(false);
    }
    let body = joined(alloc, b"#", symbol.name())?;
    Ok(table.definition_of(&body).is_some())
}

/// The first definition of a name that has an Arm64EC body too.
pub fn on_both_sides<'a>(
    alloc: Global,
    table: &Table<'a>,
) -> Result<Option<&'a Listed<'a>>, AllocError>
    ensures { IfOk result (λ s. option_copied s ≡ find (is_on_both_sides table.now) table.now) }
{
    for symbol in table.symbols() {
        if is_on_both_sides(alloc, table, symbol)? {
            return Ok(Some(symbol));
        }
    }
    Ok(None)
}

#[tactic(auto, unfolding(crate::specs::Refusals::lacks_entry))]
fn lacks_entry(left: &[bool], symbol: &Listed<'_>) -> bool
    ensures { result ≡ lacks_entry left.now symbol.now }
{
    is_ec_body(symbol) && !is_marked(left, symbol.home()) && !symbol.has_entry()
}

/// The first Arm64EC body that is kept and has no entry thunk.
pub fn without_entry<'a>(table: &Table<'a>, left: &[bool]) -> Option<&'a Listed<'a>>
    ensures { option_copied result ≡ find (lacks_entry left.now) table.now }
{
    for symbol in table.symbols() {
        if lacks_entry(left, symbol) {
            return Some(symbol);
        }
    }
    None
}

/// Whether no body is named `main`.
#[tactic(auto, unfolding(crate::specs::Refusals::lacks_main))]
pub fn lacks_main(alloc: Global, table: &Table<'_>) -> Result<bool, AllocError>
    ensures { IfOk result (λ b. b ≡ lacks_main table.now) }
{
    let place = means(alloc, table, b"main")?;
    Ok(place.is_none())
}
