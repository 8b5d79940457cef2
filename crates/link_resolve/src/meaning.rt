//! What a name means.

ghost use Rattle.std.specs.Prelude.{◌≡◌, ◌∷◌, ◌++◌, Some, true, false, IfOk};
ghost use Rattle.link_resolve.specs.Meaning.{definition_of, is_ec_body, ec_body_of, place_of, place_if, stand_in, means};

use crate::listing::Listed;
use crate::naming::{is_guest_exit, joined};
use crate::resolved::SectionId;
use crate::table::Table;
use hx_names::unmangle;
use std::alloc::{AllocError, Global};

/// A place in a section, or the fast-forward sequence that leads there.
#[derive(Clone, Copy, Debug)]
pub struct Place {
    pub home: SectionId,
    pub at: u32,
    pub sequence: bool,
}

#[tactic(auto, unfolding(crate::specs::Meaning::place_of))]
fn place_of(sequence: bool, symbol: &Listed<'_>) -> Place
    ensures { result ≡ place_of sequence symbol.now }
{
    Place {
        home: symbol.section_id(),
        at: symbol.value(),
        sequence,
    }
}

/// Whether a symbol is an Arm64EC body.
#[tactic(auto, unfolding(crate::specs::Meaning::is_ec_body))]
pub fn is_ec_body(symbol: &Listed<'_>) -> bool
    ensures { result ≡ is_ec_body symbol.now }
{
    let name = symbol.name();
    symbol.is_definition() && unmangle(name).is_some() && !is_guest_exit(name)
}

fn definition_place(table: &Table<'_>, sequence: bool, name: &[u8]) -> Option<Place>
    ensures { result ≡ place_if sequence (definition_of table.now name.now) }
{
    match table.definition_of(name) {
        Some(symbol) => Some(place_of(sequence, symbol)),
        None => None,
    }
}

/// The sequence of a name that nothing defines.
fn sequence_of(alloc: Global, table: &Table<'_>, name: &[u8]) -> Result<Option<Place>, AllocError>
    ensures { IfOk result (λ place. place ≡ place_if true (ec_body_of table.now name.now)) }
{
    let body = joined(alloc, b"#", name)?;
    if is_guest_exit(&body) {
        return Ok(None);
    }
    Ok(definition_place(table, true, &body))
}

/// The guest exit thunk of a name that nothing defines, where its function is defined.
fn guest_exit_of(
    alloc: Global,
    table: &Table<'_>,
    name: &[u8],
    plain: &[u8],
) -> Result<Option<Place>, AllocError>
    ensures { IfOk result (λ place. place ≡ stand_in table.now name.now (Some plain.now)) }
{
    if table.definition_of(plain).is_none() {
        return Ok(None);
    }
    let thunk = joined(alloc, name, b"$exit_thunk")?;
    Ok(definition_place(table, false, &thunk))
}

/// The place that a name means.
#[tactic(auto, unfolding(crate::specs::Meaning::means))]
pub fn means(alloc: Global, table: &Table<'_>, name: &[u8]) -> Result<Option<Place>, AllocError>
    ensures { IfOk result (λ place. place ≡ means table.now name.now) }
{
    if let Some(symbol) = table.definition_of(name) {
        return Ok(Some(place_of(false, symbol)));
    }
    match unmangle(name) {
        Some(plain) => {
            let place = guest_exit_of(alloc, table, name, plain)?;
            Ok(place)
        }
        None => {
            let place = sequence_of(alloc, table, name)?;
            Ok(place)
        }
    }
}
