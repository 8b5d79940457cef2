//! The linker's first step.

ghost use Rattle.std.specs.Prelude.{◌≡◌, ◌<◌, ◌^◌, length, None, find};
ghost use Rattle.std.specs.Prelude.{IfOk};
ghost use Rattle.link_resolve.specs.Symbols.{section_total};
ghost use Rattle.link_resolve.specs.Refusals.{is_undefined, is_duplicate, is_on_both_sides, lacks_entry, left_out, lacks_main};
ghost use Rattle.link_resolve.specs.Resolution.{resolved, last_answer, entry_answer, answer, resolution, Tells};

use crate::keeping::{kept_sections, left_out};
use crate::listing::{Listed, Section, list_sections, list_symbols};
use crate::placing::name_places;
use crate::refusal::LinkRefusal;
use crate::refusing::{duplicate, lacks_main, on_both_sides, undefined, without_entry};
use crate::resolved::Resolved;
use crate::table::Table;
use coff_write::Object;
use hx_words::Items;
use std::alloc::{AllocError, Global};

fn name_of(alloc: Global, symbol: &Listed<'_>) -> Result<Items<u8>, AllocError>
    ensures { IfOk result (λ name. name ≡ symbol.now.symbol.name) }
{
    let name = Items::from_slice(alloc, symbol.name())?;
    Ok(name)
}

/// What is left to answer where only `main` may be missing.
#[tactic(auto, unfolding(crate::specs::Resolution::last_answer, crate::specs::Resolution::resolved))]
fn resolve_main(
    alloc: Global,
    table: &Table<'_>,
    sections: &[Section],
    left: &[bool],
) -> Result<Resolved, LinkRefusal>
    requires { left.now ≡ left_out table.now sections.now }
    ensures { Tells result (last_answer table.now sections.now) }
{
    if lacks_main(alloc, table)? {
        return Err(LinkRefusal::NoMain);
    }
    let kept = kept_sections(alloc, left, sections)?;
    let names = name_places(alloc, table)?;
    Ok(Resolved { kept, names })
}

/// What is left to answer where each name is defined on one side.
#[tactic(auto, unfolding(crate::specs::Resolution::entry_answer))]
fn resolve_entries(
    alloc: Global,
    table: &Table<'_>,
    sections: &[Section],
) -> Result<Resolved, LinkRefusal>
    ensures { Tells result (entry_answer table.now sections.now) }
{
    let left = left_out(alloc, table, sections)?;
    if let Some(symbol) = without_entry(table, &left) {
        return Err(LinkRefusal::NoEntryThunk(name_of(alloc, symbol)?));
    }
    resolve_main(alloc, table, sections, &left)
}

/// What a list of symbols and sections links to.
#[tactic(auto, unfolding(crate::specs::Resolution::answer))]
fn resolve_table(
    alloc: Global,
    table: &Table<'_>,
    sections: &[Section],
) -> Result<Resolved, LinkRefusal>
    ensures { Tells result (answer table.now sections.now) }
{
    if let Some(symbol) = undefined(alloc, table)? {
        return Err(LinkRefusal::Undefined(name_of(alloc, symbol)?));
    }
    if let Some(symbol) = duplicate(table) {
        return Err(LinkRefusal::Duplicate(name_of(alloc, symbol)?));
    }
    if let Some(symbol) = on_both_sides(alloc, table)? {
        return Err(LinkRefusal::BothSides(name_of(alloc, symbol)?));
    }
    resolve_entries(alloc, table, sections)
}

/// The sections that are kept and the places that names mean, or the first refusal. Only want of
/// memory may come in the place of either.
pub fn resolve(alloc: Global, objects: &[Object]) -> Result<Resolved, LinkRefusal>
    requires objects { length objects.now < 2 ^ 32 }
    requires sections { section_total objects.now < 2 ^ 31 }
    ensures exact { Tells result (resolution objects.now) }
{
    let symbols = list_symbols(alloc, objects)?;
    let sections = list_sections(alloc, objects)?;
    let table = Table::new(alloc, &symbols)?;
    resolve_table(alloc, &table, &sections)
}
