//! Which sections are kept.

ghost use Rattle.std.specs.Prelude.{◌≡◌, ℕ, ◌+◌, ◌<◌, ◌≤◌, ◌++◌, false, length, IfOk};
ghost use Rattle.std.specs.List.{slice_index_or};
ghost use Rattle.link_resolve.specs.Refusals.{is_named, is_wanted, left_out};
ghost use Rattle.link_resolve.specs.Resolution.{kept_from};

use crate::listing::{Section, is_marked, mark};
use crate::resolved::SectionId;
use crate::table::Table;
use hx_words::Items;
use std::alloc::{AllocError, Global};

/// The sections in which an external symbol stands.
#[tactic(auto, unfolding(crate::specs::Refusals::is_named))]
fn named_sections(alloc: Global, table: &Table<'_>, count: usize) -> Result<Vec<bool>, AllocError>
    ensures { IfOk result (λ marks. (n : ℕ) → n < count → slice_index_or marks.items n false ≡ is_named table.now n) }
{
    let mut marks = vec![in alloc; false; count]?;
    for symbol in table.symbols() {
        if symbol.is_definition() {
            mark(&mut marks, symbol.home());
        }
    }
    Ok(marks)
}

/// The sections in which the first definition of a name stands.
#[tactic(auto, unfolding(crate::specs::Refusals::is_wanted))]
fn wanted_sections(alloc: Global, table: &Table<'_>, count: usize) -> Result<Vec<bool>, AllocError>
    ensures { IfOk result (λ marks. (n : ℕ) → n < count → slice_index_or marks.items n false ≡ is_wanted table.now n) }
{
    let mut marks = vec![in alloc; false; count]?;
    for symbol in table.symbols() {
        if table.is_first(symbol) {
            mark(&mut marks, symbol.home());
        }
    }
    Ok(marks)
}

/// Which sections are left out.
#[tactic(auto, unfolding(crate::specs::Refusals::left_out))]
pub fn left_out(
    alloc: Global,
    table: &Table<'_>,
    sections: &[Section],
) -> Result<Vec<bool>, AllocError>
    ensures { IfOk result (λ left. left.items ≡ left_out table.now sections.now) }
{
    let named = named_sections(alloc, table, sections.len())?;
    let wanted = wanted_sections(alloc, table, sections.len())?;
    let mut left = Vec::new(alloc);
    for (n, section) in sections.iter().enumerate() {
        left.push(section.comdat && is_marked(&named, n) && !is_marked(&wanted, n))?;
    }
    Ok(left)
}

/// The sections that are kept.
pub fn kept_sections(
    alloc: Global,
    left: &[bool],
    sections: &[Section],
) -> Result<Items<SectionId>, AllocError>
    ensures { IfOk result (λ kept. kept ≡ kept_from left.now 0 sections.now) }
{
    let mut kept = Items::new(alloc);
    for (n, section) in sections.iter().enumerate() {
        if !is_marked(left, n) {
            kept.push(section.id)?;
        }
    }
    Ok(kept)
}
