//! Sizes of the parts, and the numbers of the symbols' records.

ghost use Rattle.std.specs.Prelude.{◌≡◌, ◌+◌, ◌≤◌, min, slice_index, IfOk};
ghost use Rattle.std.specs.Option.{option_copied};
ghost use Rattle.coff_write.specs.Format.{is_short_section, is_short_symbol, text_size, row_count, site_count, overflows, section_names_size, symbol_names_size, contents_size, rows_count, has_start, is_start_of, is_comdat, section_of, is_section_symbol, records_in, record_numbers, records_total, cap};

use crate::object::{ObjSection, ObjSymbol};
use std::alloc::{AllocError, Global};

/// One more byte than a file may have. Sizes are counted up to here.
pub const CAP: u64 = 134_217_729;

/// Byte k of a name, or 0 after its end.
pub fn cell(name: &[u8], k: usize) -> u8
    ensures { result ≡ slice_index name.now k }
{
    if k < name.len() { name[k] } else { 0 }
}

/// A sum, counted up to [`CAP`].
pub fn capped_sum(total: u64, more: u64) -> u64
    requires { total ≤ cap }
    ensures value { result ≡ min (total + more) cap }
    ensures bound { result ≤ cap }
{
    (total + more.min(CAP)).min(CAP)
}

/// Whether a section's name stands in its header.
pub fn short_section(name: &[u8]) -> bool
    ensures { result ≡ is_short_section name.now }
{
    name.len() <= 8 && cell(name, 0) != b'/'
}

/// Whether a symbol's name stands in its record.
pub fn short_symbol(name: &[u8]) -> bool
    ensures { result ≡ is_short_symbol name.now }
{
    !name.is_empty() && name.len() <= 8
}

/// How many bytes a name takes in the string table.
#[tactic(auto, unfolding(crate::specs::Format::text_size))]
pub fn name_len(short: bool, name: &[u8]) -> u64
    ensures { result ≡ text_size short name.now }
{
    if short { 0 } else { name.len() as u64 + 1 }
}

/// Whether the header's field doesn't hold the number of relocations.
pub fn many_sites(s: &ObjSection) -> bool
    ensures { result ≡ overflows s.now }
{
    s.sites.as_slice().len() > 65_534
}

/// How many relocation records a section has.
#[tactic(auto, unfolding(crate::specs::Format::row_count))]
pub fn row_len(s: &ObjSection) -> u64
    ensures { result ≡ row_count s.now }
{
    if many_sites(s) {
        s.sites.as_slice().len() as u64 + 1
    } else {
        s.sites.as_slice().len() as u64
    }
}

/// The bytes of the sections' names in the string table.
pub fn section_names_len(sections: &[ObjSection]) -> u64
    ensures { result ≡ min (section_names_size sections.now) cap }
{
    let mut total = 0;
    for s in sections {
        let name = s.name.as_slice();
        total = capped_sum(total, name_len(short_section(name), name));
    }
    total
}

/// The bytes of the symbols' names in the string table.
pub fn symbol_names_len(symbols: &[ObjSymbol]) -> u64
    ensures { result ≡ min (symbol_names_size symbols.now) cap }
{
    let mut total = 0;
    for s in symbols {
        let name = s.name.as_slice();
        total = capped_sum(total, name_len(short_symbol(name), name));
    }
    total
}

/// The bytes of the sections' contents.
pub fn contents_len(sections: &[ObjSection]) -> u64
    ensures { result ≡ min (contents_size sections.now) cap }
{
    let mut total = 0;
    for s in sections {
        total = capped_sum(total, s.bytes.len() as u64);
    }
    total
}

/// The relocation records of the sections.
pub fn rows_len(sections: &[ObjSection]) -> u64
    ensures { result ≡ min (rows_count sections.now) cap }
{
    let mut total = 0;
    for s in sections {
        total = capped_sum(total, row_len(s));
    }
    total
}

/// Whether this is a static symbol of value 0 in the section of this number.
fn starts(section: u64, s: &ObjSymbol) -> bool
    ensures { result ≡ is_start_of section s.now }
{
    !s.external && s.value == 0 && s.section as u64 == section && s.section < 65_534
}

/// Whether one of the symbols is a static symbol of value 0 in the section of this number.
pub fn any_starts(section: u64, symbols: &[ObjSymbol]) -> bool
    ensures { result ≡ has_start section symbols.now }
{
    for s in symbols {
        if starts(section, s) {
            return true;
        }
    }
    false
}

/// The section of a number, which counts from 1.
pub fn section_at(sections: &[ObjSection], number: u16) -> Option<&ObjSection>
    ensures { option_copied result ≡ section_of sections.now number }
{
    if number == 0 {
        return None;
    }
    sections.get(number as usize - 1)
}

fn comdat_at(sections: &[ObjSection], number: u16) -> bool
    ensures { result ≡ is_comdat (section_of sections.now number) }
{
    match section_at(sections, number) {
        Some(s) => s.comdat,
        None => false,
    }
}

/// Whether this symbol, which stands after those before it, is the section symbol of a COMDAT
/// section.
#[tactic(auto, unfolding(crate::specs::Format::is_section_symbol))]
pub fn section_symbol(sections: &[ObjSection], before: &[ObjSymbol], s: &ObjSymbol) -> bool
    ensures { result ≡ is_section_symbol sections.now before.now s.now }
{
    let section = s.section as u64;
    starts(section, s) && comdat_at(sections, s.section) && !any_starts(section, before)
}

/// How many records a symbol has, with its auxiliary record.
fn records(more: bool) -> u64
    ensures value { result ≡ records_in more }
    ensures bound { result ≤ 2 }
{
    if more { 2 } else { 1 }
}

/// How many records the symbols have.
pub fn records_len(sections: &[ObjSection], symbols: &[ObjSymbol]) -> u64
    ensures { result ≡ min (records_total sections.now symbols.now 0 symbols.now) cap }
{
    let mut total = 0;
    for (j, s) in symbols.iter().enumerate() {
        let more = section_symbol(sections, &symbols[..j], s);
        total = capped_sum(total, records(more));
    }
    total
}

/// The number of the first record of each symbol.
pub fn numbers_of(
    alloc: Global,
    sections: &[ObjSection],
    symbols: &[ObjSymbol],
) -> Result<Vec<u64>, AllocError>
    requires { records_total sections.now symbols.now 0 symbols.now ≤ cap }
    ensures { IfOk result (λ v. v.items ≡ record_numbers sections.now symbols.now 0 0 symbols.now) }
{
    let mut numbers = Vec::new(alloc);
    let mut next = 0;
    for (j, s) in symbols.iter().enumerate() {
        numbers.push(next)?;
        let more = section_symbol(sections, &symbols[..j], s);
        next += records(more);
    }
    Ok(numbers)
}
