//! The object of a file that no test refuses.

ghost use Rattle.std.specs.Prelude.{◌≡◌, ◌+◌, ◌-◌, ◌*◌, ◌<◌, ◌≤◌, false, true, IfOk};
ghost use Rattle.file_words.specs.Below.{table, chosen};
ghost use Rattle.coff_fields.specs.Fields.{section_count, symbol_count, site_count};
ghost use Rattle.coff_read.specs.Kept.{keeps_section, stays, new_symbol};
ghost use Rattle.coff_read.specs.Refusals.{bad_symbol_range, bad_relocation_place, bad_hybrid_record};
ghost use Rattle.coff_read.specs.Objects.{flags_of, site, section, symbol, object_in};
ghost use Rattle.coff_read.specs.Stages.{section_number};

use crate::hybrid::all_rows;
use crate::kept::{keeps_section, new_section, new_symbol, section_numbers, stays_at};
use crate::relocations::site_kind;
use coff_fields::fields::{
    contents_size, has_flag, machine_of, raw_flags, raw_place, section_count, site_at, site_count,
    site_symbol, symbol_class, symbol_count, symbol_section, symbol_value, zeros_of,
};
use coff_fields::names::{section_name, symbol_name};
use coff_write::{ObjSection, ObjSite, ObjSymbol, Object};
use file_words::part;
use hx_words::Items;
use std::alloc::{AllocError, Global};

/// Site r of section i.
#[tactic(auto, using(crate::proofs::PlaceLaws::site_counted), unfolding(crate::specs::Objects::site))]
fn site_of(bytes: &[u8], numbers: &[u32], i: u32, r: u32) -> ObjSite
    requires numbers { numbers.now ≡ table (new_symbol bytes.now) (symbol_count bytes.now) }
    requires good { bad_relocation_place bytes.now ≡ false }
    requires counted { i < section_count bytes.now }
    requires kept { keeps_section bytes.now i ≡ true }
    requires inside { r < site_count bytes.now i }
    ensures { result ≡ site bytes.now i r }
{
    ObjSite {
        at: site_at(bytes, i, r),
        symbol: new_symbol(bytes, numbers, site_symbol(bytes, i, r)),
        kind: site_kind(bytes, i, r),
    }
}

/// The sites of section i.
#[tactic(auto, using(file_words::proofs::BelowLaws::table_step, file_words::proofs::BelowLaws::table_none))]
fn sites_of(
    alloc: Global,
    bytes: &[u8],
    numbers: &[u32],
    i: u32,
) -> Result<Items<ObjSite>, AllocError>
    requires numbers { numbers.now ≡ table (new_symbol bytes.now) (symbol_count bytes.now) }
    requires good { bad_relocation_place bytes.now ≡ false }
    requires counted { i < section_count bytes.now }
    requires kept { keeps_section bytes.now i ≡ true }
    ensures { IfOk result (λ sites. sites ≡ table (site bytes.now i) (site_count bytes.now i)) }
{
    let mut sites = Items::new(alloc);
    for r in 0..site_count(bytes, i) {
        sites.push(site_of(bytes, numbers, i, r))?;
    }
    Ok(sites)
}

/// The flags of section i, without that of the count of relocations.
#[tactic(auto, unfolding(crate::specs::Objects::flags_of))]
fn flags_of(bytes: &[u8], i: u32) -> u32
    ensures { result ≡ flags_of bytes.now i }
{
    let flags = raw_flags(bytes, i);
    if has_flag(bytes, i, 0x0100_0000) {
        flags.saturating_sub(0x0100_0000)
    } else {
        flags
    }
}

/// Section i.
#[tactic(auto, unfolding(crate::specs::Objects::section))]
fn section_of(
    alloc: Global,
    bytes: &[u8],
    numbers: &[u32],
    i: u32,
) -> Result<ObjSection, AllocError>
    requires numbers { numbers.now ≡ table (new_symbol bytes.now) (symbol_count bytes.now) }
    requires good { bad_relocation_place bytes.now ≡ false }
    requires counted { i < section_count bytes.now }
    requires kept { keeps_section bytes.now i ≡ true }
    ensures { IfOk result (λ s. s ≡ section bytes.now i) }
{
    let contents = part(
        bytes,
        raw_place(bytes, i) as usize,
        contents_size(bytes, i) as usize,
    );
    let name = Items::from_slice(alloc, section_name(bytes, i))?;
    let contents = Items::from_slice(alloc, contents)?;
    let sites = sites_of(alloc, bytes, numbers, i)?;
    Ok(ObjSection {
        name,
        flags: flags_of(bytes, i),
        bytes: contents,
        zeros: zeros_of(bytes, i),
        comdat: has_flag(bytes, i, 0x1000),
        sites,
    })
}

/// The sections of the object.
#[tactic(auto, using(file_words::proofs::BelowLaws::chosen_none, file_words::proofs::BelowLaws::chosen_yes, file_words::proofs::BelowLaws::chosen_no))]
fn sections_of(
    alloc: Global,
    bytes: &[u8],
    numbers: &[u32],
) -> Result<Items<ObjSection>, AllocError>
    requires numbers { numbers.now ≡ table (new_symbol bytes.now) (symbol_count bytes.now) }
    requires good { bad_relocation_place bytes.now ≡ false }
    ensures { IfOk result (λ sections. sections ≡ chosen (keeps_section bytes.now) (section bytes.now) (section_count bytes.now)) }
{
    let mut sections = Items::new(alloc);
    for i in 0..section_count(bytes) as u32 {
        if keeps_section(bytes, i) {
            sections.push(section_of(alloc, bytes, numbers, i)?)?;
        }
    }
    Ok(sections)
}

/// The symbol that record j begins.
#[tactic(auto, using(crate::proofs::PlaceLaws::home_counted, crate::proofs::PlaceLaws::kept_main), unfolding(crate::specs::Objects::symbol))]
fn symbol_of(alloc: Global, bytes: &[u8], homes: &[u16], j: u32) -> Result<ObjSymbol, AllocError>
    requires homes { homes.now ≡ table (section_number bytes.now) (section_count bytes.now) }
    requires good { bad_symbol_range bytes.now ≡ false }
    requires counted { j < symbol_count bytes.now }
    requires kept { stays bytes.now j ≡ true }
    ensures { IfOk result (λ s. s ≡ symbol bytes.now j) }
{
    let section = new_section(bytes, homes, symbol_section(bytes, j));
    let name = Items::from_slice(alloc, symbol_name(bytes, j))?;
    Ok(ObjSymbol {
        name,
        value: symbol_value(bytes, j),
        section,
        external: symbol_class(bytes, j) == 2,
    })
}

/// The symbols of the object.
#[tactic(auto, using(file_words::proofs::BelowLaws::chosen_none, file_words::proofs::BelowLaws::chosen_yes, file_words::proofs::BelowLaws::chosen_no))]
fn symbols_of(
    alloc: Global,
    bytes: &[u8],
    kept: &[bool],
    homes: &[u16],
) -> Result<Items<ObjSymbol>, AllocError>
    requires kept { kept.now ≡ table (stays bytes.now) (symbol_count bytes.now) }
    requires homes { homes.now ≡ table (section_number bytes.now) (section_count bytes.now) }
    requires good { bad_symbol_range bytes.now ≡ false }
    ensures { IfOk result (λ symbols. symbols ≡ chosen (stays bytes.now) (symbol bytes.now) (symbol_count bytes.now)) }
{
    let mut symbols = Items::new(alloc);
    for j in 0..symbol_count(bytes) {
        if stays_at(bytes, kept, j) {
            symbols.push(symbol_of(alloc, bytes, homes, j)?)?;
        }
    }
    Ok(symbols)
}

/// The object, of a file that no test refuses.
#[tactic(auto, unfolding(crate::specs::Objects::object_in))]
pub fn build(
    alloc: Global,
    bytes: &[u8],
    kept: &[bool],
    numbers: &[u32],
) -> Result<Object, AllocError>
    requires kept { kept.now ≡ table (stays bytes.now) (symbol_count bytes.now) }
    requires numbers { numbers.now ≡ table (new_symbol bytes.now) (symbol_count bytes.now) }
    requires homes { bad_symbol_range bytes.now ≡ false }
    requires places { bad_relocation_place bytes.now ≡ false }
    requires rows { bad_hybrid_record bytes.now ≡ false }
    ensures { IfOk result (λ o. o ≡ object_in bytes.now) }
{
    let homes = section_numbers(alloc, bytes)?;
    let sections = sections_of(alloc, bytes, numbers)?;
    let symbols = symbols_of(alloc, bytes, kept, &homes)?;
    let hybrid = all_rows(alloc, bytes, numbers)?;
    Ok(Object {
        machine: machine_of(bytes),
        sections,
        symbols,
        hybrid,
    })
}
