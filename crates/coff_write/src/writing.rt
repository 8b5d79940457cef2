//! The parts of a file, and the file.

ghost use Rattle.std.specs.Prelude.{◌≡◌, ◌+◌, ◌*◌, ◌++◌, ◌≤◌, true, length, take, OnOk, IfOk};
ghost use Rattle.std.specs.List.{concat};
ghost use Rattle.coff_write.specs.Format.{cap, section_headers, section_header, section_contents, section_texts, symbol_texts, section_names_size, symbol_names_size, symbol_name_size, name_size, row_count, contents_size, rows_count, relocations, section_relocations, hybrid_rows, hybrid_header, hybrid_head, hybrid_tail, hybrid_sections, symbol_table, numbers, record_count, section_count, contents_place, hybrid_place, relocations_place, symbols_place, strings_size, file_size, file_header, section_part, contents_part, relocation_part, symbol_part, string_part, object_bytes};
ghost use Rattle.coff_write.specs.Valid.{is_valid, HasRoom, ArePlaces};

use crate::object::{HybridRow, ObjMachine, ObjSection, ObjSite, ObjSymbol, Object};
use crate::records::{
    contents_len, name_len, numbers_of, records_len, row_len, rows_len, section_names_len,
    section_symbol, short_section, short_symbol, symbol_names_len,
};
use crate::rows::{
    Cursor, machine_code, put_count, put_dword, put_hybrid_row, put_relocation, put_section,
    put_symbol_records, put_text, put_word,
};
use std::alloc::{AllocError, Global};

/// Where the parts of a file stand, and what the header counts.
#[derive(Clone, Copy, Debug)]
pub struct Places {
    pub contents: u64,
    pub hybrid: u64,
    pub rows: u64,
    pub symbols: u64,
    pub records: u64,
    pub section_names: u64,
    pub symbol_names: u64,
}

fn past(at: Cursor, s: &ObjSection) -> Cursor
    requires name { at.name + name_size s.now ≤ cap }
    requires contents { at.contents + length s.now.bytes ≤ cap }
    requires rows { at.rows + 10 * row_count s.now ≤ cap }
    ensures name { result.name ≡ at.name + name_size s.now }
    ensures contents { result.contents ≡ at.contents + length s.now.bytes }
    ensures rows { result.rows ≡ at.rows + 10 * row_count s.now }
{
    let name = s.name.as_slice();
    Cursor {
        name: at.name + name_len(short_section(name), name),
        contents: at.contents + s.bytes.len() as u64,
        rows: at.rows + 10 * row_len(s),
    }
}

fn put_sections(out: &mut Vec<u8>, start: Cursor, sections: &[ObjSection]) -> Result<(), AllocError>
    requires name { start.name + section_names_size sections.now ≤ cap }
    requires contents { start.contents + contents_size sections.now ≤ cap }
    requires rows { start.rows + 10 * rows_count sections.now ≤ cap }
    ensures { OnOk result (out.new.items ≡ out.old.items ++ section_headers start.name start.contents start.rows sections.now) }
{
    let mut at = start;
    for s in sections {
        put_section(out, at, s)?;
        at = past(at, s);
    }
    Ok(())
}

fn put_contents(out: &mut Vec<u8>, sections: &[ObjSection]) -> Result<(), AllocError>
    ensures { OnOk result (out.new.items ≡ out.old.items ++ section_contents sections.now) }
{
    for s in sections {
        out.extend_from_slice(s.bytes.as_slice())?;
    }
    Ok(())
}

fn put_hybrid_rows(out: &mut Vec<u8>, records: &[u64], rows: &[HybridRow]) -> Result<(), AllocError>
    ensures { OnOk result (out.new.items ≡ out.old.items ++ hybrid_rows records.now rows.now) }
{
    for r in rows {
        put_hybrid_row(out, records, r)?;
    }
    Ok(())
}

fn put_relocations(
    out: &mut Vec<u8>,
    machine: ObjMachine,
    records: &[u64],
    sites: &[ObjSite],
) -> Result<(), AllocError>
    ensures { OnOk result (out.new.items ≡ out.old.items ++ relocations machine records.now sites.now) }
{
    for t in sites {
        put_relocation(out, machine, records, t)?;
    }
    Ok(())
}

fn put_all_relocations(
    out: &mut Vec<u8>,
    machine: ObjMachine,
    records: &[u64],
    sections: &[ObjSection],
) -> Result<(), AllocError>
    ensures { OnOk result (out.new.items ≡ out.old.items ++ section_relocations machine records.now sections.now) }
{
    for s in sections {
        put_count(out, s)?;
        put_relocations(out, machine, records, s.sites.as_slice())?;
    }
    Ok(())
}

fn put_symbols(
    out: &mut Vec<u8>,
    sections: &[ObjSection],
    symbols: &[ObjSymbol],
    start: u64,
) -> Result<(), AllocError>
    requires { start + symbol_names_size symbols.now ≤ cap }
    ensures { OnOk result (out.new.items ≡ out.old.items ++ symbol_table sections.now symbols.now 0 start symbols.now) }
{
    let mut place = start;
    for (j, s) in symbols.iter().enumerate() {
        let more = section_symbol(sections, &symbols[..j], s);
        put_symbol_records(out, sections, place, more, s)?;
        let name = s.name.as_slice();
        place += name_len(short_symbol(name), name);
    }
    Ok(())
}

fn put_section_texts(out: &mut Vec<u8>, sections: &[ObjSection]) -> Result<(), AllocError>
    ensures { OnOk result (out.new.items ≡ out.old.items ++ section_texts sections.now) }
{
    for s in sections {
        let name = s.name.as_slice();
        put_text(out, short_section(name), name)?;
    }
    Ok(())
}

fn put_symbol_texts(out: &mut Vec<u8>, symbols: &[ObjSymbol]) -> Result<(), AllocError>
    ensures { OnOk result (out.new.items ≡ out.old.items ++ symbol_texts symbols.now) }
{
    for s in symbols {
        let name = s.name.as_slice();
        put_text(out, short_symbol(name), name)?;
    }
    Ok(())
}

/// One section `.hybmp$x`, where there are rows for it.
pub fn hybrid_count(rows: &[HybridRow]) -> u64
    ensures value { result ≡ hybrid_sections rows.now }
    ensures bound { result ≤ 1 }
{
    if rows.is_empty() { 0 } else { 1 }
}

/// The places of the parts of an object whose file keeps the limit.
fn places_of(o: &Object) -> Places
    requires room { HasRoom o.now }
    ensures places { ArePlaces o.now result }
{
    let sections = o.sections.as_slice();
    let symbols = o.symbols.as_slice();
    let contents = 20 + 40 * (sections.len() as u64 + hybrid_count(o.hybrid.as_slice()));
    let hybrid = contents + contents_len(sections);
    let rows = hybrid + 12 * o.hybrid.len() as u64;
    Places {
        contents,
        hybrid,
        rows,
        symbols: rows + 10 * rows_len(sections),
        records: records_len(sections, symbols),
        section_names: section_names_len(sections),
        symbol_names: symbol_names_len(symbols),
    }
}

#[tactic(auto, unfolding(crate::specs::Format::file_header))]
fn put_file_header(out: &mut Vec<u8>, o: &Object, p: &Places) -> Result<(), AllocError>
    requires room { HasRoom o.now }
    requires places { ArePlaces o.now p.now }
    ensures { OnOk result (out.new.items ≡ out.old.items ++ file_header o.now) }
{
    put_word(out, machine_code(o.machine))?;
    put_word(
        out,
        o.sections.as_slice().len() as u64 + hybrid_count(o.hybrid.as_slice()),
    )?;
    put_dword(out, 0)?;
    put_dword(out, p.symbols)?;
    put_dword(out, p.records)?;
    put_word(out, 0)?;
    put_word(out, 0)?;
    Ok(())
}

#[tactic(auto, unfolding(crate::specs::Format::hybrid_header))]
fn put_hybrid_header(out: &mut Vec<u8>, place: u64, rows: &[HybridRow]) -> Result<(), AllocError>
    requires { 12 * length rows.now ≤ cap }
    ensures { OnOk result (out.new.items ≡ out.old.items ++ hybrid_header place rows.now) }
{
    if !rows.is_empty() {
        put_hybrid_head(out, place, 12 * rows.len() as u64)?;
        put_hybrid_tail(out)?;
    }
    Ok(())
}

fn put_hybrid_head(out: &mut Vec<u8>, place: u64, size: u64) -> Result<(), AllocError>
    ensures { OnOk result (out.new.items ≡ out.old.items ++ concat (hybrid_head place size)) }
{
    out.extend_from_slice(b".hybmp$x")?;
    put_dword(out, 0)?;
    put_dword(out, 0)?;
    put_dword(out, size)?;
    put_dword(out, place)?;
    Ok(())
}

fn put_hybrid_tail(out: &mut Vec<u8>) -> Result<(), AllocError>
    ensures { OnOk result (out.new.items ≡ out.old.items ++ concat hybrid_tail) }
{
    put_dword(out, 0)?;
    put_dword(out, 0)?;
    put_word(out, 0)?;
    put_word(out, 0)?;
    put_dword(out, 0x0030_0200)?;
    Ok(())
}

#[tactic(auto, unfolding(crate::specs::Format::section_part))]
fn put_section_part(out: &mut Vec<u8>, o: &Object, p: &Places) -> Result<(), AllocError>
    requires room { HasRoom o.now }
    requires places { ArePlaces o.now p.now }
    ensures { OnOk result (out.new.items ≡ out.old.items ++ section_part o.now) }
{
    let start = Cursor {
        name: 4,
        contents: p.contents,
        rows: p.rows,
    };
    put_sections(out, start, o.sections.as_slice())?;
    put_hybrid_header(out, p.hybrid, o.hybrid.as_slice())?;
    Ok(())
}

#[tactic(auto, unfolding(crate::specs::Format::contents_part))]
fn put_contents_part(out: &mut Vec<u8>, o: &Object, records: &[u64]) -> Result<(), AllocError>
    requires { records.now ≡ numbers o.now }
    ensures { OnOk result (out.new.items ≡ out.old.items ++ contents_part o.now) }
{
    put_contents(out, o.sections.as_slice())?;
    put_hybrid_rows(out, records, o.hybrid.as_slice())?;
    Ok(())
}

#[tactic(auto, unfolding(crate::specs::Format::relocation_part))]
fn put_relocation_part(out: &mut Vec<u8>, o: &Object, records: &[u64]) -> Result<(), AllocError>
    requires { records.now ≡ numbers o.now }
    ensures { OnOk result (out.new.items ≡ out.old.items ++ relocation_part o.now) }
{
    put_all_relocations(out, o.machine, records, o.sections.as_slice())?;
    Ok(())
}

#[tactic(auto, unfolding(crate::specs::Format::symbol_part))]
fn put_symbol_part(out: &mut Vec<u8>, o: &Object, p: &Places) -> Result<(), AllocError>
    requires room { HasRoom o.now }
    requires places { ArePlaces o.now p.now }
    ensures { OnOk result (out.new.items ≡ out.old.items ++ symbol_part o.now) }
{
    let start = 4 + p.section_names;
    put_symbols(out, o.sections.as_slice(), o.symbols.as_slice(), start)?;
    Ok(())
}

#[tactic(auto, unfolding(crate::specs::Format::string_part))]
fn put_string_part(out: &mut Vec<u8>, o: &Object, p: &Places) -> Result<(), AllocError>
    requires room { HasRoom o.now }
    requires places { ArePlaces o.now p.now }
    ensures { OnOk result (out.new.items ≡ out.old.items ++ string_part o.now) }
{
    put_dword(out, 4 + (p.section_names + p.symbol_names))?;
    put_section_texts(out, o.sections.as_slice())?;
    put_symbol_texts(out, o.symbols.as_slice())?;
    Ok(())
}

#[tactic(auto, unfolding(crate::specs::Format::object_bytes))]
fn put_parts(out: &mut Vec<u8>, o: &Object, p: &Places, records: &[u64]) -> Result<(), AllocError>
    requires room { HasRoom o.now }
    requires places { ArePlaces o.now p.now }
    requires records { records.now ≡ numbers o.now }
    ensures { OnOk result (out.new.items ≡ out.old.items ++ object_bytes o.now) }
{
    put_file_header(out, o, p)?;
    put_section_part(out, o, p)?;
    put_contents_part(out, o, records)?;
    put_relocation_part(out, o, records)?;
    put_symbol_part(out, o, p)?;
    put_string_part(out, o, p)?;
    Ok(())
}

/// The file of a valid object, in the parts that the crate's head names.
///
/// # Errors
///
/// `AllocError` where there is no memory for the bytes.
#[tactic(auto, using(crate::proofs::Room::valid_room))]
pub fn write(alloc: Global, o: &Object) -> Result<Vec<u8>, AllocError>
    requires { is_valid o.now ≡ true }
    ensures { IfOk result (λ bytes. bytes.items ≡ object_bytes o.now) }
{
    let numbers = numbers_of(alloc, o.sections.as_slice(), o.symbols.as_slice())?;
    let places = places_of(o);
    let mut out = Vec::new(alloc);
    put_parts(&mut out, o, &places, numbers.as_slice())?;
    Ok(out)
}
