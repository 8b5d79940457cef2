//! The rows of a file.

ghost use Rattle.std.specs.Prelude.{◌≡◌, ◌++◌, ◌<◌, ◌≤◌, slice_index, OnOk};
ghost use Rattle.std.specs.List.{concat};
ghost use Rattle.std.specs.Option.{option_copied};
ghost use Rattle.coff_write.specs.Format.{word, dword, machine_number, site_code, number_or_zero, eight, digit, slash_field, section_name_field, symbol_name_field, long_text, section_head, section_of, section_tail, section_header, section_flags, site_count, pointer, section_size, class_of, symbol_record, section_definition, definition_of, symbol_records_of, relocation, count_row, hybrid_row, hybrid_header};

use crate::object::{HybridRow, ObjMachine, ObjSection, ObjSite, ObjSymbol};
use crate::records::{cell, many_sites, section_at, short_section, short_symbol};
use hx_bits::{Width, write_number};
use hx_names::SiteKind;
use std::alloc::AllocError;

/// Where the name, the contents and the relocations of a section go.
#[derive(Clone, Copy, Debug)]
pub struct Cursor {
    pub name: u64,
    pub contents: u64,
    pub rows: u64,
}

pub fn put_word(out: &mut Vec<u8>, n: u64) -> Result<(), AllocError>
    ensures { OnOk result (out.new.items ≡ out.old.items ++ word n) }
{
    let mut field = [0; 2];
    write_number(&mut field, Width::W16, n);
    out.extend_from_slice(&field)?;
    Ok(())
}

pub fn put_dword(out: &mut Vec<u8>, n: u64) -> Result<(), AllocError>
    ensures { OnOk result (out.new.items ≡ out.old.items ++ dword n) }
{
    let mut field = [0; 4];
    write_number(&mut field, Width::W32, n);
    out.extend_from_slice(&field)?;
    Ok(())
}

/// A name that stands in the string table, with its closing zero.
#[tactic(auto, unfolding(crate::specs::Format::long_text))]
pub fn put_text(out: &mut Vec<u8>, short: bool, name: &[u8]) -> Result<(), AllocError>
    ensures { OnOk result (out.new.items ≡ out.old.items ++ long_text short name.now) }
{
    if !short {
        out.extend_from_slice(name)?;
        out.push(0)?;
    }
    Ok(())
}

fn put_eight(out: &mut Vec<u8>, name: &[u8]) -> Result<(), AllocError>
    ensures { OnOk result (out.new.items ≡ out.old.items ++ eight name.now) }
{
    out.extend_from_slice(&[
        cell(name, 0),
        cell(name, 1),
        cell(name, 2),
        cell(name, 3),
        cell(name, 4),
        cell(name, 5),
        cell(name, 6),
        cell(name, 7),
    ])?;
    Ok(())
}

fn digit_of(n: u64, power: u64) -> u8
    requires { 0 < power }
    ensures { result ≡ digit n power }
{
    48 + (n / power % 10) as u8
}

/// A slash and the seven last decimal digits.
#[tactic(auto, unfolding(crate::specs::Format::slash_field))]
fn put_slash(out: &mut Vec<u8>, n: u64) -> Result<(), AllocError>
    ensures { OnOk result (out.new.items ≡ out.old.items ++ slash_field n) }
{
    out.extend_from_slice(&[
        b'/',
        digit_of(n, 1_000_000),
        digit_of(n, 100_000),
        digit_of(n, 10_000),
        digit_of(n, 1000),
        digit_of(n, 100),
        digit_of(n, 10),
        digit_of(n, 1),
    ])?;
    Ok(())
}

#[tactic(auto, unfolding(crate::specs::Format::section_name_field))]
fn put_section_name(out: &mut Vec<u8>, name: &[u8], place: u64) -> Result<(), AllocError>
    ensures { OnOk result (out.new.items ≡ out.old.items ++ section_name_field name.now place) }
{
    if short_section(name) {
        put_eight(out, name)?;
    } else {
        put_slash(out, place)?;
    }
    Ok(())
}

#[tactic(auto, unfolding(crate::specs::Format::symbol_name_field))]
fn put_symbol_name(out: &mut Vec<u8>, name: &[u8], place: u64) -> Result<(), AllocError>
    ensures { OnOk result (out.new.items ≡ out.old.items ++ symbol_name_field name.now place) }
{
    if short_symbol(name) {
        put_eight(out, name)?;
    } else {
        put_dword(out, 0)?;
        put_dword(out, place)?;
    }
    Ok(())
}

/// The bytes that a section has in memory.
pub fn size(s: &ObjSection) -> u64
    ensures { result ≡ section_size s.now }
{
    s.bytes.as_slice().len() as u64 + s.zeros as u64
}

#[tactic(auto, unfolding(crate::specs::Format::site_count))]
fn counted(s: &ObjSection) -> u64
    ensures { result ≡ site_count s.now }
{
    if many_sites(s) {
        65_535
    } else {
        s.sites.len() as u64
    }
}

#[tactic(auto, unfolding(crate::specs::Format::section_flags))]
fn flags(s: &ObjSection) -> u64
    ensures { result ≡ section_flags s.now }
{
    if many_sites(s) {
        s.flags as u64 + 0x0100_0000
    } else {
        s.flags as u64
    }
}

#[tactic(auto, unfolding(crate::specs::Format::pointer))]
fn pointer_to(len: usize, place: u64) -> u64
    ensures { result ≡ pointer len place }
{
    if len == 0 { 0 } else { place }
}

fn put_head(out: &mut Vec<u8>, name: u64, contents: u64, s: &ObjSection) -> Result<(), AllocError>
    ensures { OnOk result (out.new.items ≡ out.old.items ++ concat (section_head name contents s.now)) }
{
    put_section_name(out, s.name.as_slice(), name)?;
    put_dword(out, 0)?;
    put_dword(out, 0)?;
    put_dword(out, size(s))?;
    put_dword(out, pointer_to(s.bytes.len(), contents))?;
    Ok(())
}

fn put_tail(out: &mut Vec<u8>, rows: u64, s: &ObjSection) -> Result<(), AllocError>
    ensures { OnOk result (out.new.items ≡ out.old.items ++ concat (section_tail rows s.now)) }
{
    put_dword(out, pointer_to(s.sites.len(), rows))?;
    put_dword(out, 0)?;
    put_word(out, counted(s))?;
    put_word(out, 0)?;
    put_dword(out, flags(s))?;
    Ok(())
}

/// A section's header.
#[tactic(auto, unfolding(crate::specs::Format::section_header))]
pub fn put_section(out: &mut Vec<u8>, at: Cursor, s: &ObjSection) -> Result<(), AllocError>
    ensures { OnOk result (out.new.items ≡ out.old.items ++ section_header at.name at.contents at.rows s.now) }
{
    put_head(out, at.name, at.contents, s)?;
    put_tail(out, at.rows, s)?;
    Ok(())
}

fn class(external: bool) -> u8
    ensures { result ≡ class_of external }
{
    if external { 2 } else { 3 }
}

#[tactic(auto, unfolding(crate::specs::Format::symbol_record))]
fn put_symbol(out: &mut Vec<u8>, name: u64, more: bool, s: &ObjSymbol) -> Result<(), AllocError>
    ensures { OnOk result (out.new.items ≡ out.old.items ++ symbol_record name more s.now) }
{
    put_symbol_name(out, s.name.as_slice(), name)?;
    put_dword(out, s.value as u64)?;
    put_word(out, s.section as u64)?;
    put_word(out, 0)?;
    out.push(class(s.external))?;
    out.push(if more { 1 } else { 0 })?;
    Ok(())
}

#[tactic(auto, unfolding(crate::specs::Format::section_definition))]
fn put_definition(out: &mut Vec<u8>, s: &ObjSection) -> Result<(), AllocError>
    ensures { OnOk result (out.new.items ≡ out.old.items ++ section_definition s.now) }
{
    put_dword(out, size(s))?;
    put_word(out, counted(s))?;
    put_word(out, 0)?;
    put_dword(out, 0)?;
    put_word(out, 0)?;
    out.extend_from_slice(&[2, 0, 0, 0])?;
    Ok(())
}

#[tactic(auto, unfolding(crate::specs::Format::definition_of))]
fn put_definition_of(
    out: &mut Vec<u8>,
    sections: &[ObjSection],
    number: u16,
) -> Result<(), AllocError>
    ensures { OnOk result (out.new.items ≡ out.old.items ++ definition_of (section_of sections.now number)) }
{
    match section_at(sections, number) {
        Some(s) => {
            put_definition(out, s)?;
            Ok(())
        }
        None => Ok(()),
    }
}

/// The records of a symbol, with an auxiliary one where there is `more`.
#[tactic(auto, unfolding(crate::specs::Format::symbol_records_of))]
pub fn put_symbol_records(
    out: &mut Vec<u8>,
    sections: &[ObjSection],
    name: u64,
    more: bool,
    s: &ObjSymbol,
) -> Result<(), AllocError>
    ensures { OnOk result (out.new.items ≡ out.old.items ++ symbol_records_of sections.now name more s.now) }
{
    put_symbol(out, name, more, s)?;
    if more {
        put_definition_of(out, sections, s.section)?;
    }
    Ok(())
}

/// The number of a symbol's first record.
fn number(records: &[u64], j: u32) -> u64
    ensures { result ≡ slice_index records.now j }
{
    if (j as usize) < records.len() {
        records[j as usize]
    } else {
        0
    }
}

fn amd64(kind: SiteKind) -> Option<u16>
    ensures { result ≡ site_code ObjMachine.Amd64 kind }
{
    match kind {
        SiteKind::Nothing => Some(0),
        SiteKind::Addr64 => Some(1),
        SiteKind::Addr32Nb => Some(3),
        SiteKind::Rel32 => Some(4),
        SiteKind::Branch26
        | SiteKind::PageBaseRel21
        | SiteKind::PageOffset12A
        | SiteKind::PageOffset12L => None,
    }
}

fn arm64(kind: SiteKind) -> Option<u16>
    ensures { result ≡ site_code ObjMachine.Arm64Ec kind }
{
    match kind {
        SiteKind::Nothing => Some(0),
        SiteKind::Addr64 => Some(14),
        SiteKind::Addr32Nb => Some(2),
        SiteKind::Rel32 => None,
        SiteKind::Branch26 => Some(3),
        SiteKind::PageBaseRel21 => Some(4),
        SiteKind::PageOffset12A => Some(6),
        SiteKind::PageOffset12L => Some(7),
    }
}

/// The relocation type of a kind of site, if the machine has one.
pub fn code(machine: ObjMachine, kind: SiteKind) -> Option<u16>
    ensures { result ≡ site_code machine kind }
{
    match machine {
        ObjMachine::Amd64 => amd64(kind),
        ObjMachine::Arm64Ec => arm64(kind),
    }
}

fn code_or_zero(machine: ObjMachine, kind: SiteKind) -> u16
    ensures { result ≡ number_or_zero (site_code machine kind) }
{
    match code(machine, kind) {
        Some(n) => n,
        None => 0,
    }
}

/// The machine's number in the header.
pub fn machine_code(machine: ObjMachine) -> u64
    ensures { result ≡ machine_number machine }
{
    match machine {
        ObjMachine::Amd64 => 0x8664,
        ObjMachine::Arm64Ec => 0xA641,
    }
}

/// A relocation record.
#[tactic(auto, unfolding(crate::specs::Format::relocation))]
pub fn put_relocation(
    out: &mut Vec<u8>,
    machine: ObjMachine,
    records: &[u64],
    t: &ObjSite,
) -> Result<(), AllocError>
    ensures { OnOk result (out.new.items ≡ out.old.items ++ relocation machine records.now t.now) }
{
    put_dword(out, t.at as u64)?;
    put_dword(out, number(records, t.symbol))?;
    put_word(out, code_or_zero(machine, t.kind) as u64)?;
    Ok(())
}

/// The record of the true count, where the header doesn't hold it.
#[tactic(auto, unfolding(crate::specs::Format::count_row))]
pub fn put_count(out: &mut Vec<u8>, s: &ObjSection) -> Result<(), AllocError>
    ensures { OnOk result (out.new.items ≡ out.old.items ++ count_row s.now) }
{
    if many_sites(s) {
        put_dword(out, s.sites.as_slice().len() as u64 + 1)?;
        put_dword(out, 0)?;
        put_word(out, 0)?;
    }
    Ok(())
}

/// A row of `.hybmp$x`.
#[tactic(auto, unfolding(crate::specs::Format::hybrid_row))]
pub fn put_hybrid_row(out: &mut Vec<u8>, records: &[u64], r: &HybridRow) -> Result<(), AllocError>
    ensures { OnOk result (out.new.items ≡ out.old.items ++ hybrid_row records.now r.now) }
{
    put_dword(out, number(records, r.source))?;
    put_dword(out, number(records, r.thunk))?;
    put_dword(out, r.kind as u64)?;
    Ok(())
}
