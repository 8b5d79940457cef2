//! Which objects have a file.

ghost use Rattle.std.specs.Prelude.{◌≡◌, ◌+◌, ◌≤◌, min, length, slice_index};
ghost use Rattle.coff_write.specs.Format.{cap, file_size, section_count, section_of, site_code, section_names_size, symbol_names_size};
ghost use Rattle.coff_write.specs.Valid.{no_zero, has_from, begins, is_reserved, has_flag, has_right_contents, has_right_comdat, has_right_flags, site_size, has_code, valid_in, valid_site, valid_sites, has_kept_name, has_symbol, valid_section, valid_sections, short_places, any_names, is_named, valid_body, is_body, valid_home, valid_place, valid_symbol, valid_symbols, valid_row, valid_rows, fits, is_valid};

use crate::object::{HybridRow, ObjMachine, ObjSection, ObjSite, ObjSymbol, Object};
use crate::records::{
    CAP, any_starts, capped_sum, cell, contents_len, name_len, records_len, rows_len, section_at,
    section_names_len, short_section, symbol_names_len,
};
use crate::rows::{code, size};
use crate::writing::hybrid_count;
use hx_names::SiteKind;

/// The most bytes that the file of an object may have.
const LIMIT: u64 = 134_217_728;

fn has_no_zero(name: &[u8]) -> bool
    ensures { result ≡ no_zero name.now }
{
    for c in name {
        if *c == 0 {
            return false;
        }
    }
    true
}

/// Whether the name begins with these bytes, none of which is 0.
fn starts_with(name: &[u8], front: &[u8]) -> bool
    ensures { result ≡ begins name.now front.now }
{
    for (k, c) in front.iter().enumerate() {
        if cell(name, k) != *c {
            return false;
        }
    }
    true
}

/// Whether sections of this name are dropped or hold the hybrid rows.
#[tactic(auto, unfolding(crate::specs::Valid::is_reserved))]
fn reserved(name: &[u8]) -> bool
    ensures { result ≡ is_reserved name.now }
{
    starts_with(name, b".pdata")
        || starts_with(name, b".xdata")
        || starts_with(name, b".debug")
        || (name.len() == 8 && (starts_with(name, b".drectve") || starts_with(name, b".hybmp$x")))
}

#[tactic(auto, unfolding(crate::specs::Valid::has_flag))]
fn flagged(s: &ObjSection, flag: u32) -> bool
    ensures { result ≡ has_flag s.now flag }
{
    s.flags & flag != 0
}

#[tactic(auto, unfolding(crate::specs::Valid::has_right_contents))]
fn right_contents(s: &ObjSection) -> bool
    ensures { result ≡ has_right_contents s.now }
{
    if flagged(s, 0x80) {
        s.bytes.len() == 0
    } else {
        s.zeros == 0
    }
}

fn right_comdat(s: &ObjSection) -> bool
    ensures { result ≡ has_right_comdat s.now }
{
    if s.comdat {
        flagged(s, 0x1000)
    } else {
        !flagged(s, 0x1000)
    }
}

#[tactic(auto, unfolding(crate::specs::Valid::has_right_flags))]
fn right_flags(s: &ObjSection) -> bool
    ensures { result ≡ has_right_flags s.now }
{
    !flagged(s, 0x0100_0A00) && right_comdat(s)
}

fn width(kind: SiteKind) -> u64
    ensures value { result ≡ site_size kind }
    ensures bound { result ≤ 8 }
{
    match kind {
        SiteKind::Nothing => 1,
        SiteKind::Addr64 => 8,
        SiteKind::Addr32Nb
        | SiteKind::Rel32
        | SiteKind::Branch26
        | SiteKind::PageBaseRel21
        | SiteKind::PageOffset12A
        | SiteKind::PageOffset12L => 4,
    }
}

fn has_code_of(machine: ObjMachine, kind: SiteKind) -> bool
    ensures { result ≡ has_code (site_code machine kind) }
{
    match code(machine, kind) {
        Some(_) => true,
        None => false,
    }
}

#[tactic(auto, unfolding(crate::specs::Valid::valid_site))]
fn right_site(machine: ObjMachine, bytes: usize, symbols: usize, t: &ObjSite) -> bool
    ensures { result ≡ valid_site machine bytes symbols t.now }
{
    t.at as u64 + width(t.kind) <= bytes as u64
        && (t.symbol as usize) < symbols
        && has_code_of(machine, t.kind)
}

fn right_sites(machine: ObjMachine, bytes: usize, symbols: usize, sites: &[ObjSite]) -> bool
    ensures { result ≡ valid_sites machine bytes symbols sites.now }
{
    for t in sites {
        if !right_site(machine, bytes, symbols, t) {
            return false;
        }
    }
    true
}

fn kept_name(s: &ObjSection) -> bool
    ensures { result ≡ has_kept_name s.now }
{
    let name = s.name.as_slice();
    has_no_zero(name) && !reserved(name)
}

fn symbol_if_comdat(symbols: &[ObjSymbol], number: u64, s: &ObjSection) -> bool
    ensures { result ≡ has_symbol symbols.now number s.now }
{
    !s.comdat || any_starts(number, symbols)
}

#[tactic(auto, unfolding(crate::specs::Valid::valid_section))]
fn right_section(o: &Object, number: u64, s: &ObjSection) -> bool
    ensures { result ≡ valid_section o.now number s.now }
{
    kept_name(s)
        && right_contents(s)
        && right_flags(s)
        && symbol_if_comdat(o.symbols.as_slice(), number, s)
        && right_sites(
            o.machine,
            s.bytes.len(),
            o.symbols.len(),
            s.sites.as_slice(),
        )
}

fn right_sections(o: &Object, sections: &[ObjSection]) -> bool
    ensures { result ≡ valid_sections o.now 1 sections.now }
{
    for (k, s) in sections.iter().enumerate() {
        if !right_section(o, k as u64 + 1, s) {
            return false;
        }
    }
    true
}

/// Whether seven digits hold the place of each long section name.
fn right_places(sections: &[ObjSection]) -> bool
    requires { section_names_size sections.now ≤ cap }
    ensures { result ≡ short_places 4 sections.now }
{
    let mut place = 4;
    for s in sections {
        let name = s.name.as_slice();
        let short = short_section(name);
        if !(short || place <= 9_999_999) {
            return false;
        }
        place += name_len(short, name);
    }
    true
}

fn names_symbol(j: u64, sites: &[ObjSite]) -> bool
    ensures { result ≡ any_names j sites.now }
{
    for t in sites {
        if t.symbol as u64 == j {
            return true;
        }
    }
    false
}

/// Whether a site names the symbol.
fn named(j: u64, sections: &[ObjSection]) -> bool
    ensures { result ≡ is_named j sections.now }
{
    for s in sections {
        if names_symbol(j, s.sites.as_slice()) {
            return true;
        }
    }
    false
}

#[tactic(auto, unfolding(crate::specs::Valid::valid_body))]
fn right_body(machine: ObjMachine, home: &ObjSection, s: &ObjSymbol) -> bool
    ensures { result ≡ valid_body machine home.now s.now }
{
    match machine {
        ObjMachine::Amd64 => false,
        ObjMachine::Arm64Ec => (s.value as u64) < size(home) && flagged(home, 0x2000_0000),
    }
}

fn body(s: &ObjSymbol) -> bool
    ensures { result ≡ is_body s.now }
{
    s.external && cell(s.name.as_slice(), 0) == b'#'
}

fn right_in(machine: ObjMachine, home: &ObjSection, s: &ObjSymbol) -> bool
    ensures { result ≡ valid_in machine home.now s.now }
{
    s.value as u64 <= size(home)
        && (if body(s) {
            right_body(machine, home, s)
        } else {
            true
        })
}

#[tactic(auto, unfolding(crate::specs::Valid::valid_home))]
fn right_home(o: &Object, s: &ObjSymbol) -> bool
    ensures { result ≡ valid_home o.now.machine (section_of o.now.sections s.now.section) s.now }
{
    match section_at(o.sections.as_slice(), s.section) {
        Some(home) => right_in(o.machine, home, s),
        None => false,
    }
}

#[tactic(auto, unfolding(crate::specs::Valid::valid_place))]
fn right_place(o: &Object, j: u64, s: &ObjSymbol) -> bool
    ensures { result ≡ valid_place o.now j s.now }
{
    if s.section == 0 {
        true
    } else if s.section == 65_535 {
        named(j, o.sections.as_slice())
    } else {
        s.section < 65_534 && right_home(o, s)
    }
}

fn right_symbol(o: &Object, j: u64, s: &ObjSymbol) -> bool
    ensures { result ≡ valid_symbol o.now j s.now }
{
    has_no_zero(s.name.as_slice()) && right_place(o, j, s)
}

fn right_symbols(o: &Object, symbols: &[ObjSymbol]) -> bool
    ensures { result ≡ valid_symbols o.now 0 symbols.now }
{
    for (j, s) in symbols.iter().enumerate() {
        if !right_symbol(o, j as u64, s) {
            return false;
        }
    }
    true
}

#[tactic(auto, unfolding(crate::specs::Valid::valid_row))]
fn right_row(symbols: usize, r: &HybridRow) -> bool
    ensures { result ≡ valid_row symbols r.now }
{
    (r.source as usize) < symbols
        && (r.thunk as usize) < symbols
        && (r.kind == 0 || r.kind == 1 || r.kind == 4)
}

fn right_rows(symbols: usize, rows: &[HybridRow]) -> bool
    ensures { result ≡ valid_rows symbols rows.now }
{
    for r in rows {
        if !right_row(symbols, r) {
            return false;
        }
    }
    true
}

/// The bytes of all names in the string table.
fn names_len(o: &Object) -> u64
    ensures value { result ≡ min (section_names_size o.now.sections + symbol_names_size o.now.symbols) cap }
    ensures bound { result ≤ cap }
{
    capped_sum(
        section_names_len(o.sections.as_slice()),
        symbol_names_len(o.symbols.as_slice()),
    )
}

/// The bytes of the file, counted up to one more than it may have, for so many section headers.
#[tactic(auto, using(crate::proofs::Room::same_sum))]
fn file_len(o: &Object, headers: u64) -> u64
    requires counted { headers ≡ section_count o.now }
    requires few { headers ≤ 65535 }
    ensures { result ≡ min (file_size o.now) cap }
{
    let sections = o.sections.as_slice();
    let contents = contents_len(sections);
    let rows = rows_len(sections);
    let records = records_len(sections, o.symbols.as_slice());
    let hybrid = (o.hybrid.as_slice().len() as u64).min(CAP);
    let names = names_len(o);
    (24 + 40 * headers + contents + 12 * hybrid + 10 * rows + 18 * records + names).min(CAP)
}

#[tactic(auto, unfolding(crate::specs::Valid::fits), using(crate::proofs::Room::names_room))]
fn keeps_limits(o: &Object) -> bool
    ensures { result ≡ fits o.now }
{
    let headers = o.sections.as_slice().len() as u64 + hybrid_count(o.hybrid.as_slice());
    headers <= 65_535 && file_len(o, headers) <= LIMIT && right_places(o.sections.as_slice())
}

/// Whether the object has a file: names, flags, contents, sites, symbols and hybrid rows as the
/// definitions of `specs/Valid.antt` say, each number in its field, and a file of at most
/// 134,217,728 bytes. It takes no memory.
#[tactic(auto, unfolding(crate::specs::Valid::is_valid))]
pub fn valid_object(o: &Object) -> bool
    ensures { result ≡ is_valid o.now }
{
    keeps_limits(o)
        && right_sections(o, o.sections.as_slice())
        && right_symbols(o, o.symbols.as_slice())
        && right_rows(o.symbols.len(), o.hybrid.as_slice())
}
