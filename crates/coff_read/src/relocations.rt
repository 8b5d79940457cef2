//! Tests of relocations.

ghost use Rattle.std.specs.Prelude.{◌≡◌, ◌+◌, ◌-◌, ◌*◌, ◌<◌, ◌≤◌, not, nat_lt, ◌||◌};
ghost use Rattle.file_words.specs.Below.{any_below, table};
ghost use Rattle.coff_write.specs.Valid.{site_size};
ghost use Rattle.coff_fields.specs.Fields.{section_count, symbol_count, site_count};
ghost use Rattle.coff_read.specs.Kept.{may_stay};
ghost use Rattle.coff_read.specs.Refusals.{bad_rows, bad_relocation_range, amd64_kind, arm64_kind, kind_of, site_kind, bad_type, bad_types, bad_relocation_kind, bad_place, bad_places, bad_relocation_place};

use crate::kept::keeps_section;
use coff_fields::fields::{
    contents_size, machine_of, overflows, row_count, rows_place, section_count, site_at,
    site_count, site_symbol, site_type,
};
use coff_write::ObjMachine;
use hx_names::SiteKind;

/// Whether the relocation records of section i, which is kept, pass the end.
#[tactic(auto, unfolding(crate::specs::Refusals::bad_rows))]
fn rows_fail(bytes: &[u8], i: u32) -> bool
    ensures { result ≡ bad_rows bytes.now i }
{
    let place = rows_place(bytes, i) as usize;
    keeps_section(bytes, i)
        && ((overflows(bytes, i) && bytes.len() < place + 10)
            || bytes.len() < place + 10 * row_count(bytes, i) as usize)
}

/// Whether the relocation records of some kept section pass the end.
#[tactic(auto, using(file_words::proofs::BelowLaws::any_none, file_words::proofs::BelowLaws::any_step), unfolding(crate::specs::Refusals::bad_relocation_range))]
pub fn relocation_range_fails(bytes: &[u8]) -> bool
    ensures { result ≡ bad_relocation_range bytes.now }
{
    let mut fails = false;
    for i in 0..section_count(bytes) as u32 {
        fails |= rows_fail(bytes, i);
    }
    fails
}

#[tactic(auto, unfolding(crate::specs::Refusals::amd64_kind))]
fn amd64_kind(code: u16) -> Option<SiteKind>
    ensures { result ≡ amd64_kind code }
{
    match code {
        0 => Some(SiteKind::Nothing),
        1 => Some(SiteKind::Addr64),
        3 => Some(SiteKind::Addr32Nb),
        4 => Some(SiteKind::Rel32),
        _ => None,
    }
}

#[tactic(auto, unfolding(crate::specs::Refusals::arm64_kind))]
fn arm64_kind(code: u16) -> Option<SiteKind>
    ensures { result ≡ arm64_kind code }
{
    match code {
        0 => Some(SiteKind::Nothing),
        2 => Some(SiteKind::Addr32Nb),
        3 => Some(SiteKind::Branch26),
        4 => Some(SiteKind::PageBaseRel21),
        6 => Some(SiteKind::PageOffset12A),
        7 => Some(SiteKind::PageOffset12L),
        14 => Some(SiteKind::Addr64),
        _ => None,
    }
}

/// The kind of a site of a type, if the machine has one.
#[tactic(auto, unfolding(crate::specs::Refusals::kind_of))]
fn kind_of(machine: ObjMachine, code: u16) -> Option<SiteKind>
    ensures { result ≡ kind_of machine code }
{
    match machine {
        ObjMachine::Amd64 => amd64_kind(code),
        ObjMachine::Arm64Ec => arm64_kind(code),
    }
}

/// The kind of site r of section i.
#[tactic(auto, unfolding(crate::specs::Refusals::site_kind))]
pub fn site_kind(bytes: &[u8], i: u32, r: u32) -> SiteKind
    ensures { result ≡ site_kind bytes.now i r }
{
    match kind_of(machine_of(bytes), site_type(bytes, i, r)) {
        Some(kind) => kind,
        None => SiteKind::Nothing,
    }
}

/// Whether the type of site r of section i is unknown.
#[tactic(auto, unfolding(crate::specs::Refusals::bad_type))]
fn type_fails(bytes: &[u8], i: u32, r: u32) -> bool
    ensures { result ≡ bad_type bytes.now i r }
{
    match kind_of(machine_of(bytes), site_type(bytes, i, r)) {
        Some(_) => false,
        None => true,
    }
}

#[tactic(auto, using(file_words::proofs::BelowLaws::any_none, file_words::proofs::BelowLaws::any_step))]
fn any_type_fails(bytes: &[u8], i: u32) -> bool
    ensures { result ≡ any_below (bad_type bytes.now i) (site_count bytes.now i) }
{
    let mut fails = false;
    for r in 0..site_count(bytes, i) {
        fails |= type_fails(bytes, i, r);
    }
    fails
}

#[tactic(auto, unfolding(crate::specs::Refusals::bad_types))]
fn types_fail(bytes: &[u8], i: u32) -> bool
    ensures { result ≡ bad_types bytes.now i }
{
    keeps_section(bytes, i) && any_type_fails(bytes, i)
}

/// Whether some site of a kept section is of an unknown type.
#[tactic(auto, using(file_words::proofs::BelowLaws::any_none, file_words::proofs::BelowLaws::any_step), unfolding(crate::specs::Refusals::bad_relocation_kind))]
pub fn relocation_kind_fails(bytes: &[u8]) -> bool
    ensures { result ≡ bad_relocation_kind bytes.now }
{
    let mut fails = false;
    for i in 0..section_count(bytes) as u32 {
        fails |= types_fail(bytes, i);
    }
    fails
}

/// How many bytes a site has.
fn width(kind: SiteKind) -> u64
    ensures value { result ≡ site_size kind }
    ensures bound { result ≤ 8 }
{
    match kind {
        SiteKind::Nothing => 1,
        SiteKind::Addr64 => 8,
        SiteKind::Addr32Nb
        | SiteKind::Rel32
        | SiteKind::Branch26
        | SiteKind::PageBaseRel21
        | SiteKind::PageOffset12A
        | SiteKind::PageOffset12L => 4,
    }
}

/// Whether a site can't name this record.
#[tactic(auto, using(crate::proofs::PlaceLaws::past_table, crate::proofs::PlaceLaws::in_table))]
fn is_lost(bytes: &[u8], able: &[bool], symbol: u32) -> bool
    requires { able.now ≡ table (may_stay bytes.now) (symbol_count bytes.now) }
    ensures { result ≡ (not (nat_lt symbol (symbol_count bytes.now)) || not (may_stay bytes.now symbol)) }
{
    if symbol as usize >= able.len() {
        return true;
    }
    !able[symbol as usize]
}

/// Whether site r of section i passes the end of the contents, or names no symbol of the object.
#[tactic(auto, unfolding(crate::specs::Refusals::bad_place))]
fn place_fails(bytes: &[u8], able: &[bool], i: u32, r: u32) -> bool
    requires { able.now ≡ table (may_stay bytes.now) (symbol_count bytes.now) }
    ensures { result ≡ bad_place bytes.now i r }
{
    let end = site_at(bytes, i, r) as u64 + width(site_kind(bytes, i, r));
    (contents_size(bytes, i) as u64) < end || is_lost(bytes, able, site_symbol(bytes, i, r))
}

#[tactic(auto, using(file_words::proofs::BelowLaws::any_none, file_words::proofs::BelowLaws::any_step))]
fn any_place_fails(bytes: &[u8], able: &[bool], i: u32) -> bool
    requires { able.now ≡ table (may_stay bytes.now) (symbol_count bytes.now) }
    ensures { result ≡ any_below (bad_place bytes.now i) (site_count bytes.now i) }
{
    let mut fails = false;
    for r in 0..site_count(bytes, i) {
        fails |= place_fails(bytes, able, i, r);
    }
    fails
}

#[tactic(auto, unfolding(crate::specs::Refusals::bad_places))]
fn places_fail(bytes: &[u8], able: &[bool], i: u32) -> bool
    requires { able.now ≡ table (may_stay bytes.now) (symbol_count bytes.now) }
    ensures { result ≡ bad_places bytes.now i }
{
    keeps_section(bytes, i) && any_place_fails(bytes, able, i)
}

/// Whether some site of a kept section is out of place, or names no symbol of the object.
#[tactic(auto, using(file_words::proofs::BelowLaws::any_none, file_words::proofs::BelowLaws::any_step), unfolding(crate::specs::Refusals::bad_relocation_place))]
pub fn relocation_place_fails(bytes: &[u8], able: &[bool]) -> bool
    requires { able.now ≡ table (may_stay bytes.now) (symbol_count bytes.now) }
    ensures { result ≡ bad_relocation_place bytes.now }
{
    let mut fails = false;
    for i in 0..section_count(bytes) as u32 {
        fails |= places_fail(bytes, able, i);
    }
    fails
}
