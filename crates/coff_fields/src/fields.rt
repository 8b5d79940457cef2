//! The fields of a file, whatever bytes it has. Sections, their relocations, and the records of the
//! symbol table are counted from 0.

ghost use Rattle.std.specs.Prelude.{◌≡◌, ◌+◌, ◌-◌, ◌*◌, ◌<◌, ◌≤◌, ◌^◌};
ghost use Rattle.coff_fields.specs.Fields.{machine_of, section_place, has_flag, in_section, skip_at, machine_field, section_count, symbols_place, symbol_count, optional_size, strings_place, strings_size, raw_size, raw_place, rows_place, row_field, raw_flags, contents_size, zeros_of, overflows, row_count, extra_rows, site_count, site_place, site_at, site_symbol, site_type, symbol_place, symbol_value, symbol_section, symbol_class, auxiliary_count, selection, hybrid_place, hybrid_source, hybrid_thunk, hybrid_kind};

use coff_write::ObjMachine;
use file_words::{byte_at, u16_at, u32_at};

/// The header's Machine.
#[tactic(auto, unfolding(crate::specs::Fields::machine_field))]
pub fn machine_field(bytes: &[u8]) -> u16
    ensures { result ≡ machine_field bytes.now }
{
    u16_at(bytes, 0)
}

/// The machine of an object.
#[tactic(auto, unfolding(crate::specs::Fields::machine_of))]
pub fn machine_of(bytes: &[u8]) -> ObjMachine
    ensures { result ≡ machine_of bytes.now }
{
    if machine_field(bytes) == 0x8664 {
        ObjMachine::Amd64
    } else {
        ObjMachine::Arm64Ec
    }
}

/// How many sections the file has (NumberOfSections).
#[tactic(auto, unfolding(crate::specs::Fields::section_count))]
pub fn section_count(bytes: &[u8]) -> u16
    ensures { result ≡ section_count bytes.now }
{
    u16_at(bytes, 2)
}

/// Where the symbol table begins (PointerToSymbolTable).
#[tactic(auto, unfolding(crate::specs::Fields::symbols_place))]
pub fn symbols_place(bytes: &[u8]) -> u32
    ensures { result ≡ symbols_place bytes.now }
{
    u32_at(bytes, 8)
}

/// How many records the symbol table has (NumberOfSymbols).
#[tactic(auto, unfolding(crate::specs::Fields::symbol_count))]
pub fn symbol_count(bytes: &[u8]) -> u32
    ensures { result ≡ symbol_count bytes.now }
{
    u32_at(bytes, 12)
}

/// The header's SizeOfOptionalHeader.
#[tactic(auto, unfolding(crate::specs::Fields::optional_size))]
pub fn optional_size(bytes: &[u8]) -> u16
    ensures { result ≡ optional_size bytes.now }
{
    u16_at(bytes, 16)
}

/// Where the string table begins.
#[tactic(auto, unfolding(crate::specs::Fields::strings_place))]
pub fn strings_place(bytes: &[u8]) -> usize
    ensures value { result ≡ strings_place bytes.now }
    ensures bound { result < 2 ^ 40 }
{
    symbols_place(bytes) as usize + 18 * symbol_count(bytes) as usize
}

/// How many bytes the string table has, with its size.
#[tactic(auto, unfolding(crate::specs::Fields::strings_size))]
pub fn strings_size(bytes: &[u8]) -> u32
    ensures { result ≡ strings_size bytes.now }
{
    u32_at(bytes, strings_place(bytes))
}

/// Where the header of section i stands.
pub fn section_at(i: u32) -> usize
    ensures value { result ≡ section_place i }
    ensures bound { result < 2 ^ 40 }
{
    20 + 40 * i as usize
}

/// The size of section i (SizeOfRawData).
#[tactic(auto, unfolding(crate::specs::Fields::raw_size))]
pub fn raw_size(bytes: &[u8], i: u32) -> u32
    ensures { result ≡ raw_size bytes.now i }
{
    u32_at(bytes, section_at(i) + 16)
}

/// Where the contents of section i begin (PointerToRawData).
#[tactic(auto, unfolding(crate::specs::Fields::raw_place))]
pub fn raw_place(bytes: &[u8], i: u32) -> u32
    ensures { result ≡ raw_place bytes.now i }
{
    u32_at(bytes, section_at(i) + 20)
}

/// Where the relocations of section i begin (PointerToRelocations).
#[tactic(auto, unfolding(crate::specs::Fields::rows_place))]
pub fn rows_place(bytes: &[u8], i: u32) -> u32
    ensures { result ≡ rows_place bytes.now i }
{
    u32_at(bytes, section_at(i) + 24)
}

/// The NumberOfRelocations of section i.
#[tactic(auto, unfolding(crate::specs::Fields::row_field))]
pub fn row_field(bytes: &[u8], i: u32) -> u16
    ensures { result ≡ row_field bytes.now i }
{
    u16_at(bytes, section_at(i) + 32)
}

/// The Characteristics of section i.
#[tactic(auto, unfolding(crate::specs::Fields::raw_flags))]
pub fn raw_flags(bytes: &[u8], i: u32) -> u32
    ensures { result ≡ raw_flags bytes.now i }
{
    u32_at(bytes, section_at(i) + 36)
}

/// Whether section i has one of the flags.
#[tactic(auto, unfolding(crate::specs::Fields::has_flag))]
pub fn has_flag(bytes: &[u8], i: u32, flag: u32) -> bool
    ensures { result ≡ has_flag bytes.now i flag }
{
    raw_flags(bytes, i) & flag != 0
}

/// How many bytes section i has in the file.
#[tactic(auto, unfolding(crate::specs::Fields::contents_size))]
pub fn contents_size(bytes: &[u8], i: u32) -> u32
    ensures { result ≡ contents_size bytes.now i }
{
    if has_flag(bytes, i, 0x80) {
        0
    } else {
        raw_size(bytes, i)
    }
}

/// How many zeros section i has that aren't in the file.
#[tactic(auto, unfolding(crate::specs::Fields::zeros_of))]
pub fn zeros_of(bytes: &[u8], i: u32) -> u32
    ensures { result ≡ zeros_of bytes.now i }
{
    if has_flag(bytes, i, 0x80) {
        raw_size(bytes, i)
    } else {
        0
    }
}

/// Whether the first relocation of section i holds the count of them.
#[tactic(auto, unfolding(crate::specs::Fields::overflows))]
pub fn overflows(bytes: &[u8], i: u32) -> bool
    ensures { result ≡ overflows bytes.now i }
{
    has_flag(bytes, i, 0x0100_0000) && row_field(bytes, i) == 65_535
}

/// How many relocation records section i has.
#[tactic(auto, unfolding(crate::specs::Fields::row_count))]
pub fn row_count(bytes: &[u8], i: u32) -> u32
    ensures { result ≡ row_count bytes.now i }
{
    if overflows(bytes, i) {
        u32_at(bytes, rows_place(bytes, i) as usize)
    } else {
        row_field(bytes, i) as u32
    }
}

/// How many relocation records of section i are no sites.
#[tactic(auto, unfolding(crate::specs::Fields::extra_rows))]
pub fn extra_rows(bytes: &[u8], i: u32) -> u32
    ensures { result ≡ extra_rows bytes.now i }
{
    if overflows(bytes, i) { 1 } else { 0 }
}

/// How many sites section i has.
#[tactic(auto, unfolding(crate::specs::Fields::site_count))]
pub fn site_count(bytes: &[u8], i: u32) -> u32
    ensures { result ≡ site_count bytes.now i }
{
    row_count(bytes, i).saturating_sub(extra_rows(bytes, i))
}

/// Where site r of section i stands.
#[tactic(auto, unfolding(crate::specs::Fields::site_place))]
pub fn site_place(bytes: &[u8], i: u32, r: u32) -> usize
    ensures value { result ≡ site_place bytes.now i r }
    ensures bound { result < 2 ^ 40 }
{
    rows_place(bytes, i) as usize + 10 * (extra_rows(bytes, i) as usize + r as usize)
}

/// The VirtualAddress of site r of section i.
#[tactic(auto, unfolding(crate::specs::Fields::site_at))]
pub fn site_at(bytes: &[u8], i: u32, r: u32) -> u32
    ensures { result ≡ site_at bytes.now i r }
{
    u32_at(bytes, site_place(bytes, i, r))
}

/// The SymbolTableIndex of site r of section i.
#[tactic(auto, unfolding(crate::specs::Fields::site_symbol))]
pub fn site_symbol(bytes: &[u8], i: u32, r: u32) -> u32
    ensures { result ≡ site_symbol bytes.now i r }
{
    u32_at(bytes, site_place(bytes, i, r) + 4)
}

/// The Type of site r of section i.
#[tactic(auto, unfolding(crate::specs::Fields::site_type))]
pub fn site_type(bytes: &[u8], i: u32, r: u32) -> u16
    ensures { result ≡ site_type bytes.now i r }
{
    u16_at(bytes, site_place(bytes, i, r) + 8)
}

/// Where record j of the symbol table stands.
#[tactic(auto, unfolding(crate::specs::Fields::symbol_place))]
pub fn symbol_place(bytes: &[u8], j: u32) -> usize
    ensures value { result ≡ symbol_place bytes.now j }
    ensures bound { result < 2 ^ 40 }
{
    symbols_place(bytes) as usize + 18 * j as usize
}

/// The Value of record j.
#[tactic(auto, unfolding(crate::specs::Fields::symbol_value))]
pub fn symbol_value(bytes: &[u8], j: u32) -> u32
    ensures { result ≡ symbol_value bytes.now j }
{
    u32_at(bytes, symbol_place(bytes, j) + 8)
}

/// The SectionNumber of record j.
#[tactic(auto, unfolding(crate::specs::Fields::symbol_section))]
pub fn symbol_section(bytes: &[u8], j: u32) -> u16
    ensures { result ≡ symbol_section bytes.now j }
{
    u16_at(bytes, symbol_place(bytes, j) + 12)
}

/// The StorageClass of record j.
#[tactic(auto, unfolding(crate::specs::Fields::symbol_class))]
pub fn symbol_class(bytes: &[u8], j: u32) -> u8
    ensures { result ≡ symbol_class bytes.now j }
{
    byte_at(bytes, symbol_place(bytes, j) + 16)
}

/// The NumberOfAuxSymbols of record j.
#[tactic(auto, unfolding(crate::specs::Fields::auxiliary_count))]
pub fn auxiliary_count(bytes: &[u8], j: u32) -> u8
    ensures { result ≡ auxiliary_count bytes.now j }
{
    byte_at(bytes, symbol_place(bytes, j) + 17)
}

/// How many records from the one after j on belong to a symbol before them.
#[tactic(auto, using(crate::proofs::FieldLaws::skip_first, crate::proofs::FieldLaws::skip_next))]
pub fn next_skip(bytes: &[u8], j: u32, skip: u8) -> u8
    requires { skip ≡ skip_at bytes.now j }
    ensures { result ≡ skip_at bytes.now (j + 1) }
{
    if skip == 0 {
        auxiliary_count(bytes, j)
    } else {
        skip - 1
    }
}

/// Whether a SectionNumber names a section.
pub fn is_in_section(section: u16) -> bool
    ensures { result ≡ in_section section }
{
    section != 0 && section < 65_534
}

/// The Selection of the auxiliary record after record j.
#[tactic(auto, unfolding(crate::specs::Fields::selection))]
pub fn selection(bytes: &[u8], j: u32) -> u8
    ensures { result ≡ selection bytes.now j }
{
    byte_at(bytes, symbol_place(bytes, j) + 32)
}

/// Where hybrid row r of section i stands.
#[tactic(auto, unfolding(crate::specs::Fields::hybrid_place))]
pub fn hybrid_place(bytes: &[u8], i: u32, r: u32) -> usize
    ensures value { result ≡ hybrid_place bytes.now i r }
    ensures bound { result < 2 ^ 40 }
{
    raw_place(bytes, i) as usize + 12 * r as usize
}

/// The source symbol of hybrid row r of section i.
#[tactic(auto, unfolding(crate::specs::Fields::hybrid_source))]
pub fn hybrid_source(bytes: &[u8], i: u32, r: u32) -> u32
    ensures { result ≡ hybrid_source bytes.now i r }
{
    u32_at(bytes, hybrid_place(bytes, i, r))
}

/// The thunk symbol of hybrid row r of section i.
#[tactic(auto, unfolding(crate::specs::Fields::hybrid_thunk))]
pub fn hybrid_thunk(bytes: &[u8], i: u32, r: u32) -> u32
    ensures { result ≡ hybrid_thunk bytes.now i r }
{
    u32_at(bytes, hybrid_place(bytes, i, r) + 4)
}

/// The kind of hybrid row r of section i.
#[tactic(auto, unfolding(crate::specs::Fields::hybrid_kind))]
pub fn hybrid_kind(bytes: &[u8], i: u32, r: u32) -> u32
    ensures { result ≡ hybrid_kind bytes.now i r }
{
    u32_at(bytes, hybrid_place(bytes, i, r) + 8)
}
