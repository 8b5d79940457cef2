//! Tests of the header and of what its tables say of places in the file.

ghost use Rattle.std.specs.Prelude.{◌≡◌, ◌+◌, ◌-◌, ◌*◌, ◌<◌, ◌≤◌, not, ◌==◌, ◌||◌};
ghost use Rattle.file_words.specs.Below.{any_below};
ghost use Rattle.coff_fields.specs.Fields.{section_count, symbol_count, skip_at};
ghost use Rattle.coff_read.specs.Refusals.{too_large, short, big_object, bad_machine, has_optional, bad_contents, bad_section_range, bad_home, bad_strings, bad_symbol_range};

use coff_fields::fields::{
    has_flag, is_in_section, machine_field, next_skip, optional_size, raw_place, raw_size,
    section_at, section_count, strings_place, strings_size, symbol_count, symbol_section,
    symbol_value,
};
use file_words::u32_at;

#[tactic(auto, unfolding(crate::specs::Refusals::too_large))]
pub fn is_too_large(bytes: &[u8]) -> bool
    ensures { result ≡ too_large bytes.now }
{
    bytes.len() > 134_217_728
}

#[tactic(auto, unfolding(crate::specs::Refusals::short))]
pub fn is_short(bytes: &[u8]) -> bool
    ensures { result ≡ short bytes.now }
{
    bytes.len() < 20
}

#[tactic(auto, unfolding(crate::specs::Refusals::big_object))]
pub fn is_big_object(bytes: &[u8]) -> bool
    ensures { result ≡ big_object bytes.now }
{
    u32_at(bytes, 0) == 0xFFFF_0000
}

#[tactic(auto, unfolding(crate::specs::Refusals::bad_machine))]
pub fn machine_fails(bytes: &[u8]) -> bool
    ensures { result ≡ bad_machine bytes.now }
{
    let machine = machine_field(bytes);
    machine != 0x8664 && machine != 0xA641
}

#[tactic(auto, unfolding(crate::specs::Refusals::has_optional))]
pub fn has_optional_header(bytes: &[u8]) -> bool
    ensures { result ≡ has_optional bytes.now }
{
    optional_size(bytes) != 0
}

/// Whether the contents of section i pass the end.
#[tactic(auto, unfolding(crate::specs::Refusals::bad_contents))]
fn contents_fail(bytes: &[u8], i: u32) -> bool
    ensures { result ≡ bad_contents bytes.now i }
{
    !has_flag(bytes, i, 0x80)
        && bytes.len() < raw_place(bytes, i) as usize + raw_size(bytes, i) as usize
}

#[tactic(auto, using(file_words::proofs::BelowLaws::any_none, file_words::proofs::BelowLaws::any_step))]
fn any_contents_fail(bytes: &[u8]) -> bool
    ensures { result ≡ any_below (bad_contents bytes.now) (section_count bytes.now) }
{
    let mut fails = false;
    for i in 0..section_count(bytes) as u32 {
        fails |= contents_fail(bytes, i);
    }
    fails
}

/// Whether the section table or some contents pass the end.
#[tactic(auto, unfolding(crate::specs::Refusals::bad_section_range))]
pub fn section_range_fails(bytes: &[u8]) -> bool
    ensures { result ≡ bad_section_range bytes.now }
{
    bytes.len() < section_at(section_count(bytes) as u32) || any_contents_fail(bytes)
}

/// Whether the section of record j isn't in the table, or is shorter than the value.
#[tactic(auto, unfolding(crate::specs::Refusals::bad_home))]
fn home_fails(bytes: &[u8], j: u32, skip: u8) -> bool
    requires { skip ≡ skip_at bytes.now j }
    ensures { result ≡ bad_home bytes.now j }
{
    let section = symbol_section(bytes, j);
    if skip != 0 || !is_in_section(section) {
        return false;
    }
    section > section_count(bytes) || raw_size(bytes, section as u32 - 1) < symbol_value(bytes, j)
}

/// Whether auxiliary records pass the end of their table, or a symbol its section.
#[tactic(auto, using(coff_fields::proofs::FieldLaws::skip_none, file_words::proofs::BelowLaws::any_none, file_words::proofs::BelowLaws::any_step))]
fn homes_fail(bytes: &[u8]) -> bool
    ensures { result ≡ (not (skip_at bytes.now (symbol_count bytes.now) == 0) || any_below (bad_home bytes.now) (symbol_count bytes.now)) }
{
    let mut skip = 0u8;
    let mut fails = false;
    for j in 0..symbol_count(bytes) {
        fails |= home_fails(bytes, j, skip);
        skip = next_skip(bytes, j, skip);
    }
    skip != 0 || fails
}

/// Whether the symbol table or the string table passes the end.
#[tactic(auto, unfolding(crate::specs::Refusals::bad_strings))]
fn strings_fail(bytes: &[u8]) -> bool
    ensures { result ≡ bad_strings bytes.now }
{
    let place = strings_place(bytes);
    let size = strings_size(bytes) as usize;
    bytes.len() < place + 4 || size < 4 || bytes.len() < place + size
}

/// Whether a table passes the end, auxiliary records that of their table, or a symbol its section.
#[tactic(auto, unfolding(crate::specs::Refusals::bad_symbol_range))]
pub fn symbol_range_fails(bytes: &[u8]) -> bool
    ensures { result ≡ bad_symbol_range bytes.now }
{
    strings_fail(bytes) || homes_fail(bytes)
}
