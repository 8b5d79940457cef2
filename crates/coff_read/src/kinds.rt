//! Tests of names, and of the kinds of symbols.

ghost use Rattle.std.specs.Prelude.{◌≡◌, ◌+◌, ◌-◌, ◌*◌, ◌<◌, ◌≤◌, length};
ghost use Rattle.file_words.specs.Below.{any_below, past_last};
ghost use Rattle.coff_fields.specs.Fields.{section_count, symbol_count, symbol_section, skip_at};
ghost use Rattle.coff_fields.specs.Names.{strings, is_zero, bad_section_name};
ghost use Rattle.coff_read.specs.Refusals.{bad_symbol_name, bad_name_range, bad_class, bad_debug, bad_body_home, bad_body, bad_kind, bad_symbol_kind};

use coff_fields::fields::{
    has_flag, is_in_section, machine_field, next_skip, raw_size, section_count, symbol_class,
    symbol_count, symbol_section, symbol_value,
};
use coff_fields::names::{
    long_name_fails, past_last_zero, section_name_fails, strings, symbol_head,
};

#[tactic(auto, using(file_words::proofs::BelowLaws::any_none, file_words::proofs::BelowLaws::any_step))]
fn section_names_fail(bytes: &[u8], end: usize) -> bool
    requires { end ≡ past_last (is_zero (strings bytes.now)) (length (strings bytes.now)) }
    ensures { result ≡ any_below (bad_section_name bytes.now) (section_count bytes.now) }
{
    let mut fails = false;
    for i in 0..section_count(bytes) as u32 {
        fails |= section_name_fails(bytes, end, i);
    }
    fails
}

#[tactic(auto, unfolding(crate::specs::Refusals::bad_symbol_name))]
fn symbol_name_fails(bytes: &[u8], end: usize, j: u32, skip: u8) -> bool
    requires end { end ≡ past_last (is_zero (strings bytes.now)) (length (strings bytes.now)) }
    requires known { skip ≡ skip_at bytes.now j }
    ensures { result ≡ bad_symbol_name bytes.now j }
{
    skip == 0 && long_name_fails(bytes, end, j)
}

#[tactic(auto, using(coff_fields::proofs::FieldLaws::skip_none, file_words::proofs::BelowLaws::any_none, file_words::proofs::BelowLaws::any_step))]
fn symbol_names_fail(bytes: &[u8], end: usize) -> bool
    requires { end ≡ past_last (is_zero (strings bytes.now)) (length (strings bytes.now)) }
    ensures { result ≡ any_below (bad_symbol_name bytes.now) (symbol_count bytes.now) }
{
    let mut skip = 0u8;
    let mut fails = false;
    for j in 0..symbol_count(bytes) {
        fails |= symbol_name_fails(bytes, end, j, skip);
        skip = next_skip(bytes, j, skip);
    }
    fails
}

/// Whether some name is outside the string table.
#[tactic(auto, unfolding(crate::specs::Refusals::bad_name_range))]
pub fn name_range_fails(bytes: &[u8]) -> bool
    ensures { result ≡ bad_name_range bytes.now }
{
    let end = past_last_zero(strings(bytes));
    section_names_fail(bytes, end) || symbol_names_fail(bytes, end)
}

/// Whether the storage class of record j is unknown.
#[tactic(auto, unfolding(crate::specs::Refusals::bad_class))]
fn class_fails(bytes: &[u8], j: u32) -> bool
    ensures { result ≡ bad_class bytes.now j }
{
    let class = symbol_class(bytes, j);
    class != 2 && class != 3 && class != 103
}

/// Whether record j is of debug data, and no file.
#[tactic(auto, unfolding(crate::specs::Refusals::bad_debug))]
fn debug_fails(bytes: &[u8], j: u32) -> bool
    ensures { result ≡ bad_debug bytes.now j }
{
    symbol_class(bytes, j) != 103 && symbol_section(bytes, j) == 65_534
}

/// Whether no code of an Arm64EC function begins at record j, which is in a section.
#[tactic(auto, unfolding(crate::specs::Refusals::bad_body_home))]
fn body_home_fails(bytes: &[u8], j: u32, section: u16) -> bool
    requires known { section ≡ symbol_section bytes.now j }
    requires positive { 0 < section }
    ensures { result ≡ bad_body_home bytes.now j }
{
    let home = section as u32 - 1;
    symbol_value(bytes, j) == raw_size(bytes, home)
        || !has_flag(bytes, home, 0x2000_0000)
        || machine_field(bytes) == 0x8664
}

/// Whether record j names the code of an Arm64EC function where none begins.
#[tactic(auto, unfolding(crate::specs::Refusals::bad_body))]
fn body_fails(bytes: &[u8], j: u32) -> bool
    ensures { result ≡ bad_body bytes.now j }
{
    let section = symbol_section(bytes, j);
    symbol_class(bytes, j) == 2
        && is_in_section(section)
        && symbol_head(bytes, j) == b'#'
        && body_home_fails(bytes, j, section)
}

#[tactic(auto, unfolding(crate::specs::Refusals::bad_kind))]
fn kind_fails(bytes: &[u8], j: u32, skip: u8) -> bool
    requires { skip ≡ skip_at bytes.now j }
    ensures { result ≡ bad_kind bytes.now j }
{
    skip == 0 && (class_fails(bytes, j) || debug_fails(bytes, j) || body_fails(bytes, j))
}

/// Whether some symbol is of a kind that has no meaning here.
#[tactic(auto, using(coff_fields::proofs::FieldLaws::skip_none, file_words::proofs::BelowLaws::any_none, file_words::proofs::BelowLaws::any_step), unfolding(crate::specs::Refusals::bad_symbol_kind))]
pub fn symbol_kind_fails(bytes: &[u8]) -> bool
    ensures { result ≡ bad_symbol_kind bytes.now }
{
    let mut skip = 0u8;
    let mut fails = false;
    for j in 0..symbol_count(bytes) {
        fails |= kind_fails(bytes, j, skip);
        skip = next_skip(bytes, j, skip);
    }
    fails
}
