//! The names of sections and symbols.

ghost use Rattle.std.specs.Prelude.{◌≡◌, ◌+◌, ◌-◌, ◌*◌, ◌<◌, ◌≤◌, ◌^◌, length, slice_index, not, ◌&&◌};
ghost use Rattle.file_words.specs.Below.{any_below, past_last};
ghost use Rattle.coff_write.specs.Valid.{begins, is_reserved};
ghost use Rattle.coff_fields.specs.Names.{field_text, strings, string_at, is_zero, bad_string, is_slash, digits, is_digit, bad_digits, decimal, section_offset, section_name, bad_section_name, is_long, symbol_offset, symbol_name, front};

use crate::fields::{section_at, strings_place, strings_size, symbol_place};
use file_words::{before_zero, byte_at, part, u32_at};

/// The eight bytes of a name field, without what follows a zero.
#[tactic(auto, unfolding(crate::specs::Names::field_text))]
fn field_text(bytes: &[u8], place: usize) -> &[u8]
    ensures { result.now ≡ field_text bytes.now place }
{
    before_zero(part(bytes, place, 8))
}

/// The string table, its size first.
#[tactic(auto, unfolding(crate::specs::Names::strings))]
pub fn strings(bytes: &[u8]) -> &[u8]
    ensures { result.now ≡ strings bytes.now }
{
    part(bytes, strings_place(bytes), strings_size(bytes) as usize)
}

/// The name at an offset of the string table.
#[tactic(auto, using(crate::proofs::NameLaws::part_rest), unfolding(crate::specs::Names::string_at))]
fn string_at(bytes: &[u8], offset: usize) -> &[u8]
    ensures { result.now ≡ string_at bytes.now offset }
{
    let table = strings(bytes);
    before_zero(part(table, offset, table.len()))
}

/// As much of it as tells which sections are dropped.
#[tactic(auto, using(crate::proofs::NameLaws::front_string))]
fn string_front(bytes: &[u8], offset: usize) -> &[u8]
    ensures { result.now ≡ front (string_at bytes.now offset) }
{
    before_zero(part(strings(bytes), offset, 9))
}

/// One more than the place of the last zero of a text; 0 where there is none.
#[tactic(auto, using(file_words::proofs::BelowLaws::last_none, file_words::proofs::BelowLaws::last_yes, file_words::proofs::BelowLaws::last_no), unfolding(crate::specs::Names::is_zero))]
pub fn past_last_zero(text: &[u8]) -> usize
    ensures { result ≡ past_last (is_zero text.now) (length text.now) }
{
    let mut end = 0;
    for (k, c) in text.iter().enumerate() {
        if *c == 0 {
            end = k + 1;
        }
    }
    end
}

/// Whether no name stands at an offset of the string table, whose last zero is known.
#[tactic(auto, using(crate::proofs::NameLaws::string_in_size, crate::proofs::NameLaws::string_out))]
fn string_fails(bytes: &[u8], end: usize, offset: usize) -> bool
    requires { end ≡ past_last (is_zero (strings bytes.now)) (length (strings bytes.now)) }
    ensures { result ≡ bad_string bytes.now offset }
{
    if offset < 4 {
        return true;
    }
    offset >= end
}

/// Whether the name of section i is an offset.
#[tactic(auto, unfolding(crate::specs::Names::is_slash))]
fn is_slash(bytes: &[u8], i: u32) -> bool
    ensures { result ≡ is_slash bytes.now i }
{
    byte_at(bytes, section_at(i)) == b'/'
}

/// What follows the slash.
#[tactic(auto, using(crate::proofs::NameLaws::part_rest, crate::proofs::NameLaws::few_digits), unfolding(crate::specs::Names::digits))]
fn digits(bytes: &[u8], i: u32) -> &[u8]
    ensures text { result.now ≡ digits bytes.now i }
    ensures few { length result.now ≤ 7 }
{
    let text = field_text(bytes, section_at(i));
    part(text, 1, text.len())
}

/// Whether a character is none of the decimal digits.
fn is_no_digit(c: u8) -> bool
    ensures { result ≡ not (is_digit c) }
{
    !(48 <= c && c < 58)
}

/// Whether a character is none of the decimal digits.
#[tactic(auto, using(file_words::proofs::BelowLaws::any_none, file_words::proofs::BelowLaws::any_step))]
fn has_other(text: &[u8]) -> bool
    ensures { result ≡ any_below (λ k. not (is_digit (slice_index text.now k))) (length text.now) }
{
    let mut other = false;
    for c in text {
        other |= is_no_digit(*c);
    }
    other
}

/// Whether a text isn't a decimal number.
#[tactic(auto, unfolding(crate::specs::Names::bad_digits))]
fn digits_fail(text: &[u8]) -> bool
    ensures { result ≡ bad_digits text.now }
{
    text.is_empty() || has_other(text)
}

/// The number that digits spell.
#[tactic(auto, using(crate::proofs::NameLaws::decimal_none, crate::proofs::NameLaws::decimal_step, crate::proofs::NameLaws::small_step, crate::proofs::NameLaws::small))]
fn decimal(text: &[u8]) -> u64
    requires { length text.now ≤ 7 }
    ensures value { result ≡ decimal text.now (length text.now) }
    ensures bound { result < 2 ^ 56 }
{
    let mut value = 0u64;
    for c in text {
        value = 10 * value + c.saturating_sub(48) as u64;
    }
    value
}

/// The offset of the name of section i.
#[tactic(auto, unfolding(crate::specs::Names::section_offset))]
fn section_offset(bytes: &[u8], i: u32) -> usize
    ensures { result ≡ section_offset bytes.now i }
{
    decimal(digits(bytes, i)) as usize
}

/// Whether the name of section i is an offset at which no name stands.
#[tactic(auto, unfolding(crate::specs::Names::bad_section_name))]
pub fn section_name_fails(bytes: &[u8], end: usize, i: u32) -> bool
    requires { end ≡ past_last (is_zero (strings bytes.now)) (length (strings bytes.now)) }
    ensures { result ≡ bad_section_name bytes.now i }
{
    is_slash(bytes, i)
        && (digits_fail(digits(bytes, i)) || string_fails(bytes, end, section_offset(bytes, i)))
}

/// The name of section i.
#[tactic(auto, unfolding(crate::specs::Names::section_name))]
pub fn section_name(bytes: &[u8], i: u32) -> &[u8]
    ensures { result.now ≡ section_name bytes.now i }
{
    if is_slash(bytes, i) {
        string_at(bytes, section_offset(bytes, i))
    } else {
        field_text(bytes, section_at(i))
    }
}

/// As much of it as tells whether the section is dropped.
#[tactic(auto, using(crate::proofs::NameLaws::front_field), unfolding(crate::specs::Names::section_name))]
pub fn section_front(bytes: &[u8], i: u32) -> &[u8]
    ensures { result.now ≡ front (section_name bytes.now i) }
{
    if is_slash(bytes, i) {
        string_front(bytes, section_offset(bytes, i))
    } else {
        field_text(bytes, section_at(i))
    }
}

/// Whether the name of record j is an offset.
#[tactic(auto, unfolding(crate::specs::Names::is_long))]
fn is_long(bytes: &[u8], j: u32) -> bool
    ensures { result ≡ is_long bytes.now j }
{
    u32_at(bytes, symbol_place(bytes, j)) == 0
}

/// That offset.
#[tactic(auto, unfolding(crate::specs::Names::symbol_offset))]
fn symbol_offset(bytes: &[u8], j: u32) -> usize
    ensures { result ≡ symbol_offset bytes.now j }
{
    u32_at(bytes, symbol_place(bytes, j) + 4) as usize
}

/// Whether the name of record j is an offset at which no name stands.
pub fn long_name_fails(bytes: &[u8], end: usize, j: u32) -> bool
    requires { end ≡ past_last (is_zero (strings bytes.now)) (length (strings bytes.now)) }
    ensures { result ≡ (is_long bytes.now j && bad_string bytes.now (symbol_offset bytes.now j)) }
{
    is_long(bytes, j) && string_fails(bytes, end, symbol_offset(bytes, j))
}

/// The name of record j.
#[tactic(auto, unfolding(crate::specs::Names::symbol_name))]
pub fn symbol_name(bytes: &[u8], j: u32) -> &[u8]
    ensures { result.now ≡ symbol_name bytes.now j }
{
    if is_long(bytes, j) {
        string_at(bytes, symbol_offset(bytes, j))
    } else {
        field_text(bytes, symbol_place(bytes, j))
    }
}

/// Its first byte, or 0.
#[tactic(auto, using(crate::proofs::NameLaws::head_front, crate::proofs::NameLaws::head_is), unfolding(crate::specs::Names::symbol_name))]
pub fn symbol_head(bytes: &[u8], j: u32) -> u8
    ensures { result ≡ slice_index (symbol_name bytes.now j) 0 }
{
    if is_long(bytes, j) {
        byte_at(string_front(bytes, symbol_offset(bytes, j)), 0)
    } else {
        byte_at(field_text(bytes, symbol_place(bytes, j)), 0)
    }
}

/// Whether a name begins with these bytes, none of which is 0.
#[tactic(auto, unfolding(file_words::specs::Fields::byte_of))]
pub fn starts_with(name: &[u8], front: &[u8]) -> bool
    ensures { result ≡ begins name.now front.now }
{
    for (k, c) in front.iter().enumerate() {
        if byte_at(name, k) != *c {
            return false;
        }
    }
    true
}

/// Whether sections of this name are dropped or hold the hybrid rows.
#[tactic(auto, unfolding(coff_write::specs::Valid::is_reserved))]
pub fn is_reserved(name: &[u8]) -> bool
    ensures { result ≡ is_reserved name.now }
{
    starts_with(name, b".pdata")
        || starts_with(name, b".xdata")
        || starts_with(name, b".debug")
        || (name.len() == 8 && (starts_with(name, b".drectve") || starts_with(name, b".hybmp$x")))
}
