//! Which sections and symbols are part of the object, and their numbers there.

ghost use Rattle.std.specs.Prelude.{◌≡◌, ◌≢◌, ◌+◌, ◌-◌, ◌*◌, ◌<◌, ◌≤◌, true, slice_set, IfOk};
ghost use Rattle.file_words.specs.Below.{table};
ghost use Rattle.coff_fields.specs.Fields.{section_count, symbol_count, skip_at, in_section};
ghost use Rattle.coff_read.specs.Kept.{is_hybrid, keeps_section, new_section, may_stay, is_named, stays, new_symbol};
ghost use Rattle.coff_read.specs.Stages.{section_number, named_before};

use coff_fields::fields::{
    has_flag, is_in_section, next_skip, section_count, site_count, site_symbol, symbol_class,
    symbol_count, symbol_section,
};
use coff_fields::names::{is_reserved, section_front, starts_with};
use std::alloc::{AllocError, Global};

/// Whether section i holds hybrid rows.
#[tactic(auto, using(coff_fields::proofs::NameLaws::hybrid_front), unfolding(crate::specs::Kept::is_hybrid))]
pub fn is_hybrid(bytes: &[u8], i: u32) -> bool
    ensures { result ≡ is_hybrid bytes.now i }
{
    let name = section_front(bytes, i);
    name.len() == 8 && starts_with(name, b".hybmp$x")
}

/// Whether section i is part of the object.
#[tactic(auto, using(coff_fields::proofs::NameLaws::reserved_front), unfolding(crate::specs::Kept::keeps_section))]
pub fn keeps_section(bytes: &[u8], i: u32) -> bool
    ensures { result ≡ keeps_section bytes.now i }
{
    !is_reserved(section_front(bytes, i)) && !has_flag(bytes, i, 0xA00)
}

/// How many sections before each one are kept.
#[tactic(auto, using(file_words::proofs::BelowLaws::count_none, file_words::proofs::BelowLaws::count_step, file_words::proofs::BelowLaws::table_step, file_words::proofs::BelowLaws::table_none), unfolding(crate::specs::Stages::section_number, file_words::specs::Below::count_below))]
pub fn section_numbers(alloc: Global, bytes: &[u8]) -> Result<Vec<u16>, AllocError>
    ensures { IfOk result (λ v. v.items ≡ table (section_number bytes.now) (section_count bytes.now)) }
{
    let mut numbers = Vec::new(alloc);
    let mut next = 0u16;
    for i in 0..section_count(bytes) {
        numbers.push(next)?;
        next += keeps_section(bytes, i as u32) as u16;
    }
    Ok(numbers)
}

/// Whether record j begins a symbol that a site may name.
#[tactic(auto, unfolding(crate::specs::Kept::may_stay))]
fn is_able(bytes: &[u8], j: u32, skip: u8) -> bool
    requires { skip ≡ skip_at bytes.now j }
    ensures { result ≡ may_stay bytes.now j }
{
    let section = symbol_section(bytes, j);
    if skip != 0 || symbol_class(bytes, j) == 103 {
        return false;
    }
    !is_in_section(section) || keeps_section(bytes, section as u32 - 1)
}

/// Which records begin symbols that a site may name.
#[tactic(auto, using(coff_fields::proofs::FieldLaws::skip_none, file_words::proofs::BelowLaws::table_step, file_words::proofs::BelowLaws::table_none))]
pub fn able_symbols(alloc: Global, bytes: &[u8]) -> Result<Vec<bool>, AllocError>
    ensures { IfOk result (λ v. v.items ≡ table (may_stay bytes.now) (symbol_count bytes.now)) }
{
    let mut able = Vec::new(alloc);
    let mut skip = 0u8;
    for j in 0..symbol_count(bytes) {
        able.push(is_able(bytes, j, skip))?;
        skip = next_skip(bytes, j, skip);
    }
    Ok(able)
}

fn mark(marks: &mut [bool], at: usize)
    ensures { marks.new ≡ slice_set marks.old at true }
{
    if at < marks.len() {
        marks[at] = true;
    }
}

/// Marks the records that the sites of section i name.
#[tactic(auto, using(crate::proofs::KeptLaws::marks_none, crate::proofs::KeptLaws::marks_step, crate::proofs::KeptLaws::marks_all))]
fn mark_sites(bytes: &[u8], i: u32, marks: &mut [bool])
    requires before { marks.old ≡ table (named_before bytes.now i) (symbol_count bytes.now) }
    requires kept { keeps_section bytes.now i ≡ true }
    ensures { marks.new ≡ table (named_before bytes.now (i + 1)) (symbol_count bytes.now) }
{
    for r in 0..site_count(bytes, i) {
        mark(marks, site_symbol(bytes, i, r) as usize);
    }
}

#[tactic(auto, using(crate::proofs::KeptLaws::marks_dropped))]
fn mark_section(bytes: &[u8], i: u32, marks: &mut [bool])
    requires { marks.old ≡ table (named_before bytes.now i) (symbol_count bytes.now) }
    ensures { marks.new ≡ table (named_before bytes.now (i + 1)) (symbol_count bytes.now) }
{
    if keeps_section(bytes, i) {
        mark_sites(bytes, i, marks);
    }
}

/// Which records the sites of kept sections name.
#[tactic(auto, using(crate::proofs::KeptLaws::marks_first, crate::proofs::KeptLaws::marks_named))]
pub fn named_symbols(alloc: Global, bytes: &[u8]) -> Result<Vec<bool>, AllocError>
    ensures { IfOk result (λ v. v.items ≡ table (is_named bytes.now) (symbol_count bytes.now)) }
{
    let mut marks = vec![in alloc; false; symbol_count(bytes) as usize]?;
    for i in 0..section_count(bytes) as u32 {
        mark_section(bytes, i, &mut marks);
    }
    Ok(marks)
}

/// Whether record j begins a symbol of the object.
#[tactic(auto, using(file_words::proofs::BelowLaws::table_at, file_words::proofs::BelowLaws::table_long), unfolding(crate::specs::Kept::stays))]
fn is_kept(bytes: &[u8], able: &[bool], named: &[bool], j: u32) -> bool
    requires able { able.now ≡ table (may_stay bytes.now) (symbol_count bytes.now) }
    requires named { named.now ≡ table (is_named bytes.now) (symbol_count bytes.now) }
    requires counted { j < symbol_count bytes.now }
    ensures { result ≡ stays bytes.now j }
{
    able[j as usize] && (symbol_section(bytes, j) != 65_535 || named[j as usize])
}

/// Which records begin symbols of the object.
#[tactic(auto, using(file_words::proofs::BelowLaws::table_step, file_words::proofs::BelowLaws::table_none))]
pub fn kept_symbols(
    alloc: Global,
    bytes: &[u8],
    able: &[bool],
    named: &[bool],
) -> Result<Vec<bool>, AllocError>
    requires able { able.now ≡ table (may_stay bytes.now) (symbol_count bytes.now) }
    requires named { named.now ≡ table (is_named bytes.now) (symbol_count bytes.now) }
    ensures { IfOk result (λ v. v.items ≡ table (stays bytes.now) (symbol_count bytes.now)) }
{
    let mut kept = Vec::new(alloc);
    for j in 0..symbol_count(bytes) {
        kept.push(is_kept(bytes, able, named, j))?;
    }
    Ok(kept)
}

/// Whether record j, which is one of the table's, begins a symbol of the object.
#[tactic(auto, using(file_words::proofs::BelowLaws::table_at, file_words::proofs::BelowLaws::table_long))]
pub fn stays_at(bytes: &[u8], kept: &[bool], j: u32) -> bool
    requires kept { kept.now ≡ table (stays bytes.now) (symbol_count bytes.now) }
    requires counted { j < symbol_count bytes.now }
    ensures { result ≡ stays bytes.now j }
{
    kept[j as usize]
}

/// How many symbols of the object begin before each record.
#[tactic(auto, using(file_words::proofs::BelowLaws::count_none, file_words::proofs::BelowLaws::count_step, file_words::proofs::BelowLaws::table_step, file_words::proofs::BelowLaws::table_none), unfolding(crate::specs::Kept::new_symbol, file_words::specs::Below::count_below))]
pub fn symbol_numbers(alloc: Global, bytes: &[u8], kept: &[bool]) -> Result<Vec<u32>, AllocError>
    requires { kept.now ≡ table (stays bytes.now) (symbol_count bytes.now) }
    ensures { IfOk result (λ v. v.items ≡ table (new_symbol bytes.now) (symbol_count bytes.now)) }
{
    let mut numbers = Vec::new(alloc);
    let mut next = 0u32;
    for j in 0..symbol_count(bytes) {
        numbers.push(next)?;
        next += stays_at(bytes, kept, j) as u32;
    }
    Ok(numbers)
}

/// The new number of record j, which is one of the table's.
#[tactic(auto, using(file_words::proofs::BelowLaws::table_at, file_words::proofs::BelowLaws::table_long))]
pub fn new_symbol(bytes: &[u8], numbers: &[u32], j: u32) -> u32
    requires numbers { numbers.now ≡ table (new_symbol bytes.now) (symbol_count bytes.now) }
    requires counted { j < symbol_count bytes.now }
    ensures { result ≡ new_symbol bytes.now j }
{
    numbers[j as usize]
}

/// The new number of a section, or the number that stands for none.
#[tactic(auto, using(file_words::proofs::BelowLaws::table_at, file_words::proofs::BelowLaws::table_long, crate::proofs::KeptLaws::section_number_le, crate::proofs::KeptLaws::home_number), unfolding(crate::specs::Kept::new_section))]
pub fn new_section(bytes: &[u8], numbers: &[u16], section: u16) -> u16
    requires numbers { numbers.now ≡ table (section_number bytes.now) (section_count bytes.now) }
    requires counted { in_section section ≡ true → section ≤ section_count bytes.now }
    ensures { result ≡ new_section bytes.now section }
{
    if !is_in_section(section) {
        return section;
    }
    numbers[section as usize - 1] + 1
}
