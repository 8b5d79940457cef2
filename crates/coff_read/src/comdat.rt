//! The section symbols of COMDAT sections.

ghost use Rattle.std.specs.Prelude.{◌≡◌, ℕ, ◌+◌, ◌-◌, ◌*◌, ◌<◌, ◌≤◌, ◌==◌, IfOk};
ghost use Rattle.file_words.specs.Below.{table};
ghost use Rattle.coff_fields.specs.Fields.{section_count, symbol_count, skip_at};
ghost use Rattle.coff_read.specs.Kept.{is_start, section_symbol};
ghost use Rattle.coff_read.specs.Stages.{start_before};
ghost use Rattle.coff_read.specs.Refusals.{bad_definition, bad_comdat_section, bad_comdat};

use coff_fields::fields::{
    auxiliary_count, has_flag, is_in_section, next_skip, section_count, selection, symbol_class,
    symbol_count, symbol_section, symbol_value,
};
use std::alloc::{AllocError, Global};

/// The section in which record j is a static symbol of value 0, or 0.
#[tactic(auto, using(crate::proofs::ComdatLaws::starts_in))]
fn start_section(bytes: &[u8], j: u32, skip: u8) -> u16
    requires { skip ≡ skip_at bytes.now j }
    ensures { (i : ℕ) → is_start bytes.now i j ≡ (result == i + 1) }
{
    let section = symbol_section(bytes, j);
    let starts = skip == 0
        && symbol_class(bytes, j) == 3
        && symbol_value(bytes, j) == 0
        && is_in_section(section);
    if starts { section } else { 0 }
}

/// Keeps record j as the section symbol of its section, if it begins one that has none yet.
#[tactic(auto, using(crate::proofs::ComdatLaws::none_noted, crate::proofs::ComdatLaws::past_noted, crate::proofs::ComdatLaws::stays_noted, crate::proofs::ComdatLaws::start_noted))]
fn note_start(bytes: &[u8], j: u32, skip: u8, starts: &mut [Option<u32>])
    requires known { skip ≡ skip_at bytes.now j }
    requires before { starts.old ≡ table (start_before bytes.now j) (section_count bytes.now) }
    ensures { starts.new ≡ table (start_before bytes.now (j + 1)) (section_count bytes.now) }
{
    let section = start_section(bytes, j, skip);
    if section == 0 {
        return;
    }
    let k = section as usize - 1;
    if k >= starts.len() {
        return;
    }
    if starts[k].is_none() {
        starts[k] = Some(j);
    }
}

/// The section symbol of each section, as the number of its record.
#[tactic(auto, using(coff_fields::proofs::FieldLaws::skip_none, crate::proofs::ComdatLaws::starts_first, crate::proofs::ComdatLaws::starts_whole))]
fn section_symbols(alloc: Global, bytes: &[u8]) -> Result<Vec<Option<u32>>, AllocError>
    ensures { IfOk result (λ v. v.items ≡ table (section_symbol bytes.now) (section_count bytes.now)) }
{
    let mut starts = vec![in alloc; None; section_count(bytes) as usize]?;
    let mut skip = 0u8;
    for j in 0..symbol_count(bytes) {
        note_start(bytes, j, skip, &mut starts);
        skip = next_skip(bytes, j, skip);
    }
    Ok(starts)
}

/// Whether a section symbol doesn't say that any one of several sections is kept.
#[tactic(auto, unfolding(crate::specs::Refusals::bad_definition))]
fn definition_fails(bytes: &[u8], symbol: Option<u32>) -> bool
    ensures { result ≡ bad_definition bytes.now symbol }
{
    match symbol {
        None => true,
        Some(j) => auxiliary_count(bytes, j) == 0 || selection(bytes, j) != 2,
    }
}

#[tactic(auto, using(file_words::proofs::BelowLaws::table_at, file_words::proofs::BelowLaws::table_long), unfolding(crate::specs::Refusals::bad_comdat_section))]
fn comdat_section_fails(bytes: &[u8], starts: &[Option<u32>], i: u32) -> bool
    requires starts { starts.now ≡ table (section_symbol bytes.now) (section_count bytes.now) }
    requires counted { i < section_count bytes.now }
    ensures { result ≡ bad_comdat_section bytes.now i }
{
    has_flag(bytes, i, 0x1000) && definition_fails(bytes, starts[i as usize])
}

#[tactic(auto, using(file_words::proofs::BelowLaws::any_none, file_words::proofs::BelowLaws::any_step), unfolding(crate::specs::Refusals::bad_comdat))]
fn any_comdat_fails(bytes: &[u8], starts: &[Option<u32>]) -> bool
    requires { starts.now ≡ table (section_symbol bytes.now) (section_count bytes.now) }
    ensures { result ≡ bad_comdat bytes.now }
{
    let mut fails = false;
    for i in 0..section_count(bytes) as u32 {
        fails |= comdat_section_fails(bytes, starts, i);
    }
    fails
}

/// Whether some COMDAT section isn't one of several of which any one is kept.
pub fn comdat_fails(alloc: Global, bytes: &[u8]) -> Result<bool, AllocError>
    ensures { IfOk result (λ fails. fails ≡ bad_comdat bytes.now) }
{
    let starts = section_symbols(alloc, bytes)?;
    Ok(any_comdat_fails(bytes, &starts))
}
