//! The hybrid rows: tests, and the rows.

ghost use Rattle.std.specs.Prelude.{◌≡◌, ◌+◌, ◌-◌, ◌*◌, ◌/◌, ◌%◌, ◌<◌, ◌≤◌, false, true, IfOk};
ghost use Rattle.file_words.specs.Below.{any_below, table, gathered};
ghost use Rattle.coff_fields.specs.Fields.{section_count, symbol_count, contents_size};
ghost use Rattle.coff_read.specs.Kept.{is_hybrid, stays, new_symbol};
ghost use Rattle.coff_read.specs.Refusals.{bad_index, is_row_kind, bad_row, bad_hybrid, bad_hybrid_record};
ghost use Rattle.coff_read.specs.Objects.{hybrid_row, hybrid_rows};

use crate::kept::{is_hybrid, new_symbol};
use coff_fields::fields::{contents_size, hybrid_kind, hybrid_source, hybrid_thunk, section_count};
use coff_write::HybridRow;
use hx_words::Items;
use std::alloc::{AllocError, Global};

/// Whether record j begins no symbol of the object.
#[tactic(auto, using(crate::proofs::PlaceLaws::past_kept, crate::proofs::PlaceLaws::in_kept))]
fn index_fails(bytes: &[u8], kept: &[bool], j: u32) -> bool
    requires { kept.now ≡ table (stays bytes.now) (symbol_count bytes.now) }
    ensures { result ≡ bad_index bytes.now j }
{
    if j as usize >= kept.len() {
        return true;
    }
    !kept[j as usize]
}

/// Whether a row has one of the three kinds.
fn has_kind(kind: u32) -> bool
    ensures { result ≡ is_row_kind kind }
{
    kind == 0 || kind == 1 || kind == 4
}

#[tactic(auto, unfolding(crate::specs::Refusals::bad_row))]
fn row_fails(bytes: &[u8], kept: &[bool], i: u32, r: u32) -> bool
    requires { kept.now ≡ table (stays bytes.now) (symbol_count bytes.now) }
    ensures { result ≡ bad_row bytes.now i r }
{
    index_fails(bytes, kept, hybrid_source(bytes, i, r))
        || index_fails(bytes, kept, hybrid_thunk(bytes, i, r))
        || !has_kind(hybrid_kind(bytes, i, r))
}

/// How many rows section i has.
fn rows_in(bytes: &[u8], i: u32) -> u32
    ensures { result ≡ contents_size bytes.now i / 12 }
{
    contents_size(bytes, i) / 12
}

#[tactic(auto, using(file_words::proofs::BelowLaws::any_none, file_words::proofs::BelowLaws::any_step))]
fn any_row_fails(bytes: &[u8], kept: &[bool], i: u32) -> bool
    requires { kept.now ≡ table (stays bytes.now) (symbol_count bytes.now) }
    ensures { result ≡ any_below (bad_row bytes.now i) (contents_size bytes.now i / 12) }
{
    let mut fails = false;
    for r in 0..rows_in(bytes, i) {
        fails |= row_fails(bytes, kept, i, r);
    }
    fails
}

#[tactic(auto, unfolding(crate::specs::Refusals::bad_hybrid))]
fn section_fails(bytes: &[u8], kept: &[bool], i: u32) -> bool
    requires { kept.now ≡ table (stays bytes.now) (symbol_count bytes.now) }
    ensures { result ≡ bad_hybrid bytes.now i }
{
    is_hybrid(bytes, i) && (contents_size(bytes, i) % 12 != 0 || any_row_fails(bytes, kept, i))
}

/// Whether some hybrid rows are cut off, name no symbol of the object or have another kind.
#[tactic(auto, using(file_words::proofs::BelowLaws::any_none, file_words::proofs::BelowLaws::any_step), unfolding(crate::specs::Refusals::bad_hybrid_record))]
pub fn hybrid_fails(bytes: &[u8], kept: &[bool]) -> bool
    requires { kept.now ≡ table (stays bytes.now) (symbol_count bytes.now) }
    ensures { result ≡ bad_hybrid_record bytes.now }
{
    let mut fails = false;
    for i in 0..section_count(bytes) as u32 {
        fails |= section_fails(bytes, kept, i);
    }
    fails
}

/// Row r of section i.
#[tactic(auto, using(crate::proofs::PlaceLaws::source_counted, crate::proofs::PlaceLaws::thunk_counted), unfolding(crate::specs::Objects::hybrid_row))]
fn row_of(bytes: &[u8], numbers: &[u32], i: u32, r: u32) -> HybridRow
    requires numbers { numbers.now ≡ table (new_symbol bytes.now) (symbol_count bytes.now) }
    requires good { bad_hybrid_record bytes.now ≡ false }
    requires counted { i < section_count bytes.now }
    requires hybrid { is_hybrid bytes.now i ≡ true }
    requires inside { r < contents_size bytes.now i / 12 }
    ensures { result ≡ hybrid_row bytes.now i r }
{
    HybridRow {
        source: new_symbol(bytes, numbers, hybrid_source(bytes, i, r)),
        thunk: new_symbol(bytes, numbers, hybrid_thunk(bytes, i, r)),
        kind: hybrid_kind(bytes, i, r),
    }
}

/// The rows of section i.
#[tactic(auto, using(file_words::proofs::BelowLaws::table_step, file_words::proofs::BelowLaws::table_none), unfolding(crate::specs::Objects::hybrid_rows))]
fn rows_of(
    alloc: Global,
    bytes: &[u8],
    numbers: &[u32],
    i: u32,
) -> Result<Items<HybridRow>, AllocError>
    requires numbers { numbers.now ≡ table (new_symbol bytes.now) (symbol_count bytes.now) }
    requires good { bad_hybrid_record bytes.now ≡ false }
    requires counted { i < section_count bytes.now }
    requires hybrid { is_hybrid bytes.now i ≡ true }
    ensures { IfOk result (λ rows. rows ≡ hybrid_rows bytes.now i) }
{
    let mut rows = Items::new(alloc);
    for r in 0..rows_in(bytes, i) {
        rows.push(row_of(bytes, numbers, i, r))?;
    }
    Ok(rows)
}

/// The hybrid rows of the object.
#[tactic(auto, using(file_words::proofs::BelowLaws::gathered_none, file_words::proofs::BelowLaws::gathered_yes, file_words::proofs::BelowLaws::gathered_no))]
pub fn all_rows(
    alloc: Global,
    bytes: &[u8],
    numbers: &[u32],
) -> Result<Items<HybridRow>, AllocError>
    requires numbers { numbers.now ≡ table (new_symbol bytes.now) (symbol_count bytes.now) }
    requires good { bad_hybrid_record bytes.now ≡ false }
    ensures { IfOk result (λ rows. rows ≡ gathered (is_hybrid bytes.now) (hybrid_rows bytes.now) (section_count bytes.now)) }
{
    let mut rows = Items::new(alloc);
    for i in 0..section_count(bytes) as u32 {
        if is_hybrid(bytes, i) {
            rows.append(rows_of(alloc, bytes, numbers, i)?)?;
        }
    }
    Ok(rows)
}
