//! The reader.

ghost use Rattle.std.specs.Prelude.{◌≡◌, ◌+◌, ◌*◌, ◌<◌, IfOk};
ghost use Rattle.file_words.specs.Below.{table};
ghost use Rattle.chpe_meta.specs.Fields.{range_count, redirect_count, row_count, range, redirect, row};
ghost use Rattle.chpe_meta.specs.Reading.{bad_header, bad_tables, bad_names, bad_places, meta_in, meta_of, Tells};

use crate::fields::{
    is_open, name, passes, past_last_zero, range, range_count, ranges_rva, redirect,
    redirect_count, redirects_rva, row_count, row_place, rows_rva, version,
};
use crate::refusal::MetaRefusal;
use crate::validity::is_in_order;
use chpe_types::{CodeRange, FnRow, Meta, Redirect};
use file_words::u32_at;
use hx_words::Items;
use std::alloc::{AllocError, Global};

/// Whether the header passes the end or is of another version.
#[tactic(auto, unfolding(crate::specs::Reading::bad_header))]
fn header_fails(bytes: &[u8]) -> bool
    ensures { result ≡ bad_header bytes.now }
{
    bytes.len() < 28 || version(bytes) != 1
}

/// Whether a table isn't in the bytes.
#[tactic(auto, unfolding(crate::specs::Reading::bad_tables))]
fn tables_fail(bytes: &[u8], at: u32) -> bool
    ensures { result ≡ bad_tables bytes.now at }
{
    passes(bytes, at, ranges_rva(bytes), 8 * range_count(bytes) as u64)
        || passes(
            bytes,
            at,
            redirects_rva(bytes),
            8 * redirect_count(bytes) as u64,
        )
        || passes(bytes, at, rows_rva(bytes), 16 * row_count(bytes) as u64)
}

/// Whether a name isn't in the bytes.
#[tactic(auto, using(file_words::proofs::BelowLaws::any_none, file_words::proofs::BelowLaws::any_step), unfolding(crate::specs::Reading::bad_names))]
fn names_fail(bytes: &[u8], at: u32) -> bool
    ensures { result ≡ bad_names bytes.now at }
{
    let end = past_last_zero(bytes);
    let mut fails = false;
    for i in 0..row_count(bytes) {
        fails |= is_open(bytes, at, end, i);
    }
    fails
}

/// Whether the header, a table or a name isn't in the bytes.
#[tactic(auto, unfolding(crate::specs::Reading::bad_places))]
fn places_fail(bytes: &[u8], at: u32) -> bool
    ensures { result ≡ bad_places bytes.now at }
{
    header_fails(bytes) || tables_fail(bytes, at) || names_fail(bytes, at)
}

#[tactic(auto, using(file_words::proofs::BelowLaws::table_step, file_words::proofs::BelowLaws::table_none))]
fn ranges_of(alloc: Global, bytes: &[u8], at: u32) -> Result<Items<CodeRange>, AllocError>
    ensures { IfOk result (λ ranges. ranges ≡ table (range bytes.now at) (range_count bytes.now)) }
{
    let mut ranges = Items::new(alloc);
    for i in 0..range_count(bytes) {
        ranges.push(range(bytes, at, i))?;
    }
    Ok(ranges)
}

#[tactic(auto, using(file_words::proofs::BelowLaws::table_step, file_words::proofs::BelowLaws::table_none))]
fn redirects_of(alloc: Global, bytes: &[u8], at: u32) -> Result<Items<Redirect>, AllocError>
    ensures { IfOk result (λ redirects. redirects ≡ table (redirect bytes.now at) (redirect_count bytes.now)) }
{
    let mut redirects = Items::new(alloc);
    for i in 0..redirect_count(bytes) {
        redirects.push(redirect(bytes, at, i))?;
    }
    Ok(redirects)
}

#[tactic(auto, unfolding(crate::specs::Fields::row))]
fn row_of(alloc: Global, bytes: &[u8], at: u32, i: u32) -> Result<FnRow, AllocError>
    ensures { IfOk result (λ r. r ≡ row bytes.now at i) }
{
    let place = row_place(bytes, at, i);
    let name = Items::from_slice(alloc, name(bytes, at, i))?;
    Ok(FnRow {
        kind: u32_at(bytes, place),
        name,
        start: u32_at(bytes, place + 8),
        end: u32_at(bytes, place + 12),
    })
}

#[tactic(auto, using(file_words::proofs::BelowLaws::table_step, file_words::proofs::BelowLaws::table_none))]
fn rows_of(alloc: Global, bytes: &[u8], at: u32) -> Result<Items<FnRow>, AllocError>
    ensures { IfOk result (λ rows. rows ≡ table (row bytes.now at) (row_count bytes.now)) }
{
    let mut rows = Items::new(alloc);
    for i in 0..row_count(bytes) {
        rows.push(row_of(alloc, bytes, at, i)?)?;
    }
    Ok(rows)
}

/// What the tables say, where the bytes hold them.
#[tactic(auto, unfolding(crate::specs::Reading::meta_in))]
fn tables_of(alloc: Global, bytes: &[u8], at: u32) -> Result<Meta, AllocError>
    ensures { IfOk result (λ m. m ≡ meta_in bytes.now at) }
{
    let ranges = ranges_of(alloc, bytes, at)?;
    let redirects = redirects_of(alloc, bytes, at)?;
    let rows = rows_of(alloc, bytes, at)?;
    Ok(Meta {
        ranges,
        redirects,
        rows,
    })
}

/// The metadata in the bytes from its header on, which stands at a place of the image. The bytes are
/// refused exactly where they are no metadata. Only want of memory may come in the place of either.
#[tactic(auto, using(crate::proofs::ReadLaws::places_refused, crate::proofs::ReadLaws::order_refused, crate::proofs::ReadLaws::is_read))]
pub fn read_meta(alloc: Global, bytes: &[u8], at: u32) -> Result<Meta, MetaRefusal>
    ensures { Tells result (meta_of bytes.now at) }
{
    if places_fail(bytes, at) {
        return Err(MetaRefusal::Bad);
    }
    let meta = tables_of(alloc, bytes, at)?;
    if is_in_order(&meta) {
        Ok(meta)
    } else {
        Err(MetaRefusal::Bad)
    }
}
