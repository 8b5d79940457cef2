//! Whether what is read is what an image has.

ghost use Rattle.std.specs.Prelude.{◌≡◌};
ghost use Rattle.pe_fields.specs.Imports.{same_text};
ghost use Rattle.pe_write_laws.specs.Places.{same_lists, same_slot, same_range, same_redirect, same_row, same_meta};

use chpe_types::{CodeRange, FnRow, ImportSlot, Meta, Redirect};

fn is_same_text(text: &[u8], other: &[u8]) -> bool
    ensures { result ≡ same_text text.now other.now }
{
    text == other
}

fn is_same_slot(slot: &ImportSlot, other: &ImportSlot) -> bool
    ensures { result ≡ same_slot slot.now other.now }
{
    is_same_text(slot.name.as_slice(), other.name.as_slice()) && slot.rva == other.rva
}

fn is_same_range(range: &CodeRange, other: &CodeRange) -> bool
    ensures { result ≡ same_range range.now other.now }
{
    range.start == other.start && range.length == other.length && range.kind == other.kind
}

fn is_same_redirect(redirect: &Redirect, other: &Redirect) -> bool
    ensures { result ≡ same_redirect redirect.now other.now }
{
    redirect.source == other.source && redirect.destination == other.destination
}

fn is_same_row(row: &FnRow, other: &FnRow) -> bool
    ensures { result ≡ same_row row.now other.now }
{
    row.kind == other.kind
        && is_same_text(row.name.as_slice(), other.name.as_slice())
        && row.start == other.start
        && row.end == other.end
}

#[tactic(auto, using(crate::proofs::SameLaws::same_lengths))]
pub fn are_same_slots(left: &[ImportSlot], right: &[ImportSlot]) -> bool
    ensures { result ≡ same_lists same_slot left.now right.now }
{
    if left.len() != right.len() {
        return false;
    }
    for (k, slot) in left.iter().enumerate() {
        if !is_same_slot(slot, &right[k]) {
            return false;
        }
    }
    true
}

#[tactic(auto, using(crate::proofs::SameLaws::same_lengths))]
fn are_same_ranges(left: &[CodeRange], right: &[CodeRange]) -> bool
    ensures { result ≡ same_lists same_range left.now right.now }
{
    if left.len() != right.len() {
        return false;
    }
    for (k, range) in left.iter().enumerate() {
        if !is_same_range(range, &right[k]) {
            return false;
        }
    }
    true
}

#[tactic(auto, using(crate::proofs::SameLaws::same_lengths))]
fn are_same_redirects(left: &[Redirect], right: &[Redirect]) -> bool
    ensures { result ≡ same_lists same_redirect left.now right.now }
{
    if left.len() != right.len() {
        return false;
    }
    for (k, redirect) in left.iter().enumerate() {
        if !is_same_redirect(redirect, &right[k]) {
            return false;
        }
    }
    true
}

#[tactic(auto, using(crate::proofs::SameLaws::same_lengths))]
fn are_same_rows(left: &[FnRow], right: &[FnRow]) -> bool
    ensures { result ≡ same_lists same_row left.now right.now }
{
    if left.len() != right.len() {
        return false;
    }
    for (k, row) in left.iter().enumerate() {
        if !is_same_row(row, &right[k]) {
            return false;
        }
    }
    true
}

/// Whether two images have the same metadata.
pub fn is_same_meta(meta: &Meta, other: &Meta) -> bool
    ensures { result ≡ same_meta meta.now other.now }
{
    are_same_ranges(meta.ranges.as_slice(), other.ranges.as_slice())
        && are_same_redirects(meta.redirects.as_slice(), other.redirects.as_slice())
        && are_same_rows(meta.rows.as_slice(), other.rows.as_slice())
}
