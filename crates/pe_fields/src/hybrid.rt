//! The load configuration and the hybrid metadata.

ghost use Rattle.std.specs.Prelude.{◌≡◌, ◌+◌, ◌-◌, ◌/◌, ◌<◌, true};
ghost use Rattle.std.specs.List.{list_any};
ghost use Rattle.chpe_types.specs.Looks.{all_neighbours, range_end, ends_by, valid_meta_of};
ghost use Rattle.pe_fields.specs.Hybrid.{config_size, meta_pointer, meta_rva, bad_config, is_outside, page_number, shares_page, any_pair, has_kind, is_astray, bad_code, bad_entry};
ghost use Rattle.pe_fields.specs.Stages.{shares_with};

use crate::headers::u64_at;
use crate::space::{is_code, is_mapped, rest_at};
use chpe_types::{CodeRange, ImageSection, Meta, Redirect, kind_at};
use file_words::u32_at;

/// The Size of the load configuration at a place.
#[tactic(auto, unfolding(crate::specs::Hybrid::config_size))]
fn config_size(sections: &[ImageSection], rva: u32) -> u32
    ensures { result ≡ config_size sections.now rva }
{
    u32_at(rest_at(sections, rva as u64), 0)
}

/// Its CHPEMetadataPointer.
#[tactic(auto, unfolding(crate::specs::Hybrid::meta_pointer))]
fn meta_pointer(sections: &[ImageSection], rva: u32) -> u64
    ensures { result ≡ meta_pointer sections.now rva }
{
    u64_at(rest_at(sections, rva as u64), 200)
}

/// The place of the metadata's header in an image of a base.
#[tactic(auto, unfolding(crate::specs::Hybrid::meta_rva))]
pub fn meta_rva(sections: &[ImageSection], base: u64, rva: u32) -> u64
    ensures { result ≡ meta_rva sections.now base rva }
{
    meta_pointer(sections, rva).saturating_sub(base)
}

/// Whether the load configuration at a place has under 208 bytes, or leads to no section.
#[tactic(auto, unfolding(crate::specs::Hybrid::bad_config))]
pub fn config_fails(sections: &[ImageSection], base: u64, rva: u32, size: u32) -> bool
    ensures { result ≡ bad_config sections.now base rva size }
{
    let place = meta_rva(sections, base, rva);
    size < 208
        || config_size(sections, rva) < 208
        || meta_pointer(sections, rva) < base
        || place > 0xFFFF_FFFF
        || !is_mapped(sections, place, 1)
}

fn is_outside(sections: &[ImageSection], range: &CodeRange) -> bool
    ensures { result ≡ is_outside sections.now range.now }
{
    !is_code(sections, range.start as u64, range.length as u64)
}

fn has_kind(kind: u8, found: Option<u8>) -> bool
    ensures { result ≡ has_kind kind found }
{
    match found {
        None => false,
        Some(other) => other == kind,
    }
}

fn is_astray(meta: &Meta, redirect: &Redirect) -> bool
    requires { valid_meta_of meta.now ≡ true }
    ensures { result ≡ is_astray meta.now.ranges redirect.now }
{
    !has_kind(2, kind_at(meta, redirect.source))
        || !has_kind(1, kind_at(meta, redirect.destination))
}

/// Whether the entry isn't x64 code.
#[tactic(auto, unfolding(crate::specs::Hybrid::bad_entry))]
pub fn entry_fails(meta: &Meta, entry: u32) -> bool
    requires { valid_meta_of meta.now ≡ true }
    ensures { result ≡ bad_entry meta.now entry }
{
    !has_kind(2, kind_at(meta, entry))
}

/// The first place past a range.
fn range_end(range: &CodeRange) -> u64
    ensures { result ≡ range_end range.now }
{
    range.start as u64 + range.length as u64
}

/// The number of the page of a place.
fn page_number(rva: u64) -> u64
    ensures { result ≡ page_number rva }
{
    rva / 4096
}

/// Whether a later range of another kind has a byte on the last page of this one.
fn shares_page(range: &CodeRange, later: &CodeRange) -> bool
    ensures { result ≡ shares_page range.now later.now }
{
    let start = later.start as u64;
    range.kind != later.kind
        && (range.start as u64) < range_end(range)
        && start < range_end(later)
        && page_number(start) <= page_number(range_end(range) - 1)
}

fn shares_with(last: Option<CodeRange>, range: &CodeRange) -> bool
    ensures { result ≡ shares_with last range.now }
{
    match last {
        None => false,
        Some(before) => shares_page(&before, range),
    }
}

/// Whether two kinds stand on one page, where the ranges are in order: the last range with bytes tells
/// what all before it do.
#[tactic(auto, using(crate::proofs::PageLaws::walk_done, crate::proofs::PageLaws::walk_some, crate::proofs::PageLaws::walk_none))]
fn any_shares(ranges: &[CodeRange]) -> bool
    requires { all_neighbours ends_by ranges.now ≡ true }
    ensures { result ≡ any_pair shares_page ranges.now }
{
    let mut found = false;
    let mut last = None;
    for range in ranges {
        if (range.start as u64) < range_end(range) {
            found |= shares_with(last, range);
            last = Some(*range);
        }
    }
    found
}

fn any_outside(sections: &[ImageSection], ranges: &[CodeRange]) -> bool
    ensures { result ≡ list_any (is_outside sections.now) ranges.now }
{
    ranges.iter().any(|range| is_outside(sections, range))
}

fn any_astray(meta: &Meta) -> bool
    requires { valid_meta_of meta.now ≡ true }
    ensures { result ≡ list_any (is_astray meta.now.ranges) meta.now.redirects }
{
    let mut found = false;
    for redirect in meta.redirects.as_slice() {
        found |= is_astray(meta, redirect);
    }
    found
}

/// Whether the code map or the redirections say what can't be of an image with these sections.
#[tactic(auto, using(crate::proofs::PageLaws::in_order), unfolding(crate::specs::Hybrid::bad_code))]
pub fn code_fails(sections: &[ImageSection], meta: &Meta) -> bool
    requires { valid_meta_of meta.now ≡ true }
    ensures { result ≡ bad_code sections.now meta.now }
{
    let ranges = meta.ranges.as_slice();
    any_outside(sections, ranges) || any_shares(ranges) || any_astray(meta)
}
