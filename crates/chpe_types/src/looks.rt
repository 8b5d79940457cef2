//! What the metadata says of a place.

ghost use Rattle.std.specs.Prelude.{◌≡◌, IsTrue};
ghost use Rattle.std.specs.List.{list_all};
ghost use Rattle.chpe_types.specs.Looks.{all_neighbours, ends_by, has_side, valid_ranges, is_in, kind_in, valid_redirects, redirect_in, valid_meta_of, kind_of, redirect_of};

use crate::image::{CodeRange, Meta, Redirect};

/// Whether the tables of the metadata are in order: each range of the code map has a side and ends by
/// the start of the next, and the redirections rise by their sources, none of which comes twice.
pub fn valid_meta(m: &Meta) -> bool
    ensures { result ≡ valid_meta_of m.now }
{
    are_ranges(m.ranges.as_slice()) && rise(m.redirects.as_slice())
}

/// The side of the code at a place: 1 for Arm64EC, 2 for x64, and none outside every range.
pub fn kind_at(m: &Meta, rva: u32) -> Option<u8>
    requires { IsTrue (valid_meta_of m.now) }
    ensures { result ≡ kind_of m.now rva }
{
    let mut near = 0;
    kind_among(m.ranges.as_slice(), rva, &mut near)
}

/// The side of the code at a place, as [`kind_at`] tells it. `near` is a guess of the number of the range that has the
/// place, which is tried first: any number will do, and what is left there is a guess for the next call.
pub fn kind_near(m: &Meta, rva: u32, near: &mut usize) -> Option<u8>
    requires { IsTrue (valid_meta_of m.now) }
    ensures { result ≡ kind_of m.now rva }
{
    kind_guessed(m.ranges.as_slice(), rva, near)
}

/// The place of the EC code that the x64 code at a place stands for; none where no redirection has
/// this source.
pub fn redirect_of(m: &Meta, rva: u32) -> Option<u32>
    requires { IsTrue (valid_meta_of m.now) }
    ensures { result ≡ redirect_of m.now rva }
{
    redirect_among(m.redirects.as_slice(), rva)
}

fn has_side(range: &CodeRange) -> bool
    ensures { result ≡ has_side range.now }
{
    range.kind == 1 || range.kind == 2
}

fn ends_by(range: &CodeRange, next: &CodeRange) -> bool
    ensures { result ≡ ends_by range.now next.now }
{
    range.start as u64 + range.length as u64 <= next.start as u64
}

fn have_sides(ranges: &[CodeRange]) -> bool
    ensures { result ≡ list_all has_side ranges.now }
{
    ranges.iter().all(|range| has_side(range))
}

fn end_in_order(ranges: &[CodeRange]) -> bool
    ensures { result ≡ all_neighbours ends_by ranges.now }
{
    ranges.is_sorted_by(|range, next| ends_by(range, next))
}

fn are_ranges(ranges: &[CodeRange]) -> bool
    ensures { result ≡ valid_ranges ranges.now }
{
    have_sides(ranges) && end_in_order(ranges)
}

// Whether the redirections rise by their sources.
fn rise(redirects: &[Redirect]) -> bool
    ensures { result ≡ valid_redirects redirects.now }
{
    redirects.is_sorted_by(|redirect, next| redirect.source < next.source)
}

fn has(range: &CodeRange, rva: u32) -> bool
    ensures { result ≡ is_in range.now rva }
{
    range.start <= rva && rva - range.start < range.length
}

// The ranges share no place, so the guessed one tells the side where it has the place.
#[tactic(auto, using(crate::proofs::Points::kind_got))]
fn kind_guessed(ranges: &[CodeRange], rva: u32, near: &mut usize) -> Option<u8>
    requires { IsTrue (valid_ranges ranges.now) }
    ensures { result ≡ kind_in ranges.now rva }
{
    match ranges.get(*near) {
        Some(range) if has(range, rva) => Some(range.kind),
        _ => kind_among(ranges, rva, near),
    }
}

// The ranges are in order, so the last that starts by the place has it, or none. Its number is left in `near`.
fn kind_among(ranges: &[CodeRange], rva: u32, near: &mut usize) -> Option<u8>
    requires { IsTrue (valid_ranges ranges.now) }
    ensures { result ≡ kind_in ranges.now rva }
{
    let started = ranges.partition_point(|range| range.start <= rva);
    *near = started.saturating_sub(1);
    if started == 0 {
        return None;
    }
    let range = &ranges[started - 1];
    if has(range, rva) {
        Some(range.kind)
    } else {
        None
    }
}

fn redirect_among(redirects: &[Redirect], rva: u32) -> Option<u32>
    requires { IsTrue (valid_redirects redirects.now) }
    ensures { result ≡ redirect_in redirects.now rva }
{
    let started = redirects.partition_point(|redirect| redirect.source < rva);
    if started == redirects.len() {
        return None;
    }
    let redirect = &redirects[started];
    if redirect.source == rva {
        Some(redirect.destination)
    } else {
        None
    }
}
