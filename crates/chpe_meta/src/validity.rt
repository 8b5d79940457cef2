//! Which metadata has bytes.

ghost use Rattle.std.specs.Prelude.{◌≡◌, ◌+◌, ◌*◌, ◌<◌, ◌≤◌, min, length, nat_lt};
ghost use Rattle.std.specs.List.{list_all};
ghost use Rattle.chpe_types.specs.Looks.{all_neighbours};
ghost use Rattle.chpe_meta.specs.Allowed.{starts_by, in_order, is_letter, has_range_row, has_redirect_row, has_function_row, has_rows, is_allowed};
ghost use Rattle.chpe_meta.specs.Format.{names_size, meta_size};

use chpe_types::{CodeRange, FnRow, Meta, Redirect, valid_meta};

/// One more than the greatest place in an image.
const END: u64 = 1 << 32;

fn starts_by(row: &FnRow, next: &FnRow) -> bool
    ensures { result ≡ starts_by row.now next.now }
{
    row.start <= next.start
}

fn rise(rows: &[FnRow]) -> bool
    ensures { result ≡ all_neighbours starts_by rows.now }
{
    rows.is_sorted_by(|row, next| starts_by(row, next))
}

/// Whether the ranges, the redirections and the rows are in order.
pub fn is_in_order(m: &Meta) -> bool
    ensures { result ≡ in_order m.now }
{
    valid_meta(m) && rise(m.rows.as_slice())
}

// The numbers of 32 bits are so by their types, which are known once they are read.
fn has_range_row(range: &CodeRange) -> bool
    ensures { result ≡ has_range_row range.now }
{
    let _length = range.length;
    range.start % 4 == 0
}

fn has_redirect_row(redirect: &Redirect) -> bool
    ensures { result ≡ has_redirect_row redirect.now }
{
    let _source = redirect.source;
    let _destination = redirect.destination;
    true
}

fn has_no_zero(name: &[u8]) -> bool
    ensures { result ≡ list_all is_letter name.now }
{
    name.iter().all(|c| *c != 0)
}

fn has_function_row(row: &FnRow) -> bool
    ensures { result ≡ has_function_row row.now }
{
    let _kind = row.kind;
    let _start = row.start;
    let _end = row.end;
    has_no_zero(row.name.as_slice())
}

fn have_range_rows(ranges: &[CodeRange]) -> bool
    ensures { result ≡ list_all has_range_row ranges.now }
{
    ranges.iter().all(|range| has_range_row(range))
}

fn have_redirect_rows(redirects: &[Redirect]) -> bool
    ensures { result ≡ list_all has_redirect_row redirects.now }
{
    redirects.iter().all(|redirect| has_redirect_row(redirect))
}

fn have_function_rows(rows: &[FnRow]) -> bool
    ensures { result ≡ list_all has_function_row rows.now }
{
    rows.iter().all(|row| has_function_row(row))
}

fn have_rows(m: &Meta) -> bool
    ensures { result ≡ has_rows m.now }
{
    have_range_rows(m.ranges.as_slice())
        && have_redirect_rows(m.redirects.as_slice())
        && have_function_rows(m.rows.as_slice())
}

/// Whether some bytes stand for the metadata, at some place: the tables are in order, the starts of
/// ranges are multiples of 4, whose two low bits a row has the kind in, and no name has a zero.
#[tactic(auto, unfolding(crate::specs::Allowed::is_allowed))]
pub fn allowed_meta(m: &Meta) -> bool
    ensures { result ≡ is_allowed m.now }
{
    is_in_order(m) && have_rows(m)
}

/// A sum, counted up to `END`.
fn capped_sum(total: u64, more: u64) -> u64
    requires { total ≤ 4294967296 }
    ensures value { result ≡ min (total + more) 4294967296 }
    ensures bound { result ≤ 4294967296 }
{
    (total + more.min(END)).min(END)
}

/// How many bytes the names have, or `END` where they have more.
fn names_len(rows: &[FnRow]) -> u64
    ensures value { result ≡ min (names_size rows.now) 4294967296 }
    ensures bound { result ≤ 4294967296 }
{
    let mut total = 0u64;
    for row in rows {
        let name = row.name.as_slice();
        total = capped_sum(total, name.len() as u64 + 1);
    }
    total
}

/// Whether the bytes of the metadata, from a place of the image on, end below 2^32.
pub fn meta_fits(m: &Meta, at: u32) -> bool
    ensures { result ≡ nat_lt (at + meta_size m.now) 4294967296 }
{
    let tables = (m.ranges.len() as u64).min(END)
        + (m.redirects.len() as u64).min(END)
        + 2 * (m.rows.len() as u64).min(END);
    at as u64 + 28 + 8 * tables + names_len(m.rows.as_slice()) < END
}
