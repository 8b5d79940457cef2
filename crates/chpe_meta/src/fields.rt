//! The fields of metadata, whatever the bytes. The rows of each table are counted from 0.

ghost use Rattle.std.specs.Prelude.{◌≡◌, ◌+◌, ◌-◌, ◌*◌, ◌<◌, ◌^◌, length};
ghost use Rattle.file_words.specs.Below.{past_last};
ghost use Rattle.chpe_meta.specs.Fields.{version, ranges_rva, range_count, redirects_rva, redirect_count, rows_rva, row_count, range_place, raw_start, range, redirect_place, redirect, row_place, name_rva, name, passes, is_zero, open_name};

use chpe_types::{CodeRange, Redirect};
use file_words::{before_zero, part, u32_at};

/// The header's Version.
#[tactic(auto, unfolding(crate::specs::Fields::version))]
pub fn version(bytes: &[u8]) -> u32
    ensures { result ≡ version bytes.now }
{
    u32_at(bytes, 0)
}

/// The place of the code map in the image.
#[tactic(auto, unfolding(crate::specs::Fields::ranges_rva))]
pub fn ranges_rva(bytes: &[u8]) -> u32
    ensures { result ≡ ranges_rva bytes.now }
{
    u32_at(bytes, 4)
}

/// How many ranges the code map has.
#[tactic(auto, unfolding(crate::specs::Fields::range_count))]
pub fn range_count(bytes: &[u8]) -> u32
    ensures { result ≡ range_count bytes.now }
{
    u32_at(bytes, 8)
}

/// The place of the redirections in the image.
#[tactic(auto, unfolding(crate::specs::Fields::redirects_rva))]
pub fn redirects_rva(bytes: &[u8]) -> u32
    ensures { result ≡ redirects_rva bytes.now }
{
    u32_at(bytes, 12)
}

/// How many redirections there are.
#[tactic(auto, unfolding(crate::specs::Fields::redirect_count))]
pub fn redirect_count(bytes: &[u8]) -> u32
    ensures { result ≡ redirect_count bytes.now }
{
    u32_at(bytes, 16)
}

/// The place of the function table in the image.
#[tactic(auto, unfolding(crate::specs::Fields::rows_rva))]
pub fn rows_rva(bytes: &[u8]) -> u32
    ensures { result ≡ rows_rva bytes.now }
{
    u32_at(bytes, 20)
}

/// How many rows the function table has.
#[tactic(auto, unfolding(crate::specs::Fields::row_count))]
pub fn row_count(bytes: &[u8]) -> u32
    ensures { result ≡ row_count bytes.now }
{
    u32_at(bytes, 24)
}

/// Where row i of the code map stands.
#[tactic(auto, unfolding(crate::specs::Fields::range_place))]
fn range_place(bytes: &[u8], at: u32, i: u32) -> usize
    ensures value { result ≡ range_place bytes.now at i }
    ensures bound { result < 2 ^ 40 }
{
    ranges_rva(bytes).saturating_sub(at) as usize + 8 * i as usize
}

/// The start of range i, with the kind in its two low bits.
#[tactic(auto, unfolding(crate::specs::Fields::raw_start))]
fn raw_start(bytes: &[u8], at: u32, i: u32) -> u32
    ensures { result ≡ raw_start bytes.now at i }
{
    u32_at(bytes, range_place(bytes, at, i))
}

/// Range i of the code map.
#[tactic(auto, unfolding(crate::specs::Fields::range))]
pub fn range(bytes: &[u8], at: u32, i: u32) -> CodeRange
    ensures { result ≡ range bytes.now at i }
{
    let raw = raw_start(bytes, at, i);
    CodeRange {
        start: raw - raw % 4,
        length: u32_at(bytes, range_place(bytes, at, i) + 4),
        kind: (raw % 4) as u8,
    }
}

/// Where redirection i stands.
#[tactic(auto, unfolding(crate::specs::Fields::redirect_place))]
fn redirect_place(bytes: &[u8], at: u32, i: u32) -> usize
    ensures value { result ≡ redirect_place bytes.now at i }
    ensures bound { result < 2 ^ 40 }
{
    redirects_rva(bytes).saturating_sub(at) as usize + 8 * i as usize
}

/// Redirection i.
#[tactic(auto, unfolding(crate::specs::Fields::redirect))]
pub fn redirect(bytes: &[u8], at: u32, i: u32) -> Redirect
    ensures { result ≡ redirect bytes.now at i }
{
    let place = redirect_place(bytes, at, i);
    Redirect {
        source: u32_at(bytes, place),
        destination: u32_at(bytes, place + 4),
    }
}

/// Where row i of the function table stands.
#[tactic(auto, unfolding(crate::specs::Fields::row_place))]
pub fn row_place(bytes: &[u8], at: u32, i: u32) -> usize
    ensures value { result ≡ row_place bytes.now at i }
    ensures bound { result < 2 ^ 40 }
{
    rows_rva(bytes).saturating_sub(at) as usize + 16 * i as usize
}

/// The place of the name of row i in the image.
#[tactic(auto, unfolding(crate::specs::Fields::name_rva))]
fn name_rva(bytes: &[u8], at: u32, i: u32) -> u32
    ensures { result ≡ name_rva bytes.now at i }
{
    u32_at(bytes, row_place(bytes, at, i) + 4)
}

/// The name of row i, up to its zero.
#[tactic(auto, using(crate::proofs::FieldLaws::part_rest), unfolding(crate::specs::Fields::name))]
pub fn name(bytes: &[u8], at: u32, i: u32) -> &[u8]
    ensures { result.now ≡ name bytes.now at i }
{
    let place = name_rva(bytes, at, i).saturating_sub(at) as usize;
    before_zero(part(bytes, place, bytes.len()))
}

/// Whether so many bytes at a place of the image aren't in these bytes.
#[tactic(auto, unfolding(crate::specs::Fields::passes))]
pub fn passes(bytes: &[u8], at: u32, rva: u32, len: u64) -> bool
    requires { len < 2 ^ 40 }
    ensures { result ≡ passes bytes.now at rva len }
{
    rva < at || (bytes.len() as u64) < rva.saturating_sub(at) as u64 + len
}

/// One more than the place of the last zero; 0 where there is none.
#[tactic(auto, using(file_words::proofs::BelowLaws::last_none, file_words::proofs::BelowLaws::last_yes, file_words::proofs::BelowLaws::last_no), unfolding(crate::specs::Fields::is_zero))]
pub fn past_last_zero(bytes: &[u8]) -> usize
    ensures { result ≡ past_last (is_zero bytes.now) (length bytes.now) }
{
    let mut end = 0;
    for (k, c) in bytes.iter().enumerate() {
        if *c == 0 {
            end = k + 1;
        }
    }
    end
}

/// Whether the name of row i isn't closed in the bytes, whose last zero is known.
#[tactic(auto, using(crate::proofs::FieldLaws::name_before, crate::proofs::FieldLaws::name_open))]
pub fn is_open(bytes: &[u8], at: u32, end: usize, i: u32) -> bool
    requires { end ≡ past_last (is_zero bytes.now) (length bytes.now) }
    ensures { result ≡ open_name bytes.now at i }
{
    let rva = name_rva(bytes, at, i);
    if rva < at {
        return true;
    }
    end <= (rva - at) as usize
}
