//! The writer.

ghost use Rattle.std.specs.Prelude.{◌≡◌, ◌+◌, ◌*◌, ◌++◌, ◌∷◌, [], ◌<◌, true, length, OnOk, Ok, IfOk};
ghost use Rattle.chpe_meta.specs.Allowed.{is_allowed};
ghost use Rattle.chpe_meta.specs.Reading.{meta_of};
ghost use Rattle.chpe_meta.specs.Format.{dword, range_row, redirect_row, function_row, range_rows, redirect_rows, function_rows, name_texts, names_size, redirects_place, rows_place, names_place, meta_size, header, meta_bytes};

use chpe_types::{CodeRange, FnRow, Meta, Redirect};
use hx_bits::{Width, write_number};
use std::alloc::{AllocError, Global};

fn put_dword(out: &mut Vec<u8>, n: u64) -> Result<(), AllocError>
    ensures { OnOk result (out.new.items ≡ out.old.items ++ dword n) }
{
    let mut field = [0; 4];
    write_number(&mut field, Width::W32, n);
    out.extend_from_slice(&field)?;
    Ok(())
}

#[tactic(auto, unfolding(crate::specs::Format::range_row))]
fn put_range(out: &mut Vec<u8>, r: &CodeRange) -> Result<(), AllocError>
    ensures { OnOk result (out.new.items ≡ out.old.items ++ range_row r.now) }
{
    put_dword(out, r.start as u64 + r.kind as u64)?;
    put_dword(out, r.length as u64)?;
    Ok(())
}

#[tactic(auto, unfolding(crate::specs::Format::redirect_row))]
fn put_redirect(out: &mut Vec<u8>, r: &Redirect) -> Result<(), AllocError>
    ensures { OnOk result (out.new.items ≡ out.old.items ++ redirect_row r.now) }
{
    put_dword(out, r.source as u64)?;
    put_dword(out, r.destination as u64)?;
    Ok(())
}

/// A row whose name stands at a place of the image.
#[tactic(auto, unfolding(crate::specs::Format::function_row))]
fn put_row(out: &mut Vec<u8>, name: u64, r: &FnRow) -> Result<(), AllocError>
    ensures { OnOk result (out.new.items ≡ out.old.items ++ function_row name r.now) }
{
    put_dword(out, r.kind as u64)?;
    put_dword(out, name)?;
    put_dword(out, r.start as u64)?;
    put_dword(out, r.end as u64)?;
    Ok(())
}

fn put_ranges(out: &mut Vec<u8>, ranges: &[CodeRange]) -> Result<(), AllocError>
    ensures { OnOk result (out.new.items ≡ out.old.items ++ range_rows ranges.now) }
{
    for r in ranges {
        put_range(out, r)?;
    }
    Ok(())
}

fn put_redirects(out: &mut Vec<u8>, redirects: &[Redirect]) -> Result<(), AllocError>
    ensures { OnOk result (out.new.items ≡ out.old.items ++ redirect_rows redirects.now) }
{
    for r in redirects {
        put_redirect(out, r)?;
    }
    Ok(())
}

fn put_rows(out: &mut Vec<u8>, names: u64, rows: &[FnRow]) -> Result<(), AllocError>
    requires { names + names_size rows.now < 4294967296 }
    ensures { OnOk result (out.new.items ≡ out.old.items ++ function_rows names rows.now) }
{
    let mut name = names;
    for r in rows {
        put_row(out, name, r)?;
        name += r.name.len() as u64 + 1;
    }
    Ok(())
}

fn put_name(out: &mut Vec<u8>, name: &[u8]) -> Result<(), AllocError>
    ensures { OnOk result (out.new.items ≡ out.old.items ++ (name.now ++ 0 ∷ [])) }
{
    out.extend_from_slice(name)?;
    out.push(0)?;
    Ok(())
}

fn put_names(out: &mut Vec<u8>, rows: &[FnRow]) -> Result<(), AllocError>
    ensures { OnOk result (out.new.items ≡ out.old.items ++ name_texts rows.now) }
{
    for r in rows {
        put_name(out, r.name.as_slice())?;
    }
    Ok(())
}

/// Where the three tables and the names begin in the image.
#[derive(Clone, Copy, Debug)]
struct Places {
    ranges: u64,
    redirects: u64,
    rows: u64,
    names: u64,
}

fn places_of(m: &Meta, at: u32) -> Places
    requires { at + meta_size m.now < 4294967296 }
    ensures ranges { result.ranges ≡ at + 28 }
    ensures redirects { result.redirects ≡ at + redirects_place m.now }
    ensures rows { result.rows ≡ at + rows_place m.now }
    ensures names { result.names ≡ at + names_place m.now }
{
    let ranges = at as u64 + 28;
    let redirects = ranges + 8 * m.ranges.len() as u64;
    let rows = redirects + 8 * m.redirects.len() as u64;
    Places {
        ranges,
        redirects,
        rows,
        names: rows + 16 * m.rows.len() as u64,
    }
}

#[tactic(auto, unfolding(crate::specs::Format::header))]
fn put_header(out: &mut Vec<u8>, m: &Meta, at: u32) -> Result<(), AllocError>
    requires { at + meta_size m.now < 4294967296 }
    ensures { OnOk result (out.new.items ≡ out.old.items ++ header m.now at) }
{
    let places = places_of(m, at);
    put_dword(out, 1)?;
    put_dword(out, places.ranges)?;
    put_dword(out, m.ranges.len() as u64)?;
    put_dword(out, places.redirects)?;
    put_dword(out, m.redirects.len() as u64)?;
    put_dword(out, places.rows)?;
    put_dword(out, m.rows.len() as u64)?;
    Ok(())
}

#[tactic(auto, unfolding(crate::specs::Format::meta_bytes))]
fn put_parts(out: &mut Vec<u8>, m: &Meta, at: u32) -> Result<(), AllocError>
    requires { at + meta_size m.now < 4294967296 }
    ensures { OnOk result (out.new.items ≡ out.old.items ++ meta_bytes m.now at) }
{
    let places = places_of(m, at);
    put_header(out, m, at)?;
    put_ranges(out, m.ranges.as_slice())?;
    put_redirects(out, m.redirects.as_slice())?;
    put_rows(out, places.names, m.rows.as_slice())?;
    put_names(out, m.rows.as_slice())?;
    Ok(())
}

/// The bytes of metadata whose header stands at a place of the image: the header, the tables and the
/// names.
/// What is written is read back as it was.
///
/// # Errors
///
/// `AllocError` where there is no memory for the bytes.
#[tactic(auto, using(crate::proofs::Written::spelled_is_read))]
pub fn write_meta(alloc: Global, m: &Meta, at: u32) -> Result<Vec<u8>, AllocError>
    requires allowed { is_allowed m.now ≡ true }
    requires fits { at + meta_size m.now < 4294967296 }
    ensures spelled { IfOk result (λ bytes. bytes.items ≡ meta_bytes m.now at) }
    ensures again { IfOk result (λ bytes. meta_of bytes.items at ≡ Ok m.now) }
{
    let mut out = Vec::new(alloc);
    put_parts(&mut out, m, at)?;
    Ok(out)
}
