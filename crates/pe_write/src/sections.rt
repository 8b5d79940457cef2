//! The section table and the contents.

ghost use Rattle.std.specs.Prelude.{◌≡◌, ◌+◌, ◌-◌, ◌*◌, ◌/◌, ◌++◌, ◌<◌, ◌≤◌, ◌^◌, length, OnOk, IfOk};
ghost use Rattle.pe_write_laws.specs.Format.{dword, zeros, blocks, headers_size, section_row, section_rows, padded, contents_size, contents, dos_header, coff_header, optional_header, headers, image_bytes};
ghost use Rattle.pe_write_laws.specs.Places.{import_place, config_place, blocks_place, blocks_size};

use crate::headers::{
    Places, blocks, contents_place, put_coff_header, put_dos_header, put_dword,
    put_optional_header, put_zeros,
};
use chpe_types::{Image, ImageSection};
use std::alloc::{AllocError, Global};

/// A name in 8 bytes.
fn put_name(out: &mut Vec<u8>, name: &[u8]) -> Result<(), AllocError>
    ensures { OnOk result (out.new.items ≡ out.old.items ++ (name.now ++ zeros (8 - length name.now))) }
{
    out.extend_from_slice(name)?;
    put_zeros(out, 8usize.saturating_sub(name.len()))?;
    Ok(())
}

/// What follows the place of the contents.
fn put_flags(out: &mut Vec<u8>, flags: u32) -> Result<(), AllocError>
    ensures { OnOk result (out.new.items ≡ out.old.items ++ (zeros 12 ++ dword flags)) }
{
    put_zeros(out, 12)?;
    put_dword(out, flags as u64)?;
    Ok(())
}

/// The header of a section whose contents stand at a place of the file.
#[tactic(auto, unfolding(pe_write_laws::specs::Format::section_row))]
fn put_section_row(out: &mut Vec<u8>, place: usize, s: &ImageSection) -> Result<(), AllocError>
    ensures { OnOk result (out.new.items ≡ out.old.items ++ section_row place s.now) }
{
    put_name(out, s.name.as_slice())?;
    put_dword(out, s.size as u64)?;
    put_dword(out, s.rva as u64)?;
    put_dword(out, s.bytes.len() as u64)?;
    put_dword(out, place as u64)?;
    put_flags(out, s.flags)?;
    Ok(())
}

fn put_section_rows(
    out: &mut Vec<u8>,
    start: usize,
    sections: &[ImageSection],
) -> Result<(), AllocError>
    requires { start + contents_size sections.now < 4294967296 }
    ensures { OnOk result (out.new.items ≡ out.old.items ++ section_rows start sections.now) }
{
    let mut place = start;
    for s in sections {
        put_section_row(out, place, s)?;
        place += blocks(s.bytes.len());
    }
    Ok(())
}

/// Bytes, and zeros up to a multiple of 512.
#[tactic(auto, unfolding(pe_write_laws::specs::Format::padded))]
fn put_padded(out: &mut Vec<u8>, bytes: &[u8]) -> Result<(), AllocError>
    requires { length bytes.now < 2 ^ 63 }
    ensures { OnOk result (out.new.items ≡ out.old.items ++ padded bytes.now) }
{
    out.extend_from_slice(bytes)?;
    put_zeros(out, blocks(bytes.len()) - bytes.len())?;
    Ok(())
}

fn put_contents(out: &mut Vec<u8>, sections: &[ImageSection]) -> Result<(), AllocError>
    requires { contents_size sections.now < 4294967296 }
    ensures { OnOk result (out.new.items ≡ out.old.items ++ contents sections.now) }
{
    for s in sections {
        put_padded(out, s.bytes.as_slice())?;
    }
    Ok(())
}

/// All that stands before the contents, up to the end of the section table.
#[tactic(auto, unfolding(pe_write_laws::specs::Format::headers))]
fn put_headers(out: &mut Vec<u8>, image: &Image, places: Places) -> Result<(), AllocError>
    requires count { length image.now.sections ≤ 94 }
    requires room { 4096 + contents_size image.now.sections < 4294967296 }
    requires imports { places.imports ≡ import_place image.now }
    requires blocks { places.blocks ≡ blocks_place image.now }
    requires size { places.blocks_size ≡ blocks_size image.now }
    requires config { places.config ≡ config_place image.now }
    ensures { OnOk result (out.new.items ≡ out.old.items ++ headers image.now) }
{
    put_dos_header(out)?;
    put_coff_header(out, image)?;
    put_optional_header(out, image, places)?;
    put_section_rows(out, contents_place(image), image.sections.as_slice())?;
    Ok(())
}

/// The file of an image whose directories are at these places.
#[tactic(auto, unfolding(pe_write_laws::specs::Format::image_bytes, pe_write_laws::specs::Format::padded))]
pub fn image_file(alloc: Global, image: &Image, places: Places) -> Result<Vec<u8>, AllocError>
    requires count { length image.now.sections ≤ 94 }
    requires room { 4096 + contents_size image.now.sections < 4294967296 }
    requires imports { places.imports ≡ import_place image.now }
    requires blocks { places.blocks ≡ blocks_place image.now }
    requires size { places.blocks_size ≡ blocks_size image.now }
    requires config { places.config ≡ config_place image.now }
    ensures { IfOk result (λ bytes. bytes.items ≡ image_bytes image.now) }
{
    let mut out = Vec::new(alloc);
    put_headers(&mut out, image, places)?;
    let len = out.len();
    put_zeros(&mut out, blocks(len) - len)?;
    put_contents(&mut out, image.sections.as_slice())?;
    Ok(out)
}
