//! The headers of a file.

ghost use Rattle.std.specs.Prelude.{◌≡◌, ◌+◌, ◌-◌, ◌*◌, ◌/◌, ◌++◌, ◌<◌, ◌≤◌, ◌^◌, length, OnOk};
ghost use Rattle.pe_write_laws.specs.Places.{import_place, config_place, blocks_place, blocks_size};
ghost use Rattle.pe_write_laws.specs.Format.{word, dword, qword, zeros, blocks, dos_header, coff_header, headers_size, standard_fields, size_fields, stack_fields, directory, late_directories, directories, optional_header};

use chpe_types::Image;
use hx_bits::{Width, write_number};
use std::alloc::AllocError;

pub fn put_word(out: &mut Vec<u8>, n: u64) -> Result<(), AllocError>
    ensures { OnOk result (out.new.items ≡ out.old.items ++ word n) }
{
    let mut field = [0; 2];
    write_number(&mut field, Width::W16, n);
    out.extend_from_slice(&field)?;
    Ok(())
}

pub fn put_dword(out: &mut Vec<u8>, n: u64) -> Result<(), AllocError>
    ensures { OnOk result (out.new.items ≡ out.old.items ++ dword n) }
{
    let mut field = [0; 4];
    write_number(&mut field, Width::W32, n);
    out.extend_from_slice(&field)?;
    Ok(())
}

fn put_qword(out: &mut Vec<u8>, n: u64) -> Result<(), AllocError>
    ensures { OnOk result (out.new.items ≡ out.old.items ++ qword n) }
{
    let mut field = [0; 8];
    write_number(&mut field, Width::W64, n);
    out.extend_from_slice(&field)?;
    Ok(())
}

#[tactic(auto, using(crate::proofs::ZeroLaws::zeros_none, crate::proofs::ZeroLaws::zeros_step))]
pub fn put_zeros(out: &mut Vec<u8>, count: usize) -> Result<(), AllocError>
    ensures { OnOk result (out.new.items ≡ out.old.items ++ zeros count) }
{
    for _i in 0..count {
        out.push(0)?;
    }
    Ok(())
}

/// Up to the next multiple of 512.
pub fn blocks(len: usize) -> usize
    requires { len < 2 ^ 63 }
    ensures value { result ≡ blocks len }
    ensures more { len ≤ result }
{
    (len + 511) / 512 * 512
}

#[tactic(auto, unfolding(pe_write_laws::specs::Format::dos_header))]
pub fn put_dos_header(out: &mut Vec<u8>) -> Result<(), AllocError>
    ensures { OnOk result (out.new.items ≡ out.old.items ++ dos_header) }
{
    put_word(out, 0x5A4D)?;
    put_zeros(out, 58)?;
    put_dword(out, 64)?;
    Ok(())
}

/// The signature and the COFF header.
#[tactic(auto, unfolding(pe_write_laws::specs::Format::coff_header))]
pub fn put_coff_header(out: &mut Vec<u8>, image: &Image) -> Result<(), AllocError>
    ensures { OnOk result (out.new.items ≡ out.old.items ++ coff_header image.now) }
{
    put_dword(out, 0x4550)?;
    put_word(out, 0x8664)?;
    put_word(out, image.sections.len() as u64)?;
    put_zeros(out, 12)?;
    put_word(out, 240)?;
    put_word(out, 0x22)?;
    Ok(())
}

#[tactic(auto, unfolding(pe_write_laws::specs::Format::standard_fields))]
fn put_standard_fields(out: &mut Vec<u8>, image: &Image) -> Result<(), AllocError>
    ensures { OnOk result (out.new.items ≡ out.old.items ++ standard_fields image.now) }
{
    put_word(out, 0x20B)?;
    put_zeros(out, 14)?;
    put_dword(out, image.entry as u64)?;
    put_zeros(out, 4)?;
    put_qword(out, image.base)?;
    put_dword(out, 4096)?;
    Ok(())
}

/// Where the contents begin: after the headers, at a multiple of 512.
pub fn contents_place(image: &Image) -> usize
    requires { length image.now.sections ≤ 94 }
    ensures value { result ≡ blocks (headers_size image.now) }
    ensures bound { result ≤ 4096 }
{
    blocks(328 + 40 * image.sections.len())
}

#[tactic(auto, unfolding(pe_write_laws::specs::Format::size_fields))]
fn put_size_fields(out: &mut Vec<u8>, image: &Image) -> Result<(), AllocError>
    requires { length image.now.sections ≤ 94 }
    ensures { OnOk result (out.new.items ≡ out.old.items ++ size_fields image.now) }
{
    put_dword(out, 512)?;
    put_zeros(out, 16)?;
    put_dword(out, image.size as u64)?;
    put_dword(out, contents_place(image) as u64)?;
    put_zeros(out, 4)?;
    Ok(())
}

#[tactic(auto, unfolding(pe_write_laws::specs::Format::stack_fields))]
fn put_stack_fields(out: &mut Vec<u8>, image: &Image) -> Result<(), AllocError>
    ensures { OnOk result (out.new.items ≡ out.old.items ++ stack_fields image.now) }
{
    put_word(out, 3)?;
    put_word(out, 0x160)?;
    put_qword(out, image.stack)?;
    put_zeros(out, 28)?;
    put_dword(out, 16)?;
    Ok(())
}

/// A directory at a place; 0 stands for none.
fn put_directory(out: &mut Vec<u8>, place: u32, size: u32) -> Result<(), AllocError>
    ensures { OnOk result (out.new.items ≡ out.old.items ++ directory place size) }
{
    put_dword(out, place as u64)?;
    put_dword(out, if place == 0 { 0 } else { size as u64 })?;
    Ok(())
}

/// Where the directories of an image are.
#[derive(Clone, Copy, Debug)]
pub struct Places {
    pub imports: u32,
    pub blocks: u32,
    pub blocks_size: u32,
    pub config: u32,
}

/// The directories after that of the base relocations.
#[tactic(auto, unfolding(pe_write_laws::specs::Format::late_directories))]
fn put_late_directories(out: &mut Vec<u8>, image: &Image, config: u32) -> Result<(), AllocError>
    requires { config ≡ config_place image.now }
    ensures { OnOk result (out.new.items ≡ out.old.items ++ late_directories image.now) }
{
    put_zeros(out, 32)?;
    put_directory(out, config, 208)?;
    put_zeros(out, 40)?;
    Ok(())
}

#[tactic(auto, unfolding(pe_write_laws::specs::Format::directories))]
fn put_directories(out: &mut Vec<u8>, image: &Image, places: Places) -> Result<(), AllocError>
    requires imports { places.imports ≡ import_place image.now }
    requires blocks { places.blocks ≡ blocks_place image.now }
    requires size { places.blocks_size ≡ blocks_size image.now }
    requires config { places.config ≡ config_place image.now }
    ensures { OnOk result (out.new.items ≡ out.old.items ++ directories image.now) }
{
    put_zeros(out, 8)?;
    put_directory(out, places.imports, 40)?;
    put_zeros(out, 24)?;
    put_directory(out, places.blocks, places.blocks_size)?;
    put_late_directories(out, image, places.config)?;
    Ok(())
}

#[tactic(auto, unfolding(pe_write_laws::specs::Format::optional_header))]
pub fn put_optional_header(
    out: &mut Vec<u8>,
    image: &Image,
    places: Places,
) -> Result<(), AllocError>
    requires count { length image.now.sections ≤ 94 }
    requires imports { places.imports ≡ import_place image.now }
    requires blocks { places.blocks ≡ blocks_place image.now }
    requires size { places.blocks_size ≡ blocks_size image.now }
    requires config { places.config ≡ config_place image.now }
    ensures { OnOk result (out.new.items ≡ out.old.items ++ optional_header image.now) }
{
    put_standard_fields(out, image)?;
    put_size_fields(out, image)?;
    put_stack_fields(out, image)?;
    put_directories(out, image, places)?;
    Ok(())
}
