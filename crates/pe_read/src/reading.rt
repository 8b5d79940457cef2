//! The reader.

ghost use Rattle.std.specs.Prelude.{◌≡◌, ◌≢◌, ◌<◌, find, None, false, true, IfOk};
ghost use Rattle.file_words.specs.Firsts.{NoneHolds, IsFirst};
ghost use Rattle.chpe_types.specs.Looks.{valid_meta_of};
ghost use Rattle.pe_fields.specs.Headers.{sections as file_sections};
ghost use Rattle.pe_read.specs.declared.refusal.ImageRefusal.{ImageRefusal as Refusal};
ghost use Rattle.pe_read.specs.declared.refusal.ImageRefusal.TheVariants.{NoMemory};
ghost use Rattle.pe_read.specs.Refusals.{bad_image_size, bad_section_range, bad_import, bad_base_relocation, bad_load_config, bad_entry_point, holds, refusals};
ghost use Rattle.pe_read.specs.Images.{imports as file_imports, sites as file_sites, image_in, image_of, Tells};
ghost use Rattle.pe_read.specs.Stages.{header_refusals, section_refusals, directory_refusals, meta_at, MetaTells};

use crate::directories::{
    base_relocation_fails, directory_fails, header_rva, import_fails, load_config_fails,
};
use crate::headers::{
    alignment_fails, dos_magic_fails, image_size_fails, is_short, is_too_large, is_used,
    machine_fails, magic_fails, optional_magic_fails, optional_size_fails, place_fails,
    section_range_fails, section_table_fails, stack_fails,
};
use crate::refusal::ImageRefusal;
use chpe_meta::{MetaRefusal, read_meta};
use chpe_types::{Image, ImageSection, ImportSlot, Meta};
use hx_words::Items;
use pe_fields::headers::{base, directory_rva, directory_size, entry, image_size, sections, stack};
use pe_fields::hybrid::{code_fails, entry_fails};
use pe_fields::imports::slots;
use pe_fields::relocations::sites;
use pe_fields::space::rest_at;
use std::alloc::{AllocError, Global};

/// The first refusal of those of the headers.
fn header_refusal(bytes: &[u8]) -> Option<ImageRefusal>
    ensures { result ≡ find (holds bytes.now) header_refusals }
{
    if is_too_large(bytes) {
        return Some(ImageRefusal::TooLarge);
    }
    if is_short(bytes) {
        return Some(ImageRefusal::Short);
    }
    if dos_magic_fails(bytes) {
        return Some(ImageRefusal::DosMagic);
    }
    if place_fails(bytes) {
        return Some(ImageRefusal::PeOffset);
    }
    if magic_fails(bytes) {
        return Some(ImageRefusal::PeMagic);
    }
    if machine_fails(bytes) {
        return Some(ImageRefusal::Machine);
    }
    if optional_size_fails(bytes) {
        return Some(ImageRefusal::OptionalSize);
    }
    if optional_magic_fails(bytes) {
        return Some(ImageRefusal::OptionalMagic);
    }
    if alignment_fails(bytes) {
        return Some(ImageRefusal::Alignment);
    }
    if image_size_fails(bytes) {
        return Some(ImageRefusal::ImageSize);
    }
    if stack_fails(bytes) {
        return Some(ImageRefusal::StackSize);
    }
    None
}

/// The first refusal of those of the section table.
fn section_refusal(bytes: &[u8]) -> Option<ImageRefusal>
    ensures { result ≡ find (holds bytes.now) section_refusals }
{
    if section_table_fails(bytes) {
        return Some(ImageRefusal::SectionTable);
    }
    if section_range_fails(bytes) {
        return Some(ImageRefusal::SectionRange);
    }
    None
}

/// The first refusal of those of the data directories.
fn directory_refusal(bytes: &[u8], sections: &[ImageSection]) -> Option<ImageRefusal>
    requires { sections.now ≡ file_sections bytes.now }
    ensures { result ≡ find (holds bytes.now) directory_refusals }
{
    if directory_fails(bytes, sections) {
        return Some(ImageRefusal::Directory);
    }
    if import_fails(bytes, sections) {
        return Some(ImageRefusal::Import);
    }
    if base_relocation_fails(bytes, sections) {
        return Some(ImageRefusal::BaseRelocation);
    }
    if load_config_fails(bytes, sections) {
        return Some(ImageRefusal::LoadConfig);
    }
    None
}

/// The metadata of a file whose directories can be read.
#[tactic(auto, using(crate::proofs::MetaLaws::read_valid, crate::proofs::MetaLaws::meta_read, crate::proofs::MetaLaws::code_refused, crate::proofs::MetaLaws::bytes_refused))]
fn meta_of(alloc: Global, bytes: &[u8], sections: &[ImageSection]) -> Result<Meta, ImageRefusal>
    requires known { sections.now ≡ file_sections bytes.now }
    requires good { bad_load_config bytes.now ≡ false }
    ensures { MetaTells bytes.now result }
{
    let at = header_rva(bytes, sections);
    match read_meta(alloc, rest_at(sections, at as u64), at) {
        Ok(meta) => {
            if code_fails(sections, &meta) {
                Err(ImageRefusal::Metadata)
            } else {
                Ok(meta)
            }
        }
        Err(MetaRefusal::Bad) => Err(ImageRefusal::Metadata),
        Err(MetaRefusal::NoMemory) => Err(ImageRefusal::NoMemory),
    }
}

/// Whether the entry point isn't x64 code.
#[tactic(auto, unfolding(crate::specs::Refusals::bad_entry_point, crate::specs::Stages::meta_at))]
fn entry_point_fails(bytes: &[u8], meta: &Meta) -> bool
    requires known { meta.now ≡ meta_at bytes.now }
    requires good { valid_meta_of meta.now ≡ true }
    ensures { result ≡ bad_entry_point bytes.now }
{
    entry_fails(meta, entry(bytes))
}

/// The slots of the imports, none where there are no imports.
#[tactic(auto, using(crate::proofs::SlotLaws::slots_low), unfolding(crate::specs::Images::imports))]
fn imports_of(
    alloc: Global,
    bytes: &[u8],
    sections: &[ImageSection],
) -> Result<Items<ImportSlot>, AllocError>
    requires known { sections.now ≡ file_sections bytes.now }
    requires size { bad_image_size bytes.now ≡ false }
    requires ranges { bad_section_range bytes.now ≡ false }
    requires good { bad_import bytes.now ≡ false }
    ensures { IfOk result (λ found. found ≡ file_imports bytes.now) }
{
    if !is_used(bytes, 1) {
        return Ok(Items::new(alloc));
    }
    let found = slots(alloc, sections, directory_rva(bytes, 1))?;
    Ok(found)
}

/// The sites of the base relocations, none where there are no relocations.
#[tactic(auto, using(crate::proofs::MetaLaws::used_blocks), unfolding(crate::specs::Images::sites))]
fn sites_of(
    alloc: Global,
    bytes: &[u8],
    sections: &[ImageSection],
) -> Result<Items<u32>, AllocError>
    requires known { sections.now ≡ file_sections bytes.now }
    requires good { bad_base_relocation bytes.now ≡ false }
    ensures { IfOk result (λ found. found ≡ file_sites bytes.now) }
{
    if !is_used(bytes, 5) {
        return Ok(Items::new(alloc));
    }
    let blocks = rest_at(sections, directory_rva(bytes, 5) as u64);
    let found = sites(alloc, blocks, directory_size(bytes, 5))?;
    Ok(found)
}

/// The image of its parts.
#[tactic(auto, unfolding(crate::specs::Images::image_in, crate::specs::Stages::meta_at))]
fn image(
    bytes: &[u8],
    sections: Items<ImageSection>,
    imports: Items<ImportSlot>,
    sites: Items<u32>,
    meta: Meta,
) -> Image
    requires sections { sections ≡ file_sections bytes.now }
    requires imports { imports ≡ file_imports bytes.now }
    requires sites { sites ≡ file_sites bytes.now }
    requires meta { meta ≡ meta_at bytes.now }
    ensures { result ≡ image_in bytes.now }
{
    Image {
        base: base(bytes),
        size: image_size(bytes),
        entry: entry(bytes),
        stack: stack(bytes),
        sections,
        imports,
        sites,
        meta,
    }
}

/// The image of a file whose directories can be read.
#[tactic(auto, using(crate::proofs::StageLaws::size_known, crate::proofs::StageLaws::range_known, crate::proofs::StageLaws::import_known, crate::proofs::StageLaws::blocks_known, crate::proofs::StageLaws::config_known, crate::proofs::StageLaws::meta_refused, crate::proofs::StageLaws::entry_refused, crate::proofs::StageLaws::is_read))]
fn read_parts(
    alloc: Global,
    bytes: &[u8],
    sections: Items<ImageSection>,
) -> Result<Image, ImageRefusal>
    requires known { sections ≡ file_sections bytes.now }
    requires headers { find (holds bytes.now) header_refusals ≡ None }
    requires tables { find (holds bytes.now) section_refusals ≡ None }
    requires directories { find (holds bytes.now) directory_refusals ≡ None }
    ensures { Tells result (image_of bytes.now) }
{
    let meta = meta_of(alloc, bytes, sections.as_slice())?;
    if entry_point_fails(bytes, &meta) {
        return Err(ImageRefusal::Entry);
    }
    let imports = imports_of(alloc, bytes, sections.as_slice())?;
    let sites = sites_of(alloc, bytes, sections.as_slice())?;
    Ok(image(bytes, sections, imports, sites, meta))
}

/// The image of a file whose sections can be read.
#[tactic(auto, using(crate::proofs::StageLaws::directories_refused))]
fn read_directories(alloc: Global, bytes: &[u8]) -> Result<Image, ImageRefusal>
    requires headers { find (holds bytes.now) header_refusals ≡ None }
    requires tables { find (holds bytes.now) section_refusals ≡ None }
    ensures { Tells result (image_of bytes.now) }
{
    let sections = sections(alloc, bytes)?;
    match directory_refusal(bytes, sections.as_slice()) {
        Some(refusal) => Err(refusal),
        None => read_parts(alloc, bytes, sections),
    }
}

/// The image of a file whose headers can be read.
#[tactic(auto, using(crate::proofs::StageLaws::sections_refused))]
fn read_sections(alloc: Global, bytes: &[u8]) -> Result<Image, ImageRefusal>
    requires { find (holds bytes.now) header_refusals ≡ None }
    ensures { Tells result (image_of bytes.now) }
{
    match section_refusal(bytes) {
        Some(refusal) => Err(refusal),
        None => read_directories(alloc, bytes),
    }
}

#[tactic(auto, using(crate::proofs::StageLaws::headers_refused))]
fn read_all(alloc: Global, bytes: &[u8]) -> Result<Image, ImageRefusal>
    ensures { Tells result (image_of bytes.now) }
{
    match header_refusal(bytes) {
        Some(refusal) => Err(refusal),
        None => read_sections(alloc, bytes),
    }
}

/// The image in a file, or the first refusal of the list that holds in the file. Only want of memory
/// may come in the place of either.
pub fn read(alloc: Global, bytes: &[u8]) -> Result<Image, ImageRefusal>
    ensures exact { Tells result (image_of bytes.now) }
    // A refusal holds in the file, and nothing before it in the list does.
    ensures refused { (k : Refusal) → result ≡ Err k → k ≢ NoMemory → IsFirst (holds bytes.now) refusals k }
    // What is accepted has none of them, and is the image of the file.
    ensures accepted { IfOk result (λ i. NoneHolds (holds bytes.now) refusals × (i ≡ image_in bytes.now)) }
{
    read_all(alloc, bytes)
}
