//! Where the directories of an image are.

ghost use Rattle.std.specs.Prelude.{◌≡◌, ◌+◌, ◌*◌, ◌++◌, ◌<◌, ◌≤◌, ◌^◌, ◌==◌, ◌&&◌, ℕ, List, length, true, IfOk, IfSome, IfNone};
ghost use Rattle.file_words.specs.Below.{first_below};
ghost use Rattle.pe_write_laws.specs.Places.{or_zero, is_import_place, found_imports, import_place, has_meta, is_config_place, config_place, size_at, is_blocks_place, found_blocks, blocks_place, blocks_size};
ghost use Rattle.pe_fields.specs.Imports.{same_text};
ghost use Rattle.pe_fields.specs.Space.{is_mapped};

use crate::same::{are_same_slots, is_same_meta};
use chpe_meta::{MetaRefusal, read_meta};
use chpe_types::Image;
use pe_fields::hybrid::{code_fails, config_fails, meta_rva};
use pe_fields::imports::{imports_fail, slots};
use pe_fields::relocations::{block_fails, block_sites, block_size};
use pe_fields::space::{is_mapped, rest_at};
use std::alloc::{AllocError, Global};

/// Whether the metadata whose header is at a place is that of the image.
#[tactic(auto, using(crate::proofs::PlaceLaws::read_valid, crate::proofs::PlaceLaws::other_code, crate::proofs::PlaceLaws::good_code, crate::proofs::PlaceLaws::no_meta))]
fn has_meta(alloc: Global, image: &Image, at: u32) -> Result<bool, AllocError>
    ensures { IfOk result (λ found. found ≡ has_meta image.now at) }
{
    let sections = image.sections.as_slice();
    match read_meta(alloc, rest_at(sections, at as u64), at) {
        Ok(meta) => {
            if code_fails(sections, &meta) {
                Ok(false)
            } else {
                Ok(is_same_meta(&meta, &image.meta))
            }
        }
        Err(MetaRefusal::Bad) => Ok(false),
        Err(MetaRefusal::NoMemory) => Err(AllocError),
    }
}

/// Whether the load configuration at a place leads to the metadata of the image.
#[tactic(auto, using(crate::proofs::PlaceLaws::pointer_fits))]
fn is_config_place(alloc: Global, image: &Image, place: u32) -> Result<bool, AllocError>
    ensures { IfOk result (λ found. found ≡ is_config_place image.now place) }
{
    let sections = image.sections.as_slice();
    if !is_mapped(sections, place as u64, 208) {
        return Ok(false);
    }
    if config_fails(sections, image.base, place, 208) {
        return Ok(false);
    }
    let at = meta_rva(sections, image.base, place) as u32;
    let found = has_meta(alloc, image, at)?;
    Ok(found)
}

/// The first place of such a load configuration, or 0.
#[tactic(auto, using(file_words::proofs::BelowLaws::first_none, file_words::proofs::BelowLaws::first_kept, crate::proofs::PlaceLaws::config_first, crate::proofs::PlaceLaws::config_none))]
pub fn config_place(alloc: Global, image: &Image) -> Result<u32, AllocError>
    ensures { IfOk result (λ place. place ≡ config_place image.now) }
{
    for place in 0..image.size {
        if is_config_place(alloc, image, place)? {
            return Ok(place);
        }
    }
    Ok(0)
}

/// Whether the import directory at a place names the slots of the image, whose sections end by 2^27.
#[tactic(auto, using(crate::proofs::SlotLaws::slots_low))]
fn is_import_place(alloc: Global, image: &Image, place: u32) -> Result<bool, AllocError>
    requires { (rva n : ℕ) → is_mapped image.now.sections rva n ≡ true → rva + n ≤ 134217728 }
    ensures { IfOk result (λ found. found ≡ is_import_place image.now place) }
{
    let sections = image.sections.as_slice();
    if !is_mapped(sections, place as u64, 40) {
        return Ok(false);
    }
    if imports_fail(sections, place, 40) {
        return Ok(false);
    }
    let found = slots(alloc, sections, place)?;
    Ok(are_same_slots(found.as_slice(), image.imports.as_slice()))
}

#[tactic(auto, using(file_words::proofs::BelowLaws::first_none, file_words::proofs::BelowLaws::first_kept, crate::proofs::PlaceLaws::imports_first, crate::proofs::PlaceLaws::imports_none))]
fn found_imports(alloc: Global, image: &Image) -> Result<u32, AllocError>
    requires { (rva n : ℕ) → is_mapped image.now.sections rva n ≡ true → rva + n ≤ 134217728 }
    ensures { IfOk result (λ place. place ≡ found_imports image.now) }
{
    for place in 0..image.size {
        if is_import_place(alloc, image, place)? {
            return Ok(place);
        }
    }
    Ok(0)
}

/// The first place of such an import directory, or 0 where the image has no slots.
#[tactic(auto, using(crate::proofs::PlaceLaws::imports_unused, crate::proofs::PlaceLaws::imports_used))]
pub fn import_place(alloc: Global, image: &Image) -> Result<u32, AllocError>
    requires { (rva n : ℕ) → is_mapped image.now.sections rva n ≡ true → rva + n ≤ 134217728 }
    ensures { IfOk result (λ place. place ≡ import_place image.now) }
{
    if image.imports.len() == 0 {
        return Ok(0);
    }
    let place = found_imports(alloc, image)?;
    Ok(place)
}

fn are_same_sites(sites: &[u32], other: &[u32]) -> bool
    ensures { result ≡ same_text sites.now other.now }
{
    sites == other
}

/// What of the sites is left after those of a block, or that it has others.
#[tactic(auto, using(crate::proofs::SiteLaws::front_short, crate::proofs::SiteLaws::front_other))]
fn sites_after<'a>(left: &'a [u32], found: &[u32]) -> Option<&'a [u32]>
    ensures some { IfSome result (λ rest. found.now ++ rest.now ≡ left.now) }
    ensures none { IfNone result ((rest : List ℕ) → found.now ++ rest ≡ left.now → ⊥) }
{
    if left.len() < found.len() {
        return None;
    }
    if !are_same_sites(&left[..found.len()], found) {
        return None;
    }
    Some(&left[found.len()..])
}

/// Whether no site is left, and the blocks at a place lie in a section.
fn is_whole(image: &Image, left: &[u32], place: u32, end: u32) -> bool
    ensures { result ≡ ((length left.now == 0) && is_mapped image.now.sections place end) }
{
    left.len() == 0 && is_mapped(image.sections.as_slice(), place as u64, end as u64)
}

/// The least size of blocks at a place that have the sites of the image.
#[tactic(auto, using(pe_fields::proofs::BlockLaws::fits, pe_fields::proofs::BlockLaws::aligned, crate::proofs::BlockWalk::walk_found, crate::proofs::BlockWalk::walk_ended, crate::proofs::BlockWalk::walk_bad))]
fn size_at(alloc: Global, image: &Image, place: u32) -> Result<Option<u32>, AllocError>
    ensures { IfOk result (λ size. size ≡ size_at image.now place) }
{
    let blocks = rest_at(image.sections.as_slice(), place as u64);
    let mut left = image.sites.as_slice();
    let mut end = 0u32;
    for _k in 0..image.size {
        if end >= image.size {
            return Ok(None);
        }
        if is_whole(image, left, place, end) {
            return Ok(Some(end));
        }
        if block_fails(blocks, end, image.size - end) {
            return Ok(None);
        }
        let found = block_sites(alloc, blocks, end)?;
        match sites_after(left, found.as_slice()) {
            None => return Ok(None),
            Some(rest) => left = rest,
        }
        end += block_size(blocks, end);
    }
    Ok(None)
}

fn is_blocks_place(alloc: Global, image: &Image, place: u32) -> Result<bool, AllocError>
    ensures { IfOk result (λ found. found ≡ is_blocks_place image.now place) }
{
    let size = size_at(alloc, image, place)?;
    Ok(size.is_some())
}

#[tactic(auto, using(file_words::proofs::BelowLaws::first_none, file_words::proofs::BelowLaws::first_kept, crate::proofs::SiteLaws::blocks_first, crate::proofs::SiteLaws::blocks_none))]
fn found_blocks(alloc: Global, image: &Image) -> Result<u32, AllocError>
    ensures { IfOk result (λ place. place ≡ found_blocks image.now) }
{
    for start in 0..image.size {
        if is_blocks_place(alloc, image, start)? {
            return Ok(start);
        }
    }
    Ok(0)
}

/// The first place of such blocks, or 0 where the image has no sites.
#[tactic(auto, using(crate::proofs::SiteLaws::blocks_unused, crate::proofs::SiteLaws::blocks_used))]
pub fn blocks_place(alloc: Global, image: &Image) -> Result<u32, AllocError>
    ensures { IfOk result (λ place. place ≡ blocks_place image.now) }
{
    if image.sites.len() == 0 {
        return Ok(0);
    }
    let place = found_blocks(alloc, image)?;
    Ok(place)
}

fn or_zero(size: Option<u32>) -> u32
    ensures { result ≡ or_zero size }
{
    match size {
        None => 0,
        Some(n) => n,
    }
}

/// The size of the blocks at their place.
#[tactic(auto, using(crate::proofs::SiteLaws::size_unused, crate::proofs::SiteLaws::size_used))]
pub fn blocks_size(alloc: Global, image: &Image, place: u32) -> Result<u32, AllocError>
    requires { place ≡ blocks_place image.now }
    ensures { IfOk result (λ size. size ≡ blocks_size image.now) }
{
    if image.sites.len() == 0 {
        return Ok(0);
    }
    let size = size_at(alloc, image, place)?;
    Ok(or_zero(size))
}
