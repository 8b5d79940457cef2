//! The base relocations: the bytes of the directory, whose size is known.

ghost use Rattle.std.specs.Prelude.{◌≡◌, ◌+◌, ◌-◌, ◌*◌, ◌/◌, ◌%◌, ◌<◌, IfOk, false};
ghost use Rattle.file_words.specs.Below.{any_below};
ghost use Rattle.pe_fields.specs.Relocations.{page_of, block_size, entry_count, entry_at, is_site, bad_type, site, bad_head, bad_block, block_sites, bad_relocations, sites};

use file_words::{u16_at, u32_at};
use hx_words::Items;
use std::alloc::{AllocError, Global};

/// The page of the block at a place.
#[tactic(auto, unfolding(crate::specs::Relocations::page_of))]
fn page_of(bytes: &[u8], place: u32) -> u32
    ensures { result ≡ page_of bytes.now place }
{
    u32_at(bytes, place as usize)
}

/// The size of the block at a place, with its header.
#[tactic(auto, unfolding(crate::specs::Relocations::block_size))]
pub fn block_size(bytes: &[u8], place: u32) -> u32
    ensures { result ≡ block_size bytes.now place }
{
    u32_at(bytes, place as usize + 4)
}

#[tactic(auto, unfolding(crate::specs::Relocations::entry_count))]
fn entry_count(bytes: &[u8], place: u32) -> u32
    ensures { result ≡ entry_count bytes.now place }
{
    block_size(bytes, place).saturating_sub(8) / 2
}

/// Entry e of the block at a place.
#[tactic(auto, unfolding(crate::specs::Relocations::entry_at))]
fn entry_at(bytes: &[u8], place: u32, e: u32) -> u16
    ensures { result ≡ entry_at bytes.now place e }
{
    u16_at(bytes, place as usize + 8 + 2 * e as usize)
}

#[tactic(auto, unfolding(crate::specs::Relocations::is_site))]
fn is_site(bytes: &[u8], place: u32, e: u32) -> bool
    ensures { result ≡ is_site bytes.now place e }
{
    entry_at(bytes, place, e) / 4096 == 10
}

#[tactic(auto, unfolding(crate::specs::Relocations::bad_type))]
fn type_fails(bytes: &[u8], place: u32, e: u32) -> bool
    ensures { result ≡ bad_type bytes.now place e }
{
    entry_at(bytes, place, e) / 4096 != 0 && !is_site(bytes, place, e)
}

#[tactic(auto, using(file_words::proofs::BelowLaws::any_none, file_words::proofs::BelowLaws::any_step))]
fn types_fail(bytes: &[u8], place: u32) -> bool
    ensures { result ≡ any_below (bad_type bytes.now place) (entry_count bytes.now place) }
{
    let mut fails = false;
    for e in 0..entry_count(bytes, place) {
        fails |= type_fails(bytes, place, e);
    }
    fails
}

/// Whether no block begins at a place with so many bytes left.
#[tactic(auto, unfolding(crate::specs::Relocations::bad_head))]
fn head_fails(bytes: &[u8], place: u32, left: u32) -> bool
    ensures { result ≡ bad_head bytes.now place left }
{
    let size = block_size(bytes, place);
    left < 8 || page_of(bytes, place) % 4096 != 0 || size < 8 || size % 4 != 0 || left < size
}

/// Whether no block stands at a place with so many bytes left.
#[tactic(auto, unfolding(crate::specs::Relocations::bad_block))]
pub fn block_fails(bytes: &[u8], place: u32, left: u32) -> bool
    ensures { result ≡ bad_block bytes.now place left }
{
    head_fails(bytes, place, left) || types_fail(bytes, place)
}

/// Whether a block of a directory of some size fails.
#[tactic(auto, using(crate::proofs::BlockLaws::first_place, crate::proofs::BlockLaws::next_place, crate::proofs::BlockLaws::none_yet, crate::proofs::BlockLaws::none_more, crate::proofs::BlockLaws::bad_here, crate::proofs::BlockLaws::none_later, crate::proofs::BlockLaws::fits), unfolding(crate::specs::Relocations::bad_relocations))]
pub fn relocations_fail(bytes: &[u8], size: u32) -> bool
    ensures { result ≡ bad_relocations bytes.now size }
{
    let mut place = 0u32;
    for _k in 0..size {
        if place >= size {
            return false;
        }
        if block_fails(bytes, place, size - place) {
            return true;
        }
        place += block_size(bytes, place);
    }
    false
}

/// The place of entry e of the block at a place, whose page is one.
#[tactic(auto, unfolding(crate::specs::Relocations::site))]
fn site(bytes: &[u8], place: u32, e: u32) -> u32
    requires { page_of bytes.now place % 4096 ≡ 0 }
    ensures { result ≡ site bytes.now place e }
{
    page_of(bytes, place) + (entry_at(bytes, place, e) % 4096) as u32
}

/// The sites of the block at a place.
#[tactic(auto, using(file_words::proofs::BelowLaws::chosen_none, file_words::proofs::BelowLaws::chosen_yes, file_words::proofs::BelowLaws::chosen_no), unfolding(crate::specs::Relocations::block_sites))]
pub fn block_sites(alloc: Global, bytes: &[u8], place: u32) -> Result<Items<u32>, AllocError>
    requires { page_of bytes.now place % 4096 ≡ 0 }
    ensures { IfOk result (λ found. found ≡ block_sites bytes.now place) }
{
    let mut found = Items::new(alloc);
    for e in 0..entry_count(bytes, place) {
        if is_site(bytes, place, e) {
            found.push(site(bytes, place, e))?;
        }
    }
    Ok(found)
}

/// The sites of a directory of some size that doesn't fail, in its order.
#[tactic(auto, using(crate::proofs::BlockLaws::first_place, crate::proofs::BlockLaws::next_place, crate::proofs::BlockLaws::good_block, crate::proofs::BlockLaws::fits, crate::proofs::BlockLaws::aligned, crate::proofs::BlockLaws::sites_none, crate::proofs::BlockLaws::sites_more, crate::proofs::BlockLaws::sites_later), unfolding(crate::specs::Relocations::sites))]
pub fn sites(alloc: Global, bytes: &[u8], size: u32) -> Result<Items<u32>, AllocError>
    requires { bad_relocations bytes.now size ≡ false }
    ensures { IfOk result (λ found. found ≡ sites bytes.now size) }
{
    let mut found = Items::new(alloc);
    let mut place = 0u32;
    for _k in 0..size {
        if place >= size {
            return Ok(found);
        }
        found.append(block_sites(alloc, bytes, place)?)?;
        place += block_size(bytes, place);
    }
    Ok(found)
}
