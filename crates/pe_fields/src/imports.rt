//! The import directory.

ghost use Rattle.std.specs.Prelude.{◌≡◌, ◌+◌, ◌*◌, ◌<◌, ◌^◌, IfOk, IfSome};
ghost use Rattle.file_words.specs.Below.{any_below, table};
ghost use Rattle.pe_fields.specs.Imports.{lookup_rva, library_rva, address_rva, is_more, low_at, high_at, is_last, entry_count, lookup_bytes, count_or_none, differs, bad_name, bad_tables, bad_count, same_text, bad_library, bad_imports, slot, slots};

use crate::space::{has_text, is_mapped, rest_at, text_at};
use chpe_types::{ImageSection, ImportSlot};
use file_words::u32_at;
use hx_words::Items;
use std::alloc::{AllocError, Global};

/// The place of the lookup table of the descriptor at a place.
#[tactic(auto, unfolding(crate::specs::Imports::lookup_rva))]
fn lookup_rva(sections: &[ImageSection], rva: u32) -> u32
    ensures { result ≡ lookup_rva sections.now rva }
{
    u32_at(rest_at(sections, rva as u64), 0)
}

/// The place of the library's name.
#[tactic(auto, unfolding(crate::specs::Imports::library_rva))]
fn library_rva(sections: &[ImageSection], rva: u32) -> u32
    ensures { result ≡ library_rva sections.now rva }
{
    u32_at(rest_at(sections, rva as u64), 12)
}

/// The place of the address table.
#[tactic(auto, unfolding(crate::specs::Imports::address_rva))]
fn address_rva(sections: &[ImageSection], rva: u32) -> u32
    ensures { result ≡ address_rva sections.now rva }
{
    u32_at(rest_at(sections, rva as u64), 16)
}

#[tactic(auto, unfolding(crate::specs::Imports::is_more))]
fn is_more(sections: &[ImageSection], rva: u32, k: u32) -> bool
    ensures { result ≡ is_more sections.now rva k }
{
    u32_at(rest_at(sections, rva as u64), 20 + 4 * k as usize) != 0
}

/// Whether the descriptor after the one at a place isn't zero.
#[tactic(auto, using(file_words::proofs::BelowLaws::any_none, file_words::proofs::BelowLaws::any_step))]
fn any_more(sections: &[ImageSection], rva: u32) -> bool
    ensures { result ≡ any_below (is_more sections.now rva) 5 }
{
    let mut more = false;
    for k in 0..5 {
        more |= is_more(sections, rva, k);
    }
    more
}

/// The low 32 bits of entry k of a table.
#[tactic(auto, unfolding(crate::specs::Imports::low_at))]
fn low_at(table: &[u8], k: u32) -> u32
    ensures { result ≡ low_at table.now k }
{
    u32_at(table, 8 * k as usize)
}

#[tactic(auto, unfolding(crate::specs::Imports::high_at))]
fn high_at(table: &[u8], k: u32) -> u32
    ensures { result ≡ high_at table.now k }
{
    u32_at(table, 8 * k as usize + 4)
}

#[tactic(auto, unfolding(crate::specs::Imports::is_last))]
fn is_last(table: &[u8], k: u32) -> bool
    ensures { result ≡ is_last table.now k }
{
    low_at(table, k) == 0 && high_at(table, k) == 0
}

/// How many entries stand before the first zero of a table.
#[tactic(auto, using(file_words::proofs::BelowLaws::first_none, file_words::proofs::BelowLaws::first_kept, crate::proofs::ImportLaws::first_is), unfolding(crate::specs::Imports::entry_count))]
fn entry_count(table: &[u8]) -> Option<u32>
    ensures value { result ≡ entry_count table.now }
    ensures bound { IfSome result (λ n. n < 16777216) }
{
    for k in 0..16_777_216 {
        if is_last(table, k) {
            return Some(k);
        }
    }
    None
}

#[tactic(auto, unfolding(crate::specs::Imports::differs))]
fn differs(table: &[u8], other: &[u8], k: u32) -> bool
    ensures { result ≡ differs table.now other.now k }
{
    low_at(table, k) != low_at(other, k) || high_at(table, k) != high_at(other, k)
}

#[tactic(auto, unfolding(crate::specs::Imports::bad_name))]
fn name_fails(sections: &[ImageSection], table: &[u8], k: u32) -> bool
    ensures { result ≡ bad_name sections.now table.now k }
{
    high_at(table, k) != 0 || !has_text(sections, low_at(table, k), 2)
}

#[tactic(auto, using(file_words::proofs::BelowLaws::any_none, file_words::proofs::BelowLaws::any_step))]
fn any_differs(table: &[u8], other: &[u8], count: u32) -> bool
    ensures { result ≡ any_below (differs table.now other.now) count }
{
    let mut found = false;
    for k in 0..count {
        found |= differs(table, other, k);
    }
    found
}

#[tactic(auto, using(file_words::proofs::BelowLaws::any_none, file_words::proofs::BelowLaws::any_step))]
fn any_name_fails(sections: &[ImageSection], table: &[u8], count: u32) -> bool
    ensures { result ≡ any_below (bad_name sections.now table.now) count }
{
    let mut found = false;
    for k in 0..count {
        found |= name_fails(sections, table, k);
    }
    found
}

/// Whether the two tables, of so many entries and a zero, aren't in sections, differ, or name what
/// isn't there.
#[tactic(auto, unfolding(crate::specs::Imports::bad_tables))]
fn tables_fail(sections: &[ImageSection], rva: u32, count: u32) -> bool
    requires { count < 16777216 }
    ensures { result ≡ bad_tables sections.now rva count }
{
    let lookup = lookup_rva(sections, rva) as u64;
    let address = address_rva(sections, rva) as u64;
    let len = 8 * count as u64 + 8;
    !is_mapped(sections, lookup, len)
        || !is_mapped(sections, address, len)
        || any_differs(
            rest_at(sections, lookup),
            rest_at(sections, address),
            count + 1,
        )
        || any_name_fails(sections, rest_at(sections, lookup), count)
}

#[tactic(auto, unfolding(crate::specs::Imports::bad_count))]
fn count_fails(sections: &[ImageSection], rva: u32, count: Option<u32>) -> bool
    requires { IfSome count (λ n. n < 16777216) }
    ensures { result ≡ bad_count sections.now rva count }
{
    match count {
        None => true,
        Some(n) => tables_fail(sections, rva, n),
    }
}

/// Whether two texts are the same.
fn same_text(text: &[u8], other: &[u8]) -> bool
    ensures { result ≡ same_text text.now other.now }
{
    text == other
}

#[tactic(auto, unfolding(crate::specs::Imports::bad_library))]
fn library_fails(sections: &[ImageSection], rva: u32) -> bool
    ensures { result ≡ bad_library sections.now rva }
{
    let place = library_rva(sections, rva);
    !has_text(sections, place, 0) || !same_text(text_at(sections, place as u64), b"ecrt.dll")
}

/// Whether the directory at a place isn't one descriptor of the known library and a zero one.
#[tactic(auto, unfolding(crate::specs::Imports::bad_imports))]
pub fn imports_fail(sections: &[ImageSection], rva: u32, size: u32) -> bool
    ensures { result ≡ bad_imports sections.now rva size }
{
    let lookup = rest_at(sections, lookup_rva(sections, rva) as u64);
    size != 40
        || any_more(sections, rva)
        || library_fails(sections, rva)
        || count_fails(sections, rva, entry_count(lookup))
}

/// Slot k of the directory at a place.
#[tactic(auto, unfolding(crate::specs::Imports::slot))]
fn slot(
    alloc: Global,
    sections: &[ImageSection],
    rva: u32,
    k: u32,
) -> Result<ImportSlot, AllocError>
    requires { address_rva sections.now rva + 8 * k < 2 ^ 32 }
    ensures { IfOk result (λ s. s ≡ slot sections.now rva k) }
{
    let lookup = rest_at(sections, lookup_rva(sections, rva) as u64);
    let place = low_at(lookup, k) as u64 + 2;
    let name = Items::from_slice(alloc, text_at(sections, place))?;
    Ok(ImportSlot {
        name,
        rva: address_rva(sections, rva) + 8 * k,
    })
}

/// How many slots the directory at a place has, where it doesn't fail.
fn slot_count(sections: &[ImageSection], rva: u32) -> u32
    ensures value { result ≡ count_or_none (entry_count (lookup_bytes sections.now rva)) }
    ensures bound { result < 16777216 }
{
    match entry_count(rest_at(sections, lookup_rva(sections, rva) as u64)) {
        None => 0,
        Some(n) => n,
    }
}

/// The slots of the directory at a place, which doesn't fail and whose slots end below 2^32.
#[tactic(auto, using(file_words::proofs::BelowLaws::table_step, file_words::proofs::BelowLaws::table_none), unfolding(crate::specs::Imports::slots))]
pub fn slots(
    alloc: Global,
    sections: &[ImageSection],
    rva: u32,
) -> Result<Items<ImportSlot>, AllocError>
    requires { address_rva sections.now rva + 8 * count_or_none (entry_count (lookup_bytes sections.now rva)) < 2 ^ 32 }
    ensures { IfOk result (λ found. found ≡ slots sections.now rva) }
{
    let mut found = Items::new(alloc);
    for k in 0..slot_count(sections, rva) {
        found.push(slot(alloc, sections, rva, k)?)?;
    }
    Ok(found)
}
