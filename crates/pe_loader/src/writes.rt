//! What the loader writes into regions, whatever their rights.

ghost use Rattle.std.specs.Prelude.{◌≡◌, ◌≤◌, ◌<◌, ◌+◌, ◌-◌, ◌^◌, length, option_map, MatchOption};
ghost use Rattle.hx_words.specs.LittleEndian.{number_of, bytes_of};
ghost use Rattle.hx_mem.specs.Space.{splice, end_of, has, read, read_in};
ghost use Rattle.hx_mem.specs.Found.{NoneHas, IsFoundAt};
ghost use Rattle.machine_rules.specs.Loads.{overwritten, relocated_at, relocated, with_service, bound};
ghost use Rattle.machine_rules.specs.Layout.{service_named as service_named_lem};
ghost use Rattle.pe_loader.specs.Loading.{Holds, SlotsHold};

use crate::services::{address_of, service_named};
use chpe_types::ImportSlot;
use hx_bits::{Width, read_number, write_number};
use hx_mem::Region;

/// Whether a region has an address.
#[tactic(auto, unfolding(hx_mem::specs::Space::has))]
fn has(region: &Region, at: u64) -> bool
    ensures { result ≡ has region.now at }
{
    region.start <= at && at - region.start < region.bytes.len() as u64
}

/// The place of the region that has an address.
fn region_at(regions: &[Region], at: u64) -> Option<usize>
    ensures { MatchOption result (NoneHas regions.now at) (IsFoundAt regions.now at) }
{
    regions.iter().position(|region| has(region, at))
}

/// The number of 8 bytes at an address of a region, where it has them all.
#[tactic(auto, unfolding(hx_mem::specs::Space::read_in))]
fn number_in(region: &Region, at: u64) -> Option<u64>
    requires from { region.now.start ≤ at }
    requires before { at < end_of region.now }
    ensures { result ≡ option_map number_of (read_in region.now at 8) }
{
    let from = (at - region.start) as usize;
    if region.bytes.len() - from < 8 {
        return None;
    }
    Some(read_number(&region.bytes[from..], Width::W64))
}

/// The number of 8 bytes at an address, where a region has them all.
fn number_at(regions: &[Region], at: u64) -> Option<u64>
    ensures { result ≡ option_map number_of (read regions.now at 8) }
{
    let i = region_at(regions, at)?;
    let region = &regions[i];
    number_in(region, at)
}

/// Writes a number over the 8 bytes from a place on.
fn write_at(bytes: &mut [u8], from: usize, v: u64)
    requires { from + 8 ≤ length bytes.old }
    ensures { bytes.new ≡ splice bytes.old from (bytes_of 8 v) }
{
    write_number(&mut bytes[from..], Width::W64, v);
}

/// Writes a number over the 8 bytes at an address of a region.
fn write_in(region: &mut Region, at: u64, v: u64)
    requires from { region.old.start ≤ at }
    requires fits { at + 8 ≤ end_of region.old }
    ensures { region.new ≡ record region.old { bytes = splice region.old.bytes (at - region.old.start) (bytes_of 8 v) } }
{
    let from = (at - region.start) as usize;
    write_at(&mut region.bytes, from, v);
}

/// Writes a number over the 8 bytes at an address.
fn write(regions: &mut [Region], at: u64, v: u64)
    requires { Holds regions.old at }
    ensures { regions.new ≡ overwritten regions.old at (bytes_of 8 v) }
{
    if let Some(i) = region_at(regions, at) {
        let region = &mut regions[i];
        write_in(region, at, v);
    }
}

/// Adds to the number at an address, modulo 2^64.
fn add(regions: &mut [Region], at: u64, delta: u64)
    ensures { regions.new ≡ relocated_at at delta regions.old }
{
    if let Some(v) = number_at(regions, at) {
        write(regions, at, v.wrapping_add(delta));
    }
}

/// Adds to the numbers at all sites of an image at a base, in order.
fn relocate(regions: &mut [Region], sites: &[u32], base: u64, delta: u64)
    requires { base ≤ 2 ^ 46 }
    ensures { regions.new ≡ relocated base delta sites.now regions.old }
{
    for site in sites {
        add(regions, base + *site as u64, delta);
    }
}

/// Writes the address of the service that a slot names into it.
fn bind_slot(regions: &mut [Region], slot: &ImportSlot, base: u64)
    requires base { base ≤ 2 ^ 46 }
    requires slot { Holds regions.old (base + slot.now.rva) }
    ensures { regions.new ≡ with_service (service_named_lem slot.now.name) (base + slot.now.rva) regions.old }
{
    if let Some(service) = service_named(slot.name.as_slice()) {
        write(regions, base + slot.rva as u64, address_of(service));
    }
}

/// Writes the services' addresses into the import slots of an image at a base, in order.
fn bind(regions: &mut [Region], imports: &[ImportSlot], base: u64)
    requires base { base ≤ 2 ^ 46 }
    requires slots { SlotsHold base imports.now regions.old }
    ensures { regions.new ≡ bound base imports.now regions.old }
{
    for slot in imports {
        bind_slot(regions, slot, base);
    }
}

/// Moves the addresses at the sites of an image to its base, and fills its import slots.
pub fn settle(regions: &mut [Region], sites: &[u32], imports: &[ImportSlot], base: u64, delta: u64)
    requires base { base ≤ 2 ^ 46 }
    requires slots { SlotsHold base imports.now regions.old }
    ensures { regions.new ≡ bound base imports.now (relocated base delta sites.now regions.old) }
{
    relocate(regions, sites, base, delta);
    bind(regions, imports, base);
}
