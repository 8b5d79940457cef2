//! Sections as regions of memory.

ghost use Rattle.std.specs.Prelude.{◌≡◌, ◌≤◌, ◌<◌, ◌+◌, ◌^◌, IfOk, None, length};
ghost use Rattle.machine_rules.specs.Loads.{contents_of, segment_of as segment_of_lem, segments_of as segments_of_lem, mapped, no_memory};
ghost use Rattle.pe_loader.specs.Loading.{HoldNoMore, StandFrom};
ghost use Rattle.pe_loader.specs.Refusals.{lies_in, lies_in_one, bad_site};
ghost use Rattle.hx_mem.specs.Refusals.{EndBy};

use chpe_types::ImageSection;
use hx_bits::field;
use hx_mem::{Memory, Region};
use std::alloc::{AllocError, Global};

/// Whether the 8 bytes at a place lie in a section.
fn lies_in(s: &ImageSection, rva: u32) -> bool
    ensures { result ≡ lies_in rva s.now }
{
    s.rva <= rva && rva as u64 + 8 <= s.rva as u64 + s.size as u64
}

/// Whether the 8 bytes at a place lie in one section.
fn lies_in_one(sections: &[ImageSection], rva: u32) -> bool
    ensures { result ≡ lies_in_one sections.now rva }
{
    sections.iter().any(|s| lies_in(s, rva))
}

/// The first place to be relocated whose 8 bytes don't lie in one section.
pub fn bad_site(sections: &[ImageSection], sites: &[u32]) -> Option<u32>
    ensures { result ≡ bad_site sections.now sites.now }
{
    for site in sites {
        if !lies_in_one(sections, *site) {
            return Some(*site);
        }
    }
    None
}

/// The bytes of a section in memory: its contents, and zeros to its end.
#[tactic(auto, unfolding(machine_rules::specs::Loads::zeros))]
fn contents_of(alloc: Global, s: &ImageSection) -> Result<Vec<u8>, AllocError>
    requires { length s.now.bytes ≤ s.now.size }
    ensures { IfOk result (λ bytes. bytes.items ≡ contents_of s.now) }
{
    let mut bytes = Vec::from_slice(alloc, s.bytes.as_slice())?;
    bytes.resize(s.size as usize, 0)?;
    Ok(bytes)
}

/// A section as a region of an image at a base.
fn region_of(alloc: Global, s: &ImageSection, base: u64) -> Result<Region, AllocError>
    requires base { base ≤ 2 ^ 46 }
    requires size { length s.now.bytes ≤ s.now.size }
    ensures { IfOk result (λ r. r ≡ segment_of_lem base s.now) }
{
    Ok(Region {
        start: base + s.rva as u64,
        bytes: contents_of(alloc, s)?,
        write: field::<31, 1>(s.flags) == 1,
        exec: field::<29, 1>(s.flags) == 1,
    })
}

/// All sections, in their order.
pub fn regions_of(
    alloc: Global,
    sections: &[ImageSection],
    base: u64,
) -> Result<Vec<Region>, AllocError>
    requires base { base ≤ 2 ^ 46 }
    requires sizes { HoldNoMore sections.now }
    ensures { IfOk result (λ rs. rs.items ≡ segments_of_lem base sections.now) }
{
    let mut regions = Vec::new(alloc);
    for s in sections {
        regions.push(region_of(alloc, s, base)?)?;
    }
    Ok(regions)
}

/// A memory of the regions alone, which stand in order.
pub fn memory_of(alloc: Global, regions: Vec<Region>) -> Result<Memory, AllocError>
    requires { StandFrom 0 (2 ^ 46) regions.items }
    ensures value { IfOk result (λ m. m ≡ mapped regions.items no_memory) }
    ensures low { IfOk result (λ m. EndBy m.regions (2 ^ 46)) }
    ensures guard { IfOk result (λ m. m.guard ≡ None) }
{
    let mut mem = Memory::new(alloc);
    for region in regions {
        mem.add(region)?;
    }
    Ok(mem)
}
