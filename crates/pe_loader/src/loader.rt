//! The load of an image.

ghost use Rattle.std.specs.Prelude.{◌≡◌, IfOk, IfErr, IsTrue};
ghost use Rattle.machine_rules.specs.Loads.{base_allowed, loaded_segments};
ghost use Rattle.pe_loader.specs.Refusals.{Loads, Refuses};
ghost use Rattle.pe_loader.specs.Loading.{CanLoad, IsLoadedOf, IsWhole};

use crate::base::base_ok;
use crate::meta::copy_meta;
use crate::refusal::LoadRefusal;
use crate::regions::{bad_site, memory_of, regions_of};
use crate::services::unknown_import;
use crate::writes::settle;
use chpe_types::{Image, Meta};
use hx_mem::{Memory, Region};
use std::alloc::{AllocError, Global};

/// An image in memory: what a machine needs to run it.
#[derive(Drop)]
pub struct Loaded {
    /// The sections at their addresses.
    pub mem: Memory,
    /// The image's metadata.
    pub meta: Meta,
    /// The address of the image's first byte.
    pub base: u64,
    /// The address of the first instruction.
    pub entry: u64,
    /// The bytes of the stack.
    pub stack: u64,
}

/// The sections of an image at a base, relocated and bound.
fn regions_at(alloc: Global, i: &Image, base: u64) -> Result<Vec<Region>, AllocError>
    requires image { CanLoad i.now }
    requires base { IsTrue (base_allowed i.now.size base) }
    ensures { IfOk result (λ rs. rs.items ≡ loaded_segments i.now base) }
{
    let mut regions = regions_of(alloc, i.sections.as_slice(), base)?;
    let delta = base.wrapping_sub(i.base);
    settle(
        &mut regions,
        i.sites.as_slice(),
        i.imports.as_slice(),
        base,
        delta,
    );
    Ok(regions)
}

/// Loads an image at a base.
///
/// # Errors
/// The first that holds of: `BadBase` where [`base_ok`] is false; `UnknownImport` with the name of the
/// first import that is no service's; `BadRelocation` with the first place to be relocated whose 8
/// bytes aren't in one section; and `NoMemory`.
#[tactic(auto, unfolding(machine_rules::specs::Loads::loaded))]
pub fn load(alloc: Global, i: &Image, base: u64) -> Result<Loaded, LoadRefusal>
    requires { CanLoad i.now }
    ensures loads { IfOk result (λ l. Loads i.now base) }
    ensures loaded { IfOk result (IsLoadedOf i.now base) }
    ensures whole { IfOk result IsWhole }
    ensures refused { IfErr result (Refuses i.now base) }
{
    if !base_ok(i.size, base) {
        return Err(LoadRefusal::BadBase);
    }
    if let Some(name) = unknown_import(i.imports.as_slice()) {
        return Err(LoadRefusal::UnknownImport(Vec::from_slice(alloc, name)?));
    }
    if let Some(rva) = bad_site(i.sections.as_slice(), i.sites.as_slice()) {
        return Err(LoadRefusal::BadRelocation(rva));
    }
    let regions = regions_at(alloc, i, base)?;
    let meta = copy_meta(alloc, &i.meta)?;
    Ok(Loaded {
        mem: memory_of(alloc, regions)?,
        meta,
        base,
        entry: base + i.entry as u64,
        stack: i.stack,
    })
}
