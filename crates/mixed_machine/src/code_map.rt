//! What stands at an address of a loaded image.

ghost use Rattle.std.specs.Prelude.{◌≡◌, ◌-◌, IsTrue, if◌then◌else◌, Some, None};
ghost use Rattle.chpe_types.specs.Looks.{valid_meta_of};
ghost use Rattle.machine_rules.specs.Layout.{service_at as service_at_lem};
ghost use Rattle.machine_rules.specs.State.{is_near, side_of_kind as side_of_kind_lem, mapped_at as mapped_at_lem, place_at as place_at_lem, redirected as redirected_lem};
ghost use Rattle.mixed_machine.specs.Maps.{code_of};

use chpe_types::{Meta, kind_near, redirect_of};
use machine_rules::places::{Place, Service, Side};
use std::marker::Model;

/// The service at an address.
pub fn service_at(a: u64) -> Option<Service>
    ensures { result ≡ service_at_lem a }
{
    match a {
        0x7FFF_0000_0030 => Some(Service::PutByte(Side::X64)),
        0x7FFF_0000_0040 => Some(Service::GetByte(Side::X64)),
        0x7FFF_0000_0050 => Some(Service::ExitGuest(Side::X64)),
        0x7FFF_0000_0060 => Some(Service::TrapGuest(Side::X64)),
        0x7FFF_0000_1030 => Some(Service::PutByte(Side::Ec)),
        0x7FFF_0000_1040 => Some(Service::GetByte(Side::Ec)),
        0x7FFF_0000_1050 => Some(Service::ExitGuest(Side::Ec)),
        0x7FFF_0000_1060 => Some(Service::TrapGuest(Side::Ec)),
        0x7FFF_0000_1000 => Some(Service::CheckCall),
        0x7FFF_0000_1010 => Some(Service::DispatchCall),
        0x7FFF_0000_1020 => Some(Service::DispatchReturn),
        _ => None,
    }
}

/// The distance of an address from the base, where it is one of 32 bits.
fn rva_of(base: u64, a: u64) -> Option<u32>
    ensures { result ≡ (if is_near base a then Some (a - base) else None) }
{
    if a < base || a - base > u32::MAX as u64 {
        return None;
    }
    Some((a - base) as u32)
}

/// The side of a kind of the code map.
fn side_of_kind(kind: Option<u8>) -> Option<Side>
    ensures { result ≡ side_of_kind_lem kind }
{
    match kind {
        Some(1) => Some(Side::Ec),
        Some(2) => Some(Side::X64),
        _ => None,
    }
}

/// The side of the code at an address, by a guess of its range.
fn mapped_at(meta: &Meta, base: u64, a: u64, near: &mut usize) -> Option<Side>
    requires { IsTrue (valid_meta_of meta.now) }
    ensures { result ≡ mapped_at_lem (code_of meta.now base) a }
{
    match rva_of(base, a) {
        None => None,
        Some(rva) => side_of_kind(kind_near(meta, rva, near)),
    }
}

/// What stands at an address, by a guess of its range.
#[tactic(auto, unfolding(machine_rules::specs::State::place_at))]
fn place_in(meta: &Meta, base: u64, a: u64, near: &mut usize) -> Place
    requires { IsTrue (valid_meta_of meta.now) }
    ensures { result ≡ place_at_lem (code_of meta.now base) a }
{
    if let Some(service) = service_at(a) {
        return Place::AtService(service);
    }
    match mapped_at(meta, base, a, near) {
        Some(side) => Place::InRange(side),
        None => Place::Nowhere,
    }
}

/// The address of the EC function that an address stands for.
#[tactic(auto, unfolding(machine_rules::specs::State::redirected))]
fn redirected_in(meta: &Meta, base: u64, a: u64) -> Option<u64>
    requires { IsTrue (valid_meta_of meta.now) }
    ensures { result ≡ redirected_lem (code_of meta.now base) a }
{
    let rva = rva_of(base, a)?;
    let to = redirect_of(meta, rva)?;
    Some(base.wrapping_add(to as u64))
}

/// The code map and the redirections of an image at its base.
#[derive(Drop)]
pub struct CodeMap {
    meta: Meta,
    base: u64,
}

impl Model for CodeMap {
    ghost use Rattle.std.specs.Prelude.{IsTrue};
    ghost use Rattle.chpe_types.specs.Looks.{valid_meta_of};
    ghost use Rattle.machine_rules.specs.State.{Code};
    ghost use Rattle.mixed_machine.specs.Maps.{code_of};

    ghost Value = { Code };

    ghost view = { λ map. code_of map.meta map.base };

    ghost invariant = { λ map. IsTrue (valid_meta_of map.meta) };
}

impl CodeMap {
    /// The map of metadata in order.
    pub fn new(meta: Meta, base: u64) -> CodeMap
        requires { IsTrue (valid_meta_of meta) }
        ensures { result ≡ code_of meta base }
    {
        CodeMap { meta, base }
    }

    /// What stands at an address.
    pub fn place_at(&self, a: u64) -> Place
        ensures { result ≡ place_at_lem self.now a }
    {
        let mut near = 0;
        place_in(&self.meta, self.base, a, &mut near)
    }

    /// The same. `near` is a guess of the range of the address, which is tried first and left better; any number will do.
    pub fn place_near(&self, a: u64, near: &mut usize) -> Place
        ensures { result ≡ place_at_lem self.now a }
    {
        place_in(&self.meta, self.base, a, near)
    }

    /// The address of the EC function that an address stands for.
    pub fn redirected(&self, a: u64) -> Option<u64>
        ensures { result ≡ redirected_lem self.now a }
    {
        redirected_in(&self.meta, self.base, a)
    }
}
