//! The services that images import.

ghost use Rattle.std.specs.Prelude.{◌≡◌, option_map};
ghost use Rattle.machine_rules.specs.Layout.{service_named as service_named_lem, address_of as address_of_lem, services_of};
ghost use Rattle.pe_loader.specs.Refusals.{unknown_import};
ghost use Rattle.std.specs.Str.{bytes_eq};

use chpe_types::ImportSlot;
use machine_rules::places::{Service, Side};

/// The services for x64 code stand from here on, those for EC code from the next.
const X64_SERVICES: u64 = 0x7FFF_0000_0000;

const EC_SERVICES: u64 = 0x7FFF_0000_1000;

fn is_text(name: &[u8], text: &[u8]) -> bool
    ensures { result ≡ bytes_eq name.now text.now }
{
    name == text
}

/// The service of a name.
pub fn service_named(name: &[u8]) -> Option<Service>
    ensures { result ≡ service_named_lem name.now }
{
    if is_text(name, b"put_byte") {
        Some(Service::PutByte(Side::X64))
    } else if is_text(name, b"get_byte") {
        Some(Service::GetByte(Side::X64))
    } else if is_text(name, b"exit") {
        Some(Service::ExitGuest(Side::X64))
    } else if is_text(name, b"trap") {
        Some(Service::TrapGuest(Side::X64))
    } else if is_text(name, b"#put_byte") {
        Some(Service::PutByte(Side::Ec))
    } else if is_text(name, b"#get_byte") {
        Some(Service::GetByte(Side::Ec))
    } else if is_text(name, b"#exit") {
        Some(Service::ExitGuest(Side::Ec))
    } else if is_text(name, b"#trap") {
        Some(Service::TrapGuest(Side::Ec))
    } else if is_text(name, b"__os_arm64x_check_icall") {
        Some(Service::CheckCall)
    } else if is_text(name, b"__os_arm64x_dispatch_call_no_redirect") {
        Some(Service::DispatchCall)
    } else if is_text(name, b"__os_arm64x_dispatch_ret") {
        Some(Service::DispatchReturn)
    } else {
        None
    }
}

/// Where the services for a side begin.
fn services_of(side: Side) -> u64
    ensures { result ≡ services_of side }
{
    match side {
        Side::X64 => X64_SERVICES,
        Side::Ec => EC_SERVICES,
    }
}

/// The address of a service.
pub fn address_of(service: Service) -> u64
    ensures { result ≡ address_of_lem service }
{
    match service {
        Service::PutByte(side) => services_of(side) + 48,
        Service::GetByte(side) => services_of(side) + 64,
        Service::ExitGuest(side) => services_of(side) + 80,
        Service::TrapGuest(side) => services_of(side) + 96,
        Service::CheckCall => EC_SERVICES,
        Service::DispatchCall => EC_SERVICES + 16,
        Service::DispatchReturn => EC_SERVICES + 32,
    }
}

/// The name of the first import that is no service's.
pub fn unknown_import(imports: &[ImportSlot]) -> Option<&[u8]>
    ensures { option_map (λ name. name.now) result ≡ unknown_import imports.now }
{
    for slot in imports {
        if service_named(slot.name.as_slice()).is_none() {
            return Some(slot.name.as_slice());
        }
    }
    None
}
