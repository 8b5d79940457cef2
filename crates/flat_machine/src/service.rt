//! The services of the outside that x64 code calls.

ghost use Rattle.std.specs.Prelude.{◌≡◌};
ghost use Rattle.flat_machine.specs.Layout.{service_at as service_at_lem};

/// The services stand from here on.
pub const SERVICES_BASE: u64 = 0x7FFF_0000_0000;

/// A service that x64 code calls.
#[derive(Clone, Copy, Debug, PartialEq, Eq)]
pub enum Service {
    /// Puts the low 8 bits of rcx.
    PutByte,
    /// Gives a byte of the input in rax, or 2^64 - 1 at its end.
    GetByte,
    /// Ends with the low 8 bits of rcx.
    ExitGuest,
    /// Traps with the low 8 bits of rcx.
    TrapGuest,
}

/// The service at an address.
pub fn service_at(pc: u64) -> Option<Service>
    ensures { result ≡ service_at_lem pc }
{
    if pc == SERVICES_BASE + 48 {
        return Some(Service::PutByte);
    }
    if pc == SERVICES_BASE + 64 {
        return Some(Service::GetByte);
    }
    if pc == SERVICES_BASE + 80 {
        return Some(Service::ExitGuest);
    }
    if pc == SERVICES_BASE + 96 {
        return Some(Service::TrapGuest);
    }
    None
}
