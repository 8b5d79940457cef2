//! The services that x64 code calls.

/// A service of the machine's `ecrt.dll`, as x64 code calls it: an argument is in rcx, a result in rax.
#[derive(Clone, Copy, Debug, PartialEq, Eq)]
pub enum Service {
    /// Puts the low byte of its argument.
    PutByte,
    /// Takes a byte, or gives -1 at the end.
    GetByte,
    /// Ends the run with the low byte of its argument.
    Exit,
    /// Ends the run as a trap, with the low byte of its argument.
    Trap,
}

impl Service {
    ghost use Rattle.std.specs.Prelude.{◌≡◌};
    ghost use Rattle.first_form.specs.Services.{address_of};

    /// Where the service stands in the machine.
    pub fn address(self) -> u64
        ensures { result ≡ address_of self }
    {
        const SERVICES: u64 = 0x7FFF_0000_0000;
        match self {
            Service::PutByte => SERVICES + 48,
            Service::GetByte => SERVICES + 64,
            Service::Exit => SERVICES + 80,
            Service::Trap => SERVICES + 96,
        }
    }
}
