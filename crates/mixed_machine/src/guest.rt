//! The state of the guest: what an instruction works on.

ghost use Rattle.std.specs.Prelude.{◌≡◌};
ghost use Rattle.machine_rules.specs.Steps.{refusal, barred, cleared, guest};
ghost use Rattle.reg_map.specs.Registers.{registers_of};

use hx_mem::{MemBad, Memory};
use machine_rules::ends::{GuestEnd, StuckWhy};
use reg_map::registers::{AFlags, Cpu, XFlags};

/// No flag of x64 code.
pub const NO_X64_FLAGS: XFlags = XFlags {
    cf: false,
    zf: false,
    sf: false,
    of: false,
};
/// No flag of A64 code.
pub const NO_A64_FLAGS: AFlags = AFlags {
    n: false,
    z: false,
    c: false,
    v: false,
};

/// The registers and the memory of a guest.
#[derive(Drop)]
pub struct Guest {
    pub cpu: Cpu,
    pub mem: Memory,
    /// A guess of the code map's range of pc. No answer depends on it.
    pub near: usize,
}

/// How a refused access ends a run.
pub fn refused(bad: MemBad, pc: u64) -> GuestEnd
    ensures { result ≡ refusal bad pc }
{
    match bad {
        MemBad::Guard(_) => GuestEnd::StackSpent,
        MemBad::Unmapped(_) => GuestEnd::Stuck(StuckWhy::Unmapped, pc),
        MemBad::Protected(_) => GuestEnd::Stuck(StuckWhy::Protected, pc),
    }
}

/// Makes all flags 0, as a switch does.
pub fn clear_flags(cpu: &mut Cpu)
    ensures { registers_of cpu.new ≡ cleared (registers_of cpu.old) }
{
    cpu.xf = NO_X64_FLAGS;
    cpu.af = NO_A64_FLAGS;
}

impl Guest {
    ghost use Rattle.mixed_machine.specs.States.{guest_of, way_of};

    /// Ends where control can't go on from a row that was done: pc stays at its instruction.
    pub fn bar(&mut self, pc: u64, end: GuestEnd) -> Option<GuestEnd>
        ensures { way_of result (guest_of self.new) ≡ barred end pc (registers_of self.old.cpu) self.old.mem }
    {
        self.cpu.pc = pc;
        Some(end)
    }

    /// Makes all flags 0.
    pub fn clear(&mut self)
        ensures { guest_of self.new ≡ guest (cleared (registers_of self.old.cpu)) self.old.mem }
    {
        clear_flags(&mut self.cpu);
    }
}
