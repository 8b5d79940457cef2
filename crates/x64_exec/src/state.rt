//! How an instruction ends that reads and writes registers alone.

ghost use Rattle.std.specs.Prelude.{◌≡◌, ◌<◌};
ghost use Rattle.reg_map.specs.Registers.{registers_of, with_x64, x64_value};
ghost use Rattle.x64_exec.specs.Words.{next_pc, branch_pc, branch_event, shifted_registers, divided_registers, divided_event};

use crate::division::Division;
use crate::event::{XEvent, XFault};
use crate::values::{Flagged, Shift, shift_by};
use reg_map::registers::{Cpu, X64Reg, XFlags};

const CLEAR: XFlags = XFlags {
    cf: false,
    zf: false,
    sf: false,
    of: false,
};

/// The address of the next instruction.
pub fn next_pc(cpu: &Cpu, len: u64) -> u64
    ensures { result ≡ next_pc len (registers_of cpu.now) }
{
    cpu.pc.wrapping_add(len)
}

/// Sets the program counter.
pub fn set_pc(cpu: &mut Cpu, place: u64)
    ensures { registers_of cpu.new ≡ record (registers_of cpu.old) { pc = place } }
{
    cpu.pc = place;
}

/// Sets the flags.
pub fn set_flags(cpu: &mut Cpu, flags: XFlags)
    ensures { registers_of cpu.new ≡ record (registers_of cpu.old) { xf = flags } }
{
    cpu.xf = flags;
}

/// Goes on with the next instruction.
pub fn next(cpu: &mut Cpu, len: u64) -> XEvent
    ensures registers { registers_of cpu.new ≡ record (registers_of cpu.old) { pc = next_pc len (registers_of cpu.old) } }
    ensures event { result ≡ XEvent.Next }
{
    let place = next_pc(cpu, len);
    set_pc(cpu, place);
    XEvent::Next
}

/// Gives a register a value, and goes on.
pub fn give(cpu: &mut Cpu, len: u64, r: X64Reg, v: u64) -> XEvent
    ensures registers { registers_of cpu.new ≡ record (with_x64 (registers_of cpu.old) r v) { pc = next_pc len (registers_of cpu.old) } }
    ensures event { result ≡ XEvent.Next }
{
    cpu.set64(r, v);
    next(cpu, len)
}

/// Gives the flags a value, and goes on.
pub fn give_flags(cpu: &mut Cpu, len: u64, flags: XFlags) -> XEvent
    ensures registers { registers_of cpu.new ≡ record (registers_of cpu.old) { xf = flags; pc = next_pc len (registers_of cpu.old) } }
    ensures event { result ≡ XEvent.Next }
{
    set_flags(cpu, flags);
    next(cpu, len)
}

/// Gives a register a value and the flags theirs, and goes on.
pub fn give_flagged(cpu: &mut Cpu, len: u64, r: X64Reg, v: Flagged) -> XEvent
    ensures registers { registers_of cpu.new ≡ record (with_x64 (registers_of cpu.old) r v.value) { xf = v.flags; pc = next_pc len (registers_of cpu.old) } }
    ensures event { result ≡ XEvent.Next }
{
    cpu.set64(r, v.value);
    give_flags(cpu, len, v.flags)
}

/// Shifts a register by 0 to 63 bits, and goes on. By 0 nothing changes.
pub fn give_shifted(cpu: &mut Cpu, len: u64, way: Shift, q: X64Reg, n: u64) -> XEvent
    requires { n < 64 }
    ensures registers { registers_of cpu.new ≡ record (shifted_registers way q n (registers_of cpu.old)) { pc = next_pc len (registers_of cpu.old) } }
    ensures event { result ≡ XEvent.Next }
{
    if n == 0 {
        return next(cpu, len);
    }
    let v = shift_by(way, cpu.get64(q), n);
    give_flagged(cpu, len, q, v)
}

/// Puts a quotient into rax and a remainder into rdx, clears the flags, and goes on; does nothing
/// where there is none.
pub fn give_division(cpu: &mut Cpu, len: u64, found: Option<Division>) -> XEvent
    ensures registers { registers_of cpu.new ≡ divided_registers found len (registers_of cpu.old) }
    ensures event { result ≡ divided_event found }
{
    match found {
        None => XEvent::Fault(XFault::Divide),
        Some(division) => {
            cpu.set64(X64Reg::Rax, division.quotient);
            cpu.set64(X64Reg::Rdx, division.remainder);
            give_flags(cpu, len, CLEAR)
        }
    }
}

/// Goes on at a target.
pub fn go(cpu: &mut Cpu, target: u64) -> XEvent
    ensures registers { registers_of cpu.new ≡ record (registers_of cpu.old) { pc = target } }
    ensures event { result ≡ XEvent.Goto target }
{
    set_pc(cpu, target);
    XEvent::Goto(target)
}

/// Goes on at a target where the jump is taken, and else with the next instruction.
pub fn branch(cpu: &mut Cpu, len: u64, taken: bool, target: u64) -> XEvent
    ensures registers { registers_of cpu.new ≡ record (registers_of cpu.old) { pc = branch_pc taken target len (registers_of cpu.old) } }
    ensures event { result ≡ branch_event taken target }
{
    if taken {
        set_pc(cpu, target);
        XEvent::Branch(target)
    } else {
        next(cpu, len)
    }
}
