//! Instructions that push and pop.

ghost use Rattle.std.specs.Prelude.{◌≡◌};
ghost use Rattle.reg_map.specs.Registers.{registers_of, x64_value};
ghost use Rattle.x64_exec.specs.Words.{effect, minus, popped, pushes, pops, calls, calls_at, goes_at, returns};

use crate::access::put;
use crate::event::{XEvent, XFault};
use crate::state::{give, go, next_pc, set_pc};
use hx_bits::Width;
use hx_mem::Memory;
use reg_map::registers::{Cpu, X64Reg};

// The stack pointer after a push.
fn below(cpu: &Cpu) -> u64
    ensures { result ≡ minus (x64_value (registers_of cpu.now) X64Reg.Rsp) 8 }
{
    cpu.get64(X64Reg::Rsp).wrapping_sub(8)
}

// Moves the stack pointer past a number.
fn drop_word(cpu: &mut Cpu)
    ensures { registers_of cpu.new ≡ popped (registers_of cpu.old) }
{
    let sp = cpu.get64(X64Reg::Rsp).wrapping_add(8);
    cpu.set64(X64Reg::Rsp, sp);
}

/// Pushes a number, and goes on.
pub fn push(cpu: &mut Cpu, mem: &mut Memory, len: u64, v: u64) -> XEvent
    ensures { effect (registers_of cpu.new) mem.new result ≡ pushes v len (registers_of cpu.old) mem.old }
{
    let sp = below(cpu);
    match put(mem, sp, Width::W64, v) {
        Ok(()) => give(cpu, len, X64Reg::Rsp, sp),
        Err(bad) => XEvent::Fault(XFault::Memory(bad)),
    }
}

/// Pops a number into a register, and goes on.
pub fn pop(cpu: &mut Cpu, mem: &Memory, len: u64, r: X64Reg) -> XEvent
    ensures { effect (registers_of cpu.new) mem.now result ≡ pops r len (registers_of cpu.old) mem.now }
{
    match mem.load(cpu.get64(X64Reg::Rsp), Width::W64) {
        Ok(v) => {
            drop_word(cpu);
            give(cpu, len, r, v)
        }
        Err(bad) => XEvent::Fault(XFault::Memory(bad)),
    }
}

/// Pushes the address of the next instruction, and goes to the target.
pub fn call(cpu: &mut Cpu, mem: &mut Memory, len: u64, target: u64) -> XEvent
    ensures { effect (registers_of cpu.new) mem.new result ≡ calls target len (registers_of cpu.old) mem.old }
{
    let sp = below(cpu);
    match put(mem, sp, Width::W64, next_pc(cpu, len)) {
        Ok(()) => {
            cpu.set64(X64Reg::Rsp, sp);
            set_pc(cpu, target);
            XEvent::CallTo(target)
        }
        Err(bad) => XEvent::Fault(XFault::Memory(bad)),
    }
}

/// Calls the address that stands at a place.
pub fn call_at(cpu: &mut Cpu, mem: &mut Memory, len: u64, at: u64) -> XEvent
    ensures { effect (registers_of cpu.new) mem.new result ≡ calls_at at len (registers_of cpu.old) mem.old }
{
    match mem.load(at, Width::W64) {
        Ok(target) => call(cpu, mem, len, target),
        Err(bad) => XEvent::Fault(XFault::Memory(bad)),
    }
}

/// Goes to the address that stands at a place.
pub fn go_at(cpu: &mut Cpu, mem: &Memory, at: u64) -> XEvent
    ensures { effect (registers_of cpu.new) mem.now result ≡ goes_at at (registers_of cpu.old) mem.now }
{
    match mem.load(at, Width::W64) {
        Ok(target) => go(cpu, target),
        Err(bad) => XEvent::Fault(XFault::Memory(bad)),
    }
}

/// Pops an address, and goes there.
pub fn return_back(cpu: &mut Cpu, mem: &Memory) -> XEvent
    ensures { effect (registers_of cpu.new) mem.now result ≡ returns (registers_of cpu.old) mem.now }
{
    match mem.load(cpu.get64(X64Reg::Rsp), Width::W64) {
        Ok(target) => {
            drop_word(cpu);
            set_pc(cpu, target);
            XEvent::RetTo(target)
        }
        Err(bad) => XEvent::Fault(XFault::Memory(bad)),
    }
}
