//! Registers as A64 instructions name them, and the ways on.

ghost use Rattle.std.specs.Prelude.{◌≡◌, ◌<◌, ◌^◌};
ghost use Rattle.reg_map.specs.Registers.{Registers, registers_of, with_number};
ghost use Rattle.a64_exec.specs.Effects.{source, source_sp, with_target, with_target_sp, with_flags, next_pc};

use crate::event::AEvent;
use crate::values::FlaggedSum;
use reg_map::registers::{A64Reg, Cpu};

/// The value of a register, number 31 being zero.
pub fn source(cpu: &Cpu, r: A64Reg) -> u64
    requires { r.0 < 2 ^ 5 }
    ensures { result ≡ source (registers_of cpu.now) r }
{
    if r.0 == 31 { 0 } else { cpu.value(r.0) }
}

/// The value of a register, number 31 being sp.
pub fn source_sp(cpu: &Cpu, r: A64Reg) -> u64
    requires { r.0 < 2 ^ 5 }
    ensures { result ≡ source_sp (registers_of cpu.now) r }
{
    cpu.value(r.0)
}

/// Sets a register, number 31 being none.
pub fn set_target(cpu: &mut Cpu, r: A64Reg, v: u64)
    requires { r.0 < 2 ^ 5 }
    ensures { registers_of cpu.new ≡ with_target (registers_of cpu.old) r v }
{
    if r.0 != 31 {
        cpu.set_value(r.0, v);
    }
}

/// Sets a register, number 31 being sp.
pub fn set_target_sp(cpu: &mut Cpu, r: A64Reg, v: u64)
    requires { r.0 < 2 ^ 5 }
    ensures { registers_of cpu.new ≡ with_target_sp (registers_of cpu.old) r v }
{
    cpu.set_value(r.0, v);
}

// Sets the program counter.
fn set_pc(cpu: &mut Cpu, place: u64)
    ensures { registers_of cpu.new ≡ record (registers_of cpu.old) { pc = place } }
{
    cpu.pc = place;
}

fn next_pc(cpu: &Cpu) -> u64
    ensures { result ≡ next_pc (registers_of cpu.now) }
{
    cpu.pc.wrapping_add(4)
}

/// Goes on with the next instruction.
pub fn next(cpu: &mut Cpu) -> AEvent
    ensures registers { registers_of cpu.new ≡ record (registers_of cpu.old) { pc = next_pc (registers_of cpu.old) } }
    ensures event { result ≡ AEvent.Next }
{
    let place = next_pc(cpu);
    set_pc(cpu, place);
    AEvent::Next
}

/// Gives a register a value, number 31 being none, and goes on.
pub fn give(cpu: &mut Cpu, d: A64Reg, v: u64) -> AEvent
    requires { d.0 < 2 ^ 5 }
    ensures registers { registers_of cpu.new ≡ record (with_target (registers_of cpu.old) d v) { pc = next_pc (registers_of cpu.old) } }
    ensures event { result ≡ AEvent.Next }
{
    set_target(cpu, d, v);
    next(cpu)
}

/// Gives a register a value, number 31 being sp, and goes on.
pub fn give_sp(cpu: &mut Cpu, d: A64Reg, v: u64) -> AEvent
    requires { d.0 < 2 ^ 5 }
    ensures registers { registers_of cpu.new ≡ record (with_target_sp (registers_of cpu.old) d v) { pc = next_pc (registers_of cpu.old) } }
    ensures event { result ≡ AEvent.Next }
{
    set_target_sp(cpu, d, v);
    next(cpu)
}

fn set_flags(cpu: &mut Cpu, sum: FlaggedSum)
    ensures { registers_of cpu.new ≡ with_flags (registers_of cpu.old) sum.flags }
{
    cpu.af = sum.flags;
}

/// Gives a register a sum, number 31 being none, sets the flags, and goes on.
pub fn give_sum(cpu: &mut Cpu, d: A64Reg, sum: FlaggedSum) -> AEvent
    requires { d.0 < 2 ^ 5 }
    ensures registers { registers_of cpu.new ≡ record (with_flags (with_target (registers_of cpu.old) d sum.value) sum.flags) { pc = next_pc (registers_of cpu.old) } }
    ensures event { result ≡ AEvent.Next }
{
    set_target(cpu, d, sum.value);
    set_flags(cpu, sum);
    next(cpu)
}

/// Goes on at a target.
pub fn go(cpu: &mut Cpu, target: u64) -> AEvent
    ensures registers { registers_of cpu.new ≡ record (registers_of cpu.old) { pc = target } }
    ensures event { result ≡ AEvent.Goto target }
{
    set_pc(cpu, target);
    AEvent::Goto(target)
}

/// Calls a target.
pub fn call(cpu: &mut Cpu, target: u64) -> AEvent
    ensures registers { registers_of cpu.new ≡ record (with_number (registers_of cpu.old) 30 (next_pc (registers_of cpu.old))) { pc = target } }
    ensures event { result ≡ AEvent.CallTo target }
{
    let back = next_pc(cpu);
    cpu.set_value(30, back);
    set_pc(cpu, target);
    AEvent::CallTo(target)
}

/// Returns to a target.
pub fn return_to(cpu: &mut Cpu, target: u64) -> AEvent
    ensures registers { registers_of cpu.new ≡ record (registers_of cpu.old) { pc = target } }
    ensures event { result ≡ AEvent.RetTo target }
{
    set_pc(cpu, target);
    AEvent::RetTo(target)
}
