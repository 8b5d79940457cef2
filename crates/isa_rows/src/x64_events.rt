//! Faults, which change nothing, and the events of jumps.

ghost use Rattle.std.specs.Prelude.{◌≡◌, IfSome, Some};
ghost use Rattle.x64_isa.specs.Spelling.{Valid};

use crate::x64_effects::{STACK, cpu_of, memory, read};
use hx_bits::Width;
use hx_mem::{MemBad, Memory};
use reg_map::registers::{Cpu, X64Reg};
use std::test::Fail;
use x64_exec::event::{XEvent, XFault};
use x64_exec::step::step;

const MIN: u64 = 1 << 63;

// The bytes, rax, rcx, rdx, and the fault.
static FAULTS: [(&[u8], [u64; 3], XFault); 13] = [
    // div rcx: by 0, and with a quotient of 65 bits
    (b"\x48\xF7\xF1", [5, 0, 0], XFault::Divide),
    (b"\x48\xF7\xF1", [0, 7, 7], XFault::Divide),
    // idiv rcx: by 0, the least number by -1, and quotients just past both ends
    (b"\x48\xF7\xF9", [5, 0, 0], XFault::Divide),
    (b"\x48\xF7\xF9", [MIN, u64::MAX, u64::MAX], XFault::Divide),
    (b"\x48\xF7\xF9", [0, u64::MAX, MIN], XFault::Divide),
    (b"\x48\xF7\xF9", [MIN, 1, 0], XFault::Divide),
    (b"\x48\xF7\xF9", [MIN - 1, 1, u64::MAX], XFault::Divide),
    // mov rax, [rcx+0]; mov [rcx+0], rax; call [rcx+0]; jmp [rcx+0]
    (
        b"\x48\x8B\x41\x00",
        [0, 8, 0],
        XFault::Memory(MemBad::Unmapped(8)),
    ),
    (
        b"\x48\x89\x41\x00",
        [0, 8, 0],
        XFault::Memory(MemBad::Unmapped(8)),
    ),
    (
        b"\xFF\x51\x00",
        [0, 8, 0],
        XFault::Memory(MemBad::Unmapped(8)),
    ),
    (
        b"\xFF\x61\x00",
        [0, 8, 0],
        XFault::Memory(MemBad::Unmapped(8)),
    ),
    (b"\xCC", [0, 0, 0], XFault::Halt),
    (b"\x0F\x0B", [0, 0, 0], XFault::Halt),
];

/// The event of the bytes' instruction, and whether it left the registers and the word at the stack pointer as they were.
fn done(mem: &mut Memory, mut cpu: Cpu, bytes: &[u8]) -> Option<(XEvent, bool)> {
    let before = cpu;
    let (i, n) = read(bytes)?;
    let event = step(&mut cpu, mem, &i, n);
    let same = cpu == before && mem.load(STACK, Width::W64) == Ok(77);
    Some((event, same))
}

#[test]
fn faults_change_nothing(rt: HostRuntime) -> Result<(), Fail> {
    for (bytes, registers, fault) in &FAULTS {
        let mut mem = memory(rt.alloc(), 77)?;
        let cpu = cpu_of(registers[0], registers[1], registers[2]);
        let wanted = Some((XEvent::Fault(*fault), true));
        assert!(rt; done(&mut mem, cpu, bytes) == wanted, "{bytes:?}");
    }
    Ok(())
}

// The bytes and the stack pointer: push rax; call rax; call +0; pop rax; ret
static STACKS: [(&[u8], u64); 5] = [
    (b"\x50", 16),
    (b"\xFF\xD0", 16),
    (b"\xE8\x00\x00\x00\x00", 16),
    (b"\x58", 8),
    (b"\xC3", 8),
];

#[test]
fn refused_stacks(rt: HostRuntime) -> Result<(), Fail> {
    let refused = XEvent::Fault(XFault::Memory(MemBad::Unmapped(8)));
    for (bytes, sp) in &STACKS {
        let mut mem = memory(rt.alloc(), 77)?;
        let mut cpu = cpu_of(1, 2, 3);
        cpu.set64(X64Reg::Rsp, *sp);
        assert!(rt;
            done(&mut mem, cpu, bytes) == Some((refused, true)),
            "{bytes:?}"
        );
    }
    Ok(())
}

// jno +5; jo +5; jmp +5; jmp rax; call +5; call rax; ret, at 0x100
static EVENTS: [(&[u8], XEvent); 7] = [
    (b"\x0F\x81\x05\x00\x00\x00", XEvent::Branch(0x10B)),
    (b"\x0F\x80\x05\x00\x00\x00", XEvent::Next),
    (b"\xE9\x05\x00\x00\x00", XEvent::Goto(0x10A)),
    (b"\xFF\xE0", XEvent::Goto(1)),
    (b"\xE8\x05\x00\x00\x00", XEvent::CallTo(0x10A)),
    (b"\xFF\xD0", XEvent::CallTo(1)),
    (b"\xC3", XEvent::RetTo(77)),
];

#[test]
fn events(rt: HostRuntime) -> Result<(), Fail> {
    for (bytes, event) in &EVENTS {
        let mut mem = memory(rt.alloc(), 77)?;
        let told = done(&mut mem, cpu_of(1, 2, 3), bytes).ok_or("bytes outside the table")?;
        assert!(rt; told.0 == *event, "{bytes:?}");
    }
    Ok(())
}
