//! Images whose runs were worked out by hand; their bytes are from LLVM's assembler.
//!
//! The x64 code of a row ends at 2000h from the base, where its EC code begins. That has the word of its
//! function first, which is at 2004h. Behind it the code map has four bytes of x64 code. Where a row has a
//! redirection, it leads from there to 201Ch.

ghost use Rattle.std.specs.Prelude.{◌≡◌, ◌≤◌, ◌+◌, IfOk, length};
ghost use Rattle.pe_loader.specs.Loading.{CanLoad};

use chpe_types::{CodeRange, Image, ImageSection, Meta, Redirect};
use hx_io::{FailSink, FailSource, MemSink, MemSource};
use hx_words::Items;
use mixed_machine::{Machine, RunEnd, StepEnd, StuckWhy};
use pe_loader::load;
use std::alloc::{AllocError, Global};
use std::test::Fail;

const BASE: u64 = 0x1_4000_0000;

const X64_END: u64 = BASE + 0x2000;

const FUNCTION: u64 = BASE + 0x2004;

const X64_SERVICES: u64 = 0x7FFF_0000_0000;

const EC_SERVICES: u64 = 0x7FFF_0000_1000;

type Row = (
    &'static [u8],
    &'static [u8],
    u32,
    &'static [u8],
    u64,
    RunEnd,
    &'static [u8],
);

static ROWS: [Row; 67] = [
    // x64: put_byte, get_byte and put_byte, get_byte at the end, exit
    (
        b"\x48\xB9\x41\x01\0\0\0\0\0\0\x48\xB8\x30\0\0\0\xFF\x7F\0\0\xFF\xD0\x48\xB8\x40\0\0\0\xFF\x7F\0\0\xFF\xD0\x48\x8B\xC8\x48\xB8\x30\0\0\0\xFF\x7F\0\0\xFF\xD0\x48\xB8\x40\0\0\0\xFF\x7F\0\0\xFF\xD0\x48\x8B\xC8\x48\xB8\x50\0\0\0\xFF\x7F\0\0\xFF\xD0",
        b"\x01\0\0\0\0\0\x20\xD4",
        0,
        b"\x5A",
        40,
        RunEnd::Exit(255),
        b"\x41\x5A",
    ),
    // x64: trap with the low 8 bits
    (
        b"\x48\xB9\xF1\x01\0\0\0\0\0\0\x48\xB8\x60\0\0\0\xFF\x7F\0\0\xFF\xD0",
        b"\x01\0\0\0\0\0\x20\xD4",
        0,
        b"",
        9,
        RunEnd::Trap(0xF1),
        b"",
    ),
    // x64: a service for EC code
    (
        b"\x48\xB8\x30\x10\0\0\xFF\x7F\0\0\xFF\xD0",
        b"\x01\0\0\0\0\0\x20\xD4",
        0,
        b"",
        9,
        RunEnd::Stuck(StuckWhy::BadSwitch, X64_END - 2),
        b"",
    ),
    // a call by the entry thunk, which is the function
    (
        b"\xE8\x04\0\0\0",
        b"\x01\0\0\0\0\0\x20\xD4",
        0,
        b"",
        9,
        RunEnd::Stuck(StuckWhy::Halt, FUNCTION),
        b"",
    ),
    // the thunk 4 bytes on; x9, lr and x4 are right
    (
        b"\xE8\x04\0\0\0",
        b"\x05\0\0\0\x1F\x20\x03\xD5\x21\x01\x1E\xCB\x21\x10\0\x91\x82\0\0\xB1\0\0\x20\xD4",
        0,
        b"",
        9,
        RunEnd::Stuck(StuckWhy::Halt, FUNCTION + 16),
        b"",
    ),
    // the word has other low bits
    (
        b"\xE8\x04\0\0\0",
        b"\x04\0\0\0\0\0\x20\xD4",
        0,
        b"",
        9,
        RunEnd::Stuck(StuckWhy::NoThunk, X64_END - 5),
        b"",
    ),
    // the thunk in no range
    (
        b"\xE8\x04\0\0\0",
        b"\x01\x01\0\0\0\0\x20\xD4",
        0,
        b"",
        9,
        RunEnd::Stuck(StuckWhy::NoThunk, X64_END - 5),
        b"",
    ),
    // the thunk on the x64 side
    (
        b"\xE8\x04\0\0\0",
        b"\xF9\xFF\xFF\xFF\0\0\x20\xD4",
        0,
        b"",
        9,
        RunEnd::Stuck(StuckWhy::NoThunk, X64_END - 5),
        b"",
    ),
    // sp told before the word
    (
        b"\x50\xE8\x04\0\0\0",
        b"\x04\0\0\0\0\0\x20\xD4",
        0,
        b"",
        9,
        RunEnd::Stuck(StuckWhy::Misaligned, X64_END - 5),
        b"",
    ),
    // a jump pops what the stack has
    (
        b"\x50\xE9\x04\0\0\0",
        b"\x01\0\0\0\xC0\x03\0\x91\x10\x0A\x82\xD2\xF0\xFF\xCF\xF2\0\x02\x3F\xD6",
        0,
        b"",
        20,
        RunEnd::Exit(0),
        b"",
    ),
    // a jump from the stack's top
    (
        b"\xE9\x04\0\0\0",
        b"\x01\0\0\0\0\0\x20\xD4",
        0,
        b"",
        9,
        RunEnd::Stuck(StuckWhy::Misaligned, X64_END - 5),
        b"",
    ),
    // a jump whose return address is unmapped
    (
        b"\x48\x83\xC4\x08\xE9\x04\0\0\0",
        b"\x01\0\0\0\0\0\x20\xD4",
        0,
        b"",
        9,
        RunEnd::Stuck(StuckWhy::Unmapped, X64_END - 5),
        b"",
    ),
    // a conditional jump to EC code
    (
        b"\x0F\x85\x04\0\0\0",
        b"\x01\0\0\0\0\0\x20\xD4",
        0,
        b"",
        9,
        RunEnd::Stuck(StuckWhy::BadSwitch, X64_END - 6),
        b"",
    ),
    // a fall-through to EC code
    (
        b"\x50",
        b"\x01\0\0\0\0\0\x20\xD4",
        0,
        b"",
        9,
        RunEnd::Stuck(StuckWhy::BadSwitch, X64_END - 1),
        b"",
    ),
    // a return to EC code
    (
        b"\x48\xB8\x04\x20\0\x40\x01\0\0\0\x50\xC3",
        b"\x01\0\0\0\0\0\x20\xD4",
        0,
        b"",
        9,
        RunEnd::Stuck(StuckWhy::Halt, FUNCTION),
        b"",
    ),
    // flags are gone after a call and its return
    (
        b"\x48\xB9\x07\0\0\0\0\0\0\0\x48\x31\xC0\xE8\x14\0\0\0\x40\x0F\x94\xC1\x48\xB8\x50\0\0\0\xFF\x7F\0\0\xFF\xD0",
        b"\x01\0\0\0\x10\x04\x82\xD2\xF0\xFF\xCF\xF2\0\x02\x1F\xD6",
        0,
        b"",
        20,
        RunEnd::Exit(0),
        b"",
    ),
    // a dispatched return to no code
    (
        b"\x50\xE9\x04\0\0\0",
        b"\x01\0\0\0\x10\x04\x82\xD2\xF0\xFF\xCF\xF2\0\x02\x1F\xD6",
        0,
        b"",
        9,
        RunEnd::Stuck(StuckWhy::BadTarget, EC_SERVICES + 32),
        b"",
    ),
    // a return by an EC instruction to x64 code
    (
        b"\xE8\x06\0\0\0\x0F\x0B",
        b"\x01\0\0\0\xC0\x03\x5F\xD6",
        0,
        b"",
        9,
        RunEnd::Stuck(StuckWhy::BadSwitch, FUNCTION),
        b"",
    ),
    // EC: put_byte, get_byte and put_byte, get_byte at the end, exit
    (
        b"\xE8\x04\0\0\0",
        b"\x01\0\0\0\x40\x28\x80\xD2\x10\x06\x82\xD2\xF0\xFF\xCF\xF2\0\x02\x3F\xD6\x10\x08\x82\xD2\xF0\xFF\xCF\xF2\0\x02\x3F\xD6\x10\x06\x82\xD2\xF0\xFF\xCF\xF2\0\x02\x3F\xD6\x10\x08\x82\xD2\xF0\xFF\xCF\xF2\0\x02\x3F\xD6\x10\x0A\x82\xD2\xF0\xFF\xCF\xF2\0\x02\x3F\xD6",
        0,
        b"\x5A",
        60,
        RunEnd::Exit(255),
        b"\x42\x5A",
    ),
    // EC: trap
    (
        b"\xE8\x04\0\0\0",
        b"\x01\0\0\0\x60\x3E\x80\xD2\x10\x0C\x82\xD2\xF0\xFF\xCF\xF2\0\x02\x3F\xD6",
        0,
        b"",
        60,
        RunEnd::Trap(0xF3),
        b"",
    ),
    // EC: a service for x64 code
    (
        b"\xE8\x04\0\0\0",
        b"\x01\0\0\0\x10\x06\x80\xD2\xF0\xFF\xCF\xF2\0\x02\x3F\xD6",
        0,
        b"",
        9,
        RunEnd::Stuck(StuckWhy::BadSwitch, FUNCTION + 8),
        b"",
    ),
    // EC: a branch to x64 code
    (
        b"\xE8\x04\0\0\0",
        b"\x01\0\0\0\xFE\xFF\xFF\x17",
        0,
        b"",
        9,
        RunEnd::Stuck(StuckWhy::BadSwitch, FUNCTION),
        b"",
    ),
    // EC: a fall-through to x64 code
    (
        b"\xE8\x04\0\0\0",
        b"\x01\0\0\0\x1F\x20\x03\xD5",
        0,
        b"",
        9,
        RunEnd::Stuck(StuckWhy::BadSwitch, FUNCTION),
        b"",
    ),
    // EC: put_byte whose return is barred puts nothing
    (
        b"\xE8\x06\0\0\0\x0F\x0B",
        b"\x01\0\0\0\x10\x06\x82\xD2\xF0\xFF\xCF\xF2\0\x02\x1F\xD6",
        0,
        b"",
        9,
        RunEnd::Stuck(StuckWhy::BadSwitch, EC_SERVICES + 48),
        b"",
    ),
    // EC: pc no multiple of 4
    (
        b"\xE8\x04\0\0\0",
        b"\x01\0\0\0\x21\0\0\x50\x20\0\x1F\xD6",
        0,
        b"",
        9,
        RunEnd::Stuck(StuckWhy::Misaligned, FUNCTION + 6),
        b"",
    ),
    // EC: sp as a base
    (
        b"\xE8\x04\0\0\0",
        b"\x01\0\0\0\xFF\x23\0\xD1\xE0\x03\x40\xF9",
        0,
        b"",
        9,
        RunEnd::Stuck(StuckWhy::Misaligned, FUNCTION + 4),
        b"",
    ),
    // EC: a blocked register
    (
        b"\xE8\x04\0\0\0",
        b"\x01\0\0\0\xA0\x0D\0\x91",
        0,
        b"",
        9,
        RunEnd::Stuck(StuckWhy::Blocked, FUNCTION),
        b"",
    ),
    // EC: no instruction
    (
        b"\xE8\x04\0\0\0",
        b"\x01\0\0\0\0\0\0\0",
        0,
        b"",
        9,
        RunEnd::Stuck(StuckWhy::BadInstruction, FUNCTION),
        b"",
    ),
    // EC: half an instruction
    (
        b"\xE8\x04\0\0\0",
        b"\x01\0\0\0\x1F\x20",
        0,
        b"",
        9,
        RunEnd::Stuck(StuckWhy::BadInstruction, FUNCTION),
        b"",
    ),
    // x64: no instruction
    (
        b"\x90",
        b"\x01\0\0\0",
        0,
        b"",
        9,
        RunEnd::Stuck(StuckWhy::BadInstruction, X64_END - 1),
        b"",
    ),
    // x64: a division by 0
    (
        b"\x48\xF7\xF1\x0F\x0B",
        b"\x01\0\0\0",
        0,
        b"",
        9,
        RunEnd::Stuck(StuckWhy::Divide, X64_END - 5),
        b"",
    ),
    // x64: a halt
    (
        b"\x0F\x0B",
        b"\x01\0\0\0",
        0,
        b"",
        9,
        RunEnd::Stuck(StuckWhy::Halt, X64_END - 2),
        b"",
    ),
    // x64: a store to code
    (
        b"\x48\xB8\xF0\x1F\0\x40\x01\0\0\0\x48\x89\x40\0\x0F\x0B",
        b"\x01\0\0\0",
        0,
        b"",
        9,
        RunEnd::Stuck(StuckWhy::Protected, X64_END - 6),
        b"",
    ),
    // x64: a load from nowhere
    (
        b"\x48\x8B\x40\0\x0F\x0B",
        b"\x01\0\0\0",
        0,
        b"",
        9,
        RunEnd::Stuck(StuckWhy::Unmapped, X64_END - 6),
        b"",
    ),
    // x64: a jump to nowhere
    (
        b"\xFF\xE0",
        b"\x01\0\0\0",
        0,
        b"",
        9,
        RunEnd::Stuck(StuckWhy::NoRange, 0),
        b"",
    ),
    // x64: below the stack
    (
        b"\x48\x81\xEC\0\x10\0\0\x50\x0F\x0B",
        b"\x01\0\0\0",
        0,
        b"",
        9,
        RunEnd::StackSpent,
        b"",
    ),
    // x64: the steps spent
    (
        b"\xE8\x04\0\0\0",
        b"\x01\0\0\0\0\0\0\x14",
        0,
        b"",
        1000,
        RunEnd::Budget,
        b"",
    ),
    // the checker leaves EC code
    (
        b"\xE8\x04\0\0\0",
        b"\x01\0\0\0\xCB\0\0\x10\x2A\x01\0\x10\x10\0\x82\xD2\xF0\xFF\xCF\xF2\0\x02\x3F\xD6\x60\x01\x1F\xD6\x20\0\x80\xD2\x10\x0A\x82\xD2\xF0\xFF\xCF\xF2\0\x02\x3F\xD6\x40\0\x80\xD2\x10\x0A\x82\xD2\xF0\xFF\xCF\xF2\0\x02\x3F\xD6",
        0,
        b"",
        20,
        RunEnd::Exit(1),
        b"",
    ),
    // the checker gives x10 for x64 code
    (
        b"\xE8\x04\0\0\0",
        b"\x01\0\0\0\xCB\xFF\xFF\x10\x2A\x01\0\x10\x10\0\x82\xD2\xF0\xFF\xCF\xF2\0\x02\x3F\xD6\x60\x01\x1F\xD6\x20\0\x80\xD2\x10\x0A\x82\xD2\xF0\xFF\xCF\xF2\0\x02\x3F\xD6\x40\0\x80\xD2\x10\x0A\x82\xD2\xF0\xFF\xCF\xF2\0\x02\x3F\xD6",
        0,
        b"",
        20,
        RunEnd::Exit(2),
        b"",
    ),
    // the checker redirects
    (
        b"\xE8\x04\0\0\0",
        b"\x01\0\0\0\xCB\xFF\xFF\x10\x2A\x01\0\x10\x10\0\x82\xD2\xF0\xFF\xCF\xF2\0\x02\x3F\xD6\x60\x01\x1F\xD6\x20\0\x80\xD2\x10\x0A\x82\xD2\xF0\xFF\xCF\xF2\0\x02\x3F\xD6\x40\0\x80\xD2\x10\x0A\x82\xD2\xF0\xFF\xCF\xF2\0\x02\x3F\xD6",
        0x1ffc,
        b"",
        20,
        RunEnd::Exit(1),
        b"",
    ),
    // the checker knows no other place
    (
        b"\xE8\x04\0\0\0",
        b"\x01\0\0\0\x0B\0\x08\x10\x2A\x01\0\x10\x10\0\x82\xD2\xF0\xFF\xCF\xF2\0\x02\x3F\xD6\x60\x01\x1F\xD6\x20\0\x80\xD2\x10\x0A\x82\xD2\xF0\xFF\xCF\xF2\0\x02\x3F\xD6\x40\0\x80\xD2\x10\x0A\x82\xD2\xF0\xFF\xCF\xF2\0\x02\x3F\xD6",
        0,
        b"",
        20,
        RunEnd::Stuck(StuckWhy::BadTarget, EC_SERVICES),
        b"",
    ),
    // the checker's return is told first
    (
        b"\xE8\x06\0\0\0\x0F\x0B",
        b"\x01\0\0\0\x0B\0\x08\x10\x10\0\x82\xD2\xF0\xFF\xCF\xF2\0\x02\x1F\xD6",
        0,
        b"",
        20,
        RunEnd::Stuck(StuckWhy::BadSwitch, EC_SERVICES),
        b"",
    ),
    // a dispatched call, and the return from it
    (
        b"\xE8\x05\0\0\0\xC3",
        b"\x01\0\0\0\xC9\xFF\xFF\x70\x10\x02\x82\xD2\xF0\xFF\xCF\xF2\0\x02\x3F\xD6\xA0\0\x80\xD2\x10\x0A\x82\xD2\xF0\xFF\xCF\xF2\0\x02\x3F\xD6",
        0,
        b"",
        20,
        RunEnd::Exit(5),
        b"",
    ),
    // a dispatched call to EC code
    (
        b"\xE8\x04\0\0\0",
        b"\x01\0\0\0\x09\0\0\x10\x10\x02\x82\xD2\xF0\xFF\xCF\xF2\0\x02\x3F\xD6",
        0,
        b"",
        20,
        RunEnd::Stuck(StuckWhy::BadTarget, EC_SERVICES + 16),
        b"",
    ),
    // x64: put_byte whose return leads to EC code
    (
        b"\x48\xB8\x04\x20\0\x40\x01\0\0\0\x50\x48\xB8\x30\0\0\0\xFF\x7F\0\0\xFF\xE0",
        b"\x01\0\0\0\0\0\x20\xD4",
        0,
        b"",
        9,
        RunEnd::Stuck(StuckWhy::Halt, FUNCTION),
        b"\0",
    ),
    // x64: put_byte with no return address puts nothing
    (
        b"\x48\xB8\x30\0\0\0\xFF\x7F\0\0\xFF\xE0",
        b"\x01\0\0\0\0\0\x20\xD4",
        0,
        b"",
        9,
        RunEnd::Stuck(StuckWhy::Unmapped, X64_SERVICES + 48),
        b"",
    ),
    // x64: get_byte whose return is barred
    (
        b"\x48\xB8\x50\x10\0\0\xFF\x7F\0\0\x50\x48\xB8\x40\0\0\0\xFF\x7F\0\0\xFF\xE0",
        b"\x01\0\0\0\0\0\x20\xD4",
        0,
        b"\x5A",
        9,
        RunEnd::Stuck(StuckWhy::BadSwitch, X64_SERVICES + 64),
        b"",
    ),
    // x64: exit has no return
    (
        b"\x48\xB9\x02\x01\0\0\0\0\0\0\x48\xB8\x50\0\0\0\xFF\x7F\0\0\xFF\xE0",
        b"\x01\0\0\0\0\0\x20\xD4",
        0,
        b"",
        9,
        RunEnd::Exit(2),
        b"",
    ),
    // a jump whose return address is in the guard
    (
        b"\x48\x81\xEC\x08\x10\0\0\xE9\x04\0\0\0",
        b"\x01\0\0\0\0\0\x20\xD4",
        0,
        b"",
        9,
        RunEnd::StackSpent,
        b"",
    ),
    // x64: a load in the guard
    (
        b"\x48\x81\xEC\x08\x10\0\0\x58\x0F\x0B",
        b"\x01\0\0\0",
        0,
        b"",
        9,
        RunEnd::StackSpent,
        b"",
    ),
    // x64: a load past the stack
    (
        b"\x50\x48\x83\xC4\x04\x58\x0F\x0B",
        b"\x01\0\0\0",
        0,
        b"",
        9,
        RunEnd::Stuck(StuckWhy::Unmapped, X64_END - 3),
        b"",
    ),
    // x64: a return to nowhere
    (
        b"\x48\xB8\x34\x12\0\0\0\0\0\0\x50\xC3",
        b"\x01\0\0\0",
        0,
        b"",
        9,
        RunEnd::Stuck(StuckWhy::NoRange, 0x1234),
        b"",
    ),
    // x64: code with no bytes
    (
        b"\xE9\x08\0\0\0",
        b"\x01\0\0\0\0\0\x20\xD4",
        0,
        b"",
        9,
        RunEnd::Stuck(StuckWhy::BadInstruction, X64_END + 8),
        b"",
    ),
    // x64: the dispatcher of calls
    (
        b"\x48\xB8\x10\x10\0\0\xFF\x7F\0\0\xFF\xD0",
        b"\x01\0\0\0\0\0\x20\xD4",
        0,
        b"",
        9,
        RunEnd::Stuck(StuckWhy::BadSwitch, X64_END - 2),
        b"",
    ),
    // x64: the dispatcher of returns
    (
        b"\x48\xB8\x20\x10\0\0\xFF\x7F\0\0\x50\xC3",
        b"\x01\0\0\0\0\0\x20\xD4",
        0,
        b"",
        9,
        RunEnd::Stuck(StuckWhy::BadSwitch, X64_END - 1),
        b"",
    ),
    // EC: a branch to nowhere
    (
        b"\xE8\x04\0\0\0",
        b"\x01\0\0\0\x20\0\x1F\xD6",
        0,
        b"",
        9,
        RunEnd::Stuck(StuckWhy::NoRange, 0),
        b"",
    ),
    // EC: a call of x64 code
    (
        b"\xE8\x04\0\0\0",
        b"\x01\0\0\0\xC1\xFF\xFF\x10\x20\0\x3F\xD6",
        0,
        b"",
        9,
        RunEnd::Stuck(StuckWhy::BadSwitch, FUNCTION + 4),
        b"",
    ),
    // EC: a conditional branch to x64 code
    (
        b"\xE8\x04\0\0\0",
        b"\x01\0\0\0\xC1\xFF\xFF\xB4",
        0,
        b"",
        9,
        RunEnd::Stuck(StuckWhy::BadSwitch, FUNCTION),
        b"",
    ),
    // EC: a load from nowhere
    (
        b"\xE8\x04\0\0\0",
        b"\x01\0\0\0\x20\0\x40\xF9",
        0,
        b"",
        9,
        RunEnd::Stuck(StuckWhy::Unmapped, FUNCTION),
        b"",
    ),
    // EC: a store to code
    (
        b"\xE8\x04\0\0\0",
        b"\x01\0\0\0\x01\0\0\x10\x20\0\0\xF9",
        0,
        b"",
        9,
        RunEnd::Stuck(StuckWhy::Protected, FUNCTION + 4),
        b"",
    ),
    // EC: a store in the guard
    (
        b"\xE8\x04\0\0\0",
        b"\x01\0\0\0\xFF\xC3\x3F\xD1\xFF\xC3\x3F\xD1\xE0\x03\0\xF9",
        0,
        b"",
        9,
        RunEnd::StackSpent,
        b"",
    ),
    // EC: get_byte whose return is barred takes nothing
    (
        b"\xE8\x06\0\0\0\x0F\x0B",
        b"\x01\0\0\0\x10\x08\x82\xD2\xF0\xFF\xCF\xF2\0\x02\x1F\xD6",
        0,
        b"\x5A",
        9,
        RunEnd::Stuck(StuckWhy::BadSwitch, EC_SERVICES + 64),
        b"",
    ),
    // the checker redirects no other place
    (
        b"\xE8\x04\0\0\0",
        b"\x01\0\0\0\xCB\xFF\xFF\x10\x2A\x01\0\x10\x10\0\x82\xD2\xF0\xFF\xCF\xF2\0\x02\x3F\xD6\x60\x01\x1F\xD6\x20\0\x80\xD2\x10\x0A\x82\xD2\xF0\xFF\xCF\xF2\0\x02\x3F\xD6\x40\0\x80\xD2\x10\x0A\x82\xD2\xF0\xFF\xCF\xF2\0\x02\x3F\xD6",
        0x1ff8,
        b"",
        20,
        RunEnd::Exit(2),
        b"",
    ),
    // the checker of a service
    (
        b"\xE8\x04\0\0\0",
        b"\x01\0\0\0\x0B\x06\x82\xD2\xEB\xFF\xCF\xF2\x10\0\x82\xD2\xF0\xFF\xCF\xF2\0\x02\x3F\xD6\0\0\x20\xD4",
        0,
        b"",
        20,
        RunEnd::Stuck(StuckWhy::BadTarget, EC_SERVICES),
        b"",
    ),
    // a dispatched call to nowhere
    (
        b"\xE8\x04\0\0\0",
        b"\x01\0\0\0\x09\0\x80\xD2\x10\x02\x82\xD2\xF0\xFF\xCF\xF2\0\x02\x3F\xD6",
        0,
        b"",
        20,
        RunEnd::Stuck(StuckWhy::BadTarget, EC_SERVICES + 16),
        b"",
    ),
    // a dispatched call that pushes in the guard
    (
        b"\xE8\x04\0\0\0",
        b"\x01\0\0\0\xFF\xC3\x3F\xD1\xFF\x43\0\xD1\x10\x02\x82\xD2\xF0\xFF\xCF\xF2\0\x02\x3F\xD6",
        0,
        b"",
        20,
        RunEnd::StackSpent,
        b"",
    ),
    // a dispatched return to EC code
    (
        b"\xE8\x04\0\0\0",
        b"\x01\0\0\0\x9E\0\0\x10\x10\x04\x82\xD2\xF0\xFF\xCF\xF2\0\x02\x1F\xD6\0\0\x20\xD4",
        0,
        b"",
        20,
        RunEnd::Stuck(StuckWhy::Halt, FUNCTION + 16),
        b"",
    ),
];

/// A section of code.
fn section(alloc: Global, rva: u32, code: &[u8]) -> Result<ImageSection, AllocError>
    requires { length code.now ≤ 8192 }
    ensures { IfOk result (λ s. (s.rva ≡ rva) × (s.size ≡ length code.now) × (s.bytes ≡ code.now)) }
{
    Ok(ImageSection {
        name: Items::new(alloc),
        rva,
        size: code.len() as u32,
        flags: 0x6000_0020,
        bytes: Items::from_slice(alloc, code)?,
    })
}

/// An image of two sections of code, the second of them at 2000h.
fn image(alloc: Global, start: u32, x64: &[u8], ec: &[u8], source: u32) -> Result<Image, AllocError>
    requires x64 { start + length x64.now ≤ 8192 }
    requires ec { length ec.now ≤ 4096 }
    ensures { IfOk result CanLoad }
{
    let x64_section = section(alloc, start, x64)?;
    let ec_section = section(alloc, 0x2000, ec)?;
    let x64_range = CodeRange {
        start,
        length: x64.len() as u32,
        kind: 2,
    };
    let ec_range = CodeRange {
        start: 0x2000,
        length: ec.len() as u32,
        kind: 1,
    };
    let tail_range = CodeRange {
        start: 0x2000 + ec.len() as u32,
        length: 4,
        kind: 2,
    };
    let redirect = Redirect {
        source,
        destination: 0x201C,
    };
    Ok(Image {
        base: BASE,
        size: 0x3000,
        entry: start,
        stack: 4096,
        sections: Items::from_vec(vec![in alloc; x64_section, ec_section]?),
        imports: Items::new(alloc),
        sites: Items::new(alloc),
        meta: Meta {
            ranges: Items::from_vec(vec![in alloc; x64_range, ec_range, tail_range]?),
            redirects: Items::from_vec(vec![in alloc; redirect]?),
            rows: Items::new(alloc),
        },
    })
}

/// The machine of such an image.
fn machine(alloc: Global, start: u32, x64: &[u8], ec: &[u8], source: u32) -> Result<Machine, Fail> {
    if start > 0x2000 || x64.len() > 0x2000 - start as usize || ec.len() > 0x1000 {
        return Err(Fail::new("a section is too long"));
    }
    let i = image(alloc, start, x64, ec, source)?;
    let loaded = load(alloc, &i, BASE)?;
    Ok(Machine::new(alloc, loaded)?)
}

/// Where the x64 code begins that ends at 2000h.
fn start_of(x64: &[u8]) -> u32 {
    0x2000usize.saturating_sub(x64.len()) as u32
}

/// Whether a row's image ends as it says, once and again, with its output.
fn ends_so(alloc: Global, row: &Row) -> Result<bool, Fail> {
    let (x64, ec, source, bytes, budget, end, output) = row;
    let mut m = machine(alloc, start_of(x64), x64, ec, *source)?;
    let mut input = MemSource::new(Vec::from_slice(alloc, bytes)?);
    let mut out = MemSink::new(alloc, 4)?;
    let first = m.run(&mut input, &mut out, *budget);
    let again = m.run(&mut input, &mut out, 0);
    Ok(first == *end && again == *end && out.bytes() == *output)
}

#[test]
fn images_run(rt: HostRuntime) -> Result<(), Fail> {
    for row in &ROWS {
        assert!(rt; ends_so(rt.alloc(), row)?, "{:?}", row.5);
    }
    Ok(())
}

/// Whether x9, lr and x4 are those of a switch from 1000h to the function.
fn is_switched(m: &Machine) -> bool {
    let cpu = m.cpu();
    cpu.x[9] == FUNCTION && cpu.x[30] == BASE + 0x1005 && cpu.x[4] == 0x7FFE_0000_0000
}

#[test]
fn a_switch_sets_registers(rt: HostRuntime) -> Result<(), Fail> {
    let call = b"\xE8\xFF\x0F\0\0";
    let mut m = machine(rt.alloc(), 0x1000, call, b"\x01\0\0\0\0\0\x20\xD4", 0)?;
    let mut input = MemSource::new(Vec::new(rt.alloc()));
    let mut out = MemSink::new(rt.alloc(), 0)?;
    let first = m.run(&mut input, &mut out, 1);
    assert!(rt; first == RunEnd::Budget && is_switched(&m));
    let halt = StepEnd::Ended(RunEnd::Stuck(StuckWhy::Halt, FUNCTION));
    assert!(rt; m.step(&mut input, &mut out) == halt);
    Ok(())
}

/// Whether the first row's run, where the calls of this number fail, ends so: the writing, the reading, and then as it does.
fn asks_again(alloc: Global, failing: u64) -> Result<bool, Fail> {
    let (x64, ec, _, _, _, end, _) = &ROWS[0];
    let mut m = machine(alloc, start_of(x64), x64, ec, 0)?;
    let bytes = MemSource::new(Vec::from_slice(alloc, b"Z")?);
    let mut input = FailSource::new(bytes, Vec::from_slice(alloc, &[failing])?);
    let held = MemSink::new(alloc, 9)?;
    let mut out = FailSink::new(held, Vec::from_slice(alloc, &[failing])?);
    let first = m.run(&mut input, &mut out, 99);
    let second = m.run(&mut input, &mut out, 99);
    let third = m.run(&mut input, &mut out, 99);
    let ends = first == RunEnd::WriteFault && second == RunEnd::ReadFault && third == *end;
    Ok(ends && out.inner().bytes() == b"AZ".as_slice())
}

#[test]
fn faults_are_asked_again(rt: HostRuntime) -> Result<(), Fail> {
    assert!(rt; asks_again(rt.alloc(), 0)?);
    assert!(rt; asks_again(rt.alloc(), 1)?);
    Ok(())
}
