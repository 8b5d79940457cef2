//! What an x86-64 processor did at instructions that GNU as assembled.
//! `tools/x64_effects.py rows` writes the rows: the bytes of the instruction; its place, and before it the
//! flags as CF + 2 ZF + 4 SF + 8 OF, rax, rcx, rdx, rbx and the word at the stack pointer; after it rax,
//! rcx, rdx, rbx, rsp, the flags, how far the program counter moved, and two words of memory.

ghost use Rattle.std.specs.Prelude.{◌≡◌, ◌<◌, IfSome, Some};
ghost use Rattle.x64_isa.specs.Spelling.{Valid};

use hx_bits::Width;
use hx_mem::{Memory, Region};
use reg_map::registers::{AFlags, Cpu, X64Reg, XFlags};
use std::alloc::{AllocError, Global};
use std::test::Fail;
use x64_exec::event::XEvent;
use x64_exec::step::step;
use x64_isa::{XInstr, decode};

const BUFFER: u64 = 0x6000_0000;

pub const STACK: u64 = BUFFER + 32;

macro_rules! rows {
    ($($row:expr,)*) => { [$($row),*] };
}

static ROWS: [(&[u8], [u64; 16]); 294] = rows! {
    // add rax, rcx
    (b"\x48\x01\xC8", [0x40000084, 15, 5, 7, 0, 0, 0x24ffdab5906b4621, 12, 7, 0, 0, 0x60000020, 0, 3, 0xd4af8a65401bf6d1, 0xfcd7b28d68431ef9]),
    // add rax, rcx
    (b"\x48\x01\xC8", [0x4000017e, 15, 7, 5, 0, 0, 0x24ffdab5906b4621, 12, 5, 0, 0, 0x60000020, 0, 3, 0xd4af8a65401bf6d1, 0xfcd7b28d68431ef9]),
    // add rax, rcx
    (b"\x48\x01\xC8", [0x40000278, 15, 0x8000000000000000, 1, 0, 0, 0x24ffdab5906b4621, 0x8000000000000001, 1, 0, 0, 0x60000020, 4, 3, 0xd4af8a65401bf6d1, 0xfcd7b28d68431ef9]),
    // add rax, rcx
    (b"\x48\x01\xC8", [0x40000372, 15, 0xffffffffffffffff, 1, 0, 0, 0x24ffdab5906b4621, 0, 1, 0, 0, 0x60000020, 3, 3, 0xd4af8a65401bf6d1, 0xfcd7b28d68431ef9]),
    // add rax, rcx
    (b"\x48\x01\xC8", [0x4000046c, 15, 0x8000000000000000, 0xffffffffffffffff, 0, 0, 0x24ffdab5906b4621, 0x7fffffffffffffff, 0xffffffffffffffff, 0, 0, 0x60000020, 9, 3, 0xd4af8a65401bf6d1, 0xfcd7b28d68431ef9]),
    // add rax, rcx
    (b"\x48\x01\xC8", [0x40000566, 15, 0x7fffffffffffffff, 1, 0, 0, 0x24ffdab5906b4621, 0x8000000000000000, 1, 0, 0, 0x60000020, 12, 3, 0xd4af8a65401bf6d1, 0xfcd7b28d68431ef9]),
    // add rax, rcx
    (b"\x48\x01\xC8", [0x40000660, 15, 0, 0, 0, 0, 0x24ffdab5906b4621, 0, 0, 0, 0, 0x60000020, 2, 3, 0xd4af8a65401bf6d1, 0xfcd7b28d68431ef9]),
    // add rax, rcx
    (b"\x48\x01\xC8", [0x4000075a, 15, 0x123456789abcdef0, 0xfedcba987654321, 0, 0, 0x24ffdab5906b4621, 0x2222222222222211, 0xfedcba987654321, 0, 0, 0x60000020, 0, 3, 0xd4af8a65401bf6d1, 0xfcd7b28d68431ef9]),
    // sub rax, rcx
    (b"\x48\x29\xC8", [0x40000854, 15, 5, 7, 0, 0, 0x24ffdab5906b4621, 0xfffffffffffffffe, 7, 0, 0, 0x60000020, 5, 3, 0xd4af8a65401bf6d1, 0xfcd7b28d68431ef9]),
    // sub rax, rcx
    (b"\x48\x29\xC8", [0x4000094e, 15, 7, 5, 0, 0, 0x24ffdab5906b4621, 2, 5, 0, 0, 0x60000020, 0, 3, 0xd4af8a65401bf6d1, 0xfcd7b28d68431ef9]),
    // sub rax, rcx
    (b"\x48\x29\xC8", [0x40000a48, 15, 0x8000000000000000, 1, 0, 0, 0x24ffdab5906b4621, 0x7fffffffffffffff, 1, 0, 0, 0x60000020, 8, 3, 0xd4af8a65401bf6d1, 0xfcd7b28d68431ef9]),
    // sub rax, rcx
    (b"\x48\x29\xC8", [0x40000b42, 15, 0xffffffffffffffff, 1, 0, 0, 0x24ffdab5906b4621, 0xfffffffffffffffe, 1, 0, 0, 0x60000020, 4, 3, 0xd4af8a65401bf6d1, 0xfcd7b28d68431ef9]),
    // sub rax, rcx
    (b"\x48\x29\xC8", [0x40000c3c, 15, 0x8000000000000000, 0xffffffffffffffff, 0, 0, 0x24ffdab5906b4621, 0x8000000000000001, 0xffffffffffffffff, 0, 0, 0x60000020, 5, 3, 0xd4af8a65401bf6d1, 0xfcd7b28d68431ef9]),
    // sub rax, rcx
    (b"\x48\x29\xC8", [0x40000d36, 15, 0x7fffffffffffffff, 1, 0, 0, 0x24ffdab5906b4621, 0x7ffffffffffffffe, 1, 0, 0, 0x60000020, 0, 3, 0xd4af8a65401bf6d1, 0xfcd7b28d68431ef9]),
    // sub rax, rcx
    (b"\x48\x29\xC8", [0x40000e30, 15, 0, 0, 0, 0, 0x24ffdab5906b4621, 0, 0, 0, 0, 0x60000020, 2, 3, 0xd4af8a65401bf6d1, 0xfcd7b28d68431ef9]),
    // sub rax, rcx
    (b"\x48\x29\xC8", [0x40000f2a, 15, 0x123456789abcdef0, 0xfedcba987654321, 0, 0, 0x24ffdab5906b4621, 0x2468acf13579bcf, 0xfedcba987654321, 0, 0, 0x60000020, 0, 3, 0xd4af8a65401bf6d1, 0xfcd7b28d68431ef9]),
    // cmp rax, rcx
    (b"\x48\x39\xC8", [0x40001024, 15, 5, 7, 0, 0, 0x24ffdab5906b4621, 5, 7, 0, 0, 0x60000020, 5, 3, 0xd4af8a65401bf6d1, 0xfcd7b28d68431ef9]),
    // cmp rax, rcx
    (b"\x48\x39\xC8", [0x4000111e, 15, 7, 5, 0, 0, 0x24ffdab5906b4621, 7, 5, 0, 0, 0x60000020, 0, 3, 0xd4af8a65401bf6d1, 0xfcd7b28d68431ef9]),
    // cmp rax, rcx
    (b"\x48\x39\xC8", [0x40001218, 15, 0x8000000000000000, 1, 0, 0, 0x24ffdab5906b4621, 0x8000000000000000, 1, 0, 0, 0x60000020, 8, 3, 0xd4af8a65401bf6d1, 0xfcd7b28d68431ef9]),
    // cmp rax, rcx
    (b"\x48\x39\xC8", [0x40001312, 15, 0xffffffffffffffff, 1, 0, 0, 0x24ffdab5906b4621, 0xffffffffffffffff, 1, 0, 0, 0x60000020, 4, 3, 0xd4af8a65401bf6d1, 0xfcd7b28d68431ef9]),
    // cmp rax, rcx
    (b"\x48\x39\xC8", [0x4000140c, 15, 0x8000000000000000, 0xffffffffffffffff, 0, 0, 0x24ffdab5906b4621, 0x8000000000000000, 0xffffffffffffffff, 0, 0, 0x60000020, 5, 3, 0xd4af8a65401bf6d1, 0xfcd7b28d68431ef9]),
    // cmp rax, rcx
    (b"\x48\x39\xC8", [0x40001506, 15, 0x7fffffffffffffff, 1, 0, 0, 0x24ffdab5906b4621, 0x7fffffffffffffff, 1, 0, 0, 0x60000020, 0, 3, 0xd4af8a65401bf6d1, 0xfcd7b28d68431ef9]),
    // cmp rax, rcx
    (b"\x48\x39\xC8", [0x40001600, 15, 0, 0, 0, 0, 0x24ffdab5906b4621, 0, 0, 0, 0, 0x60000020, 2, 3, 0xd4af8a65401bf6d1, 0xfcd7b28d68431ef9]),
    // cmp rax, rcx
    (b"\x48\x39\xC8", [0x400016fa, 15, 0x123456789abcdef0, 0xfedcba987654321, 0, 0, 0x24ffdab5906b4621, 0x123456789abcdef0, 0xfedcba987654321, 0, 0, 0x60000020, 0, 3, 0xd4af8a65401bf6d1, 0xfcd7b28d68431ef9]),
    // and rax, rcx
    (b"\x48\x21\xC8", [0x400017f4, 15, 5, 7, 0, 0, 0x24ffdab5906b4621, 5, 7, 0, 0, 0x60000020, 0, 3, 0xd4af8a65401bf6d1, 0xfcd7b28d68431ef9]),
    // and rax, rcx
    (b"\x48\x21\xC8", [0x400018ee, 15, 0x8000000000000000, 1, 0, 0, 0x24ffdab5906b4621, 0, 1, 0, 0, 0x60000020, 2, 3, 0xd4af8a65401bf6d1, 0xfcd7b28d68431ef9]),
    // and rax, rcx
    (b"\x48\x21\xC8", [0x400019e8, 15, 0x123456789abcdef0, 0xfedcba987654321, 0, 0, 0x24ffdab5906b4621, 0x224422882244220, 0xfedcba987654321, 0, 0, 0x60000020, 0, 3, 0xd4af8a65401bf6d1, 0xfcd7b28d68431ef9]),
    // or rax, rcx
    (b"\x48\x09\xC8", [0x40001ae2, 15, 5, 7, 0, 0, 0x24ffdab5906b4621, 7, 7, 0, 0, 0x60000020, 0, 3, 0xd4af8a65401bf6d1, 0xfcd7b28d68431ef9]),
    // or rax, rcx
    (b"\x48\x09\xC8", [0x40001bdc, 15, 0x8000000000000000, 1, 0, 0, 0x24ffdab5906b4621, 0x8000000000000001, 1, 0, 0, 0x60000020, 4, 3, 0xd4af8a65401bf6d1, 0xfcd7b28d68431ef9]),
    // or rax, rcx
    (b"\x48\x09\xC8", [0x40001cd6, 15, 0x123456789abcdef0, 0xfedcba987654321, 0, 0, 0x24ffdab5906b4621, 0x1ffddff99ffddff1, 0xfedcba987654321, 0, 0, 0x60000020, 0, 3, 0xd4af8a65401bf6d1, 0xfcd7b28d68431ef9]),
    // xor rax, rcx
    (b"\x48\x31\xC8", [0x40001dd0, 15, 5, 7, 0, 0, 0x24ffdab5906b4621, 2, 7, 0, 0, 0x60000020, 0, 3, 0xd4af8a65401bf6d1, 0xfcd7b28d68431ef9]),
    // xor rax, rcx
    (b"\x48\x31\xC8", [0x40001eca, 15, 0x8000000000000000, 1, 0, 0, 0x24ffdab5906b4621, 0x8000000000000001, 1, 0, 0, 0x60000020, 4, 3, 0xd4af8a65401bf6d1, 0xfcd7b28d68431ef9]),
    // xor rax, rcx
    (b"\x48\x31\xC8", [0x40001fc4, 15, 0x123456789abcdef0, 0xfedcba987654321, 0, 0, 0x24ffdab5906b4621, 0x1dd99dd11dd99dd1, 0xfedcba987654321, 0, 0, 0x60000020, 0, 3, 0xd4af8a65401bf6d1, 0xfcd7b28d68431ef9]),
    // test rax, rcx
    (b"\x48\x85\xC8", [0x400020be, 15, 5, 7, 0, 0, 0x24ffdab5906b4621, 5, 7, 0, 0, 0x60000020, 0, 3, 0xd4af8a65401bf6d1, 0xfcd7b28d68431ef9]),
    // test rax, rcx
    (b"\x48\x85\xC8", [0x400021b8, 15, 0x8000000000000000, 1, 0, 0, 0x24ffdab5906b4621, 0x8000000000000000, 1, 0, 0, 0x60000020, 2, 3, 0xd4af8a65401bf6d1, 0xfcd7b28d68431ef9]),
    // test rax, rcx
    (b"\x48\x85\xC8", [0x400022b2, 15, 0x123456789abcdef0, 0xfedcba987654321, 0, 0, 0x24ffdab5906b4621, 0x123456789abcdef0, 0xfedcba987654321, 0, 0, 0x60000020, 0, 3, 0xd4af8a65401bf6d1, 0xfcd7b28d68431ef9]),
    // add rcx, -128
    (b"\x48\x83\xC1\x80", [0x400023a9, 0, 0, 0x64, 0, 0, 0x24ffdab5906b4621, 0, 0xffffffffffffffe4, 0, 0, 0x60000020, 4, 4, 0xd4af8a65401bf6d1, 0xfcd7b28d68431ef9]),
    // add rcx, 100
    (b"\x48\x83\xC1\x64", [0x400024a1, 0, 0, 0x64, 0, 0, 0x24ffdab5906b4621, 0, 0xc8, 0, 0, 0x60000020, 0, 4, 0xd4af8a65401bf6d1, 0xfcd7b28d68431ef9]),
    // add rcx, -2147483648
    (b"\x48\x81\xC1\x00\x00\x00\x80", [0x40002599, 0, 0, 0x64, 0, 0, 0x24ffdab5906b4621, 0, 0xffffffff80000064, 0, 0, 0x60000020, 4, 7, 0xd4af8a65401bf6d1, 0xfcd7b28d68431ef9]),
    // or rcx, -128
    (b"\x48\x83\xC9\x80", [0x40002694, 0, 0, 0x64, 0, 0, 0x24ffdab5906b4621, 0, 0xffffffffffffffe4, 0, 0, 0x60000020, 4, 4, 0xd4af8a65401bf6d1, 0xfcd7b28d68431ef9]),
    // or rcx, 100
    (b"\x48\x83\xC9\x64", [0x4000278c, 0, 0, 0x64, 0, 0, 0x24ffdab5906b4621, 0, 0x64, 0, 0, 0x60000020, 0, 4, 0xd4af8a65401bf6d1, 0xfcd7b28d68431ef9]),
    // or rcx, -2147483648
    (b"\x48\x81\xC9\x00\x00\x00\x80", [0x40002884, 0, 0, 0x64, 0, 0, 0x24ffdab5906b4621, 0, 0xffffffff80000064, 0, 0, 0x60000020, 4, 7, 0xd4af8a65401bf6d1, 0xfcd7b28d68431ef9]),
    // and rcx, -128
    (b"\x48\x83\xE1\x80", [0x4000297f, 0, 0, 0x64, 0, 0, 0x24ffdab5906b4621, 0, 0, 0, 0, 0x60000020, 2, 4, 0xd4af8a65401bf6d1, 0xfcd7b28d68431ef9]),
    // and rcx, 100
    (b"\x48\x83\xE1\x64", [0x40002a77, 0, 0, 0x64, 0, 0, 0x24ffdab5906b4621, 0, 0x64, 0, 0, 0x60000020, 0, 4, 0xd4af8a65401bf6d1, 0xfcd7b28d68431ef9]),
    // and rcx, -2147483648
    (b"\x48\x81\xE1\x00\x00\x00\x80", [0x40002b6f, 0, 0, 0x64, 0, 0, 0x24ffdab5906b4621, 0, 0, 0, 0, 0x60000020, 2, 7, 0xd4af8a65401bf6d1, 0xfcd7b28d68431ef9]),
    // sub rcx, -128
    (b"\x48\x83\xE9\x80", [0x40002c6a, 0, 0, 0x64, 0, 0, 0x24ffdab5906b4621, 0, 0xe4, 0, 0, 0x60000020, 1, 4, 0xd4af8a65401bf6d1, 0xfcd7b28d68431ef9]),
    // sub rcx, 100
    (b"\x48\x83\xE9\x64", [0x40002d62, 0, 0, 0x64, 0, 0, 0x24ffdab5906b4621, 0, 0, 0, 0, 0x60000020, 2, 4, 0xd4af8a65401bf6d1, 0xfcd7b28d68431ef9]),
    // sub rcx, -2147483648
    (b"\x48\x81\xE9\x00\x00\x00\x80", [0x40002e5a, 0, 0, 0x64, 0, 0, 0x24ffdab5906b4621, 0, 0x80000064, 0, 0, 0x60000020, 1, 7, 0xd4af8a65401bf6d1, 0xfcd7b28d68431ef9]),
    // xor rcx, -128
    (b"\x48\x83\xF1\x80", [0x40002f55, 0, 0, 0x64, 0, 0, 0x24ffdab5906b4621, 0, 0xffffffffffffffe4, 0, 0, 0x60000020, 4, 4, 0xd4af8a65401bf6d1, 0xfcd7b28d68431ef9]),
    // xor rcx, 100
    (b"\x48\x83\xF1\x64", [0x4000304d, 0, 0, 0x64, 0, 0, 0x24ffdab5906b4621, 0, 0, 0, 0, 0x60000020, 2, 4, 0xd4af8a65401bf6d1, 0xfcd7b28d68431ef9]),
    // xor rcx, -2147483648
    (b"\x48\x81\xF1\x00\x00\x00\x80", [0x40003145, 0, 0, 0x64, 0, 0, 0x24ffdab5906b4621, 0, 0xffffffff80000064, 0, 0, 0x60000020, 4, 7, 0xd4af8a65401bf6d1, 0xfcd7b28d68431ef9]),
    // cmp rcx, -128
    (b"\x48\x83\xF9\x80", [0x40003240, 0, 0, 0x64, 0, 0, 0x24ffdab5906b4621, 0, 0x64, 0, 0, 0x60000020, 1, 4, 0xd4af8a65401bf6d1, 0xfcd7b28d68431ef9]),
    // cmp rcx, 100
    (b"\x48\x83\xF9\x64", [0x40003338, 0, 0, 0x64, 0, 0, 0x24ffdab5906b4621, 0, 0x64, 0, 0, 0x60000020, 2, 4, 0xd4af8a65401bf6d1, 0xfcd7b28d68431ef9]),
    // cmp rcx, -2147483648
    (b"\x48\x81\xF9\x00\x00\x00\x80", [0x40003430, 0, 0, 0x64, 0, 0, 0x24ffdab5906b4621, 0, 0x64, 0, 0, 0x60000020, 1, 7, 0xd4af8a65401bf6d1, 0xfcd7b28d68431ef9]),
    // imul rax, rcx
    (b"\x48\x0F\xAF\xC1", [0x4000352e, 15, 5, 7, 0, 0, 0x24ffdab5906b4621, 35, 7, 0, 0, 0x60000020, 0, 4, 0xd4af8a65401bf6d1, 0xfcd7b28d68431ef9]),
    // imul rax, rcx
    (b"\x48\x0F\xAF\xC1", [0x40003629, 15, 7, 5, 0, 0, 0x24ffdab5906b4621, 35, 5, 0, 0, 0x60000020, 0, 4, 0xd4af8a65401bf6d1, 0xfcd7b28d68431ef9]),
    // imul rax, rcx
    (b"\x48\x0F\xAF\xC1", [0x40003724, 15, 0x8000000000000000, 1, 0, 0, 0x24ffdab5906b4621, 0x8000000000000000, 1, 0, 0, 0x60000020, 0, 4, 0xd4af8a65401bf6d1, 0xfcd7b28d68431ef9]),
    // imul rax, rcx
    (b"\x48\x0F\xAF\xC1", [0x4000381f, 15, 0xffffffffffffffff, 1, 0, 0, 0x24ffdab5906b4621, 0xffffffffffffffff, 1, 0, 0, 0x60000020, 0, 4, 0xd4af8a65401bf6d1, 0xfcd7b28d68431ef9]),
    // imul rax, rcx
    (b"\x48\x0F\xAF\xC1", [0x4000391a, 15, 0x8000000000000000, 0xffffffffffffffff, 0, 0, 0x24ffdab5906b4621, 0x8000000000000000, 0xffffffffffffffff, 0, 0, 0x60000020, 9, 4, 0xd4af8a65401bf6d1, 0xfcd7b28d68431ef9]),
    // imul rax, rcx
    (b"\x48\x0F\xAF\xC1", [0x40003a15, 15, 0x7fffffffffffffff, 1, 0, 0, 0x24ffdab5906b4621, 0x7fffffffffffffff, 1, 0, 0, 0x60000020, 0, 4, 0xd4af8a65401bf6d1, 0xfcd7b28d68431ef9]),
    // imul rax, rcx
    (b"\x48\x0F\xAF\xC1", [0x40003b10, 15, 0x100000000, 0x80000000, 0, 0, 0x24ffdab5906b4621, 0x8000000000000000, 0x80000000, 0, 0, 0x60000020, 9, 4, 0xd4af8a65401bf6d1, 0xfcd7b28d68431ef9]),
    // imul rax, rcx
    (b"\x48\x0F\xAF\xC1", [0x40003c0b, 15, 0x100000000, 0x7fffffff, 0, 0, 0x24ffdab5906b4621, 0x7fffffff00000000, 0x7fffffff, 0, 0, 0x60000020, 0, 4, 0xd4af8a65401bf6d1, 0xfcd7b28d68431ef9]),
    // imul rax, rcx
    (b"\x48\x0F\xAF\xC1", [0x40003d06, 15, 0x8000000000000000, 0, 0, 0, 0x24ffdab5906b4621, 0, 0, 0, 0, 0x60000020, 0, 4, 0xd4af8a65401bf6d1, 0xfcd7b28d68431ef9]),
    // not rdx
    (b"\x48\xF7\xD2", [0x40003dfe, 0, 0, 0, 0, 0, 0x24ffdab5906b4621, 0, 0, 0xffffffffffffffff, 0, 0x60000020, 0, 3, 0xd4af8a65401bf6d1, 0xfcd7b28d68431ef9]),
    // not rdx
    (b"\x48\xF7\xD2", [0x40003ef5, 0, 0, 0, 5, 0, 0x24ffdab5906b4621, 0, 0, 0xfffffffffffffffa, 0, 0x60000020, 0, 3, 0xd4af8a65401bf6d1, 0xfcd7b28d68431ef9]),
    // not rdx
    (b"\x48\xF7\xD2", [0x40003fec, 0, 0, 0, 0x8000000000000000, 0, 0x24ffdab5906b4621, 0, 0, 0x7fffffffffffffff, 0, 0x60000020, 0, 3, 0xd4af8a65401bf6d1, 0xfcd7b28d68431ef9]),
    // not rdx
    (b"\x48\xF7\xD2", [0x400040e3, 0, 0, 0, 0xffffffffffffffff, 0, 0x24ffdab5906b4621, 0, 0, 0, 0, 0x60000020, 0, 3, 0xd4af8a65401bf6d1, 0xfcd7b28d68431ef9]),
    // neg rdx
    (b"\x48\xF7\xDA", [0x400041da, 0, 0, 0, 0, 0, 0x24ffdab5906b4621, 0, 0, 0, 0, 0x60000020, 2, 3, 0xd4af8a65401bf6d1, 0xfcd7b28d68431ef9]),
    // neg rdx
    (b"\x48\xF7\xDA", [0x400042d1, 0, 0, 0, 5, 0, 0x24ffdab5906b4621, 0, 0, 0xfffffffffffffffb, 0, 0x60000020, 5, 3, 0xd4af8a65401bf6d1, 0xfcd7b28d68431ef9]),
    // neg rdx
    (b"\x48\xF7\xDA", [0x400043c8, 0, 0, 0, 0x8000000000000000, 0, 0x24ffdab5906b4621, 0, 0, 0x8000000000000000, 0, 0x60000020, 13, 3, 0xd4af8a65401bf6d1, 0xfcd7b28d68431ef9]),
    // neg rdx
    (b"\x48\xF7\xDA", [0x400044bf, 0, 0, 0, 0xffffffffffffffff, 0, 0x24ffdab5906b4621, 0, 0, 1, 0, 0x60000020, 1, 3, 0xd4af8a65401bf6d1, 0xfcd7b28d68431ef9]),
    // cqo
    (b"\x48\x99", [0x400045b9, 5, 5, 0, 77, 0, 0x24ffdab5906b4621, 5, 0, 0, 0, 0x60000020, 5, 2, 0xd4af8a65401bf6d1, 0xfcd7b28d68431ef9]),
    // cqo
    (b"\x48\x99", [0x400046b2, 5, 0x8000000000000000, 0, 77, 0, 0x24ffdab5906b4621, 0x8000000000000000, 0, 0xffffffffffffffff, 0, 0x60000020, 5, 2, 0xd4af8a65401bf6d1, 0xfcd7b28d68431ef9]),
    // cqo
    (b"\x48\x99", [0x400047ab, 5, 0xffffffffffffffff, 0, 77, 0, 0x24ffdab5906b4621, 0xffffffffffffffff, 0, 0xffffffffffffffff, 0, 0x60000020, 5, 2, 0xd4af8a65401bf6d1, 0xfcd7b28d68431ef9]),
    // shl rdx, cl
    (b"\x48\xD3\xE2", [0x400048a4, 15, 0, 0, 0xfedcba9876543210, 0, 0x24ffdab5906b4621, 0, 0, 0xfedcba9876543210, 0, 0x60000020, 15, 3, 0xd4af8a65401bf6d1, 0xfcd7b28d68431ef9]),
    // shl rdx, cl
    (b"\x48\xD3\xE2", [0x4000499e, 15, 0, 0, 3, 0, 0x24ffdab5906b4621, 0, 0, 3, 0, 0x60000020, 15, 3, 0xd4af8a65401bf6d1, 0xfcd7b28d68431ef9]),
    // shl rdx, cl
    (b"\x48\xD3\xE2", [0x40004a98, 15, 0, 1, 0xfedcba9876543210, 0, 0x24ffdab5906b4621, 0, 1, 0xfdb97530eca86420, 0, 0x60000020, 5, 3, 0xd4af8a65401bf6d1, 0xfcd7b28d68431ef9]),
    // shl rdx, cl
    (b"\x48\xD3\xE2", [0x40004b92, 15, 0, 1, 3, 0, 0x24ffdab5906b4621, 0, 1, 6, 0, 0x60000020, 0, 3, 0xd4af8a65401bf6d1, 0xfcd7b28d68431ef9]),
    // shl rdx, cl
    (b"\x48\xD3\xE2", [0x40004c8c, 15, 0, 4, 0xfedcba9876543210, 0, 0x24ffdab5906b4621, 0, 4, 0xedcba98765432100, 0, 0x60000020, 5, 3, 0xd4af8a65401bf6d1, 0xfcd7b28d68431ef9]),
    // shl rdx, cl
    (b"\x48\xD3\xE2", [0x40004d86, 15, 0, 4, 3, 0, 0x24ffdab5906b4621, 0, 4, 48, 0, 0x60000020, 0, 3, 0xd4af8a65401bf6d1, 0xfcd7b28d68431ef9]),
    // shl rdx, cl
    (b"\x48\xD3\xE2", [0x40004e80, 15, 0, 63, 0xfedcba9876543210, 0, 0x24ffdab5906b4621, 0, 63, 0, 0, 0x60000020, 2, 3, 0xd4af8a65401bf6d1, 0xfcd7b28d68431ef9]),
    // shl rdx, cl
    (b"\x48\xD3\xE2", [0x40004f7a, 15, 0, 63, 3, 0, 0x24ffdab5906b4621, 0, 63, 0x8000000000000000, 0, 0x60000020, 5, 3, 0xd4af8a65401bf6d1, 0xfcd7b28d68431ef9]),
    // shl rdx, cl
    (b"\x48\xD3\xE2", [0x40005074, 15, 0, 64, 0xfedcba9876543210, 0, 0x24ffdab5906b4621, 0, 64, 0xfedcba9876543210, 0, 0x60000020, 15, 3, 0xd4af8a65401bf6d1, 0xfcd7b28d68431ef9]),
    // shl rdx, cl
    (b"\x48\xD3\xE2", [0x4000516e, 15, 0, 64, 3, 0, 0x24ffdab5906b4621, 0, 64, 3, 0, 0x60000020, 15, 3, 0xd4af8a65401bf6d1, 0xfcd7b28d68431ef9]),
    // shl rdx, cl
    (b"\x48\xD3\xE2", [0x40005268, 15, 0, 65, 0xfedcba9876543210, 0, 0x24ffdab5906b4621, 0, 65, 0xfdb97530eca86420, 0, 0x60000020, 5, 3, 0xd4af8a65401bf6d1, 0xfcd7b28d68431ef9]),
    // shl rdx, cl
    (b"\x48\xD3\xE2", [0x40005362, 15, 0, 65, 3, 0, 0x24ffdab5906b4621, 0, 65, 6, 0, 0x60000020, 0, 3, 0xd4af8a65401bf6d1, 0xfcd7b28d68431ef9]),
    // shl rdx, cl
    (b"\x48\xD3\xE2", [0x4000545c, 15, 0, 0x144, 0xfedcba9876543210, 0, 0x24ffdab5906b4621, 0, 0x144, 0xedcba98765432100, 0, 0x60000020, 5, 3, 0xd4af8a65401bf6d1, 0xfcd7b28d68431ef9]),
    // shl rdx, cl
    (b"\x48\xD3\xE2", [0x40005556, 15, 0, 0x144, 3, 0, 0x24ffdab5906b4621, 0, 0x144, 48, 0, 0x60000020, 0, 3, 0xd4af8a65401bf6d1, 0xfcd7b28d68431ef9]),
    // shl rdx, 2
    (b"\x48\xC1\xE2\x02", [0x4000564d, 0, 0, 0, 0xfedcba9876543210, 0, 0x24ffdab5906b4621, 0, 0, 0xfb72ea61d950c840, 0, 0x60000020, 5, 4, 0xd4af8a65401bf6d1, 0xfcd7b28d68431ef9]),
    // shl rdx, 63
    (b"\x48\xC1\xE2\x3F", [0x40005745, 0, 0, 0, 0xfedcba9876543210, 0, 0x24ffdab5906b4621, 0, 0, 0, 0, 0x60000020, 2, 4, 0xd4af8a65401bf6d1, 0xfcd7b28d68431ef9]),
    // shr rdx, cl
    (b"\x48\xD3\xEA", [0x40005840, 15, 0, 0, 0xfedcba9876543210, 0, 0x24ffdab5906b4621, 0, 0, 0xfedcba9876543210, 0, 0x60000020, 15, 3, 0xd4af8a65401bf6d1, 0xfcd7b28d68431ef9]),
    // shr rdx, cl
    (b"\x48\xD3\xEA", [0x4000593a, 15, 0, 0, 3, 0, 0x24ffdab5906b4621, 0, 0, 3, 0, 0x60000020, 15, 3, 0xd4af8a65401bf6d1, 0xfcd7b28d68431ef9]),
    // shr rdx, cl
    (b"\x48\xD3\xEA", [0x40005a34, 15, 0, 1, 0xfedcba9876543210, 0, 0x24ffdab5906b4621, 0, 1, 0x7f6e5d4c3b2a1908, 0, 0x60000020, 8, 3, 0xd4af8a65401bf6d1, 0xfcd7b28d68431ef9]),
    // shr rdx, cl
    (b"\x48\xD3\xEA", [0x40005b2e, 15, 0, 1, 3, 0, 0x24ffdab5906b4621, 0, 1, 1, 0, 0x60000020, 1, 3, 0xd4af8a65401bf6d1, 0xfcd7b28d68431ef9]),
    // shr rdx, cl
    (b"\x48\xD3\xEA", [0x40005c28, 15, 0, 4, 0xfedcba9876543210, 0, 0x24ffdab5906b4621, 0, 4, 0xfedcba987654321, 0, 0x60000020, 0, 3, 0xd4af8a65401bf6d1, 0xfcd7b28d68431ef9]),
    // shr rdx, cl
    (b"\x48\xD3\xEA", [0x40005d22, 15, 0, 4, 3, 0, 0x24ffdab5906b4621, 0, 4, 0, 0, 0x60000020, 2, 3, 0xd4af8a65401bf6d1, 0xfcd7b28d68431ef9]),
    // shr rdx, cl
    (b"\x48\xD3\xEA", [0x40005e1c, 15, 0, 63, 0xfedcba9876543210, 0, 0x24ffdab5906b4621, 0, 63, 1, 0, 0x60000020, 1, 3, 0xd4af8a65401bf6d1, 0xfcd7b28d68431ef9]),
    // shr rdx, cl
    (b"\x48\xD3\xEA", [0x40005f16, 15, 0, 63, 3, 0, 0x24ffdab5906b4621, 0, 63, 0, 0, 0x60000020, 2, 3, 0xd4af8a65401bf6d1, 0xfcd7b28d68431ef9]),
    // shr rdx, cl
    (b"\x48\xD3\xEA", [0x40006010, 15, 0, 64, 0xfedcba9876543210, 0, 0x24ffdab5906b4621, 0, 64, 0xfedcba9876543210, 0, 0x60000020, 15, 3, 0xd4af8a65401bf6d1, 0xfcd7b28d68431ef9]),
    // shr rdx, cl
    (b"\x48\xD3\xEA", [0x4000610a, 15, 0, 64, 3, 0, 0x24ffdab5906b4621, 0, 64, 3, 0, 0x60000020, 15, 3, 0xd4af8a65401bf6d1, 0xfcd7b28d68431ef9]),
    // shr rdx, cl
    (b"\x48\xD3\xEA", [0x40006204, 15, 0, 65, 0xfedcba9876543210, 0, 0x24ffdab5906b4621, 0, 65, 0x7f6e5d4c3b2a1908, 0, 0x60000020, 8, 3, 0xd4af8a65401bf6d1, 0xfcd7b28d68431ef9]),
    // shr rdx, cl
    (b"\x48\xD3\xEA", [0x400062fe, 15, 0, 65, 3, 0, 0x24ffdab5906b4621, 0, 65, 1, 0, 0x60000020, 1, 3, 0xd4af8a65401bf6d1, 0xfcd7b28d68431ef9]),
    // shr rdx, cl
    (b"\x48\xD3\xEA", [0x400063f8, 15, 0, 0x144, 0xfedcba9876543210, 0, 0x24ffdab5906b4621, 0, 0x144, 0xfedcba987654321, 0, 0x60000020, 0, 3, 0xd4af8a65401bf6d1, 0xfcd7b28d68431ef9]),
    // shr rdx, cl
    (b"\x48\xD3\xEA", [0x400064f2, 15, 0, 0x144, 3, 0, 0x24ffdab5906b4621, 0, 0x144, 0, 0, 0x60000020, 2, 3, 0xd4af8a65401bf6d1, 0xfcd7b28d68431ef9]),
    // shr rdx, 2
    (b"\x48\xC1\xEA\x02", [0x400065e9, 0, 0, 0, 0xfedcba9876543210, 0, 0x24ffdab5906b4621, 0, 0, 0x3fb72ea61d950c84, 0, 0x60000020, 0, 4, 0xd4af8a65401bf6d1, 0xfcd7b28d68431ef9]),
    // shr rdx, 63
    (b"\x48\xC1\xEA\x3F", [0x400066e1, 0, 0, 0, 0xfedcba9876543210, 0, 0x24ffdab5906b4621, 0, 0, 1, 0, 0x60000020, 1, 4, 0xd4af8a65401bf6d1, 0xfcd7b28d68431ef9]),
    // sar rdx, cl
    (b"\x48\xD3\xFA", [0x400067dc, 15, 0, 0, 0xfedcba9876543210, 0, 0x24ffdab5906b4621, 0, 0, 0xfedcba9876543210, 0, 0x60000020, 15, 3, 0xd4af8a65401bf6d1, 0xfcd7b28d68431ef9]),
    // sar rdx, cl
    (b"\x48\xD3\xFA", [0x400068d6, 15, 0, 0, 3, 0, 0x24ffdab5906b4621, 0, 0, 3, 0, 0x60000020, 15, 3, 0xd4af8a65401bf6d1, 0xfcd7b28d68431ef9]),
    // sar rdx, cl
    (b"\x48\xD3\xFA", [0x400069d0, 15, 0, 1, 0xfedcba9876543210, 0, 0x24ffdab5906b4621, 0, 1, 0xff6e5d4c3b2a1908, 0, 0x60000020, 4, 3, 0xd4af8a65401bf6d1, 0xfcd7b28d68431ef9]),
    // sar rdx, cl
    (b"\x48\xD3\xFA", [0x40006aca, 15, 0, 1, 3, 0, 0x24ffdab5906b4621, 0, 1, 1, 0, 0x60000020, 1, 3, 0xd4af8a65401bf6d1, 0xfcd7b28d68431ef9]),
    // sar rdx, cl
    (b"\x48\xD3\xFA", [0x40006bc4, 15, 0, 4, 0xfedcba9876543210, 0, 0x24ffdab5906b4621, 0, 4, 0xffedcba987654321, 0, 0x60000020, 4, 3, 0xd4af8a65401bf6d1, 0xfcd7b28d68431ef9]),
    // sar rdx, cl
    (b"\x48\xD3\xFA", [0x40006cbe, 15, 0, 4, 3, 0, 0x24ffdab5906b4621, 0, 4, 0, 0, 0x60000020, 2, 3, 0xd4af8a65401bf6d1, 0xfcd7b28d68431ef9]),
    // sar rdx, cl
    (b"\x48\xD3\xFA", [0x40006db8, 15, 0, 63, 0xfedcba9876543210, 0, 0x24ffdab5906b4621, 0, 63, 0xffffffffffffffff, 0, 0x60000020, 5, 3, 0xd4af8a65401bf6d1, 0xfcd7b28d68431ef9]),
    // sar rdx, cl
    (b"\x48\xD3\xFA", [0x40006eb2, 15, 0, 63, 3, 0, 0x24ffdab5906b4621, 0, 63, 0, 0, 0x60000020, 2, 3, 0xd4af8a65401bf6d1, 0xfcd7b28d68431ef9]),
    // sar rdx, cl
    (b"\x48\xD3\xFA", [0x40006fac, 15, 0, 64, 0xfedcba9876543210, 0, 0x24ffdab5906b4621, 0, 64, 0xfedcba9876543210, 0, 0x60000020, 15, 3, 0xd4af8a65401bf6d1, 0xfcd7b28d68431ef9]),
    // sar rdx, cl
    (b"\x48\xD3\xFA", [0x400070a6, 15, 0, 64, 3, 0, 0x24ffdab5906b4621, 0, 64, 3, 0, 0x60000020, 15, 3, 0xd4af8a65401bf6d1, 0xfcd7b28d68431ef9]),
    // sar rdx, cl
    (b"\x48\xD3\xFA", [0x400071a0, 15, 0, 65, 0xfedcba9876543210, 0, 0x24ffdab5906b4621, 0, 65, 0xff6e5d4c3b2a1908, 0, 0x60000020, 4, 3, 0xd4af8a65401bf6d1, 0xfcd7b28d68431ef9]),
    // sar rdx, cl
    (b"\x48\xD3\xFA", [0x4000729a, 15, 0, 65, 3, 0, 0x24ffdab5906b4621, 0, 65, 1, 0, 0x60000020, 1, 3, 0xd4af8a65401bf6d1, 0xfcd7b28d68431ef9]),
    // sar rdx, cl
    (b"\x48\xD3\xFA", [0x40007394, 15, 0, 0x144, 0xfedcba9876543210, 0, 0x24ffdab5906b4621, 0, 0x144, 0xffedcba987654321, 0, 0x60000020, 4, 3, 0xd4af8a65401bf6d1, 0xfcd7b28d68431ef9]),
    // sar rdx, cl
    (b"\x48\xD3\xFA", [0x4000748e, 15, 0, 0x144, 3, 0, 0x24ffdab5906b4621, 0, 0x144, 0, 0, 0x60000020, 2, 3, 0xd4af8a65401bf6d1, 0xfcd7b28d68431ef9]),
    // sar rdx, 2
    (b"\x48\xC1\xFA\x02", [0x40007585, 0, 0, 0, 0xfedcba9876543210, 0, 0x24ffdab5906b4621, 0, 0, 0xffb72ea61d950c84, 0, 0x60000020, 4, 4, 0xd4af8a65401bf6d1, 0xfcd7b28d68431ef9]),
    // sar rdx, 63
    (b"\x48\xC1\xFA\x3F", [0x4000767d, 0, 0, 0, 0xfedcba9876543210, 0, 0x24ffdab5906b4621, 0, 0, 0xffffffffffffffff, 0, 0x60000020, 5, 4, 0xd4af8a65401bf6d1, 0xfcd7b28d68431ef9]),
    // shl rdx, 0
    (b"\x48\xC1\xE2\x00", [0x40007778, 15, 0, 0, 0xfedcba9876543210, 0, 0x24ffdab5906b4621, 0, 0, 0xfedcba9876543210, 0, 0x60000020, 15, 4, 0xd4af8a65401bf6d1, 0xfcd7b28d68431ef9]),
    // shl rdx, 1
    (b"\x48\xC1\xE2\x01", [0x40007873, 15, 0, 0, 0xfedcba9876543210, 0, 0x24ffdab5906b4621, 0, 0, 0xfdb97530eca86420, 0, 0x60000020, 5, 4, 0xd4af8a65401bf6d1, 0xfcd7b28d68431ef9]),
    // shr rdx, 0
    (b"\x48\xC1\xEA\x00", [0x4000796e, 15, 0, 0, 0xfedcba9876543210, 0, 0x24ffdab5906b4621, 0, 0, 0xfedcba9876543210, 0, 0x60000020, 15, 4, 0xd4af8a65401bf6d1, 0xfcd7b28d68431ef9]),
    // shr rdx, 1
    (b"\x48\xC1\xEA\x01", [0x40007a69, 15, 0, 0, 0xfedcba9876543210, 0, 0x24ffdab5906b4621, 0, 0, 0x7f6e5d4c3b2a1908, 0, 0x60000020, 8, 4, 0xd4af8a65401bf6d1, 0xfcd7b28d68431ef9]),
    // sar rdx, 0
    (b"\x48\xC1\xFA\x00", [0x40007b64, 15, 0, 0, 0xfedcba9876543210, 0, 0x24ffdab5906b4621, 0, 0, 0xfedcba9876543210, 0, 0x60000020, 15, 4, 0xd4af8a65401bf6d1, 0xfcd7b28d68431ef9]),
    // sar rdx, 1
    (b"\x48\xC1\xFA\x01", [0x40007c5f, 15, 0, 0, 0xfedcba9876543210, 0, 0x24ffdab5906b4621, 0, 0, 0xff6e5d4c3b2a1908, 0, 0x60000020, 4, 4, 0xd4af8a65401bf6d1, 0xfcd7b28d68431ef9]),
    // div rcx
    (b"\x48\xF7\xF1", [0x40007d5a, 15, 0x64, 7, 0, 0, 0x24ffdab5906b4621, 14, 7, 2, 0, 0x60000020, 0, 3, 0xd4af8a65401bf6d1, 0xfcd7b28d68431ef9]),
    // div rcx
    (b"\x48\xF7\xF1", [0x40007e54, 15, 5, 7, 6, 0, 0x24ffdab5906b4621, 0xdb6db6db6db6db6e, 7, 3, 0, 0x60000020, 0, 3, 0xd4af8a65401bf6d1, 0xfcd7b28d68431ef9]),
    // div rcx
    (b"\x48\xF7\xF1", [0x40007f4e, 15, 0xffffffffffffffff, 1, 0, 0, 0x24ffdab5906b4621, 0xffffffffffffffff, 1, 0, 0, 0x60000020, 0, 3, 0xd4af8a65401bf6d1, 0xfcd7b28d68431ef9]),
    // div rcx
    (b"\x48\xF7\xF1", [0x40008048, 15, 0, 0xffffffffffffffff, 1, 0, 0x24ffdab5906b4621, 1, 0xffffffffffffffff, 1, 0, 0x60000020, 0, 3, 0xd4af8a65401bf6d1, 0xfcd7b28d68431ef9]),
    // div rcx
    (b"\x48\xF7\xF1", [0x40008142, 15, 9, 0xffffffffffffffff, 0xfffffffffffffffe, 0, 0x24ffdab5906b4621, 0xffffffffffffffff, 0xffffffffffffffff, 8, 0, 0x60000020, 0, 3, 0xd4af8a65401bf6d1, 0xfcd7b28d68431ef9]),
    // idiv rcx
    (b"\x48\xF7\xF9", [0x4000823c, 15, 0x64, 7, 0, 0, 0x24ffdab5906b4621, 14, 7, 2, 0, 0x60000020, 0, 3, 0xd4af8a65401bf6d1, 0xfcd7b28d68431ef9]),
    // idiv rcx
    (b"\x48\xF7\xF9", [0x40008336, 15, 0xffffffffffffff9c, 7, 0xffffffffffffffff, 0, 0x24ffdab5906b4621, 0xfffffffffffffff2, 7, 0xfffffffffffffffe, 0, 0x60000020, 0, 3, 0xd4af8a65401bf6d1, 0xfcd7b28d68431ef9]),
    // idiv rcx
    (b"\x48\xF7\xF9", [0x40008430, 15, 0x64, 0xfffffffffffffff9, 0, 0, 0x24ffdab5906b4621, 0xfffffffffffffff2, 0xfffffffffffffff9, 2, 0, 0x60000020, 0, 3, 0xd4af8a65401bf6d1, 0xfcd7b28d68431ef9]),
    // idiv rcx
    (b"\x48\xF7\xF9", [0x4000852a, 15, 0xffffffffffffff9c, 0xfffffffffffffff9, 0xffffffffffffffff, 0, 0x24ffdab5906b4621, 14, 0xfffffffffffffff9, 0xfffffffffffffffe, 0, 0x60000020, 0, 3, 0xd4af8a65401bf6d1, 0xfcd7b28d68431ef9]),
    // idiv rcx
    (b"\x48\xF7\xF9", [0x40008624, 15, 5, 7, 0, 0, 0x24ffdab5906b4621, 0, 7, 5, 0, 0x60000020, 0, 3, 0xd4af8a65401bf6d1, 0xfcd7b28d68431ef9]),
    // idiv rcx
    (b"\x48\xF7\xF9", [0x4000871e, 15, 0x8000000000000000, 1, 0xffffffffffffffff, 0, 0x24ffdab5906b4621, 0x8000000000000000, 1, 0, 0, 0x60000020, 0, 3, 0xd4af8a65401bf6d1, 0xfcd7b28d68431ef9]),
    // idiv rcx
    (b"\x48\xF7\xF9", [0x40008818, 15, 5, 0x8000000000000000, 0xc000000000000000, 0, 0x24ffdab5906b4621, 0x7fffffffffffffff, 0x8000000000000000, 0x8000000000000005, 0, 0x60000020, 0, 3, 0xd4af8a65401bf6d1, 0xfcd7b28d68431ef9]),
    // idiv rcx
    (b"\x48\xF7\xF9", [0x40008912, 15, 0xffffffffffffffff, 0x8000000000000000, 0xffffffffffffffff, 0, 0x24ffdab5906b4621, 0, 0x8000000000000000, 0xffffffffffffffff, 0, 0x60000020, 0, 3, 0xd4af8a65401bf6d1, 0xfcd7b28d68431ef9]),
    // {rex} seto dl
    (b"\x40\x0F\x90\xC2", [0x40008a09, 0, 0, 0, 0xfedcba9876543210, 0, 0x24ffdab5906b4621, 0, 0, 0xfedcba9876543200, 0, 0x60000020, 0, 4, 0xd4af8a65401bf6d1, 0xfcd7b28d68431ef9]),
    // {rex} seto dl
    (b"\x40\x0F\x90\xC2", [0x40008b01, 1, 0, 0, 0xfedcba9876543210, 0, 0x24ffdab5906b4621, 0, 0, 0xfedcba9876543200, 0, 0x60000020, 1, 4, 0xd4af8a65401bf6d1, 0xfcd7b28d68431ef9]),
    // {rex} seto dl
    (b"\x40\x0F\x90\xC2", [0x40008bfc, 10, 0, 0, 0xfedcba9876543210, 0, 0x24ffdab5906b4621, 0, 0, 0xfedcba9876543201, 0, 0x60000020, 10, 4, 0xd4af8a65401bf6d1, 0xfcd7b28d68431ef9]),
    // {rex} seto dl
    (b"\x40\x0F\x90\xC2", [0x40008cf7, 4, 0, 0, 0xfedcba9876543210, 0, 0x24ffdab5906b4621, 0, 0, 0xfedcba9876543200, 0, 0x60000020, 4, 4, 0xd4af8a65401bf6d1, 0xfcd7b28d68431ef9]),
    // {disp32} jo taken
    (b"\x0F\x80\x15\x00\x00\x00", [0x40008def, 0, 0, 0, 0, 0, 0x24ffdab5906b4621, 0, 0, 0, 0, 0x60000020, 0, 6, 0xd4af8a65401bf6d1, 0xfcd7b28d68431ef9]),
    // {disp32} jo taken
    (b"\x0F\x80\x15\x00\x00\x00", [0x40008eec, 5, 0, 0, 0, 0, 0x24ffdab5906b4621, 0, 0, 0, 0, 0x60000020, 5, 6, 0xd4af8a65401bf6d1, 0xfcd7b28d68431ef9]),
    // {disp32} jo taken
    (b"\x0F\x80\x15\x00\x00\x00", [0x40008fe6, 2, 0, 0, 0, 0, 0x24ffdab5906b4621, 0, 0, 0, 0, 0x60000020, 2, 6, 0xd4af8a65401bf6d1, 0xfcd7b28d68431ef9]),
    // {disp32} jo taken
    (b"\x0F\x80\x15\x00\x00\x00", [0x400090e3, 12, 0, 0, 0, 0, 0x24ffdab5906b4621, 0, 0, 0, 0, 0x60000020, 12, 27, 0xd4af8a65401bf6d1, 0xfcd7b28d68431ef9]),
    // {rex} setno dl
    (b"\x40\x0F\x91\xC2", [0x400091dd, 0, 0, 0, 0xfedcba9876543210, 0, 0x24ffdab5906b4621, 0, 0, 0xfedcba9876543201, 0, 0x60000020, 0, 4, 0xd4af8a65401bf6d1, 0xfcd7b28d68431ef9]),
    // {rex} setno dl
    (b"\x40\x0F\x91\xC2", [0x400092d5, 1, 0, 0, 0xfedcba9876543210, 0, 0x24ffdab5906b4621, 0, 0, 0xfedcba9876543201, 0, 0x60000020, 1, 4, 0xd4af8a65401bf6d1, 0xfcd7b28d68431ef9]),
    // {rex} setno dl
    (b"\x40\x0F\x91\xC2", [0x400093d0, 10, 0, 0, 0xfedcba9876543210, 0, 0x24ffdab5906b4621, 0, 0, 0xfedcba9876543200, 0, 0x60000020, 10, 4, 0xd4af8a65401bf6d1, 0xfcd7b28d68431ef9]),
    // {rex} setno dl
    (b"\x40\x0F\x91\xC2", [0x400094cb, 4, 0, 0, 0xfedcba9876543210, 0, 0x24ffdab5906b4621, 0, 0, 0xfedcba9876543201, 0, 0x60000020, 4, 4, 0xd4af8a65401bf6d1, 0xfcd7b28d68431ef9]),
    // {disp32} jno taken
    (b"\x0F\x81\x15\x00\x00\x00", [0x400095c3, 0, 0, 0, 0, 0, 0x24ffdab5906b4621, 0, 0, 0, 0, 0x60000020, 0, 27, 0xd4af8a65401bf6d1, 0xfcd7b28d68431ef9]),
    // {disp32} jno taken
    (b"\x0F\x81\x15\x00\x00\x00", [0x400096c0, 5, 0, 0, 0, 0, 0x24ffdab5906b4621, 0, 0, 0, 0, 0x60000020, 5, 27, 0xd4af8a65401bf6d1, 0xfcd7b28d68431ef9]),
    // {disp32} jno taken
    (b"\x0F\x81\x15\x00\x00\x00", [0x400097ba, 2, 0, 0, 0, 0, 0x24ffdab5906b4621, 0, 0, 0, 0, 0x60000020, 2, 27, 0xd4af8a65401bf6d1, 0xfcd7b28d68431ef9]),
    // {disp32} jno taken
    (b"\x0F\x81\x15\x00\x00\x00", [0x400098b7, 12, 0, 0, 0, 0, 0x24ffdab5906b4621, 0, 0, 0, 0, 0x60000020, 12, 6, 0xd4af8a65401bf6d1, 0xfcd7b28d68431ef9]),
    // {rex} setb dl
    (b"\x40\x0F\x92\xC2", [0x400099b1, 0, 0, 0, 0xfedcba9876543210, 0, 0x24ffdab5906b4621, 0, 0, 0xfedcba9876543200, 0, 0x60000020, 0, 4, 0xd4af8a65401bf6d1, 0xfcd7b28d68431ef9]),
    // {rex} setb dl
    (b"\x40\x0F\x92\xC2", [0x40009aa9, 1, 0, 0, 0xfedcba9876543210, 0, 0x24ffdab5906b4621, 0, 0, 0xfedcba9876543201, 0, 0x60000020, 1, 4, 0xd4af8a65401bf6d1, 0xfcd7b28d68431ef9]),
    // {rex} setb dl
    (b"\x40\x0F\x92\xC2", [0x40009ba4, 10, 0, 0, 0xfedcba9876543210, 0, 0x24ffdab5906b4621, 0, 0, 0xfedcba9876543200, 0, 0x60000020, 10, 4, 0xd4af8a65401bf6d1, 0xfcd7b28d68431ef9]),
    // {rex} setb dl
    (b"\x40\x0F\x92\xC2", [0x40009c9f, 4, 0, 0, 0xfedcba9876543210, 0, 0x24ffdab5906b4621, 0, 0, 0xfedcba9876543200, 0, 0x60000020, 4, 4, 0xd4af8a65401bf6d1, 0xfcd7b28d68431ef9]),
    // {disp32} jb taken
    (b"\x0F\x82\x15\x00\x00\x00", [0x40009d97, 0, 0, 0, 0, 0, 0x24ffdab5906b4621, 0, 0, 0, 0, 0x60000020, 0, 6, 0xd4af8a65401bf6d1, 0xfcd7b28d68431ef9]),
    // {disp32} jb taken
    (b"\x0F\x82\x15\x00\x00\x00", [0x40009e94, 5, 0, 0, 0, 0, 0x24ffdab5906b4621, 0, 0, 0, 0, 0x60000020, 5, 27, 0xd4af8a65401bf6d1, 0xfcd7b28d68431ef9]),
    // {disp32} jb taken
    (b"\x0F\x82\x15\x00\x00\x00", [0x40009f8e, 2, 0, 0, 0, 0, 0x24ffdab5906b4621, 0, 0, 0, 0, 0x60000020, 2, 6, 0xd4af8a65401bf6d1, 0xfcd7b28d68431ef9]),
    // {disp32} jb taken
    (b"\x0F\x82\x15\x00\x00\x00", [0x4000a08b, 12, 0, 0, 0, 0, 0x24ffdab5906b4621, 0, 0, 0, 0, 0x60000020, 12, 6, 0xd4af8a65401bf6d1, 0xfcd7b28d68431ef9]),
    // {rex} setae dl
    (b"\x40\x0F\x93\xC2", [0x4000a185, 0, 0, 0, 0xfedcba9876543210, 0, 0x24ffdab5906b4621, 0, 0, 0xfedcba9876543201, 0, 0x60000020, 0, 4, 0xd4af8a65401bf6d1, 0xfcd7b28d68431ef9]),
    // {rex} setae dl
    (b"\x40\x0F\x93\xC2", [0x4000a27d, 1, 0, 0, 0xfedcba9876543210, 0, 0x24ffdab5906b4621, 0, 0, 0xfedcba9876543200, 0, 0x60000020, 1, 4, 0xd4af8a65401bf6d1, 0xfcd7b28d68431ef9]),
    // {rex} setae dl
    (b"\x40\x0F\x93\xC2", [0x4000a378, 10, 0, 0, 0xfedcba9876543210, 0, 0x24ffdab5906b4621, 0, 0, 0xfedcba9876543201, 0, 0x60000020, 10, 4, 0xd4af8a65401bf6d1, 0xfcd7b28d68431ef9]),
    // {rex} setae dl
    (b"\x40\x0F\x93\xC2", [0x4000a473, 4, 0, 0, 0xfedcba9876543210, 0, 0x24ffdab5906b4621, 0, 0, 0xfedcba9876543201, 0, 0x60000020, 4, 4, 0xd4af8a65401bf6d1, 0xfcd7b28d68431ef9]),
    // {disp32} jae taken
    (b"\x0F\x83\x15\x00\x00\x00", [0x4000a56b, 0, 0, 0, 0, 0, 0x24ffdab5906b4621, 0, 0, 0, 0, 0x60000020, 0, 27, 0xd4af8a65401bf6d1, 0xfcd7b28d68431ef9]),
    // {disp32} jae taken
    (b"\x0F\x83\x15\x00\x00\x00", [0x4000a668, 5, 0, 0, 0, 0, 0x24ffdab5906b4621, 0, 0, 0, 0, 0x60000020, 5, 6, 0xd4af8a65401bf6d1, 0xfcd7b28d68431ef9]),
    // {disp32} jae taken
    (b"\x0F\x83\x15\x00\x00\x00", [0x4000a762, 2, 0, 0, 0, 0, 0x24ffdab5906b4621, 0, 0, 0, 0, 0x60000020, 2, 27, 0xd4af8a65401bf6d1, 0xfcd7b28d68431ef9]),
    // {disp32} jae taken
    (b"\x0F\x83\x15\x00\x00\x00", [0x4000a85f, 12, 0, 0, 0, 0, 0x24ffdab5906b4621, 0, 0, 0, 0, 0x60000020, 12, 27, 0xd4af8a65401bf6d1, 0xfcd7b28d68431ef9]),
    // {rex} sete dl
    (b"\x40\x0F\x94\xC2", [0x4000a959, 0, 0, 0, 0xfedcba9876543210, 0, 0x24ffdab5906b4621, 0, 0, 0xfedcba9876543200, 0, 0x60000020, 0, 4, 0xd4af8a65401bf6d1, 0xfcd7b28d68431ef9]),
    // {rex} sete dl
    (b"\x40\x0F\x94\xC2", [0x4000aa51, 1, 0, 0, 0xfedcba9876543210, 0, 0x24ffdab5906b4621, 0, 0, 0xfedcba9876543200, 0, 0x60000020, 1, 4, 0xd4af8a65401bf6d1, 0xfcd7b28d68431ef9]),
    // {rex} sete dl
    (b"\x40\x0F\x94\xC2", [0x4000ab4c, 10, 0, 0, 0xfedcba9876543210, 0, 0x24ffdab5906b4621, 0, 0, 0xfedcba9876543201, 0, 0x60000020, 10, 4, 0xd4af8a65401bf6d1, 0xfcd7b28d68431ef9]),
    // {rex} sete dl
    (b"\x40\x0F\x94\xC2", [0x4000ac47, 4, 0, 0, 0xfedcba9876543210, 0, 0x24ffdab5906b4621, 0, 0, 0xfedcba9876543200, 0, 0x60000020, 4, 4, 0xd4af8a65401bf6d1, 0xfcd7b28d68431ef9]),
    // {disp32} je taken
    (b"\x0F\x84\x15\x00\x00\x00", [0x4000ad3f, 0, 0, 0, 0, 0, 0x24ffdab5906b4621, 0, 0, 0, 0, 0x60000020, 0, 6, 0xd4af8a65401bf6d1, 0xfcd7b28d68431ef9]),
    // {disp32} je taken
    (b"\x0F\x84\x15\x00\x00\x00", [0x4000ae3c, 5, 0, 0, 0, 0, 0x24ffdab5906b4621, 0, 0, 0, 0, 0x60000020, 5, 6, 0xd4af8a65401bf6d1, 0xfcd7b28d68431ef9]),
    // {disp32} je taken
    (b"\x0F\x84\x15\x00\x00\x00", [0x4000af36, 2, 0, 0, 0, 0, 0x24ffdab5906b4621, 0, 0, 0, 0, 0x60000020, 2, 27, 0xd4af8a65401bf6d1, 0xfcd7b28d68431ef9]),
    // {disp32} je taken
    (b"\x0F\x84\x15\x00\x00\x00", [0x4000b033, 12, 0, 0, 0, 0, 0x24ffdab5906b4621, 0, 0, 0, 0, 0x60000020, 12, 6, 0xd4af8a65401bf6d1, 0xfcd7b28d68431ef9]),
    // {rex} setne dl
    (b"\x40\x0F\x95\xC2", [0x4000b12d, 0, 0, 0, 0xfedcba9876543210, 0, 0x24ffdab5906b4621, 0, 0, 0xfedcba9876543201, 0, 0x60000020, 0, 4, 0xd4af8a65401bf6d1, 0xfcd7b28d68431ef9]),
    // {rex} setne dl
    (b"\x40\x0F\x95\xC2", [0x4000b225, 1, 0, 0, 0xfedcba9876543210, 0, 0x24ffdab5906b4621, 0, 0, 0xfedcba9876543201, 0, 0x60000020, 1, 4, 0xd4af8a65401bf6d1, 0xfcd7b28d68431ef9]),
    // {rex} setne dl
    (b"\x40\x0F\x95\xC2", [0x4000b320, 10, 0, 0, 0xfedcba9876543210, 0, 0x24ffdab5906b4621, 0, 0, 0xfedcba9876543200, 0, 0x60000020, 10, 4, 0xd4af8a65401bf6d1, 0xfcd7b28d68431ef9]),
    // {rex} setne dl
    (b"\x40\x0F\x95\xC2", [0x4000b41b, 4, 0, 0, 0xfedcba9876543210, 0, 0x24ffdab5906b4621, 0, 0, 0xfedcba9876543201, 0, 0x60000020, 4, 4, 0xd4af8a65401bf6d1, 0xfcd7b28d68431ef9]),
    // {disp32} jne taken
    (b"\x0F\x85\x15\x00\x00\x00", [0x4000b513, 0, 0, 0, 0, 0, 0x24ffdab5906b4621, 0, 0, 0, 0, 0x60000020, 0, 27, 0xd4af8a65401bf6d1, 0xfcd7b28d68431ef9]),
    // {disp32} jne taken
    (b"\x0F\x85\x15\x00\x00\x00", [0x4000b610, 5, 0, 0, 0, 0, 0x24ffdab5906b4621, 0, 0, 0, 0, 0x60000020, 5, 27, 0xd4af8a65401bf6d1, 0xfcd7b28d68431ef9]),
    // {disp32} jne taken
    (b"\x0F\x85\x15\x00\x00\x00", [0x4000b70a, 2, 0, 0, 0, 0, 0x24ffdab5906b4621, 0, 0, 0, 0, 0x60000020, 2, 6, 0xd4af8a65401bf6d1, 0xfcd7b28d68431ef9]),
    // {disp32} jne taken
    (b"\x0F\x85\x15\x00\x00\x00", [0x4000b807, 12, 0, 0, 0, 0, 0x24ffdab5906b4621, 0, 0, 0, 0, 0x60000020, 12, 27, 0xd4af8a65401bf6d1, 0xfcd7b28d68431ef9]),
    // {rex} setbe dl
    (b"\x40\x0F\x96\xC2", [0x4000b901, 0, 0, 0, 0xfedcba9876543210, 0, 0x24ffdab5906b4621, 0, 0, 0xfedcba9876543200, 0, 0x60000020, 0, 4, 0xd4af8a65401bf6d1, 0xfcd7b28d68431ef9]),
    // {rex} setbe dl
    (b"\x40\x0F\x96\xC2", [0x4000b9f9, 1, 0, 0, 0xfedcba9876543210, 0, 0x24ffdab5906b4621, 0, 0, 0xfedcba9876543201, 0, 0x60000020, 1, 4, 0xd4af8a65401bf6d1, 0xfcd7b28d68431ef9]),
    // {rex} setbe dl
    (b"\x40\x0F\x96\xC2", [0x4000baf4, 10, 0, 0, 0xfedcba9876543210, 0, 0x24ffdab5906b4621, 0, 0, 0xfedcba9876543201, 0, 0x60000020, 10, 4, 0xd4af8a65401bf6d1, 0xfcd7b28d68431ef9]),
    // {rex} setbe dl
    (b"\x40\x0F\x96\xC2", [0x4000bbef, 4, 0, 0, 0xfedcba9876543210, 0, 0x24ffdab5906b4621, 0, 0, 0xfedcba9876543200, 0, 0x60000020, 4, 4, 0xd4af8a65401bf6d1, 0xfcd7b28d68431ef9]),
    // {disp32} jbe taken
    (b"\x0F\x86\x15\x00\x00\x00", [0x4000bce7, 0, 0, 0, 0, 0, 0x24ffdab5906b4621, 0, 0, 0, 0, 0x60000020, 0, 6, 0xd4af8a65401bf6d1, 0xfcd7b28d68431ef9]),
    // {disp32} jbe taken
    (b"\x0F\x86\x15\x00\x00\x00", [0x4000bde4, 5, 0, 0, 0, 0, 0x24ffdab5906b4621, 0, 0, 0, 0, 0x60000020, 5, 27, 0xd4af8a65401bf6d1, 0xfcd7b28d68431ef9]),
    // {disp32} jbe taken
    (b"\x0F\x86\x15\x00\x00\x00", [0x4000bede, 2, 0, 0, 0, 0, 0x24ffdab5906b4621, 0, 0, 0, 0, 0x60000020, 2, 27, 0xd4af8a65401bf6d1, 0xfcd7b28d68431ef9]),
    // {disp32} jbe taken
    (b"\x0F\x86\x15\x00\x00\x00", [0x4000bfdb, 12, 0, 0, 0, 0, 0x24ffdab5906b4621, 0, 0, 0, 0, 0x60000020, 12, 6, 0xd4af8a65401bf6d1, 0xfcd7b28d68431ef9]),
    // {rex} seta dl
    (b"\x40\x0F\x97\xC2", [0x4000c0d5, 0, 0, 0, 0xfedcba9876543210, 0, 0x24ffdab5906b4621, 0, 0, 0xfedcba9876543201, 0, 0x60000020, 0, 4, 0xd4af8a65401bf6d1, 0xfcd7b28d68431ef9]),
    // {rex} seta dl
    (b"\x40\x0F\x97\xC2", [0x4000c1cd, 1, 0, 0, 0xfedcba9876543210, 0, 0x24ffdab5906b4621, 0, 0, 0xfedcba9876543200, 0, 0x60000020, 1, 4, 0xd4af8a65401bf6d1, 0xfcd7b28d68431ef9]),
    // {rex} seta dl
    (b"\x40\x0F\x97\xC2", [0x4000c2c8, 10, 0, 0, 0xfedcba9876543210, 0, 0x24ffdab5906b4621, 0, 0, 0xfedcba9876543200, 0, 0x60000020, 10, 4, 0xd4af8a65401bf6d1, 0xfcd7b28d68431ef9]),
    // {rex} seta dl
    (b"\x40\x0F\x97\xC2", [0x4000c3c3, 4, 0, 0, 0xfedcba9876543210, 0, 0x24ffdab5906b4621, 0, 0, 0xfedcba9876543201, 0, 0x60000020, 4, 4, 0xd4af8a65401bf6d1, 0xfcd7b28d68431ef9]),
    // {disp32} ja taken
    (b"\x0F\x87\x15\x00\x00\x00", [0x4000c4bb, 0, 0, 0, 0, 0, 0x24ffdab5906b4621, 0, 0, 0, 0, 0x60000020, 0, 27, 0xd4af8a65401bf6d1, 0xfcd7b28d68431ef9]),
    // {disp32} ja taken
    (b"\x0F\x87\x15\x00\x00\x00", [0x4000c5b8, 5, 0, 0, 0, 0, 0x24ffdab5906b4621, 0, 0, 0, 0, 0x60000020, 5, 6, 0xd4af8a65401bf6d1, 0xfcd7b28d68431ef9]),
    // {disp32} ja taken
    (b"\x0F\x87\x15\x00\x00\x00", [0x4000c6b2, 2, 0, 0, 0, 0, 0x24ffdab5906b4621, 0, 0, 0, 0, 0x60000020, 2, 6, 0xd4af8a65401bf6d1, 0xfcd7b28d68431ef9]),
    // {disp32} ja taken
    (b"\x0F\x87\x15\x00\x00\x00", [0x4000c7af, 12, 0, 0, 0, 0, 0x24ffdab5906b4621, 0, 0, 0, 0, 0x60000020, 12, 27, 0xd4af8a65401bf6d1, 0xfcd7b28d68431ef9]),
    // {rex} sets dl
    (b"\x40\x0F\x98\xC2", [0x4000c8a9, 0, 0, 0, 0xfedcba9876543210, 0, 0x24ffdab5906b4621, 0, 0, 0xfedcba9876543200, 0, 0x60000020, 0, 4, 0xd4af8a65401bf6d1, 0xfcd7b28d68431ef9]),
    // {rex} sets dl
    (b"\x40\x0F\x98\xC2", [0x4000c9a1, 1, 0, 0, 0xfedcba9876543210, 0, 0x24ffdab5906b4621, 0, 0, 0xfedcba9876543200, 0, 0x60000020, 1, 4, 0xd4af8a65401bf6d1, 0xfcd7b28d68431ef9]),
    // {rex} sets dl
    (b"\x40\x0F\x98\xC2", [0x4000ca9c, 10, 0, 0, 0xfedcba9876543210, 0, 0x24ffdab5906b4621, 0, 0, 0xfedcba9876543200, 0, 0x60000020, 10, 4, 0xd4af8a65401bf6d1, 0xfcd7b28d68431ef9]),
    // {rex} sets dl
    (b"\x40\x0F\x98\xC2", [0x4000cb97, 4, 0, 0, 0xfedcba9876543210, 0, 0x24ffdab5906b4621, 0, 0, 0xfedcba9876543201, 0, 0x60000020, 4, 4, 0xd4af8a65401bf6d1, 0xfcd7b28d68431ef9]),
    // {disp32} js taken
    (b"\x0F\x88\x15\x00\x00\x00", [0x4000cc8f, 0, 0, 0, 0, 0, 0x24ffdab5906b4621, 0, 0, 0, 0, 0x60000020, 0, 6, 0xd4af8a65401bf6d1, 0xfcd7b28d68431ef9]),
    // {disp32} js taken
    (b"\x0F\x88\x15\x00\x00\x00", [0x4000cd8c, 5, 0, 0, 0, 0, 0x24ffdab5906b4621, 0, 0, 0, 0, 0x60000020, 5, 27, 0xd4af8a65401bf6d1, 0xfcd7b28d68431ef9]),
    // {disp32} js taken
    (b"\x0F\x88\x15\x00\x00\x00", [0x4000ce86, 2, 0, 0, 0, 0, 0x24ffdab5906b4621, 0, 0, 0, 0, 0x60000020, 2, 6, 0xd4af8a65401bf6d1, 0xfcd7b28d68431ef9]),
    // {disp32} js taken
    (b"\x0F\x88\x15\x00\x00\x00", [0x4000cf83, 12, 0, 0, 0, 0, 0x24ffdab5906b4621, 0, 0, 0, 0, 0x60000020, 12, 27, 0xd4af8a65401bf6d1, 0xfcd7b28d68431ef9]),
    // {rex} setns dl
    (b"\x40\x0F\x99\xC2", [0x4000d07d, 0, 0, 0, 0xfedcba9876543210, 0, 0x24ffdab5906b4621, 0, 0, 0xfedcba9876543201, 0, 0x60000020, 0, 4, 0xd4af8a65401bf6d1, 0xfcd7b28d68431ef9]),
    // {rex} setns dl
    (b"\x40\x0F\x99\xC2", [0x4000d175, 1, 0, 0, 0xfedcba9876543210, 0, 0x24ffdab5906b4621, 0, 0, 0xfedcba9876543201, 0, 0x60000020, 1, 4, 0xd4af8a65401bf6d1, 0xfcd7b28d68431ef9]),
    // {rex} setns dl
    (b"\x40\x0F\x99\xC2", [0x4000d270, 10, 0, 0, 0xfedcba9876543210, 0, 0x24ffdab5906b4621, 0, 0, 0xfedcba9876543201, 0, 0x60000020, 10, 4, 0xd4af8a65401bf6d1, 0xfcd7b28d68431ef9]),
    // {rex} setns dl
    (b"\x40\x0F\x99\xC2", [0x4000d36b, 4, 0, 0, 0xfedcba9876543210, 0, 0x24ffdab5906b4621, 0, 0, 0xfedcba9876543200, 0, 0x60000020, 4, 4, 0xd4af8a65401bf6d1, 0xfcd7b28d68431ef9]),
    // {disp32} jns taken
    (b"\x0F\x89\x15\x00\x00\x00", [0x4000d463, 0, 0, 0, 0, 0, 0x24ffdab5906b4621, 0, 0, 0, 0, 0x60000020, 0, 27, 0xd4af8a65401bf6d1, 0xfcd7b28d68431ef9]),
    // {disp32} jns taken
    (b"\x0F\x89\x15\x00\x00\x00", [0x4000d560, 5, 0, 0, 0, 0, 0x24ffdab5906b4621, 0, 0, 0, 0, 0x60000020, 5, 6, 0xd4af8a65401bf6d1, 0xfcd7b28d68431ef9]),
    // {disp32} jns taken
    (b"\x0F\x89\x15\x00\x00\x00", [0x4000d65a, 2, 0, 0, 0, 0, 0x24ffdab5906b4621, 0, 0, 0, 0, 0x60000020, 2, 27, 0xd4af8a65401bf6d1, 0xfcd7b28d68431ef9]),
    // {disp32} jns taken
    (b"\x0F\x89\x15\x00\x00\x00", [0x4000d757, 12, 0, 0, 0, 0, 0x24ffdab5906b4621, 0, 0, 0, 0, 0x60000020, 12, 6, 0xd4af8a65401bf6d1, 0xfcd7b28d68431ef9]),
    // {rex} setl dl
    (b"\x40\x0F\x9C\xC2", [0x4000d851, 0, 0, 0, 0xfedcba9876543210, 0, 0x24ffdab5906b4621, 0, 0, 0xfedcba9876543200, 0, 0x60000020, 0, 4, 0xd4af8a65401bf6d1, 0xfcd7b28d68431ef9]),
    // {rex} setl dl
    (b"\x40\x0F\x9C\xC2", [0x4000d949, 1, 0, 0, 0xfedcba9876543210, 0, 0x24ffdab5906b4621, 0, 0, 0xfedcba9876543200, 0, 0x60000020, 1, 4, 0xd4af8a65401bf6d1, 0xfcd7b28d68431ef9]),
    // {rex} setl dl
    (b"\x40\x0F\x9C\xC2", [0x4000da44, 10, 0, 0, 0xfedcba9876543210, 0, 0x24ffdab5906b4621, 0, 0, 0xfedcba9876543201, 0, 0x60000020, 10, 4, 0xd4af8a65401bf6d1, 0xfcd7b28d68431ef9]),
    // {rex} setl dl
    (b"\x40\x0F\x9C\xC2", [0x4000db3f, 4, 0, 0, 0xfedcba9876543210, 0, 0x24ffdab5906b4621, 0, 0, 0xfedcba9876543201, 0, 0x60000020, 4, 4, 0xd4af8a65401bf6d1, 0xfcd7b28d68431ef9]),
    // {disp32} jl taken
    (b"\x0F\x8C\x15\x00\x00\x00", [0x4000dc37, 0, 0, 0, 0, 0, 0x24ffdab5906b4621, 0, 0, 0, 0, 0x60000020, 0, 6, 0xd4af8a65401bf6d1, 0xfcd7b28d68431ef9]),
    // {disp32} jl taken
    (b"\x0F\x8C\x15\x00\x00\x00", [0x4000dd34, 5, 0, 0, 0, 0, 0x24ffdab5906b4621, 0, 0, 0, 0, 0x60000020, 5, 27, 0xd4af8a65401bf6d1, 0xfcd7b28d68431ef9]),
    // {disp32} jl taken
    (b"\x0F\x8C\x15\x00\x00\x00", [0x4000de2e, 2, 0, 0, 0, 0, 0x24ffdab5906b4621, 0, 0, 0, 0, 0x60000020, 2, 6, 0xd4af8a65401bf6d1, 0xfcd7b28d68431ef9]),
    // {disp32} jl taken
    (b"\x0F\x8C\x15\x00\x00\x00", [0x4000df2b, 12, 0, 0, 0, 0, 0x24ffdab5906b4621, 0, 0, 0, 0, 0x60000020, 12, 6, 0xd4af8a65401bf6d1, 0xfcd7b28d68431ef9]),
    // {rex} setge dl
    (b"\x40\x0F\x9D\xC2", [0x4000e025, 0, 0, 0, 0xfedcba9876543210, 0, 0x24ffdab5906b4621, 0, 0, 0xfedcba9876543201, 0, 0x60000020, 0, 4, 0xd4af8a65401bf6d1, 0xfcd7b28d68431ef9]),
    // {rex} setge dl
    (b"\x40\x0F\x9D\xC2", [0x4000e11d, 1, 0, 0, 0xfedcba9876543210, 0, 0x24ffdab5906b4621, 0, 0, 0xfedcba9876543201, 0, 0x60000020, 1, 4, 0xd4af8a65401bf6d1, 0xfcd7b28d68431ef9]),
    // {rex} setge dl
    (b"\x40\x0F\x9D\xC2", [0x4000e218, 10, 0, 0, 0xfedcba9876543210, 0, 0x24ffdab5906b4621, 0, 0, 0xfedcba9876543200, 0, 0x60000020, 10, 4, 0xd4af8a65401bf6d1, 0xfcd7b28d68431ef9]),
    // {rex} setge dl
    (b"\x40\x0F\x9D\xC2", [0x4000e313, 4, 0, 0, 0xfedcba9876543210, 0, 0x24ffdab5906b4621, 0, 0, 0xfedcba9876543200, 0, 0x60000020, 4, 4, 0xd4af8a65401bf6d1, 0xfcd7b28d68431ef9]),
    // {disp32} jge taken
    (b"\x0F\x8D\x15\x00\x00\x00", [0x4000e40b, 0, 0, 0, 0, 0, 0x24ffdab5906b4621, 0, 0, 0, 0, 0x60000020, 0, 27, 0xd4af8a65401bf6d1, 0xfcd7b28d68431ef9]),
    // {disp32} jge taken
    (b"\x0F\x8D\x15\x00\x00\x00", [0x4000e508, 5, 0, 0, 0, 0, 0x24ffdab5906b4621, 0, 0, 0, 0, 0x60000020, 5, 6, 0xd4af8a65401bf6d1, 0xfcd7b28d68431ef9]),
    // {disp32} jge taken
    (b"\x0F\x8D\x15\x00\x00\x00", [0x4000e602, 2, 0, 0, 0, 0, 0x24ffdab5906b4621, 0, 0, 0, 0, 0x60000020, 2, 27, 0xd4af8a65401bf6d1, 0xfcd7b28d68431ef9]),
    // {disp32} jge taken
    (b"\x0F\x8D\x15\x00\x00\x00", [0x4000e6ff, 12, 0, 0, 0, 0, 0x24ffdab5906b4621, 0, 0, 0, 0, 0x60000020, 12, 27, 0xd4af8a65401bf6d1, 0xfcd7b28d68431ef9]),
    // {rex} setle dl
    (b"\x40\x0F\x9E\xC2", [0x4000e7f9, 0, 0, 0, 0xfedcba9876543210, 0, 0x24ffdab5906b4621, 0, 0, 0xfedcba9876543200, 0, 0x60000020, 0, 4, 0xd4af8a65401bf6d1, 0xfcd7b28d68431ef9]),
    // {rex} setle dl
    (b"\x40\x0F\x9E\xC2", [0x4000e8f1, 1, 0, 0, 0xfedcba9876543210, 0, 0x24ffdab5906b4621, 0, 0, 0xfedcba9876543200, 0, 0x60000020, 1, 4, 0xd4af8a65401bf6d1, 0xfcd7b28d68431ef9]),
    // {rex} setle dl
    (b"\x40\x0F\x9E\xC2", [0x4000e9ec, 10, 0, 0, 0xfedcba9876543210, 0, 0x24ffdab5906b4621, 0, 0, 0xfedcba9876543201, 0, 0x60000020, 10, 4, 0xd4af8a65401bf6d1, 0xfcd7b28d68431ef9]),
    // {rex} setle dl
    (b"\x40\x0F\x9E\xC2", [0x4000eae7, 4, 0, 0, 0xfedcba9876543210, 0, 0x24ffdab5906b4621, 0, 0, 0xfedcba9876543201, 0, 0x60000020, 4, 4, 0xd4af8a65401bf6d1, 0xfcd7b28d68431ef9]),
    // {disp32} jle taken
    (b"\x0F\x8E\x15\x00\x00\x00", [0x4000ebdf, 0, 0, 0, 0, 0, 0x24ffdab5906b4621, 0, 0, 0, 0, 0x60000020, 0, 6, 0xd4af8a65401bf6d1, 0xfcd7b28d68431ef9]),
    // {disp32} jle taken
    (b"\x0F\x8E\x15\x00\x00\x00", [0x4000ecdc, 5, 0, 0, 0, 0, 0x24ffdab5906b4621, 0, 0, 0, 0, 0x60000020, 5, 27, 0xd4af8a65401bf6d1, 0xfcd7b28d68431ef9]),
    // {disp32} jle taken
    (b"\x0F\x8E\x15\x00\x00\x00", [0x4000edd6, 2, 0, 0, 0, 0, 0x24ffdab5906b4621, 0, 0, 0, 0, 0x60000020, 2, 27, 0xd4af8a65401bf6d1, 0xfcd7b28d68431ef9]),
    // {disp32} jle taken
    (b"\x0F\x8E\x15\x00\x00\x00", [0x4000eed3, 12, 0, 0, 0, 0, 0x24ffdab5906b4621, 0, 0, 0, 0, 0x60000020, 12, 6, 0xd4af8a65401bf6d1, 0xfcd7b28d68431ef9]),
    // {rex} setg dl
    (b"\x40\x0F\x9F\xC2", [0x4000efcd, 0, 0, 0, 0xfedcba9876543210, 0, 0x24ffdab5906b4621, 0, 0, 0xfedcba9876543201, 0, 0x60000020, 0, 4, 0xd4af8a65401bf6d1, 0xfcd7b28d68431ef9]),
    // {rex} setg dl
    (b"\x40\x0F\x9F\xC2", [0x4000f0c5, 1, 0, 0, 0xfedcba9876543210, 0, 0x24ffdab5906b4621, 0, 0, 0xfedcba9876543201, 0, 0x60000020, 1, 4, 0xd4af8a65401bf6d1, 0xfcd7b28d68431ef9]),
    // {rex} setg dl
    (b"\x40\x0F\x9F\xC2", [0x4000f1c0, 10, 0, 0, 0xfedcba9876543210, 0, 0x24ffdab5906b4621, 0, 0, 0xfedcba9876543200, 0, 0x60000020, 10, 4, 0xd4af8a65401bf6d1, 0xfcd7b28d68431ef9]),
    // {rex} setg dl
    (b"\x40\x0F\x9F\xC2", [0x4000f2bb, 4, 0, 0, 0xfedcba9876543210, 0, 0x24ffdab5906b4621, 0, 0, 0xfedcba9876543200, 0, 0x60000020, 4, 4, 0xd4af8a65401bf6d1, 0xfcd7b28d68431ef9]),
    // {disp32} jg taken
    (b"\x0F\x8F\x15\x00\x00\x00", [0x4000f3b3, 0, 0, 0, 0, 0, 0x24ffdab5906b4621, 0, 0, 0, 0, 0x60000020, 0, 27, 0xd4af8a65401bf6d1, 0xfcd7b28d68431ef9]),
    // {disp32} jg taken
    (b"\x0F\x8F\x15\x00\x00\x00", [0x4000f4b0, 5, 0, 0, 0, 0, 0x24ffdab5906b4621, 0, 0, 0, 0, 0x60000020, 5, 6, 0xd4af8a65401bf6d1, 0xfcd7b28d68431ef9]),
    // {disp32} jg taken
    (b"\x0F\x8F\x15\x00\x00\x00", [0x4000f5aa, 2, 0, 0, 0, 0, 0x24ffdab5906b4621, 0, 0, 0, 0, 0x60000020, 2, 6, 0xd4af8a65401bf6d1, 0xfcd7b28d68431ef9]),
    // {disp32} jg taken
    (b"\x0F\x8F\x15\x00\x00\x00", [0x4000f6a7, 12, 0, 0, 0, 0, 0x24ffdab5906b4621, 0, 0, 0, 0, 0x60000020, 12, 27, 0xd4af8a65401bf6d1, 0xfcd7b28d68431ef9]),
    // {load} mov rax, rcx
    (b"\x48\x8B\xC1", [0x4000f7a4, 9, 1, 0xffffffffffffffff, 0, 0, 0x24ffdab5906b4621, 0xffffffffffffffff, 0xffffffffffffffff, 0, 0, 0x60000020, 9, 3, 0xd4af8a65401bf6d1, 0xfcd7b28d68431ef9]),
    // {load} mov eax, ecx
    (b"\x8B\xC1", [0x4000f89e, 9, 0xffffffffffffffff, 0xfedcba9876543210, 0, 0, 0x24ffdab5906b4621, 0x76543210, 0xfedcba9876543210, 0, 0, 0x60000020, 9, 2, 0xd4af8a65401bf6d1, 0xfcd7b28d68431ef9]),
    // movabs rax, 0xFEDCBA9876543210
    (b"\x48\xB8\x10\x32\x54\x76\x98\xBA\xDC\xFE", [0x4000f997, 9, 1, 0, 0, 0, 0x24ffdab5906b4621, 0xfedcba9876543210, 0, 0, 0, 0x60000020, 9, 10, 0xd4af8a65401bf6d1, 0xfcd7b28d68431ef9]),
    // mov rax, qword ptr [rbx+16]
    (b"\x48\x8B\x43\x10", [0x4000fa98, 9, 0xffffffffffffffff, 0, 0, 0x60000000, 0x24ffdab5906b4621, 0xd4af8a65401bf6d1, 0, 0, 0x60000000, 0x60000020, 9, 4, 0xd4af8a65401bf6d1, 0xfcd7b28d68431ef9]),
    // mov eax, dword ptr [rbx+16]
    (b"\x8B\x43\x10", [0x4000fb93, 9, 0xffffffffffffffff, 0, 0, 0x60000000, 0x24ffdab5906b4621, 0x401bf6d1, 0, 0, 0x60000000, 0x60000020, 9, 3, 0xd4af8a65401bf6d1, 0xfcd7b28d68431ef9]),
    // movzx rax, byte ptr [rbx+16]
    (b"\x48\x0F\xB6\x43\x10", [0x4000fc8d, 9, 0xffffffffffffffff, 0, 0, 0x60000000, 0x24ffdab5906b4621, 0xd1, 0, 0, 0x60000000, 0x60000020, 9, 5, 0xd4af8a65401bf6d1, 0xfcd7b28d68431ef9]),
    // movzx rax, word ptr [rbx+16]
    (b"\x48\x0F\xB7\x43\x10", [0x4000fd89, 9, 0xffffffffffffffff, 0, 0, 0x60000000, 0x24ffdab5906b4621, 0xf6d1, 0, 0, 0x60000000, 0x60000020, 9, 5, 0xd4af8a65401bf6d1, 0xfcd7b28d68431ef9]),
    // movsx rax, byte ptr [rbx+16]
    (b"\x48\x0F\xBE\x43\x10", [0x4000fe85, 9, 0xffffffffffffffff, 0, 0, 0x60000000, 0x24ffdab5906b4621, 0xffffffffffffffd1, 0, 0, 0x60000000, 0x60000020, 9, 5, 0xd4af8a65401bf6d1, 0xfcd7b28d68431ef9]),
    // movsx rax, word ptr [rbx+16]
    (b"\x48\x0F\xBF\x43\x10", [0x4000ff81, 9, 0xffffffffffffffff, 0, 0, 0x60000000, 0x24ffdab5906b4621, 0xfffffffffffff6d1, 0, 0, 0x60000000, 0x60000020, 9, 5, 0xd4af8a65401bf6d1, 0xfcd7b28d68431ef9]),
    // movsxd rax, dword ptr [rbx+16]
    (b"\x48\x63\x43\x10", [0x4001007d, 9, 0xffffffffffffffff, 0, 0, 0x60000000, 0x24ffdab5906b4621, 0x401bf6d1, 0, 0, 0x60000000, 0x60000020, 9, 4, 0xd4af8a65401bf6d1, 0xfcd7b28d68431ef9]),
    // lea rax, [rbx+16]
    (b"\x48\x8D\x43\x10", [0x40010178, 9, 0xffffffffffffffff, 0, 0, 0x60000000, 0x24ffdab5906b4621, 0x60000010, 0, 0, 0x60000000, 0x60000020, 9, 4, 0xd4af8a65401bf6d1, 0xfcd7b28d68431ef9]),
    // mov qword ptr [rbx+16], rax
    (b"\x48\x89\x43\x10", [0x40010273, 9, 0xfedcba9876543210, 0, 0, 0x60000000, 0x24ffdab5906b4621, 0xfedcba9876543210, 0, 0, 0x60000000, 0x60000020, 9, 4, 0xfedcba9876543210, 0xfcd7b28d68431ef9]),
    // mov dword ptr [rbx+16], eax
    (b"\x89\x43\x10", [0x4001036e, 9, 0xfedcba9876543210, 0, 0, 0x60000000, 0x24ffdab5906b4621, 0xfedcba9876543210, 0, 0, 0x60000000, 0x60000020, 9, 3, 0xd4af8a6576543210, 0xfcd7b28d68431ef9]),
    // mov word ptr [rbx+16], ax
    (b"\x66\x89\x43\x10", [0x40010468, 9, 0xfedcba9876543210, 0, 0, 0x60000000, 0x24ffdab5906b4621, 0xfedcba9876543210, 0, 0, 0x60000000, 0x60000020, 9, 4, 0xd4af8a65401b3210, 0xfcd7b28d68431ef9]),
    // {rex} mov byte ptr [rbx+16], al
    (b"\x40\x88\x43\x10", [0x40010563, 9, 0xfedcba9876543210, 0, 0, 0x60000000, 0x24ffdab5906b4621, 0xfedcba9876543210, 0, 0, 0x60000000, 0x60000020, 9, 4, 0xd4af8a65401bf610, 0xfcd7b28d68431ef9]),
    // movzx rax, cl
    (b"\x48\x0F\xB6\xC1", [0x4001065e, 9, 7, 0xfedcba9876543210, 0, 0, 0x24ffdab5906b4621, 16, 0xfedcba9876543210, 0, 0, 0x60000020, 9, 4, 0xd4af8a65401bf6d1, 0xfcd7b28d68431ef9]),
    // movzx rax, cl
    (b"\x48\x0F\xB6\xC1", [0x40010759, 9, 7, 0x89abcdef, 0, 0, 0x24ffdab5906b4621, 0xef, 0x89abcdef, 0, 0, 0x60000020, 9, 4, 0xd4af8a65401bf6d1, 0xfcd7b28d68431ef9]),
    // movzx rax, cx
    (b"\x48\x0F\xB7\xC1", [0x40010854, 9, 7, 0xfedcba9876543210, 0, 0, 0x24ffdab5906b4621, 0x3210, 0xfedcba9876543210, 0, 0, 0x60000020, 9, 4, 0xd4af8a65401bf6d1, 0xfcd7b28d68431ef9]),
    // movzx rax, cx
    (b"\x48\x0F\xB7\xC1", [0x4001094f, 9, 7, 0x89abcdef, 0, 0, 0x24ffdab5906b4621, 0xcdef, 0x89abcdef, 0, 0, 0x60000020, 9, 4, 0xd4af8a65401bf6d1, 0xfcd7b28d68431ef9]),
    // movsx rax, cl
    (b"\x48\x0F\xBE\xC1", [0x40010a4a, 9, 7, 0xfedcba9876543210, 0, 0, 0x24ffdab5906b4621, 16, 0xfedcba9876543210, 0, 0, 0x60000020, 9, 4, 0xd4af8a65401bf6d1, 0xfcd7b28d68431ef9]),
    // movsx rax, cl
    (b"\x48\x0F\xBE\xC1", [0x40010b45, 9, 7, 0x89abcdef, 0, 0, 0x24ffdab5906b4621, 0xffffffffffffffef, 0x89abcdef, 0, 0, 0x60000020, 9, 4, 0xd4af8a65401bf6d1, 0xfcd7b28d68431ef9]),
    // movsx rax, cx
    (b"\x48\x0F\xBF\xC1", [0x40010c40, 9, 7, 0xfedcba9876543210, 0, 0, 0x24ffdab5906b4621, 0x3210, 0xfedcba9876543210, 0, 0, 0x60000020, 9, 4, 0xd4af8a65401bf6d1, 0xfcd7b28d68431ef9]),
    // movsx rax, cx
    (b"\x48\x0F\xBF\xC1", [0x40010d3b, 9, 7, 0x89abcdef, 0, 0, 0x24ffdab5906b4621, 0xffffffffffffcdef, 0x89abcdef, 0, 0, 0x60000020, 9, 4, 0xd4af8a65401bf6d1, 0xfcd7b28d68431ef9]),
    // movsxd rax, ecx
    (b"\x48\x63\xC1", [0x40010e36, 9, 7, 0xfedcba9876543210, 0, 0, 0x24ffdab5906b4621, 0x76543210, 0xfedcba9876543210, 0, 0, 0x60000020, 9, 3, 0xd4af8a65401bf6d1, 0xfcd7b28d68431ef9]),
    // movsxd rax, ecx
    (b"\x48\x63\xC1", [0x40010f30, 9, 7, 0x89abcdef, 0, 0, 0x24ffdab5906b4621, 0xffffffff89abcdef, 0x89abcdef, 0, 0, 0x60000020, 9, 3, 0xd4af8a65401bf6d1, 0xfcd7b28d68431ef9]),
    // mov rax, qword ptr [rip+buffer+16]
    (b"\x48\x8B\x05\xDF\xEF\xFE\x1F", [0x4001102a, 9, 0, 0, 0, 0, 0x24ffdab5906b4621, 0xd4af8a65401bf6d1, 0, 0, 0, 0x60000020, 9, 7, 0xd4af8a65401bf6d1, 0xfcd7b28d68431ef9]),
    // mov qword ptr [rip+buffer+16], rax
    (b"\x48\x89\x05\xE1\xEE\xFE\x1F", [0x40011128, 9, 0xfedcba9876543210, 0, 0, 0, 0x24ffdab5906b4621, 0xfedcba9876543210, 0, 0, 0, 0x60000020, 9, 7, 0xfedcba9876543210, 0xfcd7b28d68431ef9]),
    // lea rax, [rip-77]
    (b"\x48\x8D\x05\xB3\xFF\xFF\xFF", [0x40011226, 9, 0, 0, 0, 0, 0x24ffdab5906b4621, 0x400111e0, 0, 0, 0, 0x60000020, 9, 7, 0xd4af8a65401bf6d1, 0xfcd7b28d68431ef9]),
    // lea rax, [rbx-128]
    (b"\x48\x8D\x43\x80", [0x40011324, 9, 0, 0, 0, 5, 0x24ffdab5906b4621, 0xffffffffffffff85, 0, 0, 5, 0x60000020, 9, 4, 0xd4af8a65401bf6d1, 0xfcd7b28d68431ef9]),
    // {disp8} mov rax, qword ptr [rsp+0]
    (b"\x48\x8B\x44\x24\x00", [0x4001141f, 9, 0, 0, 0, 0, 0x24ffdab5906b4621, 0x24ffdab5906b4621, 0, 0, 0, 0x60000020, 9, 5, 0xd4af8a65401bf6d1, 0xfcd7b28d68431ef9]),
    // push rax
    (b"\x50", [0x4001151b, 9, 0xfedcba9876543210, 0, 0, 0, 0x24ffdab5906b4621, 0xfedcba9876543210, 0, 0, 0, 0x60000018, 9, 1, 0xd4af8a65401bf6d1, 0xfedcba9876543210]),
    // push rsp
    (b"\x54", [0x40011613, 9, 0, 0, 0, 0, 0x24ffdab5906b4621, 0, 0, 0, 0, 0x60000018, 9, 1, 0xd4af8a65401bf6d1, 0x60000020]),
    // pop rax
    (b"\x58", [0x4001170b, 9, 0, 0, 0, 0, 0x24ffdab5906b4621, 0x24ffdab5906b4621, 0, 0, 0, 0x60000028, 9, 1, 0xd4af8a65401bf6d1, 0xfcd7b28d68431ef9]),
    // pop rsp
    (b"\x5C", [0x40011803, 9, 0, 0, 0, 0, 0x24ffdab5906b4621, 0, 0, 0, 0, 0x24ffdab5906b4621, 9, 1, 0xd4af8a65401bf6d1, 0xfcd7b28d68431ef9]),
    // {disp32} jmp taken
    (b"\xE9\x15\x00\x00\x00", [0x400118fb, 9, 0, 0, 0, 0, 0x24ffdab5906b4621, 0, 0, 0, 0, 0x60000020, 9, 26, 0xd4af8a65401bf6d1, 0xfcd7b28d68431ef9]),
    // call taken
    (b"\xE8\x15\x00\x00\x00", [0x400119f7, 9, 0, 0, 0, 0, 0x24ffdab5906b4621, 0, 0, 0, 0, 0x60000018, 9, 26, 0xd4af8a65401bf6d1, 0x400119fc]),
    // jmp rax
    (b"\xFF\xE0", [0x40011af3, 9, 0x40011b0a, 0, 0, 0, 0x24ffdab5906b4621, 0x40011b0a, 0, 0, 0, 0x60000020, 9, 23, 0xd4af8a65401bf6d1, 0xfcd7b28d68431ef9]),
    // call rax
    (b"\xFF\xD0", [0x40011bec, 9, 0x40011c03, 0, 0, 0, 0x24ffdab5906b4621, 0x40011c03, 0, 0, 0, 0x60000018, 9, 23, 0xd4af8a65401bf6d1, 0x40011bee]),
    // jmp qword ptr [rbx+32]
    (b"\xFF\x63\x20", [0x40011cf0, 9, 0, 0, 0, 0x60000000, 0x40011d08, 0, 0, 0, 0x60000000, 0x60000020, 9, 24, 0xd4af8a65401bf6d1, 0xfcd7b28d68431ef9]),
    // call qword ptr [rbx+32]
    (b"\xFF\x53\x20", [0x40011df5, 9, 0, 0, 0, 0x60000000, 0x40011e0d, 0, 0, 0, 0x60000000, 0x60000018, 9, 24, 0xd4af8a65401bf6d1, 0x40011df8]),
    // ret
    (b"\xC3", [0x40011efa, 9, 0, 0, 0, 0, 0x40011f10, 0, 0, 0, 0, 0x60000028, 9, 22, 0xd4af8a65401bf6d1, 0xfcd7b28d68431ef9]),
};

/// The instruction that bytes begin with, and how many of them it has.
pub fn read(bytes: &[u8]) -> Option<(XInstr, u64)>
    ensures { IfSome result (λ x. Valid x.0) }
{
    match decode(bytes) {
        Ok((i, n)) => Some((i, n as u64)),
        Err(_) => None,
    }
}

/// A memory of 64 bytes, which begins as the processor's does, with a word at the stack pointer.
pub fn memory(alloc: Global, word: u64) -> Result<Memory, AllocError> {
    let mut bytes = Vec::new(alloc);
    for k in 0u32..64 {
        bytes.push(((37 * k + 129) % 256) as u8)?;
    }
    let region = Region {
        start: BUFFER,
        bytes,
        write: true,
        exec: false,
    };
    let mut mem = Memory::new(alloc);
    if mem.has_room(region.start, region.bytes.len() as u64) {
        mem.add(region)?;
    }
    let _ = mem.store(STACK, Width::W64, word);
    Ok(mem)
}

fn flags_at(n: u64) -> XFlags {
    XFlags {
        cf: n & 1 != 0,
        zf: n & 2 != 0,
        sf: n & 4 != 0,
        of: n & 8 != 0,
    }
}

/// A processor at place 0x100 with clear flags.
pub fn cpu_of(rax: u64, rcx: u64, rdx: u64) -> Cpu {
    cpu_at(&[0x100, 0, rax, rcx, rdx, 0, 0, 0, 0, 0, 0, 0, 0, 0, 0, 0])
}

fn cpu_at(row: &[u64; 16]) -> Cpu {
    let af = AFlags {
        n: false,
        z: false,
        c: false,
        v: false,
    };
    let mut cpu = Cpu {
        x: [0; 31],
        sp: STACK,
        pc: row[0],
        xf: flags_at(row[1]),
        af,
    };
    cpu.set64(X64Reg::Rax, row[2]);
    cpu.set64(X64Reg::Rcx, row[3]);
    cpu.set64(X64Reg::Rdx, row[4]);
    cpu.set64(X64Reg::Rbx, row[5]);
    cpu
}

// The address that an event names; none after a fault.
fn way(event: XEvent, next: u64) -> Option<u64> {
    match event {
        XEvent::Next => Some(next),
        XEvent::Branch(to) | XEvent::Goto(to) | XEvent::CallTo(to) | XEvent::RetTo(to) => Some(to),
        XEvent::Fault(_) => None,
    }
}

/// Whether a row's instruction does what the processor did.
fn agrees(mem: &mut Memory, bytes: &[u8], row: &[u64; 16]) -> bool {
    let mut cpu = cpu_at(row);
    let Some((i, n)) = read(bytes) else {
        return false;
    };
    let event = step(&mut cpu, mem, &i, n);
    let target = row[0].wrapping_add(row[13]);
    way(event, row[0].wrapping_add(n)) == Some(target)
        && cpu.pc == target
        && cpu.get64(X64Reg::Rax) == row[7]
        && cpu.get64(X64Reg::Rcx) == row[8]
        && cpu.get64(X64Reg::Rdx) == row[9]
        && cpu.get64(X64Reg::Rbx) == row[10]
        && cpu.sp == row[11]
        && cpu.xf == flags_at(row[12])
        && mem.load(BUFFER + 16, Width::W64) == Ok(row[14])
        && mem.load(BUFFER + 24, Width::W64) == Ok(row[15])
}

#[test]
fn does_what_a_processor_does(rt: HostRuntime) -> Result<(), Fail> {
    for (bytes, row) in &ROWS {
        let mut mem = memory(rt.alloc(), row[6])?;
        assert!(rt; agrees(&mut mem, bytes, row), "{bytes:?}");
    }
    Ok(())
}
