//! What qemu-aarch64 does at instructions that GNU as assembled, and faults.
//! `tools/a64_effects.py rows` writes the rows: the place and the word of the instruction; the flags
//! N, Z, C, V as one number and x0 to x3 before it; x0 to x3, the flags, how far the program counter
//! moved, and 32 bytes of memory after it.

ghost use Rattle.std.specs.Prelude.{◌<◌};

use a64_exec::event::{AEvent, AFault};
use a64_exec::execute::step;
use a64_isa::words::decode;
use hx_bits::Width;
use hx_mem::fault::MemBad;
use hx_mem::memory::Memory;
use hx_mem::region::Region;
use reg_map::registers::{AFlags, Cpu, XFlags};
use std::alloc::{AllocError, Global};
use std::test::Fail;

macro_rules! rows {
    ($($row:expr,)*) => { [$($row),*] };
}

const BUFFER: u64 = 0x6000_0000;

static ROWS: [[u64; 17]; 164] = rows! {
    // adds x0, x1, x2
    [0x40000030, 0xab020020, 0, 9, 5, 7, 0, 12, 5, 7, 0, 0, 4, 0x845f3a15f0cba681, 0xac87623d18f3cea9, 0xd4af8a65401bf6d1, 0xfcd7b28d68431ef9],
    // adds x0, x1, x2
    [0x400000ec, 0xab020020, 0, 9, 7, 5, 0, 12, 7, 5, 0, 0, 4, 0x845f3a15f0cba681, 0xac87623d18f3cea9, 0xd4af8a65401bf6d1, 0xfcd7b28d68431ef9],
    // adds x0, x1, x2
    [0x4000019c, 0xab020020, 0, 9, 0x8000000000000000, 1, 0, 0x8000000000000001, 0x8000000000000000, 1, 0, 8, 4, 0x845f3a15f0cba681, 0xac87623d18f3cea9, 0xd4af8a65401bf6d1, 0xfcd7b28d68431ef9],
    // adds x0, x1, x2
    [0x4000024c, 0xab020020, 0, 9, 0xffffffffffffffff, 1, 0, 0, 0xffffffffffffffff, 1, 0, 6, 4, 0x845f3a15f0cba681, 0xac87623d18f3cea9, 0xd4af8a65401bf6d1, 0xfcd7b28d68431ef9],
    // adds x0, x1, x2
    [0x400002fc, 0xab020020, 0, 9, 0x8000000000000000, 0xffffffffffffffff, 0, 0x7fffffffffffffff, 0x8000000000000000, 0xffffffffffffffff, 0, 3, 4, 0x845f3a15f0cba681, 0xac87623d18f3cea9, 0xd4af8a65401bf6d1, 0xfcd7b28d68431ef9],
    // adds x0, x1, x2
    [0x400003ac, 0xab020020, 0, 9, 0x7fffffffffffffff, 1, 0, 0x8000000000000000, 0x7fffffffffffffff, 1, 0, 9, 4, 0x845f3a15f0cba681, 0xac87623d18f3cea9, 0xd4af8a65401bf6d1, 0xfcd7b28d68431ef9],
    // adds x0, x1, x2
    [0x4000045c, 0xab020020, 0, 9, 0, 0, 0, 0, 0, 0, 0, 4, 4, 0x845f3a15f0cba681, 0xac87623d18f3cea9, 0xd4af8a65401bf6d1, 0xfcd7b28d68431ef9],
    // adds x0, x1, x2
    [0x400004fc, 0xab020020, 0, 9, 0x123456789abcdef0, 0xfedcba987654321, 0, 0x2222222222222211, 0x123456789abcdef0, 0xfedcba987654321, 0, 0, 4, 0x845f3a15f0cba681, 0xac87623d18f3cea9, 0xd4af8a65401bf6d1, 0xfcd7b28d68431ef9],
    // subs x0, x1, x2
    [0x400005ac, 0xeb020020, 0, 9, 5, 7, 0, 0xfffffffffffffffe, 5, 7, 0, 8, 4, 0x845f3a15f0cba681, 0xac87623d18f3cea9, 0xd4af8a65401bf6d1, 0xfcd7b28d68431ef9],
    // subs x0, x1, x2
    [0x4000065c, 0xeb020020, 0, 9, 7, 5, 0, 2, 7, 5, 0, 2, 4, 0x845f3a15f0cba681, 0xac87623d18f3cea9, 0xd4af8a65401bf6d1, 0xfcd7b28d68431ef9],
    // subs x0, x1, x2
    [0x4000070c, 0xeb020020, 0, 9, 0x8000000000000000, 1, 0, 0x7fffffffffffffff, 0x8000000000000000, 1, 0, 3, 4, 0x845f3a15f0cba681, 0xac87623d18f3cea9, 0xd4af8a65401bf6d1, 0xfcd7b28d68431ef9],
    // subs x0, x1, x2
    [0x400007bc, 0xeb020020, 0, 9, 0xffffffffffffffff, 1, 0, 0xfffffffffffffffe, 0xffffffffffffffff, 1, 0, 10, 4, 0x845f3a15f0cba681, 0xac87623d18f3cea9, 0xd4af8a65401bf6d1, 0xfcd7b28d68431ef9],
    // subs x0, x1, x2
    [0x4000086c, 0xeb020020, 0, 9, 0x8000000000000000, 0xffffffffffffffff, 0, 0x8000000000000001, 0x8000000000000000, 0xffffffffffffffff, 0, 8, 4, 0x845f3a15f0cba681, 0xac87623d18f3cea9, 0xd4af8a65401bf6d1, 0xfcd7b28d68431ef9],
    // subs x0, x1, x2
    [0x4000091c, 0xeb020020, 0, 9, 0x7fffffffffffffff, 1, 0, 0x7ffffffffffffffe, 0x7fffffffffffffff, 1, 0, 2, 4, 0x845f3a15f0cba681, 0xac87623d18f3cea9, 0xd4af8a65401bf6d1, 0xfcd7b28d68431ef9],
    // subs x0, x1, x2
    [0x400009cc, 0xeb020020, 0, 9, 0, 0, 0, 0, 0, 0, 0, 6, 4, 0x845f3a15f0cba681, 0xac87623d18f3cea9, 0xd4af8a65401bf6d1, 0xfcd7b28d68431ef9],
    // subs x0, x1, x2
    [0x40000a6c, 0xeb020020, 0, 9, 0x123456789abcdef0, 0xfedcba987654321, 0, 0x2468acf13579bcf, 0x123456789abcdef0, 0xfedcba987654321, 0, 2, 4, 0x845f3a15f0cba681, 0xac87623d18f3cea9, 0xd4af8a65401bf6d1, 0xfcd7b28d68431ef9],
    // add x0, x1, x2
    [0x40000b1c, 0x8b020020, 5, 9, 0xffffffffffffffff, 1, 0, 0, 0xffffffffffffffff, 1, 0, 5, 4, 0x845f3a15f0cba681, 0xac87623d18f3cea9, 0xd4af8a65401bf6d1, 0xfcd7b28d68431ef9],
    // add x0, x1, x2
    [0x40000bd4, 0x8b020020, 5, 9, 0x123456789abcdef0, 0xfedcba987654321, 0, 0x2222222222222211, 0x123456789abcdef0, 0xfedcba987654321, 0, 5, 4, 0x845f3a15f0cba681, 0xac87623d18f3cea9, 0xd4af8a65401bf6d1, 0xfcd7b28d68431ef9],
    // sub x0, x1, x2
    [0x40000c8c, 0xcb020020, 5, 9, 0xffffffffffffffff, 1, 0, 0xfffffffffffffffe, 0xffffffffffffffff, 1, 0, 5, 4, 0x845f3a15f0cba681, 0xac87623d18f3cea9, 0xd4af8a65401bf6d1, 0xfcd7b28d68431ef9],
    // sub x0, x1, x2
    [0x40000d44, 0xcb020020, 5, 9, 0x123456789abcdef0, 0xfedcba987654321, 0, 0x2468acf13579bcf, 0x123456789abcdef0, 0xfedcba987654321, 0, 5, 4, 0x845f3a15f0cba681, 0xac87623d18f3cea9, 0xd4af8a65401bf6d1, 0xfcd7b28d68431ef9],
    // and x0, x1, x2
    [0x40000dfc, 0x8a020020, 5, 9, 0xffffffffffffffff, 1, 0, 1, 0xffffffffffffffff, 1, 0, 5, 4, 0x845f3a15f0cba681, 0xac87623d18f3cea9, 0xd4af8a65401bf6d1, 0xfcd7b28d68431ef9],
    // and x0, x1, x2
    [0x40000eb4, 0x8a020020, 5, 9, 0x123456789abcdef0, 0xfedcba987654321, 0, 0x224422882244220, 0x123456789abcdef0, 0xfedcba987654321, 0, 5, 4, 0x845f3a15f0cba681, 0xac87623d18f3cea9, 0xd4af8a65401bf6d1, 0xfcd7b28d68431ef9],
    // orr x0, x1, x2
    [0x40000f6c, 0xaa020020, 5, 9, 0xffffffffffffffff, 1, 0, 0xffffffffffffffff, 0xffffffffffffffff, 1, 0, 5, 4, 0x845f3a15f0cba681, 0xac87623d18f3cea9, 0xd4af8a65401bf6d1, 0xfcd7b28d68431ef9],
    // orr x0, x1, x2
    [0x40001024, 0xaa020020, 5, 9, 0x123456789abcdef0, 0xfedcba987654321, 0, 0x1ffddff99ffddff1, 0x123456789abcdef0, 0xfedcba987654321, 0, 5, 4, 0x845f3a15f0cba681, 0xac87623d18f3cea9, 0xd4af8a65401bf6d1, 0xfcd7b28d68431ef9],
    // eor x0, x1, x2
    [0x400010dc, 0xca020020, 5, 9, 0xffffffffffffffff, 1, 0, 0xfffffffffffffffe, 0xffffffffffffffff, 1, 0, 5, 4, 0x845f3a15f0cba681, 0xac87623d18f3cea9, 0xd4af8a65401bf6d1, 0xfcd7b28d68431ef9],
    // eor x0, x1, x2
    [0x40001194, 0xca020020, 5, 9, 0x123456789abcdef0, 0xfedcba987654321, 0, 0x1dd99dd11dd99dd1, 0x123456789abcdef0, 0xfedcba987654321, 0, 5, 4, 0x845f3a15f0cba681, 0xac87623d18f3cea9, 0xd4af8a65401bf6d1, 0xfcd7b28d68431ef9],
    // orn x0, x1, x2
    [0x4000124c, 0xaa220020, 5, 9, 0xffffffffffffffff, 1, 0, 0xffffffffffffffff, 0xffffffffffffffff, 1, 0, 5, 4, 0x845f3a15f0cba681, 0xac87623d18f3cea9, 0xd4af8a65401bf6d1, 0xfcd7b28d68431ef9],
    // orn x0, x1, x2
    [0x40001304, 0xaa220020, 5, 9, 0x123456789abcdef0, 0xfedcba987654321, 0, 0xf236767efabefefe, 0x123456789abcdef0, 0xfedcba987654321, 0, 5, 4, 0x845f3a15f0cba681, 0xac87623d18f3cea9, 0xd4af8a65401bf6d1, 0xfcd7b28d68431ef9],
    // udiv x0, x1, x2
    [0x400013bc, 0x9ac20820, 3, 9, 0x64, 7, 0, 14, 0x64, 7, 0, 3, 4, 0x845f3a15f0cba681, 0xac87623d18f3cea9, 0xd4af8a65401bf6d1, 0xfcd7b28d68431ef9],
    // udiv x0, x1, x2
    [0x40001474, 0x9ac20820, 3, 9, 0xffffffffffffff9c, 7, 0, 0x2492492492492484, 0xffffffffffffff9c, 7, 0, 3, 4, 0x845f3a15f0cba681, 0xac87623d18f3cea9, 0xd4af8a65401bf6d1, 0xfcd7b28d68431ef9],
    // udiv x0, x1, x2
    [0x4000152c, 0x9ac20820, 3, 9, 0x64, 0xfffffffffffffff9, 0, 0, 0x64, 0xfffffffffffffff9, 0, 3, 4, 0x845f3a15f0cba681, 0xac87623d18f3cea9, 0xd4af8a65401bf6d1, 0xfcd7b28d68431ef9],
    // udiv x0, x1, x2
    [0x400015e4, 0x9ac20820, 3, 9, 0x64, 0, 0, 0, 0x64, 0, 0, 3, 4, 0x845f3a15f0cba681, 0xac87623d18f3cea9, 0xd4af8a65401bf6d1, 0xfcd7b28d68431ef9],
    // udiv x0, x1, x2
    [0x40001694, 0x9ac20820, 3, 9, 0x8000000000000000, 0xffffffffffffffff, 0, 0, 0x8000000000000000, 0xffffffffffffffff, 0, 3, 4, 0x845f3a15f0cba681, 0xac87623d18f3cea9, 0xd4af8a65401bf6d1, 0xfcd7b28d68431ef9],
    // sdiv x0, x1, x2
    [0x4000174c, 0x9ac20c20, 3, 9, 0x64, 7, 0, 14, 0x64, 7, 0, 3, 4, 0x845f3a15f0cba681, 0xac87623d18f3cea9, 0xd4af8a65401bf6d1, 0xfcd7b28d68431ef9],
    // sdiv x0, x1, x2
    [0x40001804, 0x9ac20c20, 3, 9, 0xffffffffffffff9c, 7, 0, 0xfffffffffffffff2, 0xffffffffffffff9c, 7, 0, 3, 4, 0x845f3a15f0cba681, 0xac87623d18f3cea9, 0xd4af8a65401bf6d1, 0xfcd7b28d68431ef9],
    // sdiv x0, x1, x2
    [0x400018bc, 0x9ac20c20, 3, 9, 0x64, 0xfffffffffffffff9, 0, 0xfffffffffffffff2, 0x64, 0xfffffffffffffff9, 0, 3, 4, 0x845f3a15f0cba681, 0xac87623d18f3cea9, 0xd4af8a65401bf6d1, 0xfcd7b28d68431ef9],
    // sdiv x0, x1, x2
    [0x40001974, 0x9ac20c20, 3, 9, 0x64, 0, 0, 0, 0x64, 0, 0, 3, 4, 0x845f3a15f0cba681, 0xac87623d18f3cea9, 0xd4af8a65401bf6d1, 0xfcd7b28d68431ef9],
    // sdiv x0, x1, x2
    [0x40001a24, 0x9ac20c20, 3, 9, 0x8000000000000000, 0xffffffffffffffff, 0, 0x8000000000000000, 0x8000000000000000, 0xffffffffffffffff, 0, 3, 4, 0x845f3a15f0cba681, 0xac87623d18f3cea9, 0xd4af8a65401bf6d1, 0xfcd7b28d68431ef9],
    // lslv x0, x1, x2
    [0x40001adc, 0x9ac22020, 9, 9, 0xfedcba9876543210, 0, 0, 0xfedcba9876543210, 0xfedcba9876543210, 0, 0, 9, 4, 0x845f3a15f0cba681, 0xac87623d18f3cea9, 0xd4af8a65401bf6d1, 0xfcd7b28d68431ef9],
    // lslv x0, x1, x2
    [0x40001b8c, 0x9ac22020, 9, 9, 0xfedcba9876543210, 4, 0, 0xedcba98765432100, 0xfedcba9876543210, 4, 0, 9, 4, 0x845f3a15f0cba681, 0xac87623d18f3cea9, 0xd4af8a65401bf6d1, 0xfcd7b28d68431ef9],
    // lslv x0, x1, x2
    [0x40001c44, 0x9ac22020, 9, 9, 0xfedcba9876543210, 63, 0, 0, 0xfedcba9876543210, 63, 0, 9, 4, 0x845f3a15f0cba681, 0xac87623d18f3cea9, 0xd4af8a65401bf6d1, 0xfcd7b28d68431ef9],
    // lslv x0, x1, x2
    [0x40001cfc, 0x9ac22020, 9, 9, 0xfedcba9876543210, 68, 0, 0xedcba98765432100, 0xfedcba9876543210, 68, 0, 9, 4, 0x845f3a15f0cba681, 0xac87623d18f3cea9, 0xd4af8a65401bf6d1, 0xfcd7b28d68431ef9],
    // lsrv x0, x1, x2
    [0x40001db4, 0x9ac22420, 9, 9, 0xfedcba9876543210, 0, 0, 0xfedcba9876543210, 0xfedcba9876543210, 0, 0, 9, 4, 0x845f3a15f0cba681, 0xac87623d18f3cea9, 0xd4af8a65401bf6d1, 0xfcd7b28d68431ef9],
    // lsrv x0, x1, x2
    [0x40001e64, 0x9ac22420, 9, 9, 0xfedcba9876543210, 4, 0, 0xfedcba987654321, 0xfedcba9876543210, 4, 0, 9, 4, 0x845f3a15f0cba681, 0xac87623d18f3cea9, 0xd4af8a65401bf6d1, 0xfcd7b28d68431ef9],
    // lsrv x0, x1, x2
    [0x40001f1c, 0x9ac22420, 9, 9, 0xfedcba9876543210, 63, 0, 1, 0xfedcba9876543210, 63, 0, 9, 4, 0x845f3a15f0cba681, 0xac87623d18f3cea9, 0xd4af8a65401bf6d1, 0xfcd7b28d68431ef9],
    // lsrv x0, x1, x2
    [0x40001fd4, 0x9ac22420, 9, 9, 0xfedcba9876543210, 68, 0, 0xfedcba987654321, 0xfedcba9876543210, 68, 0, 9, 4, 0x845f3a15f0cba681, 0xac87623d18f3cea9, 0xd4af8a65401bf6d1, 0xfcd7b28d68431ef9],
    // asrv x0, x1, x2
    [0x4000208c, 0x9ac22820, 9, 9, 0xfedcba9876543210, 0, 0, 0xfedcba9876543210, 0xfedcba9876543210, 0, 0, 9, 4, 0x845f3a15f0cba681, 0xac87623d18f3cea9, 0xd4af8a65401bf6d1, 0xfcd7b28d68431ef9],
    // asrv x0, x1, x2
    [0x4000213c, 0x9ac22820, 9, 9, 0xfedcba9876543210, 4, 0, 0xffedcba987654321, 0xfedcba9876543210, 4, 0, 9, 4, 0x845f3a15f0cba681, 0xac87623d18f3cea9, 0xd4af8a65401bf6d1, 0xfcd7b28d68431ef9],
    // asrv x0, x1, x2
    [0x400021f4, 0x9ac22820, 9, 9, 0xfedcba9876543210, 63, 0, 0xffffffffffffffff, 0xfedcba9876543210, 63, 0, 9, 4, 0x845f3a15f0cba681, 0xac87623d18f3cea9, 0xd4af8a65401bf6d1, 0xfcd7b28d68431ef9],
    // asrv x0, x1, x2
    [0x400022ac, 0x9ac22820, 9, 9, 0xfedcba9876543210, 68, 0, 0xffedcba987654321, 0xfedcba9876543210, 68, 0, 9, 4, 0x845f3a15f0cba681, 0xac87623d18f3cea9, 0xd4af8a65401bf6d1, 0xfcd7b28d68431ef9],
    // add x0, x1, #4095, lsl #12
    [0x40002364, 0x917ffc20, 0, 0, 1, 0, 0, 0xfff001, 1, 0, 0, 0, 4, 0x845f3a15f0cba681, 0xac87623d18f3cea9, 0xd4af8a65401bf6d1, 0xfcd7b28d68431ef9],
    // sub x0, x1, #1
    [0x40002404, 0xd1000420, 0, 0, 0, 0, 0, 0xffffffffffffffff, 0, 0, 0, 0, 4, 0x845f3a15f0cba681, 0xac87623d18f3cea9, 0xd4af8a65401bf6d1, 0xfcd7b28d68431ef9],
    // adds x0, x1, #1
    [0x4000249c, 0xb1000420, 0, 0, 0xffffffffffffffff, 0, 0, 0, 0xffffffffffffffff, 0, 0, 6, 4, 0x845f3a15f0cba681, 0xac87623d18f3cea9, 0xd4af8a65401bf6d1, 0xfcd7b28d68431ef9],
    // subs xzr, x1, #7
    [0x4000253c, 0xf1001c3f, 0, 3, 7, 0, 0, 3, 7, 0, 0, 6, 4, 0x845f3a15f0cba681, 0xac87623d18f3cea9, 0xd4af8a65401bf6d1, 0xfcd7b28d68431ef9],
    // adds xzr, x1, x2
    [0x400025e4, 0xab02003f, 0, 3, 0x8000000000000000, 0x8000000000000000, 0, 3, 0x8000000000000000, 0x8000000000000000, 0, 7, 4, 0x845f3a15f0cba681, 0xac87623d18f3cea9, 0xd4af8a65401bf6d1, 0xfcd7b28d68431ef9],
    // add x0, xzr, x2
    [0x4000268c, 0x8b0203e0, 0, 3, 1, 8, 0, 8, 1, 8, 0, 0, 4, 0x845f3a15f0cba681, 0xac87623d18f3cea9, 0xd4af8a65401bf6d1, 0xfcd7b28d68431ef9],
    // madd x0, x1, x2, x3
    [0x4000273c, 0x9b020c20, 0, 0, 3, 5, 0x64, 0x73, 3, 5, 0x64, 0, 4, 0x845f3a15f0cba681, 0xac87623d18f3cea9, 0xd4af8a65401bf6d1, 0xfcd7b28d68431ef9],
    // madd x0, x1, x2, x3
    [0x400027ec, 0x9b020c20, 0, 0, 0xffffffffffffffff, 0xfffffffffffffffe, 7, 9, 0xffffffffffffffff, 0xfffffffffffffffe, 7, 0, 4, 0x845f3a15f0cba681, 0xac87623d18f3cea9, 0xd4af8a65401bf6d1, 0xfcd7b28d68431ef9],
    // msub x0, x1, x2, x3
    [0x4000289c, 0x9b028c20, 0, 0, 3, 5, 0x64, 85, 3, 5, 0x64, 0, 4, 0x845f3a15f0cba681, 0xac87623d18f3cea9, 0xd4af8a65401bf6d1, 0xfcd7b28d68431ef9],
    // msub x0, x1, x2, x3
    [0x4000294c, 0x9b028c20, 0, 0, 0xffffffffffffffff, 0xfffffffffffffffe, 7, 5, 0xffffffffffffffff, 0xfffffffffffffffe, 7, 0, 4, 0x845f3a15f0cba681, 0xac87623d18f3cea9, 0xd4af8a65401bf6d1, 0xfcd7b28d68431ef9],
    // movz x0, #4660, lsl #32
    [0x400029fc, 0xd2c24680, 0, 0xffffffffffffffff, 0, 0, 0, 0x123400000000, 0, 0, 0, 0, 4, 0x845f3a15f0cba681, 0xac87623d18f3cea9, 0xd4af8a65401bf6d1, 0xfcd7b28d68431ef9],
    // movk x0, #4660
    [0x40002a9c, 0xf2824680, 0, 0xffffffffffffffff, 0, 0, 0, 0xffffffffffff1234, 0, 0, 0, 0, 4, 0x845f3a15f0cba681, 0xac87623d18f3cea9, 0xd4af8a65401bf6d1, 0xfcd7b28d68431ef9],
    // movk x0, #22136, lsl #16
    [0x40002b3c, 0xf2aacf00, 0, 0x1111222233334444, 0, 0, 0, 0x1111222256784444, 0, 0, 0, 0, 4, 0x845f3a15f0cba681, 0xac87623d18f3cea9, 0xd4af8a65401bf6d1, 0xfcd7b28d68431ef9],
    // movk x0, #22136, lsl #48
    [0x40002bdc, 0xf2eacf00, 0, 0xffffffffffffffff, 0, 0, 0, 0x5678ffffffffffff, 0, 0, 0, 0, 4, 0x845f3a15f0cba681, 0xac87623d18f3cea9, 0xd4af8a65401bf6d1, 0xfcd7b28d68431ef9],
    // movn x0, #1
    [0x40002c7c, 0x92800020, 0, 0, 0, 0, 0, 0xfffffffffffffffe, 0, 0, 0, 0, 4, 0x845f3a15f0cba681, 0xac87623d18f3cea9, 0xd4af8a65401bf6d1, 0xfcd7b28d68431ef9],
    // movn x0, #65535, lsl #48
    [0x40002d14, 0x92ffffe0, 0, 0, 0, 0, 0, 0xffffffffffff, 0, 0, 0, 0, 4, 0x845f3a15f0cba681, 0xac87623d18f3cea9, 0xd4af8a65401bf6d1, 0xfcd7b28d68431ef9],
    // adr x0, .+20
    [0x40002dac, 0x100000a0, 0, 0, 0, 0, 0, 0x40002dc0, 0, 0, 0, 0, 4, 0x845f3a15f0cba681, 0xac87623d18f3cea9, 0xd4af8a65401bf6d1, 0xfcd7b28d68431ef9],
    // adr x0, .-1048576
    [0x40002e44, 0x10800000, 0, 0, 0, 0, 0, 0x3ff02e44, 0, 0, 0, 0, 4, 0x845f3a15f0cba681, 0xac87623d18f3cea9, 0xd4af8a65401bf6d1, 0xfcd7b28d68431ef9],
    // adrp x0, .+8192
    [0x40002edc, 0xd0000000, 0, 0, 0, 0, 0, 0x40004000, 0, 0, 0, 0, 4, 0x845f3a15f0cba681, 0xac87623d18f3cea9, 0xd4af8a65401bf6d1, 0xfcd7b28d68431ef9],
    // ubfm x0, x1, #0, #63
    [0x40002f74, 0xd340fc20, 0, 0, 0xf23456789abcde81, 0, 0, 0xf23456789abcde81, 0xf23456789abcde81, 0, 0, 0, 4, 0x845f3a15f0cba681, 0xac87623d18f3cea9, 0xd4af8a65401bf6d1, 0xfcd7b28d68431ef9],
    // ubfm x0, x1, #0, #7
    [0x40003014, 0xd3401c20, 0, 0, 0xf23456789abcde81, 0, 0, 0x81, 0xf23456789abcde81, 0, 0, 0, 4, 0x845f3a15f0cba681, 0xac87623d18f3cea9, 0xd4af8a65401bf6d1, 0xfcd7b28d68431ef9],
    // ubfm x0, x1, #4, #63
    [0x400030b4, 0xd344fc20, 0, 0, 0xf23456789abcde81, 0, 0, 0xf23456789abcde8, 0xf23456789abcde81, 0, 0, 0, 4, 0x845f3a15f0cba681, 0xac87623d18f3cea9, 0xd4af8a65401bf6d1, 0xfcd7b28d68431ef9],
    // ubfm x0, x1, #60, #59
    [0x40003154, 0xd37cec20, 0, 0, 0xf23456789abcde81, 0, 0, 0x23456789abcde810, 0xf23456789abcde81, 0, 0, 0, 4, 0x845f3a15f0cba681, 0xac87623d18f3cea9, 0xd4af8a65401bf6d1, 0xfcd7b28d68431ef9],
    // ubfm x0, x1, #8, #3
    [0x400031f4, 0xd3480c20, 0, 0, 0xf23456789abcde81, 0, 0, 0x100000000000000, 0xf23456789abcde81, 0, 0, 0, 4, 0x845f3a15f0cba681, 0xac87623d18f3cea9, 0xd4af8a65401bf6d1, 0xfcd7b28d68431ef9],
    // ubfm x0, x1, #56, #7
    [0x40003294, 0xd3781c20, 0, 0, 0xf23456789abcde81, 0, 0, 0x8100, 0xf23456789abcde81, 0, 0, 0, 4, 0x845f3a15f0cba681, 0xac87623d18f3cea9, 0xd4af8a65401bf6d1, 0xfcd7b28d68431ef9],
    // ubfm x0, x1, #63, #0
    [0x40003334, 0xd37f0020, 0, 0, 0xf23456789abcde81, 0, 0, 2, 0xf23456789abcde81, 0, 0, 0, 4, 0x845f3a15f0cba681, 0xac87623d18f3cea9, 0xd4af8a65401bf6d1, 0xfcd7b28d68431ef9],
    // sbfm x0, x1, #0, #63
    [0x400033d4, 0x9340fc20, 0, 0, 0xf23456789abcde81, 0, 0, 0xf23456789abcde81, 0xf23456789abcde81, 0, 0, 0, 4, 0x845f3a15f0cba681, 0xac87623d18f3cea9, 0xd4af8a65401bf6d1, 0xfcd7b28d68431ef9],
    // sbfm x0, x1, #0, #7
    [0x40003474, 0x93401c20, 0, 0, 0xf23456789abcde81, 0, 0, 0xffffffffffffff81, 0xf23456789abcde81, 0, 0, 0, 4, 0x845f3a15f0cba681, 0xac87623d18f3cea9, 0xd4af8a65401bf6d1, 0xfcd7b28d68431ef9],
    // sbfm x0, x1, #4, #63
    [0x40003514, 0x9344fc20, 0, 0, 0xf23456789abcde81, 0, 0, 0xff23456789abcde8, 0xf23456789abcde81, 0, 0, 0, 4, 0x845f3a15f0cba681, 0xac87623d18f3cea9, 0xd4af8a65401bf6d1, 0xfcd7b28d68431ef9],
    // sbfm x0, x1, #60, #59
    [0x400035b4, 0x937cec20, 0, 0, 0xf23456789abcde81, 0, 0, 0x23456789abcde810, 0xf23456789abcde81, 0, 0, 0, 4, 0x845f3a15f0cba681, 0xac87623d18f3cea9, 0xd4af8a65401bf6d1, 0xfcd7b28d68431ef9],
    // sbfm x0, x1, #8, #3
    [0x40003654, 0x93480c20, 0, 0, 0xf23456789abcde81, 0, 0, 0x100000000000000, 0xf23456789abcde81, 0, 0, 0, 4, 0x845f3a15f0cba681, 0xac87623d18f3cea9, 0xd4af8a65401bf6d1, 0xfcd7b28d68431ef9],
    // sbfm x0, x1, #56, #7
    [0x400036f4, 0x93781c20, 0, 0, 0xf23456789abcde81, 0, 0, 0xffffffffffff8100, 0xf23456789abcde81, 0, 0, 0, 4, 0x845f3a15f0cba681, 0xac87623d18f3cea9, 0xd4af8a65401bf6d1, 0xfcd7b28d68431ef9],
    // sbfm x0, x1, #63, #0
    [0x40003794, 0x937f0020, 0, 0, 0xf23456789abcde81, 0, 0, 0xfffffffffffffffe, 0xf23456789abcde81, 0, 0, 0, 4, 0x845f3a15f0cba681, 0xac87623d18f3cea9, 0xd4af8a65401bf6d1, 0xfcd7b28d68431ef9],
    // ldr x0, [x1, #8]
    [0x40003834, 0xf9400420, 0, 0xffffffffffffffff, 0x60000000, 0, 0, 0xac87623d18f3cea9, 0x60000000, 0, 0, 0, 4, 0x845f3a15f0cba681, 0xac87623d18f3cea9, 0xd4af8a65401bf6d1, 0xfcd7b28d68431ef9],
    // ldr w0, [x1, #8]
    [0x400038dc, 0xb9400820, 0, 0xffffffffffffffff, 0x60000000, 0, 0, 0x18f3cea9, 0x60000000, 0, 0, 0, 4, 0x845f3a15f0cba681, 0xac87623d18f3cea9, 0xd4af8a65401bf6d1, 0xfcd7b28d68431ef9],
    // ldrh w0, [x1, #8]
    [0x40003984, 0x79401020, 0, 0xffffffffffffffff, 0x60000000, 0, 0, 0xcea9, 0x60000000, 0, 0, 0, 4, 0x845f3a15f0cba681, 0xac87623d18f3cea9, 0xd4af8a65401bf6d1, 0xfcd7b28d68431ef9],
    // ldrb w0, [x1, #8]
    [0x40003a2c, 0x39402020, 0, 0xffffffffffffffff, 0x60000000, 0, 0, 0xa9, 0x60000000, 0, 0, 0, 4, 0x845f3a15f0cba681, 0xac87623d18f3cea9, 0xd4af8a65401bf6d1, 0xfcd7b28d68431ef9],
    // ldrsb x0, [x1, #8]
    [0x40003ad4, 0x39802020, 0, 0xffffffffffffffff, 0x60000000, 0, 0, 0xffffffffffffffa9, 0x60000000, 0, 0, 0, 4, 0x845f3a15f0cba681, 0xac87623d18f3cea9, 0xd4af8a65401bf6d1, 0xfcd7b28d68431ef9],
    // ldrsh x0, [x1, #8]
    [0x40003b7c, 0x79801020, 0, 0xffffffffffffffff, 0x60000000, 0, 0, 0xffffffffffffcea9, 0x60000000, 0, 0, 0, 4, 0x845f3a15f0cba681, 0xac87623d18f3cea9, 0xd4af8a65401bf6d1, 0xfcd7b28d68431ef9],
    // ldrsw x0, [x1, #8]
    [0x40003c24, 0xb9800820, 0, 0xffffffffffffffff, 0x60000000, 0, 0, 0x18f3cea9, 0x60000000, 0, 0, 0, 4, 0x845f3a15f0cba681, 0xac87623d18f3cea9, 0xd4af8a65401bf6d1, 0xfcd7b28d68431ef9],
    // ldrsb x0, [x1]
    [0x40003ccc, 0x39800020, 0, 0, 0x60000009, 0, 0, 0xffffffffffffffce, 0x60000009, 0, 0, 0, 4, 0x845f3a15f0cba681, 0xac87623d18f3cea9, 0xd4af8a65401bf6d1, 0xfcd7b28d68431ef9],
    // ldrsh x0, [x1]
    [0x40003d6c, 0x79800020, 0, 0, 0x6000000f, 0, 0, 0xffffffffffffd1ac, 0x6000000f, 0, 0, 0, 4, 0x845f3a15f0cba681, 0xac87623d18f3cea9, 0xd4af8a65401bf6d1, 0xfcd7b28d68431ef9],
    // str x0, [x1, #8]
    [0x40003e0c, 0xf9000420, 0, 0x1122334455667788, 0x60000000, 0, 0, 0x1122334455667788, 0x60000000, 0, 0, 0, 4, 0x845f3a15f0cba681, 0x1122334455667788, 0xd4af8a65401bf6d1, 0xfcd7b28d68431ef9],
    // str w0, [x1, #8]
    [0x40003eb4, 0xb9000820, 0, 0x1122334455667788, 0x60000000, 0, 0, 0x1122334455667788, 0x60000000, 0, 0, 0, 4, 0x845f3a15f0cba681, 0xac87623d55667788, 0xd4af8a65401bf6d1, 0xfcd7b28d68431ef9],
    // strh w0, [x1, #8]
    [0x40003f5c, 0x79001020, 0, 0x1122334455667788, 0x60000000, 0, 0, 0x1122334455667788, 0x60000000, 0, 0, 0, 4, 0x845f3a15f0cba681, 0xac87623d18f37788, 0xd4af8a65401bf6d1, 0xfcd7b28d68431ef9],
    // strb w0, [x1, #8]
    [0x40004004, 0x39002020, 0, 0x1122334455667788, 0x60000000, 0, 0, 0x1122334455667788, 0x60000000, 0, 0, 0, 4, 0x845f3a15f0cba681, 0xac87623d18f3ce88, 0xd4af8a65401bf6d1, 0xfcd7b28d68431ef9],
    // str xzr, [x1]
    [0x400040ac, 0xf900003f, 0, 1, 0x60000003, 0, 0, 1, 0x60000003, 0, 0, 0, 4, 0xcba681, 0xac87623d18000000, 0xd4af8a65401bf6d1, 0xfcd7b28d68431ef9],
    // stp x0, x2, [x1, #8]
    [0x40004154, 0xa9008820, 0, 1, 0x60000000, 2, 0, 1, 0x60000000, 2, 0, 0, 4, 0x845f3a15f0cba681, 1, 2, 0xfcd7b28d68431ef9],
    // stp x0, x2, [x1, #-16]!
    [0x40004204, 0xa9bf0820, 0, 1, 0x60000010, 2, 0, 1, 0x60000000, 2, 0, 0, 4, 1, 2, 0xd4af8a65401bf6d1, 0xfcd7b28d68431ef9],
    // ldp x0, x2, [x1, #-8]
    [0x400042b4, 0xa97f8820, 0, 1, 0x60000010, 2, 0, 0xac87623d18f3cea9, 0x60000010, 0xd4af8a65401bf6d1, 0, 0, 4, 0x845f3a15f0cba681, 0xac87623d18f3cea9, 0xd4af8a65401bf6d1, 0xfcd7b28d68431ef9],
    // ldp x0, x2, [x1], #504
    [0x40004364, 0xa8df8820, 0, 1, 0x60000000, 2, 0, 0x845f3a15f0cba681, 0x600001f8, 0xac87623d18f3cea9, 0, 0, 4, 0x845f3a15f0cba681, 0xac87623d18f3cea9, 0xd4af8a65401bf6d1, 0xfcd7b28d68431ef9],
    // ldp x1, x2, [x1]
    [0x40004414, 0xa9400821, 0, 1, 0x60000000, 2, 0, 1, 0x845f3a15f0cba681, 0xac87623d18f3cea9, 0, 0, 4, 0x845f3a15f0cba681, 0xac87623d18f3cea9, 0xd4af8a65401bf6d1, 0xfcd7b28d68431ef9],
    // b.eq .+12
    [0x400044c4, 0x54000060, 0, 0, 0, 0, 0, 0, 0, 0, 0, 0, 4, 0x845f3a15f0cba681, 0xac87623d18f3cea9, 0xd4af8a65401bf6d1, 0xfcd7b28d68431ef9],
    // b.eq .+12
    [0x4000455c, 0x54000060, 6, 0, 0, 0, 0, 0, 0, 0, 0, 6, 12, 0x845f3a15f0cba681, 0xac87623d18f3cea9, 0xd4af8a65401bf6d1, 0xfcd7b28d68431ef9],
    // b.eq .+12
    [0x400045fc, 0x54000060, 9, 0, 0, 0, 0, 0, 0, 0, 0, 9, 4, 0x845f3a15f0cba681, 0xac87623d18f3cea9, 0xd4af8a65401bf6d1, 0xfcd7b28d68431ef9],
    // csinc x0, x1, x2, eq
    [0x4000469c, 0x9a820420, 2, 0, 10, 0xffffffffffffffff, 0, 0, 10, 0xffffffffffffffff, 0, 2, 4, 0x845f3a15f0cba681, 0xac87623d18f3cea9, 0xd4af8a65401bf6d1, 0xfcd7b28d68431ef9],
    // b.ne .+12
    [0x4000474c, 0x54000061, 0, 0, 0, 0, 0, 0, 0, 0, 0, 0, 12, 0x845f3a15f0cba681, 0xac87623d18f3cea9, 0xd4af8a65401bf6d1, 0xfcd7b28d68431ef9],
    // b.ne .+12
    [0x400047e4, 0x54000061, 6, 0, 0, 0, 0, 0, 0, 0, 0, 6, 4, 0x845f3a15f0cba681, 0xac87623d18f3cea9, 0xd4af8a65401bf6d1, 0xfcd7b28d68431ef9],
    // b.ne .+12
    [0x40004884, 0x54000061, 9, 0, 0, 0, 0, 0, 0, 0, 0, 9, 12, 0x845f3a15f0cba681, 0xac87623d18f3cea9, 0xd4af8a65401bf6d1, 0xfcd7b28d68431ef9],
    // csinc x0, x1, x2, ne
    [0x40004924, 0x9a821420, 7, 0, 10, 0xffffffffffffffff, 0, 0, 10, 0xffffffffffffffff, 0, 7, 4, 0x845f3a15f0cba681, 0xac87623d18f3cea9, 0xd4af8a65401bf6d1, 0xfcd7b28d68431ef9],
    // b.cs .+12
    [0x400049d4, 0x54000062, 0, 0, 0, 0, 0, 0, 0, 0, 0, 0, 4, 0x845f3a15f0cba681, 0xac87623d18f3cea9, 0xd4af8a65401bf6d1, 0xfcd7b28d68431ef9],
    // b.cs .+12
    [0x40004a6c, 0x54000062, 6, 0, 0, 0, 0, 0, 0, 0, 0, 6, 12, 0x845f3a15f0cba681, 0xac87623d18f3cea9, 0xd4af8a65401bf6d1, 0xfcd7b28d68431ef9],
    // b.cs .+12
    [0x40004b0c, 0x54000062, 9, 0, 0, 0, 0, 0, 0, 0, 0, 9, 4, 0x845f3a15f0cba681, 0xac87623d18f3cea9, 0xd4af8a65401bf6d1, 0xfcd7b28d68431ef9],
    // csinc x0, x1, x2, cs
    [0x40004bac, 0x9a822420, 12, 0, 10, 0xffffffffffffffff, 0, 0, 10, 0xffffffffffffffff, 0, 12, 4, 0x845f3a15f0cba681, 0xac87623d18f3cea9, 0xd4af8a65401bf6d1, 0xfcd7b28d68431ef9],
    // b.cc .+12
    [0x40004c5c, 0x54000063, 0, 0, 0, 0, 0, 0, 0, 0, 0, 0, 12, 0x845f3a15f0cba681, 0xac87623d18f3cea9, 0xd4af8a65401bf6d1, 0xfcd7b28d68431ef9],
    // b.cc .+12
    [0x40004cf4, 0x54000063, 6, 0, 0, 0, 0, 0, 0, 0, 0, 6, 4, 0x845f3a15f0cba681, 0xac87623d18f3cea9, 0xd4af8a65401bf6d1, 0xfcd7b28d68431ef9],
    // b.cc .+12
    [0x40004d94, 0x54000063, 9, 0, 0, 0, 0, 0, 0, 0, 0, 9, 12, 0x845f3a15f0cba681, 0xac87623d18f3cea9, 0xd4af8a65401bf6d1, 0xfcd7b28d68431ef9],
    // csinc x0, x1, x2, cc
    [0x40004e34, 0x9a823420, 1, 0, 10, 0xffffffffffffffff, 0, 10, 10, 0xffffffffffffffff, 0, 1, 4, 0x845f3a15f0cba681, 0xac87623d18f3cea9, 0xd4af8a65401bf6d1, 0xfcd7b28d68431ef9],
    // b.mi .+12
    [0x40004ee4, 0x54000064, 0, 0, 0, 0, 0, 0, 0, 0, 0, 0, 4, 0x845f3a15f0cba681, 0xac87623d18f3cea9, 0xd4af8a65401bf6d1, 0xfcd7b28d68431ef9],
    // b.mi .+12
    [0x40004f7c, 0x54000064, 6, 0, 0, 0, 0, 0, 0, 0, 0, 6, 4, 0x845f3a15f0cba681, 0xac87623d18f3cea9, 0xd4af8a65401bf6d1, 0xfcd7b28d68431ef9],
    // b.mi .+12
    [0x4000501c, 0x54000064, 9, 0, 0, 0, 0, 0, 0, 0, 0, 9, 12, 0x845f3a15f0cba681, 0xac87623d18f3cea9, 0xd4af8a65401bf6d1, 0xfcd7b28d68431ef9],
    // csinc x0, x1, x2, mi
    [0x400050bc, 0x9a824420, 6, 0, 10, 0xffffffffffffffff, 0, 0, 10, 0xffffffffffffffff, 0, 6, 4, 0x845f3a15f0cba681, 0xac87623d18f3cea9, 0xd4af8a65401bf6d1, 0xfcd7b28d68431ef9],
    // b.pl .+12
    [0x4000516c, 0x54000065, 0, 0, 0, 0, 0, 0, 0, 0, 0, 0, 12, 0x845f3a15f0cba681, 0xac87623d18f3cea9, 0xd4af8a65401bf6d1, 0xfcd7b28d68431ef9],
    // b.pl .+12
    [0x40005204, 0x54000065, 6, 0, 0, 0, 0, 0, 0, 0, 0, 6, 12, 0x845f3a15f0cba681, 0xac87623d18f3cea9, 0xd4af8a65401bf6d1, 0xfcd7b28d68431ef9],
    // b.pl .+12
    [0x400052a4, 0x54000065, 9, 0, 0, 0, 0, 0, 0, 0, 0, 9, 4, 0x845f3a15f0cba681, 0xac87623d18f3cea9, 0xd4af8a65401bf6d1, 0xfcd7b28d68431ef9],
    // csinc x0, x1, x2, pl
    [0x40005344, 0x9a825420, 11, 0, 10, 0xffffffffffffffff, 0, 0, 10, 0xffffffffffffffff, 0, 11, 4, 0x845f3a15f0cba681, 0xac87623d18f3cea9, 0xd4af8a65401bf6d1, 0xfcd7b28d68431ef9],
    // b.vs .+12
    [0x400053f4, 0x54000066, 0, 0, 0, 0, 0, 0, 0, 0, 0, 0, 4, 0x845f3a15f0cba681, 0xac87623d18f3cea9, 0xd4af8a65401bf6d1, 0xfcd7b28d68431ef9],
    // b.vs .+12
    [0x4000548c, 0x54000066, 6, 0, 0, 0, 0, 0, 0, 0, 0, 6, 4, 0x845f3a15f0cba681, 0xac87623d18f3cea9, 0xd4af8a65401bf6d1, 0xfcd7b28d68431ef9],
    // b.vs .+12
    [0x4000552c, 0x54000066, 9, 0, 0, 0, 0, 0, 0, 0, 0, 9, 12, 0x845f3a15f0cba681, 0xac87623d18f3cea9, 0xd4af8a65401bf6d1, 0xfcd7b28d68431ef9],
    // csinc x0, x1, x2, vs
    [0x400055cc, 0x9a826420, 0, 0, 10, 0xffffffffffffffff, 0, 0, 10, 0xffffffffffffffff, 0, 0, 4, 0x845f3a15f0cba681, 0xac87623d18f3cea9, 0xd4af8a65401bf6d1, 0xfcd7b28d68431ef9],
    // b.vc .+12
    [0x40005674, 0x54000067, 0, 0, 0, 0, 0, 0, 0, 0, 0, 0, 12, 0x845f3a15f0cba681, 0xac87623d18f3cea9, 0xd4af8a65401bf6d1, 0xfcd7b28d68431ef9],
    // b.vc .+12
    [0x4000570c, 0x54000067, 6, 0, 0, 0, 0, 0, 0, 0, 0, 6, 12, 0x845f3a15f0cba681, 0xac87623d18f3cea9, 0xd4af8a65401bf6d1, 0xfcd7b28d68431ef9],
    // b.vc .+12
    [0x400057ac, 0x54000067, 9, 0, 0, 0, 0, 0, 0, 0, 0, 9, 4, 0x845f3a15f0cba681, 0xac87623d18f3cea9, 0xd4af8a65401bf6d1, 0xfcd7b28d68431ef9],
    // csinc x0, x1, x2, vc
    [0x4000584c, 0x9a827420, 5, 0, 10, 0xffffffffffffffff, 0, 0, 10, 0xffffffffffffffff, 0, 5, 4, 0x845f3a15f0cba681, 0xac87623d18f3cea9, 0xd4af8a65401bf6d1, 0xfcd7b28d68431ef9],
    // b.hi .+12
    [0x400058fc, 0x54000068, 0, 0, 0, 0, 0, 0, 0, 0, 0, 0, 4, 0x845f3a15f0cba681, 0xac87623d18f3cea9, 0xd4af8a65401bf6d1, 0xfcd7b28d68431ef9],
    // b.hi .+12
    [0x40005994, 0x54000068, 6, 0, 0, 0, 0, 0, 0, 0, 0, 6, 4, 0x845f3a15f0cba681, 0xac87623d18f3cea9, 0xd4af8a65401bf6d1, 0xfcd7b28d68431ef9],
    // b.hi .+12
    [0x40005a34, 0x54000068, 9, 0, 0, 0, 0, 0, 0, 0, 0, 9, 4, 0x845f3a15f0cba681, 0xac87623d18f3cea9, 0xd4af8a65401bf6d1, 0xfcd7b28d68431ef9],
    // csinc x0, x1, x2, hi
    [0x40005ad4, 0x9a828420, 10, 0, 10, 0xffffffffffffffff, 0, 10, 10, 0xffffffffffffffff, 0, 10, 4, 0x845f3a15f0cba681, 0xac87623d18f3cea9, 0xd4af8a65401bf6d1, 0xfcd7b28d68431ef9],
    // b.ls .+12
    [0x40005b84, 0x54000069, 0, 0, 0, 0, 0, 0, 0, 0, 0, 0, 12, 0x845f3a15f0cba681, 0xac87623d18f3cea9, 0xd4af8a65401bf6d1, 0xfcd7b28d68431ef9],
    // b.ls .+12
    [0x40005c1c, 0x54000069, 6, 0, 0, 0, 0, 0, 0, 0, 0, 6, 12, 0x845f3a15f0cba681, 0xac87623d18f3cea9, 0xd4af8a65401bf6d1, 0xfcd7b28d68431ef9],
    // b.ls .+12
    [0x40005cbc, 0x54000069, 9, 0, 0, 0, 0, 0, 0, 0, 0, 9, 12, 0x845f3a15f0cba681, 0xac87623d18f3cea9, 0xd4af8a65401bf6d1, 0xfcd7b28d68431ef9],
    // csinc x0, x1, x2, ls
    [0x40005d5c, 0x9a829420, 15, 0, 10, 0xffffffffffffffff, 0, 10, 10, 0xffffffffffffffff, 0, 15, 4, 0x845f3a15f0cba681, 0xac87623d18f3cea9, 0xd4af8a65401bf6d1, 0xfcd7b28d68431ef9],
    // b.ge .+12
    [0x40005e0c, 0x5400006a, 0, 0, 0, 0, 0, 0, 0, 0, 0, 0, 12, 0x845f3a15f0cba681, 0xac87623d18f3cea9, 0xd4af8a65401bf6d1, 0xfcd7b28d68431ef9],
    // b.ge .+12
    [0x40005ea4, 0x5400006a, 6, 0, 0, 0, 0, 0, 0, 0, 0, 6, 12, 0x845f3a15f0cba681, 0xac87623d18f3cea9, 0xd4af8a65401bf6d1, 0xfcd7b28d68431ef9],
    // b.ge .+12
    [0x40005f44, 0x5400006a, 9, 0, 0, 0, 0, 0, 0, 0, 0, 9, 12, 0x845f3a15f0cba681, 0xac87623d18f3cea9, 0xd4af8a65401bf6d1, 0xfcd7b28d68431ef9],
    // csinc x0, x1, x2, ge
    [0x40005fe4, 0x9a82a420, 4, 0, 10, 0xffffffffffffffff, 0, 10, 10, 0xffffffffffffffff, 0, 4, 4, 0x845f3a15f0cba681, 0xac87623d18f3cea9, 0xd4af8a65401bf6d1, 0xfcd7b28d68431ef9],
    // b.lt .+12
    [0x40006094, 0x5400006b, 0, 0, 0, 0, 0, 0, 0, 0, 0, 0, 4, 0x845f3a15f0cba681, 0xac87623d18f3cea9, 0xd4af8a65401bf6d1, 0xfcd7b28d68431ef9],
    // b.lt .+12
    [0x4000612c, 0x5400006b, 6, 0, 0, 0, 0, 0, 0, 0, 0, 6, 4, 0x845f3a15f0cba681, 0xac87623d18f3cea9, 0xd4af8a65401bf6d1, 0xfcd7b28d68431ef9],
    // b.lt .+12
    [0x400061cc, 0x5400006b, 9, 0, 0, 0, 0, 0, 0, 0, 0, 9, 4, 0x845f3a15f0cba681, 0xac87623d18f3cea9, 0xd4af8a65401bf6d1, 0xfcd7b28d68431ef9],
    // csinc x0, x1, x2, lt
    [0x4000626c, 0x9a82b420, 9, 0, 10, 0xffffffffffffffff, 0, 0, 10, 0xffffffffffffffff, 0, 9, 4, 0x845f3a15f0cba681, 0xac87623d18f3cea9, 0xd4af8a65401bf6d1, 0xfcd7b28d68431ef9],
    // b.gt .+12
    [0x4000631c, 0x5400006c, 0, 0, 0, 0, 0, 0, 0, 0, 0, 0, 12, 0x845f3a15f0cba681, 0xac87623d18f3cea9, 0xd4af8a65401bf6d1, 0xfcd7b28d68431ef9],
    // b.gt .+12
    [0x400063b4, 0x5400006c, 6, 0, 0, 0, 0, 0, 0, 0, 0, 6, 4, 0x845f3a15f0cba681, 0xac87623d18f3cea9, 0xd4af8a65401bf6d1, 0xfcd7b28d68431ef9],
    // b.gt .+12
    [0x40006454, 0x5400006c, 9, 0, 0, 0, 0, 0, 0, 0, 0, 9, 12, 0x845f3a15f0cba681, 0xac87623d18f3cea9, 0xd4af8a65401bf6d1, 0xfcd7b28d68431ef9],
    // csinc x0, x1, x2, gt
    [0x400064f4, 0x9a82c420, 14, 0, 10, 0xffffffffffffffff, 0, 0, 10, 0xffffffffffffffff, 0, 14, 4, 0x845f3a15f0cba681, 0xac87623d18f3cea9, 0xd4af8a65401bf6d1, 0xfcd7b28d68431ef9],
    // b.le .+12
    [0x400065a4, 0x5400006d, 0, 0, 0, 0, 0, 0, 0, 0, 0, 0, 4, 0x845f3a15f0cba681, 0xac87623d18f3cea9, 0xd4af8a65401bf6d1, 0xfcd7b28d68431ef9],
    // b.le .+12
    [0x4000663c, 0x5400006d, 6, 0, 0, 0, 0, 0, 0, 0, 0, 6, 12, 0x845f3a15f0cba681, 0xac87623d18f3cea9, 0xd4af8a65401bf6d1, 0xfcd7b28d68431ef9],
    // b.le .+12
    [0x400066dc, 0x5400006d, 9, 0, 0, 0, 0, 0, 0, 0, 0, 9, 4, 0x845f3a15f0cba681, 0xac87623d18f3cea9, 0xd4af8a65401bf6d1, 0xfcd7b28d68431ef9],
    // csinc x0, x1, x2, le
    [0x4000677c, 0x9a82d420, 3, 0, 10, 0xffffffffffffffff, 0, 10, 10, 0xffffffffffffffff, 0, 3, 4, 0x845f3a15f0cba681, 0xac87623d18f3cea9, 0xd4af8a65401bf6d1, 0xfcd7b28d68431ef9],
    // cbz x1, .+12
    [0x4000682c, 0xb4000061, 0, 0, 0, 0, 0, 0, 0, 0, 0, 0, 12, 0x845f3a15f0cba681, 0xac87623d18f3cea9, 0xd4af8a65401bf6d1, 0xfcd7b28d68431ef9],
    // cbz x1, .+12
    [0x400068c4, 0xb4000061, 0, 0, 0x8000000000000000, 0, 0, 0, 0x8000000000000000, 0, 0, 0, 4, 0x845f3a15f0cba681, 0xac87623d18f3cea9, 0xd4af8a65401bf6d1, 0xfcd7b28d68431ef9],
    // cbnz x1, .+12
    [0x40006964, 0xb5000061, 0, 0, 0, 0, 0, 0, 0, 0, 0, 0, 4, 0x845f3a15f0cba681, 0xac87623d18f3cea9, 0xd4af8a65401bf6d1, 0xfcd7b28d68431ef9],
    // cbnz x1, .+12
    [0x400069fc, 0xb5000061, 0, 0, 0x8000000000000000, 0, 0, 0, 0x8000000000000000, 0, 0, 0, 12, 0x845f3a15f0cba681, 0xac87623d18f3cea9, 0xd4af8a65401bf6d1, 0xfcd7b28d68431ef9],
    // b .+12
    [0x40006a9c, 0x14000003, 0, 0, 0, 0, 0, 0, 0, 0, 0, 0, 12, 0x845f3a15f0cba681, 0xac87623d18f3cea9, 0xd4af8a65401bf6d1, 0xfcd7b28d68431ef9],
    // nop
    [0x40006b34, 0xd503201f, 15, 1, 2, 3, 4, 1, 2, 3, 4, 15, 4, 0x845f3a15f0cba681, 0xac87623d18f3cea9, 0xd4af8a65401bf6d1, 0xfcd7b28d68431ef9],
};

/// A memory of 64 bytes, which begins as the emulator's does.
fn memory(alloc: Global) -> Result<Memory, AllocError> {
    let mut bytes = Vec::new(alloc);
    for k in 0u32..64 {
        bytes.push(((37 * k + 129) % 256) as u8)?;
    }
    let region = Region {
        start: BUFFER,
        bytes,
        write: true,
        exec: false,
    };
    let mut mem = Memory::new(alloc);
    if mem.has_room(region.start, region.bytes.len() as u64) {
        mem.add(region)?;
    }
    Ok(mem)
}

fn cpu_at(row: &[u64; 17]) -> Cpu {
    let mut x = [0; 31];
    x[0] = row[3];
    x[1] = row[4];
    x[2] = row[5];
    x[3] = row[6];
    let xf = XFlags {
        cf: false,
        zf: false,
        sf: false,
        of: false,
    };
    let af = AFlags {
        n: row[2] & 8 != 0,
        z: row[2] & 4 != 0,
        c: row[2] & 2 != 0,
        v: row[2] & 1 != 0,
    };
    Cpu {
        x,
        sp: BUFFER + 8,
        pc: row[0],
        xf,
        af,
    }
}

fn number_of(flags: AFlags) -> u64 {
    let n = if flags.n { 8 } else { 0 };
    let z = if flags.z { 4 } else { 0 };
    let c = if flags.c { 2 } else { 0 };
    let v = if flags.v { 1 } else { 0 };
    n + z + c + v
}

fn word_at(mem: &Memory, offset: u64) -> u64
    requires { offset < 64 }
{
    mem.load(BUFFER + offset, Width::W64).unwrap_or(0)
}

/// Whether a row's instruction does what the emulator did.
fn agrees(mem: &mut Memory, row: &[u64; 17]) -> bool {
    let mut cpu = cpu_at(row);
    let Ok(word) = u32::try_from(row[1]) else {
        return false;
    };
    let Some(i) = decode(word) else {
        return false;
    };
    let event = step(&mut cpu, mem, &i);
    let target = row[0].wrapping_add(row[12]);
    let goes = if row[12] == 4 {
        AEvent::Next
    } else {
        AEvent::Goto(target)
    };
    event == goes
        && cpu.pc == target
        && cpu.x[0] == row[7]
        && cpu.x[1] == row[8]
        && cpu.x[2] == row[9]
        && cpu.x[3] == row[10]
        && number_of(cpu.af) == row[11]
        && word_at(mem, 0) == row[13]
        && word_at(mem, 8) == row[14]
        && word_at(mem, 16) == row[15]
        && word_at(mem, 24) == row[16]
}

#[test]
fn does_what_an_emulator_does(rt: HostRuntime) -> Result<(), Fail> {
    for row in &ROWS {
        let mut mem = memory(rt.alloc())?;
        assert!(rt; agrees(&mut mem, row), "at {}", row[1]);
    }
    Ok(())
}

static FAULTS: [(u32, AFault); 7] = [
    // ldr x13, [x29]; add x0, x1, x14: blocked, whatever the memory says
    (0xF940_03AD, AFault::Blocked),
    (0x8B0E_0020, AFault::Blocked),
    // ldr x0, [sp]; stp x0, x2, [sp]: sp is no multiple of 16
    (0xF940_03E0, AFault::Misaligned),
    (0xA900_0BE0, AFault::Misaligned),
    // ldr x0, [x1, #40]; stp x0, x2, [x1, #16]: outside the region, and past its end
    (0xF940_1420, AFault::Memory(MemBad::Unmapped(BUFFER + 80))),
    (0xA901_0820, AFault::Memory(MemBad::Unmapped(BUFFER + 64))),
    // brk #1
    (0xD420_0020, AFault::Halt),
];

/// The event of a word's instruction, with x1 in the region, and whether it left registers and memory as they were.
fn done(mem: &mut Memory, word: u32) -> Option<(AEvent, bool)> {
    let mut cpu = cpu_at(&ROWS[0]);
    cpu.x[1] = BUFFER + 40;
    let before = cpu;
    let last = word_at(mem, 56);
    let i = decode(word)?;
    let event = step(&mut cpu, mem, &i);
    Some((event, cpu == before && word_at(mem, 56) == last))
}

#[test]
fn tells_faults(rt: HostRuntime) -> Result<(), Fail> {
    for (word, fault) in &FAULTS {
        let mut mem = memory(rt.alloc())?;
        let wanted = Some((AEvent::Fault(*fault), true));
        assert!(rt; done(&mut mem, *word) == wanted, "at {word:08x}");
    }
    Ok(())
}
