//! Bytes that begin no instruction, and an instruction with more behind it.

use reg_map::registers::X64Reg;
use x64_isa::decode;
use x64_isa::instruction::{XBad, XInstr};

/// Bytes, and what is told of them.
static ROWS: [(&[u8], Result<(XInstr, usize), XBad>); 28] = [
    (b"", Err(XBad::Short)),
    (b"\x48\x8B", Err(XBad::Short)),
    (b"\x48\x81\xEC\x20\x00\x00", Err(XBad::Short)),
    (b"\x48\x81\xEC\x20\x00\x00\x00", Err(XBad::Unknown)),
    (b"\x48\x89\xE0", Err(XBad::Unknown)),
    (b"\x40", Err(XBad::Short)),
    (b"\x66\x41", Err(XBad::Short)),
    (b"\x48\x8B\x44", Err(XBad::Short)),
    (b"\x49\x8B\x44\x24", Err(XBad::Short)),
    // no second register in SIB, and no base without a displacement
    (b"\x48\x8B\x44\x20", Err(XBad::Unknown)),
    (b"\x48\x8B\x00", Err(XBad::Unknown)),
    // RIP wants REX.B to be 0
    (b"\x49\x8B\x05", Err(XBad::Unknown)),
    (b"\x48\x8B\x05\x00\x00\x00", Err(XBad::Short)),
    // a displacement of 32 bits that fits 8
    (b"\x48\x8B\x80\x7F\x00\x00", Err(XBad::Short)),
    (b"\x48\x8B\x80\x7F\x00\x00\x00", Err(XBad::Unknown)),
    // REX where it is not needed, with X, or with R where reg holds a number
    (b"\x40\x8B", Err(XBad::Unknown)),
    (b"\x66\x40", Err(XBad::Unknown)),
    (b"\x42", Err(XBad::Unknown)),
    (b"\x44\xFF", Err(XBad::Unknown)),
    (b"\x4C\xF7", Err(XBad::Unknown)),
    // the conditions of parity, a byte store without REX, and a count of 64
    (b"\x0F\x8A", Err(XBad::Unknown)),
    (b"\x40\x0F\x9B", Err(XBad::Unknown)),
    (b"\x88", Err(XBad::Unknown)),
    (b"\x48\xC1\xE0\x40", Err(XBad::Unknown)),
    // other numbers of FF and of 81
    (b"\xFF\xC0", Err(XBad::Unknown)),
    (b"\x48\x83\xD0", Err(XBad::Unknown)),
    // more behind
    (
        b"\x48\x8B\xC4\xC3",
        Ok((
            XInstr::MovReg {
                r: X64Reg::Rax,
                q: X64Reg::Rsp,
            },
            3,
        )),
    ),
    (
        b"\x48\x83\xEC\x20\xC3",
        Ok((
            XInstr::SubImm {
                q: X64Reg::Rsp,
                imm: 32,
            },
            4,
        )),
    ),
];

#[test]
fn refusals(rt: HostRuntime) {
    for (bytes, wanted) in &ROWS {
        assert!(rt; decode(bytes) == *wanted, "{bytes:?}");
    }
}
