//! The map of registers, row by row, and registers that are set.

use reg_map::registers::{A64Reg, AFlags, Cpu, X64Reg, XFlags, arm_of, is_blocked, x64_of};

// The register mapping of Microsoft's page, by Arm64 number; the last column says that
// Arm64EC code must not use the register.
const TABLE: [(u8, Option<X64Reg>, bool); 32] = [
    (0, Some(X64Reg::Rcx), false),
    (1, Some(X64Reg::Rdx), false),
    (2, Some(X64Reg::R8), false),
    (3, Some(X64Reg::R9), false),
    (4, Some(X64Reg::R10), false),
    (5, Some(X64Reg::R11), false),
    (6, None, false),
    (7, None, false),
    (8, Some(X64Reg::Rax), false),
    (9, None, false),
    (10, None, false),
    (11, None, false),
    (12, None, false),
    (13, None, true),
    (14, None, true),
    (15, None, false),
    (16, None, false),
    (17, None, false),
    (18, None, true),
    (19, Some(X64Reg::R12), false),
    (20, Some(X64Reg::R13), false),
    (21, Some(X64Reg::R14), false),
    (22, Some(X64Reg::R15), false),
    (23, None, true),
    (24, None, true),
    (25, Some(X64Reg::Rsi), false),
    (26, Some(X64Reg::Rdi), false),
    (27, Some(X64Reg::Rbx), false),
    (28, None, true),
    (29, Some(X64Reg::Rbp), false),
    (30, None, false),
    (31, Some(X64Reg::Rsp), false),
];

#[test]
fn maps_registers(rt: HostRuntime) {
    for (number, held, blocked) in TABLE {
        let register = A64Reg(number);
        assert!(rt; x64_of(register) == held, "at {number}");
        assert!(rt; is_blocked(register) == blocked, "at {number}");
        if let Some(x64) = held {
            assert!(rt; arm_of(x64) == register, "at {number}");
        }
    }
    assert!(rt; x64_of(A64Reg(32)).is_none());
}

#[test]
fn sets_registers(rt: HostRuntime) {
    let xf = XFlags {
        cf: false,
        zf: false,
        sf: false,
        of: false,
    };
    let af = AFlags {
        n: false,
        z: false,
        c: false,
        v: false,
    };
    let mut cpu = Cpu {
        x: [7; 31],
        sp: 9,
        pc: 11,
        xf,
        af,
    };
    cpu.set64(X64Reg::Rsp, 32);
    cpu.set64(X64Reg::Rax, 33);
    assert!(rt; cpu.sp == 32 && cpu.x[8] == 33 && cpu.x[0] == 7 && cpu.pc == 11);
    assert!(rt; cpu.get64(X64Reg::Rsp) == 32 && cpu.get64(X64Reg::Rax) == 33);
}
