//! Instructions as data.

use reg_map::registers::X64Reg;
use thiserror::Error;

/// A place in memory that an instruction names (Intel SDM, Vol. 2, 2.1.5 and 2.2.1.6).
#[derive(Clone, Copy, Debug, PartialEq, Eq)]
pub enum Place {
    /// The value of a register and a displacement.
    Base { base: X64Reg, displacement: i32 },
    /// The address of the next instruction and a displacement.
    Rip { displacement: i32 },
}

/// What the field rm names.
#[derive(Clone, Copy, Debug, PartialEq, Eq)]
pub enum Operand {
    Register(X64Reg),
    Memory(Place),
}

/// A condition over the flags, by the letters of its mnemonic (Intel SDM, Vol. 1, appendix B).
#[derive(Clone, Copy, Debug, PartialEq, Eq)]
pub enum Condition {
    /// `o`
    Overflow,
    /// `no`
    NotOverflow,
    /// `b`, unsigned
    Below,
    /// `ae`, unsigned
    AboveOrEqual,
    /// `e`
    Equals,
    /// `ne`
    NotEquals,
    /// `be`, unsigned
    BelowOrEqual,
    /// `a`, unsigned
    Above,
    /// `s`
    Sign,
    /// `ns`
    NotSign,
    /// `l`, signed
    LessThan,
    /// `ge`, signed
    GreaterOrEqual,
    /// `le`, signed
    LessOrEqual,
    /// `g`, signed
    GreaterThan,
}

/// An instruction, one variant a form.
///
/// `r` is a register in the field reg of ModRM or in the opcode byte, `q` one in the field rm, and `m` a
/// place in memory (Intel SDM, Vol. 2, 2.1.3 and 3.1.1.1). Operands are of 64 bits where the name of the
/// variant says no other width. Immediates are sign-extended; a `rel` counts from the next instruction.
#[derive(Clone, Copy, Debug, PartialEq, Eq)]
pub enum XInstr {
    /// `mov r, q`
    MovReg { r: X64Reg, q: X64Reg },
    /// `mov r, m`
    MovLoad { r: X64Reg, m: Place },
    /// `mov r, q` of 32 bits; the high half becomes zero
    Mov32Reg { r: X64Reg, q: X64Reg },
    /// `mov r, m` of 32 bits; the high half becomes zero
    Mov32Load { r: X64Reg, m: Place },
    /// `mov m, r`
    MovStore { m: Place, r: X64Reg },
    /// `mov m, r` of 32 bits
    Mov32Store { m: Place, r: X64Reg },
    /// `mov m, r` of 16 bits
    Mov16Store { m: Place, r: X64Reg },
    /// `mov m, r` of 8 bits
    Mov8Store { m: Place, r: X64Reg },
    /// `movzx r, q` from 8 bits
    Movzx8Reg { r: X64Reg, q: X64Reg },
    /// `movzx r, m` from 8 bits
    Movzx8Load { r: X64Reg, m: Place },
    /// `movzx r, q` from 16 bits
    Movzx16Reg { r: X64Reg, q: X64Reg },
    /// `movzx r, m` from 16 bits
    Movzx16Load { r: X64Reg, m: Place },
    /// `movsx r, q` from 8 bits
    Movsx8Reg { r: X64Reg, q: X64Reg },
    /// `movsx r, m` from 8 bits
    Movsx8Load { r: X64Reg, m: Place },
    /// `movsx r, q` from 16 bits
    Movsx16Reg { r: X64Reg, q: X64Reg },
    /// `movsx r, m` from 16 bits
    Movsx16Load { r: X64Reg, m: Place },
    /// `movsxd r, q` from 32 bits
    Movsx32Reg { r: X64Reg, q: X64Reg },
    /// `movsxd r, m` from 32 bits
    Movsx32Load { r: X64Reg, m: Place },
    /// `mov r, imm64`
    MovImm64 { r: X64Reg, imm: u64 },
    /// `lea r, m`
    Lea { r: X64Reg, m: Place },
    /// `add q, r`
    AddReg { q: X64Reg, r: X64Reg },
    /// `or q, r`
    OrReg { q: X64Reg, r: X64Reg },
    /// `and q, r`
    AndReg { q: X64Reg, r: X64Reg },
    /// `sub q, r`
    SubReg { q: X64Reg, r: X64Reg },
    /// `xor q, r`
    XorReg { q: X64Reg, r: X64Reg },
    /// `cmp q, r`
    CmpReg { q: X64Reg, r: X64Reg },
    /// `add q, imm`
    AddImm { q: X64Reg, imm: i32 },
    /// `or q, imm`
    OrImm { q: X64Reg, imm: i32 },
    /// `and q, imm`
    AndImm { q: X64Reg, imm: i32 },
    /// `sub q, imm`
    SubImm { q: X64Reg, imm: i32 },
    /// `xor q, imm`
    XorImm { q: X64Reg, imm: i32 },
    /// `cmp q, imm`
    CmpImm { q: X64Reg, imm: i32 },
    /// `test q, r`
    TestReg { q: X64Reg, r: X64Reg },
    /// `imul r, q`
    ImulReg { r: X64Reg, q: X64Reg },
    /// `not q`
    NotReg { q: X64Reg },
    /// `neg q`
    NegReg { q: X64Reg },
    /// `div q`
    DivReg { q: X64Reg },
    /// `idiv q`
    IdivReg { q: X64Reg },
    /// `cqo`
    Cqo,
    /// `shl q, cl`
    ShlCl { q: X64Reg },
    /// `shr q, cl`
    ShrCl { q: X64Reg },
    /// `sar q, cl`
    SarCl { q: X64Reg },
    /// `shl q, imm`, by 0 to 63
    ShlImm { q: X64Reg, imm: u8 },
    /// `shr q, imm`, by 0 to 63
    ShrImm { q: X64Reg, imm: u8 },
    /// `sar q, imm`, by 0 to 63
    SarImm { q: X64Reg, imm: u8 },
    /// `setcc q`, the low 8 bits
    Setcc { c: Condition, q: X64Reg },
    /// `jcc rel32`
    Jcc { c: Condition, rel: i32 },
    /// `jmp rel32`
    JmpRel { rel: i32 },
    /// `call rel32`
    CallRel { rel: i32 },
    /// `call q`
    CallReg { q: X64Reg },
    /// `call m`
    CallMem { m: Place },
    /// `jmp q`
    JmpReg { q: X64Reg },
    /// `jmp m`
    JmpMem { m: Place },
    /// `push r`
    Push { r: X64Reg },
    /// `pop r`
    Pop { r: X64Reg },
    /// `ret`
    Ret,
    /// `int3`
    Int3,
    /// `ud2`
    Ud2,
}

/// Why bytes are no instruction.
#[derive(Clone, Copy, Debug, PartialEq, Eq, Error)]
pub enum XBad {
    /// The bytes end within an instruction: some instruction begins with them and goes on.
    #[error("the bytes end within an instruction")]
    Short,
    /// No instruction begins with the bytes, and none goes on from them.
    #[error("the bytes are no instruction of the table")]
    Unknown,
}
