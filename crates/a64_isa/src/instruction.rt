//! The instructions of the table.

use reg_map::registers::A64Reg;

/// A condition on the flags, in the order of its number (Arm ARM, C1.2.4). The table has neither
/// AL, number 14, nor NV, number 15.
#[derive(Clone, Copy, Debug, PartialEq, Eq)]
pub enum Condition {
    /// EQ: Z is set.
    Equal,
    /// NE: Z is clear.
    NotEqual,
    /// CS: C is set; unsigned, no less.
    CarrySet,
    /// CC: C is clear; unsigned, less.
    CarryClear,
    /// MI: N is set.
    Minus,
    /// PL: N is clear.
    Plus,
    /// VS: V is set.
    Overflow,
    /// VC: V is clear.
    NoOverflow,
    /// HI: unsigned, greater.
    Higher,
    /// LS: unsigned, no greater.
    LowerOrSame,
    /// GE: signed, no less.
    GreaterOrEqual,
    /// LT: signed, less.
    Less,
    /// GT: signed, greater.
    Greater,
    /// LE: signed, no greater.
    LessOrEqual,
}

/// An instruction, with the operands of its form in the order of the table (Arm ARM, C6.2).
///
/// Registers d, n, m, a, t and t2 are numbers below 32. Number 31 is sp as d and n of `AddImmediate`
/// and `SubImmediate`, as n of `AddsImmediate` and `SubsImmediate` and as n of each load and store;
/// everywhere else it is the zero register, and n of `Br`, `Blr` and `Ret` is never 31.
///
/// - `imm` of the four immediate forms has 12 bits, and is shifted left by 12 where `shift12` holds;
///   of `Movz`, `Movk`, `Movn` and `Brk` it has 16 bits, and `hw`, 0 to 3, counts quarters of 16 bits.
/// - `offset` of `LdrX` to `Ldrsw` has 12 bits without sign, in units of the bytes read or written.
/// - `offset` of the pairs is -64 to 63, in units of 8 bytes.
/// - `offset` of branches is signed, in instructions of 4 bytes from this one: 26 bits in `B` and
///   `Bl`, 19 in `BCond`, `Cbz` and `Cbnz`.
/// - `offset` of `Adr` and `Adrp` has 21 bits with sign, in bytes and in pages of 4,096 bytes.
/// - `imms` and `immr` are below 64.
///
/// `Ldp` and `LdpPost` have two different registers, and the base of `StpPre` and `LdpPost` is
/// neither of the two unless it is sp.
#[derive(Clone, Copy, Debug, PartialEq, Eq)]
pub enum AInstr {
    /// ADD: d = n + imm, where sp is number 31 of d and n.
    AddImmediate {
        d: A64Reg,
        n: A64Reg,
        imm: u16,
        shift12: bool,
    },
    /// SUB: d = n - imm, where sp is number 31 of d and n.
    SubImmediate {
        d: A64Reg,
        n: A64Reg,
        imm: u16,
        shift12: bool,
    },
    /// ADDS: d = n + imm, and the flags; sp is number 31 of n alone.
    AddsImmediate {
        d: A64Reg,
        n: A64Reg,
        imm: u16,
        shift12: bool,
    },
    /// SUBS: d = n - imm, and the flags; sp is number 31 of n alone.
    SubsImmediate {
        d: A64Reg,
        n: A64Reg,
        imm: u16,
        shift12: bool,
    },
    /// ADD: d = n + m.
    AddRegister {
        d: A64Reg,
        n: A64Reg,
        m: A64Reg,
    },
    /// SUB: d = n - m.
    SubRegister {
        d: A64Reg,
        n: A64Reg,
        m: A64Reg,
    },
    /// ADDS: d = n + m, and the flags.
    AddsRegister {
        d: A64Reg,
        n: A64Reg,
        m: A64Reg,
    },
    /// SUBS: d = n - m, and the flags.
    SubsRegister {
        d: A64Reg,
        n: A64Reg,
        m: A64Reg,
    },
    /// AND: d = n and m.
    AndRegister {
        d: A64Reg,
        n: A64Reg,
        m: A64Reg,
    },
    /// ORR: d = n or m.
    OrrRegister {
        d: A64Reg,
        n: A64Reg,
        m: A64Reg,
    },
    /// EOR: d = n exclusive or m.
    EorRegister {
        d: A64Reg,
        n: A64Reg,
        m: A64Reg,
    },
    /// ORN: d = n or not m.
    OrnRegister {
        d: A64Reg,
        n: A64Reg,
        m: A64Reg,
    },
    /// UDIV: d = n / m, unsigned.
    Udiv {
        d: A64Reg,
        n: A64Reg,
        m: A64Reg,
    },
    /// SDIV: d = n / m, signed, toward 0.
    Sdiv {
        d: A64Reg,
        n: A64Reg,
        m: A64Reg,
    },
    /// LSLV: d = n shifted left by m.
    Lslv {
        d: A64Reg,
        n: A64Reg,
        m: A64Reg,
    },
    /// LSRV: d = n shifted right by m.
    Lsrv {
        d: A64Reg,
        n: A64Reg,
        m: A64Reg,
    },
    /// ASRV: d = n shifted right by m, with its sign.
    Asrv {
        d: A64Reg,
        n: A64Reg,
        m: A64Reg,
    },
    /// MADD: d = a + n * m.
    Madd {
        d: A64Reg,
        n: A64Reg,
        a: A64Reg,
        m: A64Reg,
    },
    /// MSUB: d = a - n * m.
    Msub {
        d: A64Reg,
        n: A64Reg,
        a: A64Reg,
        m: A64Reg,
    },
    /// MOVZ: d = imm at quarter `hw`, and 0 elsewhere.
    Movz {
        d: A64Reg,
        imm: u16,
        hw: u8,
    },
    /// MOVK: quarter `hw` of d = imm.
    Movk {
        d: A64Reg,
        imm: u16,
        hw: u8,
    },
    /// MOVN: d = the complement of what MOVZ gives.
    Movn {
        d: A64Reg,
        imm: u16,
        hw: u8,
    },
    /// ADR: d = this address and the offset in bytes.
    Adr {
        d: A64Reg,
        offset: i32,
    },
    /// ADRP: d = the page of this address and the offset in pages of 4,096 bytes.
    Adrp {
        d: A64Reg,
        offset: i32,
    },
    /// LDR: t = 8 bytes.
    LdrX {
        t: A64Reg,
        n: A64Reg,
        offset: u16,
    },
    /// STR: 8 bytes = t.
    StrX {
        t: A64Reg,
        n: A64Reg,
        offset: u16,
    },
    /// LDR: t = 4 bytes.
    LdrW {
        t: A64Reg,
        n: A64Reg,
        offset: u16,
    },
    /// STR: 4 bytes = t.
    StrW {
        t: A64Reg,
        n: A64Reg,
        offset: u16,
    },
    /// LDRH: t = 2 bytes.
    Ldrh {
        t: A64Reg,
        n: A64Reg,
        offset: u16,
    },
    /// STRH: 2 bytes = t.
    Strh {
        t: A64Reg,
        n: A64Reg,
        offset: u16,
    },
    /// LDRB: t = 1 byte.
    Ldrb {
        t: A64Reg,
        n: A64Reg,
        offset: u16,
    },
    /// STRB: 1 byte = t.
    Strb {
        t: A64Reg,
        n: A64Reg,
        offset: u16,
    },
    /// LDRSB: t = 1 byte with its sign.
    Ldrsb {
        t: A64Reg,
        n: A64Reg,
        offset: u16,
    },
    /// LDRSH: t = 2 bytes with their sign.
    Ldrsh {
        t: A64Reg,
        n: A64Reg,
        offset: u16,
    },
    /// LDRSW: t = 4 bytes with their sign.
    Ldrsw {
        t: A64Reg,
        n: A64Reg,
        offset: u16,
    },
    /// STP: two words = t, t2.
    Stp {
        t: A64Reg,
        n: A64Reg,
        t2: A64Reg,
        offset: i8,
    },
    /// LDP: t, t2 = two words.
    Ldp {
        t: A64Reg,
        n: A64Reg,
        t2: A64Reg,
        offset: i8,
    },
    /// STP, pre-indexed: n moves by the offset, and then two words at n = t, t2.
    StpPre {
        t: A64Reg,
        n: A64Reg,
        t2: A64Reg,
        offset: i8,
    },
    /// LDP, post-indexed: t, t2 = two words at n, and then n moves by the offset.
    LdpPost {
        t: A64Reg,
        n: A64Reg,
        t2: A64Reg,
        offset: i8,
    },
    /// B: go on at the offset.
    B {
        offset: i32,
    },
    /// BL: call the offset.
    Bl {
        offset: i32,
    },
    /// B.cond: go on at the offset where the condition holds.
    BCond {
        condition: Condition,
        offset: i32,
    },
    /// CBZ: go on at the offset where t is 0.
    Cbz {
        t: A64Reg,
        offset: i32,
    },
    /// CBNZ: go on at the offset where t is not 0.
    Cbnz {
        t: A64Reg,
        offset: i32,
    },
    /// BR: go on at n.
    Br {
        n: A64Reg,
    },
    /// BLR: call n.
    Blr {
        n: A64Reg,
    },
    /// RET: return to n.
    Ret {
        n: A64Reg,
    },
    /// CSINC: d = n where the condition holds, else m + 1.
    Csinc {
        d: A64Reg,
        n: A64Reg,
        condition: Condition,
        m: A64Reg,
    },
    /// UBFM: shifts, extractions and extensions without sign.
    Ubfm {
        d: A64Reg,
        n: A64Reg,
        imms: u8,
        immr: u8,
    },
    /// SBFM: shifts, extractions and extensions with sign.
    Sbfm {
        d: A64Reg,
        n: A64Reg,
        imms: u8,
        immr: u8,
    },
    /// NOP.
    Nop,
    /// BRK: stop.
    Brk {
        imm: u16,
    },
}
