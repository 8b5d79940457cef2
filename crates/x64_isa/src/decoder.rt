//! Bytes to instructions.
//!
//! A reader takes the bytes that are left and gives an instruction and the bytes after it. It tests all
//! that it knows before it asks for the next byte, so that bytes from which no instruction goes on are
//! never called short.

ghost use Rattle.std.specs.Prelude.{◌≡◌, ◌<◌, ◌↔◌, ℕ};
ghost use Rattle.x64_isa.specs.declared.instruction.XInstr.{XInstr as Instruction};
ghost use Rattle.x64_isa.specs.Spelling.{IsFront, Begins};
ghost use Rattle.x64_isa.specs.Reading.{Gives, imm_group_of, unary_group_of, cl_group_of, count_group_of, indirect_of, arith_of, wide_two_of, wide_group_of, wide_of, narrow_of, setcc_of, prefixed_of, rex_of, word_behind_of, word_of, two_of, first_of, read_of, decode_of};

use crate::fields::{condition, is_condition, register_at};
use crate::instruction::{Operand, XBad, XInstr};
use crate::operands::{
    count, imm, imm32, memory_operand, operand, qword, register_operand, rest_of_operand,
};
use reg_map::registers::X64Reg;

/// A form of a register in reg and one in rm.
macro_rules! register_form {
    ($form:ident, $r:expr, $b:expr, $bytes:expr) => {{
        let ((n, q), rest) = register_operand($b, $bytes)?;
        return Ok((XInstr::$form { r: register_at($r, n), q }, rest));
    }};
}

/// A form of a register in reg and a place in rm.
macro_rules! memory_form {
    ($form:ident, $r:expr, $b:expr, $bytes:expr) => {{
        let ((n, m), rest) = memory_operand($b, $bytes)?;
        return Ok((XInstr::$form { r: register_at($r, n), m }, rest));
    }};
}

/// Two forms of a register in reg: one with a register in rm, and one with a place.
macro_rules! operand_form {
    ($register:ident, $memory:ident, $r:expr, $b:expr, $bytes:expr) => {{
        let ((n, o), rest) = operand($b, $bytes)?;
        let r = register_at($r, n);
        return match o {
            Operand::Register(q) => Ok((XInstr::$register { r, q }, rest)),
            Operand::Memory(m) => Ok((XInstr::$memory { r, m }, rest)),
        };
    }};
}

/// Two forms of an operand alone.
macro_rules! rest_form {
    ($register:ident, $memory:ident, $b:expr, $m:expr, $bytes:expr) => {{
        let (o, rest) = rest_of_operand($b, $m / 64, $m % 8, $bytes)?;
        return match o {
            Operand::Register(q) => Ok((XInstr::$register { q }, rest)),
            Operand::Memory(m) => Ok((XInstr::$memory { m }, rest)),
        };
    }};
}

/// A form of a register and an immediate.
macro_rules! imm_form {
    ($form:ident, $q:expr, $is_near:expr, $bytes:expr) => {{
        let (imm, rest) = imm($is_near, $bytes)?;
        return Ok((XInstr::$form { q: $q, imm }, rest));
    }};
}

/// A form of a register and a count of shifts.
macro_rules! count_form {
    ($form:ident, $q:expr, $bytes:expr) => {{
        let (imm, rest) = count($bytes)?;
        return Ok((XInstr::$form { q: $q, imm }, rest));
    }};
}

/// 83 and 81.
#[tactic(auto, unfolding(crate::specs::Reading::imm_group_of, crate::specs::Reading::imm_form, crate::specs::Reading::bind, crate::specs::Reading::done, crate::specs::Reading::choose, crate::specs::Reading::unknown))]
fn imm_group(is_near: bool, n: u8, q: X64Reg, bytes: &[u8]) -> Result<(XInstr, &[u8]), XBad>
    ensures { Gives (λ x. (x.0, x.1.now)) result (imm_group_of is_near n q bytes.now) }
{
    if n == 0 {
        imm_form!(AddImm, q, is_near, bytes);
    }
    if n == 1 {
        imm_form!(OrImm, q, is_near, bytes);
    }
    if n == 4 {
        imm_form!(AndImm, q, is_near, bytes);
    }
    if n == 5 {
        imm_form!(SubImm, q, is_near, bytes);
    }
    if n == 6 {
        imm_form!(XorImm, q, is_near, bytes);
    }
    if n == 7 {
        imm_form!(CmpImm, q, is_near, bytes);
    }
    Err(XBad::Unknown)
}

/// F7.
#[tactic(auto, unfolding(crate::specs::Reading::unary_group_of, crate::specs::Reading::done, crate::specs::Reading::choose, crate::specs::Reading::unknown))]
fn unary_group(n: u8, q: X64Reg, bytes: &[u8]) -> Result<(XInstr, &[u8]), XBad>
    ensures { Gives (λ x. (x.0, x.1.now)) result (unary_group_of n q bytes.now) }
{
    if n == 2 {
        return Ok((XInstr::NotReg { q }, bytes));
    }
    if n == 3 {
        return Ok((XInstr::NegReg { q }, bytes));
    }
    if n == 6 {
        return Ok((XInstr::DivReg { q }, bytes));
    }
    if n == 7 {
        return Ok((XInstr::IdivReg { q }, bytes));
    }
    Err(XBad::Unknown)
}

/// D3.
#[tactic(auto, unfolding(crate::specs::Reading::cl_group_of, crate::specs::Reading::done, crate::specs::Reading::choose, crate::specs::Reading::unknown))]
fn cl_group(n: u8, q: X64Reg, bytes: &[u8]) -> Result<(XInstr, &[u8]), XBad>
    ensures { Gives (λ x. (x.0, x.1.now)) result (cl_group_of n q bytes.now) }
{
    if n == 4 {
        return Ok((XInstr::ShlCl { q }, bytes));
    }
    if n == 5 {
        return Ok((XInstr::ShrCl { q }, bytes));
    }
    if n == 7 {
        return Ok((XInstr::SarCl { q }, bytes));
    }
    Err(XBad::Unknown)
}

/// C1.
#[tactic(auto, unfolding(crate::specs::Reading::count_group_of, crate::specs::Reading::count_form, crate::specs::Reading::bind, crate::specs::Reading::done, crate::specs::Reading::choose, crate::specs::Reading::unknown))]
fn count_group(n: u8, q: X64Reg, bytes: &[u8]) -> Result<(XInstr, &[u8]), XBad>
    ensures { Gives (λ x. (x.0, x.1.now)) result (count_group_of n q bytes.now) }
{
    if n == 4 {
        count_form!(ShlImm, q, bytes);
    }
    if n == 5 {
        count_form!(ShrImm, q, bytes);
    }
    if n == 7 {
        count_form!(SarImm, q, bytes);
    }
    Err(XBad::Unknown)
}

/// FF: the number `/n` is tested before the place is read.
#[tactic(auto, unfolding(crate::specs::Reading::indirect_of, crate::specs::Reading::byte_then, crate::specs::Reading::bind, crate::specs::Reading::done, crate::specs::Reading::choose, crate::specs::Reading::unknown))]
fn indirect(b: u8, bytes: &[u8]) -> Result<(XInstr, &[u8]), XBad>
    requires { b < 2 }
    ensures { Gives (λ x. (x.0, x.1.now)) result (indirect_of b bytes.now) }
{
    match bytes {
        [] => Err(XBad::Short),
        [m, rest @ ..] => {
            if *m / 8 % 8 == 2 {
                rest_form!(CallReg, CallMem, b, *m, rest);
            }
            if *m / 8 % 8 == 4 {
                rest_form!(JmpReg, JmpMem, b, *m, rest);
            }
            Err(XBad::Unknown)
        }
    }
}

/// 01 to 39, which are 8n + 1.
#[tactic(auto, unfolding(crate::specs::Reading::arith_of, crate::specs::Reading::register_form, crate::specs::Reading::bind, crate::specs::Reading::done, crate::specs::Reading::choose, crate::specs::Reading::unknown))]
fn arith(r: u8, b: u8, n: u8, bytes: &[u8]) -> Result<(XInstr, &[u8]), XBad>
    requires r { r < 2 }
    requires b { b < 2 }
    ensures { Gives (λ x. (x.0, x.1.now)) result (arith_of r b n bytes.now) }
{
    if n == 0 {
        register_form!(AddReg, r, b, bytes);
    }
    if n == 1 {
        register_form!(OrReg, r, b, bytes);
    }
    if n == 4 {
        register_form!(AndReg, r, b, bytes);
    }
    if n == 5 {
        register_form!(SubReg, r, b, bytes);
    }
    if n == 6 {
        register_form!(XorReg, r, b, bytes);
    }
    if n == 7 {
        register_form!(CmpReg, r, b, bytes);
    }
    Err(XBad::Unknown)
}

/// 0F behind REX.W.
#[tactic(auto, unfolding(crate::specs::Reading::wide_two_of, crate::specs::Reading::byte_then, crate::specs::Reading::register_form, crate::specs::Reading::operand_form, crate::specs::Reading::bind, crate::specs::Reading::done, crate::specs::Reading::choose, crate::specs::Reading::unknown))]
fn wide_two(r: u8, b: u8, bytes: &[u8]) -> Result<(XInstr, &[u8]), XBad>
    requires r { r < 2 }
    requires b { b < 2 }
    ensures { Gives (λ x. (x.0, x.1.now)) result (wide_two_of r b bytes.now) }
{
    match bytes {
        [] => Err(XBad::Short),
        [c, rest @ ..] => {
            if *c == 0xAF {
                register_form!(ImulReg, r, b, rest);
            }
            if *c == 0xB6 {
                operand_form!(Movzx8Reg, Movzx8Load, r, b, rest);
            }
            if *c == 0xB7 {
                operand_form!(Movzx16Reg, Movzx16Load, r, b, rest);
            }
            if *c == 0xBE {
                operand_form!(Movsx8Reg, Movsx8Load, r, b, rest);
            }
            if *c == 0xBF {
                operand_form!(Movsx16Reg, Movsx16Load, r, b, rest);
            }
            Err(XBad::Unknown)
        }
    }
}

/// Opcodes behind REX.W that name no register in reg.
#[tactic(auto, unfolding(crate::specs::Reading::wide_group_of, crate::specs::Reading::bind, crate::specs::Reading::done, crate::specs::Reading::choose, crate::specs::Reading::unknown))]
fn wide_group(b: u8, c: u8, bytes: &[u8]) -> Result<(XInstr, &[u8]), XBad>
    requires { b < 2 }
    ensures { Gives (λ x. (x.0, x.1.now)) result (wide_group_of b c bytes.now) }
{
    if c == 0x83 {
        let ((n, q), rest) = register_operand(b, bytes)?;
        return imm_group(true, n, q, rest);
    }
    if c == 0x81 {
        let ((n, q), rest) = register_operand(b, bytes)?;
        return imm_group(false, n, q, rest);
    }
    if c == 0xF7 {
        let ((n, q), rest) = register_operand(b, bytes)?;
        return unary_group(n, q, rest);
    }
    if c == 0xD3 {
        let ((n, q), rest) = register_operand(b, bytes)?;
        return cl_group(n, q, rest);
    }
    if c == 0xC1 {
        let ((n, q), rest) = register_operand(b, bytes)?;
        return count_group(n, q, rest);
    }
    if c / 8 == 23 {
        let (imm, rest) = qword(bytes)?;
        return Ok((
            XInstr::MovImm64 {
                r: register_at(b, c % 8),
                imm,
            },
            rest,
        ));
    }
    if (c == 0x99) & (b == 0) {
        return Ok((XInstr::Cqo, bytes));
    }
    Err(XBad::Unknown)
}

/// Opcodes behind REX.W.
#[tactic(auto, unfolding(crate::specs::Reading::wide_of, crate::specs::Reading::register_form, crate::specs::Reading::memory_form, crate::specs::Reading::operand_form, crate::specs::Reading::bind, crate::specs::Reading::done, crate::specs::Reading::choose, crate::specs::Reading::unknown))]
fn wide(r: u8, b: u8, c: u8, bytes: &[u8]) -> Result<(XInstr, &[u8]), XBad>
    requires r { r < 2 }
    requires b { b < 2 }
    ensures { Gives (λ x. (x.0, x.1.now)) result (wide_of r b c bytes.now) }
{
    if c == 0x8B {
        operand_form!(MovReg, MovLoad, r, b, bytes);
    }
    if c == 0x89 {
        memory_form!(MovStore, r, b, bytes);
    }
    if c == 0x8D {
        memory_form!(Lea, r, b, bytes);
    }
    if c == 0x0F {
        return wide_two(r, b, bytes);
    }
    if c == 0x63 {
        operand_form!(Movsx32Reg, Movsx32Load, r, b, bytes);
    }
    if c == 0x85 {
        register_form!(TestReg, r, b, bytes);
    }
    if (c % 8 == 1) & (c / 64 == 0) {
        return arith(r, b, c / 8, bytes);
    }
    if r == 0 {
        return wide_group(b, c, bytes);
    }
    Err(XBad::Unknown)
}

/// Opcodes with REX only where a high bit is 1.
#[tactic(auto, unfolding(crate::specs::Reading::narrow_of, crate::specs::Reading::memory_form, crate::specs::Reading::operand_form, crate::specs::Reading::bind, crate::specs::Reading::done, crate::specs::Reading::choose, crate::specs::Reading::unknown))]
fn narrow(r: u8, b: u8, c: u8, bytes: &[u8]) -> Result<(XInstr, &[u8]), XBad>
    requires r { r < 2 }
    requires b { b < 2 }
    ensures { Gives (λ x. (x.0, x.1.now)) result (narrow_of r b c bytes.now) }
{
    if c == 0x8B {
        operand_form!(Mov32Reg, Mov32Load, r, b, bytes);
    }
    if c == 0x89 {
        memory_form!(Mov32Store, r, b, bytes);
    }
    if (c == 0xFF) & (r == 0) {
        return indirect(b, bytes);
    }
    if (c / 8 == 10) & (r == 0) {
        return Ok((
            XInstr::Push {
                r: register_at(b, c % 8),
            },
            bytes,
        ));
    }
    if (c / 8 == 11) & (r == 0) {
        return Ok((
            XInstr::Pop {
                r: register_at(b, c % 8),
            },
            bytes,
        ));
    }
    Err(XBad::Unknown)
}

/// A byte behind 90+c: ModRM with mode 3 and reg 0.
#[tactic(auto, unfolding(crate::specs::Reading::setcc_of, crate::specs::Reading::byte_then, crate::specs::Reading::done, crate::specs::Reading::choose, crate::specs::Reading::unknown))]
fn setcc(b: u8, bytes: &[u8]) -> Result<(XInstr, &[u8]), XBad>
    requires { b < 2 }
    ensures { Gives (λ x. (x.0, x.1.now)) result (setcc_of b bytes.now) }
{
    match bytes {
        [] => Err(XBad::Short),
        [c, rest @ ..] => {
            if (*c / 16 == 9) & is_condition(*c % 16) {
                return match rest {
                    [] => Err(XBad::Short),
                    [m, rest @ ..] => {
                        if *m / 8 == 24 {
                            let q = register_at(b, *m % 8);
                            return Ok((
                                XInstr::Setcc {
                                    c: condition(*c % 16),
                                    q,
                                },
                                rest,
                            ));
                        }
                        Err(XBad::Unknown)
                    }
                };
            }
            Err(XBad::Unknown)
        }
    }
}

/// Opcodes behind REX without W.
#[tactic(auto, unfolding(crate::specs::Reading::prefixed_of, crate::specs::Reading::memory_form, crate::specs::Reading::bind, crate::specs::Reading::done, crate::specs::Reading::choose, crate::specs::Reading::unknown))]
fn prefixed(r: u8, b: u8, c: u8, bytes: &[u8]) -> Result<(XInstr, &[u8]), XBad>
    requires r { r < 2 }
    requires b { b < 2 }
    ensures { Gives (λ x. (x.0, x.1.now)) result (prefixed_of r b c bytes.now) }
{
    if c == 0x88 {
        memory_form!(Mov8Store, r, b, bytes);
    }
    if (c == 0x0F) & (r == 0) {
        return setcc(b, bytes);
    }
    if (r == 0) & (b == 0) {
        return Err(XBad::Unknown);
    }
    narrow(r, b, c, bytes)
}

/// The opcode behind REX.
#[tactic(auto, unfolding(crate::specs::Reading::rex_of, crate::specs::Reading::byte_then, crate::specs::Reading::choose))]
fn rex(w: u8, r: u8, b: u8, bytes: &[u8]) -> Result<(XInstr, &[u8]), XBad>
    requires r { r < 2 }
    requires b { b < 2 }
    ensures { Gives (λ x. (x.0, x.1.now)) result (rex_of w r b bytes.now) }
{
    match bytes {
        [] => Err(XBad::Short),
        [c, rest @ ..] => {
            if w == 1 {
                return wide(r, b, *c, rest);
            }
            prefixed(r, b, *c, rest)
        }
    }
}

/// A store of 16 bits behind REX.
#[tactic(auto, unfolding(crate::specs::Reading::word_behind_of, crate::specs::Reading::byte_then, crate::specs::Reading::memory_form, crate::specs::Reading::bind, crate::specs::Reading::done, crate::specs::Reading::choose, crate::specs::Reading::unknown))]
fn word_behind(r: u8, b: u8, bytes: &[u8]) -> Result<(XInstr, &[u8]), XBad>
    requires r { r < 2 }
    requires b { b < 2 }
    ensures { Gives (λ x. (x.0, x.1.now)) result (word_behind_of r b bytes.now) }
{
    match bytes {
        [] => Err(XBad::Short),
        [0x89, rest @ ..] => memory_form!(Mov16Store, r, b, rest),
        _ => Err(XBad::Unknown),
    }
}

/// 66: a store of 16 bits.
#[tactic(auto, unfolding(crate::specs::Reading::word_of, crate::specs::Reading::byte_then, crate::specs::Reading::memory_form, crate::specs::Reading::bind, crate::specs::Reading::done, crate::specs::Reading::choose, crate::specs::Reading::unknown))]
fn word(bytes: &[u8]) -> Result<(XInstr, &[u8]), XBad>
    ensures { Gives (λ x. (x.0, x.1.now)) result (word_of bytes.now) }
{
    match bytes {
        [] => Err(XBad::Short),
        [0x89, rest @ ..] => memory_form!(Mov16Store, 0, 0, rest),
        [0x41, rest @ ..] => word_behind(0, 1, rest),
        [0x44, rest @ ..] => word_behind(1, 0, rest),
        [0x45, rest @ ..] => word_behind(1, 1, rest),
        _ => Err(XBad::Unknown),
    }
}

/// 0F without REX.
#[tactic(auto, unfolding(crate::specs::Reading::two_of, crate::specs::Reading::byte_then, crate::specs::Reading::rel_form, crate::specs::Reading::bind, crate::specs::Reading::done, crate::specs::Reading::choose, crate::specs::Reading::unknown))]
fn two(bytes: &[u8]) -> Result<(XInstr, &[u8]), XBad>
    ensures { Gives (λ x. (x.0, x.1.now)) result (two_of bytes.now) }
{
    match bytes {
        [] => Err(XBad::Short),
        [c, rest @ ..] => {
            if *c == 0x0B {
                return Ok((XInstr::Ud2, rest));
            }
            if (*c / 16 == 8) & is_condition(*c % 16) {
                let (rel, rest) = imm32(rest)?;
                return Ok((
                    XInstr::Jcc {
                        c: condition(*c % 16),
                        rel,
                    },
                    rest,
                ));
            }
            Err(XBad::Unknown)
        }
    }
}

/// What the first byte begins.
#[tactic(auto, unfolding(crate::specs::Reading::first_of, crate::specs::Reading::choose, crate::specs::Reading::rel_form, crate::specs::Reading::bind, crate::specs::Reading::done))]
fn first(c: u8, bytes: &[u8]) -> Result<(XInstr, &[u8]), XBad>
    ensures { Gives (λ x. (x.0, x.1.now)) result (first_of c bytes.now) }
{
    if c == 0xC3 {
        return Ok((XInstr::Ret, bytes));
    }
    if c == 0xE8 {
        let (rel, rest) = imm32(bytes)?;
        return Ok((XInstr::CallRel { rel }, rest));
    }
    if c == 0xE9 {
        let (rel, rest) = imm32(bytes)?;
        return Ok((XInstr::JmpRel { rel }, rest));
    }
    if c == 0x0F {
        return two(bytes);
    }
    if c == 0xCC {
        return Ok((XInstr::Int3, bytes));
    }
    if c == 0x66 {
        return word(bytes);
    }
    if (c / 16 == 4) & (c / 2 % 2 == 0) {
        return rex(c / 8 % 2, c / 4 % 2, c % 2, bytes);
    }
    narrow(0, 0, c, bytes)
}

#[tactic(auto, unfolding(crate::specs::Reading::read_of, crate::specs::Reading::byte_then))]
fn read(bytes: &[u8]) -> Result<(XInstr, &[u8]), XBad>
    ensures { Gives (λ x. (x.0, x.1.now)) result (read_of bytes.now) }
{
    match bytes {
        [] => Err(XBad::Short),
        [c, rest @ ..] => first(*c, rest),
    }
}

#[tactic(auto, unfolding(crate::specs::Reading::decode_of))]
fn measured(bytes: &[u8]) -> Result<(XInstr, usize), XBad>
    ensures { result ≡ decode_of bytes.now }
{
    let (instruction, rest) = read(bytes)?;
    Ok((instruction, bytes.len() - rest.len()))
}

/// The instruction that the bytes begin with, and how many bytes it has. Bytes may follow it.
pub fn decode(bytes: &[u8]) -> Result<(XInstr, usize), XBad>
    // The value that the definition of reading gives.
    ensures value { result ≡ decode_of bytes.now }
    // An instruction is read exactly where the bytes begin with its spelling.
    ensures read { (i : Instruction) (n : ℕ) → (result ≡ Ok (i, n)) ↔ Begins bytes.now i n }
    // More bytes are wanted exactly where some instruction begins with these and goes on.
    ensures short { (result ≡ Err XBad.Short) ↔ IsFront bytes.now }
    // Nothing is read exactly where neither is so.
    ensures unknown { (result ≡ Err XBad.Unknown) ↔ ((¬ IsFront bytes.now) × ((i : Instruction) (n : ℕ) → ¬ Begins bytes.now i n)) }
{
    measured(bytes)
}
