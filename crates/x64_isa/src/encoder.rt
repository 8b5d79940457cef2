//! Instructions to bytes.

ghost use Rattle.std.specs.Prelude.{◌≡◌, ◌+◌, ◌<◌, ◌≤◌, ◌++◌, ◌∷◌, [], length};
ghost use Rattle.arrayvec.specs.ArrayVec.{array_vec_len};
ghost use Rattle.hx_words.specs.LittleEndian.{bytes_of};
ghost use Rattle.x64_isa.specs.Fields.{rex as rex_lem, modrm as modrm_lem, place_bytes, operand_high as operand_high_lem, operand_bytes};
ghost use Rattle.x64_isa.specs.Spelling.{spell_of, rex_if_needed, wide, narrow, always, arith_imm};

use crate::fields::{bits, bits8, fits8, high, low, number, number_of_condition};
use crate::instruction::{Operand, Place, XInstr};
use arrayvec::ArrayVec;
use reg_map::registers::X64Reg;

/// The bytes of an instruction, of which none has more than 15 (Intel SDM, Vol. 2, 2.3.11).
type Bytes = ArrayVec<u8, 15>;

/// The prefix REX.
#[tactic(auto, unfolding(crate::specs::Fields::rex))]
fn rex(w: u8, r: u8, b: u8) -> u8
    requires w { w < 2 }
    requires r { r < 2 }
    requires b { b < 2 }
    ensures { result ≡ rex_lem w r b }
{
    64 + 8 * w + 4 * r + b
}

/// The byte ModRM.
#[tactic(auto, unfolding(crate::specs::Fields::modrm))]
fn modrm(mode: u8, reg: u8, rm: u8) -> u8
    requires mode { mode < 4 }
    requires reg { reg < 8 }
    requires rm { rm < 8 }
    ensures { result ≡ modrm_lem mode reg rm }
{
    64 * mode + 8 * reg + rm
}

/// Appends the low `count` bytes of a number, the lowest first.
#[tactic(auto, unfolding(hx_words::specs::LittleEndian::bytes_of))]
fn put_number(out: &mut Bytes, count: usize, n: u64)
    requires { array_vec_len out.old + count ≤ 15 }
    ensures { out.new.items ≡ out.old.items ++ bytes_of count n }
{
    let mut rest = n;
    for _ in 0..count {
        out.push((rest % 256) as u8);
        rest /= 256;
    }
}

/// Appends an opcode.
fn put_opcode(out: &mut Bytes, opcode: &[u8])
    requires { array_vec_len out.old + length opcode.now ≤ 15 }
    ensures items { out.new.items ≡ out.old.items ++ opcode.now }
    ensures len { array_vec_len out.new ≡ array_vec_len out.old + length opcode.now }
{
    out.try_extend_from_slice(opcode).unwrap();
}

/// Appends REX without W where a high bit is 1.
#[tactic(auto, unfolding(crate::specs::Spelling::rex_if_needed))]
fn put_rex_if_needed(out: &mut Bytes, r: u8, b: u8)
    requires r { r < 2 }
    requires b { b < 2 }
    requires room { array_vec_len out.old < 15 }
    ensures items { out.new.items ≡ out.old.items ++ rex_if_needed r b }
    ensures len { array_vec_len out.new ≤ array_vec_len out.old + 1 }
{
    if r + b != 0 {
        out.push(rex(0, r, b));
    }
}

/// Appends ModRM and what follows it, for a place in memory.
#[tactic(auto, unfolding(crate::specs::Fields::place_bytes, crate::specs::Fields::place_mode, crate::specs::Fields::place_rm, crate::specs::Fields::place_tail))]
fn put_place(out: &mut Bytes, n: u8, m: &Place)
    requires reg { n < 8 }
    requires room { array_vec_len out.old + 6 ≤ 15 }
    ensures { out.new.items ≡ out.old.items ++ place_bytes n m.now }
{
    match *m {
        Place::Base { base, displacement } => {
            if fits8(displacement) {
                out.push(modrm(1, n, low(base)));
                if low(base) == 4 {
                    out.push(0x24);
                }
                put_number(out, 1, bits8(displacement) as u64);
            } else {
                out.push(modrm(2, n, low(base)));
                if low(base) == 4 {
                    out.push(0x24);
                }
                put_number(out, 4, bits(displacement) as u64);
            }
        }
        Place::Rip { displacement } => {
            out.push(modrm(0, n, 5));
            put_number(out, 4, bits(displacement) as u64);
        }
    }
}

/// Appends ModRM and what follows it.
#[tactic(auto, unfolding(crate::specs::Fields::register_bytes))]
fn put_operand(out: &mut Bytes, n: u8, o: &Operand)
    requires reg { n < 8 }
    requires room { array_vec_len out.old + 6 ≤ 15 }
    ensures { out.new.items ≡ out.old.items ++ operand_bytes n o.now }
{
    match o {
        Operand::Register(q) => out.push(modrm(3, n, low(*q))),
        Operand::Memory(m) => put_place(out, n, m),
    }
}

/// The high bit of the register that rm names.
#[tactic(auto, unfolding(crate::specs::Fields::place_high))]
fn operand_high(o: &Operand) -> u8
    ensures value { result ≡ operand_high_lem o.now }
    ensures fits { result < 2 }
{
    match *o {
        Operand::Register(q) => high(q),
        Operand::Memory(Place::Base { base, .. }) => high(base),
        Operand::Memory(Place::Rip { .. }) => 0,
    }
}

/// Appends REX.W, an opcode and operands.
#[tactic(auto, unfolding(crate::specs::Spelling::wide))]
fn put_wide(out: &mut Bytes, opcode: &[u8], n: u8, o: &Operand)
    requires reg { n < 16 }
    requires opcode { length opcode.now ≤ 2 }
    requires room { array_vec_len out.old + 9 ≤ 15 }
    ensures { out.new.items ≡ out.old.items ++ wide opcode.now n o.now }
{
    out.push(rex(1, n / 8, operand_high(o)));
    put_opcode(out, opcode);
    put_operand(out, n % 8, o);
}

/// Appends REX where it is needed, an opcode and operands.
#[tactic(auto, unfolding(crate::specs::Spelling::narrow))]
fn put_narrow(out: &mut Bytes, opcode: &[u8], n: u8, o: &Operand)
    requires reg { n < 16 }
    requires opcode { length opcode.now ≤ 2 }
    requires room { array_vec_len out.old + 9 ≤ 15 }
    ensures { out.new.items ≡ out.old.items ++ narrow opcode.now n o.now }
{
    put_rex_if_needed(out, n / 8, operand_high(o));
    put_opcode(out, opcode);
    put_operand(out, n % 8, o);
}

/// Appends REX without W, an opcode and operands.
#[tactic(auto, unfolding(crate::specs::Spelling::always))]
fn put_always(out: &mut Bytes, opcode: &[u8], n: u8, o: &Operand)
    requires reg { n < 16 }
    requires opcode { length opcode.now ≤ 2 }
    requires room { array_vec_len out.old + 9 ≤ 15 }
    ensures { out.new.items ≡ out.old.items ++ always opcode.now n o.now }
{
    out.push(rex(0, n / 8, operand_high(o)));
    put_opcode(out, opcode);
    put_operand(out, n % 8, o);
}

/// Appends REX.W, an opcode, a number `/n`, a register, and `count` bytes of a number.
#[tactic(auto, unfolding(crate::specs::Spelling::wide, crate::specs::Fields::register_bytes))]
fn put_group(out: &mut Bytes, opcode: u8, n: u8, q: X64Reg, count: usize, imm: u64)
    requires group { n < 8 }
    requires count { count ≤ 4 }
    requires room { array_vec_len out.old + 9 ≤ 15 }
    ensures { out.new.items ≡ out.old.items ++ (wide (opcode ∷ []) n (Operand.Register q) ++ bytes_of count imm) }
{
    out.push(rex(1, 0, high(q)));
    out.push(opcode);
    out.push(modrm(3, n, low(q)));
    put_number(out, count, imm);
}

/// Appends an operation of the group `/n` on a register and an immediate.
#[tactic(auto, unfolding(crate::specs::Spelling::arith_imm))]
fn put_arith_imm(out: &mut Bytes, n: u8, q: X64Reg, imm: i32)
    requires group { n < 8 }
    requires room { array_vec_len out.old + 9 ≤ 15 }
    ensures { out.new.items ≡ out.old.items ++ arith_imm n q imm }
{
    if fits8(imm) {
        put_group(out, 0x83, n, q, 1, bits8(imm) as u64);
    } else {
        put_group(out, 0x81, n, q, 4, bits(imm) as u64);
    }
}

/// The one spelling of an instruction.
#[tactic(auto, unfolding(crate::specs::Spelling::spell_of))]
pub fn encode(i: &XInstr) -> ArrayVec<u8, 15>
    ensures { result.items ≡ spell_of i.now }
{
    let mut out = ArrayVec::new();
    match *i {
        XInstr::MovReg { r, q } => put_wide(&mut out, &[0x8B], number(r), &Operand::Register(q)),
        XInstr::MovLoad { r, m } => put_wide(&mut out, &[0x8B], number(r), &Operand::Memory(m)),
        XInstr::Mov32Reg { r, q } => put_narrow(
            &mut out,
            &[0x8B],
            number(r),
            &Operand::Register(q),
        ),
        XInstr::Mov32Load { r, m } => put_narrow(&mut out, &[0x8B], number(r), &Operand::Memory(m)),
        XInstr::MovStore { m, r } => put_wide(&mut out, &[0x89], number(r), &Operand::Memory(m)),
        XInstr::Mov32Store { m, r } => put_narrow(
            &mut out,
            &[0x89],
            number(r),
            &Operand::Memory(m),
        ),
        XInstr::Mov16Store { m, r } => {
            out.push(0x66);
            put_narrow(&mut out, &[0x89], number(r), &Operand::Memory(m));
        }
        XInstr::Mov8Store { m, r } => put_always(&mut out, &[0x88], number(r), &Operand::Memory(m)),
        XInstr::Movzx8Reg { r, q } => put_wide(
            &mut out,
            &[0x0F, 0xB6],
            number(r),
            &Operand::Register(q),
        ),
        XInstr::Movzx8Load { r, m } => put_wide(
            &mut out,
            &[0x0F, 0xB6],
            number(r),
            &Operand::Memory(m),
        ),
        XInstr::Movzx16Reg { r, q } => put_wide(
            &mut out,
            &[0x0F, 0xB7],
            number(r),
            &Operand::Register(q),
        ),
        XInstr::Movzx16Load { r, m } => put_wide(
            &mut out,
            &[0x0F, 0xB7],
            number(r),
            &Operand::Memory(m),
        ),
        XInstr::Movsx8Reg { r, q } => put_wide(
            &mut out,
            &[0x0F, 0xBE],
            number(r),
            &Operand::Register(q),
        ),
        XInstr::Movsx8Load { r, m } => put_wide(
            &mut out,
            &[0x0F, 0xBE],
            number(r),
            &Operand::Memory(m),
        ),
        XInstr::Movsx16Reg { r, q } => put_wide(
            &mut out,
            &[0x0F, 0xBF],
            number(r),
            &Operand::Register(q),
        ),
        XInstr::Movsx16Load { r, m } => put_wide(
            &mut out,
            &[0x0F, 0xBF],
            number(r),
            &Operand::Memory(m),
        ),
        XInstr::Movsx32Reg { r, q } => put_wide(
            &mut out,
            &[0x63],
            number(r),
            &Operand::Register(q),
        ),
        XInstr::Movsx32Load { r, m } => put_wide(&mut out, &[0x63], number(r), &Operand::Memory(m)),
        XInstr::MovImm64 { r, imm } => {
            out.push(rex(1, 0, high(r)));
            out.push(0xB8 + low(r));
            put_number(&mut out, 8, imm);
        }
        XInstr::Lea { r, m } => put_wide(&mut out, &[0x8D], number(r), &Operand::Memory(m)),
        XInstr::AddReg { q, r } => put_wide(&mut out, &[0x01], number(r), &Operand::Register(q)),
        XInstr::OrReg { q, r } => put_wide(&mut out, &[0x09], number(r), &Operand::Register(q)),
        XInstr::AndReg { q, r } => put_wide(&mut out, &[0x21], number(r), &Operand::Register(q)),
        XInstr::SubReg { q, r } => put_wide(&mut out, &[0x29], number(r), &Operand::Register(q)),
        XInstr::XorReg { q, r } => put_wide(&mut out, &[0x31], number(r), &Operand::Register(q)),
        XInstr::CmpReg { q, r } => put_wide(&mut out, &[0x39], number(r), &Operand::Register(q)),
        XInstr::AddImm { q, imm } => put_arith_imm(&mut out, 0, q, imm),
        XInstr::OrImm { q, imm } => put_arith_imm(&mut out, 1, q, imm),
        XInstr::AndImm { q, imm } => put_arith_imm(&mut out, 4, q, imm),
        XInstr::SubImm { q, imm } => put_arith_imm(&mut out, 5, q, imm),
        XInstr::XorImm { q, imm } => put_arith_imm(&mut out, 6, q, imm),
        XInstr::CmpImm { q, imm } => put_arith_imm(&mut out, 7, q, imm),
        XInstr::TestReg { q, r } => put_wide(&mut out, &[0x85], number(r), &Operand::Register(q)),
        XInstr::ImulReg { r, q } => put_wide(
            &mut out,
            &[0x0F, 0xAF],
            number(r),
            &Operand::Register(q),
        ),
        XInstr::NotReg { q } => put_wide(&mut out, &[0xF7], 2, &Operand::Register(q)),
        XInstr::NegReg { q } => put_wide(&mut out, &[0xF7], 3, &Operand::Register(q)),
        XInstr::DivReg { q } => put_wide(&mut out, &[0xF7], 6, &Operand::Register(q)),
        XInstr::IdivReg { q } => put_wide(&mut out, &[0xF7], 7, &Operand::Register(q)),
        XInstr::Cqo => {
            out.push(rex(1, 0, 0));
            out.push(0x99);
        }
        XInstr::ShlCl { q } => put_wide(&mut out, &[0xD3], 4, &Operand::Register(q)),
        XInstr::ShrCl { q } => put_wide(&mut out, &[0xD3], 5, &Operand::Register(q)),
        XInstr::SarCl { q } => put_wide(&mut out, &[0xD3], 7, &Operand::Register(q)),
        XInstr::ShlImm { q, imm } => put_group(&mut out, 0xC1, 4, q, 1, imm as u64),
        XInstr::ShrImm { q, imm } => put_group(&mut out, 0xC1, 5, q, 1, imm as u64),
        XInstr::SarImm { q, imm } => put_group(&mut out, 0xC1, 7, q, 1, imm as u64),
        XInstr::Setcc { c, q } => put_always(
            &mut out,
            &[0x0F, 0x90 + number_of_condition(c)],
            0,
            &Operand::Register(q),
        ),
        XInstr::Jcc { c, rel } => {
            put_opcode(&mut out, &[0x0F, 0x80 + number_of_condition(c)]);
            put_number(&mut out, 4, bits(rel) as u64);
        }
        XInstr::JmpRel { rel } => {
            out.push(0xE9);
            put_number(&mut out, 4, bits(rel) as u64);
        }
        XInstr::CallRel { rel } => {
            out.push(0xE8);
            put_number(&mut out, 4, bits(rel) as u64);
        }
        XInstr::CallReg { q } => put_narrow(&mut out, &[0xFF], 2, &Operand::Register(q)),
        XInstr::CallMem { m } => put_narrow(&mut out, &[0xFF], 2, &Operand::Memory(m)),
        XInstr::JmpReg { q } => put_narrow(&mut out, &[0xFF], 4, &Operand::Register(q)),
        XInstr::JmpMem { m } => put_narrow(&mut out, &[0xFF], 4, &Operand::Memory(m)),
        XInstr::Push { r } => {
            put_rex_if_needed(&mut out, 0, high(r));
            out.push(0x50 + low(r));
        }
        XInstr::Pop { r } => {
            put_rex_if_needed(&mut out, 0, high(r));
            out.push(0x58 + low(r));
        }
        XInstr::Ret => out.push(0xC3),
        XInstr::Int3 => out.push(0xCC),
        XInstr::Ud2 => put_opcode(&mut out, &[0x0F, 0x0B]),
    }
    out
}
