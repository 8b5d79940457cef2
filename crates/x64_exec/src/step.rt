//! One instruction.

ghost use Rattle.std.specs.Prelude.{◌≡◌, ◌<◌, ◌^◌, ◌-◌, if◌then◌else◌};
ghost use Rattle.reg_map.specs.Registers.{registers_of};
ghost use Rattle.x64_isa.specs.Spelling.{Valid};
ghost use Rattle.x64_exec.specs.Effects.{effect_of};

use crate::access::{load, load_signed, place, store, target};
use crate::division::{divide, divide_signed};
use crate::event::{XEvent, XFault};
use crate::stack::{call, call_at, go_at, pop, push, return_back};
use crate::state::{branch, give, give_division, give_flagged, give_flags, give_shifted, go};
use crate::values::{
    Shift, add, bitwise, complement, extended, holds, multiply, signs, subtract, with_truth,
};
use hx_bits::{Width, sign_extend, truncate};
use hx_mem::Memory;
use reg_map::registers::{Cpu, X64Reg};
use x64_isa::instruction::XInstr;

/// Does an instruction of `len` bytes: the new registers, flags and memory, and where control goes,
/// are those of its row. On `Next` pc is that of the next instruction, on `Branch`, `Goto`, `CallTo`
/// and `RetTo` it is the target; after a `Fault` nothing changed. It takes no memory.
#[tactic(auto, unfolding(crate::specs::Effects::effect_of, x64_isa::specs::Spelling::Valid, x64_isa::specs::Fields::IsPlace))]
pub fn step(cpu: &mut Cpu, mem: &mut Memory, i: &XInstr, len: u64) -> XEvent
    requires { Valid i.now }
    ensures { record { cpu = registers_of cpu.new; mem = mem.new; event = result }
        ≡ effect_of i.now len (registers_of cpu.old) mem.old }
{
    macro_rules! value {
        ($r:expr) => { cpu.get64($r) };
    }
    macro_rules! at {
        ($m:expr) => { place(cpu, len, $m) };
    }
    macro_rules! gives {
        ($r:expr, $v:expr) => { give(cpu, len, $r, $v) };
    }
    macro_rules! gives_flagged {
        ($r:expr, $v:expr) => { give_flagged(cpu, len, $r, $v) };
    }
    macro_rules! shifts {
        ($way:ident, $q:expr, $n:expr) => { give_shifted(cpu, len, Shift::$way, $q, $n) };
    }
    macro_rules! divides {
        ($divide:ident, $q:expr) => {
            give_division(cpu, len, $divide(value!(X64Reg::Rdx), value!(X64Reg::Rax), value!($q)))
        };
    }
    macro_rules! loads {
        ($load:ident, $r:expr, $m:expr, $w:ident) => { $load(cpu, mem, len, $r, at!($m), Width::$w) };
    }
    macro_rules! stores {
        ($m:expr, $r:expr, $w:ident) => { store(cpu, mem, len, at!($m), Width::$w, value!($r)) };
    }
    match *i {
        XInstr::MovReg { r, q } => gives!(r, value!(q)),
        XInstr::MovLoad { r, m } => loads!(load, r, m, W64),
        XInstr::Mov32Reg { r, q } => gives!(r, truncate(value!(q), Width::W32)),
        XInstr::Mov32Load { r, m } => loads!(load, r, m, W32),
        XInstr::MovStore { m, r } => stores!(m, r, W64),
        XInstr::Mov32Store { m, r } => stores!(m, r, W32),
        XInstr::Mov16Store { m, r } => stores!(m, r, W16),
        XInstr::Mov8Store { m, r } => stores!(m, r, W8),
        XInstr::Movzx8Reg { r, q } => gives!(r, truncate(value!(q), Width::W8)),
        XInstr::Movzx8Load { r, m } => loads!(load, r, m, W8),
        XInstr::Movzx16Reg { r, q } => gives!(r, truncate(value!(q), Width::W16)),
        XInstr::Movzx16Load { r, m } => loads!(load, r, m, W16),
        XInstr::Movsx8Reg { r, q } => gives!(r, sign_extend(value!(q), Width::W8)),
        XInstr::Movsx8Load { r, m } => loads!(load_signed, r, m, W8),
        XInstr::Movsx16Reg { r, q } => gives!(r, sign_extend(value!(q), Width::W16)),
        XInstr::Movsx16Load { r, m } => loads!(load_signed, r, m, W16),
        XInstr::Movsx32Reg { r, q } => gives!(r, sign_extend(value!(q), Width::W32)),
        XInstr::Movsx32Load { r, m } => loads!(load_signed, r, m, W32),
        XInstr::MovImm64 { r, imm } => gives!(r, imm),
        XInstr::Lea { r, m } => gives!(r, at!(m)),
        XInstr::AddReg { q, r } => gives_flagged!(q, add(value!(q), value!(r))),
        XInstr::OrReg { q, r } => gives_flagged!(q, bitwise(value!(q) | value!(r))),
        XInstr::AndReg { q, r } => gives_flagged!(q, bitwise(value!(q) & value!(r))),
        XInstr::SubReg { q, r } => gives_flagged!(q, subtract(value!(q), value!(r))),
        XInstr::XorReg { q, r } => gives_flagged!(q, bitwise(value!(q) ^ value!(r))),
        XInstr::CmpReg { q, r } => give_flags(cpu, len, subtract(value!(q), value!(r)).flags),
        XInstr::AddImm { q, imm } => gives_flagged!(q, add(value!(q), extended(imm))),
        XInstr::OrImm { q, imm } => gives_flagged!(q, bitwise(value!(q) | extended(imm))),
        XInstr::AndImm { q, imm } => gives_flagged!(q, bitwise(value!(q) & extended(imm))),
        XInstr::SubImm { q, imm } => gives_flagged!(q, subtract(value!(q), extended(imm))),
        XInstr::XorImm { q, imm } => gives_flagged!(q, bitwise(value!(q) ^ extended(imm))),
        XInstr::CmpImm { q, imm } => give_flags(cpu, len, subtract(value!(q), extended(imm)).flags),
        XInstr::TestReg { q, r } => give_flags(cpu, len, bitwise(value!(q) & value!(r)).flags),
        XInstr::ImulReg { r, q } => gives_flagged!(r, multiply(value!(r), value!(q))),
        XInstr::NotReg { q } => gives!(q, complement(value!(q))),
        XInstr::NegReg { q } => gives_flagged!(q, subtract(0, value!(q))),
        XInstr::DivReg { q } => divides!(divide, q),
        XInstr::IdivReg { q } => divides!(divide_signed, q),
        XInstr::Cqo => gives!(X64Reg::Rdx, signs(value!(X64Reg::Rax))),
        XInstr::ShlCl { q } => shifts!(Left, q, value!(X64Reg::Rcx) % 64),
        XInstr::ShrCl { q } => shifts!(Right, q, value!(X64Reg::Rcx) % 64),
        XInstr::SarCl { q } => shifts!(RightSigned, q, value!(X64Reg::Rcx) % 64),
        XInstr::ShlImm { q, imm } => shifts!(Left, q, imm as u64),
        XInstr::ShrImm { q, imm } => shifts!(Right, q, imm as u64),
        XInstr::SarImm { q, imm } => shifts!(RightSigned, q, imm as u64),
        XInstr::Setcc { c, q } => gives!(q, with_truth(value!(q), holds(c, cpu.xf))),
        XInstr::Jcc { c, rel } => branch(cpu, len, holds(c, cpu.xf), target(cpu, len, rel)),
        XInstr::JmpRel { rel } => go(cpu, target(cpu, len, rel)),
        XInstr::CallRel { rel } => call(cpu, mem, len, target(cpu, len, rel)),
        XInstr::CallReg { q } => call(cpu, mem, len, value!(q)),
        XInstr::CallMem { m } => call_at(cpu, mem, len, at!(m)),
        XInstr::JmpReg { q } => go(cpu, value!(q)),
        XInstr::JmpMem { m } => go_at(cpu, mem, at!(m)),
        XInstr::Push { r } => push(cpu, mem, len, value!(r)),
        XInstr::Pop { r } => pop(cpu, mem, len, r),
        XInstr::Ret => return_back(cpu, mem),
        XInstr::Int3 | XInstr::Ud2 => XEvent::Fault(XFault::Halt),
    }
}
