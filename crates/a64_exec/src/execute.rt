//! One instruction.

ghost use Rattle.std.specs.Prelude.{◌≡◌, ◌<◌, ◌^◌, not, if◌then◌else◌};
ghost use Rattle.hx_bits.specs.Widths.{bytes_in, sign_extended};
ghost use Rattle.hx_words.specs.TwosComplement.{IsSigned};
ghost use Rattle.reg_map.specs.Registers.{registers_of};
ghost use Rattle.a64_isa.specs.Forms.{Valid};
ghost use Rattle.a64_exec.specs.Values.{sum_of, holds, moved};
ghost use Rattle.a64_exec.specs.Effects.{outcome, source, source_sp, branch_pc, branch_event, loads, stores, stores_pair, on_access, load_pair_at, with_words, with_target_sp, next, act_of, effect_of};

use crate::access::{load, load_pair, place, store, store_pair};
use crate::blocked::names_blocked;
use crate::event::{AEvent, AFault};
use crate::state::{
    call, give, give_sp, give_sum, go, next, return_to, set_target, set_target_sp, source,
    source_sp,
};
use crate::values::{
    add_product, adds, bitfield, complement, difference, holds, immediate, place_at, quarter,
    quotient, set_quarter, shift_left, shift_right, shift_right_signed, signed_bitfield,
    signed_quotient, subs, subtract_product, sum,
};
use a64_isa::instruction::{AInstr, Condition};
use hx_bits::{Width, sign_extend};
use hx_mem::memory::Memory;
use reg_map::registers::{A64Reg, Cpu};

// Goes on at an offset in instructions where the branch is taken.
fn go_if(cpu: &mut Cpu, taken: bool, offset: i32) -> AEvent
    ensures registers { registers_of cpu.new ≡ record (registers_of cpu.old) { pc = branch_pc taken (registers_of cpu.old) offset } }
    ensures event { result ≡ branch_event taken (registers_of cpu.old) offset }
{
    if taken {
        go(cpu, place_at(cpu.pc, offset, 4))
    } else {
        next(cpu)
    }
}

// CSINC.
fn select(cpu: &Cpu, n: A64Reg, condition: Condition, m: A64Reg) -> u64
    requires n { n.0 < 2 ^ 5 }
    requires m { m.0 < 2 ^ 5 }
    ensures { result ≡ (if holds condition cpu.now.af then source (registers_of cpu.now) n else sum_of (source (registers_of cpu.now) m) 1) }
{
    if holds(condition, cpu.af) {
        source(cpu, n)
    } else {
        sum(source(cpu, m), 1)
    }
}

fn load_register(cpu: &mut Cpu, mem: &Memory, t: A64Reg, n: A64Reg, offset: u16, w: Width) -> AEvent
    requires t { t.0 < 2 ^ 5 }
    requires n { n.0 < 2 ^ 5 }
    requires offset { offset < 2 ^ 12 }
    ensures { outcome (registers_of cpu.new) mem.now result ≡ loads (registers_of cpu.old) mem.now t n offset (bytes_in w) (λ v. v) }
{
    match load(cpu, mem, n, place(cpu, n, offset, w), w) {
        Ok(v) => give(cpu, t, v),
        Err(fault) => AEvent::Fault(fault),
    }
}

fn load_signed(cpu: &mut Cpu, mem: &Memory, t: A64Reg, n: A64Reg, offset: u16, w: Width) -> AEvent
    requires t { t.0 < 2 ^ 5 }
    requires n { n.0 < 2 ^ 5 }
    requires offset { offset < 2 ^ 12 }
    ensures { outcome (registers_of cpu.new) mem.now result ≡ loads (registers_of cpu.old) mem.now t n offset (bytes_in w) (sign_extended w) }
{
    match load(cpu, mem, n, place(cpu, n, offset, w), w) {
        Ok(v) => give(cpu, t, sign_extend(v, w)),
        Err(fault) => AEvent::Fault(fault),
    }
}

fn store_register(
    cpu: &mut Cpu,
    mem: &mut Memory,
    t: A64Reg,
    n: A64Reg,
    offset: u16,
    w: Width,
) -> AEvent
    requires t { t.0 < 2 ^ 5 }
    requires n { n.0 < 2 ^ 5 }
    requires offset { offset < 2 ^ 12 }
    ensures { outcome (registers_of cpu.new) mem.new result ≡ stores (registers_of cpu.old) mem.old t n offset (bytes_in w) }
{
    match store(cpu, mem, t, n, place(cpu, n, offset, w), w) {
        Ok(()) => next(cpu),
        Err(fault) => AEvent::Fault(fault),
    }
}

// STP; with writeback the base becomes the place.
fn store_two(
    cpu: &mut Cpu,
    mem: &mut Memory,
    t: A64Reg,
    n: A64Reg,
    t2: A64Reg,
    offset: i8,
    writeback: bool,
) -> AEvent
    requires t { t.0 < 2 ^ 5 }
    requires n { n.0 < 2 ^ 5 }
    requires t2 { t2.0 < 2 ^ 5 }
    ensures { let s = registers_of cpu.old in let at = moved (source_sp s n) offset 8 in outcome (registers_of cpu.new) mem.new result ≡ stores_pair s mem.old t n t2 at (if writeback then with_target_sp s n at else s) }
{
    let at = place_at(source_sp(cpu, n), offset as i32, 8);
    if let Err(fault) = store_pair(cpu, mem, t, n, t2, at) {
        return AEvent::Fault(fault);
    }
    if writeback {
        give_sp(cpu, n, at)
    } else {
        next(cpu)
    }
}

// LDP.
fn load_two(cpu: &mut Cpu, mem: &Memory, t: A64Reg, n: A64Reg, t2: A64Reg, offset: i8) -> AEvent
    requires t { t.0 < 2 ^ 5 }
    requires n { n.0 < 2 ^ 5 }
    requires t2 { t2.0 < 2 ^ 5 }
    ensures { let s = registers_of cpu.old in outcome (registers_of cpu.new) mem.now result ≡ on_access s mem.now (load_pair_at s mem.now n (moved (source_sp s n) offset 8)) (λ p. next (with_words s t t2 p) mem.now) }
{
    let at = place_at(source_sp(cpu, n), offset as i32, 8);
    match load_pair(cpu, mem, n, at) {
        Ok(words) => {
            set_target(cpu, t, words.first);
            give(cpu, t2, words.second)
        },
        Err(fault) => AEvent::Fault(fault),
    }
}

// LDP, post-indexed.
fn load_two_post(
    cpu: &mut Cpu,
    mem: &Memory,
    t: A64Reg,
    n: A64Reg,
    t2: A64Reg,
    offset: i8,
) -> AEvent
    requires t { t.0 < 2 ^ 5 }
    requires n { n.0 < 2 ^ 5 }
    requires t2 { t2.0 < 2 ^ 5 }
    ensures { let s = registers_of cpu.old in outcome (registers_of cpu.new) mem.now result ≡ on_access s mem.now (load_pair_at s mem.now n (source_sp s n)) (λ p. next (with_target_sp (with_words s t t2 p) n (moved (source_sp s n) offset 8)) mem.now) }
{
    let base = source_sp(cpu, n);
    match load_pair(cpu, mem, n, base) {
        Ok(words) => {
            set_target(cpu, t, words.first);
            set_target(cpu, t2, words.second);
            give_sp(cpu, n, place_at(base, offset as i32, 8))
        },
        Err(fault) => AEvent::Fault(fault),
    }
}

// An instruction that names no blocked register.
fn act(cpu: &mut Cpu, mem: &mut Memory, i: &AInstr) -> AEvent
    requires { Valid i.now }
    ensures { outcome (registers_of cpu.new) mem.new result ≡ act_of i.now (registers_of cpu.old) mem.old }
{
    match *i {
        AInstr::AddImmediate { d, n, imm, shift12 } => {
            give_sp(cpu, d, sum(source_sp(cpu, n), immediate(imm, shift12)))
        },
        AInstr::SubImmediate { d, n, imm, shift12 } => {
            give_sp(
                cpu,
                d,
                difference(source_sp(cpu, n), immediate(imm, shift12)),
            )
        },
        AInstr::AddsImmediate { d, n, imm, shift12 } => {
            give_sum(cpu, d, adds(source_sp(cpu, n), immediate(imm, shift12)))
        },
        AInstr::SubsImmediate { d, n, imm, shift12 } => {
            give_sum(cpu, d, subs(source_sp(cpu, n), immediate(imm, shift12)))
        },
        AInstr::AddRegister { d, n, m } => give(cpu, d, sum(source(cpu, n), source(cpu, m))),
        AInstr::SubRegister { d, n, m } => give(cpu, d, difference(source(cpu, n), source(cpu, m))),
        AInstr::AddsRegister { d, n, m } => give_sum(cpu, d, adds(source(cpu, n), source(cpu, m))),
        AInstr::SubsRegister { d, n, m } => give_sum(cpu, d, subs(source(cpu, n), source(cpu, m))),
        AInstr::AndRegister { d, n, m } => give(cpu, d, source(cpu, n) & source(cpu, m)),
        AInstr::OrrRegister { d, n, m } => give(cpu, d, source(cpu, n) | source(cpu, m)),
        AInstr::EorRegister { d, n, m } => give(cpu, d, source(cpu, n) ^ source(cpu, m)),
        AInstr::OrnRegister { d, n, m } => {
            give(cpu, d, source(cpu, n) | complement(source(cpu, m)))
        },
        AInstr::Udiv { d, n, m } => give(cpu, d, quotient(source(cpu, n), source(cpu, m))),
        AInstr::Sdiv { d, n, m } => give(cpu, d, signed_quotient(source(cpu, n), source(cpu, m))),
        AInstr::Lslv { d, n, m } => give(cpu, d, shift_left(source(cpu, n), source(cpu, m) % 64)),
        AInstr::Lsrv { d, n, m } => give(cpu, d, shift_right(source(cpu, n), source(cpu, m) % 64)),
        AInstr::Asrv { d, n, m } => {
            give(
                cpu,
                d,
                shift_right_signed(source(cpu, n), source(cpu, m) % 64),
            )
        },
        AInstr::Madd { d, n, a, m } => {
            give(
                cpu,
                d,
                add_product(source(cpu, a), source(cpu, n), source(cpu, m)),
            )
        },
        AInstr::Msub { d, n, a, m } => {
            give(
                cpu,
                d,
                subtract_product(source(cpu, a), source(cpu, n), source(cpu, m)),
            )
        },
        AInstr::Movz { d, imm, hw } => give(cpu, d, quarter(imm, hw)),
        AInstr::Movk { d, imm, hw } => give(cpu, d, set_quarter(source(cpu, d), imm, hw)),
        AInstr::Movn { d, imm, hw } => give(cpu, d, complement(quarter(imm, hw))),
        AInstr::Adr { d, offset } => give(cpu, d, place_at(cpu.pc, offset, 1)),
        AInstr::Adrp { d, offset } => give(cpu, d, place_at(cpu.pc / 4096 * 4096, offset, 4096)),
        AInstr::LdrX { t, n, offset } => load_register(cpu, mem, t, n, offset, Width::W64),
        AInstr::StrX { t, n, offset } => store_register(cpu, mem, t, n, offset, Width::W64),
        AInstr::LdrW { t, n, offset } => load_register(cpu, mem, t, n, offset, Width::W32),
        AInstr::StrW { t, n, offset } => store_register(cpu, mem, t, n, offset, Width::W32),
        AInstr::Ldrh { t, n, offset } => load_register(cpu, mem, t, n, offset, Width::W16),
        AInstr::Strh { t, n, offset } => store_register(cpu, mem, t, n, offset, Width::W16),
        AInstr::Ldrb { t, n, offset } => load_register(cpu, mem, t, n, offset, Width::W8),
        AInstr::Strb { t, n, offset } => store_register(cpu, mem, t, n, offset, Width::W8),
        AInstr::Ldrsb { t, n, offset } => load_signed(cpu, mem, t, n, offset, Width::W8),
        AInstr::Ldrsh { t, n, offset } => load_signed(cpu, mem, t, n, offset, Width::W16),
        AInstr::Ldrsw { t, n, offset } => load_signed(cpu, mem, t, n, offset, Width::W32),
        AInstr::Stp { t, n, t2, offset } => store_two(cpu, mem, t, n, t2, offset, false),
        AInstr::Ldp { t, n, t2, offset } => load_two(cpu, mem, t, n, t2, offset),
        AInstr::StpPre { t, n, t2, offset } => store_two(cpu, mem, t, n, t2, offset, true),
        AInstr::LdpPost { t, n, t2, offset } => load_two_post(cpu, mem, t, n, t2, offset),
        AInstr::B { offset } => go(cpu, place_at(cpu.pc, offset, 4)),
        AInstr::Bl { offset } => call(cpu, place_at(cpu.pc, offset, 4)),
        AInstr::BCond { condition, offset } => go_if(cpu, holds(condition, cpu.af), offset),
        AInstr::Cbz { t, offset } => go_if(cpu, source(cpu, t) == 0, offset),
        AInstr::Cbnz { t, offset } => go_if(cpu, source(cpu, t) != 0, offset),
        AInstr::Br { n } => go(cpu, source(cpu, n)),
        AInstr::Blr { n } => call(cpu, source(cpu, n)),
        AInstr::Ret { n } => return_to(cpu, source(cpu, n)),
        AInstr::Csinc { d, n, condition, m } => give(cpu, d, select(cpu, n, condition, m)),
        AInstr::Ubfm { d, n, imms, immr } => give(cpu, d, bitfield(source(cpu, n), imms, immr)),
        AInstr::Sbfm { d, n, imms, immr } => {
            give(cpu, d, signed_bitfield(source(cpu, n), imms, immr))
        },
        AInstr::Nop => next(cpu),
        AInstr::Brk { .. } => AEvent::Fault(AFault::Halt),
    }
}

/// One instruction: the registers, the memory and the event after it are those of its row. After a
/// fault nothing changed.
pub fn step(cpu: &mut Cpu, mem: &mut Memory, i: &AInstr) -> AEvent
    requires { Valid i.now }
    ensures { outcome (registers_of cpu.new) mem.new result ≡ effect_of i.now (registers_of cpu.old) mem.old }
{
    if names_blocked(i) {
        return AEvent::Fault(AFault::Blocked);
    }
    act(cpu, mem, i)
}
