//! Places, loads and stores.

ghost use Rattle.std.specs.Prelude.{◌≡◌, OnOk, OnErr};
ghost use Rattle.hx_bits.specs.Widths.{bytes_in, sign_extended};
ghost use Rattle.hx_mem.specs.Space.{store_of, after_store};
ghost use Rattle.reg_map.specs.Registers.{registers_of, x64_value};
ghost use Rattle.x64_isa.specs.Fields.{IsPlace};
ghost use Rattle.x64_exec.specs.Words.{effect, place_of, target_of, loads, stores};

use crate::event::{XEvent, XFault};
use crate::state::{give, next, next_pc};
use crate::values::moved;
use hx_bits::{Width, sign_extend};
use hx_mem::{MemBad, Memory};
use reg_map::registers::{Cpu, X64Reg};
use x64_isa::Place;

/// The address that a place names.
#[tactic(auto, unfolding(x64_isa::specs::Fields::IsPlace))]
pub fn place(cpu: &Cpu, len: u64, m: Place) -> u64
    requires { IsPlace m }
    ensures { result ≡ place_of m len (registers_of cpu.now) }
{
    match m {
        Place::Base { base, displacement } => moved(cpu.get64(base), displacement),
        Place::Rip { displacement } => moved(next_pc(cpu, len), displacement),
    }
}

/// The address that a displacement of a jump or a call names.
pub fn target(cpu: &Cpu, len: u64, rel: i32) -> u64
    ensures { result ≡ target_of rel len (registers_of cpu.now) }
{
    moved(next_pc(cpu, len), rel)
}

/// Loads a register from a place, with zeros above a narrower number.
pub fn load(cpu: &mut Cpu, mem: &Memory, len: u64, r: X64Reg, at: u64, w: Width) -> XEvent
    ensures { effect (registers_of cpu.new) mem.now result ≡ loads r at (bytes_in w) (λ v. v) len (registers_of cpu.old) mem.now }
{
    match mem.load(at, w) {
        Ok(v) => give(cpu, len, r, v),
        Err(bad) => XEvent::Fault(XFault::Memory(bad)),
    }
}

/// Loads a register from a place, with copies of the sign above a narrower number.
pub fn load_signed(cpu: &mut Cpu, mem: &Memory, len: u64, r: X64Reg, at: u64, w: Width) -> XEvent
    ensures { effect (registers_of cpu.new) mem.now result ≡ loads r at (bytes_in w) (sign_extended w) len (registers_of cpu.old) mem.now }
{
    match mem.load(at, w) {
        Ok(v) => give(cpu, len, r, sign_extend(v, w)),
        Err(bad) => XEvent::Fault(XFault::Memory(bad)),
    }
}

/// Writes the low bits of a number at a place; a store that is refused changes nothing.
#[tactic(auto, using(crate::proofs::Numbers::refusals))]
pub fn put(mem: &mut Memory, at: u64, w: Width, v: u64) -> Result<(), MemBad>
    ensures answer { result ≡ store_of mem.old at (bytes_in w) }
    ensures done { OnOk result (mem.new ≡ after_store mem.old at (bytes_in w) v) }
    ensures refused { OnErr result (mem.new ≡ mem.old) }
{
    mem.store(at, w, v)
}

/// Stores the low bits of a number at a place, and goes on.
pub fn store(cpu: &mut Cpu, mem: &mut Memory, len: u64, at: u64, w: Width, v: u64) -> XEvent
    ensures { effect (registers_of cpu.new) mem.new result ≡ stores at (bytes_in w) v len (registers_of cpu.old) mem.old }
{
    match put(mem, at, w, v) {
        Ok(()) => next(cpu, len),
        Err(bad) => XEvent::Fault(XFault::Memory(bad)),
    }
}
