//! Loads and stores.

ghost use Rattle.std.specs.Prelude.{◌≡◌, ◌<◌, ◌^◌, OnOk, OnErr};
ghost use Rattle.hx_bits.specs.Widths.{bytes_in};
ghost use Rattle.reg_map.specs.Registers.{registers_of};
ghost use Rattle.hx_mem.specs.Space.{after_store};
ghost use Rattle.a64_exec.specs.Effects.{is_aligned, place_of, load_at, store_at, both, words, load_pair_at, store_pair_at, after_pair, source};

use crate::event::AFault;
use crate::state::source;
use hx_bits::Width;
use hx_mem::memory::Memory;
use reg_map::registers::{A64Reg, Cpu};

/// The words of a pair.
#[derive(Clone, Copy)]
pub struct Words {
    pub first: u64,
    pub second: u64,
}

// Whether a base that is sp is a multiple of 16.
fn is_aligned(cpu: &Cpu, n: A64Reg) -> bool
    requires { n.0 < 2 ^ 5 }
    ensures { result ≡ is_aligned (registers_of cpu.now) n }
{
    n.0 != 31 || cpu.value(n.0) % 16 == 0
}

/// The place of an access of one register, whose offset counts its bytes.
pub fn place(cpu: &Cpu, n: A64Reg, offset: u16, w: Width) -> u64
    requires base { n.0 < 2 ^ 5 }
    requires offset { offset < 2 ^ 12 }
    ensures { result ≡ place_of (registers_of cpu.now) n offset (bytes_in w) }
{
    cpu.value(n.0)
        .wrapping_add(offset as u64 * w.bytes() as u64)
}

/// Loads a number at a place.
pub fn load(cpu: &Cpu, mem: &Memory, n: A64Reg, place: u64, w: Width) -> Result<u64, AFault>
    requires { n.0 < 2 ^ 5 }
    ensures { result ≡ load_at (registers_of cpu.now) mem.now n place (bytes_in w) }
{
    if !is_aligned(cpu, n) {
        return Err(AFault::Misaligned);
    }
    match mem.load(place, w) {
        Ok(v) => Ok(v),
        Err(bad) => Err(AFault::Memory(bad)),
    }
}

/// Stores a register at a place; a store that is refused changes nothing.
pub fn store(
    cpu: &Cpu,
    mem: &mut Memory,
    t: A64Reg,
    n: A64Reg,
    place: u64,
    w: Width,
) -> Result<(), AFault>
    requires t { t.0 < 2 ^ 5 }
    requires base { n.0 < 2 ^ 5 }
    ensures answer { result ≡ store_at (registers_of cpu.now) mem.old n place (bytes_in w) }
    ensures done { OnOk result (mem.new ≡ after_store mem.old place (bytes_in w) (source (registers_of cpu.now) t)) }
    ensures refused { OnErr result (mem.new ≡ mem.old) }
{
    if !is_aligned(cpu, n) {
        return Err(AFault::Misaligned);
    }
    if let Err(bad) = mem.check_store(place, w) {
        return Err(AFault::Memory(bad));
    }
    let _ = mem.store(place, w, source(cpu, t));
    Ok(())
}

/// Loads the words at a place and 8 bytes on.
pub fn load_pair(cpu: &Cpu, mem: &Memory, n: A64Reg, place: u64) -> Result<Words, AFault>
    requires { n.0 < 2 ^ 5 }
    ensures { result ≡ load_pair_at (registers_of cpu.now) mem.now n place }
{
    if !is_aligned(cpu, n) {
        return Err(AFault::Misaligned);
    }
    match mem.load(place, Width::W64) {
        Err(bad) => Err(AFault::Memory(bad)),
        Ok(first) => match mem.load(place.wrapping_add(8), Width::W64) {
            Err(bad) => Err(AFault::Memory(bad)),
            Ok(second) => Ok(Words { first, second }),
        },
    }
}

/// Stores two registers at a place and 8 bytes on, both or neither.
pub fn store_pair(
    cpu: &Cpu,
    mem: &mut Memory,
    t: A64Reg,
    n: A64Reg,
    t2: A64Reg,
    place: u64,
) -> Result<(), AFault>
    requires t { t.0 < 2 ^ 5 }
    requires base { n.0 < 2 ^ 5 }
    requires t2 { t2.0 < 2 ^ 5 }
    ensures answer { result ≡ store_pair_at (registers_of cpu.now) mem.old n place }
    ensures done { OnOk result (mem.new ≡ after_pair mem.old place (source (registers_of cpu.now) t) (source (registers_of cpu.now) t2)) }
    ensures refused { OnErr result (mem.new ≡ mem.old) }
{
    if !is_aligned(cpu, n) {
        return Err(AFault::Misaligned);
    }
    let on = place.wrapping_add(8);
    if let Err(bad) = mem.check_store(place, Width::W64) {
        return Err(AFault::Memory(bad));
    }
    if let Err(bad) = mem.check_store(on, Width::W64) {
        return Err(AFault::Memory(bad));
    }
    let _ = mem.store(place, Width::W64, source(cpu, t));
    let _ = mem.store(on, Width::W64, source(cpu, t2));
    Ok(())
}
