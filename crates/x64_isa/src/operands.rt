//! What follows an opcode: ModRM, places, and numbers.

ghost use Rattle.std.specs.Prelude.{◌≡◌, ◌<◌, IfOk};
ghost use Rattle.x64_isa.specs.Reading.{Gives, number_at, near_at, far_at, imm_at as imm_at_lem, imm32_at, count_at, displacement_at, place_at, rest_at, register_operand_at, memory_operand_at, operand_at};

use crate::fields::{fits8, register_at, signed, signed8};
use crate::instruction::{Operand, Place, XBad};
use reg_map::registers::X64Reg;

/// The next four bytes as a number, the lowest first.
#[tactic(auto, unfolding(crate::specs::Reading::number_at, crate::specs::Reading::byte_then, crate::specs::Reading::bind, crate::specs::Reading::done))]
pub fn dword(bytes: &[u8]) -> Result<(u32, &[u8]), XBad>
    ensures { Gives (λ x. (x.0, x.1.now)) result (number_at 4 bytes.now) }
{
    match bytes {
        [a, b, c, d, rest @ ..] => {
            let n = *a as u32 + 256 * (*b as u32 + 256 * (*c as u32 + 256 * *d as u32));
            Ok((n, rest))
        }
        _ => Err(XBad::Short),
    }
}

/// The next eight bytes as a number, the lowest first.
#[tactic(auto, unfolding(crate::specs::Reading::number_at, crate::specs::Reading::byte_then, crate::specs::Reading::bind, crate::specs::Reading::done))]
pub fn qword(bytes: &[u8]) -> Result<(u64, &[u8]), XBad>
    ensures { Gives (λ x. (x.0, x.1.now)) result (number_at 8 bytes.now) }
{
    match bytes {
        [a, b, c, d, e, f, g, h, rest @ ..] => {
            let upper = *e as u64 + 256 * (*f as u64 + 256 * (*g as u64 + 256 * *h as u64));
            let n = *a as u64
                + 256 * (*b as u64 + 256 * (*c as u64 + 256 * (*d as u64 + 256 * upper)));
            Ok((n, rest))
        }
        _ => Err(XBad::Short),
    }
}

/// A signed number of one byte.
#[tactic(auto, unfolding(crate::specs::Reading::near_at, crate::specs::Reading::number_at, crate::specs::Reading::byte_then, crate::specs::Reading::bind, crate::specs::Reading::done))]
fn near(bytes: &[u8]) -> Result<(i32, &[u8]), XBad>
    ensures { Gives (λ x. (x.0, x.1.now)) result (near_at bytes.now) }
{
    match bytes {
        [] => Err(XBad::Short),
        [n, rest @ ..] => Ok((signed8(*n), rest)),
    }
}

/// A signed number of four bytes that does not fit one.
#[tactic(auto, unfolding(crate::specs::Reading::far_at, crate::specs::Reading::bind, crate::specs::Reading::choose, crate::specs::Reading::done, crate::specs::Reading::unknown))]
fn far(bytes: &[u8]) -> Result<(i32, &[u8]), XBad>
    ensures { Gives (λ x. (x.0, x.1.now)) result (far_at bytes.now) }
{
    let (n, rest) = dword(bytes)?;
    let z = signed(n);
    if fits8(z) {
        return Err(XBad::Unknown);
    }
    Ok((z, rest))
}

/// A signed number in its fewest bytes, one or four.
#[tactic(auto, unfolding(crate::specs::Reading::imm_at, crate::specs::Reading::choose))]
pub fn imm(is_near: bool, bytes: &[u8]) -> Result<(i32, &[u8]), XBad>
    ensures { Gives (λ x. (x.0, x.1.now)) result (imm_at_lem is_near bytes.now) }
{
    if is_near {
        return near(bytes);
    }
    far(bytes)
}

/// A signed number of four bytes.
#[tactic(auto, unfolding(crate::specs::Reading::imm32_at, crate::specs::Reading::bind, crate::specs::Reading::done))]
pub fn imm32(bytes: &[u8]) -> Result<(i32, &[u8]), XBad>
    ensures { Gives (λ x. (x.0, x.1.now)) result (imm32_at bytes.now) }
{
    let (n, rest) = dword(bytes)?;
    Ok((signed(n), rest))
}

/// A count of shifts, from 0 to 63.
#[tactic(auto, unfolding(crate::specs::Reading::count_at, crate::specs::Reading::byte_then, crate::specs::Reading::choose, crate::specs::Reading::done, crate::specs::Reading::unknown))]
pub fn count(bytes: &[u8]) -> Result<(u8, &[u8]), XBad>
    ensures { Gives (λ x. (x.0, x.1.now)) result (count_at bytes.now) }
{
    match bytes {
        [] => Err(XBad::Short),
        [n, rest @ ..] => {
            if *n < 64 {
                return Ok((*n, rest));
            }
            Err(XBad::Unknown)
        }
    }
}

/// The displacement beside a base register, whose low bits 100 want the byte SIB 24.
#[tactic(auto, unfolding(crate::specs::Reading::displacement_at, crate::specs::Reading::byte_then, crate::specs::Reading::choose, crate::specs::Reading::unknown))]
fn displacement(low: u8, is_near: bool, bytes: &[u8]) -> Result<(i32, &[u8]), XBad>
    ensures { Gives (λ x. (x.0, x.1.now)) result (displacement_at low is_near bytes.now) }
{
    if low == 4 {
        return match bytes {
            [] => Err(XBad::Short),
            [0x24, rest @ ..] => imm(is_near, rest),
            _ => Err(XBad::Unknown),
        };
    }
    imm(is_near, bytes)
}

/// The place that a mode and a field rm name.
#[tactic(auto, unfolding(crate::specs::Reading::place_at, crate::specs::Reading::bind, crate::specs::Reading::choose, crate::specs::Reading::done, crate::specs::Reading::unknown))]
fn place(high: u8, mode: u8, low: u8, bytes: &[u8]) -> Result<(Place, &[u8]), XBad>
    requires one { high < 2 }
    requires three { low < 8 }
    ensures { Gives (λ x. (x.0, x.1.now)) result (place_at high mode low bytes.now) }
{
    if mode == 0 {
        if (low == 5) & (high == 0) {
            let (displacement, rest) = imm32(bytes)?;
            return Ok((Place::Rip { displacement }, rest));
        }
        return Err(XBad::Unknown);
    }
    if mode == 1 {
        let (displacement, rest) = displacement(low, true, bytes)?;
        return Ok((
            Place::Base {
                base: register_at(high, low),
                displacement,
            },
            rest,
        ));
    }
    if mode == 2 {
        let (displacement, rest) = displacement(low, false, bytes)?;
        return Ok((
            Place::Base {
                base: register_at(high, low),
                displacement,
            },
            rest,
        ));
    }
    Err(XBad::Unknown)
}

/// What a mode and a field rm name.
#[tactic(auto, unfolding(crate::specs::Reading::rest_at, crate::specs::Reading::bind, crate::specs::Reading::choose, crate::specs::Reading::done))]
pub fn rest_of_operand(high: u8, mode: u8, low: u8, bytes: &[u8]) -> Result<(Operand, &[u8]), XBad>
    requires one { high < 2 }
    requires three { low < 8 }
    ensures { Gives (λ x. (x.0, x.1.now)) result (rest_at high mode low bytes.now) }
{
    if mode == 3 {
        return Ok((Operand::Register(register_at(high, low)), bytes));
    }
    let (place, rest) = place(high, mode, low, bytes)?;
    Ok((Operand::Memory(place), rest))
}

/// ModRM with a register: the field reg and the register.
#[tactic(auto, unfolding(crate::specs::Reading::register_operand_at, crate::specs::Reading::byte_then, crate::specs::Reading::choose, crate::specs::Reading::done, crate::specs::Reading::unknown))]
pub fn register_operand(high: u8, bytes: &[u8]) -> Result<((u8, X64Reg), &[u8]), XBad>
    requires { high < 2 }
    ensures read { Gives (λ x. (x.0, x.1.now)) result (register_operand_at high bytes.now) }
    ensures fits { IfOk result (λ x. x.0.0 < 8) }
{
    match bytes {
        [] => Err(XBad::Short),
        [m, rest @ ..] => {
            if *m / 64 == 3 {
                return Ok(((*m / 8 % 8, register_at(high, *m % 8)), rest));
            }
            Err(XBad::Unknown)
        }
    }
}

/// ModRM with a place in memory: the field reg and the place.
#[tactic(auto, unfolding(crate::specs::Reading::memory_operand_at, crate::specs::Reading::byte_then, crate::specs::Reading::bind, crate::specs::Reading::choose, crate::specs::Reading::done, crate::specs::Reading::unknown))]
pub fn memory_operand(high: u8, bytes: &[u8]) -> Result<((u8, Place), &[u8]), XBad>
    requires { high < 2 }
    ensures read { Gives (λ x. (x.0, x.1.now)) result (memory_operand_at high bytes.now) }
    ensures fits { IfOk result (λ x. x.0.0 < 8) }
{
    match bytes {
        [] => Err(XBad::Short),
        [m, rest @ ..] => {
            if *m / 64 == 3 {
                return Err(XBad::Unknown);
            }
            let (place, rest) = place(high, *m / 64, *m % 8, rest)?;
            Ok(((*m / 8 % 8, place), rest))
        }
    }
}

/// ModRM with either: the field reg and the operand.
#[tactic(auto, unfolding(crate::specs::Reading::operand_at, crate::specs::Reading::byte_then, crate::specs::Reading::bind, crate::specs::Reading::done))]
pub fn operand(high: u8, bytes: &[u8]) -> Result<((u8, Operand), &[u8]), XBad>
    requires { high < 2 }
    ensures read { Gives (λ x. (x.0, x.1.now)) result (operand_at high bytes.now) }
    ensures fits { IfOk result (λ x. x.0.0 < 8) }
{
    match bytes {
        [] => Err(XBad::Short),
        [m, rest @ ..] => {
            let (operand, rest) = rest_of_operand(high, *m / 64, *m % 8, rest)?;
            Ok(((*m / 8 % 8, operand), rest))
        }
    }
}
