//! The fields of an instruction's bytes: registers as numbers, and signed numbers as bits.

ghost use Rattle.std.specs.Prelude.{◌≡◌, ◌<◌, IsTrue};
ghost use Rattle.hx_words.specs.TwosComplement.{signed_of, bits_of};
ghost use Rattle.x64_isa.specs.Fields.{number_of_register, register_of, register_at as register_at_lem, low as low_lem, high as high_lem, fits8 as fits8_lem, number_of_condition as number_of_condition_lem, condition_of, is_condition as is_condition_lem};

use crate::instruction::Condition;
use reg_map::registers::X64Reg;

#[tactic(auto, unfolding(crate::specs::Fields::register_of))]
pub fn register(n: u8) -> X64Reg
    requires { n < 16 }
    ensures { result ≡ register_of n }
{
    match n {
        0 => X64Reg::Rax,
        1 => X64Reg::Rcx,
        2 => X64Reg::Rdx,
        3 => X64Reg::Rbx,
        4 => X64Reg::Rsp,
        5 => X64Reg::Rbp,
        6 => X64Reg::Rsi,
        7 => X64Reg::Rdi,
        8 => X64Reg::R8,
        9 => X64Reg::R9,
        10 => X64Reg::R10,
        11 => X64Reg::R11,
        12 => X64Reg::R12,
        13 => X64Reg::R13,
        14 => X64Reg::R14,
        _ => X64Reg::R15,
    }
}

#[tactic(auto, unfolding(crate::specs::Fields::register_at))]
pub fn register_at(high: u8, low: u8) -> X64Reg
    requires one { high < 2 }
    requires three { low < 8 }
    ensures { result ≡ register_at_lem high low }
{
    register(8 * high + low)
}

/// The number that 32 bits stand for.
pub fn signed(n: u32) -> i32
    ensures { result ≡ signed_of 32 n }
{
    if n < 0x8000_0000 {
        n as i32
    } else {
        (n as i64 - 0x1_0000_0000) as i32
    }
}

/// The number that 8 bits stand for.
pub fn signed8(n: u8) -> i32
    ensures { result ≡ signed_of 8 n }
{
    if n < 128 { n as i32 } else { n as i32 - 256 }
}

#[tactic(auto, unfolding(crate::specs::Fields::fits8))]
pub fn fits8(z: i32) -> bool
    ensures { result ≡ fits8_lem z }
{
    (-128 <= z) & (z < 128)
}

#[tactic(auto, unfolding(crate::specs::Fields::number_of_register))]
pub fn number(r: X64Reg) -> u8
    ensures value { result ≡ number_of_register r }
    ensures fits { result < 16 }
{
    match r {
        X64Reg::Rax => 0,
        X64Reg::Rcx => 1,
        X64Reg::Rdx => 2,
        X64Reg::Rbx => 3,
        X64Reg::Rsp => 4,
        X64Reg::Rbp => 5,
        X64Reg::Rsi => 6,
        X64Reg::Rdi => 7,
        X64Reg::R8 => 8,
        X64Reg::R9 => 9,
        X64Reg::R10 => 10,
        X64Reg::R11 => 11,
        X64Reg::R12 => 12,
        X64Reg::R13 => 13,
        X64Reg::R14 => 14,
        X64Reg::R15 => 15,
    }
}

/// The low three bits of a register's number.
#[tactic(auto, unfolding(crate::specs::Fields::low))]
pub fn low(r: X64Reg) -> u8
    ensures value { result ≡ low_lem r }
    ensures fits { result < 8 }
{
    number(r) % 8
}

/// The high bit of a register's number.
#[tactic(auto, unfolding(crate::specs::Fields::high))]
pub fn high(r: X64Reg) -> u8
    ensures value { result ≡ high_lem r }
    ensures fits { result < 2 }
{
    number(r) / 8
}

/// The 32 bits of a number.
pub fn bits(z: i32) -> u32
    ensures { result ≡ bits_of 32 z }
{
    if z >= 0 {
        z as u32
    } else {
        (z as i64 + 0x1_0000_0000) as u32
    }
}

/// The 8 bits of a number.
#[tactic(auto, unfolding(crate::specs::Fields::fits8))]
pub fn bits8(z: i32) -> u8
    requires { IsTrue (fits8_lem z) }
    ensures { result ≡ bits_of 8 z }
{
    if z >= 0 { z as u8 } else { (z + 256) as u8 }
}

/// The number of a condition.
#[tactic(auto, unfolding(crate::specs::Fields::number_of_condition))]
pub fn number_of_condition(c: Condition) -> u8
    ensures value { result ≡ number_of_condition_lem c }
    ensures fits { result < 16 }
{
    match c {
        Condition::Overflow => 0,
        Condition::NotOverflow => 1,
        Condition::Below => 2,
        Condition::AboveOrEqual => 3,
        Condition::Equals => 4,
        Condition::NotEquals => 5,
        Condition::BelowOrEqual => 6,
        Condition::Above => 7,
        Condition::Sign => 8,
        Condition::NotSign => 9,
        Condition::LessThan => 12,
        Condition::GreaterOrEqual => 13,
        Condition::LessOrEqual => 14,
        Condition::GreaterThan => 15,
    }
}

/// Whether a number below 16 is that of a condition.
#[tactic(auto, unfolding(crate::specs::Fields::is_condition))]
pub fn is_condition(n: u8) -> bool
    ensures { result ≡ is_condition_lem n }
{
    (n < 10) | (12 <= n)
}

/// The condition of a number.
#[tactic(auto, unfolding(crate::specs::Fields::condition_of))]
pub fn condition(n: u8) -> Condition
    ensures { result ≡ condition_of n }
{
    match n {
        0 => Condition::Overflow,
        1 => Condition::NotOverflow,
        2 => Condition::Below,
        3 => Condition::AboveOrEqual,
        4 => Condition::Equals,
        5 => Condition::NotEquals,
        6 => Condition::BelowOrEqual,
        7 => Condition::Above,
        8 => Condition::Sign,
        9 => Condition::NotSign,
        12 => Condition::LessThan,
        13 => Condition::GreaterOrEqual,
        14 => Condition::LessOrEqual,
        _ => Condition::GreaterThan,
    }
}
