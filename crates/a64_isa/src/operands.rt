//! Operands as numbers of bits.

ghost use Rattle.std.specs.Prelude.{◌≡◌, ◌^◌, ◌<◌, ◌≤◌};
ghost use Rattle.hx_words.specs.TwosComplement.{signed_of, bits_of, IsSigned};
ghost use Rattle.a64_isa.specs.Conditions.{condition_number, condition_at};
ghost use Rattle.a64_isa.specs.Forms.{bit_of};

use crate::instruction::Condition;

/// The number that LEN bits stand for in two's complement.
pub fn signed<const LEN: u32>(v: u32) -> i32
    requires some { 0 < LEN }
    requires in_word { LEN < 32 }
    requires fits { v < 2 ^ LEN }
    ensures value { result ≡ signed_of LEN v }
    ensures range { IsSigned LEN result }
{
    if v < 1 << (LEN - 1) {
        v as i32
    } else {
        (v as i64 - (1i64 << LEN)) as i32
    }
}

/// The LEN bits of a number in two's complement.
pub fn bits<const LEN: u32>(z: i32) -> u32
    requires some { 0 < LEN }
    requires in_word { LEN < 32 }
    requires range { IsSigned LEN z }
    ensures value { result ≡ bits_of LEN z }
    ensures bound { result < 2 ^ LEN }
{
    if z >= 0 {
        z as u32
    } else {
        (1u32 << LEN) - z.unsigned_abs()
    }
}

/// A flag as one bit.
pub fn bit(flag: bool) -> u32
    ensures value { result ≡ bit_of flag }
    ensures bound { result < 2 }
{
    if flag { 1 } else { 0 }
}

/// The number of a condition.
pub fn number_of(condition: Condition) -> u32
    ensures value { result ≡ condition_number condition }
    ensures bound { result < 14 }
{
    match condition {
        Condition::Equal => 0,
        Condition::NotEqual => 1,
        Condition::CarrySet => 2,
        Condition::CarryClear => 3,
        Condition::Minus => 4,
        Condition::Plus => 5,
        Condition::Overflow => 6,
        Condition::NoOverflow => 7,
        Condition::Higher => 8,
        Condition::LowerOrSame => 9,
        Condition::GreaterOrEqual => 10,
        Condition::Less => 11,
        Condition::Greater => 12,
        Condition::LessOrEqual => 13,
    }
}

/// The condition of a number.
pub fn condition_of(number: u32) -> Condition
    requires { number < 14 }
    ensures { result ≡ condition_at number }
{
    match number {
        0 => Condition::Equal,
        1 => Condition::NotEqual,
        2 => Condition::CarrySet,
        3 => Condition::CarryClear,
        4 => Condition::Minus,
        5 => Condition::Plus,
        6 => Condition::Overflow,
        7 => Condition::NoOverflow,
        8 => Condition::Higher,
        9 => Condition::LowerOrSame,
        10 => Condition::GreaterOrEqual,
        11 => Condition::Less,
        12 => Condition::Greater,
        _ => Condition::LessOrEqual,
    }
}
