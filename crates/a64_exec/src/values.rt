//! What the operations compute.

ghost use Rattle.std.specs.Prelude.{◌≡◌, ◌<◌, ◌^◌};
ghost use Rattle.hx_words.specs.TwosComplement.{bits_of};
ghost use Rattle.a64_exec.specs.Values.{moved, complement, sum_of, difference_of, adds_of, subs_of, is_minus, same, flags_of, immediate_of, quotient_of, signed_quotient_of, magnitude, shifted_left, shifted_right, shifted_right_signed, product_added, product_subtracted, quarter_of, with_quarter, field_top, field_down, bitfield_of, signed_bitfield_of, holds};

use a64_isa::instruction::Condition;
use reg_map::registers::AFlags;

/// A sum and its flags.
#[derive(Clone, Copy)]
pub struct FlaggedSum {
    pub value: u64,
    pub flags: AFlags,
}

// The 64 bits of a signed number.
#[tactic(auto, using(crate::proofs::Bits::unsigned_bits))]
fn extended(offset: i32) -> u64
    ensures { result ≡ bits_of 64 offset }
{
    (offset as i64).cast_unsigned()
}

/// A place with an offset in units added.
pub fn place_at(place: u64, offset: i32, unit: u64) -> u64
    ensures { result ≡ moved place offset unit }
{
    place.wrapping_add(extended(offset).wrapping_mul(unit))
}

/// NOT.
pub fn complement(x: u64) -> u64
    ensures { result ≡ complement x }
{
    u64::MAX - x
}

fn is_minus(x: u64) -> bool
    ensures { result ≡ is_minus x }
{
    x >= 1 << 63
}

fn same(a: bool, b: bool) -> bool
    ensures { result ≡ same a b }
{
    if a { b } else { !b }
}

// The flags of a sum by its low bits and its carry.
fn flags(x: u64, y: u64, low: u64, carry: bool) -> AFlags
    ensures { result ≡ flags_of x y low carry }
{
    AFlags {
        n: is_minus(low),
        z: low == 0,
        c: carry,
        v: same(is_minus(x), is_minus(y)) && !same(is_minus(x), is_minus(low)),
    }
}

/// ADD.
pub fn sum(x: u64, y: u64) -> u64
    ensures { result ≡ sum_of x y }
{
    x.wrapping_add(y)
}

/// SUB.
pub fn difference(x: u64, y: u64) -> u64
    ensures { result ≡ difference_of x y }
{
    x.wrapping_sub(y)
}

/// ADDS.
#[tactic(auto, using(crate::proofs::Bits::sums))]
pub fn adds(x: u64, y: u64) -> FlaggedSum
    ensures { result ≡ adds_of x y }
{
    let value = sum(x, y);
    let flags = flags(x, y, value, value < x);
    FlaggedSum { value, flags }
}

/// SUBS.
#[tactic(auto, using(crate::proofs::Bits::sums))]
pub fn subs(x: u64, y: u64) -> FlaggedSum
    ensures { result ≡ subs_of x y }
{
    let value = difference(x, y);
    let flags = flags(x, complement(y), value, y <= x);
    FlaggedSum { value, flags }
}

/// The number of an immediate form.
pub fn immediate(imm: u16, shift12: bool) -> u64
    requires { imm < 2 ^ 12 }
    ensures { result ≡ immediate_of imm shift12 }
{
    if shift12 {
        imm as u64 * 4096
    } else {
        imm as u64
    }
}

/// UDIV.
pub fn quotient(x: u64, y: u64) -> u64
    ensures { result ≡ quotient_of x y }
{
    if y == 0 { 0 } else { x / y }
}

// The number without its sign.
fn magnitude(x: u64) -> u64
    ensures { result ≡ magnitude x }
{
    if is_minus(x) { 0u64.wrapping_sub(x) } else { x }
}

/// SDIV.
pub fn signed_quotient(x: u64, y: u64) -> u64
    ensures { result ≡ signed_quotient_of x y }
{
    let below = quotient(magnitude(x), magnitude(y));
    if same(is_minus(x), is_minus(y)) {
        below
    } else {
        difference(0, below)
    }
}

/// LSLV by a count below 64.
pub fn shift_left(x: u64, count: u64) -> u64
    requires { count < 64 }
    ensures { result ≡ shifted_left x count }
{
    x << count
}

/// LSRV by a count below 64.
pub fn shift_right(x: u64, count: u64) -> u64
    requires { count < 64 }
    ensures { result ≡ shifted_right x count }
{
    x >> count
}

/// ASRV by a count below 64.
pub fn shift_right_signed(x: u64, count: u64) -> u64
    requires { count < 64 }
    ensures { result ≡ shifted_right_signed x count }
{
    if is_minus(x) {
        complement(complement(x) >> count)
    } else {
        x >> count
    }
}

/// MADD.
pub fn add_product(a: u64, n: u64, m: u64) -> u64
    ensures { result ≡ product_added a n m }
{
    a.wrapping_add(n.wrapping_mul(m))
}

/// MSUB.
pub fn subtract_product(a: u64, n: u64, m: u64) -> u64
    ensures { result ≡ product_subtracted a n m }
{
    a.wrapping_sub(n.wrapping_mul(m))
}

/// MOVZ: a quarter of 16 bits.
pub fn quarter(imm: u16, hw: u8) -> u64
    requires imm { imm < 2 ^ 16 }
    requires hw { hw < 2 ^ 2 }
    ensures { result ≡ quarter_of imm hw }
{
    let imm = imm as u64;
    match hw {
        0 => imm,
        1 => imm << 16,
        2 => imm << 32,
        _ => imm << 48,
    }
}

/// MOVK: a number with a quarter replaced.
pub fn set_quarter(x: u64, imm: u16, hw: u8) -> u64
    requires imm { imm < 2 ^ 16 }
    requires hw { hw < 2 ^ 2 }
    ensures { result ≡ with_quarter x imm hw }
{
    let imm = imm as u64;
    match hw {
        0 => (x >> 16 << 16) + imm,
        1 => (x >> 32 << 32) + (imm << 16) + x % (1 << 16),
        2 => (x >> 48 << 48) + (imm << 32) + x % (1 << 32),
        _ => (imm << 48) + x % (1 << 48),
    }
}

// How far the part of UBFM and SBFM moves down.
fn down(imms: u8, immr: u8) -> u64
    requires imms { imms < 2 ^ 6 }
    requires immr { immr < 2 ^ 6 }
    ensures value { result ≡ field_down imms immr }
    ensures bound { result < 64 }
{
    (63 - imms as u64 + immr as u64) % 64
}

/// UBFM.
pub fn bitfield(x: u64, imms: u8, immr: u8) -> u64
    requires imms { imms < 2 ^ 6 }
    requires immr { immr < 2 ^ 6 }
    ensures { result ≡ bitfield_of x imms immr }
{
    let top = shift_left(x, 63 - imms as u64);
    shift_right(top, down(imms, immr))
}

/// SBFM.
pub fn signed_bitfield(x: u64, imms: u8, immr: u8) -> u64
    requires imms { imms < 2 ^ 6 }
    requires immr { immr < 2 ^ 6 }
    ensures { result ≡ signed_bitfield_of x imms immr }
{
    let top = shift_left(x, 63 - imms as u64);
    shift_right_signed(top, down(imms, immr))
}

/// Whether a condition holds of the flags.
pub fn holds(condition: Condition, flags: AFlags) -> bool
    ensures { result ≡ holds condition flags }
{
    match condition {
        Condition::Equal => flags.z,
        Condition::NotEqual => !flags.z,
        Condition::CarrySet => flags.c,
        Condition::CarryClear => !flags.c,
        Condition::Minus => flags.n,
        Condition::Plus => !flags.n,
        Condition::Overflow => flags.v,
        Condition::NoOverflow => !flags.v,
        Condition::Higher => flags.c && !flags.z,
        Condition::LowerOrSame => !(flags.c && !flags.z),
        Condition::GreaterOrEqual => same(flags.n, flags.v),
        Condition::Less => !same(flags.n, flags.v),
        Condition::Greater => same(flags.n, flags.v) && !flags.z,
        Condition::LessOrEqual => !(same(flags.n, flags.v) && !flags.z),
    }
}
