//! What the operations compute, with their flags.

ghost use Rattle.std.specs.Prelude.{◌≡◌, ◌<◌, ◌^◌, ◌/◌, ◌-◌};
ghost use Rattle.hx_words.specs.TwosComplement.{bits_of};
ghost use Rattle.x64_exec.specs.Words.{moved, complement, is_negative, signs, is_odd, flags_of_plus, flags_of_minus, flags_of_bits, is_cut, added, subtracted, bitwise, multiplied, left_value, signed_value, with_shift_flags, shifted, holds, with_truth};

use reg_map::registers::XFlags;
use x64_isa::Condition;

/// A result and its flags.
#[derive(Clone, Copy)]
pub struct Flagged {
    pub value: u64,
    pub flags: XFlags,
}

/// Which way bits are shifted, and what comes in.
#[derive(Clone, Copy)]
pub enum Shift {
    /// `shl`: zeros come in.
    Left,
    /// `shr`: zeros come in.
    Right,
    /// `sar`: copies of the sign come in.
    RightSigned,
}

/// The 64 bits of a signed number.
#[tactic(auto, using(crate::proofs::Numbers::unsigned_bits))]
pub fn extended(z: i32) -> u64
    ensures { result ≡ bits_of 64 z }
{
    (z as i64).cast_unsigned()
}

/// An address with a displacement.
pub fn moved(place: u64, displacement: i32) -> u64
    ensures { result ≡ moved place displacement }
{
    place.wrapping_add(extended(displacement))
}

/// All bits turned.
pub fn complement(a: u64) -> u64
    ensures { result ≡ complement a }
{
    u64::MAX - a
}

/// Whether the top bit is set.
pub fn is_negative(a: u64) -> bool
    ensures { result ≡ is_negative a }
{
    a >= 1 << 63
}

/// 64 copies of the top bit.
pub fn signs(a: u64) -> u64
    ensures { result ≡ signs a }
{
    if is_negative(a) { u64::MAX } else { 0 }
}

fn is_odd(a: u64) -> bool
    ensures { result ≡ is_odd a }
{
    a % 2 == 1
}

/// The sum, modulo 2^64.
#[tactic(auto, using(crate::proofs::Numbers::sums))]
pub fn add(a: u64, b: u64) -> Flagged
    ensures { result ≡ added a b }
{
    let value = a.wrapping_add(b);
    let flags = XFlags {
        cf: value < a,
        zf: value == 0,
        sf: is_negative(value),
        of: (is_negative(a) == is_negative(b)) & (is_negative(value) != is_negative(a)),
    };
    Flagged { value, flags }
}

/// The difference, modulo 2^64.
pub fn subtract(a: u64, b: u64) -> Flagged
    ensures { result ≡ subtracted a b }
{
    let value = a.wrapping_sub(b);
    let flags = XFlags {
        cf: a < b,
        zf: value == 0,
        sf: is_negative(value),
        of: (is_negative(a) != is_negative(b)) & (is_negative(value) != is_negative(a)),
    };
    Flagged { value, flags }
}

/// A number that bits were combined to, with its flags.
pub fn bitwise(value: u64) -> Flagged
    ensures { result ≡ bitwise value }
{
    let flags = XFlags {
        cf: false,
        zf: value == 0,
        sf: is_negative(value),
        of: false,
    };
    Flagged { value, flags }
}

// Whether the signed product is no number of 64 bits.
fn is_cut(a: u64, b: u64) -> bool
    ensures { result ≡ is_cut a b }
{
    a.cast_signed().checked_mul(b.cast_signed()).is_none()
}

/// The low 64 bits of the product.
pub fn multiply(a: u64, b: u64) -> Flagged
    ensures { result ≡ multiplied a b }
{
    let cut = is_cut(a, b);
    let flags = XFlags {
        cf: cut,
        zf: false,
        sf: false,
        of: cut,
    };
    Flagged {
        value: a.wrapping_mul(b),
        flags,
    }
}

fn signed_value(a: u64, n: u64) -> u64
    requires { n < 64 }
    ensures { result ≡ signed_value a n }
{
    if is_negative(a) {
        complement(complement(a) >> n)
    } else {
        a >> n
    }
}

fn with_shift_flags(n: u64, value: u64, last: bool, changed: bool) -> Flagged
    ensures { result ≡ with_shift_flags n value last changed }
{
    let flags = XFlags {
        cf: last,
        zf: value == 0,
        sf: is_negative(value),
        of: (n == 1) & changed,
    };
    Flagged { value, flags }
}

/// A number shifted by 1 to 63 bits.
pub fn shift_by(way: Shift, a: u64, n: u64) -> Flagged
    requires some { 0 < n }
    requires bound { n < 64 }
    ensures { result ≡ shifted way a n }
{
    match way {
        Shift::Left => {
            let value = a << n;
            let last = is_odd(a >> (64 - n));
            with_shift_flags(n, value, last, last != is_negative(value))
        }
        Shift::Right => with_shift_flags(n, a >> n, is_odd(a >> (n - 1)), is_negative(a)),
        Shift::RightSigned => {
            with_shift_flags(n, signed_value(a, n), is_odd(a >> (n - 1)), false)
        }
    }
}

/// Whether a condition holds of the flags.
pub fn holds(c: Condition, f: XFlags) -> bool
    ensures { result ≡ holds c f }
{
    match c {
        Condition::Overflow => f.of,
        Condition::NotOverflow => !f.of,
        Condition::Below => f.cf,
        Condition::AboveOrEqual => !f.cf,
        Condition::Equals => f.zf,
        Condition::NotEquals => !f.zf,
        Condition::BelowOrEqual => f.cf || f.zf,
        Condition::Above => !(f.cf || f.zf),
        Condition::Sign => f.sf,
        Condition::NotSign => !f.sf,
        Condition::LessThan => f.sf != f.of,
        Condition::GreaterOrEqual => f.sf == f.of,
        Condition::LessOrEqual => f.zf || f.sf != f.of,
        Condition::GreaterThan => !(f.zf || f.sf != f.of),
    }
}

/// A number whose low byte is 1 or 0.
pub fn with_truth(v: u64, truth: bool) -> u64
    ensures { result ≡ with_truth v truth }
{
    let bit = if truth { 1 } else { 0 };
    v / 256 * 256 + bit
}
