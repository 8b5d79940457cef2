ghost use Rattle.std.specs.Prelude.{◌≡◌, ◌*◌, ◌^◌, ◌<◌, ◌≤◌, pos, unsigned_abs, ◌*ℤ◌, int_div, int_rem, bit_and, bit_or, bit_xor, ◌+ℤ◌, ◌-ℤ◌, ◌≤ℤ◌, ◌<ℤ◌, IsTrue, ◌↔◌};
ghost use Rattle.c_program.specs.declared.expressions.Arithmetic.TheVariants as operation;
ghost use Rattle.hx_words.specs.TwosComplement.{signed_of};
ghost use Rattle.c_values.specs.Numbers.{bits_in, is_signed, low_bits, wrapped, count_bits, shift_count, unless_zero, worked, wrapped_in, arithmetic as arithmetic_of, negated, complemented, stepped, Holds};

use c_program::Arithmetic;
use c_types::IntTy;

/// 2 to the power of a type's bits.
fn modulus(ty: IntTy) -> i128
    ensures { result ≡ pos (2 ^ bits_in ty) }
{
    match ty {
        IntTy::I8 | IntTy::U8 => 1 << 8,
        IntTy::I16 | IntTy::U16 => 1 << 16,
        IntTy::I32 | IntTy::U32 => 1 << 32,
        IntTy::I64 | IntTy::U64 => 1 << 64,
    }
}

fn signed(ty: IntTy) -> bool
    ensures { result ≡ is_signed ty }
{
    match ty {
        IntTy::I8 | IntTy::I16 | IntTy::I32 | IntTy::I64 => true,
        IntTy::U8 | IntTy::U16 | IntTy::U32 | IntTy::U64 => false,
    }
}

/// The low bits of a number, as many as the type has.
#[tactic(auto, using(crate::proofs::NumberLaws::low_is, crate::proofs::NumberLaws::low_below))]
fn low(ty: IntTy, z: i128) -> i128
    ensures value { result ≡ pos (low_bits (bits_in ty) z) }
    ensures below { low_bits (bits_in ty) z < 2 ^ bits_in ty }
{
    z.rem_euclid(modulus(ty))
}

/// The number that the low bits of a signed type stand for.
fn signed_number(ty: IntTy, low: i128) -> i128
    requires least { pos 0 ≤ℤ low }
    requires below { low <ℤ pos (2 ^ bits_in ty) }
    ensures { result ≡ signed_of (bits_in ty) (unsigned_abs low) }
{
    let modulus = modulus(ty);
    if low < modulus / 2 {
        low
    } else {
        low - modulus
    }
}

/// The number of the type that differs from `z` by a multiple of 2 to the power of its bits (C11,
/// 6.3.1.3).
pub fn wrap(ty: IntTy, z: i128) -> i128
    ensures value { result ≡ wrapped ty z }
    ensures holds { Holds ty result }
{
    let low = low(ty, z);
    if signed(ty) {
        signed_number(ty, low)
    } else {
        low
    }
}

/// The number that a count of shifts is taken modulo.
fn count_modulus(ty: IntTy) -> i128
    ensures { result ≡ pos (2 ^ count_bits (bits_in ty)) }
{
    match ty {
        IntTy::I64 | IntTy::U64 => 64,
        _ => 32,
    }
}

/// How far a shift goes.
fn shift_places(ty: IntTy, count: i128) -> u32
    ensures value { result ≡ shift_count ty count }
    ensures below { result < 64 }
{
    count.rem_euclid(count_modulus(ty)) as u32
}

/// The product of two numbers as far as a type of 64 bits at most keeps it.
fn product(ty: IntTy, a: i128, b: i128) -> i128
    ensures { wrapped ty result ≡ wrapped ty (a *ℤ b) }
{
    a.wrapping_mul(b)
}

fn low_word(ty: IntTy, z: i128) -> u64
    ensures { result ≡ low_bits (bits_in ty) z }
{
    low(ty, z) as u64
}

fn bits(op: Arithmetic, a: u64, b: u64) -> u64
    ensures and { op ≡ operation.BitAnd → result ≡ bit_and a b }
    ensures or { op ≡ operation.BitOr → result ≡ bit_or a b }
    ensures xor { op ≡ operation.BitXor → result ≡ bit_xor a b }
{
    match op {
        Arithmetic::BitAnd => a & b,
        Arithmetic::BitOr => a | b,
        _ => a ^ b,
    }
}

/// Both numbers' low bits, joined bit by bit.
fn joined(op: Arithmetic, ty: IntTy, a: i128, b: i128) -> i128
    ensures and { op ≡ operation.BitAnd → result ≡ pos (bit_and (low_bits (bits_in ty) a) (low_bits (bits_in ty) b)) }
    ensures or { op ≡ operation.BitOr → result ≡ pos (bit_or (low_bits (bits_in ty) a) (low_bits (bits_in ty) b)) }
    ensures xor { op ≡ operation.BitXor → result ≡ pos (bit_xor (low_bits (bits_in ty) a) (low_bits (bits_in ty) b)) }
{
    bits(op, low_word(ty, a), low_word(ty, b)) as i128
}

/// `a / b`, or `a % b`, of two numbers of a type; none for a division by 0.
fn divided(op: Arithmetic, ty: IntTy, a: i128, b: i128) -> Option<i128>
    requires a_holds { Holds ty a }
    requires b_holds { Holds ty b }
    ensures quotient { op ≡ operation.Divide → result ≡ unless_zero b (int_div a b) }
    ensures remainder { op ≡ operation.Remainder → result ≡ unless_zero b (int_rem a b) }
{
    if b == 0 {
        return None;
    }
    match op {
        Arithmetic::Divide => Some(a / b),
        _ => Some(a % b),
    }
}

/// The operation on two numbers of a type, before the result is wrapped; none for a division by 0.
fn work(op: Arithmetic, ty: IntTy, a: i128, b: i128) -> Option<i128>
    requires a_holds { Holds ty a }
    requires b_holds { Holds ty b }
    ensures { wrapped_in ty result ≡ wrapped_in ty (worked op ty a b) }
{
    match op {
        Arithmetic::Add => Some(a + b),
        Arithmetic::Subtract => Some(a - b),
        Arithmetic::Multiply => Some(product(ty, a, b)),
        Arithmetic::Divide | Arithmetic::Remainder => divided(op, ty, a, b),
        Arithmetic::BitAnd | Arithmetic::BitOr | Arithmetic::BitXor => Some(joined(op, ty, a, b)),
        Arithmetic::ShiftLeft => Some(product(ty, a, 1 << shift_places(ty, b))),
        Arithmetic::ShiftRight => Some(a >> shift_places(ty, b)),
    }
}

/// The operation in a type, in which both operands are read, with its result in the type; none for a
/// division by 0.
pub fn arithmetic(op: Arithmetic, ty: IntTy, a: i128, b: i128) -> Option<i128>
    ensures { result ≡ arithmetic_of op ty a b }
{
    let z = work(op, ty, wrap(ty, a), wrap(ty, b))?;
    Some(wrap(ty, z))
}

/// `-z` in a type.
pub fn negate(ty: IntTy, z: i128) -> i128
    ensures { result ≡ negated ty z }
{
    wrap(ty, -wrap(ty, z))
}

/// Each bit of `z` in a type turned over.
pub fn complement(ty: IntTy, z: i128) -> i128
    ensures { result ≡ complemented ty z }
{
    wrap(ty, -wrap(ty, z) - 1)
}

/// One more than `z` in a type, or one less.
pub fn step(ty: IntTy, up: bool, z: i128) -> i128
    ensures { result ≡ stepped ty up z }
{
    let z = wrap(ty, z);
    wrap(ty, if up { z + 1 } else { z - 1 })
}
