ghost use Rattle.std.specs.Prelude.{◌≡◌, ◌-◌, ◌*◌, ◌^◌, ◌<◌, ◌≤◌, nat_lt, if◌then◌else◌};
ghost use Rattle.hx_words.specs.TwosComplement.{bits_of};
ghost use Rattle.c_typing.specs.Visits.{Tells};
ghost use Rattle.c_typing.specs.Conversions.{number_in};
ghost use Rattle.c_typing.specs.Initials.{written, is_null_literal, number_at, char_at};

use c_program::Constant;
use c_tree::Literal;
use c_types::{IntTy, Span, Ty};
use c_typing::{Refusal, TypeKind};
use check_types::refusal;

/// A negative number of so many bits, half of whose numbers are below the given one, in 64 bits.
fn extended(low: u64, half: u64) -> u64
    requires half_small { half ≤ 2 ^ 31 }
    requires low_small { low < 2 * half }
    ensures { result ≡ (if nat_lt low half then low else 2 ^ 64 - (2 * half - low)) }
{
    if low < half {
        low
    } else {
        u64::MAX - (2 * half - low) + 1
    }
}

/// A number in a type, in 64 bits of two's complement (C11, 6.3.1.3).
#[tactic(auto, using(crate::proofs::NumberLaws::signed_bits))]
pub fn number_of(ty: IntTy, n: u64) -> u64
    ensures { result ≡ number_in ty n }
{
    match ty {
        IntTy::U8 => n % 0x100,
        IntTy::U16 => n % 0x1_0000,
        IntTy::U32 => n % 0x1_0000_0000,
        IntTy::I8 => extended(n % 0x100, 0x80),
        IntTy::I16 => extended(n % 0x1_0000, 0x8000),
        IntTy::I32 => extended(n % 0x1_0000_0000, 0x8000_0000),
        IntTy::U64 | IntTy::I64 => n,
    }
}

/// A number as it is written, with a `-` before it or not, in 64 bits.
#[tactic(auto, using(crate::proofs::NumberLaws::none_written))]
fn written_number(minus: Option<Span>, n: Literal) -> u64
    ensures { result ≡ written minus n }
{
    match minus {
        None => n.value,
        Some(_) if n.value == 0 => 0,
        Some(_) => number_of(n.ty, u64::MAX - n.value + 1),
    }
}

fn is_null(minus: Option<Span>, n: Literal) -> bool
    ensures { result ≡ is_null_literal minus n }
{
    match minus {
        None => n.value == 0,
        Some(_) => false,
    }
}

/// A number, with the place of a `-` before it, as the initial value of a type (C11, 6.7.9).
pub fn number_constant(
    at: u32,
    minus: Option<Span>,
    n: Literal,
    ty: Ty,
) -> Result<Constant, Refusal>
    ensures { Tells (number_at at minus n ty) result }
{
    match ty {
        Ty::Int(i) => {
            let value = number_of(i, written_number(minus, n));
            Ok(Constant::Number(i, value))
        }
        Ty::Ptr(_) | Ty::Fun(_) if is_null(minus, n) => Ok(Constant::Zero),
        _ => Err(refusal(TypeKind::BadInitial, at)),
    }
}

fn wide_bits(c: i32) -> u64
    ensures { result ≡ bits_of 64 c }
{
    i64::from(c).cast_unsigned()
}

/// A character as the initial value of a type: it is a number of any integer type alone.
pub fn char_constant(at: u32, c: i32, ty: Ty) -> Result<Constant, Refusal>
    ensures { Tells (char_at at c ty) result }
{
    match ty {
        Ty::Int(i) => {
            let value = number_of(i, wide_bits(c));
            Ok(Constant::Number(i, value))
        }
        _ => Err(refusal(TypeKind::BadInitial, at)),
    }
}
