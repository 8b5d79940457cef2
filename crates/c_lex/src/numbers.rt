//! Numbers: their digits, suffixes and types.

ghost use Rattle.std.specs.Prelude.{◌≡◌, ◌≤◌, nat_lt, ◌<◌, ◌+◌, ◌*◌, ◌^◌, length, IfSome, IfNone};
ghost use Rattle.std.specs.Option.{SomeIff};
ghost use Rattle.std.specs.Char.{digit_value};
ghost use Rattle.std.specs.Str.Parse.{digits_value};
ghost use Rattle.c_lex.specs.Bytes.{is_decimal};
ghost use Rattle.c_lex.specs.Numbers.{is_x, is_u, is_l, base_of, prefix_of, suffix_of, all_types, types_of, end_of, type_of, digits_len, number_from, number_of};

use crate::bytes::{behind, byte_at, digit_value};
use crate::token::TokKind;
use c_types::IntTy;

/// What a suffix says of a number's type.
#[derive(Clone, Copy, Debug, PartialEq, Eq)]
pub struct Suffix {
    pub unsigned: bool,
    pub long: bool,
}

#[tactic(auto, unfolding(crate::specs::Numbers::is_x))]
fn is_x(byte: u8) -> bool
    ensures { result ≡ is_x byte }
{
    byte == b'x' || byte == b'X'
}

#[tactic(auto, unfolding(crate::specs::Numbers::is_u))]
fn is_u(byte: u8) -> bool
    ensures { result ≡ is_u byte }
{
    byte == b'u' || byte == b'U'
}

#[tactic(auto, unfolding(crate::specs::Numbers::is_l))]
fn is_l(byte: u8) -> bool
    ensures { result ≡ is_l byte }
{
    byte == b'l' || byte == b'L'
}

#[tactic(auto, unfolding(crate::specs::Numbers::base_of))]
fn base_of(word: &[u8]) -> u8
    ensures { result ≡ base_of word.now }
{
    if byte_at(word, 0) != b'0' {
        return 10;
    }
    if is_x(byte_at(word, 1)) { 16 } else { 8 }
}

/// How many bytes stand before the digits.
#[tactic(auto, unfolding(crate::specs::Numbers::prefix_of))]
fn prefix_of(base: u8) -> usize
    ensures { result ≡ prefix_of base }
{
    if base == 16 { 2 } else { 0 }
}

#[tactic(auto, unfolding(crate::specs::Numbers::suffix_of))]
fn suffix_of(text: &[u8]) -> Option<Suffix>
    ensures { result ≡ suffix_of text.now }
{
    let (unsigned, long) = match text.len() {
        0 => (false, false),
        1 if is_u(text[0]) => (true, false),
        2 if is_l(text[0]) && is_l(text[1]) => (false, true),
        3 if is_u(text[0]) && is_l(text[1]) && is_l(text[2]) => (true, true),
        _ => return None,
    };
    Some(Suffix { unsigned, long })
}

/// The types of a number's list, in order.
#[tactic(auto, unfolding(crate::specs::Numbers::types_of, crate::specs::Numbers::all_types, crate::specs::Numbers::has_64_bits))]
fn types_of(base: u8, suffix: Suffix) -> &'static [IntTy]
    ensures { result.now ≡ types_of base suffix }
{
    if suffix.unsigned {
        if suffix.long {
            &[IntTy::U64]
        } else {
            &[IntTy::U32, IntTy::U64]
        }
    } else if base == 10 {
        if suffix.long {
            &[IntTy::I64]
        } else {
            &[IntTy::I32, IntTy::I64]
        }
    } else if suffix.long {
        &[IntTy::I64, IntTy::U64]
    } else {
        &[IntTy::I32, IntTy::U32, IntTy::I64, IntTy::U64]
    }
}

#[tactic(auto, unfolding(crate::specs::Numbers::end_of))]
fn holds(ty: IntTy, value: u64) -> bool
    ensures { result ≡ nat_lt value (end_of ty) }
{
    match ty {
        IntTy::I8 => value < 1 << 7,
        IntTy::U8 => value < 1 << 8,
        IntTy::I16 => value < 1 << 15,
        IntTy::U16 => value < 1 << 16,
        IntTy::I32 => value < 1 << 31,
        IntTy::U32 => value < 1 << 32,
        IntTy::I64 => value < 1 << 63,
        IntTy::U64 => true,
    }
}

/// The first type of a number's list that holds it.
#[tactic(auto, unfolding(crate::specs::Numbers::type_of))]
fn type_of(value: u64, base: u8, suffix: Suffix) -> Option<IntTy>
    ensures { result ≡ type_of value base suffix }
{
    types_of(base, suffix)
        .iter()
        .copied()
        .find(|ty| holds(*ty, value))
}

/// How many digits of the base stand in front.
#[tactic(auto, unfolding(crate::specs::Numbers::digits_len))]
fn digits_len(base: u8, text: &[u8]) -> usize
    ensures value { result ≡ digits_len base text.now }
    ensures within { result ≤ length text.now }
{
    text.iter()
        .take_while(|byte| digit_value(**byte) < base)
        .count()
}

/// A number with one digit more; none from 2^64 on.
fn with_digit(value: u64, base: u8, digit: u8) -> Option<u64>
    ensures { SomeIff result (value * base + digit_value digit < 2 ^ 64) (value * base + digit_value digit) }
{
    value
        .checked_mul(u64::from(base))?
        .checked_add(u64::from(digit_value(digit)))
}

/// The number that digits write; none from 2^64 on.
#[tactic(auto, using(crate::proofs::NumberLaws::digits_so_far, std::proofs::lemmas::Int::Digits::digits_value_more))]
fn value_of(base: u8, digits: &[u8]) -> Option<u64>
    requires { 0 < base }
    ensures value { IfSome result (λ value. value ≡ digits_value base digits.now) }
    ensures large { IfNone result (2 ^ 64 ≤ digits_value base digits.now) }
{
    let mut value: u64 = 0;
    for digit in digits {
        value = with_digit(value, base, *digit)?;
    }
    Some(value)
}

#[tactic(auto, using(crate::proofs::NumberLaws::type_of_large), unfolding(crate::specs::Numbers::number_from))]
fn number_from(base: u8, digits: &[u8], suffix: &[u8]) -> Option<TokKind>
    requires { 0 < base }
    ensures { result ≡ number_from base digits.now suffix.now }
{
    let suffix = suffix_of(suffix)?;
    let value = value_of(base, digits)?;
    let ty = type_of(value, base, suffix)?;
    if digits.is_empty() {
        return None;
    }
    Some(TokKind::Number(value, ty))
}

/// The number that a word of digits, letters and `_` spells.
#[tactic(auto, using(crate::proofs::NumberLaws::base_positive, crate::proofs::NumberLaws::prefix_within), unfolding(crate::specs::Numbers::number_of))]
pub fn number_of(word: &[u8]) -> Option<TokKind>
    ensures { result ≡ number_of word.now }
{
    let base = base_of(word);
    let body = behind(word, prefix_of(base));
    let (digits, suffix) = body.split_at(digits_len(base, body));
    number_from(base, digits, suffix)
}
