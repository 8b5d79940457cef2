//! Division of 128 bits.

ghost use Rattle.std.specs.Prelude.{◌≡◌, ◌≢◌, pos};
ghost use Rattle.hx_words.specs.TwosComplement.{bits_of, signed_of, IsSigned};
ghost use Rattle.x64_exec.specs.Words.{fits_signed, dividend, divided, divided_signed, signed_divided};

/// A quotient and a remainder.
#[derive(Clone, Copy)]
pub struct Division {
    pub quotient: u64,
    pub remainder: u64,
}

// The number that two words make.
fn dividend(high: u64, low: u64) -> u128
    ensures { result ≡ dividend high low }
{
    high as u128 * 0x1_0000_0000_0000_0000 + low as u128
}

/// The quotient and the remainder of unsigned numbers; `None` for a divisor of 0 and for a quotient
/// that 64 bits don't hold.
pub fn divide(high: u64, low: u64, d: u64) -> Option<Division>
    ensures { result ≡ divided high low d }
{
    if d == 0 {
        return None;
    }
    let n = dividend(high, low);
    let quotient = n / d as u128;
    if quotient > u64::MAX as u128 {
        return None;
    }
    Some(Division {
        quotient: quotient as u64,
        remainder: (n % d as u128) as u64,
    })
}

// Whether a number is one of 64 signed bits.
fn fits(z: i128) -> bool
    ensures { result ≡ fits_signed z }
{
    const LEAST: i128 = -0x8000_0000_0000_0000;
    const GREATEST: i128 = 0x7FFF_FFFF_FFFF_FFFF;
    LEAST <= z && z <= GREATEST
}

// The 64 bits of a number that they hold.
fn bits(z: i128) -> u64
    requires { IsSigned 64 z }
    ensures { result ≡ bits_of 64 z }
{
    (z as i64).cast_unsigned()
}

// The 128 bits of two words as a signed number.
fn signed_dividend(high: u64, low: u64) -> i128
    ensures { result ≡ signed_of 128 (dividend high low) }
{
    dividend(high, low).cast_signed()
}

// The 64 bits of a word as a signed number.
fn signed(d: u64) -> i64
    ensures { result ≡ signed_of 64 d }
{
    d.cast_signed()
}

// The quotient and the remainder of signed numbers, where 64 bits hold the quotient.
fn divide_numbers(n: i128, d: i64) -> Option<Division>
    requires { d ≢ pos 0 }
    ensures { result ≡ divided_signed n d }
{
    let d = d as i128;
    let quotient = n.checked_div(d)?;
    if !fits(quotient) {
        return None;
    }
    Some(Division {
        quotient: bits(quotient),
        remainder: bits(n % d),
    })
}

/// The same of signed numbers, the quotient truncated.
pub fn divide_signed(high: u64, low: u64, d: u64) -> Option<Division>
    ensures { result ≡ signed_divided high low d }
{
    if d == 0 {
        return None;
    }
    divide_numbers(signed_dividend(high, low), signed(d))
}
