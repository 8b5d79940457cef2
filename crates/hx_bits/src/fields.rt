//! Fields of 32-bit words.

ghost use Rattle.std.specs.Prelude.{◌≡◌, ◌+◌, ◌^◌, ◌<◌, ◌≤◌};
ghost use Rattle.hx_bits.specs.Bits.{field_of, with_field};

/// The LEN bits of the word from bit LO up.
pub fn field<const LO: u32, const LEN: u32>(word: u32) -> u32
    requires { LO + LEN ≤ 32 }
    ensures value { result ≡ field_of LO LEN word }
    ensures bound { result < 2 ^ LEN }
{
    ((word as u64 >> LO) % (1u64 << LEN)) as u32
}

/// The word with the LEN bits from bit LO up replaced by v.
pub fn put_field<const LO: u32, const LEN: u32>(word: u32, v: u32) -> u32
    requires in_word { LO + LEN ≤ 32 }
    requires fits { v < 2 ^ LEN }
    ensures { result ≡ with_field LO LEN word v }
{
    let wide = word as u64;
    let high = (wide >> (LO + LEN)) << (LO + LEN);
    let low = wide % (1u64 << LO);
    (high + ((v as u64) << LO) + low) as u32
}
