//! Numbers in bytes, the lowest byte first.

ghost use Rattle.std.specs.Prelude.{◌≡◌, ◌≤◌, ◌<◌, ◌^◌, ◌++◌, ◌+◌, IfNone, IfSome, OnSome, length, take, drop};
ghost use Rattle.hx_words.specs.LittleEndian.{number_of, bytes_of};
ghost use Rattle.hx_bits.specs.Widths.{bits_in, bytes_in};
ghost use Rattle.hx_bits.specs.Numbers.{number_at};

use crate::widths::Width;
use byteorder::{ByteOrder, LittleEndian};

/// The number of 16 bits in the bytes from a place on; `None` where it ends past the bytes.
pub fn le_u16_at(bytes: &[u8], at: u64) -> Option<u16>
    ensures { result ≡ number_at 2 bytes.now at }
{
    let rest = bytes_from(bytes, at, 2)?;
    Some(LittleEndian::read_u16(rest))
}

/// The number of 32 bits in the bytes from a place on; `None` where it ends past the bytes.
pub fn le_u32_at(bytes: &[u8], at: u64) -> Option<u32>
    ensures { result ≡ number_at 4 bytes.now at }
{
    let rest = bytes_from(bytes, at, 4)?;
    Some(LittleEndian::read_u32(rest))
}

/// The number of 64 bits in the bytes from a place on; `None` where it ends past the bytes.
pub fn le_u64_at(bytes: &[u8], at: u64) -> Option<u64>
    ensures { result ≡ number_at 8 bytes.now at }
{
    let rest = bytes_from(bytes, at, 8)?;
    Some(LittleEndian::read_u64(rest))
}

/// The number of a width in the first bytes.
pub fn read_number(bytes: &[u8], w: Width) -> u64
    requires { bytes_in w ≤ length bytes.now }
    ensures value { result ≡ number_of (take (bytes_in w) bytes.now) }
    ensures bound { result < 2 ^ bits_in w }
{
    match w {
        Width::W8 => u64::from(bytes[0]),
        Width::W16 => u64::from(LittleEndian::read_u16(bytes)),
        Width::W32 => u64::from(LittleEndian::read_u32(bytes)),
        Width::W64 => LittleEndian::read_u64(bytes),
    }
}

/// Writes the low bits of a number of a width to the first bytes.
pub fn write_number(bytes: &mut [u8], w: Width, v: u64)
    requires { bytes_in w ≤ length bytes.old }
    ensures { bytes.new ≡ bytes_of (bytes_in w) v ++ drop (bytes_in w) bytes.old }
{
    match w {
        Width::W8 => bytes[0] = (v % 0x100) as u8,
        Width::W16 => LittleEndian::write_u16(bytes, (v % 0x1_0000) as u16),
        Width::W32 => LittleEndian::write_u32(bytes, (v % 0x1_0000_0000) as u32),
        Width::W64 => LittleEndian::write_u64(bytes, v),
    }
}

// The bytes from a place on, where at least n stand there.
fn bytes_from(bytes: &[u8], at: u64, n: usize) -> Option<&[u8]>
    ensures short { IfNone result (length bytes.now < at + n) }
    ensures within { OnSome result (at + n ≤ length bytes.now) }
    ensures rest { IfSome result (λ rest. rest.now ≡ drop at bytes.now) }
{
    let start = at as usize;
    if start > bytes.len() || bytes.len() - start < n {
        return None;
    }
    Some(&bytes[start..])
}
