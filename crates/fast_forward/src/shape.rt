//! The sixteen bytes, made and recognized.

ghost use Rattle.std.specs.Prelude.{◌≡◌, ◌+◌, ℤ, IfSome, IfNone};
ghost use Rattle.hx_words.specs.TwosComplement.{signed_of, bits_of, IsSigned};
ghost use Rattle.fast_forward.specs.Sequence.{sequence_of, distance, Jumps};

use hx_bits::{Width, read_number};

const FRONT: [u8; 10] = [0x48, 0x8B, 0xC4, 0x48, 0x89, 0x58, 0x20, 0x55, 0x5D, 0xE9];

const BACK: [u8; 2] = [0xCC, 0xCC];

/// The sequence at one place of the image that leads to another.
///
/// Both are in bytes from the base of the image. The distance from the end of the jump, 14 bytes behind `at`, has to
/// be a signed number of 32 bits.
pub fn sequence(at: u32, target: u32) -> [u8; 16]
    requires { IsSigned 32 (distance at target) }
    ensures { result ≡ sequence_of (distance at target) }
{
    let [a, b, c, d] = distance_bits(at, target).to_le_bytes();
    [
        0x48, 0x8B, 0xC4, 0x48, 0x89, 0x58, 0x20, 0x55, 0x5D, 0xE9, a, b, c, d, 0xCC, 0xCC,
    ]
}

/// How far the jump of a sequence goes from its end, in bytes; `None` exactly where the first sixteen bytes are no
/// sequence.
pub fn jump_of(bytes: &[u8]) -> Option<i32>
    ensures found { IfSome result (λ z. Jumps bytes.now z) }
    ensures none { IfNone result ((z : ℤ) → ¬ Jumps bytes.now z) }
{
    if bytes.len() < 16 || bytes[..10] != FRONT[..] || bytes[14..16] != BACK[..] {
        return None;
    }
    Some(signed(read_number(&bytes[10..14], Width::W32) as u32))
}

// The 32 bits of the distance from the end of the jump of a sequence.
fn distance_bits(at: u32, target: u32) -> u32
    requires { IsSigned 32 (distance at target) }
    ensures { result ≡ bits_of 32 (distance at target) }
{
    let distance = i64::from(target) - (i64::from(at) + 14);
    if distance < 0 {
        (distance + 0x1_0000_0000) as u32
    } else {
        distance as u32
    }
}

// The number that 32 bits stand for.
fn signed(bits: u32) -> i32
    ensures { result ≡ signed_of 32 bits }
{
    if bits < 0x8000_0000 {
        bits as i32
    } else {
        (i64::from(bits) - 0x1_0000_0000) as i32
    }
}
