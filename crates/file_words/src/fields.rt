//! Fields of the bytes at a place.

ghost use Rattle.std.specs.Prelude.{◌≡◌, ◌+◌, ◌*◌, ◌^◌, ◌<◌, position, ◌==◌};
ghost use Rattle.file_words.specs.Fields.{byte_of, word_of, dword_of, part_of, until_zero};

/// The byte at a place; 0 past the end.
#[tactic(auto, unfolding(crate::specs::Fields::byte_of))]
pub fn byte_at(bytes: &[u8], place: usize) -> u8
    ensures { result ≡ byte_of bytes.now place }
{
    if place < bytes.len() { bytes[place] } else { 0 }
}

/// The little-endian number of 16 bits at a place.
#[tactic(auto, unfolding(crate::specs::Fields::word_of))]
pub fn u16_at(bytes: &[u8], place: usize) -> u16
    requires { place < 2 ^ 63 }
    ensures { result ≡ word_of bytes.now place }
{
    byte_at(bytes, place) as u16 + 256 * (byte_at(bytes, place + 1) as u16)
}

/// The little-endian number of 32 bits at a place.
#[tactic(auto, unfolding(crate::specs::Fields::dword_of))]
pub fn u32_at(bytes: &[u8], place: usize) -> u32
    requires { place < 2 ^ 62 }
    ensures { result ≡ dword_of bytes.now place }
{
    u16_at(bytes, place) as u32 + 65536 * (u16_at(bytes, place + 2) as u32)
}

/// So many bytes from a place on, or as many as there are.
#[tactic(auto, using(crate::proofs::PartLaws::part_none, crate::proofs::PartLaws::part_all), unfolding(crate::specs::Fields::part_of))]
pub fn part(bytes: &[u8], place: usize, len: usize) -> &[u8]
    ensures { result.now ≡ part_of bytes.now place len }
{
    if place >= bytes.len() {
        return &bytes[..0];
    }
    let rest = &bytes[place..];
    if len < rest.len() { &rest[..len] } else { rest }
}

/// Where the first zero is.
fn first_zero(bytes: &[u8]) -> Option<usize>
    ensures { result ≡ position (λ c. c == 0) bytes.now }
{
    bytes.iter().position(|b| *b == 0)
}

/// The bytes before the first zero, or all where there is none.
#[tactic(auto, using(crate::proofs::PartLaws::cut_some, crate::proofs::PartLaws::cut_none))]
pub fn before_zero(bytes: &[u8]) -> &[u8]
    ensures { result.now ≡ until_zero bytes.now }
{
    match first_zero(bytes) {
        Some(end) => &bytes[..end],
        None => bytes,
    }
}
