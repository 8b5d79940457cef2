//! The sections as they stand in memory.

ghost use Rattle.std.specs.Prelude.{◌≡◌, ◌+◌, ◌-◌, ◌<◌, IsTrue, drop};
ghost use Rattle.pe_fields.specs.Space.{has_part, is_mapped, has_code_part, is_code, rest_at, text_at, has_text};

use chpe_types::ImageSection;
use file_words::{before_zero, part};

/// Whether so many bytes at a place lie in the section.
fn has_part(s: &ImageSection, rva: u64, len: u64) -> bool
    ensures { result ≡ has_part rva len s.now }
{
    let start = s.rva as u64;
    let size = s.size as u64;
    start <= rva && rva - start <= size && len <= size - (rva - start)
}

/// Whether so many bytes at a place lie in one of the sections.
#[tactic(auto, unfolding(crate::specs::Space::is_mapped))]
pub fn is_mapped(sections: &[ImageSection], rva: u64, len: u64) -> bool
    ensures { result ≡ is_mapped sections.now rva len }
{
    sections.iter().any(|s| has_part(s, rva, len))
}

fn has_code_part(s: &ImageSection, rva: u64, len: u64) -> bool
    ensures { result ≡ has_code_part rva len s.now }
{
    s.flags & 0x2000_0000 != 0 && has_part(s, rva, len)
}

/// Whether so many bytes at a place lie in a section that may be executed.
#[tactic(auto, unfolding(crate::specs::Space::is_code))]
pub fn is_code(sections: &[ImageSection], rva: u64, len: u64) -> bool
    ensures { result ≡ is_code sections.now rva len }
{
    sections.iter().any(|s| has_code_part(s, rva, len))
}

/// The contents of a section from a place of it on.
#[tactic(auto, using(crate::proofs::SpaceLaws::part_rest))]
fn rest_of(s: &ImageSection, rva: u64) -> &[u8]
    requires { IsTrue (has_part rva 1 s.now) }
    ensures { result.now ≡ drop (rva - s.now.rva) s.now.bytes }
{
    let contents = s.bytes.as_slice();
    part(contents, (rva - s.rva as u64) as usize, contents.len())
}

/// The contents from a place on to the end of those of its section.
pub fn rest_at(sections: &[ImageSection], rva: u64) -> &[u8]
    ensures { result.now ≡ rest_at sections.now rva }
{
    for s in sections {
        if has_part(s, rva, 1) {
            return rest_of(s, rva);
        }
    }
    &[]
}

/// The text at a place, up to a zero or the end of the contents.
#[tactic(auto, unfolding(crate::specs::Space::text_at))]
pub fn text_at(sections: &[ImageSection], rva: u64) -> &[u8]
    ensures { result.now ≡ text_at sections.now rva }
{
    before_zero(rest_at(sections, rva))
}

/// Whether so many bytes at a place and the text after them, with its zero, lie in a section.
#[tactic(auto, unfolding(crate::specs::Space::has_text))]
pub fn has_text(sections: &[ImageSection], rva: u32, before: u32) -> bool
    ensures { result ≡ has_text sections.now rva before }
{
    let text = text_at(sections, rva as u64 + before as u64);
    is_mapped(sections, rva as u64, before as u64 + text.len() as u64 + 1)
}
