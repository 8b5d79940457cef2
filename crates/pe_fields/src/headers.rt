//! The headers of a file. Sections and directories are counted from 0.

ghost use Rattle.std.specs.Prelude.{◌≡◌, ◌+◌, ◌*◌, ◌<◌, ◌^◌, IfOk};
ghost use Rattle.pe_fields.specs.Headers.{qword_of, dos_magic, pe_place, pe_magic, machine, section_count, optional_size, optional_place, optional_magic, entry, base, section_alignment, file_alignment, image_size, stack, directory_count, directory_rva, directory_size, section_place, virtual_size, section_rva, raw_size, raw_place, section_flags, section_name, section_bytes, section, sections};

use chpe_types::ImageSection;
use file_words::{before_zero, part, u16_at, u32_at};
use hx_words::Items;
use std::alloc::{AllocError, Global};

/// The little-endian number of 64 bits at a place.
#[tactic(auto, unfolding(crate::specs::Headers::qword_of))]
pub fn u64_at(bytes: &[u8], place: usize) -> u64
    requires { place < 2 ^ 61 }
    ensures { result ≡ qword_of bytes.now place }
{
    u32_at(bytes, place) as u64 + 4_294_967_296 * (u32_at(bytes, place + 4) as u64)
}

/// The DOS header's e_magic.
#[tactic(auto, unfolding(crate::specs::Headers::dos_magic))]
pub fn dos_magic(bytes: &[u8]) -> u16
    ensures { result ≡ dos_magic bytes.now }
{
    u16_at(bytes, 0)
}

/// Where the signature stands (e_lfanew).
#[tactic(auto, unfolding(crate::specs::Headers::pe_place))]
pub fn pe_place(bytes: &[u8]) -> u32
    ensures { result ≡ pe_place bytes.now }
{
    u32_at(bytes, 60)
}

/// The signature.
#[tactic(auto, unfolding(crate::specs::Headers::pe_magic))]
pub fn pe_magic(bytes: &[u8]) -> u32
    ensures { result ≡ pe_magic bytes.now }
{
    u32_at(bytes, pe_place(bytes) as usize)
}

/// The header's Machine.
#[tactic(auto, unfolding(crate::specs::Headers::machine))]
pub fn machine(bytes: &[u8]) -> u16
    ensures { result ≡ machine bytes.now }
{
    u16_at(bytes, pe_place(bytes) as usize + 4)
}

/// How many sections there are (NumberOfSections).
#[tactic(auto, unfolding(crate::specs::Headers::section_count))]
pub fn section_count(bytes: &[u8]) -> u16
    ensures { result ≡ section_count bytes.now }
{
    u16_at(bytes, pe_place(bytes) as usize + 6)
}

/// The header's SizeOfOptionalHeader.
#[tactic(auto, unfolding(crate::specs::Headers::optional_size))]
pub fn optional_size(bytes: &[u8]) -> u16
    ensures { result ≡ optional_size bytes.now }
{
    u16_at(bytes, pe_place(bytes) as usize + 20)
}

/// Where the optional header stands.
pub fn optional_place(bytes: &[u8]) -> usize
    ensures value { result ≡ optional_place bytes.now }
    ensures bound { result < 2 ^ 33 }
{
    pe_place(bytes) as usize + 24
}

/// The optional header's Magic.
#[tactic(auto, unfolding(crate::specs::Headers::optional_magic))]
pub fn optional_magic(bytes: &[u8]) -> u16
    ensures { result ≡ optional_magic bytes.now }
{
    u16_at(bytes, optional_place(bytes))
}

/// The place of the first instruction (AddressOfEntryPoint).
#[tactic(auto, unfolding(crate::specs::Headers::entry))]
pub fn entry(bytes: &[u8]) -> u32
    ensures { result ≡ entry bytes.now }
{
    u32_at(bytes, optional_place(bytes) + 16)
}

/// The address that the image is linked for (ImageBase).
#[tactic(auto, unfolding(crate::specs::Headers::base))]
pub fn base(bytes: &[u8]) -> u64
    ensures { result ≡ base bytes.now }
{
    u64_at(bytes, optional_place(bytes) + 24)
}

/// The optional header's SectionAlignment.
#[tactic(auto, unfolding(crate::specs::Headers::section_alignment))]
pub fn section_alignment(bytes: &[u8]) -> u32
    ensures { result ≡ section_alignment bytes.now }
{
    u32_at(bytes, optional_place(bytes) + 32)
}

/// The optional header's FileAlignment.
#[tactic(auto, unfolding(crate::specs::Headers::file_alignment))]
pub fn file_alignment(bytes: &[u8]) -> u32
    ensures { result ≡ file_alignment bytes.now }
{
    u32_at(bytes, optional_place(bytes) + 36)
}

/// The bytes of the image (SizeOfImage).
#[tactic(auto, unfolding(crate::specs::Headers::image_size))]
pub fn image_size(bytes: &[u8]) -> u32
    ensures { result ≡ image_size bytes.now }
{
    u32_at(bytes, optional_place(bytes) + 56)
}

/// The bytes of the stack (SizeOfStackReserve).
#[tactic(auto, unfolding(crate::specs::Headers::stack))]
pub fn stack(bytes: &[u8]) -> u64
    ensures { result ≡ stack bytes.now }
{
    u64_at(bytes, optional_place(bytes) + 72)
}

/// How many data directories there are (NumberOfRvaAndSizes).
#[tactic(auto, unfolding(crate::specs::Headers::directory_count))]
pub fn directory_count(bytes: &[u8]) -> u32
    ensures { result ≡ directory_count bytes.now }
{
    u32_at(bytes, optional_place(bytes) + 108)
}

/// The place of data directory d.
#[tactic(auto, unfolding(crate::specs::Headers::directory_rva))]
pub fn directory_rva(bytes: &[u8], d: u32) -> u32
    ensures { result ≡ directory_rva bytes.now d }
{
    u32_at(bytes, optional_place(bytes) + 112 + 8 * d as usize)
}

/// The bytes of data directory d.
#[tactic(auto, unfolding(crate::specs::Headers::directory_size))]
pub fn directory_size(bytes: &[u8], d: u32) -> u32
    ensures { result ≡ directory_size bytes.now d }
{
    u32_at(bytes, optional_place(bytes) + 116 + 8 * d as usize)
}

/// Where the header of section i stands.
#[tactic(auto, unfolding(crate::specs::Headers::section_place))]
pub fn section_place(bytes: &[u8], i: u32) -> usize
    ensures value { result ≡ section_place bytes.now i }
    ensures bound { result < 2 ^ 40 }
{
    pe_place(bytes) as usize + 264 + 40 * i as usize
}

/// The bytes of section i in memory (VirtualSize).
#[tactic(auto, unfolding(crate::specs::Headers::virtual_size))]
pub fn virtual_size(bytes: &[u8], i: u32) -> u32
    ensures { result ≡ virtual_size bytes.now i }
{
    u32_at(bytes, section_place(bytes, i) + 8)
}

/// The place of section i (VirtualAddress).
#[tactic(auto, unfolding(crate::specs::Headers::section_rva))]
pub fn section_rva(bytes: &[u8], i: u32) -> u32
    ensures { result ≡ section_rva bytes.now i }
{
    u32_at(bytes, section_place(bytes, i) + 12)
}

/// The bytes of section i in the file (SizeOfRawData).
#[tactic(auto, unfolding(crate::specs::Headers::raw_size))]
pub fn raw_size(bytes: &[u8], i: u32) -> u32
    ensures { result ≡ raw_size bytes.now i }
{
    u32_at(bytes, section_place(bytes, i) + 16)
}

/// Where those bytes begin (PointerToRawData).
#[tactic(auto, unfolding(crate::specs::Headers::raw_place))]
pub fn raw_place(bytes: &[u8], i: u32) -> u32
    ensures { result ≡ raw_place bytes.now i }
{
    u32_at(bytes, section_place(bytes, i) + 20)
}

/// The flags of section i (Characteristics).
#[tactic(auto, unfolding(crate::specs::Headers::section_flags))]
pub fn section_flags(bytes: &[u8], i: u32) -> u32
    ensures { result ≡ section_flags bytes.now i }
{
    u32_at(bytes, section_place(bytes, i) + 36)
}

/// The name of section i, without what follows a zero.
#[tactic(auto, unfolding(crate::specs::Headers::section_name))]
fn section_name(bytes: &[u8], i: u32) -> &[u8]
    ensures { result.now ≡ section_name bytes.now i }
{
    before_zero(part(bytes, section_place(bytes, i), 8))
}

/// The contents of section i, cut to its bytes in memory.
#[tactic(auto, unfolding(crate::specs::Headers::section_bytes))]
fn section_bytes(bytes: &[u8], i: u32) -> &[u8]
    ensures { result.now ≡ section_bytes bytes.now i }
{
    let len = raw_size(bytes, i).min(virtual_size(bytes, i));
    part(bytes, raw_place(bytes, i) as usize, len as usize)
}

/// Section i.
#[tactic(auto, unfolding(crate::specs::Headers::section))]
fn section(alloc: Global, bytes: &[u8], i: u32) -> Result<ImageSection, AllocError>
    ensures { IfOk result (λ s. s ≡ section bytes.now i) }
{
    let name = Items::from_slice(alloc, section_name(bytes, i))?;
    let contents = Items::from_slice(alloc, section_bytes(bytes, i))?;
    Ok(ImageSection {
        name,
        rva: section_rva(bytes, i),
        size: virtual_size(bytes, i),
        flags: section_flags(bytes, i),
        bytes: contents,
    })
}

/// The sections, in order.
#[tactic(auto, using(file_words::proofs::BelowLaws::table_step, file_words::proofs::BelowLaws::table_none), unfolding(crate::specs::Headers::sections))]
pub fn sections(alloc: Global, bytes: &[u8]) -> Result<Items<ImageSection>, AllocError>
    ensures { IfOk result (λ ss. ss ≡ sections bytes.now) }
{
    let mut sections = Items::new(alloc);
    for i in 0..section_count(bytes) as u32 {
        sections.push(section(alloc, bytes, i)?)?;
    }
    Ok(sections)
}
