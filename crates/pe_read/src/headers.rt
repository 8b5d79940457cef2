//! The tests of the headers and the section table.

ghost use Rattle.std.specs.Prelude.{◌≡◌, ◌+◌, ◌*◌, ◌<◌};
ghost use Rattle.pe_read.specs.Refusals.{too_large, short, bad_dos_magic, bad_place, bad_magic, bad_machine, bad_optional_size, bad_optional_magic, bad_alignment, bad_image_size, bad_stack, bad_section_table, first_place, bad_home, bad_contents, has_flag, bad_rights, bad_section, bad_section_range, is_used};

use pe_fields::headers::{
    directory_rva, dos_magic, file_alignment, image_size, machine, optional_magic, optional_size,
    pe_magic, pe_place, raw_place, raw_size, section_alignment, section_count, section_flags,
    section_place, section_rva, stack, virtual_size,
};

/// The most bytes that a file or an image may have.
const LIMIT: usize = 134_217_728;

#[tactic(auto, unfolding(crate::specs::Refusals::too_large))]
pub fn is_too_large(bytes: &[u8]) -> bool
    ensures { result ≡ too_large bytes.now }
{
    bytes.len() > LIMIT
}

#[tactic(auto, unfolding(crate::specs::Refusals::short))]
pub fn is_short(bytes: &[u8]) -> bool
    ensures { result ≡ short bytes.now }
{
    bytes.len() < 64
}

#[tactic(auto, unfolding(crate::specs::Refusals::bad_dos_magic))]
pub fn dos_magic_fails(bytes: &[u8]) -> bool
    ensures { result ≡ bad_dos_magic bytes.now }
{
    dos_magic(bytes) != 0x5A4D
}

#[tactic(auto, unfolding(crate::specs::Refusals::bad_place))]
pub fn place_fails(bytes: &[u8]) -> bool
    ensures { result ≡ bad_place bytes.now }
{
    pe_place(bytes) % 8 != 0 || bytes.len() < pe_place(bytes) as usize + 264
}

#[tactic(auto, unfolding(crate::specs::Refusals::bad_magic))]
pub fn magic_fails(bytes: &[u8]) -> bool
    ensures { result ≡ bad_magic bytes.now }
{
    pe_magic(bytes) != 0x4550
}

#[tactic(auto, unfolding(crate::specs::Refusals::bad_machine))]
pub fn machine_fails(bytes: &[u8]) -> bool
    ensures { result ≡ bad_machine bytes.now }
{
    machine(bytes) != 0x8664
}

#[tactic(auto, unfolding(crate::specs::Refusals::bad_optional_size))]
pub fn optional_size_fails(bytes: &[u8]) -> bool
    ensures { result ≡ bad_optional_size bytes.now }
{
    optional_size(bytes) != 240
}

#[tactic(auto, unfolding(crate::specs::Refusals::bad_optional_magic))]
pub fn optional_magic_fails(bytes: &[u8]) -> bool
    ensures { result ≡ bad_optional_magic bytes.now }
{
    optional_magic(bytes) != 0x20B
}

#[tactic(auto, unfolding(crate::specs::Refusals::bad_alignment))]
pub fn alignment_fails(bytes: &[u8]) -> bool
    ensures { result ≡ bad_alignment bytes.now }
{
    section_alignment(bytes) != 4096 || file_alignment(bytes) != 512
}

#[tactic(auto, unfolding(crate::specs::Refusals::bad_image_size))]
pub fn image_size_fails(bytes: &[u8]) -> bool
    ensures { result ≡ bad_image_size bytes.now }
{
    let size = image_size(bytes);
    size == 0 || size % 4096 != 0 || size as usize > LIMIT
}

#[tactic(auto, unfolding(crate::specs::Refusals::bad_stack))]
pub fn stack_fails(bytes: &[u8]) -> bool
    ensures { result ≡ bad_stack bytes.now }
{
    let stack = stack(bytes);
    stack % 4096 != 0 || stack > 268_435_456
}

#[tactic(auto, unfolding(crate::specs::Refusals::bad_section_table))]
pub fn section_table_fails(bytes: &[u8]) -> bool
    ensures { result ≡ bad_section_table bytes.now }
{
    let count = section_count(bytes) as u32;
    count == 0 || count > 94 || bytes.len() < section_place(bytes, count)
}

/// The first place that section i may have.
#[tactic(auto, unfolding(crate::specs::Refusals::first_place))]
fn first_place(bytes: &[u8], i: u32) -> u64
    ensures { result ≡ first_place bytes.now i }
{
    if i == 0 {
        4096
    } else {
        section_rva(bytes, i - 1) as u64 + virtual_size(bytes, i - 1) as u64
    }
}

#[tactic(auto, unfolding(crate::specs::Refusals::bad_home))]
fn home_fails(bytes: &[u8], i: u32) -> bool
    ensures { result ≡ bad_home bytes.now i }
{
    let rva = section_rva(bytes, i) as u64;
    let size = virtual_size(bytes, i) as u64;
    rva % 4096 != 0
        || rva < first_place(bytes, i)
        || size == 0
        || (image_size(bytes) as u64) < rva + size
}

#[tactic(auto, unfolding(crate::specs::Refusals::bad_contents))]
fn contents_fail(bytes: &[u8], i: u32) -> bool
    ensures { result ≡ bad_contents bytes.now i }
{
    let size = raw_size(bytes, i) as u64;
    let most = (virtual_size(bytes, i) as u64 + 511) / 512 * 512;
    (bytes.len() as u64) < raw_place(bytes, i) as u64 + size || most < size
}

#[tactic(auto, unfolding(crate::specs::Refusals::has_flag))]
fn has_flag(bytes: &[u8], i: u32, flag: u32) -> bool
    ensures { result ≡ has_flag bytes.now i flag }
{
    section_flags(bytes, i) & flag != 0
}

#[tactic(auto, unfolding(crate::specs::Refusals::bad_rights))]
fn rights_fail(bytes: &[u8], i: u32) -> bool
    ensures { result ≡ bad_rights bytes.now i }
{
    has_flag(bytes, i, 0x8000_0000) && has_flag(bytes, i, 0x2000_0000)
}

#[tactic(auto, unfolding(crate::specs::Refusals::bad_section))]
fn section_fails(bytes: &[u8], i: u32) -> bool
    ensures { result ≡ bad_section bytes.now i }
{
    home_fails(bytes, i) || contents_fail(bytes, i) || rights_fail(bytes, i)
}

#[tactic(auto, using(file_words::proofs::BelowLaws::any_none, file_words::proofs::BelowLaws::any_step), unfolding(crate::specs::Refusals::bad_section_range))]
pub fn section_range_fails(bytes: &[u8]) -> bool
    ensures { result ≡ bad_section_range bytes.now }
{
    let mut fails = false;
    for i in 0..section_count(bytes) as u32 {
        fails |= section_fails(bytes, i);
    }
    fails
}

/// Whether data directory d is used.
#[tactic(auto, unfolding(crate::specs::Refusals::is_used))]
pub fn is_used(bytes: &[u8], d: u32) -> bool
    ensures { result ≡ is_used bytes.now d }
{
    directory_rva(bytes, d) != 0
}
