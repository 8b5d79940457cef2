//! What a number of 32 bits at a site becomes, by its kind.
//!
//! Sites and targets are places in the image, in bytes from its base.

ghost use Rattle.std.specs.Prelude.{◌≡◌, ◌<◌, ◌-◌, ◌+◌, ◌^◌, ◌+ℤ◌, ◌-ℤ◌, ◌≤ℤ◌, ◌≤◌, pos, neg_ℤ, IfOk};
ghost use Rattle.hx_words.specs.TwosComplement.{signed_of, bits_of};
ghost use Rattle.link_reloc.specs.Sites.{within, within_signed, place_of, relative_of, branch_of, page_base_of, page_offset_of, access_offset_of};

use crate::refusal::RelocRefusal;
use hx_bits::{field, put_field};

/// The place of the target (`IMAGE_REL_*_ADDR32NB`), with the signed number of the word added.
pub(crate) fn place(word: u32, target: u64) -> Result<u32, RelocRefusal>
    requires { target < 2 ^ 32 }
    ensures { result ≡ place_of target word }
{
    let value = target as i64 + signed(word);
    if value < 0 || value > 0xffff_ffff {
        return Err(RelocRefusal::OutOfReach(value));
    }
    Ok(value as u32)
}

/// The distance from the end of the site (`IMAGE_REL_AMD64_REL32`), with the signed number of the word added.
pub(crate) fn relative(word: u32, site: u64, target: u64) -> Result<u32, RelocRefusal>
    requires low_site { site < 2 ^ 32 }
    requires low_target { target < 2 ^ 32 }
    ensures { result ≡ relative_of site target word }
{
    signed_bits::<32>(from_the_end(word, site, target))
}

// The distance from the end of a site of four bytes, and the signed number of the word.
fn from_the_end(word: u32, site: u64, target: u64) -> i64
    requires low_site { site < 2 ^ 32 }
    requires low_target { target < 2 ^ 32 }
    ensures { result ≡ pos target -ℤ pos (site + 4) +ℤ signed_of 32 word }
{
    target as i64 - (site as i64 + 4) + signed(word)
}

/// The distance in words, in imm26 (`IMAGE_REL_ARM64_BRANCH26`).
pub(crate) fn branch(word: u32, site: u64, target: u64) -> Result<u32, RelocRefusal>
    requires low_site { site < 2 ^ 32 }
    requires low_target { target < 2 ^ 32 }
    ensures { result ≡ branch_of site target word }
{
    if field::<0, 26>(word) != 0 {
        return Err(RelocRefusal::Addend);
    }
    let distance = target as i64 - site as i64;
    if distance % 4 != 0 {
        return Err(RelocRefusal::Misaligned(distance));
    }
    let bits = signed_bits::<26>(distance / 4)?;
    Ok(put_field::<0, 26>(word, bits))
}

/// The distance in pages of 4 KiB, in immhi and immlo (`IMAGE_REL_ARM64_PAGEBASE_REL21`).
pub(crate) fn page_base(word: u32, site: u64, target: u64) -> Result<u32, RelocRefusal>
    requires low_site { site < 2 ^ 32 }
    requires low_target { target < 2 ^ 32 }
    ensures { result ≡ page_base_of site target word }
{
    if field::<29, 2>(word) != 0 || field::<5, 19>(word) != 0 {
        return Err(RelocRefusal::Addend);
    }
    let pages = (target / 4096) as i64 - (site / 4096) as i64;
    let bits = signed_bits::<21>(pages)?;
    Ok(put_field::<29, 2>(put_field::<5, 19>(word, bits / 4), bits % 4))
}

/// The place in its page, in imm12 (`IMAGE_REL_ARM64_PAGEOFFSET_12A`).
pub(crate) fn page_offset(word: u32, target: u64) -> Result<u32, RelocRefusal>
    ensures { result ≡ page_offset_of target word }
{
    if field::<10, 12>(word) != 0 {
        return Err(RelocRefusal::Addend);
    }
    Ok(put_field::<10, 12>(word, (target % 4096) as u32))
}

/// The place in its page, in accesses, in imm12 (`IMAGE_REL_ARM64_PAGEOFFSET_12L`).
pub(crate) fn access_offset(word: u32, target: u64) -> Result<u32, RelocRefusal>
    ensures { result ≡ access_offset_of target word }
{
    if field::<10, 12>(word) != 0 {
        return Err(RelocRefusal::Addend);
    }
    let offset = (target % 4096) as u32;
    let size = 1u32 << field::<30, 2>(word);
    if offset % size != 0 {
        return Err(RelocRefusal::Misaligned(i64::from(offset)));
    }
    Ok(put_field::<10, 12>(word, offset / size))
}

// The number that a word stands for.
fn signed(word: u32) -> i64
    ensures value { result ≡ signed_of 32 word }
    ensures low { neg_ℤ (pos (2 ^ 31)) ≤ℤ result }
    ensures high { result ≤ℤ pos (2 ^ 31 - 1) }
{
    if word < 0x8000_0000 {
        i64::from(word)
    } else {
        i64::from(word) - 0x1_0000_0000
    }
}

// The LEN bits of a signed number.
fn signed_bits<const LEN: u32>(value: i64) -> Result<u32, RelocRefusal>
    requires some { 0 < LEN }
    requires in_word { LEN ≤ 32 }
    ensures value { result ≡ within_signed LEN value (λ z. bits_of LEN z) }
    ensures bound { IfOk result (λ bits. bits < 2 ^ LEN) }
{
    let half = 1i64 << (LEN - 1);
    if value < -half || value >= half {
        return Err(RelocRefusal::OutOfReach(value));
    }
    if value < 0 {
        Ok((value + 2 * half) as u32)
    } else {
        Ok(value as u32)
    }
}
