//! One site, filled.

ghost use Rattle.std.specs.Prelude.{◌≡◌, ◌+◌, ◌<◌, ◌≤◌, ◌^◌, length};
ghost use Rattle.hx_bits.specs.Widths.{bytes_in};
ghost use Rattle.hx_words.specs.LittleEndian.{bytes_of};
ghost use Rattle.link_reloc.specs.Sites.{width, held, overwritten, answer_of, after_of, site_of, filled};

use crate::fields::{access_offset, branch, page_base, page_offset, place, relative};
use crate::refusal::RelocRefusal;
use hx_bits::{Width, read_number, write_number};
use hx_names::SiteKind;

/// Fills the site of a kind from byte `at` of the bytes on.
///
/// `site` and `target` are the places of the site and of its target, in bytes from the base of the image, and `base` is
/// the address of the image. A site of `Addr64`, `Addr32Nb` or `Rel32` holds a number that is added; the field of an
/// instruction has to be 0. Bytes outside the site stay, and where the site is refused, all do.
///
/// # Errors
///
/// `Addend` where the field of an instruction is not 0, then `Misaligned` with the number before its division, then
/// `OutOfReach` with the value.
pub fn apply(
    kind: SiteKind,
    bytes: &mut [u8],
    at: usize,
    site: u64,
    target: u64,
    base: u64,
) -> Result<(), RelocRefusal>
    requires inside { at + width kind ≤ length bytes.old }
    requires low_site { site < 2 ^ 32 }
    requires low_target { target < 2 ^ 32 }
    ensures answer { result ≡ answer_of (site_of kind bytes.old at site target base) }
    ensures after { bytes.new ≡ filled kind bytes.old at site target base }
{
    match kind {
        SiteKind::Nothing => Ok(()),
        SiteKind::Addr64 => {
            let number = read_number(&bytes[at..], Width::W64);
            let address = base.wrapping_add(target).wrapping_add(number);
            write_at(bytes, at, Width::W64, address);
            Ok(())
        }
        SiteKind::Addr32Nb => put_word(bytes, at, place(word_at(bytes, at), target)),
        SiteKind::Rel32 => put_word(bytes, at, relative(word_at(bytes, at), site, target)),
        SiteKind::Branch26 => put_word(bytes, at, branch(word_at(bytes, at), site, target)),
        SiteKind::PageBaseRel21 => put_word(bytes, at, page_base(word_at(bytes, at), site, target)),
        SiteKind::PageOffset12A => put_word(bytes, at, page_offset(word_at(bytes, at), target)),
        SiteKind::PageOffset12L => put_word(bytes, at, access_offset(word_at(bytes, at), target)),
    }
}

// The word that four bytes hold.
#[tactic(auto, unfolding(crate::specs::Sites::held))]
fn word_at(bytes: &[u8], at: usize) -> u32
    requires { at + 4 ≤ length bytes.now }
    ensures { result ≡ held 4 bytes.now at }
{
    read_number(&bytes[at..], Width::W32) as u32
}

// Writes the new word of a site, if it has one.
fn put_word(
    bytes: &mut [u8],
    at: usize,
    word: Result<u32, RelocRefusal>,
) -> Result<(), RelocRefusal>
    requires { at + 4 ≤ length bytes.old }
    ensures answer { result ≡ answer_of word }
    ensures after { bytes.new ≡ after_of 4 bytes.old at word }
{
    match word {
        Ok(new) => {
            write_at(bytes, at, Width::W32, u64::from(new));
            Ok(())
        }
        Err(refusal) => Err(refusal),
    }
}

// Writes the low bits of a number to the bytes from a place on.
fn write_at(bytes: &mut [u8], at: usize, w: Width, v: u64)
    requires { at + bytes_in w ≤ length bytes.old }
    ensures { bytes.new ≡ overwritten bytes.old at (bytes_of (bytes_in w) v) }
{
    write_number(&mut bytes[at..], w, v);
}
