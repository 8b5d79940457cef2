//! The tests of the data directories, in a file whose sections are known.

ghost use Rattle.std.specs.Prelude.{◌≡◌, false};
ghost use Rattle.file_words.specs.Below.{any_below};
ghost use Rattle.pe_fields.specs.Headers.{sections as file_sections};
ghost use Rattle.pe_read.specs.Refusals.{is_known, bad_use, bad_directory, bad_import, bad_base_relocation, bad_load_config, header_rva};

use crate::headers::is_used;
use chpe_types::ImageSection;
use pe_fields::headers::{base, directory_count, directory_rva, directory_size};
use pe_fields::hybrid::{config_fails, meta_rva};
use pe_fields::imports::imports_fail;
use pe_fields::relocations::relocations_fail;
use pe_fields::space::{is_mapped, rest_at};

/// Whether images here have a data directory d: the imports, the base relocations or the load
/// configuration.
fn is_known(d: u32) -> bool
    ensures { result ≡ is_known d }
{
    d == 1 || d == 5 || d == 10
}

/// Whether data directory d is used, and is another one or lies outside a section.
#[tactic(auto, unfolding(crate::specs::Refusals::bad_use))]
fn use_fails(bytes: &[u8], sections: &[ImageSection], d: u32) -> bool
    requires { sections.now ≡ file_sections bytes.now }
    ensures { result ≡ bad_use bytes.now d }
{
    let place = directory_rva(bytes, d) as u64;
    let size = directory_size(bytes, d) as u64;
    is_used(bytes, d) && (!is_known(d) || !is_mapped(sections, place, size))
}

#[tactic(auto, using(file_words::proofs::BelowLaws::any_none, file_words::proofs::BelowLaws::any_step))]
fn any_use_fails(bytes: &[u8], sections: &[ImageSection]) -> bool
    requires { sections.now ≡ file_sections bytes.now }
    ensures { result ≡ any_below (bad_use bytes.now) 16 }
{
    let mut fails = false;
    for d in 0..16 {
        fails |= use_fails(bytes, sections, d);
    }
    fails
}

/// Whether there aren't 16 data directories, or one is used that can't be.
#[tactic(auto, unfolding(crate::specs::Refusals::bad_directory))]
pub fn directory_fails(bytes: &[u8], sections: &[ImageSection]) -> bool
    requires { sections.now ≡ file_sections bytes.now }
    ensures { result ≡ bad_directory bytes.now }
{
    directory_count(bytes) != 16 || any_use_fails(bytes, sections)
}

/// Whether the import directory is used and can't be read.
#[tactic(auto, unfolding(crate::specs::Refusals::bad_import))]
pub fn import_fails(bytes: &[u8], sections: &[ImageSection]) -> bool
    requires { sections.now ≡ file_sections bytes.now }
    ensures { result ≡ bad_import bytes.now }
{
    is_used(bytes, 1) && imports_fail(sections, directory_rva(bytes, 1), directory_size(bytes, 1))
}

/// Whether the base relocations are used and can't be read.
#[tactic(auto, unfolding(crate::specs::Refusals::bad_base_relocation))]
pub fn base_relocation_fails(bytes: &[u8], sections: &[ImageSection]) -> bool
    requires { sections.now ≡ file_sections bytes.now }
    ensures { result ≡ bad_base_relocation bytes.now }
{
    let blocks = rest_at(sections, directory_rva(bytes, 5) as u64);
    is_used(bytes, 5) && relocations_fail(blocks, directory_size(bytes, 5))
}

/// Whether no load configuration leads to a section.
#[tactic(auto, unfolding(crate::specs::Refusals::bad_load_config))]
pub fn load_config_fails(bytes: &[u8], sections: &[ImageSection]) -> bool
    requires { sections.now ≡ file_sections bytes.now }
    ensures { result ≡ bad_load_config bytes.now }
{
    let place = directory_rva(bytes, 10);
    let size = directory_size(bytes, 10);
    !is_used(bytes, 10) || config_fails(sections, base(bytes), place, size)
}

/// The place of the metadata's header, where a load configuration leads to it.
#[tactic(auto, using(crate::proofs::MetaLaws::header_fits), unfolding(crate::specs::Refusals::header_rva))]
pub fn header_rva(bytes: &[u8], sections: &[ImageSection]) -> u32
    requires known { sections.now ≡ file_sections bytes.now }
    requires good { bad_load_config bytes.now ≡ false }
    ensures { result ≡ header_rva bytes.now }
{
    meta_rva(sections, base(bytes), directory_rva(bytes, 10)) as u32
}
