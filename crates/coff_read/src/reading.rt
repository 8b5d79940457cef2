//! The reader.

ghost use Rattle.std.specs.Prelude.{◌≡◌, ◌≢◌, ◌+◌, ◌*◌, ◌<◌, ◌≤◌, find, None, false, IfOk};
ghost use Rattle.file_words.specs.Firsts.{NoneHolds, IsFirst};
ghost use Rattle.coff_read.specs.declared.refusal.ObjRefusal.{ObjRefusal as Refusal};
ghost use Rattle.coff_read.specs.declared.refusal.ObjRefusal.TheVariants.{NoMemory};
ghost use Rattle.coff_read.specs.Refusals.{bad_comdat, holds, refusals};
ghost use Rattle.coff_read.specs.Objects.{object_in, object_of, Tells};
ghost use Rattle.coff_read.specs.Stages.{early_refusals, row_refusals};

use crate::building::build;
use crate::comdat::comdat_fails;
use crate::hybrid::hybrid_fails;
use crate::kept::{able_symbols, kept_symbols, named_symbols, symbol_numbers};
use crate::kinds::{name_range_fails, symbol_kind_fails};
use crate::ranges::{
    has_optional_header, is_big_object, is_short, is_too_large, machine_fails, section_range_fails,
    symbol_range_fails,
};
use crate::refusal::ObjRefusal;
use crate::relocations::{relocation_kind_fails, relocation_place_fails, relocation_range_fails};
use coff_write::Object;
use std::alloc::Global;

/// The first refusal of those that need no table of the file's symbols.
fn early_refusal(bytes: &[u8]) -> Option<ObjRefusal>
    ensures { result ≡ find (holds bytes.now) early_refusals }
{
    if is_too_large(bytes) {
        return Some(ObjRefusal::TooLarge);
    }
    if is_short(bytes) {
        return Some(ObjRefusal::Short);
    }
    if is_big_object(bytes) {
        return Some(ObjRefusal::BigObject);
    }
    if machine_fails(bytes) {
        return Some(ObjRefusal::Machine);
    }
    if has_optional_header(bytes) {
        return Some(ObjRefusal::OptionalHeader);
    }
    if section_range_fails(bytes) {
        return Some(ObjRefusal::SectionRange);
    }
    if symbol_range_fails(bytes) {
        return Some(ObjRefusal::SymbolRange);
    }
    if name_range_fails(bytes) {
        return Some(ObjRefusal::NameRange);
    }
    if symbol_kind_fails(bytes) {
        return Some(ObjRefusal::SymbolKind);
    }
    None
}

/// The first refusal of those of relocation records by themselves.
fn row_refusal(bytes: &[u8]) -> Option<ObjRefusal>
    ensures { result ≡ find (holds bytes.now) row_refusals }
{
    if relocation_range_fails(bytes) {
        return Some(ObjRefusal::RelocationRange);
    }
    if relocation_kind_fails(bytes) {
        return Some(ObjRefusal::RelocationKind);
    }
    None
}

/// The object of a file whose symbols and relocation records can be read.
#[tactic(auto, using(crate::proofs::StageLaws::homes_known, crate::proofs::StageLaws::place_refused, crate::proofs::StageLaws::hybrid_refused, crate::proofs::StageLaws::is_read))]
fn read_places(alloc: Global, bytes: &[u8]) -> Result<Object, ObjRefusal>
    requires early { find (holds bytes.now) early_refusals ≡ None }
    requires comdat { bad_comdat bytes.now ≡ false }
    requires rows { find (holds bytes.now) row_refusals ≡ None }
    ensures { Tells result (object_of bytes.now) }
{
    let able = able_symbols(alloc, bytes)?;
    if relocation_place_fails(bytes, &able) {
        return Err(ObjRefusal::RelocationPlace);
    }
    let named = named_symbols(alloc, bytes)?;
    let kept = kept_symbols(alloc, bytes, &able, &named)?;
    if hybrid_fails(bytes, &kept) {
        return Err(ObjRefusal::HybridRecord);
    }
    let numbers = symbol_numbers(alloc, bytes, &kept)?;
    let object = build(alloc, bytes, &kept, &numbers)?;
    Ok(object)
}

/// The object of a file whose symbols can be read.
#[tactic(auto, using(crate::proofs::StageLaws::comdat_refused, crate::proofs::StageLaws::rows_refused))]
fn read_sections(alloc: Global, bytes: &[u8]) -> Result<Object, ObjRefusal>
    requires { find (holds bytes.now) early_refusals ≡ None }
    ensures { Tells result (object_of bytes.now) }
{
    if comdat_fails(alloc, bytes)? {
        return Err(ObjRefusal::Comdat);
    }
    match row_refusal(bytes) {
        Some(refusal) => Err(refusal),
        None => read_places(alloc, bytes),
    }
}

#[tactic(auto, using(crate::proofs::StageLaws::early_refused))]
fn read_all(alloc: Global, bytes: &[u8]) -> Result<Object, ObjRefusal>
    ensures { Tells result (object_of bytes.now) }
{
    match early_refusal(bytes) {
        Some(refusal) => Err(refusal),
        None => read_sections(alloc, bytes),
    }
}

/// The object in a file, or the first refusal of the list that holds anywhere in the file. Only
/// want of memory may come in the place of either.
pub fn read(alloc: Global, bytes: &[u8]) -> Result<Object, ObjRefusal>
    ensures exact { Tells result (object_of bytes.now) }
    // A refusal holds in the file, and nothing before it in the list does.
    ensures refused { (k : Refusal) → result ≡ Err k → k ≢ NoMemory → IsFirst (holds bytes.now) refusals k }
    // What is accepted has none of them, and is the object of the file.
    ensures accepted { IfOk result (λ o. NoneHolds (holds bytes.now) refusals × (o ≡ object_in bytes.now)) }
{
    read_all(alloc, bytes)
}
