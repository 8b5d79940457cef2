ghost use Rattle.std.specs.Prelude.{◌≡◌, IfOk};
ghost use Rattle.std.specs.Option.{option_copied};
ghost use Rattle.c_typing.specs.Scopes.{meaning_in, tag_in, in_block, in_blocks, local_meaning, service_named, is_import_slot, of_local, of_unit, named, is_typedef, is_taken};
ghost use Rattle.c_typing.specs.TypeForms.{field_from, field_of};

use c_program::{Place, Service, Target};
use c_types::{FieldDef, Ty, Types};
use c_typing::{
    ByName, Designated, LocalMeaning, LocalName, LocalScope, Meaning, UnitScope, UnitTag,
};
use hx_words::Boxed;
use named_rows::NamedRows;
use std::alloc::{AllocError, Global};

/// What a name that a unit has declared means. It takes no memory.
pub fn find_meaning(unit: &UnitScope, name: &[u8]) -> Option<Meaning>
    ensures { result ≡ meaning_in unit.now.names name.now }
{
    match unit.names.find_row(name) {
        Some(n) => Some(n.meaning),
        None => None,
    }
}

/// A tag that a unit has declared. It takes no memory.
pub fn find_tag<'a>(unit: &'a UnitScope, name: &[u8]) -> Option<&'a UnitTag>
    ensures { option_copied result ≡ tag_in unit.now.tags name.now }
{
    unit.tags.find_row(name)
}

fn first_local(block: &NamedRows<LocalName, ByName>, name: &[u8]) -> Option<LocalMeaning>
    ensures { result ≡ in_block block.now name.now }
{
    match block.find_row(name) {
        Some(n) => Some(n.meaning),
        None => None,
    }
}

/// In blocks of which the last is the innermost.
fn innermost(blocks: &[NamedRows<LocalName, ByName>], name: &[u8]) -> Option<LocalMeaning>
    ensures { result ≡ in_blocks blocks.now name.now }
{
    let mut found = None;
    for block in blocks {
        found = first_local(block, name).or(found);
    }
    found
}

/// What a name of the innermost block means. It takes no memory.
pub fn find_own(locals: &LocalScope, name: &[u8]) -> Option<LocalMeaning>
    ensures { result ≡ in_block locals.now.own name.now }
{
    first_local(&locals.own, name)
}

/// What a name of a block or of one around it means (C11, 6.2.1). It takes no memory.
pub fn find_local(locals: &LocalScope, name: &[u8]) -> Option<LocalMeaning>
    ensures { result ≡ local_meaning locals.now name.now }
{
    find_own(locals, name).or(innermost(locals.outer.as_slice(), name))
}

/// The service of this name.
pub fn find_service(name: &[u8]) -> Option<Service>
    ensures { result ≡ service_named name.now }
{
    if name == b"put_byte".as_slice() {
        Some(Service::PutByte)
    } else if name == b"get_byte".as_slice() {
        Some(Service::GetByte)
    } else if name == b"exit".as_slice() {
        Some(Service::Exit)
    } else {
        None
    }
}

/// Whether a name is one of the import slots that a program could spell.
pub fn is_import_slot_name(name: &[u8]) -> bool
    ensures { result ≡ is_import_slot name.now }
{
    name == b"__imp_put_byte".as_slice()
        || name == b"__imp_get_byte".as_slice()
        || name == b"__imp_exit".as_slice()
        || name == b"__imp_trap".as_slice()
        || name == b"__os_arm64x_check_icall".as_slice()
        || name == b"__os_arm64x_dispatch_call_no_redirect".as_slice()
        || name == b"__os_arm64x_dispatch_ret".as_slice()
}

fn from_local(alloc: Global, meaning: LocalMeaning) -> Result<Designated, AllocError>
    ensures { IfOk result (λ d. d ≡ of_local meaning) }
{
    match meaning {
        LocalMeaning::Variable(number, ty) => {
            let place = Boxed::new(alloc, Place::Local(number))?;
            Ok(Designated::Place(ty, place, true))
        }
        LocalMeaning::VaList => Ok(Designated::VaList),
    }
}

fn from_unit(alloc: Global, meaning: Meaning) -> Result<Designated, AllocError>
    ensures { IfOk result (λ d. d ≡ of_unit meaning) }
{
    match meaning {
        Meaning::Typedef(_) => Ok(Designated::Typedef),
        Meaning::Function(f, ty) => Ok(Designated::Function(ty, Target::Function(f))),
        Meaning::Adjustor(a, ty) => Ok(Designated::Function(ty, Target::Adjustor(a))),
        Meaning::Global(g, ty) => {
            let place = Boxed::new(alloc, Place::Global(g))?;
            Ok(Designated::Place(ty, place, false))
        }
    }
}

/// What a name designates in an expression (C11, 6.5.1); none where it isn't declared.
///
/// # Errors
///
/// Want of memory.
#[tactic(auto, unfolding(c_typing::specs::Scopes::named))]
pub fn designated_name(
    alloc: Global,
    unit: &UnitScope,
    locals: &LocalScope,
    name: &[u8],
) -> Result<Option<Designated>, AllocError>
    ensures { IfOk result (λ d. d ≡ named unit.now locals.now name.now) }
{
    if let Some(meaning) = find_local(locals, name) {
        return Ok(Some(from_local(alloc, meaning)?));
    }
    if let Some(meaning) = find_meaning(unit, name) {
        return Ok(Some(from_unit(alloc, meaning)?));
    }
    match find_service(name) {
        Some(service) => Ok(Some(Designated::Service(service))),
        None => Ok(None),
    }
}

fn is_type_name(meaning: Option<Meaning>) -> bool
    ensures { result ≡ is_typedef meaning }
{
    match meaning {
        Some(Meaning::Typedef(_)) => true,
        Some(Meaning::Function(_, _) | Meaning::Adjustor(_, _) | Meaning::Global(_, _)) => false,
        None => false,
    }
}

/// Whether a local can't have this name: its block has it already, or it is a typedef's or a service's.
#[tactic(auto, unfolding(c_typing::specs::Scopes::is_taken))]
pub fn is_name_taken(unit: &UnitScope, locals: &LocalScope, name: &[u8]) -> bool
    ensures { result ≡ is_taken unit.now locals.now name.now }
{
    find_own(locals, name).is_some()
        || is_type_name(find_meaning(unit, name))
        || find_service(name).is_some()
}

fn first_field(fields: &[FieldDef], name: &[u8]) -> Option<(usize, Ty)>
    ensures { result ≡ field_from 0 fields.now name.now }
{
    for (number, f) in fields.iter().enumerate() {
        if f.name.as_slice() == name {
            return Some((number, f.ty));
        }
    }
    None
}

fn no_field() -> Option<(usize, Ty)>
    ensures { result ≡ None }
{
    None
}

/// The number and the type of the field of this name of the struct at this place; none where there is
/// no such struct or field. It takes no memory.
#[tactic(auto, unfolding(c_typing::specs::TypeForms::field_of))]
pub fn find_field(types: &Types, place: u32, name: &[u8]) -> Option<(usize, Ty)>
    ensures { result ≡ field_of types.now place name.now }
{
    match types.structs.get(place as usize) {
        Some(definition) => first_field(definition.fields.as_slice(), name),
        None => no_field(),
    }
}
