ghost use Rattle.std.specs.Prelude.{◌≡◌, [], OnOk, IfOk, slice_get};
ghost use Rattle.c_types.specs.Layout.{extent_of};
ghost use Rattle.c_typing.specs.Visits.{Leaves, Tells};
ghost use Rattle.c_typing.specs.TypeForms.{most_bytes, is_within, place_in, grown};
ghost use Rattle.c_typing.specs.Structs.{is_field, visit_field, visit_field_decls, visit_fields, struct_named, unknown_struct, begin_struct, same_fields, completed, is_complete, with_fields, end_struct, visit_struct};
ghost use Rattle.c_typing.specs.UnitVisits.{with_scope};
ghost use Rattle.c_typing.specs.Scopes.{tag_in};
ghost use Rattle.named_rows.specs.Places.{AreDistinct};
ghost use Rattle.check_decls.specs.Steps.{tag_name, completed_at, compared_fields};

use c_tree::{Base, Decl, Field, Name};
use c_types::{FieldDef, StructDef, Ty};
use c_typing::{ByName, Progress, Refusal, Tables, TypeKind, UnitScope, UnitTag};
use check_types::{MOST_BYTES, declared_type_of, find_tag, is_same_type, refusal, small_place};
use hx_words::Items;
use measured_types::MeasuredTypes;
use named_rows::NamedRows;
use std::alloc::{AllocError, Global};

fn has_field(fields: &[FieldDef], name: &[u8]) -> bool
    ensures { result ≡ is_field fields.now name.now }
{
    fields.iter().any(|f| f.name.as_slice() == name)
}

/// A field, by a field's declarator, behind those so far.
#[tactic(auto, unfolding(c_typing::specs::Structs::visit_field, c_typing::specs::Visits::followed, c_typing::specs::Visits::give, c_typing::specs::Visits::refuse))]
fn with_field(
    alloc: Global,
    unit: &UnitScope,
    base: &Base,
    fields: Items<FieldDef>,
    decl: &Decl,
    tables: &mut Tables,
) -> Result<Items<FieldDef>, Refusal>
    ensures { Leaves (visit_field unit.now base.now fields decl.now tables.old) result tables.new }
{
    if has_field(fields.as_slice(), decl.name.text.as_slice()) {
        return Err(refusal(TypeKind::Redeclared, decl.name.span.start));
    }
    let ty = declared_type_of(unit, base, decl, tables)?;
    let name = Items::from_slice(alloc, decl.name.text.as_slice())?;
    let mut fields = fields;
    fields.push(FieldDef { name, ty })?;
    Ok(fields)
}

/// The fields of one type, behind those so far.
#[tactic(auto, unfolding(c_typing::specs::Structs::visit_field_decls, c_typing::specs::Visits::followed, c_typing::specs::Visits::give))]
fn with_field_decls(
    alloc: Global,
    unit: &UnitScope,
    base: &Base,
    fields: Items<FieldDef>,
    decls: &[Decl],
    tables: &mut Tables,
) -> Result<Items<FieldDef>, Refusal>
    ensures { Leaves (visit_field_decls unit.now base.now fields decls.now tables.old) result tables.new }
{
    let mut fields = fields;
    for decl in decls {
        fields = with_field(alloc, unit, base, fields, decl, tables)?;
    }
    Ok(fields)
}

/// The fields of a struct's definition.
#[tactic(auto, unfolding(c_typing::specs::Structs::visit_fields, c_typing::specs::Visits::followed, c_typing::specs::Visits::give))]
fn struct_fields(
    alloc: Global,
    unit: &UnitScope,
    groups: &[Field],
    tables: &mut Tables,
) -> Result<Items<FieldDef>, Refusal>
    ensures { Leaves (visit_fields unit.now [] groups.now tables.old) result tables.new }
{
    let mut fields = Items::new(alloc);
    for group in groups {
        let decls = group.decls.as_slice();
        fields = with_field_decls(alloc, unit, &group.base, fields, decls, tables)?;
    }
    Ok(fields)
}

fn new_struct(alloc: Global, name: &[u8]) -> Result<StructDef, AllocError>
    ensures { IfOk result (λ s. s ≡ unknown_struct name.now) }
{
    Ok(StructDef {
        tag: Items::from_slice(alloc, name)?,
        fields: Items::new(alloc),
        complete: false,
    })
}

/// The place of the struct of this tag, which gets the next one where there is none yet.
fn enter_struct(alloc: Global, name: &[u8], types: &mut MeasuredTypes) -> Result<u32, Refusal>
    ensures place { Tells (Ok (place_in types.old.structs (struct_named types.old.structs name.now))) result }
    ensures grown { OnOk result (types.new ≡ record types.old { structs = grown types.old.structs (unknown_struct name.now) (struct_named types.old.structs name.now) }) }
{
    match types.find_struct(name) {
        Some(place) => Ok(small_place(place)?),
        None => {
            let place = small_place(types.as_types().structs.len())?;
            types.push_struct(new_struct(alloc, name)?)?;
            Ok(place)
        }
    }
}

/// A tag in scope from its name on (C11, 6.2.1p7): the place of its struct.
#[tactic(auto, unfolding(c_typing::specs::Structs::begin_struct))]
fn begin(alloc: Global, name: &[u8], state: &mut Progress) -> Result<u32, Refusal>
    ensures { Leaves (begin_struct name.now state.old) result state.new }
{
    if let Some(tag) = find_tag(&state.scope, name) {
        return Ok(tag.place);
    }
    let place = enter_struct(alloc, name, &mut state.tables.types)?;
    let tag = UnitTag {
        name: Items::from_slice(alloc, name)?,
        place,
        complete: false,
    };
    state.scope.tags.push(tag)?;
    Ok(place)
}

#[tactic(auto, using(crate::proofs::FieldLaws::same_counts))]
fn are_same_fields(left: &[FieldDef], right: &[FieldDef]) -> bool
    ensures { result ≡ same_fields left.now right.now }
{
    if left.len() != right.len() {
        return false;
    }
    for (k, field) in left.iter().enumerate() {
        if field.name.as_slice() != right[k].name.as_slice()
            || !is_same_type(field.ty, right[k].ty)
        {
            return false;
        }
    }
    true
}

/// The tag at a place, complete where it has this name.
fn complete_at(
    alloc: Global,
    name: &[u8],
    at: usize,
    tags: &mut NamedRows<UnitTag, ByName>,
) -> Result<(), AllocError>
    ensures { OnOk result (tags.new ≡ completed_at name.now at tags.old) }
{
    let Some(tag) = tags.get(at) else {
        return Ok(());
    };
    if tag.name.as_slice() != name {
        return Ok(());
    }
    let tag = UnitTag {
        name: Items::from_slice(alloc, tag.name.as_slice())?,
        place: tag.place,
        complete: true,
    };
    tags.set(at, tag);
    Ok(())
}

/// Each tag of this name complete, by a walk.
#[tactic(auto, using(crate::proofs::FieldLaws::one_completed, crate::proofs::FieldLaws::all_completed))]
fn complete_each(
    alloc: Global,
    name: &[u8],
    tags: &mut NamedRows<UnitTag, ByName>,
) -> Result<(), AllocError>
    ensures { OnOk result (tags.new ≡ completed tags.old name.now) }
{
    for at in 0..tags.len() {
        complete_at(alloc, name, at, tags)?;
    }
    Ok(())
}

/// The tag of this name complete, where each name stands once.
#[tactic(auto, using(crate::proofs::TagLaws::one_tag, crate::proofs::TagLaws::no_tag))]
fn complete_only(
    alloc: Global,
    name: &[u8],
    tags: &mut NamedRows<UnitTag, ByName>,
) -> Result<(), AllocError>
    requires { AreDistinct tag_name tags.old }
    ensures { OnOk result (tags.new ≡ completed tags.old name.now) }
{
    match tags.find(name) {
        Some(at) => {
            complete_at(alloc, name, at, tags)?;
            Ok(())
        }
        None => Ok(()),
    }
}

fn complete_tags(
    alloc: Global,
    name: &[u8],
    tags: &mut NamedRows<UnitTag, ByName>,
) -> Result<(), AllocError>
    ensures { OnOk result (tags.new ≡ completed tags.old name.now) }
{
    if tags.are_distinct() {
        return complete_only(alloc, name, tags);
    }
    complete_each(alloc, name, tags)
}

fn is_small(types: &MeasuredTypes, place: u32) -> bool
    ensures { result ≡ is_within most_bytes (extent_of types.now (Ty.Struct place)) }
{
    match types.layout(Ty::Struct(place)) {
        Some(extent) => extent.size <= MOST_BYTES,
        None => false,
    }
}

/// The fields of a struct that has none yet.
fn give_fields(
    alloc: Global,
    at: u32,
    name: &[u8],
    place: u32,
    fields: Items<FieldDef>,
    state: &mut Progress,
) -> Result<(), Refusal>
    ensures { Leaves (with_fields at name.now place fields state.old) result state.new }
{
    let definition = StructDef {
        tag: Items::from_slice(alloc, name)?,
        fields,
        complete: true,
    };
    state.tables.types.set_struct(place as usize, definition);
    if !is_small(&state.tables.types, place) {
        return Err(refusal(TypeKind::BadType, at));
    }
    complete_tags(alloc, name, &mut state.scope.tags)?;
    Ok(())
}

/// Whether these are the fields of the struct at this place; none where it has no fields yet.
fn compare_fields(structs: &[StructDef], place: u32, fields: &[FieldDef]) -> Option<bool>
    ensures { result ≡ compared_fields fields.now (slice_get structs.now place) }
{
    match structs.get(place as usize) {
        Some(s) if s.complete => Some(are_same_fields(s.fields.as_slice(), fields)),
        _ => None,
    }
}

/// The end of a struct's definition: one in a unit, and alike in all (C11, 6.2.7p1).
#[tactic(auto, unfolding(c_typing::specs::Structs::end_struct))]
fn end(
    alloc: Global,
    at: u32,
    name: &[u8],
    place: u32,
    fields: Items<FieldDef>,
    state: &mut Progress,
) -> Result<(), Refusal>
    ensures { Leaves (end_struct at name.now place fields state.old) result state.new }
{
    if is_complete_tag(&state.scope, name) {
        return Err(refusal(TypeKind::Redeclared, at));
    }
    match compare_fields(
        state.tables.types.as_types().structs.as_slice(),
        place,
        fields.as_slice(),
    ) {
        Some(true) => {
            complete_tags(alloc, name, &mut state.scope.tags)?;
            Ok(())
        }
        Some(false) => Err(refusal(TypeKind::Redeclared, at)),
        None => Ok(give_fields(alloc, at, name, place, fields, state)?),
    }
}

fn is_complete_tag(unit: &UnitScope, name: &[u8]) -> bool
    ensures { result ≡ is_complete (tag_in unit.now.tags name.now) }
{
    match find_tag(unit, name) {
        Some(tag) => tag.complete,
        None => false,
    }
}

#[tactic(auto, unfolding(c_typing::specs::UnitVisits::with_scope))]
fn fields_in_scope(
    alloc: Global,
    groups: &[Field],
    state: &mut Progress,
) -> Result<Items<FieldDef>, Refusal>
    ensures { Leaves (with_scope (λ unit. visit_fields unit [] groups.now) state.old) result state.new }
{
    let fields = struct_fields(alloc, &state.scope, groups, &mut state.tables)?;
    Ok(fields)
}

/// A struct's definition (C11, 6.7.2.1).
///
/// # Errors
///
/// The first fault in it, or want of memory.
#[tactic(auto, unfolding(c_typing::specs::Structs::visit_struct, c_typing::specs::Visits::followed))]
pub fn define_struct(
    alloc: Global,
    name: &Name,
    groups: &[Field],
    state: &mut Progress,
) -> Result<(), Refusal>
    ensures { Leaves (visit_struct name.now groups.now state.old) result state.new }
{
    let place = begin(alloc, name.text.as_slice(), state)?;
    let fields = fields_in_scope(alloc, groups, state)?;
    end(
        alloc,
        name.span.start,
        name.text.as_slice(),
        place,
        fields,
        state,
    )?;
    Ok(())
}
