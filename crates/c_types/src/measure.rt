//! The walk over a type's parts: brackets in a loop, structs by recursion.
ghost use Rattle.std.specs.Prelude.{◌≡◌, ◌*◌, ◌<◌, false, Some, None, IfSome, slice_get};
ghost use Rattle.c_types.specs.Layout.{empty_struct, fields_from, struct_by, extent_within, extent_of, size_of, align_of, field_place_of, offset_of, IsSmall};
ghost use Rattle.c_types.specs.Rows.{capped, row_extent, is_array, IsRows, IsWalked, IsInner};

use crate::parts::{Extent, LIMIT, add_field, add_padding, leaf_extent, nesting, round_up};
use crate::types::{FieldDef, Ty, Types};

/// What an array type comes to behind its brackets: the element that is no array, how deep it may be
/// nested still, and of the counts in the brackets the product, and the greatest product that the last
/// of some first of them have. Both stop at the limit.
#[derive(Clone, Copy, Debug, PartialEq, Eq)]
struct Rows {
    element: Ty,
    depth: u64,
    count: u64,
    most: u64,
}

/// A product that stops at the limit.
fn product(a: u64, b: u64) -> u64
    ensures { result ≡ capped (a * b) }
{
    a.saturating_mul(b).min(LIMIT)
}

/// Behind one more bracket.
#[tactic(auto, using(crate::proofs::RowLaws::inner_left, crate::proofs::RowLaws::inner_none))]
fn inner_rows(types: &Types, rows: Rows, place: u32, count: u64) -> Option<Rows>
    requires some { 0 < rows.depth }
    requires array { rows.element ≡ Ty.Array place count }
    requires rows { IsRows rows }
    ensures left { IfSome result (IsInner types.now rows) }
    ensures none { result ≡ None → extent_within rows.depth types.now rows.element ≡ None }
{
    let element = types.tys.get(place as usize)?;
    Some(Rows {
        element: *element,
        depth: rows.depth - 1,
        count: product(rows.count, count),
        most: product(rows.most, count).max(1),
    })
}

fn is_array(ty: Ty) -> bool
    ensures { result ≡ is_array ty }
{
    match ty {
        Ty::Array(_, _) => true,
        _ => false,
    }
}

/// Down to the element that is no array.
fn rows_of(types: &Types, ty: Ty, depth: u64) -> Option<Rows>
    ensures left { IfSome result (IsWalked types.now ty depth) }
    ensures none { result ≡ None → extent_within depth types.now ty ≡ None }
{
    let mut rows = Rows {
        element: ty,
        depth,
        count: 1,
        most: 1,
    };
    for _turn in 0..depth {
        match rows.element {
            Ty::Array(place, count) => rows = inner_rows(types, rows, place, count)?,
            _ => return Some(rows),
        }
    }
    None
}

/// Rows of elements of this extent.
fn rows_extent(rows: Rows, element: Extent) -> Option<Extent>
    requires rows { IsRows rows }
    requires small { IsSmall element }
    ensures value { result ≡ row_extent rows.count rows.most (Some element) }
    ensures small { IfSome result IsSmall }
{
    match rows.most.checked_mul(element.size) {
        Some(bytes) if bytes < LIMIT => Some(Extent {
            size: rows.count * element.size,
            align: element.align,
        }),
        _ => None,
    }
}

/// The part of a struct up to the end of the fields.
#[cycle(extent)]
fn fields_extent(types: &Types, fields: &[FieldDef], depth: u64) -> Option<Extent>
    ensures value { result ≡ fields_from (extent_within depth types.now) empty_struct fields.now }
    ensures small { IfSome result IsSmall }
{
    let mut so_far = Extent { size: 0, align: 1 };
    for field in fields {
        let extent = extent_at(types, field.ty, depth)?;
        so_far = add_field(so_far, extent)?;
    }
    Some(so_far)
}

#[cycle(extent)]
fn struct_extent(types: &Types, place: u32, depth: u64) -> Option<Extent>
    ensures value { result ≡ struct_by (extent_within depth types.now) (slice_get types.now.structs place) }
    ensures small { IfSome result IsSmall }
{
    let definition = types.structs.get(place as usize)?;
    if !definition.complete {
        return None;
    }
    let fields = fields_extent(types, definition.fields.as_slice(), depth)?;
    add_padding(fields)
}

/// The extent of a type that is no array and whose parts are nested less deep than `depth`.
#[cycle(extent)]
#[tactic(auto, using(crate::proofs::LayoutLaws::within_step, crate::proofs::LayoutLaws::within_zero))]
fn element_extent(types: &Types, ty: Ty, depth: u64) -> Option<Extent>
    requires { is_array ty ≡ false }
    ensures value { result ≡ extent_within depth types.now ty }
    ensures small { IfSome result IsSmall }
{
    if depth == 0 {
        return None;
    }
    match ty {
        Ty::Struct(place) => struct_extent(types, place, depth - 1),
        Ty::Void | Ty::Int(_) | Ty::Ptr(_) | Ty::Fun(_) | Ty::Array(_, _) => leaf_extent(ty),
    }
}

/// The extent of a type whose parts are nested less deep than `depth`. Brackets are walked in a loop, and
/// structs by recursion.
#[cycle(extent)]
fn extent_at(types: &Types, ty: Ty, depth: u64) -> Option<Extent>
    ensures value { result ≡ extent_within depth types.now ty }
    ensures small { IfSome result IsSmall }
{
    let rows = rows_of(types, ty, depth)?;
    let element = element_extent(types, rows.element, rows.depth)?;
    rows_extent(rows, element)
}

/// The size and the alignment of a type; none for void, an incomplete type, a type that is a part of
/// itself, and one on whose way a size reaches 2^62 bytes.
pub fn layout(types: &Types, ty: Ty) -> Option<Extent>
    ensures value { result ≡ extent_of types.now ty }
    ensures small { IfSome result IsSmall }
{
    let depth = nesting(types);
    extent_at(types, ty, depth)
}

/// The bytes that a type takes; 0 where it has no [`layout`].
pub fn size(types: &Types, ty: Ty) -> u64
    ensures { result ≡ size_of types.now ty }
{
    match layout(types, ty) {
        Some(extent) => extent.size,
        None => 0,
    }
}

/// The alignment of a type, 1, 2, 4 or 8; 0 where it has no [`layout`].
pub fn align(types: &Types, ty: Ty) -> u64
    ensures { result ≡ align_of types.now ty }
{
    match layout(types, ty) {
        Some(extent) => extent.align,
        None => 0,
    }
}

/// Where a field of a struct begins, if both are there.
fn field_place(types: &Types, s: usize, field: usize) -> Option<u64>
    ensures { result ≡ field_place_of types.now s field }
{
    let definition = types.structs.get(s)?;
    let own = definition.fields.get(field)?;
    let depth = nesting(types);
    let before = fields_extent(types, &definition.fields.as_slice()[..field], depth)?;
    let extent = extent_at(types, own.ty, depth)?;
    Some(round_up(before.size, extent.align))
}

/// The bytes of a struct before one of its fields, both by number; 0 where the struct has no such
/// field, or the field or one before it has no [`layout`].
pub fn offset(types: &Types, s: u32, field: u32) -> u64
    ensures { result ≡ offset_of types.now s field }
{
    match field_place(types, s as usize, field as usize) {
        Some(place) => place,
        None => 0,
    }
}
