//! The steps of the layout: a type without parts, a row of elements, and one more field of a struct.
ghost use Rattle.std.specs.Prelude.{◌≡◌, ◌+◌, ◌*◌, ◌^◌, ◌<◌, ◌≤◌, Some, IfSome};
ghost use Rattle.c_types.specs.Layout.{bytes_of, rounded, below_limit, leaf_of, with_field, elements, whole, depth_of, IsSmall};

use crate::types::{IntTy, Ty, Types};

/// The size and the alignment of a type in bytes.
#[derive(Clone, Copy, Debug, PartialEq, Eq)]
pub struct Extent {
    pub size: u64,
    pub align: u64,
}

/// Sizes stay below this.
pub const LIMIT: u64 = 1 << 62;

/// As many places as a `u32` can name.
const PLACES: u64 = 1 << 32;

fn bytes(int: IntTy) -> u64
    ensures value { result ≡ bytes_of int }
    ensures some { 0 < result }
    ensures small { result ≤ 8 }
{
    match int {
        IntTy::I8 | IntTy::U8 => 1,
        IntTy::I16 | IntTy::U16 => 2,
        IntTy::I32 | IntTy::U32 => 4,
        IntTy::I64 | IntTy::U64 => 8,
    }
}

/// The extent of a type without parts, which integers and pointers are: they stand at multiples of
/// their sizes. None for any other type.
pub fn leaf_extent(ty: Ty) -> Option<Extent>
    ensures value { result ≡ leaf_of ty }
    ensures small { IfSome result IsSmall }
{
    match ty {
        Ty::Void | Ty::Struct(_) | Ty::Array(_, _) => None,
        Ty::Int(int) => Some(Extent {
            size: bytes(int),
            align: bytes(int),
        }),
        Ty::Ptr(_) | Ty::Fun(_) => Some(Extent { size: 8, align: 8 }),
    }
}

/// Up to the next multiple of an alignment.
pub fn round_up(place: u64, align: u64) -> u64
    requires low { 0 < align }
    requires high { align ≤ 8 }
    requires place_below { place < 2 ^ 62 }
    ensures value { result ≡ rounded place align }
    ensures near { result ≤ place + 7 }
{
    (place + (align - 1)) / align * align
}

#[tactic(auto, unfolding(crate::specs::Layout::below_limit))]
fn within_limit(size: u64, align: u64) -> Option<Extent>
    requires low { 0 < align }
    requires high { align ≤ 8 }
    ensures value { result ≡ below_limit size align }
    ensures small { IfSome result IsSmall }
{
    if size < LIMIT {
        Some(Extent { size, align })
    } else {
        None
    }
}

/// The part of a struct up to a field's end, behind the part up to the last one's; none where it
/// reaches 2^62 bytes.
pub fn add_field(so_far: Extent, field: Extent) -> Option<Extent>
    requires so_far_small { IsSmall so_far }
    requires field_small { IsSmall field }
    ensures value { result ≡ with_field so_far field }
    ensures small { IfSome result IsSmall }
{
    let place = round_up(so_far.size, field.align);
    within_limit(place + field.size, so_far.align.max(field.align))
}

/// A struct whose fields end here: its size is a multiple of its alignment; none where it reaches
/// 2^62 bytes.
pub fn add_padding(fields: Extent) -> Option<Extent>
    requires { IsSmall fields }
    ensures value { result ≡ whole fields }
    ensures small { IfSome result IsSmall }
{
    within_limit(round_up(fields.size, fields.align), fields.align)
}

/// A row of elements; none where it reaches 2^62 bytes.
#[tactic(auto, unfolding(crate::specs::Layout::below_limit))]
pub fn elements_extent(count: u64, element: Extent) -> Option<Extent>
    requires { IsSmall element }
    ensures value { result ≡ elements count (Some element) }
    ensures small { IfSome result IsSmall }
{
    match count.checked_mul(element.size) {
        Some(size) => within_limit(size, element.align),
        None => None,
    }
}

/// More than the types on a way from a type to a part of it, where no type is a part of itself.
pub fn nesting(types: &Types) -> u64
    ensures { result ≡ depth_of types.now }
{
    let tys = (types.tys.len() as u64).min(PLACES);
    let structs = (types.structs.len() as u64).min(PLACES);
    tys + structs + 1
}
