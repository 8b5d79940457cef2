//! What is known of types, and what follows from it for one more.
//!
//! A measure holds at a depth: within it, the walk over a type's parts comes to its extent.
ghost use Rattle.std.specs.Prelude.{◌≡◌, ◌+◌, max, IfSome, slice_get};
ghost use Rattle.c_types.specs.Layout.{with_field, extent_of, IsSmall};
ghost use Rattle.measured_types.specs.Measures.{IsMeasure, IsMeasureAt, IsFieldsMeasure, IsStructMeasure, AreMeasures, IsExtent};

use c_types::{
    Extent, FieldDef, StructDef, Ty, Types, add_field, add_padding, elements_extent, layout,
    leaf_extent, nesting,
};

/// An extent, and how deep the parts of its type are nested at most; a type without parts has height 1.
#[derive(Clone, Copy)]
pub struct Measured {
    pub extent: Extent,
    pub height: u64,
}

/// The entry at a place.
fn noted(measures: &[Option<Measured>], place: u32) -> Option<Measured>
    ensures { IfSome result (λ m. slice_get measures.now place ≡ Some (Some m)) }
{
    match measures.get(place as usize) {
        Some(measure) => *measure,
        None => None,
    }
}

/// An extent one level above parts of a height.
fn above(height: u64, extent: Extent) -> Option<Measured>
    ensures { IfSome result (λ m. m ≡ record { extent = extent; height = height + 1 }) }
{
    if height == u64::MAX {
        return None;
    }
    Some(Measured {
        extent,
        height: height + 1,
    })
}

/// What is known of the type at a place. A struct that was incomplete when its type was pushed is known
/// among the structs alone.
#[tactic(auto, using(crate::proofs::MeasureLaws::struct_element))]
fn element_measure(
    types: &Types,
    elements: &[Option<Measured>],
    structs: &[Option<Measured>],
    place: u32,
) -> Option<Measured>
    requires { AreMeasures types.now elements.now structs.now }
    ensures { IfSome result (λ m. IsMeasureAt types.now place m) }
{
    if let Some(measure) = noted(elements, place) {
        return Some(measure);
    }
    match types.tys.get(place as usize) {
        Some(Ty::Struct(s)) => noted(structs, *s),
        _ => None,
    }
}

#[tactic(auto, using(crate::proofs::MeasureLaws::array_above))]
fn array_measure(
    types: &Types,
    elements: &[Option<Measured>],
    structs: &[Option<Measured>],
    place: u32,
    count: u64,
) -> Option<Measured>
    requires { AreMeasures types.now elements.now structs.now }
    ensures { IfSome result (λ m. IsMeasure types.now (Ty.Array place count) m) }
{
    let element = element_measure(types, elements, structs, place)?;
    let extent = elements_extent(count, element.extent)?;
    above(element.height, extent)
}

/// What follows for a type from what is known.
pub fn measure_of(
    types: &Types,
    elements: &[Option<Measured>],
    structs: &[Option<Measured>],
    ty: Ty,
) -> Option<Measured>
    requires { AreMeasures types.now elements.now structs.now }
    ensures { IfSome result (λ m. IsMeasure types.now ty m) }
{
    if let Some(extent) = leaf_extent(ty) {
        return Some(Measured { extent, height: 1 });
    }
    match ty {
        Ty::Struct(place) => noted(structs, place),
        Ty::Array(place, count) => array_measure(types, elements, structs, place, count),
        _ => None,
    }
}

/// The extent of a type, where it follows from what is known.
#[tactic(auto, using(crate::proofs::MeasureLaws::is_extent))]
fn known_extent(
    types: &Types,
    elements: &[Option<Measured>],
    structs: &[Option<Measured>],
    ty: Ty,
) -> Option<Extent>
    requires { AreMeasures types.now elements.now structs.now }
    ensures { IfSome result (λ e. IsExtent types.now ty e) }
{
    let measure = measure_of(types, elements, structs, ty)?;
    if measure.height <= nesting(types) {
        Some(measure.extent)
    } else {
        None
    }
}

/// The extent of a type, looked up where it follows from what is known.
pub fn find_extent(
    types: &Types,
    elements: &[Option<Measured>],
    structs: &[Option<Measured>],
    ty: Ty,
) -> Option<Extent>
    requires { AreMeasures types.now elements.now structs.now }
    ensures value { result ≡ extent_of types.now ty }
    ensures small { IfSome result IsSmall }
{
    if let Some(extent) = known_extent(types, elements, structs, ty) {
        return Some(extent);
    }
    layout(types, ty)
}

/// One more field behind others.
fn add_measure(so_far: Measured, field: Measured) -> Option<Measured>
    requires so_far_small { IsSmall so_far.extent }
    requires field_small { IsSmall field.extent }
    ensures extent { IfSome result (λ m. with_field so_far.extent field.extent ≡ Some m.extent) }
    ensures height { IfSome result (λ m. m.height ≡ max so_far.height field.height) }
    ensures small { IfSome result (λ m. IsSmall m.extent) }
{
    let extent = add_field(so_far.extent, field.extent)?;
    Some(Measured {
        extent,
        height: so_far.height.max(field.height),
    })
}

/// The part of a struct up to the end of the fields.
fn fields_measure(
    types: &Types,
    elements: &[Option<Measured>],
    structs: &[Option<Measured>],
    fields: &[FieldDef],
) -> Option<Measured>
    requires { AreMeasures types.now elements.now structs.now }
    ensures { IfSome result (λ m. IsFieldsMeasure types.now fields.now m) }
{
    let mut so_far = Measured {
        extent: Extent { size: 0, align: 1 },
        height: 0,
    };
    for field in fields {
        let own = measure_of(types, elements, structs, field.ty)?;
        so_far = add_measure(so_far, own)?;
    }
    Some(so_far)
}

/// What follows for a struct from what is known of its fields' types.
#[tactic(auto, using(crate::proofs::MeasureLaws::struct_above))]
pub fn struct_measure(
    types: &Types,
    elements: &[Option<Measured>],
    structs: &[Option<Measured>],
    definition: &StructDef,
) -> Option<Measured>
    requires { AreMeasures types.now elements.now structs.now }
    ensures { IfSome result (λ m. IsStructMeasure types.now definition.now m) }
{
    if !definition.complete {
        return None;
    }
    let fields = fields_measure(types, elements, structs, definition.fields.as_slice())?;
    let extent = add_padding(fields.extent)?;
    above(fields.height, extent)
}
