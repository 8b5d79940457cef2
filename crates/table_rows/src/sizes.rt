//! Sizes of types that a table looks up, against what C says of them.

use c_types::{Extent, FieldDef, FunTy, IntTy, StructDef, Ty};
use hx_words::Items;
use measured_types::MeasuredTypes;
use std::alloc::{AllocError, Global};
use std::process::Abort;
use std::test::Fail;

static INT: Ty = Ty::Int(IntTy::I32);

static CHAR: Ty = Ty::Int(IntTy::I8);

/// `tys` of the table: int, char, a pointer to int, int[3], char[5], a pointer to int[3], int[3][2].
static TYPES: [Ty; 7] = [
    Ty::Int(IntTy::I32),
    Ty::Int(IntTy::I8),
    Ty::Ptr(0),
    Ty::Array(0, 3),
    Ty::Array(1, 5),
    Ty::Ptr(3),
    Ty::Array(3, 2),
];

static EXTENTS: [(Ty, Option<Extent>); 10] = [
    (Ty::Void, None),
    (Ty::Int(IntTy::I16), Some(Extent { size: 2, align: 2 })),
    (Ty::Int(IntTy::U64), Some(Extent { size: 8, align: 8 })),
    (Ty::Ptr(6), Some(Extent { size: 8, align: 8 })),
    (Ty::Array(1, 5), Some(Extent { size: 5, align: 1 })),
    (Ty::Array(2, 4), Some(Extent { size: 32, align: 8 })),
    (Ty::Array(3, 2), Some(Extent { size: 24, align: 4 })),
    (
        Ty::Array(6, 10),
        Some(Extent {
            size: 240,
            align: 4,
        }),
    ),
    (Ty::Array(7, 1), None),
    (Ty::Struct(0), None),
];

fn field(alloc: Global, ty: Ty) -> Result<FieldDef, AllocError> {
    Ok(FieldDef {
        name: Items::from_slice(alloc, b"f")?,
        ty,
    })
}

fn structure(alloc: Global, types: &[Ty], complete: bool) -> Result<StructDef, AllocError> {
    let mut fields = Items::new(alloc);
    for ty in types {
        fields.push(field(alloc, *ty)?)?;
    }
    Ok(StructDef {
        tag: Items::new(alloc),
        fields,
        complete,
    })
}

fn function(alloc: Global, params: &[Ty]) -> Result<FunTy, AllocError> {
    Ok(FunTy {
        result: Ty::Void,
        params: Items::from_slice(alloc, params)?,
        variadic: false,
    })
}

fn arrays_sized(rt: &(impl Abort + AllocGlobal), types: &mut MeasuredTypes) -> Result<(), Fail> {
    for ty in &TYPES {
        types.push_ty(*ty)?;
    }
    for (ty, want) in &EXTENTS {
        assert_eq!(rt; types.layout(*ty), *want, "at {ty:?}");
    }
    assert_eq!(rt; types.find_ty(Ty::Array(3, 2)), Some(6));
    Ok(())
}

#[test]
fn sizes_of_arrays(rt: HostRuntime) -> Result<(), Fail> {
    let mut types = MeasuredTypes::new(rt.alloc());
    let sized = arrays_sized(&rt, &mut types);
    drop(types);
    sized
}

fn doubles_sized(rt: &(impl Abort + AllocGlobal), types: &mut MeasuredTypes) -> Result<(), Fail> {
    types.push_struct(structure(rt.alloc(), &[CHAR, INT], true)?)?;
    for place in 0..40 {
        let half = Ty::Struct(place);
        types.push_struct(structure(rt.alloc(), &[half, half], true)?)?;
    }
    let mut size = 8;
    for place in 0..41 {
        let want = Some(Extent { size, align: 4 });
        assert_eq!(rt; types.layout(Ty::Struct(place)), want, "at {place}");
        size = size.saturating_mul(2);
    }
    assert_eq!(rt; types.size(Ty::Struct(41)), 0);
    Ok(())
}

/// The first struct is a char and an int, in 8 bytes, and each later one has two of the one before.
#[test]
fn sizes_that_double(rt: HostRuntime) -> Result<(), Fail> {
    let mut types = MeasuredTypes::new(rt.alloc());
    let sized = doubles_sized(&rt, &mut types);
    drop(types);
    sized
}

fn changes_sized(rt: &(impl Abort + AllocGlobal), types: &mut MeasuredTypes) -> Result<(), Fail> {
    types.push_struct(structure(rt.alloc(), &[], false)?)?;
    types.push_ty(Ty::Struct(0))?;
    types.push_ty(Ty::Ptr(0))?;
    assert_eq!(rt; types.size(Ty::Struct(0)), 0);
    assert_eq!(rt; types.size(Ty::Array(0, 3)), 0);
    types.set_struct(0, structure(rt.alloc(), &[Ty::Ptr(0), CHAR], true)?);
    assert_eq!(rt; types.size(Ty::Struct(0)), 16);
    types.push_ty(Ty::Array(0, 3))?;
    assert_eq!(rt; types.size(Ty::Array(0, 3)), 48);
    assert_eq!(rt; types.size(Ty::Array(2, 2)), 96);
    types.set_struct(0, structure(rt.alloc(), &[CHAR], true)?);
    assert_eq!(rt; types.size(Ty::Struct(0)), 1);
    assert_eq!(rt; types.size(Ty::Array(2, 2)), 6);
    Ok(())
}

/// A struct has a size once it is complete, and so has an array whose element was named before. Where a
/// complete struct changes, so do the sizes that stand on it.
#[test]
fn sizes_of_a_struct_that_changes(rt: HostRuntime) -> Result<(), Fail> {
    let mut types = MeasuredTypes::new(rt.alloc());
    let sized = changes_sized(&rt, &mut types);
    assert_eq!(rt; types.into_types().tys.len(), 3);
    sized
}

fn functions_found(rt: &(impl Abort + AllocGlobal), types: &mut MeasuredTypes) -> Result<(), Fail> {
    types.push_fun(function(rt.alloc(), &[INT])?)?;
    types.push_fun(function(rt.alloc(), &[INT, CHAR])?)?;
    types.push_fun(function(rt.alloc(), &[INT])?)?;
    let f = function(rt.alloc(), &[INT, CHAR])?;
    assert_eq!(rt; types.find_fun(&f)?, Some(1));
    let f = function(rt.alloc(), &[CHAR])?;
    assert_eq!(rt; types.find_fun(&f)?, None);
    assert_eq!(rt; types.size(Ty::Fun(2)), 8);
    Ok(())
}

#[test]
fn function_types_beside_sizes(rt: HostRuntime) -> Result<(), Fail> {
    let mut types = MeasuredTypes::new(rt.alloc());
    let sized = functions_found(&rt, &mut types);
    drop(types);
    sized
}
