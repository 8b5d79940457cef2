//! Sizes of types of a table that is all there, whose parts stand behind them as often as before them.

use c_types::{FieldDef, IntTy, StructDef, Ty, Types};
use hx_words::Items;
use std::alloc::{AllocError, Global};
use std::process::Abort;
use std::test::Fail;
use type_sizes::Sizes;

static TYPES: [Ty; 3] = [Ty::Array(1, 3), Ty::Struct(1), Ty::Int(IntTy::I64)];

/// The types of each struct's fields, and whether it is complete: one of arrays of a later one, one of a
/// later one, a short and a char, an incomplete one, one that is a part of itself, and one with an incomplete
/// part.
static STRUCTS: [(&[Ty], bool); 6] = [
    (&[Ty::Int(IntTy::I8), Ty::Array(0, 2)], true),
    (&[Ty::Int(IntTy::I8), Ty::Struct(2)], true),
    (&[Ty::Int(IntTy::I16), Ty::Int(IntTy::I8)], true),
    (&[], false),
    (&[Ty::Struct(4)], true),
    (&[Ty::Struct(3)], true),
];

static SIZES: [(Ty, u64); 13] = [
    (Ty::Void, 0),
    (Ty::Int(IntTy::U16), 2),
    (Ty::Ptr(0), 8),
    (Ty::Struct(0), 38),
    (Ty::Struct(1), 6),
    (Ty::Struct(2), 4),
    (Ty::Struct(3), 0),
    (Ty::Struct(4), 0),
    (Ty::Struct(5), 0),
    (Ty::Struct(6), 0),
    (Ty::Array(0, 4), 72),
    (Ty::Array(2, 4), 32),
    (Ty::Array(3, 1), 0),
];

fn structure(alloc: Global, types: &[Ty], complete: bool) -> Result<StructDef, AllocError> {
    let mut fields = Items::new(alloc);
    for ty in types {
        fields.push(FieldDef {
            name: Items::new(alloc),
            ty: *ty,
        })?;
    }
    Ok(StructDef {
        tag: Items::new(alloc),
        fields,
        complete,
    })
}

fn add_structs(alloc: Global, types: &mut Types) -> Result<(), AllocError> {
    for (fields, complete) in &STRUCTS {
        types.structs.push(structure(alloc, fields, *complete)?)?;
    }
    Ok(())
}

fn all_sized(rt: &(impl Abort + AllocGlobal), types: &mut Types) -> Result<(), Fail> {
    add_structs(rt.alloc(), types)?;
    let sizes = Sizes::of(rt.alloc(), types)?;
    for (ty, want) in &SIZES {
        assert_eq!(rt; sizes.size(types, *ty), *want, "at {ty:?}");
    }
    Ok(())
}

#[test]
fn sizes_of_a_finished_table(rt: HostRuntime) -> Result<(), Fail> {
    let mut types = Types {
        tys: Items::from_slice(rt.alloc(), &TYPES)?,
        structs: Items::new(rt.alloc()),
        funs: Items::new(rt.alloc()),
    };
    all_sized(&rt, &mut types)
}
