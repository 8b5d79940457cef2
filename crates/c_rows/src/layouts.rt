//! Sizes, alignments and places of fields, worked out by hand.

use c_types::{FieldDef, IntTy, StructDef, Ty, Types, align, layout, offset, size};
use hx_words::Items;
use std::alloc::{AllocError, Global};

fn add_field(alloc: Global, fields: &mut Items<FieldDef>, ty: Ty) -> Result<(), AllocError> {
    let name = Items::from_slice(alloc, b"f")?;
    fields.push(FieldDef { name, ty })
}

fn add_struct(
    alloc: Global,
    types: &mut Types,
    fields: Items<FieldDef>,
    complete: bool,
) -> Result<(), AllocError> {
    let tag = Items::from_slice(alloc, b"s")?;
    types.structs.push(StructDef {
        tag,
        fields,
        complete,
    })
}

/// Structs 0 to 4: `{char; short; int}`, `{char; long long; char}`, `{char[3]}`, `{s0; char; s1 *}`,
/// and one that is not complete.
fn example(alloc: Global) -> Result<Types, AllocError> {
    let mut types = Types {
        tys: Items::new(alloc),
        structs: Items::new(alloc),
        funs: Items::new(alloc),
    };
    types.tys.push(Ty::Int(IntTy::I8))?;
    types.tys.push(Ty::Struct(1))?;
    types.tys.push(Ty::Array(0, 3))?;
    let mut fields = Items::new(alloc);
    add_field(alloc, &mut fields, Ty::Int(IntTy::I8))?;
    add_field(alloc, &mut fields, Ty::Int(IntTy::U16))?;
    add_field(alloc, &mut fields, Ty::Int(IntTy::I32))?;
    add_struct(alloc, &mut types, fields, true)?;
    let mut fields = Items::new(alloc);
    add_field(alloc, &mut fields, Ty::Int(IntTy::U8))?;
    add_field(alloc, &mut fields, Ty::Int(IntTy::I64))?;
    add_field(alloc, &mut fields, Ty::Int(IntTy::I8))?;
    add_struct(alloc, &mut types, fields, true)?;
    let mut fields = Items::new(alloc);
    add_field(alloc, &mut fields, Ty::Array(0, 3))?;
    add_struct(alloc, &mut types, fields, true)?;
    let mut fields = Items::new(alloc);
    add_field(alloc, &mut fields, Ty::Struct(0))?;
    add_field(alloc, &mut fields, Ty::Int(IntTy::I8))?;
    add_field(alloc, &mut fields, Ty::Ptr(1))?;
    add_struct(alloc, &mut types, fields, true)?;
    add_struct(alloc, &mut types, Items::new(alloc), false)?;
    Ok(types)
}

#[test]
fn sizes_by_hand(rt: HostRuntime) {
    let types = example(rt.alloc()).expect(&rt, "memory");
    let rows = [
        (Ty::Int(IntTy::I64), 8, 8),
        (Ty::Struct(0), 8, 4),
        (Ty::Struct(1), 24, 8),
        (Ty::Struct(2), 3, 1),
        (Ty::Struct(3), 24, 8),
        (Ty::Array(1, 5), 120, 8),
        (Ty::Array(2, 4), 12, 1),
        (Ty::Ptr(0), 8, 8),
        (Ty::Fun(9), 8, 8),
        (Ty::Struct(4), 0, 0),
        (Ty::Void, 0, 0),
        (Ty::Array(1, 1 << 60), 0, 0),
    ];
    for (ty, bytes, multiple) in rows {
        assert!(rt; size(&types, ty) == bytes);
        assert!(rt; align(&types, ty) == multiple);
    }
    assert!(rt; layout(&types, Ty::Struct(4)).is_none());
    let places = [
        (0, 1, 2),
        (0, 2, 4),
        (1, 1, 8),
        (1, 2, 16),
        (3, 1, 8),
        (3, 2, 16),
        (3, 3, 0),
    ];
    for (s, field, place) in places {
        assert!(rt; offset(&types, s, field) == place);
    }
}
