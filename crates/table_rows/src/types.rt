//! Types in a table, and the first places at which they stand there.

use c_types::{FunTy, IntTy, StructDef, Ty};
use hx_words::Items;
use std::alloc::{AllocError, Global};
use std::process::Abort;
use std::test::Fail;
use type_table::TypeTable;

static TYPES: [Ty; 8] = [
    Ty::Int(IntTy::I32),
    Ty::Ptr(0),
    Ty::Int(IntTy::U32),
    Ty::Ptr(0),
    Ty::Fun(0),
    Ty::Array(0, 3),
    Ty::Array(0, 4),
    Ty::Struct(0),
];

static PLACES: [(Ty, Option<usize>); 9] = [
    (Ty::Int(IntTy::I32), Some(0)),
    (Ty::Ptr(0), Some(1)),
    (Ty::Int(IntTy::U32), Some(2)),
    (Ty::Fun(0), Some(4)),
    (Ty::Array(0, 4), Some(6)),
    (Ty::Struct(0), Some(7)),
    (Ty::Void, None),
    (Ty::Ptr(1), None),
    (Ty::Array(1, 3), None),
];

fn types_found(rt: &(impl Abort + AllocGlobal), table: &mut TypeTable) -> Result<(), Fail> {
    for ty in &TYPES {
        table.push_ty(*ty)?;
    }
    for (ty, want) in &PLACES {
        assert_eq!(rt; table.find_ty(*ty), *want, "at {ty:?}");
    }
    Ok(())
}

#[test]
fn first_of_a_type(rt: HostRuntime) -> Result<(), Fail> {
    let mut table = TypeTable::new(rt.alloc());
    let found = types_found(&rt, &mut table);
    assert_eq!(rt; table.into_types().tys.len(), 8);
    found
}

fn function(alloc: Global, params: &[Ty], variadic: bool) -> Result<FunTy, AllocError> {
    Ok(FunTy {
        result: Ty::Void,
        params: Items::from_slice(alloc, params)?,
        variadic,
    })
}

/// Parameters, whether more arguments can follow, and the place at which the function's type is found.
static FUNCTIONS: [(&[Ty], bool, Option<usize>); 4] = [
    (&[Ty::Int(IntTy::I32)], false, Some(0)),
    (&[Ty::Int(IntTy::I32), Ty::Int(IntTy::I32)], false, Some(1)),
    (&[Ty::Int(IntTy::I32)], true, Some(3)),
    (&[], false, None),
];

fn functions_found(rt: &(impl Abort + AllocGlobal), table: &mut TypeTable) -> Result<(), Fail> {
    let int = Ty::Int(IntTy::I32);
    table.push_fun(function(rt.alloc(), &[int], false)?)?;
    table.push_fun(function(rt.alloc(), &[int, int], false)?)?;
    table.push_fun(function(rt.alloc(), &[int], false)?)?;
    table.push_fun(function(rt.alloc(), &[int], true)?)?;
    for (params, variadic, want) in &FUNCTIONS {
        let f = function(rt.alloc(), params, *variadic)?;
        assert_eq!(rt; table.find_fun(&f)?, *want, "at {params:?}");
    }
    Ok(())
}

#[test]
fn first_of_a_function_type(rt: HostRuntime) -> Result<(), Fail> {
    let mut table = TypeTable::new(rt.alloc());
    let found = functions_found(&rt, &mut table);
    drop(table);
    found
}

fn tagged(alloc: Global, tag: &[u8]) -> Result<StructDef, AllocError> {
    Ok(StructDef {
        tag: Items::from_slice(alloc, tag)?,
        fields: Items::new(alloc),
        complete: false,
    })
}

fn tags_found(rt: &(impl Abort + AllocGlobal), table: &mut TypeTable) -> Result<(), Fail> {
    for tag in [b"a", b"b", b"a"] {
        table.push_struct(tagged(rt.alloc(), tag)?)?;
    }
    assert_eq!(rt; table.find_struct(b"a"), Some(0));
    table.set_struct(0, tagged(rt.alloc(), b"a")?);
    assert_eq!(rt; table.find_struct(b"a"), Some(0));
    table.set_struct(0, tagged(rt.alloc(), b"c")?);
    assert_eq!(rt; table.find_struct(b"a"), Some(2));
    assert_eq!(rt; table.find_struct(b"c"), Some(0));
    assert_eq!(rt; table.find_struct(b"d"), None);
    Ok(())
}

/// A struct takes the place of one of its tag, and then of one of another tag.
#[test]
fn first_of_a_tag(rt: HostRuntime) -> Result<(), Fail> {
    let mut table = TypeTable::new(rt.alloc());
    let found = tags_found(&rt, &mut table);
    drop(table);
    found
}
