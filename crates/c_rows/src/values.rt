//! Values and what operations make of them, worked out by hand.

use c_program::{Arithmetic, Comparison, PathStep};
use c_types::{FieldDef, IntTy, StructDef, Ty, Types};
use c_values::{
    Object, Parts, Root, Value, arithmetic, compare, copy_value, find, number, truth, write, zero,
};
use hx_words::Items;
use std::alloc::{AllocError, Global};

/// `struct { int *p; short a[2]; }` as the struct 0, with `short` and `int` in the list of types.
fn types(alloc: Global) -> Result<Types, AllocError> {
    let mut tys = Items::new(alloc);
    tys.push(Ty::Int(IntTy::I16))?;
    tys.push(Ty::Int(IntTy::I32))?;
    let mut fields = Items::new(alloc);
    fields.push(FieldDef {
        name: Items::from_slice(alloc, b"p")?,
        ty: Ty::Ptr(1),
    })?;
    fields.push(FieldDef {
        name: Items::from_slice(alloc, b"a")?,
        ty: Ty::Array(0, 2),
    })?;
    let mut structs = Items::new(alloc);
    structs.push(StructDef {
        tag: Items::from_slice(alloc, b"s")?,
        fields,
        complete: true,
    })?;
    Ok(Types {
        tys,
        structs,
        funs: Items::new(alloc),
    })
}

/// A pointer to the second part of global 3.
fn pointer(alloc: Global) -> Result<Value, AllocError> {
    let path = Items::from_slice(alloc, &[PathStep::Field(1)])?;
    Ok(Value::Pointer(Object {
        root: Root::Global(3),
        path,
    }))
}

/// The number that a value is, or 99 where there is none.
fn number_of(value: Option<&Value>) -> i128 {
    match value {
        Some(v) => number(v),
        None => 99,
    }
}

/// What `s.p = &g.f; s.a[1] = -7;` leaves in such a struct: whether `s.p` is not null and equals
/// itself, and the elements.
fn assigned(alloc: Global) -> Result<(bool, i128, i128), AllocError> {
    let types = types(alloc)?;
    let s = zero(alloc, &types, Ty::Struct(0))?;
    let s = write(s, &[PathStep::Field(0)], pointer(alloc)?);
    let last = [PathStep::Field(1), PathStep::Element(1)];
    let s = copy_value(alloc, &write(s, &last, Value::Number(-7)))?;
    let mut kept = false;
    if let Some(p) = find(&s, &[PathStep::Field(0)]) {
        kept = truth(p) && compare(Comparison::Equal, p, &pointer(alloc)?);
    }
    let first = number_of(find(&s, &[PathStep::Field(1), PathStep::Element(0)]));
    let second = number_of(find(&s, &last));
    Ok((kept, first, second))
}

#[test]
fn parts_are_read_and_written(rt: HostRuntime) {
    let (kept, first, second) = assigned(rt.alloc()).expect(&rt, "memory");
    assert!(&rt; kept);
    assert_eq!(&rt; first, 0);
    assert_eq!(&rt; second, -7);
}

#[test]
fn a_part_is_replaced(rt: HostRuntime) {
    let mut parts = Parts::new(rt.alloc());
    parts.push(Value::Null).expect(&rt, "memory");
    let old = parts.replace(0, Value::Number(5));
    assert!(&rt; !truth(&old));
    assert_eq!(&rt;
        arithmetic(
            Arithmetic::Divide,
            IntTy::I32,
            number(&parts.as_slice()[0]),
            -2
        ),
        Some(-2)
    );
}
