//! That each call can succeed, and what `valid` refuses, on functions written by hand.

use crate::operations::{IrOp, IrPlace};
use crate::program::{IrFn, IrSlot};
use crate::validity::valid;
use crate::work::size_of_work;
use c_types::IntTy;
use hx_words::Items;
use sig_core::{Class, Signature};
use std::alloc::{AllocError, Global};
use std::test::Fail;

/// `int f(struct s)` of 12 bytes, with three slots and two labels.
fn function(alloc: Global, ops: Vec<IrOp>) -> Result<IrFn, AllocError> {
    let word = IrSlot { size: 4, align: 4 };
    let slots = [IrSlot { size: 12, align: 4 }, word, word];
    Ok(IrFn {
        name: Items::from_slice(alloc, b"f")?,
        sig: Signature {
            result: Class::Word,
            args: Items::from_slice(alloc, &[Class::Agg(12)])?,
            variadic: false,
        },
        slots: Items::from_slice(alloc, &slots)?,
        labels: 2,
        ops: Items::from_vec(ops),
    })
}

/// A label, a branch to the first or the second, the second label, and a result.
fn branching(alloc: Global, first: u32, second: u32) -> Result<IrFn, AllocError> {
    let mut ops = Vec::new(alloc);
    ops.push(IrOp::Label { label: first })?;
    ops.push(IrOp::Const {
        to: 1,
        ty: IntTy::I32,
        value: 7,
    })?;
    ops.push(IrOp::Branch {
        a: 1,
        ty: IntTy::I32,
        yes: 0,
        no: 1,
    })?;
    ops.push(IrOp::Label { label: second })?;
    ops.push(IrOp::Return { value: Some(1) })?;
    function(alloc, ops)
}

/// A copy out of the struct from a byte on, and a result.
fn copying(alloc: Global, offset: u32) -> Result<IrFn, AllocError> {
    let mut ops = Vec::new(alloc);
    ops.push(IrOp::Label { label: 0 })?;
    ops.push(IrOp::Label { label: 1 })?;
    ops.push(IrOp::Copy {
        to: IrPlace {
            slot: 1,
            offset: 0,
            index: None,
        },
        from: IrPlace {
            slot: 0,
            offset,
            index: None,
        },
        size: 4,
    })?;
    ops.push(IrOp::Return { value: Some(1) })?;
    function(alloc, ops)
}

#[test]
fn labels_stand_once(rt: HostRuntime) -> Result<(), Fail> {
    let in_order = branching(rt.alloc(), 0, 1)?;
    assert!(rt; valid(&in_order));
    let turned = branching(rt.alloc(), 1, 0)?;
    assert!(rt; valid(&turned));
    let twice = branching(rt.alloc(), 1, 1)?;
    assert!(rt; !valid(&twice));
    let beyond = branching(rt.alloc(), 0, 2)?;
    assert!(rt; !valid(&beyond));
    Ok(())
}

#[test]
fn bytes_lie_in_their_slot(rt: HostRuntime) -> Result<(), Fail> {
    let last = copying(rt.alloc(), 8)?;
    assert!(rt; valid(&last));
    let past = copying(rt.alloc(), 9)?;
    assert!(rt; !valid(&past));
    // 256 and 160 for 4 operations and a parameter; 1,024, 16 and 8 and 8 for the slots, and 24 for the parameter.
    let (code, frame) = size_of_work(&last);
    assert_eq!(rt; code, 1056);
    assert_eq!(rt; frame, 1080);
    Ok(())
}
