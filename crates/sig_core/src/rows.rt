//! That each call can succeed, on places and codes worked out by hand.

use crate::classes::{Class, Signature, class_of};
use crate::codes::code_of;
use crate::places::{ResultPlace, Slot};
use crate::registers::place_ec;
use crate::slots::{place_ec_variadic, place_x64};
use c_types::{IntTy, Ty, Types};
use hx_words::Items;
use std::test::Fail;

#[test]
fn a_hidden_pointer_is_a_slot(rt: HostRuntime) -> Result<(), Fail> {
    let s = Signature {
        result: Class::Agg(24),
        args: Items::from_slice(rt.alloc(), &[Class::Word; 5])?,
        variadic: false,
    };
    let code = code_of(rt.alloc(), &s)?;
    assert_eq!(rt; code.as_slice(), b"m24$i8i8i8i8i8".as_slice());
    let x64 = place_x64(rt.alloc(), &s, 0)?;
    let places = [
        Slot::Reg(1, 1),
        Slot::Reg(2, 1),
        Slot::Reg(3, 1),
        Slot::Stack(32, 1),
        Slot::Stack(40, 1),
    ];
    assert!(rt; x64.args.as_slice() == places.as_slice());
    assert!(rt; x64.result == ResultPlace::Hidden(0));
    assert_eq!(rt; x64.stack, 48);
    let ec = place_ec(rt.alloc(), &s)?;
    assert_eq!(rt; ec.args.len(), 5);
    assert!(rt; ec.args.get(4) == Some(&Slot::Reg(4, 1)));
    assert!(rt; ec.result == ResultPlace::Hidden(8));
    assert_eq!(rt; ec.stack, 0);
    Ok(())
}

#[test]
fn extra_arguments_follow(rt: HostRuntime) -> Result<(), Fail> {
    let s = Signature {
        result: Class::Word,
        args: Items::from_slice(rt.alloc(), &[Class::Word; 2])?,
        variadic: true,
    };
    let code = code_of(rt.alloc(), &s)?;
    assert_eq!(rt; code.as_slice(), b"i8$i8i8$varargs".as_slice());
    let places = [
        Slot::Reg(0, 1),
        Slot::Reg(1, 1),
        Slot::Reg(2, 1),
        Slot::Reg(3, 1),
        Slot::Stack(0, 1),
        Slot::Stack(8, 1),
        Slot::Stack(16, 1),
        Slot::Stack(24, 1),
    ];
    let ec = place_ec_variadic(rt.alloc(), &s, 6)?;
    assert!(rt; ec.args.as_slice() == places.as_slice());
    assert!(rt; ec.result == ResultPlace::Regs(0, 1));
    assert_eq!(rt; ec.stack, 32);
    Ok(())
}

#[test]
fn classes(rt: HostRuntime) -> Result<(), Fail> {
    let types = Types {
        tys: Items::new(rt.alloc()),
        structs: Items::new(rt.alloc()),
        funs: Items::new(rt.alloc()),
    };
    assert!(rt; class_of(&types, Ty::Void) == Class::Void);
    assert!(rt; class_of(&types, Ty::Int(IntTy::I8)) == Class::Word);
    assert!(rt; class_of(&types, Ty::Ptr(0)) == Class::Word);
    Ok(())
}
