//! What calls are charged, by hand.

use c_charge::charge;
use c_program::{
    AdjustDef, FunDef, FunctionBody, Program, Target, TypedExpr, TypedItem, TypedStmt,
};
use c_types::{FunTy, IntTy, Ty, Types};
use hx_words::{Boxed, Items};
use std::alloc::{AllocError, Global};

const INT: Ty = Ty::Int(IntTy::I32);

/// `int(int, ...)`
fn types(alloc: Global) -> Result<Types, AllocError> {
    let mut funs = Items::new(alloc);
    funs.push(FunTy {
        result: INT,
        params: Items::from_slice(alloc, &[INT])?,
        variadic: true,
    })?;
    Ok(Types {
        tys: Items::new(alloc),
        structs: Items::new(alloc),
        funs,
    })
}

/// `int f(int n, ...) { return 0; }`
fn function(alloc: Global) -> Result<FunDef, AllocError> {
    let zero = Boxed::new(alloc, TypedExpr::Number(IntTy::I32, 0))?;
    let mut block = Items::new(alloc);
    let given = Boxed::new(alloc, TypedStmt::Return(Some(zero)))?;
    block.push(TypedItem::Stmt(given))?;
    Ok(FunDef {
        name: Items::from_slice(alloc, b"f")?,
        ty: 0,
        body: Some(FunctionBody {
            unit: 0,
            number: 0,
            locals: Items::from_slice(alloc, &[INT])?,
            block,
        }),
    })
}

/// `f` and `__adjustor g = f, 1, 5;`, in a program where one call passes 3 extra arguments.
fn program(alloc: Global) -> Result<Program, AllocError> {
    let mut functions = Items::new(alloc);
    functions.push(function(alloc)?)?;
    let mut adjustors = Items::new(alloc);
    adjustors.push(AdjustDef {
        name: Items::from_slice(alloc, b"g")?,
        ty: 0,
        unit: 0,
        number: 1,
        target: Target::Function(0),
        parameter: 0,
        amount: 5,
    })?;
    Ok(Program {
        types: types(alloc)?,
        globals: Items::new(alloc),
        functions,
        adjustors,
        other_nodes: 0,
        extras: 3,
    })
}

/// By hand: `f` has 5 nodes (the item, the parameter, the block, the statement and the number), and
/// both keep 4 bytes of result, 4 of the parameter and 24 of extra arguments.
#[test]
fn charges_by_hand(rt: HostRuntime) {
    let p = program(rt.alloc()).expect(&rt, "memory");
    assert!(rt; charge(&p, 0) == 1600);
    assert!(rt; charge(&p, 1) == 1344);
    assert!(rt; charge(&p, 2) == 0);
}
