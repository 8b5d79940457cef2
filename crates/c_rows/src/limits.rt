//! Programs at their limits, and one over.

use c_program::{FunDef, GlobalDef, IntTy, Program, Ty, Types};
use c_types::{FieldDef, FunTy, StructDef};
use ec_limits::{Passed, first_limit};
use ec_report::LimitKind;
use hx_words::Items;
use std::alloc::{AllocError, Global};
use std::process::Abort;
use std::test::Fail;

/// What a program has: declared functions with so many parameters, each a struct of so many bytes, and
/// declared globals of these sizes.
#[derive(Clone, Copy)]
struct Sizes {
    nodes: u64,
    functions: u64,
    parameters: u64,
    extras: u32,
    struct_bytes: u64,
    globals: [u64; 5],
    longest_name: u64,
}

/// All but the functions at their limits.
const MOST: Sizes = Sizes {
    nodes: 65_536,
    functions: 1,
    parameters: 8,
    extras: 256,
    struct_bytes: 65_536,
    globals: [0x100_0000, 0x80_0000, 0x7F_FFFF, 1, 0],
    longest_name: 255,
};

fn types(alloc: Global, sizes: Sizes) -> Result<Types, AllocError> {
    let mut fields = Items::new(alloc);
    fields.push(FieldDef {
        name: Items::new(alloc),
        ty: Ty::Array(0, sizes.struct_bytes),
    })?;
    let mut structs = Items::new(alloc);
    structs.push(StructDef {
        tag: Items::new(alloc),
        fields,
        complete: true,
    })?;
    let mut params = Items::new(alloc);
    for _ in 0..sizes.parameters {
        params.push(Ty::Struct(0))?;
    }
    let mut funs = Items::new(alloc);
    funs.push(FunTy {
        result: Ty::Void,
        params,
        variadic: false,
    })?;
    Ok(Types {
        tys: Items::from_slice(alloc, &[Ty::Int(IntTy::U8)])?,
        structs,
        funs,
    })
}

fn program(alloc: Global, sizes: Sizes) -> Result<Program, AllocError> {
    let mut functions = Items::new(alloc);
    for _ in 0..sizes.functions {
        functions.push(FunDef {
            name: Items::new(alloc),
            ty: 0,
            body: None,
        })?;
    }
    let mut globals = Items::new(alloc);
    for bytes in sizes.globals {
        globals.push(GlobalDef {
            name: Items::new(alloc),
            ty: Ty::Array(0, bytes),
            body: None,
        })?;
    }
    Ok(Program {
        types: types(alloc, sizes)?,
        globals,
        functions,
        adjustors: Items::new(alloc),
        other_nodes: sizes.nodes,
        extras: sizes.extras,
    })
}

fn limit_found<R: Abort + AllocGlobal>(
    rt: &R,
    program: &Program,
    longest_name: u64,
    wanted: Option<(LimitKind, u64)>,
) -> Result<(), Fail> {
    let wanted = match wanted {
        Some((which, count)) => Some(Passed { which, count }),
        None => None,
    };
    assert_eq!(rt; first_limit(rt.alloc(), program, longest_name)?, wanted);
    Ok(())
}

fn limits<R: Abort + AllocGlobal>(
    rt: &R,
    sizes: Sizes,
    wanted: Option<(LimitKind, u64)>,
) -> Result<(), Fail> {
    let program = program(rt.alloc(), sizes)?;
    limit_found(rt, &program, sizes.longest_name, wanted)
}

#[test]
fn first_limits(rt: HostRuntime) -> Result<(), Fail> {
    let mut sizes = MOST;
    limits(&rt, sizes, None)?;
    sizes.longest_name = 256;
    limits(&rt, sizes, Some((LimitKind::NameBytes, 256)))?;
    sizes.globals[4] = 1;
    limits(&rt, sizes, Some((LimitKind::GlobalBytes, 33_554_433)))?;
    // five times 2^62 - 1
    sizes.globals = [0x3FFF_FFFF_FFFF_FFFF; 5];
    limits(&rt, sizes, Some((LimitKind::GlobalBytes, u64::MAX)))?;
    sizes.parameters = 9;
    limits(&rt, sizes, Some((LimitKind::FrameBytes, 589_824)))?;
    sizes.struct_bytes = 65_537;
    limits(&rt, sizes, Some((LimitKind::StructBytes, 65_537)))?;
    sizes.extras = 257;
    limits(&rt, sizes, Some((LimitKind::Extras, 257)))?;
    sizes.parameters = 65;
    limits(&rt, sizes, Some((LimitKind::Parameters, 65)))?;
    sizes.parameters = 0;
    sizes.functions = 4_096;
    limits(&rt, sizes, Some((LimitKind::Extras, 257)))?;
    sizes.functions = 4_097;
    limits(&rt, sizes, Some((LimitKind::Functions, 4_097)))?;
    sizes.nodes = 65_537;
    limits(&rt, sizes, Some((LimitKind::Nodes, 65_537)))
}
