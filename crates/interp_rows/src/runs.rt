//! Runs of small programs, by hand.

ghost use Rattle.std.specs.Prelude.{◌≤◌};

use c_interp::{MeanFail, Meant, interpret};
use c_meaning::SourceEnd;
use c_program::{FunDef, FunctionBody, Program, TypedExpr, TypedItem, TypedStmt};
use c_types::{FunTy, IntTy, Ty, Types};
use hx_io::{MemSink, MemSource};
use hx_words::{Boxed, Items};
use std::alloc::{AllocError, Global};

type Expr = Result<Boxed<TypedExpr>, AllocError>;

fn number(alloc: Global, value: u64) -> Expr {
    Boxed::new(alloc, TypedExpr::Number(IntTy::I32, value))
}

fn item(alloc: Global, x: TypedStmt) -> Result<TypedItem, AllocError> {
    Ok(TypedItem::Stmt(Boxed::new(alloc, x)?))
}

/// The type `int(void)` alone.
fn types(alloc: Global) -> Result<Types, AllocError> {
    let mut funs = Items::new(alloc);
    funs.push(FunTy {
        result: Ty::Int(IntTy::I32),
        params: Items::new(alloc),
        variadic: false,
    })?;
    Ok(Types {
        tys: Items::new(alloc),
        structs: Items::new(alloc),
        funs,
    })
}

/// `int main(void) {` block `}`
fn only_main(alloc: Global, block: Items<TypedItem>) -> Result<Program, AllocError> {
    let mut functions = Items::new(alloc);
    functions.push(FunDef {
        name: Items::from_slice(alloc, b"main")?,
        ty: 0,
        body: Some(FunctionBody {
            unit: 0,
            number: 0,
            locals: Items::new(alloc),
            block,
        }),
    })?;
    Ok(Program {
        types: types(alloc)?,
        globals: Items::new(alloc),
        functions,
        adjustors: Items::new(alloc),
        other_nodes: 0,
        extras: 0,
    })
}

/// `return 263;`
fn gives_seven(alloc: Global) -> Result<Program, AllocError> {
    let mut block = Items::new(alloc);
    block.push(item(alloc, TypedStmt::Return(Some(number(alloc, 263)?)))?)?;
    only_main(alloc, block)
}

/// `while (1); return 0;`
fn endless(alloc: Global) -> Result<Program, AllocError> {
    let mut block = Items::new(alloc);
    let body = Boxed::new(alloc, TypedStmt::Empty)?;
    block.push(item(alloc, TypedStmt::While(number(alloc, 1)?, body))?)?;
    block.push(item(alloc, TypedStmt::Return(Some(number(alloc, 0)?)))?)?;
    only_main(alloc, block)
}

fn run(alloc: Global, p: &Program, units: u64, wanted: &[u8]) -> Result<Meant, MeanFail>
    requires { units ≤ 1000000000000 }
{
    let Ok(mut out) = MemSink::new(alloc, 100) else {
        return Err(MeanFail::NoMemory);
    };
    let mut input = MemSource::new(Vec::new(alloc));
    let meant = interpret(alloc, p, &mut input, &mut out, units)?;
    if out.bytes() == wanted {
        Ok(meant)
    } else {
        Err(MeanFail::WriteFault)
    }
}

fn of(outcome: SourceEnd, units: u64, peak: u64) -> Result<Meant, MeanFail> {
    Ok(Meant {
        outcome,
        units,
        peak,
        taken: 0,
    })
}

/// By hand. `main` is charged 1,024 + 64 * 4 + 8 * 4 in the first, and has 7 nodes in the second.
#[test]
fn runs_by_hand(rt: HostRuntime) {
    let alloc = rt.alloc();
    let seven = gives_seven(alloc).expect(&rt, "memory");
    assert!(rt; run(alloc, &seven, 3, b"") == of(SourceEnd::Exit(7), 3, 5408));
    assert!(rt; run(alloc, &seven, 2, b"") == of(SourceEnd::Running, 2, 5408));
    let endless = endless(alloc).expect(&rt, "memory");
    assert!(rt; run(alloc, &endless, 1000, b"") == of(SourceEnd::Running, 1000, 5600));
}
