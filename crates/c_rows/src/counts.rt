//! Nodes, frames, functions by name and types of values, counted by hand.

use c_program::{
    Arithmetic, Comparison, FunDef, FunctionBody, Place, Program, Target, TypedExpr, TypedItem,
    TypedStmt, frame_bytes, function_named, nodes, type_of,
};
use c_types::{FunTy, IntTy, Ty, Types};
use hx_words::{Boxed, Items};
use std::alloc::{AllocError, Global};

const INT: Ty = Ty::Int(IntTy::I32);

type Expr = Result<Boxed<TypedExpr>, AllocError>;

fn number(alloc: Global, value: u64) -> Expr {
    Boxed::new(alloc, TypedExpr::Number(IntTy::I32, value))
}

fn parameter(alloc: Global) -> Expr {
    let place = Boxed::new(alloc, Place::Local(0))?;
    Boxed::new(alloc, TypedExpr::Load(INT, place))
}

fn call(alloc: Global, argument: TypedExpr) -> Expr {
    let mut arguments = Items::new(alloc);
    arguments.push(argument)?;
    Boxed::new(alloc, TypedExpr::Call(INT, Target::Function(0), arguments))
}

fn returned(alloc: Global, value: Boxed<TypedExpr>) -> Result<Boxed<TypedStmt>, AllocError> {
    Boxed::new(alloc, TypedStmt::Return(Some(value)))
}

/// `if(n==0)return 0;`
fn stop(alloc: Global) -> Result<Boxed<TypedStmt>, AllocError> {
    let left = parameter(alloc)?;
    let right = number(alloc, 0)?;
    let test = TypedExpr::Compare(Comparison::Equal, INT, left, right);
    let zero = number(alloc, 0)?;
    let body = returned(alloc, zero)?;
    let test = Boxed::new(alloc, test)?;
    Boxed::new(alloc, TypedStmt::If(test, body))
}

/// `return 1+down(n-1);`
fn step(alloc: Global) -> Result<Boxed<TypedStmt>, AllocError> {
    let n = parameter(alloc)?;
    let one = number(alloc, 1)?;
    let less = TypedExpr::Binary(Arithmetic::Subtract, IntTy::I32, n, one);
    let rest = call(alloc, less)?;
    let one = number(alloc, 1)?;
    let sum = TypedExpr::Binary(Arithmetic::Add, IntTy::I32, one, rest);
    let sum = Boxed::new(alloc, sum)?;
    returned(alloc, sum)
}

fn add_function(
    alloc: Global,
    functions: &mut Items<FunDef>,
    name: &[u8],
    number: u32,
    locals: Items<Ty>,
    block: Items<TypedItem>,
) -> Result<(), AllocError> {
    let name = Items::from_slice(alloc, name)?;
    let body = FunctionBody {
        unit: 0,
        number,
        locals,
        block,
    };
    functions.push(FunDef {
        name,
        ty: number,
        body: Some(body),
    })
}

/// The types `int(int)` and `int(void)`.
fn types(alloc: Global) -> Result<Types, AllocError> {
    let mut funs = Items::new(alloc);
    funs.push(FunTy {
        result: INT,
        params: Items::from_slice(alloc, &[INT])?,
        variadic: false,
    })?;
    funs.push(FunTy {
        result: INT,
        params: Items::new(alloc),
        variadic: false,
    })?;
    Ok(Types {
        tys: Items::new(alloc),
        structs: Items::new(alloc),
        funs,
    })
}

/// `int down(int n){if(n==0)return 0;return 1+down(n-1);} int main(void){` main `}`
fn with_main(alloc: Global, main: Items<TypedItem>) -> Result<Program, AllocError> {
    let mut functions = Items::new(alloc);
    let mut down = Items::new(alloc);
    down.push(TypedItem::Stmt(stop(alloc)?))?;
    down.push(TypedItem::Stmt(step(alloc)?))?;
    let parameters = Items::from_slice(alloc, &[INT])?;
    add_function(alloc, &mut functions, b"down", 0, parameters, down)?;
    add_function(alloc, &mut functions, b"main", 1, Items::new(alloc), main)?;
    let types = types(alloc)?;
    Ok(Program {
        types,
        globals: Items::new(alloc),
        functions,
        adjustors: Items::new(alloc),
        other_nodes: 0,
        extras: 0,
    })
}

/// `return 263;`
fn plain(alloc: Global) -> Result<Program, AllocError> {
    let mut main = Items::new(alloc);
    let value = number(alloc, 263)?;
    main.push(TypedItem::Stmt(returned(alloc, value)?))?;
    with_main(alloc, main)
}

/// `return down(10000);`
fn calling(alloc: Global) -> Result<Program, AllocError> {
    let mut main = Items::new(alloc);
    let value = call(alloc, TypedExpr::Number(IntTy::I32, 10000))?;
    main.push(TypedItem::Stmt(returned(alloc, value)?))?;
    with_main(alloc, main)
}

/// `while(1);return 0;`
fn looping(alloc: Global) -> Result<Program, AllocError> {
    let mut main = Items::new(alloc);
    let test = number(alloc, 1)?;
    let body = Boxed::new(alloc, TypedStmt::Empty)?;
    let forever = Boxed::new(alloc, TypedStmt::While(test, body))?;
    main.push(TypedItem::Stmt(forever))?;
    let value = number(alloc, 0)?;
    main.push(TypedItem::Stmt(returned(alloc, value)?))?;
    with_main(alloc, main)
}

/// By hand: `down` has 16 nodes and 8 bytes; `main` has 4, 5 and 7 nodes and 4 bytes.
#[test]
fn counts_by_hand(rt: HostRuntime) {
    let alloc = rt.alloc();
    let calling = calling(alloc).expect(&rt, "memory");
    assert!(rt; nodes(&plain(alloc).expect(&rt, "memory")) == 20);
    assert!(rt; nodes(&looping(alloc).expect(&rt, "memory")) == 23);
    assert!(rt; nodes(&calling) == 21);
    assert!(rt; frame_bytes(&calling, 0) == 8);
    assert!(rt; frame_bytes(&calling, 1) == 4);
    assert!(rt; frame_bytes(&calling, 2) == 0);
    assert!(rt; function_named(&calling, b"main") == Some(1));
    assert!(rt; function_named(&calling, b"mai").is_none());
    assert!(rt; type_of(&TypedExpr::Char(7)) == INT);
}
