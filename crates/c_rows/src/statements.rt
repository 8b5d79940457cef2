//! Blocks of statements with what C and the rules of the subset say of them, worked out by hand.

mod building;
mod printing;

use building::block_of;
use c_program::TypedItem;
use c_tree::BlockItem;
use c_types::{IntTy, Ty};
use c_typing::{
    Enclosing, Fault, LocalMeaning, LocalName, LocalScope, Meaning, Refusal, Tables, UnitName,
    UnitScope,
};
use check_stmt::type_items;
use hx_words::Items;
use measured_types::MeasuredTypes;
use named_rows::NamedRows;
use printing::show_items;
use std::alloc::{AllocError, Global};
use std::fmt::Write;
use std::process::Abort;
use std::test::Fail;

const INT: Ty = Ty::Int(IntTy::I32);

/// `struct S s; int f(int p, ...)`
const GIVES: Enclosing = Enclosing {
    result: INT,
    parameters: 1,
    variadic: true,
};

/// `struct S s; void g(int p)`
const GIVES_NOTHING: Enclosing = Enclosing {
    result: Ty::Void,
    parameters: 1,
    variadic: false,
};

/// A body in the letters of `building`, and its typed tree or its fault.
type Row = (&'static [u8], &'static str);

static IN_INT: [Row; 38] = [
    (b"", ""),
    (b"b", "Flow@0"),
    (b"c", "Flow@0"),
    (b"bi", "Flow@0"),
    (b"bw", "while(L0)break;"),
    (b"biw", "while(L0)if(L0)break;"),
    (b"{cb}d", "do {continue;break;}while(L0);"),
    (b"{bw}b", "Flow@4"),
    (b"r", "Flow@0"),
    (b"R", "return L0;"),
    (b"S", "Mismatch@0"),
    (b"RRI", "if(L0)return L0;else return L0;"),
    (b"R;I", "if(L0)return L0;else ;"),
    (b"v{vx}x", "Int(I32) L1;{Int(I32) L2;L2=1;}L1=1;"),
    (b"{v}{v}", "{Int(I32) L1;}{Int(I32) L2;}"),
    (b"{vx}x", "Unknown@4"),
    (b"vv", "Redeclared@1"),
    (b"V", "Int(I32) L1=L1;"),
    (b"xf", "for(Int(I32) L1=0;L1;L1=0)L1=1;"),
    (b"vxf", "Int(I32) L1;for(Int(I32) L2=0;L2;L2=0)L2=1;"),
    (b"{vx}f", "for(Int(I32) L1=0;L1;L1=0){Int(I32) L2;L2=1;}"),
    (b"bf", "for(Int(I32) L1=0;L1;L1=0)break;"),
    (b"xfx", "Unknown@2"),
    (b";W", "NotScalar@1"),
    (b"xW", "Unknown@0"),
    (b";F", "NotScalar@1"),
    (b"xF", "Unknown@0"),
    (b"la", "list;start;"),
    (b"laz", "list;start;end;"),
    (b"{la}", "{list;start;}"),
    (b"a", "Unknown@0"),
    (b"z", "Unknown@0"),
    (b"ll", "Redeclared@1"),
    (b"{l}l", "Variadic@3"),
    (b"lA", "Unknown@1"),
    (b"lvA", "Variadic@2"),
    (b"B", "Mismatch@0"),
    (b"eb", "Flow@1"),
];

static IN_VOID: [Row; 4] = [
    (b"r", "return;"),
    (b"R", "Flow@0"),
    (b"e", "L0=1;"),
    (b"l", "Variadic@0"),
];

fn unit_scope(alloc: Global) -> Result<UnitScope, AllocError> {
    let name = Items::from_slice(alloc, b"s")?;
    let meaning = Meaning::Global(0, Ty::Struct(0));
    let mut names = NamedRows::new(alloc);
    names.push(UnitName { name, meaning })?;
    let tags = NamedRows::new(alloc);
    Ok(UnitScope { names, tags })
}

fn parameters(alloc: Global) -> Result<LocalScope, AllocError> {
    let name = Items::from_slice(alloc, b"p")?;
    let meaning = LocalMeaning::Variable(0, INT);
    let mut own = NamedRows::new(alloc);
    own.push(LocalName { name, meaning })?;
    let outer = Items::new(alloc);
    Ok(LocalScope { own, outer })
}

fn tables(alloc: Global) -> Result<Tables, AllocError> {
    let locals = Items::from_slice(alloc, &[INT])?;
    Ok(Tables {
        types: MeasuredTypes::new(alloc),
        locals,
        has_list: false,
        extras: 0,
    })
}

fn line_of(alloc: Global, typed: Result<Items<TypedItem>, Refusal>) -> Result<String, AllocError> {
    let mut line = String::new(alloc);
    match typed {
        Ok(typed) => show_items(&mut line, typed.as_slice())?,
        Err(Refusal::Fault(Fault { kind, at })) => write!(line, "{kind:?}@{at}")?,
        Err(Refusal::NoMemory) => return Err(AllocError),
    }
    Ok(line)
}

fn told_in(
    alloc: Global,
    f: Enclosing,
    items: &[BlockItem],
    unit: &UnitScope,
    locals: &mut LocalScope,
) -> Result<String, AllocError> {
    let mut tables = tables(alloc)?;
    line_of(
        alloc,
        type_items(alloc, unit, f, false, items, locals, &mut tables),
    )
}

fn told_with(
    alloc: Global,
    f: Enclosing,
    items: &[BlockItem],
    unit: &UnitScope,
) -> Result<String, AllocError> {
    let mut locals = parameters(alloc)?;
    told_in(alloc, f, items, unit, &mut locals)
}

fn told(alloc: Global, f: Enclosing, text: &[u8]) -> Result<String, AllocError> {
    let unit = unit_scope(alloc)?;
    let block = block_of(alloc, text)?;
    told_with(alloc, f, block.as_slice(), &unit)
}

fn check(rt: &impl Abort, alloc: Global, f: Enclosing, rows: &[Row]) -> Result<(), AllocError> {
    for (text, want) in rows {
        let line = told(alloc, f, text)?;
        assert_eq!(rt; line.as_str(), *want, "at {text:?}");
    }
    Ok(())
}

#[test]
fn small_bodies(rt: HostRuntime) -> Result<(), Fail> {
    check(&rt, rt.alloc(), GIVES, &IN_INT)?;
    check(&rt, rt.alloc(), GIVES_NOTHING, &IN_VOID)?;
    Ok(())
}
