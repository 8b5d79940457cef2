//! Units that are a program, and units that are none, by hand.

use ec_report::{LimitKind, TypeKind, UnitRefusal};
use ec_units::{UnitsRefusal, check_units};
use hx_io::{FailStore, MemStore, Store};
use std::alloc::{AllocError, Global};
use std::process::Abort;
use std::test::Fail;

const MAIN: &str = "int main(void){return 0;}";

/// 4,096 blanks.
const BLANKS: [u8; 4096] = [b' '; 4096];

/// Pieces, each so many times.
fn repeated(alloc: Global, pieces: &[(&[u8], u64)]) -> Result<Vec<u8>, AllocError> {
    let mut bytes = Vec::new(alloc);
    for (piece, times) in pieces {
        for _ in 0..*times {
            bytes.extend_from_slice(piece)?;
        }
    }
    Ok(bytes)
}

/// Judges units, and compares: `None` where they are a program.
fn judges<R: Abort + AllocGlobal, S: Store>(
    rt: &R,
    store: &mut S,
    names: &[&str],
    whole: bool,
    wanted: Option<UnitsRefusal>,
) -> Result<(), Fail> {
    let alloc = rt.alloc();
    let mut owned = Vec::new(alloc);
    for name in names {
        owned.push(String::from_str(alloc, name)?)?;
    }
    let answer = match check_units(alloc, store, &owned, whole) {
        Ok(checked) => {
            assert_eq!(rt; checked.sources.len(), names.len());
            None
        }
        Err(refusal) => Some(refusal),
    };
    assert_eq!(rt; answer, wanted);
    Ok(())
}

/// What a text that is saved as `a.c` and is unit 0 of a program comes to.
fn text<R: Abort + AllocGlobal>(
    rt: &R,
    store: &mut MemStore,
    bytes: &[u8],
    wanted: UnitsRefusal,
) -> Result<(), Fail> {
    store.save(rt.alloc(), "a.c", bytes)?;
    judges(rt, store, &["a.c"], true, Some(wanted))
}

fn limit(which: LimitKind, count: u64) -> Option<UnitsRefusal> {
    Some(UnitsRefusal::Limit(which, count))
}

fn unit(number: u32, refusal: UnitRefusal) -> Option<UnitsRefusal> {
    Some(UnitsRefusal::Unit(number, refusal))
}

#[test]
fn one_unit(rt: HostRuntime) -> Result<(), Fail> {
    let alloc = rt.alloc();
    let store = &mut MemStore::new(alloc);
    for (bytes, refusal) in [
        ("", UnitRefusal::Typing(TypeKind::NoMain, 0)),
        ("#include <x>", UnitRefusal::Directive(0)),
        ("int g=18446744073709551616;", UnitRefusal::BadNumber(6)),
        ("int g=`;", UnitRefusal::BadByte(6)),
        ("int g; /* g", UnitRefusal::Unclosed(7)),
        ("int main(void){return 0}", UnitRefusal::Syntax(23)),
        (
            "int main(void){int a;int*p=&a;return 0;}",
            UnitRefusal::Typing(TypeKind::NoAddress, 27),
        ),
        (
            "int f(int n,...){return n;}int main(void){return f(2,1);}",
            UnitRefusal::Typing(TypeKind::VariadicCount, 50),
        ),
        (
            "int f(void);int main(void){return 0;}",
            UnitRefusal::Typing(TypeKind::Undefined, 4),
        ),
    ] {
        text(&rt, store, bytes.as_bytes(), UnitsRefusal::Unit(0, refusal))?;
    }
    let deep = repeated(
        alloc,
        &[
            (b"int main(void){return ", 1),
            (b"(", 300),
            (b"0", 1),
            (b")", 300),
            (b";}", 1),
        ],
    )?;
    let refusal = UnitsRefusal::Unit(0, UnitRefusal::TooDeep);
    text(&rt, store, &deep, refusal)?;
    let named = repeated(
        alloc,
        &[
            (b"int ", 1),
            (b"a", 256),
            (b";int main(void){return 0;}", 1),
        ],
    )?;
    let refusal = UnitsRefusal::Limit(LimitKind::NameBytes, 256);
    text(&rt, store, &named, refusal)?;
    let long = repeated(alloc, &[(&BLANKS, 256), (b" ", 1)])?;
    let refusal = UnitsRefusal::Limit(LimitKind::UnitBytes, 1_048_577);
    text(&rt, store, &long, refusal)
}

#[test]
fn many_units(rt: HostRuntime) -> Result<(), Fail> {
    let alloc = rt.alloc();
    let mut store = MemStore::new(alloc);
    store.save(alloc, "main.c", MAIN.as_bytes())?;
    store.save(alloc, "part.c", b"int f(void);")?;
    store.save(alloc, "typing.c", b"int a=b;")?;
    store.save(alloc, "syntax.c", b"int;")?;
    let missing = UnitsRefusal::Missing(Vec::from_slice(alloc, b"none.c")?);
    let syntax = unit(1, UnitRefusal::Syntax(3));
    judges(&rt, &mut store, &["main.c"], true, None)?;
    judges(&rt, &mut store, &["part.c"], false, None)?;
    judges(
        &rt,
        &mut store,
        &["main.c", "none.c", "syntax.c"],
        true,
        Some(missing),
    )?;
    judges(&rt, &mut store, &["typing.c", "syntax.c"], true, syntax)?;
    judges(
        &rt,
        &mut store,
        &["none.c"; 65],
        true,
        limit(LimitKind::Units, 65),
    )?;
    let mut store = FailStore::new(store, Vec::from_slice(alloc, &[1])?);
    let fault = Some(UnitsRefusal::StoreFault);
    judges(&rt, &mut store, &["main.c", "syntax.c"], true, fault)
}
