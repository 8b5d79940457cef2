//! Names as a linker's map shows them.

use hx_names::{NameRefusal, mangle, thunk_name, unmangle};
use std::process::Abort;
use std::test::Fail;

/// The name of a body, which tells the function.
fn is_mangled<R: Abort + AllocGlobal>(rt: &R, name: &[u8], want: &[u8]) -> Result<(), Fail> {
    let body = mangle(rt.alloc(), name)?;
    assert!(rt; body.as_slice() == want);
    assert!(rt; unmangle(body.as_slice()) == Some(name));
    Ok(())
}

fn refuses<R: Abort + AllocGlobal>(rt: &R, name: &[u8], want: NameRefusal) {
    assert!(rt; mangle(rt.alloc(), name).err() == Some(want));
}

fn is_thunk<R: Abort + AllocGlobal>(
    rt: &R,
    entry: bool,
    signature: &[u8],
    want: &[u8],
) -> Result<(), Fail> {
    let name = thunk_name(rt.alloc(), entry, signature)?;
    assert!(rt; name.as_slice() == want);
    Ok(())
}

#[test]
fn bodies(rt: HostRuntime) -> Result<(), Fail> {
    is_mangled(&rt, b"main", b"#main")?;
    let mut longest = [b'x'; 256];
    longest[0] = b'#';
    is_mangled(&rt, &[b'x'; 255], &longest)?;
    refuses(&rt, b"", NameRefusal::Empty);
    refuses(&rt, &[b'x'; 256], NameRefusal::TooLong(256));
    Ok(())
}

#[test]
fn other_names(rt: HostRuntime) {
    assert!(rt; unmangle(b"main") == None);
    assert!(rt; unmangle(b"") == None);
    assert!(rt; unmangle(b"#") == Some(b"".as_slice()));
}

#[test]
fn thunks(rt: HostRuntime) -> Result<(), Fail> {
    is_thunk(&rt, true, b"i8$i8i8", b"$ientry_thunk$cdecl$i8$i8i8")?;
    is_thunk(&rt, false, b"v$v", b"$iexit_thunk$cdecl$v$v")
}

#[test]
fn words_of_refusals(rt: HostRuntime) -> Result<(), Fail> {
    let text = format!(in rt.alloc(); "{}", NameRefusal::TooLong(256))?;
    assert!(rt; text.as_str() == "the name has 256 bytes, more than 255");
    Ok(())
}
