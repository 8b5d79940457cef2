//! An object of every part, with the bytes of its file worked out by hand from Microsoft's PE/COFF
//! specification. tools/coff_sample.py shows them to llvm-readobj.

use crate::sample::SAMPLE;
use coff_write::{
    HybridRow, ObjMachine, ObjSection, ObjSite, ObjSymbol, Object, valid_object, write,
};
use hx_names::SiteKind;
use hx_words::Items;
use std::alloc::{AllocError, Global};
use std::test::Fail;

/// A section of a name, flags and bytes without sites.
fn section(alloc: Global, name: &[u8], flags: u32, bytes: &[u8]) -> Result<ObjSection, AllocError> {
    Ok(ObjSection {
        name: Items::from_slice(alloc, name)?,
        flags,
        bytes: Items::from_slice(alloc, bytes)?,
        zeros: 0,
        comdat: flags & 0x1000 != 0,
        sites: Items::new(alloc),
    })
}

fn symbol(
    alloc: Global,
    name: &[u8],
    section: u16,
    external: bool,
) -> Result<ObjSymbol, AllocError> {
    Ok(ObjSymbol {
        name: Items::from_slice(alloc, name)?,
        value: 0,
        section,
        external,
    })
}

fn sections(alloc: Global) -> Result<Items<ObjSection>, AllocError> {
    let mut code = section(
        alloc,
        b".text",
        0x6050_0020,
        &[0, 0, 0, 0x94, 0xC0, 0x03, 0x5F, 0xD6],
    )?;
    code.sites.push(ObjSite {
        at: 0,
        symbol: 3,
        kind: SiteKind::Branch26,
    })?;
    let thunk = section(
        alloc,
        b".text$thunk",
        0x6050_1020,
        &[0xC0, 0x03, 0x5F, 0xD6],
    )?;
    let mut zeros = section(alloc, b".bss", 0xC030_0080, &[])?;
    zeros.zeros = 16;
    let mut sections = Items::new(alloc);
    sections.push(code)?;
    sections.push(thunk)?;
    sections.push(zeros)?;
    Ok(sections)
}

fn symbols(alloc: Global) -> Result<Items<ObjSymbol>, AllocError> {
    let mut symbols = Items::new(alloc);
    symbols.push(symbol(alloc, b"#main", 1, true)?)?;
    symbols.push(symbol(alloc, b".text$thunk", 2, false)?)?;
    symbols.push(symbol(alloc, b"$ientry_thunk$cdecl$i8$v", 2, true)?)?;
    symbols.push(symbol(alloc, b"put_byte", 0, true)?)?;
    Ok(symbols)
}

fn sample(alloc: Global, machine: ObjMachine, kind: u32) -> Result<Object, AllocError> {
    let mut hybrid = Items::new(alloc);
    hybrid.push(HybridRow {
        source: 0,
        thunk: 2,
        kind,
    })?;
    Ok(Object {
        machine,
        sections: sections(alloc)?,
        symbols: symbols(alloc)?,
        hybrid,
    })
}

/// The file that is written of such an object, if it is valid.
fn file_of(alloc: Global, machine: ObjMachine, kind: u32) -> Result<Option<Vec<u8>>, AllocError> {
    let object = sample(alloc, machine, kind)?;
    if valid_object(&object) {
        Ok(Some(write(alloc, &object)?))
    } else {
        Ok(None)
    }
}

#[test]
fn an_object_and_its_file(rt: HostRuntime) -> Result<(), Fail> {
    let file = file_of(rt.alloc(), ObjMachine::Arm64Ec, 1)?;
    assert!(rt; file.as_deref() == Some(SAMPLE.as_slice()));
    Ok(())
}

#[test]
fn objects_without_a_file(rt: HostRuntime) -> Result<(), Fail> {
    // x64 has no BRANCH26, and a row's kind is 0, 1 or 4
    assert!(rt; file_of(rt.alloc(), ObjMachine::Amd64, 1)?.is_none());
    assert!(rt; file_of(rt.alloc(), ObjMachine::Arm64Ec, 2)?.is_none());
    Ok(())
}
