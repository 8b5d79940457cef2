//! Objects and files that are none, with what the rules say of each. An oracle of a hundred lines
//! of Python, written from the rules alone, gave the same answers.

use crate::sample::{CLANG_ARM64, CLANG_X64, SAMPLE};
use coff_read::{ObjRefusal, read};
use coff_write::{ObjMachine, ObjSection, ObjSite, ObjSymbol, Object, valid_object, write};
use hx_names::SiteKind;
use hx_words::Items;
use std::alloc::{AllocError, Global};
use std::test::Fail;

/// Two bytes of the sample's file: their place, what they become as a little-endian number, and
/// what is told of the file then. Each refusal stands beside a neighbour that is read.
static EDITS: [(u16, u16, Option<ObjRefusal>); 53] = [
    // as it is
    (0, 0xA641, None),
    // another machine
    (0, 0xA642, Some(ObjRefusal::Machine)),
    // an optional header
    (16, 0x1, Some(ObjRefusal::OptionalHeader)),
    // five sections: the fifth's contents
    (2, 0x5, None),
    // contents up to the end
    (36, 0xB1, None),
    // and one byte more
    (36, 0xB2, Some(ObjRefusal::SectionRange)),
    // a record more than the file has
    (12, 0x6, Some(ObjRefusal::SymbolRange)),
    // a string table without its own size
    (304, 0x3, Some(ObjRefusal::SymbolRange)),
    // one that passes the end
    (304, 0x36, Some(ObjRefusal::SymbolRange)),
    // a section past the count
    (226, 0x5, Some(ObjRefusal::SymbolRange)),
    // no section
    (226, 0x0, None),
    // an auxiliary record past the table
    (302, 0x102, Some(ObjRefusal::SymbolRange)),
    // a value past the section
    (222, 0x9, Some(ObjRefusal::SymbolRange)),
    // at its end
    (222, 0x8, Some(ObjRefusal::SymbolKind)),
    // before its end
    (222, 0x7, None),
    // the last name without its zero
    (304, 0x34, Some(ObjRefusal::NameRange)),
    // a name at the last zero
    (272, 0x34, None),
    // at the table's end
    (272, 0x35, Some(ObjRefusal::NameRange)),
    // in the table's size
    (272, 0x3, Some(ObjRefusal::NameRange)),
    // a section name by its middle
    (66, 0x3930, None),
    // in the table's size
    (66, 0x3330, Some(ObjRefusal::NameRange)),
    // no digit
    (66, 0x7830, Some(ObjRefusal::NameRange)),
    // a class that has no meaning
    (302, 0x4, Some(ObjRefusal::SymbolKind)),
    // static
    (302, 0x3, None),
    // of debug data
    (298, 0xFFFE, Some(ObjRefusal::SymbolKind)),
    // code in a section of zeros
    (226, 0x3, Some(ObjRefusal::SymbolKind)),
    // zeros as they are
    (136, 0x80, None),
    // code in a section that isn't executable
    (58, 0x4050, Some(ObjRefusal::SymbolKind)),
    // selection NODUPLICATES
    (264, 0x1, Some(ObjRefusal::Comdat)),
    // selection ASSOCIATIVE
    (264, 0x5, Some(ObjRefusal::Comdat)),
    // no section symbol
    (240, 0x1, Some(ObjRefusal::Comdat)),
    // an external one
    (248, 0x102, Some(ObjRefusal::Comdat)),
    // relocations past the end
    (52, 0x10, Some(ObjRefusal::RelocationRange)),
    // a relocation that passes the end
    (44, 0x15C, Some(ObjRefusal::RelocationRange)),
    // a type that Arm64 hasn't here
    (212, 0x1, Some(ObjRefusal::RelocationKind)),
    // another type
    (212, 0x4, None),
    // a relocation of nothing
    (212, 0x0, None),
    // a site past the section
    (204, 0x5, Some(ObjRefusal::RelocationPlace)),
    // at its end
    (204, 0x4, None),
    // a symbol past the table
    (208, 0x5, Some(ObjRefusal::RelocationPlace)),
    // an auxiliary record
    (208, 0x2, Some(ObjRefusal::RelocationPlace)),
    // another symbol
    (208, 0x3, None),
    // a symbol of a dropped section
    (298, 0x4, Some(ObjRefusal::RelocationPlace)),
    // the name of a file
    (302, 0x67, Some(ObjRefusal::RelocationPlace)),
    // an absolute symbol with a site
    (298, 0xFFFF, None),
    // rows that are cut off
    (156, 0xB, Some(ObjRefusal::HybridRecord)),
    // no rows
    (156, 0x0, None),
    // a row of an auxiliary record
    (192, 0x2, Some(ObjRefusal::HybridRecord)),
    // past the table
    (192, 0x5, Some(ObjRefusal::HybridRecord)),
    // another symbol
    (192, 0x1, None),
    // a thunk that is none
    (196, 0x2, Some(ObjRefusal::HybridRecord)),
    // another kind
    (200, 0x2, Some(ObjRefusal::HybridRecord)),
    // an exit thunk
    (200, 0x4, None),
];

/// What is told of a file, memory aside.
fn told(alloc: Global, bytes: &[u8]) -> Result<Option<ObjRefusal>, ObjRefusal> {
    match read(alloc, bytes) {
        Ok(_object) => Ok(None),
        Err(ObjRefusal::NoMemory) => Err(ObjRefusal::NoMemory),
        Err(refusal) => Ok(Some(refusal)),
    }
}

/// The sample with two other bytes.
fn edited(alloc: Global, at: u16, number: u16) -> Result<Vec<u8>, AllocError> {
    let mut bytes = Vec::from_slice(alloc, &SAMPLE)?;
    let at = at as usize;
    if at + 1 < bytes.len() {
        bytes[at] = (number % 256) as u8;
        bytes[at + 1] = (number / 256) as u8;
    }
    Ok(bytes)
}

#[test]
fn edits_of_an_object(rt: HostRuntime) -> Result<(), Fail> {
    for edit in &EDITS {
        let (at, number, expected) = *edit;
        let bytes = edited(rt.alloc(), at, number)?;
        assert!(rt; told(rt.alloc(), &bytes)? == expected, "{number} at {at}");
    }
    Ok(())
}

/// What is told of the first bytes of the sample, whose contents end at 204.
fn cut_short(len: usize) -> ObjRefusal {
    if len < 20 {
        ObjRefusal::Short
    } else if len < 204 {
        ObjRefusal::SectionRange
    } else {
        ObjRefusal::SymbolRange
    }
}

#[test]
fn shorter_files(rt: HostRuntime) -> Result<(), Fail> {
    for len in 0..SAMPLE.len() {
        assert!(rt;
            told(rt.alloc(), &SAMPLE[..len])? == Some(cut_short(len)),
            "{len} bytes"
        );
    }
    let big = [
        0, 0, 0xFF, 0xFF, 0, 0, 0, 0, 0, 0, 0, 0, 0, 0, 0, 0, 0, 0, 0, 0,
    ];
    assert!(rt; told(rt.alloc(), &big)? == Some(ObjRefusal::BigObject));
    Ok(())
}

/// So many times 65,536 zeros.
fn zeros(alloc: Global, count: u16) -> Result<Vec<u8>, AllocError> {
    let chunk = [0u8; 65_536];
    let mut bytes = Vec::new(alloc);
    for _ in 0..count {
        bytes.extend_from_slice(&chunk)?;
    }
    Ok(bytes)
}

#[test]
fn the_longest_file(rt: HostRuntime) -> Result<(), Fail> {
    let mut bytes = zeros(rt.alloc(), 2_048)?;
    assert_eq!(rt; bytes.len(), 134_217_728);
    assert!(rt; told(rt.alloc(), &bytes)? == Some(ObjRefusal::Machine));
    bytes.push(0)?;
    assert!(rt; told(rt.alloc(), &bytes)? == Some(ObjRefusal::TooLarge));
    Ok(())
}

/// Whether the object's one file is this.
fn has_file(alloc: Global, object: &Object, bytes: &[u8]) -> Result<bool, AllocError> {
    if !valid_object(object) {
        return Ok(false);
    }
    let file = write(alloc, object)?;
    Ok(file.as_slice() == bytes)
}

/// Whether symbol j has this name, section and linkage.
fn is_symbol(object: &Object, j: usize, name: &[u8], section: u16, external: bool) -> bool {
    match object.symbols.get(j) {
        Some(s) => s.name.as_slice() == name && s.section == section && s.external == external,
        None => false,
    }
}

/// Whether section i has this name and so many bytes, zeros and sites.
fn is_section(
    object: &Object,
    i: usize,
    name: &[u8],
    bytes: usize,
    zeros: u32,
    sites: usize,
) -> bool {
    match object.sections.get(i) {
        Some(s) => {
            s.name.as_slice() == name
                && s.bytes.len() == bytes
                && s.zeros == zeros
                && s.sites.len() == sites
        }
        None => false,
    }
}

/// Whether site r of section i stands at this place and names this symbol.
fn is_site(object: &Object, i: usize, r: usize, at: u32, symbol: u32, kind: SiteKind) -> bool {
    match object.sections.get(i) {
        Some(s) => match s.sites.get(r) {
            Some(t) => t.at == at && t.symbol == symbol && t.kind == kind,
            None => false,
        },
        None => false,
    }
}

/// Whether the symbols are those that llvm-readobj shows, those of dropped sections aside.
fn has_clang_symbols(object: &Object) -> bool {
    object.symbols.len() == 7
        && is_symbol(object, 0, b".text", 1, false)
        && is_symbol(object, 1, b".data", 2, false)
        && is_symbol(object, 2, b".bss", 3, false)
        && is_symbol(object, 3, b"main", 1, true)
        && is_symbol(object, 4, b"zeros", 3, true)
        && is_symbol(object, 5, b"table", 2, true)
        && is_symbol(object, 6, b"put_byte", 0, true)
}

/// Whether the object is what llvm-readobj shows of the file for x64.
fn is_for_x64(object: &Object) -> bool {
    has_clang_symbols(object)
        && object.sections.len() == 3
        && is_section(object, 0, b".text", 31, 0, 3)
        && is_site(object, 0, 0, 6, 4, SiteKind::Rel32)
        && is_site(object, 0, 2, 20, 6, SiteKind::Rel32)
        && is_section(object, 2, b".bss", 0, 16, 0)
        && valid_object(object)
}

/// Whether the object is what llvm-readobj shows of the file for Arm64.
fn is_for_arm64(object: &Object) -> bool {
    has_clang_symbols(object)
        && object.sections.len() == 3
        && is_section(object, 0, b".text", 44, 0, 5)
        && is_site(object, 0, 0, 4, 4, SiteKind::PageBaseRel21)
        && is_site(object, 0, 4, 28, 6, SiteKind::Branch26)
        && is_section(object, 1, b".data", 8, 0, 0)
        && valid_object(object)
}

/// Whether the object is the one by hand.
fn is_by_hand(alloc: Global, object: &Object) -> Result<bool, AllocError> {
    let same = has_file(alloc, object, &SAMPLE)?;
    Ok(object.sections.len() == 3 && object.hybrid.len() == 1 && same)
}

/// Which of the three files the object is of: the one by hand, for x64, for Arm64.
fn files_of(alloc: Global, bytes: &[u8]) -> Result<(bool, bool, bool), ObjRefusal> {
    let object = read(alloc, bytes)?;
    let by_hand = is_by_hand(alloc, &object)?;
    Ok((by_hand, is_for_x64(&object), is_for_arm64(&object)))
}

#[test]
fn objects_of_files(rt: HostRuntime) -> Result<(), Fail> {
    assert!(rt; files_of(rt.alloc(), &SAMPLE)? == (true, false, false));
    assert!(rt; files_of(rt.alloc(), &CLANG_X64)? == (false, true, false));
    assert!(rt; files_of(rt.alloc(), &CLANG_ARM64)? == (false, false, true));
    Ok(())
}

/// A section of four bytes with so many sites.
fn many_sites(alloc: Global, count: u32) -> Result<ObjSection, AllocError> {
    let mut sites = Items::new(alloc);
    for _ in 0..count {
        sites.push(ObjSite {
            at: 0,
            symbol: 0,
            kind: SiteKind::Branch26,
        })?;
    }
    Ok(ObjSection {
        name: Items::from_slice(alloc, b".text")?,
        flags: 0x6050_0020,
        bytes: Items::from_slice(alloc, &[0, 0, 0, 0x94])?,
        zeros: 0,
        comdat: false,
        sites,
    })
}

/// An object of one such section and one symbol.
fn sites_object(alloc: Global, count: u32) -> Result<Object, AllocError> {
    let mut sections = Items::new(alloc);
    sections.push(many_sites(alloc, count)?)?;
    let mut symbols = Items::new(alloc);
    symbols.push(ObjSymbol {
        name: Items::from_slice(alloc, b"put_byte")?,
        value: 0,
        section: 0,
        external: true,
    })?;
    Ok(Object {
        machine: ObjMachine::Arm64Ec,
        sections,
        symbols,
        hybrid: Items::new(alloc),
    })
}

/// Whether the file of an object of so many sites is read as that object again.
fn is_read_again(alloc: Global, count: u32) -> Result<bool, ObjRefusal> {
    let object = sites_object(alloc, count)?;
    if !valid_object(&object) {
        return Ok(false);
    }
    let bytes = write(alloc, &object)?;
    let again = read(alloc, &bytes)?;
    let same = has_file(alloc, &again, &bytes)?;
    Ok(
        same && is_section(&again, 0, b".text", 4, 0, 70_000)
            && is_site(&again, 0, 69_999, 0, 0, SiteKind::Branch26),
    )
}

#[test]
fn seventy_thousand_sites(rt: HostRuntime) -> Result<(), Fail> {
    assert!(rt; is_read_again(rt.alloc(), 70_000)?);
    Ok(())
}
