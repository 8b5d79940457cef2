//! Objects, as the linker and the writer see them.

use hx_names::SiteKind;
use hx_words::Items;

/// The instruction set of an object (the header's Machine).
#[derive(Clone, Copy, PartialEq, Eq, Debug)]
pub enum ObjMachine {
    /// x64: IMAGE_FILE_MACHINE_AMD64, 0x8664.
    Amd64,
    /// Arm64EC: IMAGE_FILE_MACHINE_ARM64EC, 0xA641.
    Arm64Ec,
}

/// A place in a section that is filled when the object is linked (a COFF relocation).
#[derive(Clone, Copy, Debug)]
pub struct ObjSite {
    /// The place of the first byte in the section, in bytes (VirtualAddress).
    pub at: u32,
    /// The number of the symbol in the object's list, from 0; the file's SymbolTableIndex is the
    /// number of its record.
    pub symbol: u32,
    /// What the bytes become (Type).
    pub kind: SiteKind,
}

/// A section (a COFF section header and what it names).
#[derive(Debug, Drop)]
pub struct ObjSection {
    /// The name, without a zero byte (Name).
    pub name: Items<u8>,
    /// The section flags IMAGE_SCN_.. (Characteristics).
    pub flags: u32,
    /// The contents in the file; none under IMAGE_SCN_CNT_UNINITIALIZED_DATA, 0x80.
    pub bytes: Items<u8>,
    /// How many zero bytes a section with flag 0x80 has (SizeOfRawData there); else 0.
    pub zeros: u32,
    /// Whether one of several definitions is kept: flag IMAGE_SCN_LNK_COMDAT, 0x1000, with the
    /// selection IMAGE_COMDAT_SELECT_ANY.
    pub comdat: bool,
    /// The relocations of the section, in order.
    pub sites: Items<ObjSite>,
}

/// A symbol (the fields of a COFF symbol record).
#[derive(Debug, Drop)]
pub struct ObjSymbol {
    /// The name, without a zero byte (Name).
    pub name: Items<u8>,
    /// The place in the section in bytes, or the value of an absolute symbol (Value).
    pub value: u32,
    /// The section's number from 1, 0 where it is in none, or 65,535 where it is absolute
    /// (SectionNumber).
    pub section: u16,
    /// IMAGE_SYM_CLASS_EXTERNAL, 2, where true; IMAGE_SYM_CLASS_STATIC, 3, where false
    /// (StorageClass).
    pub external: bool,
}

/// A row of the section `.hybmp$x` of an Arm64EC object: a function and its thunk.
#[derive(Clone, Copy, Debug)]
pub struct HybridRow {
    /// The number of the function's symbol in the object's list.
    pub source: u32,
    /// The number of the thunk's symbol in the object's list.
    pub thunk: u32,
    /// 0 for a guest exit thunk, 1 for an entry thunk, 4 for an exit thunk.
    pub kind: u32,
}

/// An object.
#[derive(Debug, Drop)]
pub struct Object {
    pub machine: ObjMachine,
    pub sections: Items<ObjSection>,
    pub symbols: Items<ObjSymbol>,
    /// The rows of the section `.hybmp$x`, which is no member of `sections`.
    pub hybrid: Items<HybridRow>,
}
