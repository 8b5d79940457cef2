//! Images and their metadata, as the linker, the writer, the reader and the loader see them.

use hx_words::Items;

/// A hybrid PE32+ image. Places are relative to the base (RVAs), in bytes.
#[derive(Debug, Drop)]
pub struct Image {
    /// The address that the image is linked for (ImageBase).
    pub base: u64,
    /// The bytes from the base to the end of the last section, rounded up (SizeOfImage).
    pub size: u32,
    /// The place of the first instruction (AddressOfEntryPoint).
    pub entry: u32,
    /// The bytes of the stack (SizeOfStackReserve).
    pub stack: u64,
    /// The sections, in order.
    pub sections: Items<ImageSection>,
    /// The slots that the loader fills with addresses, in order.
    pub imports: Items<ImportSlot>,
    /// The places of the 8-byte numbers that the base is added to, in order.
    pub sites: Items<u32>,
    /// The hybrid metadata.
    pub meta: Meta,
}

/// A section of an image (a section header and its contents).
#[derive(Debug, Drop)]
pub struct ImageSection {
    /// The name, without a zero byte (Name).
    pub name: Items<u8>,
    /// The place of its first byte (VirtualAddress).
    pub rva: u32,
    /// Its bytes in memory (VirtualSize).
    pub size: u32,
    /// The section flags IMAGE_SCN_.. (Characteristics).
    pub flags: u32,
    /// Its contents in the file; the bytes of the section past them are zero.
    pub bytes: Items<u8>,
}

/// A slot of the import address table.
#[derive(Debug, Drop)]
pub struct ImportSlot {
    /// The name that is imported.
    pub name: Items<u8>,
    /// The place of the slot's 8 bytes.
    pub rva: u32,
}

/// The hybrid metadata of an image: which bytes are code of which side, which x64 functions stand for
/// EC ones, and what each part of the code is.
#[derive(Debug, Drop)]
pub struct Meta {
    /// The code map (the CHPE metadata's CodeMap), in order of starts.
    pub ranges: Items<CodeRange>,
    /// The redirections (RedirectionMetadata), in order of sources.
    pub redirects: Items<Redirect>,
    /// The rows of the function table, in order of starts.
    pub rows: Items<FnRow>,
}

/// A range of code of one side.
#[derive(Clone, Copy, Debug, PartialEq, Eq)]
pub struct CodeRange {
    /// The place of its first byte.
    pub start: u32,
    /// Its length in bytes.
    pub length: u32,
    /// 1 for Arm64EC, 2 for x64.
    pub kind: u8,
}

/// A function of the x64 side that stands for one of the EC side.
#[derive(Clone, Copy, Debug, PartialEq, Eq)]
pub struct Redirect {
    /// The place of the x64 code.
    pub source: u32,
    /// The place of the EC code.
    pub destination: u32,
}

/// A row of the function table: one part of a code section.
#[derive(Debug, Drop)]
pub struct FnRow {
    /// 1 a body or an adjustor, 2 an entry thunk, 3 an exit thunk, 4 a guest exit thunk, 5 a
    /// fast-forward sequence, 6 the start stub.
    pub kind: u32,
    /// The name of the function or the thunk, without a zero byte.
    pub name: Items<u8>,
    /// The place of its first byte.
    pub start: u32,
    /// The place past its last byte.
    pub end: u32,
}
