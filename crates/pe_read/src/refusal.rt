//! Why a file is no image.

ghost use Rattle.std.specs.Prelude.{◌≡◌};
ghost use Rattle.pe_read.specs.declared.refusal.ImageRefusal.TheVariants.{NoMemory};

use std::alloc::{AllocError, AllocFailed};
use thiserror::Error;

/// Why a file is no image: the first of this list that holds.
#[derive(Clone, Copy, PartialEq, Eq, Debug, Error)]
pub enum ImageRefusal {
    /// The file has over 134,217,728 bytes.
    #[error("the file has over 134,217,728 bytes")]
    TooLarge,
    /// The file has under 64 bytes.
    #[error("the file has under 64 bytes")]
    Short,
    /// The file doesn't begin with MZ.
    #[error("the file doesn't begin with MZ")]
    DosMagic,
    /// The place of the signature is no multiple of 8, or the headers pass the end.
    #[error("the headers pass the end of the file")]
    PeOffset,
    /// The signature isn't PE.
    #[error("the signature isn't PE")]
    PeMagic,
    /// The machine isn't x64.
    #[error("the machine isn't x64")]
    Machine,
    /// The optional header hasn't 240 bytes.
    #[error("the optional header hasn't 240 bytes")]
    OptionalSize,
    /// The optional header isn't PE32+.
    #[error("the optional header isn't PE32+")]
    OptionalMagic,
    /// The alignments aren't 4,096 and 512.
    #[error("the alignments aren't 4,096 and 512")]
    Alignment,
    /// The size of the image is 0, no multiple of 4,096, or over 128 MiB.
    #[error("the size of the image is out of range")]
    ImageSize,
    /// The stack is no multiple of 4,096, or over 268,435,456 bytes.
    #[error("the size of the stack is out of range")]
    StackSize,
    /// There are no sections, or over 94, or their table passes the end.
    #[error("the section table can't be read")]
    SectionTable,
    /// A section isn't at its place, has contents outside the file, or may be written and executed.
    #[error("a section is out of range")]
    SectionRange,
    /// There aren't 16 data directories, or one is used that isn't known or lies outside a section.
    #[error("a data directory is out of range")]
    Directory,
    /// The imports aren't those of one library, ecrt.dll.
    #[error("the imports can't be read")]
    Import,
    /// The base relocations can't be read.
    #[error("the base relocations can't be read")]
    BaseRelocation,
    /// There is no load configuration of 208 bytes that leads to hybrid metadata.
    #[error("the load configuration can't be read")]
    LoadConfig,
    /// The hybrid metadata can't be read, or says what can't be of this image.
    #[error("the hybrid metadata can't be read")]
    Metadata,
    /// The entry point isn't x64 code.
    #[error("the entry point isn't x64 code")]
    Entry,
    /// Memory ran out.
    #[error("memory ran out")]
    NoMemory,
}

impl From<AllocError> for ImageRefusal {
    ghost from_gives = { λ _ e. e ≡ NoMemory };

    fn from(_e: AllocError) -> ImageRefusal {
        ImageRefusal::NoMemory
    }
}

impl<T: Drop> From<AllocFailed<T>> for ImageRefusal {
    ghost from_gives = { λ _ e. e ≡ NoMemory };

    fn from(_e: AllocFailed<T>) -> ImageRefusal {
        ImageRefusal::NoMemory
    }
}
