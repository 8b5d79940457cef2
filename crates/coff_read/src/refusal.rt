//! Why a file is no object.

ghost use Rattle.std.specs.Prelude.{◌≡◌};
ghost use Rattle.coff_read.specs.declared.refusal.ObjRefusal.TheVariants.{NoMemory};

use std::alloc::{AllocError, AllocFailed};
use thiserror::Error;

/// Why a file is no object: the first of this list that holds anywhere in it.
#[derive(Clone, Copy, PartialEq, Eq, Debug, Error)]
pub enum ObjRefusal {
    /// The file has over 134,217,728 bytes.
    #[error("the file has over 134,217,728 bytes")]
    TooLarge,
    /// The file has under 20 bytes.
    #[error("the file has under 20 bytes")]
    Short,
    /// The file begins with 00 00 FF FF, as objects with 32-bit section numbers do.
    #[error("the object has 32-bit section numbers")]
    BigObject,
    /// The machine is neither x64 nor Arm64EC.
    #[error("the machine is neither x64 nor Arm64EC")]
    Machine,
    /// There is an optional header.
    #[error("there is an optional header")]
    OptionalHeader,
    /// The section table or the contents of a section pass the end of the file.
    #[error("a section passes the end of the file")]
    SectionRange,
    /// The symbol table or the string table passes the end of the file, auxiliary records the end
    /// of their table, a section number the count, or a value the end of its section.
    #[error("a symbol passes the end of its table or section")]
    SymbolRange,
    /// A name's offset is outside the string table, or no zero closes the name there.
    #[error("a name is outside the string table")]
    NameRange,
    /// A symbol has a storage class or a section that has no meaning here, or the code of an
    /// Arm64EC function doesn't begin in a section of such code.
    #[error("a symbol is of an unknown kind")]
    SymbolKind,
    /// A COMDAT section has no section symbol, or another selection than ANY.
    #[error("a COMDAT section isn't one of several that are the same")]
    Comdat,
    /// The relocations of a section pass the end of the file.
    #[error("the relocations of a section pass the end of the file")]
    RelocationRange,
    /// A relocation has a type that has no meaning here.
    #[error("a relocation is of an unknown kind")]
    RelocationKind,
    /// A relocation passes the end of its section, or its symbol is none of the object.
    #[error("a relocation is outside its section or names no symbol")]
    RelocationPlace,
    /// The hybrid rows are cut off, or one names no symbol of the object or has an unknown kind.
    #[error("the rows of .hybmp$x can't be read")]
    HybridRecord,
    /// Memory ran out.
    #[error("memory ran out")]
    NoMemory,
}

impl From<AllocError> for ObjRefusal {
    ghost from_gives = { λ _ e. e ≡ NoMemory };

    fn from(_e: AllocError) -> ObjRefusal {
        ObjRefusal::NoMemory
    }
}

impl<T: Drop> From<AllocFailed<T>> for ObjRefusal {
    ghost from_gives = { λ _ e. e ≡ NoMemory };

    fn from(_e: AllocFailed<T>) -> ObjRefusal {
        ObjRefusal::NoMemory
    }
}
