//! Why an image isn't loaded.

ghost use Rattle.std.specs.Prelude.{◌≡◌};
ghost use Rattle.pe_loader.specs.declared.refusal.LoadRefusal.TheVariants.{NoMemory};

use std::alloc::{AllocError, AllocFailed};
use thiserror::Error;

/// Why an image isn't loaded: the first of this list.
#[derive(Debug, Drop, Error)]
pub enum LoadRefusal {
    /// The base isn't one at which the image may stand.
    #[error("the image can't stand at this base")]
    BadBase,
    /// An import of this name, which the machine hasn't.
    #[error("an import is unknown")]
    UnknownImport(Vec<u8>),
    /// A place to be relocated, by its distance from the base, whose 8 bytes aren't in one section.
    #[error("a relocation lies outside the sections")]
    BadRelocation(u32),
    /// Memory ran out.
    #[error("memory ran out")]
    NoMemory,
}

impl From<AllocError> for LoadRefusal {
    ghost from_gives = { λ _ e. e ≡ NoMemory };

    fn from(_e: AllocError) -> LoadRefusal {
        LoadRefusal::NoMemory
    }
}

impl<T: Drop> From<AllocFailed<T>> for LoadRefusal {
    ghost from_gives = { λ _ e. e ≡ NoMemory };

    fn from(_e: AllocFailed<T>) -> LoadRefusal {
        LoadRefusal::NoMemory
    }
}
