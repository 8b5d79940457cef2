//! Why objects can't be linked.

ghost use Rattle.std.specs.Prelude.{◌≡◌};
ghost use Rattle.link_resolve.specs.declared.refusal.LinkRefusal.TheVariants.{NoMemory};

use hx_words::Items;
use std::alloc::{AllocError, AllocFailed};
use thiserror::Error;

/// Why objects can't be linked: the first of this list that holds of a symbol, with the name of the
/// first symbol that it holds of.
#[derive(Debug, Drop, Error)]
pub enum LinkRefusal {
    /// The name is used, and nothing defines it.
    #[error("a name is not defined")]
    Undefined(Items<u8>),
    /// The name has two definitions that aren't both COMDAT.
    #[error("a name is defined twice")]
    Duplicate(Items<u8>),
    /// The name has an x64 body and an Arm64EC body.
    #[error("a name has a body on both sides")]
    BothSides(Items<u8>),
    /// The name is that of an Arm64EC body without an entry thunk.
    #[error("a body has no entry thunk")]
    NoEntryThunk(Items<u8>),
    /// No body is named `main`.
    #[error("there is no main")]
    NoMain,
    /// Memory ran out.
    #[error("memory ran out")]
    NoMemory,
}

impl From<AllocError> for LinkRefusal {
    ghost from_gives = { λ _ e. e ≡ NoMemory };

    fn from(_e: AllocError) -> LinkRefusal {
        LinkRefusal::NoMemory
    }
}

impl<T: Drop> From<AllocFailed<T>> for LinkRefusal {
    ghost from_gives = { λ _ e. e ≡ NoMemory };

    fn from(_e: AllocFailed<T>) -> LinkRefusal {
        LinkRefusal::NoMemory
    }
}
