//! Why bytes are no metadata.

ghost use Rattle.std.specs.Prelude.{◌≡◌};
ghost use Rattle.chpe_meta.specs.declared.refusal.MetaRefusal.TheVariants.{NoMemory};

use std::alloc::{AllocError, AllocFailed};
use thiserror::Error;

/// Why bytes are no metadata.
#[derive(Clone, Copy, PartialEq, Eq, Debug, Error)]
pub enum MetaRefusal {
    /// The version isn't 1, a table or a name isn't in the bytes, or a table isn't in order.
    #[error("the hybrid metadata can't be read")]
    Bad,
    /// Memory ran out.
    #[error("memory ran out")]
    NoMemory,
}

impl From<AllocError> for MetaRefusal {
    ghost from_gives = { λ _ e. e ≡ NoMemory };

    fn from(_e: AllocError) -> MetaRefusal {
        MetaRefusal::NoMemory
    }
}

impl<T: Drop> From<AllocFailed<T>> for MetaRefusal {
    ghost from_gives = { λ _ e. e ≡ NoMemory };

    fn from(_e: AllocFailed<T>) -> MetaRefusal {
        MetaRefusal::NoMemory
    }
}
