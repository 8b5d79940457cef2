//! Why a site can't be filled.

use thiserror::Error;

/// Why a site can't be filled. Where several of these hold, the first of them is told.
#[derive(Clone, Copy, PartialEq, Eq, Debug, Error)]
pub enum RelocRefusal {
    /// The field of an instruction holds a number already.
    #[error("the field of the instruction is not 0")]
    Addend,
    /// The number, in bytes, is no multiple of what the field counts in.
    #[error("the number {0} is no multiple of what the field counts in")]
    Misaligned(i64),
    /// The value, as the field counts it, is out of the field's range.
    #[error("the value {0} is out of the field's range")]
    OutOfReach(i64),
}
