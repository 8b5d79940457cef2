use c_typing::TypeKind;
use thiserror::Error;

/// Why units aren't typed.
#[derive(Clone, Copy, Debug, PartialEq, Eq, Error)]
pub enum CheckRefusal {
    /// The first fault: the number of its unit, what is wrong, and the byte of the unit at which it lies.
    #[error("unit {unit}, byte {at}: {kind:?}")]
    Bad { unit: u32, kind: TypeKind, at: u32 },
    #[error("out of memory")]
    NoMemory,
}
