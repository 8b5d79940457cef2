//! Why an access is refused.

/// Why an access is refused. The first of these that holds is told.
#[derive(Clone, Copy, PartialEq, Eq, Debug)]
pub enum MemBad {
    /// The address of the access lies in the guard range.
    Guard(u64),
    /// The first byte of the access that is outside the region of its address.
    Unmapped(u64),
    /// The address of the access, in a region that lacks the right.
    Protected(u64),
}
