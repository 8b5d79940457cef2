//! The state of a run, as an interpreter keeps it: the globals, the active calls, the bytes taken and
//! the peak.
//!
//! Contracts tell which state of the meaning it stands for, given what isn't kept: the input left, the
//! output, and the list of functions that were innermost in turn. A call of what would pass a `u64`
//! answers want of memory.
#![tactic(auto)]

mod activation;
mod store;

pub use activation::Activation;
pub use store::Store;
