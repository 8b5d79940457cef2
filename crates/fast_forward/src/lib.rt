//! The fast-forward sequence of an Arm64EC function: x64 code that leads to it.
//!
//! The address of an Arm64EC function is that of its sequence, so that x64 code which reads or patches the beginning of
//! a function finds x64 instructions there. The sequence has sixteen bytes, and its jump goes to the function.
#![tactic(auto)]

pub mod law;
mod shape;

pub use law::leads;
pub use shape::{jump_of, sequence};
