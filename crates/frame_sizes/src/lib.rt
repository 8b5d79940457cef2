//! The bytes that calls of functions keep, by the sizes of a program's types.
//!
//! [`frame_bytes`] is [`c_program::frame_bytes`] over a table of sizes that were measured once: it walks the
//! trees of a body, and no type.
#![tactic(auto)]

mod frames;

pub use frames::{adjustor_bytes, frame_bytes, function_bytes};
