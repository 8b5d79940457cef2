//! Words for readers of files: fields of the bytes at a place, tests and lists over the numbers
//! below some number, and the first of a list of refusals that holds.
//!
//! Every reader here is total. Bytes past the end read as 0, and a part ends with the file, so a
//! reader of a format tests a range where its rule says so and nowhere else.
#![tactic(auto)]

mod fields;

pub use fields::{before_zero, byte_at, part, u16_at, u32_at};
