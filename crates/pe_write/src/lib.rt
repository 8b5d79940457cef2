//! The writer of images: the one file of an image that some file has.
//!
//! `pe_write_laws` tells which images these are, by tests on their values, and the file. What is written
//! is read back by `pe_read`.
#![tactic(auto)]

mod headers;
mod places;
mod same;
mod sections;
mod writing;

pub use pe_write_laws::allowed;
pub use writing::write;
