//! Which images some file has, and the one file that the writer gives each of them.
//!
//! `specs/Allowed.antt` tells the images, by tests on their values, `specs/Places.antt` the places of the
//! directories, and `specs/Format.antt` the file. The laws are about these definitions and those of the
//! reader alone; the code stands in `pe_write`.
#![tactic(auto)]

mod laws;

pub use laws::{allowed, reads_back};
