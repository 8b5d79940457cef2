//! The programs that the units of numbers are.
//!
//! `specs/Programs.antt` has the program of each number and size. The laws say that it is what the checker gives for the
//! unit's text: for every number, and every size from 1 to 1,000.
#![tactic(auto)]

mod laws;

pub use laws::{checks_generated, types_generated};
