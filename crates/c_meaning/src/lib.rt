//! The meaning of the language: what a program puts out and how it ends, and the units of work that it
//! pays on the way.
//!
//! `specs/` has the definition, and it is total: it gives every tree a meaning, well typed or not.
#![tactic(auto)]

mod laws;
mod outcome;

pub use laws::{meaning_is_fixpoint, runs_go_on, worked_programs};
pub use outcome::SourceEnd;
