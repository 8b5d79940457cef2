//! Laws of an interpreter's steps: what a run comes to by each step, and what it keeps on the way.
#![tactic(auto)]

mod laws;

pub use laws::{calls_alone, states_go_on};
