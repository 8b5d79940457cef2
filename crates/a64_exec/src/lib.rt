//! What A64 instructions do to the registers and the memory.
//!
//! `step` makes one instruction of the table happen, and tells how the code goes on: with the next
//! instruction, at a target, by a call or a return, or not at all. After a fault nothing changed.
#![tactic(auto)]

mod access;
mod blocked;
pub mod event;
pub mod execute;
pub mod laws;
mod state;
mod values;

pub use event::{AEvent, AFault};
pub use execute::step;
