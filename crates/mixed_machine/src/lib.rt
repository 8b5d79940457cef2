//! The machine that runs a loaded image: x64 and Arm64EC code over one set of registers.
//!
//! [`Machine::step`] is one step of the machine's definition and [`Machine::run`] some of them. All
//! memory is taken by [`Machine::new`]; a step takes none. A machine keeps its end: it answers it again.
#![tactic(auto)]

mod code_map;
mod guest;
mod instructions;
mod machine;
mod services;
mod switches;

pub use machine::{Machine, StepEnd};
pub use machine_rules::ends::{GuestEnd, RunEnd, StuckWhy};
