//! What x64 instructions do.
//!
//! `step` does one instruction on the registers, the flags and a memory. `specs/Effects.antt` is the
//! table of effects, a row for each form of `x64_isa`: what is new afterwards, and where control goes.
//! `step` decides nothing that the table doesn't say.
#![tactic(auto)]

mod access;
mod division;
pub mod event;
mod stack;
mod state;
pub mod step;
mod values;

pub use event::{XEvent, XFault};
