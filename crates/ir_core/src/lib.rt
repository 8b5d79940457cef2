//! The operations that a function is lowered to: what the generators of both sides read.
//!
//! A function ([`IrFn`]) has numbered slots, whose first are its parameters, and a list of operations ([`IrOp`])
//! with numbered labels. [`valid`] tells whether each of its parts is of its kind and in range, and
//! [`size_of_work`] how much code and stack it asks for. What each operation does is a definition, in
//! `specs/Steps.antt` and the files that it names; docs/OPERATIONS.md is its table, and the functions of [`laws`]
//! say what holds of it.
#![tactic(auto)]

mod labels;
pub mod laws;
mod operands;
mod operations;
mod program;
#[cfg(test)]
mod rows;
mod signatures;
mod validity;
mod work;

pub use operations::{IrBinary, IrOp, IrPlace, IrUnary};
pub use program::{IrAddress, IrAdjust, IrFn, IrGlobal, IrProgram, IrSlot};
pub use validity::valid;
pub use work::size_of_work;
