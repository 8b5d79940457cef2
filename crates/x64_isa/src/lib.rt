//! The x64 instructions of this project, and their bytes.
//!
//! The table is a profile of Intel's instruction set for 64-bit mode, with one spelling an
//! instruction: `specs/Spelling.antt` defines it, form by form, and docs/X64.md says it in words.
//! `encode` gives the spelling. `decode` reads the instruction that bytes begin with, and tells bytes
//! that stop short of an instruction from bytes that begin none. Bytes and instructions determine
//! each other, and no spelling begins another: `one_reading` says so of the table alone.
#![tactic(auto)]

pub mod decoder;
pub mod encoder;
mod fields;
pub mod instruction;
pub mod law;
mod operands;

pub use decoder::decode;
pub use encoder::encode;
pub use instruction::{Condition, Operand, Place, XBad, XInstr};
pub use law::one_reading;
