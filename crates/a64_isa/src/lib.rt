//! A64 instructions: the table of those that Arm64EC code is made of here, and their words.
//!
//! `encode` gives the word of an instruction, `decode` the instruction of a word, and each undoes
//! the other. A word outside the table is none: the table has one spelling for each instruction.
#![tactic(auto)]

pub mod instruction;
mod operands;
pub mod words;

pub use instruction::{AInstr, Condition};
pub use words::{decode, encode};
