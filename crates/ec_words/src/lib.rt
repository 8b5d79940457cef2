//! The words of the program, and what they are.
//!
//! [`read_command`] gives the [`Command`] that a list of words is, and none where they are none. The
//! words are first held against the rule of words (`specs/Rule.antt`, over the table of commands in
//! `specs/Table.antt`); those that pass are parsed by `clap`, and the texts that it gives are read as
//! numbers and markings. [`sides_of`] says on which side a marking puts each function.
#![tactic(auto)]

mod commands;
mod given;
mod laws;
mod markings;
mod numbers;
mod parse;
mod rule;
mod sides;
mod table;

pub use commands::{Command, read_command};
pub use laws::{line_laws, marking_laws, number_laws};
pub use markings::{BaseMarking, Marking};
pub use numbers::number;
pub use sides::{MarkRefusal, sides_of};
