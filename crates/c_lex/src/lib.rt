//! The tokens of the C subset (C, 6.4), each with the bytes that it stands in.
//!
//! [`lex`] reads a text from left to right. At each place stands a blank or a comment, or the longest
//! token, or none: then [`LexRefusal`] says why, and where. `specs/` has what a token is and the reading of
//! a text as a function on lists of bytes, and docs/LANGUAGE.md says the same in words.
//!
//! A reserved word and a mark is told by its number: its place in [`Word`] and in [`Mark`], which
//! list them by their first place in the grammar's productions (docs/LANGUAGE.md).
#![tactic(auto)]

mod bytes;
mod marks;
mod next;
mod numbers;
mod quotes;
mod reading;
mod tables;
mod token;
mod words;

pub use marks::{Mark, known_mark};
pub use reading::lex;
pub use token::{LexRefusal, TokKind, Token};
pub use words::{Word, reserved_word};
