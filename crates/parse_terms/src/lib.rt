//! The lowest part of the parser: tokens by what they are in the grammar, types before a declared
//! name, and declarators.
//!
//! A part of the parser is a machine that takes one token at a time. It answers that it goes on, that
//! its part of the text is over (the token at hand is not part of it), or that no text goes on so. It
//! takes nothing back: a part that could end before a token is over only once that token is seen.
#![tactic(auto)]

mod answer;
mod declarators;
mod integers;
mod laws;
mod stack;
mod terminal;
mod types;

pub use answer::{Answer, Verdict};
pub use declarators::{DeclState, step_decl};
pub use integers::{IntWords, begin_int, finish_int, step_int};
pub use laws::reads_types;
pub use stack::Stack;
pub use terminal::{Sort, Terminal, copy_name, to_terminal};
pub use types::{TypeState, step_type};
