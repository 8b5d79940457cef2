//! The parser: the unit that a list of tokens is, or the place at which it stops to be one.
//!
//! [`parse`] hands the tokens to the machine of units (`parse_item`) one at a time, so its time grows
//! with their number, and no nesting costs stack. `specs/` says where a list stops over the grammar
//! alone, and what [`parse`] answers as one function of the tokens.
#![tactic(auto)]

mod laws;
mod reading;
mod refusals;

pub use laws::answers_texts;
pub use reading::parse;
pub use refusals::ParseRefusal;
