//! The trees of the units that numbers stand for.
//!
//! `specs/` has the tree of each line of a unit, its nodes at the places of its tokens. The laws say that the parser
//! answers with the unit's tree to the tokens of its text, and that no path of it is longer than 21 nodes.
#![tactic(auto)]

mod laws;

pub use laws::parses_generated;
