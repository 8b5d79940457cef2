//! The tokens of the units that numbers stand for.
//!
//! `specs/` has a unit as pieces, each a token or a blank, and the tokens that they are with their places. The laws say
//! that reading the unit's text gives these tokens.
#![tactic(auto)]

mod laws;

pub use laws::{reads_generated, reads_pieces};
