//! The limits of a program, and which of them it passes first.
//!
//! [`first_limit`] counts what a program has against the numbers that it may not pass, in the order of
//! the table in `specs/Limits.antt`. Within these numbers all that is made of a program fits. Each is
//! counted when its turn comes. The types are measured once, and only where the counts before their sizes are
//! within their numbers.
#![tactic(auto)]

mod counts;
mod limits;

pub use counts::Passed;
pub use limits::first_limit;
