//! The words that the clauses of several crates cite, and the containers of trees.
//!
//! `specs/` has the words: a count of faults that rose, a list that begins another, little-endian
//! numbers, and two's complement. A tree that leads back to itself holds its parts in `Items` and
//! `Boxed`, which contracts see as a list and as a value; no crate above names where they come from.
#![tactic(auto)]

pub use sqlite_items::{Boxed, Items};
