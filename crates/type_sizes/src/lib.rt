//! The sizes of all types of a finished table.
//!
//! [`c_types::size`] walks all the parts of a type, each time anew. [`Sizes::of`] measures each type and each
//! struct of a table once, its parts before it, so that the size of any of them is looked up.
#![tactic(auto)]

mod order;
mod sizes;

pub use sizes::Sizes;
