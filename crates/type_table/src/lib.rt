//! The types that a program names, in which a type is found without a walk over the others.
//!
//! [`TypeTable`] is such a table: contracts see it as [`Types`](c_types::Types). It hides an index from
//! each type, each function type and each tag to the place where it stands first.
#![tactic(auto)]

mod keys;
mod table;

pub use table::TypeTable;
