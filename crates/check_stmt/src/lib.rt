//! Types statements: the typed tree of each, the locals that it declares, or the first fault in it.
//!
//! [`type_items`] goes down the tree by recursion. A unit that a checker is given is one that the
//! parser gives, whose height is at most 256, so the recursion is never deeper than that.
#![tactic(auto)]

mod lists;
mod locals;
mod rules;
mod statements;

pub use statements::type_items;
