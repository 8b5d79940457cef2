//! Types expressions: what each designates, with its typed tree and the types that it enters, or the
//! first fault in it.
//!
//! [`visit_expr`] goes down the tree by recursion. A unit that a checker is given is one that the
//! parser gives, whose height is at most 256, so the recursion is never deeper than that.
#![tactic(auto)]

mod arguments;
mod calls;
mod visits;

pub use arguments::pass;
pub use calls::call;
pub use visits::{visit_expr, visit_value, visit_values};
