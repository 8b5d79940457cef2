//! Reads the expressions of the C subset, a token at a time.
//!
//! [`step_expr`] is operator precedence with a stack of frames, each of which waits for the
//! expression that is being read and holds the trees of what was read before. The frames that an
//! operator closes are those that bind tighter. Heights are counted as the trees grow, and a tree of
//! more than [`MOST`] nodes on a path is given up at once, so that no deep tree exists; what it is in
//! the grammar stays known.
#![tactic(auto)]

mod laws;
mod operand;
mod operated;
mod operators;
mod parts;
mod state;

pub use laws::{completes_expressions, reads_expressions};
pub use operated::step_expr;
pub use operators::{Follower, Opener};
pub use parts::{MOST, Part, Parts};
pub use state::{ExprState, Focus, Frame};
