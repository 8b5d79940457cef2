//! Reads the statements of the C subset, a token at a time.
//!
//! [`step_body`] is a machine with a stack of frames, each of which waits for the statement that is
//! being read: a block with the items before it, or the head of an `if`, a loop or an `else`. So no
//! nesting of the text is one of calls. A statement that has been read is closed only at the token
//! after it, which alone says whether an `else` continues an `if`. Expressions, declarators and types
//! are read by their own machines. Heights are counted as the trees grow, and a tree of more than
//! 256 nodes on a path is given up at once, so that no deep tree exists.
#![tactic(auto)]

mod expressions;
mod locals;
mod parts;
mod state;
mod statements;
mod step;

pub use parts::{Body, Capped, DeclsPart, ExprPart, ForHead, OptionPart, StmtPart};
pub use state::{BodyState, Focus, Frame, Header, Hole, LocalPlace, Slot, begin_body};
pub use step::step_body;
