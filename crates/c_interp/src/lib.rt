//! The interpreter of the language, exactly equal to the definition of its meaning.
//!
//! The active calls and the work that waits stand in vectors. A run of n units takes time by n, apart
//! from the sizes of the values that it moves, and memory by the calls that are active at once.
#![tactic(auto)]

mod running;
mod waking;

pub use c_interp_acts::{MeanFail, Meant};
pub use running::interpret;
