//! The checker of whole programs: units in order, item by item, and then what a whole program must have.
//!
//! [`check`] gives the typed program or the first fault, exactly as the rules of `c_typing` say. It goes
//! down the trees by recursion. A unit is one that the parser gives, whose height is at most 256, so the
//! recursion is never deeper than that.
#![tactic(auto)]

mod items;
mod missing;
mod nodes;
mod refusals;
mod units;

pub use c_program::{Program, frame_bytes, function_named, nodes as program_nodes};
pub use c_typing::TypeKind;
pub use refusals::CheckRefusal;
pub use units::check;
