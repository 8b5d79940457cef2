//! What waiting work makes of the value, the object or the statement's end that it waited for.
//!
//! Each answer is the next step of the interpreter, whose contract says that the whole still comes to
//! what it came to before, by the rules of the meaning. Nothing here reads or writes the state.
#![tactic(auto)]

mod finding;
mod flowing;
mod outcomes;
mod running;
mod valuing;

pub use finding::{wake_find, wake_place};
pub use flowing::wake_flow;
pub use outcomes::{inside, target};
pub use running::wake_run;
pub use valuing::wake_value;
