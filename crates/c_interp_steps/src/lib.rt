//! The steps of an interpreter of the language: what is done next, what waits for it, and what each
//! construct does with both.
//!
//! The work that waits stands in a vector, so no call of a program is a call of this one. A step's
//! contract says that the whole still comes to what it came to before, by the rules of the meaning.
#![tactic(auto)]

mod costs;
mod places;
mod statements;
mod values;
mod work;

pub use costs::{after_paying, call_cost, declarator_cost, expr_cost};
pub use places::enter_place;
pub use statements::{
    enter_begin, enter_declares, enter_items, enter_loop, enter_statement, enter_step,
};
pub use values::{arguments, enter_value};
pub use work::{
    Called, Ending, FindWork, FlowWork, Loop, Now, Pending, PlaceWork, RunWork, Turn, UseWork,
    ValueWork,
};
