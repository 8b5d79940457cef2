//! What an interpreter of the language does to its machine: parts are begun and paid, functions are
//! called, services are served, and the state is read and written.
//!
//! Each contract says that the run still stands as it did, by the rules of the meaning.
#![tactic(auto)]

mod calling;
mod entering;
mod machine;
mod meant;
mod serving;
mod starting;
mod touching;

pub use calling::call;
pub use entering::{begin_declare, begin_item, begin_object, begin_statement, begin_value};
pub use machine::Machine;
pub use meant::{MeanFail, Meant};
pub use serving::{low_byte, serve};
pub use starting::{globals, main_of};
pub use touching::{call_named, close, extra, extras, local, set_local, store};
