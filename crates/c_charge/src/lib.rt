//! The stack that an active call is charged with, computed.
//!
//! It is 1,024 bytes, 64 for each node of the function and 8 for each byte that its frame keeps: the
//! measure of the meaning, by which the peak of a run is counted. [`charge`] and [`charge_of`] take no memory, and
//! find the sizes of types anew each time; [`Charges`] counts the charges of a program once.
#![tactic(auto)]

mod charges;
mod charging;

pub use charges::Charges;
pub use charging::{charge, charge_of};
