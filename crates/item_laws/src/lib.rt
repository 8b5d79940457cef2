//! Laws of the machine that reads units: it reads each unit that the grammar has, and no other, and
//! what it has taken always begins a unit.
#![tactic(auto)]

mod laws;

pub use laws::{completes_units, reads_units};
