//! The verdict on the units of a command.
//!
//! [`check_units`] reads the files of units in order, and gives the typed program that they are within
//! the limits, or the first reason why they are none. `specs/Verdicts.antt` has the verdict as a function
//! of the files and the names.
#![tactic(auto)]

mod loading;
mod refusals;
mod state;
mod texts;
mod units;

pub use refusals::UnitsRefusal;
pub use units::{Checked, check_units};
