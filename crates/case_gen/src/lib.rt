//! The C unit that a number stands for.
//!
//! [`generate`] makes a unit of functions that call one another by name and through pointers, a table of them all, and a
//! `main` that calls each from the table and puts a letter for what it gave. The numbers in it are drawn from the number
//! given, so the same number makes the same unit. `specs/Units.antt` has the unit as one text.
#![tactic(auto)]

mod numbers;
mod units;

pub use units::generate;
