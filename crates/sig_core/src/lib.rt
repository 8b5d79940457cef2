//! Signatures, and where each call convention puts what a function takes and gives back.
//!
//! A [`Signature`] knows of each value only its class: a word, or a struct by its bytes. [`place_x64`],
//! [`place_ec`] and [`place_ec_variadic`] give the place of each argument and of the result for x64 calls,
//! for calls between Arm64EC functions, and for those of variadic Arm64EC functions; docs/CALLS.md draws the
//! frames. [`code_of`] is the part of a thunk's name that tells its signature. `specs/` has each as a
//! definition, and the functions of [`laws`] say what holds of them.
#![tactic(auto)]

mod classes;
mod codes;
pub mod laws;
mod places;
mod registers;
#[cfg(test)]
mod rows;
mod slots;

pub use classes::{Class, Signature, class_of};
pub use codes::code_of;
pub use places::{Placed, ResultPlace, Slot};
pub use registers::place_ec;
pub use slots::{place_ec_variadic, place_x64};
