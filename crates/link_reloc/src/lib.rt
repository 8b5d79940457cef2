//! The sites of code and data that a linker fills in, as objects of x64 and of Arm64 have them.
//!
//! A site is a place in a section's bytes that waits for the address of a symbol. `apply` writes what the site's kind
//! makes of its own place, of its target's and of the base of the image, or says why that can't stand there.
//! `specs/Sites.antt` has the table of the kinds; `theorems` says what the machines then read.
#![tactic(auto)]

pub mod fields;
pub mod refusal;
pub mod sites;
pub mod theorems;

pub use refusal::RelocRefusal;
pub use sites::apply;
