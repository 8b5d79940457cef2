//! The reader of objects in the COFF format of Microsoft's PE/COFF specification.
//!
//! [`read`] gives the object in a file, or the first refusal of [`ObjRefusal`] that holds anywhere in
//! it. `specs/` has each refusal as a test over the bytes, and the object; `coff_fields` has the fields.
//! Sections that have no part in the program are dropped with their symbols, and what is left is
//! numbered anew.
#![tactic(auto)]

mod building;
mod comdat;
mod hybrid;
mod kept;
mod kinds;
mod ranges;
mod reading;
mod refusal;
mod relocations;

pub use reading::read;
pub use refusal::ObjRefusal;
