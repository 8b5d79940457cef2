//! The fields and names of an object's file, in the COFF format of Microsoft's PE/COFF
//! specification, as total functions of its bytes.
#![tactic(auto)]

pub mod fields;
pub mod names;
