//! Objects in the COFF format of Microsoft's PE/COFF specification, and the file of an object.
//!
//! An [`Object`] is what a unit leaves for the linker: sections of bytes, sites in them that wait for
//! an address, symbols, and the rows that join a function to its thunks. [`valid_object`] says which
//! objects have a file, and [`write`] makes it. The file's parts stand in this order: the header of
//! 20 bytes, section headers of 40, the contents of the sections, relocations of 10, symbol records
//! of 18, and the string table. A name that its field can't hold stands in the string table.
#![tactic(auto)]

mod object;
mod records;
mod rows;
pub mod theorems;
mod validity;
mod writing;

pub use object::{HybridRow, ObjMachine, ObjSection, ObjSite, ObjSymbol, Object};
pub use validity::valid_object;
pub use writing::write;
