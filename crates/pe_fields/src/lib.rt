//! What the file of an image says, whatever bytes it has: the fields of its headers and sections, and
//! what the directories say of sections that are known.
//!
//! Every reader here is total. Bytes past the end of a file, or of the contents of a section, read as 0.
#![tactic(auto)]

pub mod headers;
pub mod hybrid;
pub mod imports;
pub mod relocations;
pub mod space;
