//! The reader of images: the image in a file, or the first refusal of a list that holds in it.
//!
//! `specs/` has each refusal as a test over the bytes, and the image; `pe_fields` has the fields of
//! the headers and the directories, and `chpe_meta` the hybrid metadata.
#![tactic(auto)]

mod directories;
mod headers;
mod reading;
mod refusal;

pub use reading::read;
pub use refusal::ImageRefusal;
