//! Hybrid metadata as bytes: what stands in an image from the header of its CHPE metadata on.
//!
//! The header has seven numbers of 32 bits: the version, and the place and the count of each of three
//! tables. These are the code map, the redirections and the function table, whose rows name places of
//! names. [`write_meta`] spells metadata that has rows ([`allowed_meta`]), and [`read_meta`] reads all
//! that is metadata, and refuses everything else. What is written is read back as it was.
#![tactic(auto)]

mod fields;
mod reading;
mod refusal;
pub mod theorems;
mod validity;
mod writing;

pub use chpe_types::{
    CodeRange, FnRow, Image, ImageSection, ImportSlot, Meta, Redirect, kind_at, redirect_of,
    valid_meta,
};
pub use reading::read_meta;
pub use refusal::MetaRefusal;
pub use validity::{allowed_meta, meta_fits};
pub use writing::write_meta;
