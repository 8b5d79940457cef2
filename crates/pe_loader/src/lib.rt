//! The loader: an image, at a base, as a memory.
//!
//! [`load`] maps the sections, moves the addresses in them to the base and fills the import slots. Stack
//! and guard are left to the machine that runs what was loaded. What the memory is at the end stands in
//! the definition of the machine; `specs/` here says which images are refused, and why.
#![tactic(auto)]

mod base;
mod loader;
mod meta;
mod refusal;
mod regions;
mod services;
mod writes;

pub use base::base_ok;
pub use loader::{Loaded, load};
pub use refusal::LoadRefusal;
