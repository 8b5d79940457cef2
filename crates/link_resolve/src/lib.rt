//! What the names of a list of objects mean, and which of their sections are kept.
//!
//! The external symbols in sections define names. Of two definitions of a name, which must both be in
//! COMDAT sections, the first counts. [`resolve`] tells where each name leads, or why the objects
//! can't be linked. It keeps one index from names to their first definitions.
#![tactic(auto)]

mod keeping;
mod listing;
mod meaning;
mod naming;
mod placing;
mod refusal;
mod refusing;
mod resolved;
mod resolving;
mod table;
pub mod theorems;

pub use listing::are_few;
pub use refusal::LinkRefusal;
pub use resolved::{NamePlace, Resolved, SectionId};
pub use resolving::resolve;
