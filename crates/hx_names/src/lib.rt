//! Names of bodies and thunks, and the pieces of code that carry names.
//!
//! The Arm64EC body of a function has the function's name behind a `#`, and its x64 body the name as
//! it is. A thunk's name is a prefix, which tells its direction, and the code of its signature.
//! A piece of code is bytes and the sites in them that wait for an address.
#![tactic(auto)]

pub mod mangling;
pub mod pieces;
pub mod theorems;

pub use mangling::{NameRefusal, mangle, thunk_name, unmangle};
pub use pieces::{CodePiece, PieceSite, Side, SiteKind};
