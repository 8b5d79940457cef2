//! A byte memory with regions, rights and one guard range.
//!
//! A region is bytes at a place, with the rights to be written and to be executed. Regions share no
//! address and end by 2^63. Loads and stores are of 8, 16, 32 or 64 bits, the lowest byte first, and
//! stay within one region; every other access is refused with its cause, and changes nothing.
//!
//! Contracts see a memory as plain data, and its calls by the words of `specs/Space.antt`: `load_of`,
//! `store_of`, `after_store` and `fetch_of`. `proofs/` has the laws of these words that a simulation
//! cites, and `theorems` states the main ones.
#![tactic(auto)]

pub mod fault;
pub mod memory;
pub mod region;
pub mod theorems;

pub use fault::MemBad;
pub use memory::{GuardRange, Memory};
pub use region::Region;
