//! What a file has as its image can be loaded.
//!
//! The loader asks of an image that its sections stand in order and hold no more than their sizes, that each import slot
//! lies in one of them, that the metadata is in order and that the stack is one. The reader refuses every other file.
#![tactic(auto)]

mod laws;

pub use laws::reads_for_the_loader;
