//! The registers of both instruction sets, and the one state that holds them.
#![tactic(auto)]

pub mod registers;
