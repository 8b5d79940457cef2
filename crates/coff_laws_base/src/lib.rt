//! Lemmas on object files: where the entries of each table stand, names and flags, the records of symbols, and what
//! validity says of each entry. There is no code here.
#![tactic(auto)]
