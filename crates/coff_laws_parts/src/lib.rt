//! Lemmas on the parts of the file of an object (crate `coff_write`): what the fields that the reader takes (crates
//! `coff_fields` and `coff_read`) are there, section by section, symbol by symbol and site by site. There is no code here.
#![tactic(auto)]
