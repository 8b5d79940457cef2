//! Rows for the interpreter: charges and whole runs.
#![tactic(auto)]

#[cfg(test)]
mod charges;
#[cfg(test)]
mod runs;
