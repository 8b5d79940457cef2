//! Rows for the verdict on units, also of those that needn't be a whole program.
#![tactic(auto)]

#[cfg(test)]
mod verdicts;
