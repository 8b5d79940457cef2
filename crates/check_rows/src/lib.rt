//! Rows for the checker: small programs, with their first faults or their nodes.
#![tactic(auto)]

#[cfg(test)]
mod rows;
#[cfg(test)]
mod tests;
