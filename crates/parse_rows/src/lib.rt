//! Rows for the parser: small texts, with their trees or the places where they stop.
#![tactic(auto)]

#[cfg(test)]
mod calculator;
#[cfg(test)]
mod lines;
#[cfg(test)]
mod parts;
#[cfg(test)]
mod rows;
#[cfg(test)]
mod tests;
