//! Rows for the language: layouts, tokens, trees, typed programs and their counts, values, and statements.
#![tactic(auto)]

#[cfg(test)]
mod bodies;
#[cfg(test)]
mod counts;
#[cfg(test)]
mod heights;
#[cfg(test)]
mod layouts;
#[cfg(test)]
mod limits;
#[cfg(test)]
mod statements;
#[cfg(test)]
mod tokens;
#[cfg(test)]
mod values;
