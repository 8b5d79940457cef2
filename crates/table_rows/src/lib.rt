//! Rows for lists with an index: which place is found of a name, of a type, of a function's type and of a tag.
//! And the sizes of types, by a table that looks them up and by one that is all there.
#![tactic(auto)]

#[cfg(test)]
mod finished;
#[cfg(test)]
mod names;
#[cfg(test)]
mod sizes;
#[cfg(test)]
mod types;
