//! Rows for words, names, memory, the outside and registers, and of commands and reports what no command shows.
#![tactic(auto)]

#[cfg(test)]
mod bits;
#[cfg(test)]
mod command_words;
#[cfg(test)]
mod memory;
#[cfg(test)]
mod names;
#[cfg(test)]
mod outside;
#[cfg(test)]
mod registers;
#[cfg(test)]
mod reports;
#[cfg(test)]
mod system;
