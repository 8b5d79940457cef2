//! Rows for images, their metadata, their files and writer, the loader and the machine's steps, and the file of a file's image.
#![tactic(auto)]

#[cfg(test)]
mod files;
#[cfg(test)]
mod loads;
#[cfg(test)]
mod looks;
#[cfg(test)]
mod machines;
#[cfg(test)]
mod metas;
mod rewriting;

pub use rewriting::rewritten;
