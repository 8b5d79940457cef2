//! Rows for objects and their files, sites, names of many objects, and the fast-forward sequence.
#![tactic(auto)]

#[cfg(test)]
mod meanings;
#[cfg(test)]
mod reading;
#[cfg(test)]
mod sample;
#[cfg(test)]
mod sequences;
#[cfg(test)]
mod sites;
#[cfg(test)]
mod writing;
