//! The lines of a file of cases, and what stands before a call.

use crate::contents::{CaseFiles, read_contents};
use crate::faults::{Bad, Why};
use crate::texts::{number, word};
use std::alloc::Global;
use std::rt::Files;

/// A line with the indented lines under it.
#[derive(Clone, Copy)]
pub struct Entry<'a> {
    /// The line's number, from 1.
    pub number: usize,
    /// The line up to its first blank.
    pub name: &'a str,
    /// The line behind its first blank.
    pub rest: &'a str,
    /// The line, and those under it.
    pub lines: &'a [&'a str],
}

impl<'a> Entry<'a> {
    /// The lines under the line.
    pub fn under(&self) -> &'a [&'a str] {
        self.lines.get(1..).unwrap_or(&[])
    }
}

/// The first line, with those under it.
fn first_entry<'a>(lines: &'a [&'a str], number: usize) -> Option<Entry<'a>> {
    let (head, after) = lines.split_first()?;
    let count = after
        .iter()
        .take_while(|line| line.starts_with("    "))
        .count();
    let (name, rest) = head.split_once(' ').unwrap_or((head, ""));
    let lines = lines.get(..count + 1)?;
    Some(Entry {
        number,
        name,
        rest,
        lines,
    })
}

/// The lines of a file, each with those under it.
pub fn entries<'a>(alloc: Global, lines: &'a [&'a str]) -> Result<Vec<Entry<'a>>, Why> {
    let mut entries = Vec::new(alloc);
    let mut number = 0;
    for _ in 0..lines.len() {
        let Some(left) = lines.get(number..) else {
            break;
        };
        let Some(entry) = first_entry(left, number + 1) else {
            break;
        };
        number += entry.lines.len();
        entries.push(entry)?;
    }
    Ok(entries)
}

/// The calls that fail, of the store, the input, the output and the notes.
#[derive(Debug, Drop)]
pub struct Fails {
    pub store: Vec<u64>,
    pub input: Vec<u64>,
    pub output: Vec<u64>,
    pub notes: Vec<u64>,
}

/// What stands before a call.
#[derive(Debug, Drop)]
pub struct Setup {
    pub files: CaseFiles,
    pub words: Vec<String>,
    pub input: Vec<u8>,
    pub fails: Fails,
    pub room: usize,
}
