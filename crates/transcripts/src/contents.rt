//! Bytes, as the lines of a case make them.

use crate::case::Entry;
use crate::faults::{Bad, Why};
use crate::texts::{number, push_hex, push_unquoted, word};
use std::alloc::Global;
use std::fs;
use std::rt::Files;

/// No text is repeated to more bytes than these.
const MOST: u64 = 67_108_864;

/// The files that a case gives, in order.
#[derive(Debug, Drop)]
pub struct CaseFiles {
    pub files: Vec<(String, Vec<u8>)>,
}

impl CaseFiles {
    /// The bytes of the last file of a name.
    pub fn find(&self, name: &str) -> Option<&[u8]> {
        let mut found = None;
        for (held, bytes) in &self.files {
            if held.as_str() == name {
                found = Some(bytes.as_slice());
            }
        }
        found
    }
}

/// Appends a text so many times.
fn push_times(alloc: Global, times: u64, quoted: &str, bytes: &mut Vec<u8>) -> Result<(), Why> {
    let mut piece = Vec::new(alloc);
    push_unquoted(quoted, &mut piece)?;
    match times.checked_mul(piece.len() as u64) {
        Some(total) if total <= MOST => {}
        _ => return Err(Why::Outside),
    }
    for _ in 0..times {
        bytes.extend_from_slice(piece.as_slice())?;
    }
    Ok(())
}

/// Appends the bytes of a piece.
fn push_piece<R: Files + AllocGlobal>(
    rt: &R,
    kind: &str,
    rest: &str,
    files: &CaseFiles,
    bytes: &mut Vec<u8>,
) -> Result<(), Why> {
    match kind {
        ":" => bytes.extend_from_slice(rest.as_bytes())?,
        "|" => {
            bytes.extend_from_slice(rest.as_bytes())?;
            bytes.push(b'\n')?;
        }
        "hex" => push_hex(rest, bytes)?,
        "times" => {
            let (times, quoted) = rest.split_once(' ').ok_or(Why::Number)?;
            push_times(rt.alloc(), number(times)?, quoted, bytes)?;
        }
        "data" => {
            let held = fs::read(rt, rest).map_err(|_| Why::NoFile)?;
            bytes.extend_from_slice(held.as_slice())?;
        }
        "of" => {
            let name = word(rt.alloc(), rest)?;
            let held = files.find(name.as_str()).ok_or(Why::NoFile)?;
            bytes.extend_from_slice(held)?;
        }
        _ => return Err(Why::Unknown),
    }
    Ok(())
}

/// Puts a piece over the bytes from a place on; the piece ends within them.
fn overwrite(place: u64, piece: &[u8], bytes: &mut Vec<u8>) -> Result<(), Why> {
    let start = usize::try_from(place).map_err(|_| Why::Outside)?;
    let end = start.checked_add(piece.len()).ok_or(Why::Outside)?;
    let over = bytes
        .as_mut_slice()
        .get_mut(start..end)
        .ok_or(Why::Outside)?;
    over.copy_from_slice(piece);
    Ok(())
}

/// Keeps so many of the bytes.
fn cut(count: u64, bytes: &mut Vec<u8>) -> Result<(), Why> {
    match usize::try_from(count) {
        Ok(count) if count <= bytes.len() => {
            bytes.truncate(count);
            Ok(())
        }
        _ => Err(Why::Outside),
    }
}

/// Does what a line says to the bytes: it appends a piece, puts one over them, or cuts them.
fn apply<R: Files + AllocGlobal>(
    rt: &R,
    line: &str,
    files: &CaseFiles,
    bytes: &mut Vec<u8>,
) -> Result<(), Why> {
    if line.starts_with('"') {
        return push_unquoted(line, bytes);
    }
    let (kind, rest) = line.split_once(' ').unwrap_or((line, ""));
    match kind {
        "at" => {
            let (place, piece) = rest.split_once(' ').ok_or(Why::Number)?;
            let mut over = Vec::new(rt.alloc());
            if piece.starts_with('"') {
                push_unquoted(piece, &mut over)?;
            } else {
                let (kind, rest) = piece.split_once(' ').ok_or(Why::Unknown)?;
                push_piece(rt, kind, rest, files, &mut over)?;
            }
            overwrite(number(place)?, over.as_slice(), bytes)
        }
        "cut" => cut(number(rest)?, bytes),
        _ => push_piece(rt, kind, rest, files, bytes),
    }
}

/// The bytes that a text and the lines under an entry make.
pub fn read_contents<R: Files + AllocGlobal>(
    rt: &R,
    entry: &Entry<'_>,
    text: &str,
    files: &CaseFiles,
) -> Result<Vec<u8>, Bad> {
    let mut bytes = Vec::new(rt.alloc());
    let mut at = entry.number;
    if !text.is_empty() {
        apply(rt, text, files, &mut bytes).map_err(|why| why.at(at))?;
    }
    for line in entry.under() {
        at = at.saturating_add(1);
        apply(rt, line.trim_start(), files, &mut bytes).map_err(|why| why.at(at))?;
    }
    Ok(bytes)
}
