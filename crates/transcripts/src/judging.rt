//! Compares what a call did with what a case expects.

use crate::case::Entry;
use crate::contents::{CaseFiles, read_contents};
use crate::faults::{Bad, Why};
use crate::texts::{number, word, write_bytes};
use hx_io::{FailSink, FailSource, FailStore};
use std::alloc::{AllocError, Global};
use std::fmt::Write;
use std::rt::Files;

/// What stands behind a call.
#[derive(Debug, Drop)]
pub struct Got {
    pub status: u8,
    pub store: FailStore,
    pub input: FailSource,
    pub out: FailSink,
    pub notes: FailSink,
}

/// The text of the report's line, if one line of text was put, or nothing.
fn told(notes: &[u8]) -> Option<&str> {
    let text = str::from_utf8(notes).ok()?;
    match text.strip_suffix('\n') {
        Some(line) if !line.contains('\n') => Some(line),
        None if text.is_empty() => Some(text),
        _ => None,
    }
}

/// Whether the line of a report is the one that is wanted, or begins so where ` ..` stands behind it.
fn is_wanted(line: &str, wanted: &str) -> bool {
    match wanted.strip_suffix("..") {
        Some(front) => line.starts_with(front),
        None => line == wanted,
    }
}

/// The status and the line of a report, if they aren't what is wanted.
fn judge_told(status: u8, notes: &[u8], rest: &str, text: &mut String) -> Result<(), AllocError> {
    let (wanted_status, wanted) = rest.split_once(' ').unwrap_or((rest, ""));
    let line = told(notes);
    if let Some(line) = line
        && number(wanted_status) == Ok(u64::from(status))
        && is_wanted(line, wanted)
    {
        return Ok(());
    }
    match line {
        Some("") => write!(text, "tells {status}"),
        Some(line) => write!(text, "tells {status} {line}"),
        None => {
            write!(text, "tells {status} ")?;
            write_bytes(notes, text)
        }
    }
}

/// The bytes that were got, if they aren't those that are wanted.
pub fn judge_bytes(
    name: &str,
    got: &[u8],
    wanted: &[u8],
    text: &mut String,
) -> Result<(), AllocError> {
    if got == wanted {
        return Ok(());
    }
    write!(text, "{name} ")?;
    write_bytes(got, text)
}

/// What a file holds, if it isn't what is wanted.
fn judge_saved(
    name: &str,
    held: Option<&[u8]>,
    wanted: &[u8],
    text: &mut String,
) -> Result<(), AllocError> {
    match held {
        Some(bytes) if bytes == wanted => Ok(()),
        Some(bytes) => {
            write!(text, "saved {name} ")?;
            write_bytes(bytes, text)
        }
        None => write!(text, "absent {name}"),
    }
}

/// How many bytes a file has, if it isn't as many as are wanted.
fn judge_size(
    name: &str,
    held: Option<&[u8]>,
    wanted: Option<u64>,
    text: &mut String,
) -> Result<(), AllocError> {
    let size = held.map(|bytes| bytes.len() as u64);
    match size {
        _ if size == wanted => Ok(()),
        Some(size) => write!(text, "sized {name} {size}"),
        None => write!(text, "absent {name}"),
    }
}

/// The file of an entry: its name as it stands, what is held under it, and what stands behind the name.
fn file_of<'a, 'b>(
    alloc: Global,
    entry: &Entry<'a>,
    got: &'b Got,
) -> Result<(&'a str, Option<&'b [u8]>, &'a str), Bad> {
    let (name, rest) = entry.rest.split_once(' ').unwrap_or((entry.rest, ""));
    let meant = word(alloc, name).map_err(|why| why.at(entry.number))?;
    Ok((name, got.store.inner().held(meant.as_str()), rest))
}

/// Writes what is held in place of an entry of a file, if it isn't what the entry says.
fn judge_file<R: Files + AllocGlobal>(
    rt: &R,
    entry: &Entry<'_>,
    files: &CaseFiles,
    got: &Got,
    text: &mut String,
) -> Result<Result<(), AllocError>, Bad> {
    let (name, held, rest) = file_of(rt.alloc(), entry, got)?;
    let line = entry.number;
    Ok(match entry.name {
        "saved" => {
            let wanted = read_contents(rt, entry, rest, files)?;
            judge_saved(name, held, wanted.as_slice(), text)
        }
        "sized" => {
            let wanted = number(rest).map_err(|why| why.at(line))?;
            judge_size(name, held, Some(wanted), text)
        }
        _ => judge_size(name, held, None, text),
    })
}

/// Writes what was got in place of an entry, if it isn't what the entry says.
fn judge<R: Files + AllocGlobal>(
    rt: &R,
    entry: &Entry<'_>,
    files: &CaseFiles,
    got: &Got,
    text: &mut String,
) -> Result<Result<(), AllocError>, Bad> {
    match entry.name {
        "tells" => Ok(judge_told(got.status, got.notes.inner().bytes(), entry.rest, text)),
        "output" => {
            let wanted = read_contents(rt, entry, entry.rest, files)?;
            let put = got.out.inner().bytes();
            Ok(judge_bytes("output", put, wanted.as_slice(), text))
        }
        "left" => {
            let wanted = read_contents(rt, entry, entry.rest, files)?;
            let left = got.input.inner().rest();
            Ok(judge_bytes("left", left, wanted.as_slice(), text))
        }
        "saved" | "sized" | "absent" => judge_file(rt, entry, files, got, text),
        _ => Ok(Ok(())),
    }
}

/// What was got in place of an entry, or nothing where the entry is met or expects nothing.
pub fn in_place<R: Files + AllocGlobal>(
    rt: &R,
    entry: &Entry<'_>,
    files: &CaseFiles,
    got: &Got,
) -> Result<String, Bad> {
    let mut text = String::new(rt.alloc());
    match judge(rt, entry, files, got, &mut text)? {
        Ok(()) => Ok(text),
        Err(_) => Err(Why::NoMemory.at(entry.number)),
    }
}
