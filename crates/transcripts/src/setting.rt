//! Reads what stands before the call of a case.

use crate::case::{Entry, Fails, Setup};
use crate::contents::{CaseFiles, read_contents};
use crate::faults::{Bad, Why};
use crate::texts::{number, word};
use std::alloc::{AllocError, Global};
use std::rt::Files;

/// How many bytes the output takes where a case doesn't say.
const ROOM: usize = 65_536;

fn new_setup(alloc: Global) -> Setup {
    Setup {
        files: CaseFiles {
            files: Vec::new(alloc),
        },
        words: Vec::new(alloc),
        input: Vec::new(alloc),
        fails: Fails {
            store: Vec::new(alloc),
            input: Vec::new(alloc),
            output: Vec::new(alloc),
            notes: Vec::new(alloc),
        },
        room: ROOM,
    }
}

/// The words of a line, cut at blanks.
fn read_words(alloc: Global, rest: &str) -> Result<Vec<String>, Why> {
    let mut words = Vec::new(alloc);
    for text in rest.split(' ') {
        if !text.is_empty() {
            words.push(word(alloc, text)?)?;
        }
    }
    Ok(words)
}

/// The numbers of a line, behind the first of its words.
fn read_numbers(alloc: Global, rest: &str) -> Result<Vec<u64>, Why> {
    let mut numbers = Vec::new(alloc);
    for text in rest.split(' ').skip(1) {
        numbers.push(number(text)?)?;
    }
    Ok(numbers)
}

fn set_fails(alloc: Global, rest: &str, fails: &mut Fails) -> Result<(), Why> {
    let numbers = read_numbers(alloc, rest)?;
    match rest.split_once(' ') {
        Some(("store", _)) => fails.store = numbers,
        Some(("input", _)) => fails.input = numbers,
        Some(("output", _)) => fails.output = numbers,
        Some(("notes", _)) => fails.notes = numbers,
        _ => return Err(Why::Unknown),
    }
    Ok(())
}

fn room_of(rest: &str) -> Result<usize, Why> {
    usize::try_from(number(rest)?).map_err(|_| Why::Number)
}

/// The file of an entry.
fn read_file<R: Files + AllocGlobal>(
    rt: &R,
    entry: &Entry<'_>,
    files: &CaseFiles,
) -> Result<(String, Vec<u8>), Bad> {
    let (name, text) = entry.rest.split_once(' ').unwrap_or((entry.rest, ""));
    let name = word(rt.alloc(), name).map_err(|why| why.at(entry.number))?;
    Ok((name, read_contents(rt, entry, text, files)?))
}

/// Does what an entry says to what stands before the call.
fn set<R: Files + AllocGlobal>(rt: &R, entry: &Entry<'_>, setup: &mut Setup) -> Result<(), Bad> {
    let alloc = rt.alloc();
    let line = entry.number;
    match entry.name {
        "file" => {
            let file = read_file(rt, entry, &setup.files)?;
            setup
                .files
                .files
                .push(file)
                .map_err(|_| Why::NoMemory.at(line))?;
        }
        "words" => setup.words = read_words(alloc, entry.rest).map_err(|why| why.at(line))?,
        "input" => setup.input = read_contents(rt, entry, entry.rest, &setup.files)?,
        "fails" => {
            set_fails(alloc, entry.rest, &mut setup.fails).map_err(|why| why.at(line))?;
        }
        "room" => setup.room = room_of(entry.rest).map_err(|why| why.at(line))?,
        "case" | "tells" | "output" | "saved" | "sized" | "absent" | "left" | "" | "//" => {}
        _ => return Err(Why::Unknown.at(line)),
    }
    Ok(())
}

/// How many entries have a name.
fn count(entries: &[Entry<'_>], name: &str) -> usize {
    entries.iter().filter(|entry| entry.name == name).count()
}

/// What stands before the call of a case.
pub fn read_setup<R: Files + AllocGlobal>(
    rt: &R,
    line: usize,
    entries: &[Entry<'_>],
) -> Result<Setup, Bad> {
    let mut setup = new_setup(rt.alloc());
    for entry in entries {
        set(rt, entry, &mut setup)?;
    }
    if count(entries, "words") != 1 {
        return Err(Why::Words.at(line));
    }
    if count(entries, "tells") != 1 || count(entries, "output") > 1 {
        return Err(Why::Tells.at(line));
    }
    Ok(setup)
}
