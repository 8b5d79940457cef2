//! Plays the cases of a file.

ghost use Rattle.std.specs.Prelude.{◌≤◌, length};

use crate::case::{Entry, Fails, Setup, entries};
use crate::faults::{Bad, Fault, Why};
use crate::judging::{Got, in_place, judge_bytes};
use crate::setting::read_setup;
use ec_driver::{ecc, status_of};
use hx_io::{FailSink, FailSource, FailStore, MemSink, MemSource, MemStore, Store};
use std::alloc::Global;
use std::fs;
use std::io::{self, Write};
use std::rt::Files;

/// What is counted and printed.
#[derive(Clone, Copy, Debug)]
pub struct Tally {
    /// Whether cases are printed that don't differ.
    pub prints_all: bool,
    pub cases: u64,
    pub differing: u64,
}

impl Tally {
    pub fn new(prints_all: bool) -> Tally {
        Tally {
            prints_all,
            cases: 0,
            differing: 0,
        }
    }
}

/// The notes take so many bytes.
const NOTES: usize = 4_096;

/// The store that holds a case's files.
fn store_of(alloc: Global, setup: &Setup) -> Result<MemStore, Why> {
    let mut store = MemStore::new(alloc);
    for (name, bytes) in &setup.files.files {
        store
            .save(alloc, name.as_str(), bytes.as_slice())
            .map_err(|_| Why::NoMemory)?;
    }
    Ok(store)
}

/// Does the call of a case.
fn call(alloc: Global, setup: &Setup) -> Result<Got, Why> {
    let fails = &setup.fails;
    let mut store = FailStore::new(store_of(alloc, setup)?, fails.store.clone()?);
    let given = MemSource::new(setup.input.clone()?);
    let mut input = FailSource::new(given, fails.input.clone()?);
    let room = MemSink::new(alloc, setup.room)?;
    let mut out = FailSink::new(room, fails.output.clone()?);
    let lines = MemSink::new(alloc, NOTES)?;
    let mut notes = FailSink::new(lines, fails.notes.clone()?);
    let report = ecc(
        alloc,
        setup.words.as_slice(),
        &mut store,
        &mut input,
        &mut out,
        &mut notes,
    );
    Ok(Got {
        status: status_of(&report),
        store,
        input,
        out,
        notes,
    })
}

/// A case as it stands, with what it got in place of what isn't met, and whether something isn't.
#[derive(Debug, Drop)]
struct Played {
    text: String,
    differs: bool,
}

impl Played {
    /// Appends lines as they stand.
    fn push(&mut self, lines: &[&str]) -> Result<(), Why> {
        for line in lines {
            self.text.push_str(line)?;
            self.text.push('\n')?;
        }
        Ok(())
    }

    /// Appends an entry, or what was got in its place.
    fn push_entry(&mut self, entry: &Entry<'_>, other: &str) -> Result<(), Why> {
        if other.is_empty() {
            return self.push(entry.lines);
        }
        self.differs = true;
        self.push(&[other])
    }

    /// Appends what was put where nothing was to be put.
    fn push_surplus(&mut self, alloc: Global, put: &[u8]) -> Result<(), Why> {
        let mut text = String::new(alloc);
        if judge_bytes("output", put, b"", &mut text).is_err() {
            return Err(Why::NoMemory);
        }
        if text.is_empty() {
            return Ok(());
        }
        self.differs = true;
        self.push(&[text.as_str()])
    }
}

/// The entries of a case behind its call.
fn play_entries<R: Files + AllocGlobal>(
    rt: &R,
    first: &Entry<'_>,
    case: &[Entry<'_>],
    setup: &Setup,
    got: &Got,
) -> Result<Played, Bad> {
    let mut played = Played {
        text: String::new(rt.alloc()),
        differs: false,
    };
    played
        .push(first.lines)
        .map_err(|why| why.at(first.number))?;
    let expects_output = case.iter().any(|entry| entry.name == "output");
    for entry in case {
        let other = in_place(rt, entry, &setup.files, got)?;
        let line = entry.number;
        played
            .push_entry(entry, other.as_str())
            .map_err(|why| why.at(line))?;
        if entry.name == "tells" && !expects_output {
            let put = got.out.inner().bytes();
            played
                .push_surplus(rt.alloc(), put)
                .map_err(|why| why.at(line))?;
        }
    }
    Ok(played)
}

/// Plays a case, whose first entry says its name.
fn play_case<R: Files + AllocGlobal>(
    rt: &R,
    first: &Entry<'_>,
    case: &[Entry<'_>],
) -> Result<Played, Bad> {
    let line = first.number;
    let setup = read_setup(rt, line, case)?;
    let got = call(rt.alloc(), &setup).map_err(|why| why.at(line))?;
    play_entries(rt, first, case, &setup, &got)
}

/// How many entries come before the next case.
fn before_case(entries: &[Entry<'_>]) -> usize
    ensures { result ≤ length entries.now }
{
    let count = entries
        .iter()
        .take_while(|entry| entry.name != "case")
        .count();
    count.min(entries.len())
}

/// Prints what was played, where it is to be printed, and counts it.
fn tell_played<W: Write>(played: &Played, tally: &mut Tally, out: &mut W) -> io::Result<()> {
    tally.cases = tally.cases.saturating_add(1);
    if played.differs {
        tally.differing = tally.differing.saturating_add(1);
    }
    if played.differs || tally.prints_all {
        out.write_all(played.text.as_bytes())?;
    }
    Ok(())
}

/// Prints the lines before the first case, where they are to be printed.
fn print_front<W: Write>(entries: &[Entry<'_>], tally: &Tally, out: &mut W) -> io::Result<()> {
    if tally.prints_all {
        for entry in entries {
            for line in entry.lines {
                writeln!(out, "{line}")?;
            }
        }
    }
    Ok(())
}

/// Plays the case that begins at an entry, if there is one, and gives where the next one begins.
fn play_at<R: Files + AllocGlobal, W: Write>(
    rt: &R,
    entries: &[Entry<'_>],
    at: usize,
    tally: &mut Tally,
    out: &mut W,
) -> Result<usize, Fault> {
    if at >= entries.len() {
        return Ok(at);
    }
    let (_, left) = entries.split_at(at);
    let Some((first, after)) = left.split_first() else {
        return Ok(at);
    };
    let own = before_case(after);
    let (case, _) = after.split_at(own);
    let played = play_case(rt, first, case)?;
    tell_played(&played, tally, out)?;
    Ok(at.saturating_add(own).saturating_add(1))
}

/// Plays cases, the first of which is the first entry.
fn play_cases<R: Files + AllocGlobal, W: Write>(
    rt: &R,
    entries: &[Entry<'_>],
    tally: &mut Tally,
    out: &mut W,
) -> Result<(), Fault> {
    let mut at = 0;
    for _ in 0..entries.len() {
        at = play_at(rt, entries, at, tally, out)?;
    }
    Ok(())
}

/// Plays the file of a name.
pub fn play_file<R: Files + AllocGlobal, W: Write>(
    rt: &R,
    name: &str,
    tally: &mut Tally,
    out: &mut W,
) -> Result<(), Fault> {
    let text = fs::read_to_string(rt, name)?;
    let lines: Vec<&str> = text.lines().collect(rt.alloc())?;
    let entries = entries(rt.alloc(), lines.as_slice())?;
    let (front, cases) = entries.split_at(before_case(entries.as_slice()));
    print_front(front, tally, out)?;
    play_cases(rt, cases, tally, out)
}
