//! Commands as texts: plays the cases of files over objects in memory, and prints them again with what they got.
//!
//! Without words it plays the files of [`FILES`] and prints each whole, with what a case got in place of an expectation
//! that isn't met: where all are met, what is printed is what the files hold. With words it plays the files that they
//! name, and lists only the cases that differ, with a count at the end.
#![tactic(auto)]

mod case;
mod contents;
mod faults;
mod judging;
mod playing;
mod setting;
mod texts;

use crate::faults::Fault;
use crate::playing::{Tally, play_file};
use std::io::{BufWriter, Write};
use std::process::ExitCode;
use std::rt::{Env, Files};
use std::{env, io};

/// The files that are played where no words name others.
static FILES: [&str; 5] = [
    "language.txt",
    "refusals.txt",
    "meaning.txt",
    "images.txt",
    "words.txt",
];

/// Plays a file, and says where it can't be read.
fn play_named<R: Files + Eprint + AllocGlobal, W: Write>(
    rt: &R,
    name: &str,
    tally: &mut Tally,
    out: &mut W,
) -> Result<(), Fault> {
    let answer = play_file(rt, name, tally, out);
    if let Err(fault) = &answer {
        eprintln!(rt; "{name}: {fault}")?;
    }
    answer
}

/// Plays the files of the words; the count of cases that differ.
fn list(rt: &(impl Files + Env + Print + Eprint + AllocGlobal)) -> Result<u64, Fault> {
    let mut out = BufWriter::new(rt.alloc(), io::writer(rt))?;
    let mut tally = Tally::new(env::args(rt)?.count() <= 1);
    if tally.prints_all {
        for name in &FILES {
            play_named(rt, name, &mut tally, &mut out)?;
        }
    }
    for name in env::args(rt)?.skip(1) {
        play_named(rt, name.as_str(), &mut tally, &mut out)?;
    }
    if !tally.prints_all {
        writeln!(out, "{} cases, {} differ", tally.cases, tally.differing)?;
    }
    out.flush()?;
    Ok(tally.differing)
}

fn main(rt: HostRuntime) -> ExitCode {
    match list(&rt) {
        Ok(0) => ExitCode::SUCCESS,
        Ok(_) => ExitCode::FAILURE,
        Err(_) => ExitCode::FAILURE,
    }
}
