//! The program `ecc`: the top call over real files and streams.
#![tactic(auto)]

use ec_driver::{ecc, status_of};
use hx_io::{FileStore, StdSink, StdSource};
use std::process::ExitCode;
use std::rt::Env;
use std::{env, io};

/// The exit status where the runtime doesn't give the words of the command.
const NO_WORDS: u8 = 35;

/// The words after the program's name.
fn words(rt: &(impl Env + AllocGlobal)) -> io::Result<Vec<String>> {
    let mut words = Vec::new(rt.alloc());
    for word in env::args(rt)?.skip(1) {
        words.push(word)?;
    }
    Ok(words)
}

fn main(rt: HostRuntime) -> ExitCode {
    let Ok(words) = words(&rt) else {
        return ExitCode::from(NO_WORDS);
    };
    let mut store = FileStore::new(&rt);
    let mut input = StdSource::new(rt.stdin());
    let mut out = StdSink::new(rt.stdout());
    let mut notes = StdSink::new(rt.stderr());
    let report = ecc(
        rt.alloc(),
        &words,
        &mut store,
        &mut input,
        &mut out,
        &mut notes,
    );
    ExitCode::from(status_of(&report))
}
