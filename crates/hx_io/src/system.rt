//! The system's streams and files, which tell nothing of what they hold.
//!
//! No proof says which bytes the system gives or takes. What is proved is that these calls are safe and
//! end, that a whole file has at most the bytes that were asked for, that a call answers that it failed
//! only where the count rose, and that over a reader or a writer of std that says which bytes it has, as
//! one in memory does, no byte is lost, repeated or made up.
ghost use Rattle.std.specs.Prelude.{◌≡◌, ◌≤◌, false, [], None, Some, IfOk, IfSome, OnErr};
ghost use Rattle.hx_words.specs.Counts.{Rose, most_faults};
ghost use Rattle.hx_io.specs.Files.{Finds, IsWithin};
ghost use Rattle.hx_io.specs.Known.{Writes};

use crate::faults::faults_after;
use crate::outside::{Failed, Found, Sink, Source, Store, StoreFail};
use std::alloc::Global;
use std::fs;
use std::io::{ErrorKind, Read, Write};
use std::rt::Files;

/// How many bytes one read asks for.
const CHUNK: usize = 4096;

/// The bytes of a reader, such as the standard input. Each error of the reader is a fault.
#[derive(Debug, Drop)]
pub struct StdSource<R> {
    reader: R,
    chunk: [u8; CHUNK],
    start: usize,
    end: usize,
    faults: u64,
    ghost in_chunk: { end ≤ 4096 },
}

impl<R> StdSource<R> {
    /// A source of what `reader` gives.
    pub fn new(reader: R) -> StdSource<R>
        ensures reader { result.reader ≡ reader }
        ensures unread { result.end ≤ result.start }
        ensures faults { result.faults ≡ 0 }
    {
        StdSource {
            reader,
            chunk: [0; CHUNK],
            start: 0,
            end: 0,
            faults: 0,
        }
    }
}

impl<R: Read> StdSource<R> {
    ghost use Rattle.std.specs.Prelude.{◌≡◌, ◌≤◌, length, OnOk};
    ghost use Rattle.std.specs.Io.KnownBytes.{Keeps, IsAtEnd};
    ghost use Rattle.hx_io.specs.Waiting.{waiting};

    /// Reads more bytes where none that were read are left.
    fn refill(&mut self) -> Result<(), Failed>
        ensures keeps { Keeps (waiting R.remaining self.old) (waiting R.remaining self.new) }
        ensures at_end { OnOk result (self.new.end ≤ self.new.start → IsAtEnd (waiting R.remaining self.new)) }
        ensures within { self.new.end ≤ length self.new.chunk }
        ensures faults { self.new.faults ≡ self.old.faults }
    {
        if self.start < self.end {
            return Ok(());
        }
        match self.reader.read(&mut self.chunk) {
            Ok(count) => {
                self.start = 0;
                self.end = count;
                Ok(())
            }
            Err(_) => Err(Failed),
        }
    }
}

impl<R: Read> Source for StdSource<R> {
    ghost use Rattle.std.specs.Prelude.{◌≤◌, false, [], OnErr};
    ghost use Rattle.hx_words.specs.Counts.{Rose, most_faults};
    ghost use Rattle.hx_io.specs.Known.{TakesKnown};
    ghost use Rattle.hx_io.specs.Waiting.{waiting};

    ghost tells = { λ _. false };

    ghost left = { λ _. [] };

    ghost faults = { λ source. source.faults };

    fn next(&mut self) -> Result<Option<u8>, Failed>
        ensures takes { TakesKnown (waiting R.remaining self.old) result (waiting R.remaining self.new) }
        ensures counted { self.old.faults ≤ self.new.faults }
        ensures bounded { self.new.faults ≤ most_faults }
        ensures failed { OnErr result (Rose self.old.faults self.new.faults) }
    {
        let answer = self.refill();
        self.faults = faults_after(self.faults, answer.is_err());
        answer?;
        if self.start >= self.end {
            return Ok(None);
        }
        let byte = self.chunk[self.start];
        self.start += 1;
        Ok(Some(byte))
    }
}

/// A writer that passes its bytes on at once, such as the standard output. Each error of the writer is a
/// fault, and so is a write that takes nothing of a piece.
#[derive(Debug, Drop)]
pub struct StdSink<W> {
    writer: W,
    faults: u64,
}

impl<W> StdSink<W> {
    /// A sink into `writer`.
    pub fn new(writer: W) -> StdSink<W>
        ensures writer { result.writer ≡ writer }
        ensures faults { result.faults ≡ 0 }
    {
        StdSink { writer, faults: 0 }
    }
}

impl<W: Write> Sink for StdSink<W> {
    ghost tells = { λ _. false };

    ghost bytes = { λ _. [] };

    ghost faults = { λ sink. sink.faults };

    fn put(&mut self, piece: &[u8]) -> Result<(), Failed>
        ensures writes { Writes (W.contents self.old.writer) piece.now result (W.contents self.new.writer) }
        ensures counted { self.old.faults ≤ self.new.faults }
        ensures bounded { self.new.faults ≤ most_faults }
        ensures failed { OnErr result (Rose self.old.faults self.new.faults) }
    {
        let answer = write_whole(&mut self.writer, piece);
        self.faults = faults_after(self.faults, answer.is_err());
        answer
    }
}

/// The system's files, by their paths. Each error but that of a file that is not there is a fault.
#[derive(Debug, Drop)]
pub struct FileStore<R> {
    files: R,
    faults: u64,
}

impl<R> FileStore<R> {
    /// The files that `files` opens.
    pub fn new(files: R) -> FileStore<R>
        ensures files { result.files ≡ files }
        ensures faults { result.faults ≡ 0 }
    {
        FileStore { files, faults: 0 }
    }
}

impl<R: Files> Store for FileStore<R> {
    ghost tells = { λ _. false };

    ghost file = { λ _ _. None };

    ghost faults = { λ store. store.faults };

    fn load(&mut self, alloc: Global, name: &str, most: u64) -> Result<Found, StoreFail> {
        let answer = match fs::open(&self.files, name) {
            Ok(mut file) => read_whole(alloc, &mut file, most),
            Err(error) if error.kind() == ErrorKind::NotFound => Ok(Found::Missing),
            Err(_) => Err(StoreFail::Failed),
        };
        self.faults = faults_after(self.faults, answer == Err(StoreFail::Failed));
        answer
    }

    fn save(&mut self, _alloc: Global, name: &str, bytes: &[u8]) -> Result<(), StoreFail> {
        let answer = match fs::create(&self.files, name) {
            Ok(mut file) => write_whole(&mut file, bytes),
            Err(_) => Err(Failed),
        };
        self.faults = faults_after(self.faults, answer.is_err());
        answer.map_err(|_| StoreFail::Failed)
    }
}

/// Writes all the bytes, in as many writes as it takes.
fn write_whole<W: Write>(writer: &mut W, bytes: &[u8]) -> Result<(), Failed>
    ensures { Writes (W.contents writer.old) bytes.now result (W.contents writer.new) }
{
    let mut rest = bytes;
    while !rest.is_empty() {
        match writer.write(rest) {
            Ok(count) if count > 0 => rest = &rest[count..],
            _ => return Err(Failed),
        }
    }
    Ok(())
}

/// Reads to the end, but at most `most + 1` bytes.
fn read_whole<R: Read>(alloc: Global, reader: &mut R, most: u64) -> Result<Found, StoreFail>
    ensures within { IfOk result (IsWithin most) }
    ensures finds { IfSome (R.remaining reader.old) (λ left. Finds (Some left) most result) }
{
    let mut bytes = Vec::new(alloc);
    let mut chunk = [0; CHUNK];
    let mut room = most;
    loop {
        let wanted = room.saturating_add(1).min(CHUNK as u64) as usize;
        let count = match reader.read(&mut chunk[..wanted]) {
            Ok(count) => count,
            Err(_) => return Err(StoreFail::Failed),
        };
        if count == 0 {
            return Ok(Found::Whole(bytes));
        }
        if count as u64 > room {
            return Ok(Found::Longer);
        }
        room -= count as u64;
        if bytes.extend_from_slice(&chunk[..count]).is_err() {
            return Err(StoreFail::NoMemory);
        }
    }
}

#[cfg(test)]
mod tests;
