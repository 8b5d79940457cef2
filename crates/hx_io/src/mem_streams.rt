//! A source, a sink and a store in memory. They tell what they hold.
ghost use Rattle.std.specs.Prelude.{◌≡◌, ◌≤◌, ℕ, List, [], true, length, None, IsOk, IfOk, OnErr, IsErrOf, IsTrue, option_copied};
ghost use Rattle.hx_words.specs.Counts.{Rose, most_faults};
ghost use Rattle.hx_io.specs.Streams.{Takes, Puts};
ghost use Rattle.hx_io.specs.Files.{SameFiles, SameButAt, Finds, IsWithin, Saves};
ghost use Rattle.hx_io.specs.Bounded.{BoundedPut};

use crate::faults::faults_after;
use crate::outside::{Failed, Found, Sink, Source, Store, StoreFail};
use std::alloc::{AllocError, Global};
use std::collections::BTreeMap;
use std::marker::Model;

/// Bytes in memory that are taken in order. A contract sees the bytes that are left.
#[derive(Debug, Drop)]
pub struct MemSource {
    bytes: Vec<u8>,
    taken: usize,
}

impl Model for MemSource {
    ghost use Rattle.std.specs.Prelude.{ℕ, ◌≤◌, List, drop, vec_len};

    ghost Value = { List ℕ };

    ghost view = { λ s. drop s.taken s.bytes.items };

    ghost invariant = { λ s. s.taken ≤ vec_len s.bytes };
}

impl MemSource {
    /// A source of these bytes.
    pub fn new(bytes: Vec<u8>) -> MemSource
        ensures { result ≡ bytes.items }
    {
        MemSource { bytes, taken: 0 }
    }

    /// The bytes that are left.
    pub fn rest(&self) -> &[u8]
        ensures { result.now ≡ self.now }
    {
        &self.bytes[self.taken..]
    }
}

impl Source for MemSource {
    ghost tells = { λ _. true };

    ghost left = { λ source. source };

    ghost faults = { λ _. 0 };

    fn next(&mut self) -> Result<Option<u8>, Failed>
        ensures takes { Takes self.old result self.new }
        ensures never_fails { IsOk result }
    {
        match self.bytes.get(self.taken) {
            Some(byte) => {
                let byte = *byte;
                self.taken += 1;
                Ok(Some(byte))
            }
            None => Ok(None),
        }
    }
}

/// Bytes in memory that are put in order, up to a number that is fixed at the start.
#[derive(Debug, Drop)]
pub struct MemSink {
    bytes: Vec<u8>,
    room: usize,
    faults: u64,
}

impl Model for MemSink {
    ghost use Rattle.std.specs.Prelude.{◌≤◌, vec_len, vec_capacity};
    ghost use Rattle.hx_io.specs.Bounded.{Bounded};

    ghost Value = { Bounded };

    ghost view = { λ s. record { bytes = s.bytes.items; room = s.room; faults = s.faults } };

    ghost invariant = { λ s. (vec_len s.bytes ≤ s.room) × (s.room ≤ vec_capacity s.bytes) };
}

impl MemSink {
    /// An empty sink for `room` bytes, whose memory it takes at once.
    pub fn new(alloc: Global, room: usize) -> Result<MemSink, AllocError>
        ensures { IfOk result (λ sink. sink ≡ record { bytes = []; room = room; faults = 0 }) }
    {
        let bytes = Vec::with_capacity(alloc, room)?;
        Ok(MemSink {
            bytes,
            room,
            faults: 0,
        })
    }

    /// The bytes that were put.
    pub fn bytes(&self) -> &[u8]
        ensures { result.now ≡ self.now.bytes }
    {
        self.bytes.as_slice()
    }
}

impl Sink for MemSink {
    ghost tells = { λ _. true };

    ghost bytes = { λ sink. sink.bytes };

    ghost faults = { λ sink. sink.faults };

    fn put(&mut self, piece: &[u8]) -> Result<(), Failed>
        ensures exact { BoundedPut self.old piece.now result self.new }
        ensures puts { Puts self.old.bytes piece.now result self.new.bytes }
        ensures counted { self.old.faults ≤ self.new.faults }
        ensures bounded { self.new.faults ≤ most_faults }
        ensures failed { OnErr result (Rose self.old.faults self.new.faults) }
    {
        let left = self.room - self.bytes.len();
        if piece.len() <= left {
            self.bytes.extend_from_slice(piece).unwrap();
            return Ok(());
        }
        self.bytes.extend_from_slice(&piece[..left]).unwrap();
        self.faults = faults_after(self.faults, true);
        Err(Failed)
    }
}
