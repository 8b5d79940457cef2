//! A source, a sink and a store in memory that fail at chosen calls.
ghost use Rattle.std.specs.Prelude.{◌≡◌, ◌≤◌, ◌↔◌, true, is_err, IsErr, OnErr, IfOk, IsErrOf};
ghost use Rattle.hx_words.specs.Counts.{Rose, most_faults};
ghost use Rattle.hx_io.specs.Streams.{Takes, Puts};
ghost use Rattle.hx_io.specs.Files.{SameFiles, Finds, IsWithin};
ghost use Rattle.hx_io.specs.Bounded.{BoundedPut};
ghost use Rattle.hx_io.specs.MemFiles.{files_of, SavesWhole};
ghost use Rattle.hx_io.specs.Plan.{FailsNext, after_call, new_plan, is_failed};

use crate::mem_store::MemStore;
use crate::mem_streams::{MemSink, MemSource};
use crate::outside::{Failed, Found, Sink, Source, Store, StoreFail};
use crate::schedule::Schedule;
use std::alloc::Global;

/// A source that fails at chosen calls.
#[derive(Debug, Drop)]
pub struct FailSource {
    object: MemSource,
    plan: Schedule,
}

impl FailSource {
    /// The source of `object` whose calls of these numbers, from 0, fail. A call that fails takes no
    /// byte. After call 2^64 - 1 no call fails.
    pub fn new(object: MemSource, fails: Vec<u64>) -> FailSource
        ensures object { result.object ≡ object }
        ensures plan { result.plan ≡ new_plan fails.items }
    {
        FailSource {
            object,
            plan: Schedule::new(fails),
        }
    }

    /// The source whose bytes these are.
    pub fn inner(&self) -> &MemSource
        ensures { result.now ≡ self.now.object }
    {
        &self.object
    }
}

impl Source for FailSource {
    ghost tells = { λ _. true };

    ghost left = { λ source. source.object };

    ghost faults = { λ source. source.plan.faults };

    fn next(&mut self) -> Result<Option<u8>, Failed>
        ensures fails { IsErr result ↔ FailsNext self.old.plan }
        ensures takes { Takes self.old.object result self.new.object }
        ensures counts { self.new.plan ≡ after_call self.old.plan (is_err result) }
        ensures counted { self.old.plan.faults ≤ self.new.plan.faults }
        ensures bounded { self.new.plan.faults ≤ most_faults }
        ensures failed { OnErr result (Rose self.old.plan.faults self.new.plan.faults) }
    {
        if self.plan.count_call() {
            return Err(Failed);
        }
        self.object.next()
    }
}

/// A sink that fails at chosen calls, and where a piece passes the room of the sink in it.
#[derive(Debug, Drop)]
pub struct FailSink {
    object: MemSink,
    plan: Schedule,
}

impl FailSink {
    /// The sink over `object` whose calls of these numbers, from 0, fail. A call that fails so puts no
    /// byte. After call 2^64 - 1 no call fails so.
    pub fn new(object: MemSink, fails: Vec<u64>) -> FailSink
        ensures object { result.object ≡ object }
        ensures plan { result.plan ≡ new_plan fails.items }
    {
        FailSink {
            object,
            plan: Schedule::new(fails),
        }
    }

    /// The sink that holds the bytes.
    pub fn inner(&self) -> &MemSink
        ensures { result.now ≡ self.now.object }
    {
        &self.object
    }
}

impl Sink for FailSink {
    ghost tells = { λ _. true };

    ghost bytes = { λ sink. sink.object.bytes };

    ghost faults = { λ sink. sink.plan.faults };

    fn put(&mut self, piece: &[u8]) -> Result<(), Failed>
        ensures fails { FailsNext self.old.plan → IsErr result × (self.new.object ≡ self.old.object) }
        ensures others { ¬ FailsNext self.old.plan → BoundedPut self.old.object piece.now result self.new.object }
        ensures counts { self.new.plan ≡ after_call self.old.plan (is_err result) }
        ensures puts { Puts self.old.object.bytes piece.now result self.new.object.bytes }
        ensures counted { self.old.plan.faults ≤ self.new.plan.faults }
        ensures bounded { self.new.plan.faults ≤ most_faults }
        ensures failed { OnErr result (Rose self.old.plan.faults self.new.plan.faults) }
    {
        if self.plan.count_call() {
            return Err(Failed);
        }
        let answer = self.object.put(piece);
        self.plan.count_fault(answer.is_err());
        answer
    }
}

/// A store that fails at chosen calls. Loads and saves share one numbering.
#[derive(Debug, Drop)]
pub struct FailStore {
    object: MemStore,
    plan: Schedule,
}

impl FailStore {
    /// The store over `object` whose calls of these numbers, from 0, fail. A call that fails changes no
    /// file. After call 2^64 - 1 no call fails.
    pub fn new(object: MemStore, fails: Vec<u64>) -> FailStore
        ensures object { result.object ≡ object }
        ensures plan { result.plan ≡ new_plan fails.items }
    {
        FailStore {
            object,
            plan: Schedule::new(fails),
        }
    }

    /// The store that holds the files.
    pub fn inner(&self) -> &MemStore
        ensures { result.now ≡ self.now.object }
    {
        &self.object
    }
}

impl Store for FailStore {
    ghost tells = { λ _. true };

    ghost file = { λ store. files_of store.object };

    ghost faults = { λ store. store.plan.faults };

    fn load(&mut self, alloc: Global, name: &str, most: u64) -> Result<Found, StoreFail>
        ensures fails { IsErrOf result StoreFail.Failed ↔ FailsNext self.old.plan }
        ensures finds { Finds (files_of self.old.object name.now) most result }
        ensures within { IfOk result (IsWithin most) }
        ensures same { SameFiles (files_of self.old.object) (files_of self.new.object) }
        ensures counts { self.new.plan ≡ after_call self.old.plan (is_failed result) }
        ensures counted { self.old.plan.faults ≤ self.new.plan.faults }
        ensures bounded { self.new.plan.faults ≤ most_faults }
        ensures failed { IsErrOf result StoreFail.Failed → Rose self.old.plan.faults self.new.plan.faults }
    {
        if self.plan.count_call() {
            return Err(StoreFail::Failed);
        }
        self.object.load(alloc, name, most)
    }

    fn save(&mut self, alloc: Global, name: &str, bytes: &[u8]) -> Result<(), StoreFail>
        ensures fails { IsErrOf result StoreFail.Failed ↔ FailsNext self.old.plan }
        ensures exact { SavesWhole (files_of self.old.object) name.now bytes.now result (files_of self.new.object) }
        ensures counts { self.new.plan ≡ after_call self.old.plan (is_failed result) }
        ensures counted { self.old.plan.faults ≤ self.new.plan.faults }
        ensures bounded { self.new.plan.faults ≤ most_faults }
        ensures failed { IsErrOf result StoreFail.Failed → Rose self.old.plan.faults self.new.plan.faults }
    {
        if self.plan.count_call() {
            return Err(StoreFail::Failed);
        }
        self.object.save(alloc, name, bytes)
    }
}
