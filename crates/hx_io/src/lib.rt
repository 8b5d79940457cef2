//! The outside of a program: bytes that come in, bytes that go out, and named files.
//!
//! `Source`, `Sink` and `Store` are the three ways to the outside. Each object counts its faults, and
//! some tell what they hold: where one does, its calls say which bytes they took, put, found or saved.
//! A call answers that it failed only where the count rose, or stands at its greatest value.
//!
//! `MemSource`, `MemSink` and `MemStore` are in memory, `FailSource`, `FailSink` and `FailStore` fail
//! at chosen calls, and `StdSource`, `StdSink` and `FileStore` are over the system's streams and files.
#![tactic(auto)]

mod failing;
mod faults;
mod mem_store;
mod mem_streams;
mod outside;
mod schedule;
mod system;

pub use failing::{FailSink, FailSource, FailStore};
pub use mem_store::MemStore;
pub use mem_streams::{MemSink, MemSource};
pub use outside::{Failed, Found, Sink, Source, Store, StoreFail};
pub use system::{FileStore, StdSink, StdSource};
