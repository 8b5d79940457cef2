//! The traits of the outside, with what their calls answer.
ghost use Rattle.std.specs.Prelude.{◌≡◌, ℕ, ◌≤◌, Bool, List, Option, IsTrue, IfOk, OnErr, IsErrOf};
ghost use Rattle.hx_words.specs.Counts.{Rose, most_faults};
ghost use Rattle.hx_io.specs.Streams.{Takes, Puts};
ghost use Rattle.hx_io.specs.Files.{SameFiles, SameButAt, Finds, IsWithin, Saves};

use std::alloc::Global;
use thiserror::Error;

/// The outside refused: a stream or a file could not be read or written.
#[derive(Clone, Copy, Debug, PartialEq, Eq, Error)]
#[error("the outside failed")]
pub struct Failed;

/// What a store has under a name.
#[derive(Debug, PartialEq, Eq, Drop)]
pub enum Found {
    /// No file.
    Missing,
    /// A file, with all its bytes in order.
    Whole(Vec<u8>),
    /// A file of more bytes than were wanted.
    Longer,
}

/// Why a store refused.
#[derive(Clone, Copy, Debug, PartialEq, Eq, Error)]
pub enum StoreFail {
    /// A file could not be read or written.
    #[error("the store failed")]
    Failed,
    /// There was no memory for the call.
    #[error("out of memory")]
    NoMemory,
}

/// Bytes that come in, one at a time.
pub trait Source {
    /// Whether the bytes that are left are known.
    ghost tells: { Self → Bool };

    /// The bytes that are left, where they are told.
    ghost left: { Self → List ℕ };

    /// How many calls have failed, which stops at 2^64 - 1.
    ghost faults: { Self → ℕ };

    /// Takes the first byte that is left; `None` where nothing is left. After `Failed` the same bytes
    /// are left.
    fn next(&mut self) -> Result<Option<u8>, Failed>
        ensures takes { IsTrue (tells self.old) → Takes (left self.old) result (left self.new) }
        ensures told { tells self.new ≡ tells self.old }
        ensures counted { faults self.old ≤ faults self.new }
        ensures bounded { faults self.new ≤ most_faults }
        ensures failed { OnErr result (Rose (faults self.old) (faults self.new)) };
}

/// Bytes that go out.
pub trait Sink {
    /// Whether the bytes that were put are known.
    ghost tells: { Self → Bool };

    /// The bytes that were put, where they are told.
    ghost bytes: { Self → List ℕ };

    /// How many calls have failed, which stops at 2^64 - 1.
    ghost faults: { Self → ℕ };

    /// Appends the piece. After `Failed` a prefix of it was appended.
    fn put(&mut self, piece: &[u8]) -> Result<(), Failed>
        ensures puts { IsTrue (tells self.old) → Puts (bytes self.old) piece.now result (bytes self.new) }
        ensures told { tells self.new ≡ tells self.old }
        ensures counted { faults self.old ≤ faults self.new }
        ensures bounded { faults self.new ≤ most_faults }
        ensures failed { OnErr result (Rose (faults self.old) (faults self.new)) };
}

/// Named files.
pub trait Store {
    /// Whether the files are known.
    ghost tells: { Self → Bool };

    /// The bytes of the file of a name, where the files are told and there is one.
    ghost file: { Self → List ℕ → Option (List ℕ) };

    /// How many calls have failed, which stops at 2^64 - 1.
    ghost faults: { Self → ℕ };

    /// Reads the file of a name: `Missing` exactly where there is none, and `Longer` exactly where it
    /// has more than `most` bytes. No file changes.
    fn load(&mut self, alloc: Global, name: &str, most: u64) -> Result<Found, StoreFail>
        ensures finds { IsTrue (tells self.old) → Finds (file self.old name.now) most result }
        ensures within { IfOk result (IsWithin most) }
        ensures same { IsTrue (tells self.old) → SameFiles (file self.old) (file self.new) }
        ensures told { tells self.new ≡ tells self.old }
        ensures counted { faults self.old ≤ faults self.new }
        ensures bounded { faults self.new ≤ most_faults }
        ensures failed { IsErrOf result StoreFail.Failed → Rose (faults self.old) (faults self.new) };

    /// Makes the bytes the whole file of the name. After an error the file holds what it held, or a
    /// prefix of the bytes. No file of another name changes.
    fn save(&mut self, alloc: Global, name: &str, bytes: &[u8]) -> Result<(), StoreFail>
        ensures saves { IsTrue (tells self.old) → Saves (file self.old name.now) bytes.now result (file self.new name.now) }
        ensures others { IsTrue (tells self.old) → SameButAt (file self.old) name.now (file self.new) }
        ensures told { tells self.new ≡ tells self.old }
        ensures counted { faults self.old ≤ faults self.new }
        ensures bounded { faults self.new ≤ most_faults }
        ensures failed { IsErrOf result StoreFail.Failed → Rose (faults self.old) (faults self.new) };
}
