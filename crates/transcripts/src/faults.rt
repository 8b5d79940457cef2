//! Why a file of cases can't be played.

use std::alloc::{AllocError, AllocFailed};
use std::io;
use thiserror::Error;

/// What is wrong with a line.
#[derive(Clone, Copy, Debug, PartialEq, Eq, Error)]
pub enum Why {
    #[error("no line begins so")]
    Unknown,
    #[error("this is no text between quotes")]
    Quotes,
    #[error("these are no bytes in hexadecimal")]
    Hex,
    #[error("this is no number")]
    Number,
    #[error("this lies outside the bytes, or there are too many")]
    Outside,
    #[error("there is no such file")]
    NoFile,
    #[error("the case has no line of words, or more than one")]
    Words,
    #[error("the case doesn't say once what is told")]
    Tells,
    #[error("out of memory")]
    NoMemory,
}

impl From<AllocError> for Why {
    fn from(_: AllocError) -> Why {
        Why::NoMemory
    }
}

impl<T: Drop> From<AllocFailed<T>> for Why {
    fn from(_: AllocFailed<T>) -> Why {
        Why::NoMemory
    }
}

/// A line that can't be read.
#[derive(Clone, Copy, Debug, PartialEq, Eq, Error)]
#[error("line {line}: {why}")]
pub struct Bad {
    pub line: usize,
    pub why: Why,
}

impl Why {
    /// That of a line.
    pub fn at(self, line: usize) -> Bad {
        Bad { line, why: self }
    }
}

/// Why the program ends early.
#[derive(Debug, Drop, Error)]
pub enum Fault {
    #[error("{0}")]
    Case(Bad),
    #[error("{0}")]
    Outside(io::Error),
}

impl From<Bad> for Fault {
    fn from(bad: Bad) -> Fault {
        Fault::Case(bad)
    }
}

impl From<io::Error> for Fault {
    fn from(error: io::Error) -> Fault {
        Fault::Outside(error)
    }
}

impl From<AllocError> for Fault {
    fn from(error: AllocError) -> Fault {
        Fault::Outside(error.into())
    }
}

impl From<Why> for Fault {
    fn from(why: Why) -> Fault {
        Fault::Case(why.at(0))
    }
}
