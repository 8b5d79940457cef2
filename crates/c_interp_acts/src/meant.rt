use c_meaning::SourceEnd;
use thiserror::Error;

/// How a run went: its end, the units paid, the peak in bytes and the bytes taken of the input.
#[derive(Clone, Copy, Debug, PartialEq, Eq)]
pub struct Meant {
    pub outcome: SourceEnd,
    pub units: u64,
    pub peak: u64,
    pub taken: u64,
}

/// Why a run was broken off.
#[derive(Clone, Copy, Debug, PartialEq, Eq, Error)]
pub enum MeanFail {
    #[error("the input could not be read")]
    ReadFault,
    #[error("the output could not be written")]
    WriteFault,
    #[error("out of memory")]
    NoMemory,
}
