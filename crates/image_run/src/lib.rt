//! The run of an image that stands in a store, under a name: its file is read, loaded at a base and run.
//!
//! [`run_file`] is the whole of it, over any store, source and sink. `specs/Courses.antt` says what comes before the
//! first step, the first refusal of all, by the file alone; `specs/Runs.antt` what a run leaves of input and output.
#![tactic(auto)]

mod opening;
mod refusal;
mod running;

pub use refusal::RunRefusal;
pub use running::run_file;
