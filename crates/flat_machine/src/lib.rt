//! The flat machine: x64 code from byte 0 of an image, run as one region that is read and executed.
//!
//! `specs/` defines it apart from the code: `Layout.antt` says where image, stack, guard and services
//! stand, `Steps.antt` what one step does, and `Runs.antt` what a run of some steps puts and comes to.
//! Nothing of any source program is in it. `run` is that run.
#![tactic(auto)]

pub mod ends;
pub mod guest;
pub mod run;
pub mod service;
