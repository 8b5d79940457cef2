//! The command `ecc`: from its words to a report.
//!
//! [`ecc`] is the whole of it, over any store, source and sinks. `specs/Courses.antt` says what a command
//! comes to before it saves anything, the first refusal of all; `specs/Answers.antt` what stands after a call.
#![tactic(auto)]

mod building;
mod definitions;
mod driver;
mod generating;
mod interpreting;
mod planning;
mod running;

pub use driver::ecc;
pub use ec_report::{Outcome, Report, status_of};
