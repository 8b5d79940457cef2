//! Reports: what a command answers, the line that says it and the exit status of the program.
//!
//! [`line`] is the line, its line feed included, and [`status_of`] the status; `specs/Reports.antt` has
//! the table of both. Whoever reads a line knows the status ([`lines_tell_statuses`]).
#![tactic(auto)]

mod kinds;
mod laws;
mod lines;
mod names;
mod reports;

pub use kinds::{ImageRefusal, LimitKind, LoadRefusal, Outcome, StuckWhy, TypeKind, UnitRefusal};
pub use laws::lines_tell_statuses;
pub use lines::line;
pub use reports::{Report, status_of};
