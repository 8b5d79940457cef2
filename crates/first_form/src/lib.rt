//! Programs of the first form: C units whose `main` puts bytes by constant numbers and returns one.
//!
//! `specs/FirstForm.antt` says which bytes are such a unit, as a list of tokens and the blanks
//! between them. `parse` reads exactly these units, and `code` gives their x64 code, which
//! `specs/FirstCode.antt` lists instruction by instruction.
#![tactic(auto)]

mod coding;
mod laws;
mod reading;
mod scanning;
mod services;

pub use coding::code;
pub use laws::{code_size, one_reading, within_bytes};
pub use reading::{FirstUnit, parse};
pub use services::Service;
