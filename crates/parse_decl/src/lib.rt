//! The declarators, parameters and initial values of the C subset, read a token at a time.
#![tactic(auto)]

mod inits;
mod laws;
mod params;

pub use inits::{Address, InitFocus, InitFrame, InitPart, InitParts, InitState, step_init};
pub use laws::{
    completes_declarators, completes_inits, completes_params, completes_types, reads_declarators,
    reads_inits, reads_params, reads_typed_declarators,
};
pub use params::{ParamsState, has_all_names, step_params};
