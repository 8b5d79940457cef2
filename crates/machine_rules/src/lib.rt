//! The definition of the machine that runs mixed code: x64 and Arm64EC code in one process, over one set
//! of registers, with a code map that tells the two apart.
//!
//! `specs/` has it all: `Layout.antt` says where stack, guard and services stand, `State.antt` what a
//! machine is, `Steps.antt` what one step does, `Runs.antt` what some steps come to, and `Loads.antt` how
//! an image stands in memory at the start. Nothing of any source program is in it, and no code that runs.
//! The types here are the ones that code and definition share; `laws` states what holds of the definition.
#![tactic(auto)]

pub mod ends;
pub mod laws;
pub mod places;
