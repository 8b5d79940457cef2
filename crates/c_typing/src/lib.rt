//! The rules of types: which programs of the C subset are typed, what each name and expression means,
//! which conversions are inserted, and where the first fault of any other program lies.
//!
//! `specs/` has the rules, one file a subject: scopes, the forms of types, conversions, expressions,
//! statements, initial values, declarations and items, units. Each is a function that visits a part of
//! a tree and gives its typed tree or the first fault in it, and its arguments are what a checker has:
//! a scope, tables, a tree. [`Tables`], the scopes and [`Operand`] are the data that these speak of.
//! No code checks anything here.
#![tactic(auto)]

mod faults;
mod laws;
mod operands;
mod scopes;
mod tables;

pub use faults::{Fault, Refusal, TypeKind, UnitFault};
pub use laws::example_answers;
pub use operands::{Designated, Operand, Value};
pub use scopes::{
    ByName, LocalMeaning, LocalName, LocalScope, Meaning, UnitName, UnitScope, UnitTag,
};
pub use tables::{Enclosing, Progress, Tables};
