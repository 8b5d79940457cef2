//! Reads the units of the C subset, a token at a time: their declarations and definitions.
//!
//! [`step_unit`] takes a token, and [`finish_unit`] says at the end of the tokens which unit they were.
//! The parts of an item are read by machines of their own: the fields of a struct, the head of a
//! typedef, an adjustor, globals, parameters and a function's body. Heights are counted as the trees
//! grow, and a tree of more than 256 nodes on a path is given up at once, so that no deep tree exists.
#![tactic(auto)]

mod adjustors;
mod fields;
mod globals;
mod items;
mod parts;
mod typedefs;
mod units;

pub use adjustors::AdjustorState;
pub use fields::FieldsState;
pub use globals::GlobalsState;
pub use items::ItemState;
pub use parts::{GlobalsPart, ItemPart, ItemsPart, UnitPart};
pub use typedefs::TypedefState;
pub use units::{UnitState, begin_unit, finish_unit, step_unit};
