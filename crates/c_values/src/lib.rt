//! Values of the language and the operations on them.
//!
//! A value is a number, a pointer, a function, or the values of an aggregate's parts. There are no
//! addresses and no bytes: a pointer names an object by where its whole stands and a path of fields
//! and indexes into it.
#![tactic(auto)]

mod comparing;
mod laws;
mod numbers;
mod objects;
mod parts;
mod value;
mod zeros;

pub use comparing::{compare, number, truth};
pub use laws::worked_arithmetic;
pub use numbers::{arithmetic, complement, negate, step, wrap};
pub use objects::{copy_object, copy_value, find, part, write};
pub use parts::Parts;
pub use value::{Object, Root, Value};
pub use zeros::zero;
