//! Lists of rows with names, in which a name is found without a walk over the rows.
//!
//! [`NamedRows`] is such a list: contracts see the rows in order. It hides an index from each name to
//! the first row of that name. The index itself, from lists of numbers to places, serves lists that
//! lie elsewhere too: [`key_for`] and [`put_key`] keep it, [`place_of`] looks a key up.
#![tactic(auto)]

mod named;
mod places;
mod rows;

pub use named::Named;
pub use places::{key_for, place_of, put_key};
pub use rows::NamedRows;
