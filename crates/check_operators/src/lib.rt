//! The forms of expressions over what their parts designate: each operator, member, name and number gives
//! its typed tree and what it designates, or the first fault at its own place.
//!
//! Each call gives exactly what the rules of `c_typing` say of its arguments; want of memory alone is
//! free. An operand is taken by value, and a call that gives a fault drops it.
#![tactic(auto)]

mod assign;
mod binary;
mod leaves;
mod members;
mod parts;
mod prefix;

pub use assign::apply_assign;
pub use binary::{apply_binary, choose};
pub use leaves::{
    is_va_list, operand_of_char, operand_of_extra, operand_of_name, operand_of_number,
    operand_of_size,
};
pub use members::{select, subscript};
pub use parts::{INT, found_operand, given_operand, integer_type};
pub use prefix::{apply_prefix, cast_to, integer_place_of, place_of, step_after, step_before};
