//! What names, written types and values mean to a checker: the look-ups of scopes, the forms of types
//! and the conversions.
//!
//! Each call gives exactly what the rules of `c_typing` say of its arguments: a value, or the first
//! fault with its kind and place. A call that enters something into [`Tables`] leaves them as the rules
//! say where it gives a value. Want of memory alone is free: [`Refusal::NoMemory`] is given where no
//! memory is left, and where a table would pass 2^32 places, which its numbers can't name.
#![tactic(auto)]

mod conversions;
mod forms;
mod integers;
mod refusals;
mod same;
mod scopes;
mod tables;

pub use c_typing::{Fault, Refusal, Tables, TypeKind};
pub use conversions::{convert, convert_to, effect_of, join, makes_null, scalar_of, value_of};
pub use forms::{
    FormedType, MOST_BYTES, as_integer, declared_type_of, form_type, is_array_type,
    is_pointer_type, is_struct_type, is_void_type, length_types, object_type_of, result_type_of,
};
pub use integers::{bytes, common_type, has_sign, promote};
pub use refusals::{refusal, small_place};
pub use same::{is_same_function, is_same_int, is_same_type};
pub use scopes::{
    designated_name, find_field, find_local, find_meaning, find_own, find_service, find_tag,
    is_import_slot_name, is_name_taken,
};
pub use tables::{enter_fun_type, enter_ty, type_at};
