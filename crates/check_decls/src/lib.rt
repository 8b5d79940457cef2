//! Declarations that need no expressions.
#![tactic(auto)]

mod adjustors;
mod functions;
mod globals;
mod heads;
mod initials;
mod names;
mod numbers;
mod paths;
mod structs;

pub use adjustors::define_adjustment;
pub use functions::{
    declare_head, declare_new_head, declare_typedef, define_body, enclosing, next_number,
    start_body,
};
pub use globals::{declare_extern, define_globals};
pub use heads::{
    check_free, check_variadic_type, declare_local, enter_head, enter_parameters, number_local,
    types_of_params,
};
pub use names::{
    check_untaken, declare_name, is_no_adjustor, is_no_function, is_no_global, is_no_typedef,
};
pub use numbers::{char_constant, number_constant};
pub use structs::define_struct;
