//! The types that a program names, with the extents that are known of them.
//!
//! [`c_types::layout`] walks all the parts of a type. [`MeasuredTypes`] notes the extent of each type
//! and of each struct as it comes, so that the layout of a type is looked up, and nothing is walked.
//! Contracts see it as [`Types`](c_types::Types), as they see a [`TypeTable`](type_table::TypeTable). The
//! steps, from [`measure_of`] to [`find_extent`], are here for who notes extents of types that are all there.
#![tactic(auto)]

mod measure;
mod table;

pub use measure::{Measured, find_extent, measure_of, struct_measure};
pub use table::MeasuredTypes;
