//! The types of the C subset, the places of a source text, and the layout of types in memory.
//!
//! A type names its parts by their places in the lists of [`Types`], so a type is a small `Copy`
//! value. [`layout`] gives the size and the alignment of a type by C's natural alignment on 64-bit
//! Windows: integers take 1, 2, 4 or 8 bytes, pointers 8, an array is its elements in a row, and a
//! struct's fields stand in order, each at the next multiple of its alignment. [`size`], [`align`]
//! and [`offset`] are its parts, and its steps, from [`leaf_extent`] to [`add_padding`], are here for who
//! measures types in another order. Nothing here takes memory.
#![tactic(auto)]

mod measure;
mod parts;
mod types;

pub use measure::{align, layout, offset, size};
pub use parts::{Extent, add_field, add_padding, elements_extent, leaf_extent, nesting};
pub use types::{FieldDef, FunTy, IntTy, Span, StructDef, Ty, Types};
