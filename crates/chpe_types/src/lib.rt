//! Images and the hybrid metadata in them: the values, and the look-ups by place.
//!
//! [`kind_at`] and [`kind_near`] tell the side of the code at a place and [`redirect_of`] the EC function that an x64
//! one stands for, both on metadata whose tables are in order ([`valid_meta`]).
#![tactic(auto)]

mod image;
mod looks;

pub use image::{CodeRange, FnRow, Image, ImageSection, ImportSlot, Meta, Redirect};
pub use looks::{kind_at, kind_near, redirect_of, valid_meta};
