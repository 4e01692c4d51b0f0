//! Indices as lines, the items that have one that is none, and the first position at which an item leaves an array.
#![tactic(auto)]

mod affine;
mod firsts;
mod indices;
mod items;
mod places;
mod ranges;

pub use affine::{Affine, affine_of};
pub use indices::is_not_affine;
pub use items::first_out;
