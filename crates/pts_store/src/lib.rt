//! What the cells of all arrays hold, and what calls, chunks and tasks write into them: a store, overlays over it and over one
//! another, and the writes that they give, to be merged and accepted.
#![tactic(auto)]

mod band;
mod block;
mod cells;
mod laws;
mod overlay;
mod padding;
mod page;
mod row;
mod shared;
mod slot;
mod store;
#[cfg(test)]
mod swaps;
#[cfg(test)]
mod tests;
mod view;
mod writes;

pub use laws::{
    merging_is_associative, writes_apart_are_accepted_in_any_order,
    writes_apart_merge_in_any_order, writes_are_those_of_their_steps,
    writes_in_turn_are_the_merged_ones, writing_keeps_the_kinds, writing_keeps_the_shape,
};
pub use overlay::Overlay;
pub use shared::stores_are_shared;
pub use store::Store;
pub use view::View;
pub use writes::{Writes, merge};
