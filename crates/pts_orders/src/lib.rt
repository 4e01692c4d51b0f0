//! Orders in which the points of a call may be run at its positions. Nothing here knows what a point does: an evaluation is two
//! numbers, and what it makes of a state is the caller's.
//!
//! `laws` has what holds of all orders: which are allowed (index order, strips, chunks), that those that are allowed have one
//! outcome, and that parts which share nothing may be run apart. `body` is what runs one evaluation, `stretch` the numbers from
//! one on and before another, and `runs` the nested loops: points, a grid, a strip, strips.
//!
//! The laws over states, effects and cells hold at all types, by type parameters. A crate above cites the lemmas themselves, with
//! what its evaluations touch: `IndexOrder.extensions_agree`, `Clear.clear_orders_agree`, `Clear.apart_run_apart`,
//! `Apart.commute`, `SideBySide.run_apart`, `Windows.strips_in_windows`.
#![tactic(auto)]

mod body;
mod laws;
mod runs;
mod stretch;
#[cfg(test)]
mod tests;

pub use body::{Body, Stop};
pub use laws::{
    Touching, changes_may_wait, chunks_are_allowed, evaluations_apart_commute,
    index_order_is_allowed, index_order_is_strips, orders_agree, orders_without_conflict_agree,
    parts_end_at_cuts, parts_run_apart, parts_without_conflict_run_apart,
    places_tell_what_is_allowed, strips_are_allowed, strips_run_in_windows,
};
pub use runs::{run_grid, run_points, run_strip, run_strips};
pub use stretch::{Cuts, Stretch};
