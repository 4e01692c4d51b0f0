//! How deep, how large and how long parts of a script are, and the rules that ask for it.
#![tactic(auto)]

mod blocks;
mod counting;
mod depths;
mod limits;
mod numbers;
mod sizes;
mod statements;
mod steps;

pub use counting::{call_points, points, points_of_loop, reads};
pub use depths::depth_of;
pub use limits::{
    has_backward_range, has_bad_identity, has_bad_step, is_too_deep, is_too_many, lengths_differ,
};
pub use numbers::{loop_positions, number, step_of};
pub use sizes::size_of;
