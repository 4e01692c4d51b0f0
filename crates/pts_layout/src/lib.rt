//! Where the points of a program stand: those of each item, of each call and of each block together, in the order of their
//! numbers. `laws` has laws of the lists of every program, and `finding` finds the points of an item and of a call.
//! The definitions are in `specs/Layout`.
#![tactic(auto)]

mod finding;
mod laws;

pub use finding::{points_before, points_of_call};
pub use laws::{
    calls_have_few_positions, clauses_and_answers_are_one_cell, points_of_blocks_stand_in_order,
    points_of_calls_stand_together, points_of_items_stand_together,
    tests_stand_before_their_points,
};
