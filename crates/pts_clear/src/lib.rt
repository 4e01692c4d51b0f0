//! A program without conflict has calls without conflict, as their evaluations touch cells: what `pts_conflict` finds in the lists of
//! a program, and what `pts_outcomes` says of a call, belong together. Nothing runs here. `specs/Showing` says when the lists show a call.
#![tactic(auto)]

mod laws;

pub use laws::{calls_are_clear, map_calls_are_shown};
