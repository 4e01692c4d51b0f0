//! A program without conflict has loops without conflict, as their evaluations touch cells. Nothing runs here. `specs/Showing` says when
//! the lists of a program show a loop.
#![tactic(auto)]

mod laws;

pub use laws::loops_are_free;
