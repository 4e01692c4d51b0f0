//! Where the loops of a program stand in its lists: the points for which it has steps are those that its list of points shows,
//! and their heads in numbers are those of its texts; and what the names in them stand for. Nothing runs here; these are laws of
//! the lists of every program.
//! The definitions are in `specs/LoopPoints`.
#![tactic(auto)]

mod laws;

pub use laws::{loops_stand_in_the_lists, names_in_loops_stand_for_arrays_and_functions};
