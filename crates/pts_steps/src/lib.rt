//! What each point of a loop computes, as code with numbers in place of names: each local value by its place in a frame or by
//! the note of its point, each element by the note of its Read.
#![tactic(auto)]

mod bodies;
mod builder;
mod globals;
mod heads;
mod kinds;
mod laws;
mod loops;
mod step;
#[cfg(test)]
mod tests;

pub use globals::Globals;
pub use laws::{
    each_text_has_its_steps, loops_show_the_same_without_constants,
    points_of_loops_stand_behind_what_they_need, steps_fit_their_points,
};
pub use loops::compile_loops;
pub use step::Step;
