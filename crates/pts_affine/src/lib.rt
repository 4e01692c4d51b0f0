//! Lines of cells, and where two of them meet.
#![tactic(auto)]

mod equation;
mod laws;
mod line;
mod root;
mod span;
#[cfg(test)]
mod tests;

pub use laws::lines_are_bounded_by_their_ends;
pub use line::{Line, meet, meet_after};
