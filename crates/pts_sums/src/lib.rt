//! `reduce`, `transform_reduce` and the four scans, as a program calls them: each reads a view and gives back what it writes.
//! `terms` says what is summed, `gathered` holds items that are read twice, `folds` and `groups` fold them by chunks and groups of
//! these, `places` and `sequences` write the places of scans; `reductions` and `scans` bring them to a program and a view; `laws`
//! ties the answers to the standard.
#![tactic(auto)]

mod answers;
mod folds;
mod gathered;
mod groups;
mod laws;
mod operations;
mod places;
mod reductions;
mod run;
mod scans;
mod sequences;
mod terms;

pub use answers::{Outcome, ScanAnswer, SumAnswer};
pub use laws::{places_are_those_of_the_standard, sums_are_those_of_the_standard};
pub use reductions::{reduce, transform_reduce};
pub use scans::scan;
