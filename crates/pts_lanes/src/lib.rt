//! Kernels over slices of numbers, eight places at once.
//!
//! Each gives what its plain definition gives, at every length, and takes no memory.
#![tactic(auto)]

mod fills;
mod folds;
mod gathering;
mod laws;
mod operations;
mod strips;
#[cfg(test)]
mod tests;

pub use fills::{compare_u64, map2_u64, select_u64};
pub use folds::{count_true, fold_u64, min_max_i64};
pub use gathering::gather_u64;
pub use laws::{comparisons_give_truths, operations_give_numbers};
