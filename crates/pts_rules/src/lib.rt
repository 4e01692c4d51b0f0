//! The rules of the language as definitions, and the names that an item may use: what each stands for, and sums of them.
#![tactic(auto)]

mod meaning;
mod scope;
mod sums;

pub use meaning::{Meaning, Signature};
pub use scope::Scope;
pub use sums::{atom_value, sum_value};
