//! What arrays hold before a script runs: values of a list, one value, a row of numbers with a step, or mixed numbers.
#![tactic(auto)]

mod starts;
mod values;

pub use starts::start_cells;
pub use values::{value_of_val, value_with};
