//! What calls have in common as they run: `ranges` has how many cells a range has, its elements and its chunks, `functions` what a
//! function gives, `groupings` the chunks that one thread runs, and `into` the cell that an answer is put into.
#![tactic(auto)]

mod functions;
mod groupings;
mod into;
mod ranges;

pub use functions::call_function;
pub use groupings::single_grouping;
pub use into::write_into;
pub use ranges::{count_cells, read_element};
