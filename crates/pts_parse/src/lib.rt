//! The parser: from the signs of a script to its tree.
#![tactic(auto)]

mod blocks;
mod calls;
mod expressions;
mod laws;
mod loops;
mod reader;
mod script;
mod sums;

pub use laws::{begins_in_parts, one_reading, rules_match_what_is_spelled};
pub use reader::Stop;
pub use script::parse_signs;
