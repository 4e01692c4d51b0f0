//! Which items use a name that nothing declares, and which declare a name again.
#![tactic(auto)]

mod blocks;
mod bodies;
mod expressions;
mod items;
mod locals;
mod loops;
mod parts;

pub use items::{declares_twice, uses_unknown};
