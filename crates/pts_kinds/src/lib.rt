//! The kinds of expressions, and whether an item is right by names, numbers and kinds.
#![tactic(auto)]

mod bodies;
mod calls;
mod exprs;
mod items;
mod kinds;
mod loops;
mod names;
mod numbers;
mod starts;
mod tasks;

pub use calls::sum_kind;
pub use exprs::expr_typing;
pub use items::is_right;
pub use kinds::{Kinds, Typing};
pub use names::kind_of_array;
