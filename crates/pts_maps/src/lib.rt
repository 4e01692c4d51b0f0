//! `for_each`, `transform`, `find_if` and `count_if`, as a program calls them: each reads a view and gives back what it writes.
//! One thread runs them chunk by chunk, in index order, under every policy. `transforms` writes what a function gives at each
//! position, `searches` asks a predicate, and `calls` brings them to a program and a view; `answers` has what they answer.
#![tactic(auto)]

mod answers;
mod calls;
mod run;
mod searches;
mod transforms;

pub use answers::{Answer, MapAnswer};
pub use calls::{count_if, find_if, for_each, transform};
