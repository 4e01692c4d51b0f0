//! Conflicts: in a script that is run no two unordered evaluations touch one cell, one of which writes it. `clear` finds the
//! least such pair of a program, by arithmetic on lines of cells and never by walking positions.
//! The definitions are in `specs/`:
//! `Order` says which evaluations a policy keeps in order, `Touches` which cells a point touches, `Concurrency` which parts of a
//! block have no order between them, and `Conflicts` what a conflict is and which is the least;
//! `Search` has what the search goes by.
#![tactic(auto)]

mod blocks;
mod calls;
mod clearing;
mod found;
mod laws;
mod meeting;
mod order;
mod pair;
mod points;
mod search;

pub use clearing::{ClearFault, Cleared, clear};
pub use laws::one_least_conflict;
pub use pair::Pair;
