//! Loops as they run: one reads a view and gives back what it writes, position by position in index order, chunk by chunk past a gate,
//! under every policy. `calls` finds a loop of a program, `run` has what it is told of it, and `loops` brings it from `starts` to its
//! answer, which `answers` has. At a position `values` fills in its head, `positions` runs its points and `gathering` gives what they have noted to the views;
//! at a point `branches` says whether it is reached, `cells` where it is, `points` what is done, as an `effect`, and `turn` makes that.
//! Behind all positions `assigning` leaves the reductions and inductions in their cells. Nothing is
//! allocated at a position but what the writes take, and no name is searched.
#![tactic(auto)]

mod answers;
mod assigning;
mod branches;
mod calls;
mod cells;
mod effect;
mod gathering;
mod loops;
mod points;
mod positions;
mod run;
mod starts;
#[cfg(test)]
mod tests;
mod turn;
mod values;

pub use answers::LoopAnswer;
pub use calls::run_loop;
