//! The workers of a call: they draw its chunks from a board, each into a state of its own.
//! `work` says what a worker makes of a chunk, `call` which chunks there are and for how many workers, `worker` what one of them draws,
//! `runner` lets them all draw, and `shares` has what they leave.
#![tactic(auto)]

mod call;
mod runner;
mod shares;
#[cfg(test)]
mod tests;
mod work;
mod worker;

pub use call::SharedCall;
pub use shares::Shares;
pub use work::Work;
