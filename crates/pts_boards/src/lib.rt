//! What the workers of a call share: numbers drawn once, an alarm, a least number, the gate that they pass, and the groups of chunks that they leave.
#![tactic(auto)]

mod alarm;
mod board;
mod claims;
mod gate;
mod grouping;
mod least;
mod pool;
#[cfg(test)]
mod runs;
#[cfg(test)]
mod tests;

pub use alarm::{Alarm, AlarmSeat};
pub use claims::{ClaimSeat, Claims};
pub use gate::{Gate, NoGate, Passing};
pub use grouping::Grouping;
pub use least::{Least, LeastSeat};
pub use pool::Pool;
