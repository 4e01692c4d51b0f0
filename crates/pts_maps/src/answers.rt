//! What map calls answer.

use pts_store::Writes;

/// The answer of a map call.
#[derive(Clone, Copy, Debug, PartialEq, Eq)]
pub enum Answer {
    /// All positions have run.
    Done,
    /// The first position at which a predicate holds; None where it holds at none.
    Index(Option<u64>),
    /// At how many positions a predicate holds.
    Count(u64),
    /// The function of the call threw.
    Terminated,
}

/// What a map call answers, and what it writes.
#[derive(Drop)]
pub struct MapAnswer {
    /// The cells of its target, and the cell that its answer is put into; nothing where the call has terminated.
    pub writes: Writes,
    pub answer: Answer,
}
