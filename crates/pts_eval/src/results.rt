//! What calls give, and whether a run goes on.

use pts_types::Value;

/// What a call gives that was not terminated; its writes come beside it.
#[derive(Clone, Copy, Debug, PartialEq, Eq)]
pub enum CallResult {
    /// It has made its writes, and gives nothing else.
    Done,
    /// A sum or a count.
    Value(Value),
    /// The first position at which a predicate holds; None where it holds at none.
    Position(Option<u64>),
}

/// Whether a further statement may follow.
#[derive(Clone, Copy, Debug, PartialEq, Eq)]
pub enum RunState {
    Going,
    /// A statement has terminated the run.
    Ended,
}
