//! What sums and scans answer.

use pts_boards::Grouping;
use pts_store::Writes;
use pts_types::Value;

/// The value of a sum, or that a transform or a combination of two values threw.
#[derive(Clone, Copy, Debug, PartialEq, Eq)]
pub enum Outcome {
    Value(Value),
    Terminated,
}

/// What a sum answers.
#[derive(Drop)]
pub struct SumAnswer {
    /// The cell that the sum is put into, where the call names one and the outcome is a value; else nothing.
    pub writes: Writes,
    pub outcome: Outcome,
    /// The chunks that each worker folded, in their order.
    pub grouping: Grouping,
}

/// What a scan answers: all its places, or that a transform or a combination of two values threw.
#[derive(Drop)]
pub enum ScanAnswer {
    Written(Writes),
    Terminated,
}
