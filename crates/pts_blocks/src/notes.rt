//! Which answer a call of a block took.

use pts_boards::Grouping;

/// What tells an answer of a call from others that it may give.
#[derive(Debug, Drop)]
pub struct Choice {
    /// Of a sum, or of a loop whose answer has one.
    pub grouping: Option<Grouping>,
    /// Of a `find_if` that found something.
    pub index: Option<u64>,
}

/// Which answer a call of a block took.
#[derive(Debug, Drop)]
pub struct Note {
    /// The number of the call over all items.
    pub call: u32,
    pub grouping: Option<Grouping>,
    pub index: Option<u64>,
    /// Whether the call ended the run.
    pub terminated: bool,
}
