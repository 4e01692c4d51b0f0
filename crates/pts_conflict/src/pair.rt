//! Pairs of evaluations that conflict.

/// Two evaluations that touch one cell, that nothing orders, and one of which writes.
#[derive(Clone, Copy, Debug, PartialEq, Eq)]
pub struct Pair {
    pub item: u32,
    pub array: u32,
    /// The index of the cell that both touch.
    pub cell: u32,
    /// The position of the first evaluation, and its point's number in the item.
    pub p: u32,
    pub k: u32,
    /// The same of the second one.
    pub q: u32,
    pub m: u32,
}
