//! What the lists of a program hold.

use pts_tree::Name;
use pts_types::{Kind, Value};
use sqlite_items::Items;

/// An array, and what its cells hold before the script runs.
#[derive(Debug, Drop)]
pub struct ArrayInfo {
    pub name: Name,
    pub kind: Kind,
    pub cells: Items<Value>,
}

/// A statement of the script, by the number of its call, block or array in the list of these. A loop is a call.
#[derive(Clone, Copy, Debug, PartialEq, Eq)]
pub enum StatementInfo {
    Call(u32),
    Block(u32),
    Print(u32),
}
