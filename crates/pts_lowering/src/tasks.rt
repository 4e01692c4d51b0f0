//! Task blocks with numbers in place of calls, loops and inner blocks.

use sqlite_items::Items;

/// The points of an assignment of a block, by their numbers in the item: the Reads of its value from `first` on, and behind
/// them its Write.
#[derive(Clone, Copy, Debug, PartialEq, Eq)]
pub struct AssignPoints {
    pub first: u32,
    pub write: u32,
}

/// A statement of a task block.
#[cycle(task)]
#[derive(Debug, Drop)]
pub enum LoweredTask {
    Run(Items<LoweredTask>),
    Wait,
    /// A code from 0 to 999.
    Throw(u16),
    Assign(AssignPoints),
    /// A call or a loop, by its number over all items.
    Call(u32),
    /// A block inside this one, by its number over all items.
    Block(u32),
}

/// A task block ([parallel.taskblock]).
#[derive(Debug, Drop)]
pub struct LoweredBlock {
    pub item: u32,
    /// How many points of the item stand before those of the block.
    pub first_point: u32,
    /// How many points the block has, those of inner blocks included.
    pub points: u32,
    pub body: Items<LoweredTask>,
}
