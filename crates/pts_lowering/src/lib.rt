//! Calls, loops and blocks in the form in which they run: arrays, functions, calls and blocks by their numbers, and ranges,
//! cells and first values as numbers and values in place of sums.
#![tactic(auto)]

mod blocks;
mod calls;
mod forms;
mod items;
mod loops;
mod parts;
mod tasks;

pub use blocks::add_lowered_blocks;
pub use forms::{
    CellIndex, CellRange, ForEach, Induction, InitialValue, LoopClause, LoopReduction, LoweredCall,
    LoweredLoop, Operation, Reduction, Scan, ScanOrder, Search, Transform,
};
pub use items::add_lowered_calls;
pub use tasks::{AssignPoints, LoweredBlock, LoweredTask};
