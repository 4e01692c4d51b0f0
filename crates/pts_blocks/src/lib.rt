//! What task blocks mean ([parallel.taskblock]): how the body of a block and its tasks end, as a tree, and what they leave. What the
//! calls and assignments inside give is a parameter. No block is run here; `lists` has what a tree says of the end of its block.
//!
//! The definitions are in `specs/`: `Meanings` has that parameter, `Changes` changes of a store and sets of cells, `Trees` what a tree
//! says, `Parts` what statements leave, `Runs` how they run and which trees fit a block, `Footprints` the cells that they touch,
//! `Frames` parts of runs as changes of a store, and `Laws` what holds of them all.
#![tactic(auto)]

mod laws;
mod lists;
mod notes;
#[cfg(test)]
mod tests;
mod trees;

pub use laws::{
    Blocks, ends_have_their_causes, lists_are_empty_where_none_threw, one_worker_is_among_several,
    runs_apart_exchange, runs_are_framed, runs_fork, runs_join_and_split, tasks_spawn_none,
    terminated_nodes_show_at_each_level,
};
pub use lists::{ends_run, exceptions};
pub use notes::{Choice, Note};
pub use trees::{Exception, Node, NodeEnd, Tree};
