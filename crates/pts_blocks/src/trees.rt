//! How the nodes of a task block ended, as a tree.

use pts_types::Thrown;
use sqlite_items::Items;

/// An exception that leaves a node.
#[derive(Debug, Drop)]
pub enum Exception {
    /// Thrown by an evaluation of the node.
    One(Thrown),
    /// The list of a block inside the node.
    Many(Items<Exception>),
}

/// How a node ended.
#[derive(Debug, Drop)]
pub enum NodeEnd {
    Finished,
    Threw(Exception),
    /// A body alone: at this one of its `run` and `wait` statements, counted from 0.
    Cancelled(u32),
    /// A task alone: it was spawned, and nothing of it has run.
    Discarded,
    /// It ends the whole run.
    Terminated,
}

/// The body of a block, or a task that it spawned.
#[cycle(tree)]
#[derive(Debug, Drop)]
pub struct Node {
    pub end: NodeEnd,
    /// The trees of the blocks that the node began, in their order.
    pub inner: Items<Tree>,
}

/// How a block ended.
#[cycle(tree)]
#[derive(Debug, Drop)]
pub struct Tree {
    pub body: Node,
    /// In the order in which they were spawned.
    pub tasks: Items<Node>,
}
