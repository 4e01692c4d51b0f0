//! What loops answer.

use pts_boards::Grouping;
use pts_store::Writes;
use pts_types::Value;
use sqlite_items::Items;

/// What a loop answers, and what it writes.
#[derive(Drop)]
pub enum LoopAnswer {
    /// All positions have run.
    Written {
        /// The cells that its evaluations have written, and the cells that its clauses name.
        writes: Writes,
        /// What these take behind the loop, in the order of the clauses that name one.
        live_outs: Items<Value>,
        /// The chunks that each worker ran, in their order.
        grouping: Grouping,
    },
    /// An evaluation has thrown, or an induction leaves its kind; with a grouping, a combination over its groups has thrown.
    Terminated {
        grouping: Option<Grouping>,
    },
}
