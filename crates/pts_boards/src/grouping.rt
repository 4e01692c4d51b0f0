//! Which chunks one worker took, and in which order.

use sqlite_items::Items;

/// The numbers of the chunks, a group for each worker that took a chunk.
#[derive(Debug, Drop)]
pub struct Grouping {
    pub groups: Items<Items<u32>>,
}
