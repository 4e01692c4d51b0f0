//! How many workers run a call, and how many positions a chunk holds.

ghost use Rattle.std.specs.Prelude.{◌≡◌, ◌≤◌, IfSome, IsSome, ◌↔◌};

/// The most workers of a pool.
pub const MOST_WORKERS: u32 = 64;

/// The most positions of a chunk.
pub const LONGEST_CHUNK: u32 = 65_536;

/// The workers of a call, 1 to 64, and the length of a chunk, 1 to 65,536 positions.
#[derive(Clone, Copy, Debug, PartialEq, Eq)]
pub struct Pool {
    pub workers: u32,
    pub chunk: u32,
    pub ghost has_worker: { 1 ≤ workers },
    pub ghost few_workers: { workers ≤ 64 },
    pub ghost has_position: { 1 ≤ chunk },
    pub ghost short_chunk: { chunk ≤ 65536 },
}

impl Pool {
    /// A pool of this many workers, whose chunks have this length, where both lie in their ranges.
    pub fn new(workers: u32, chunk: u32) -> Option<Pool>
        ensures fields { IfSome result (λ pool. (pool.workers ≡ workers) × (pool.chunk ≡ chunk)) }
        ensures ranges { IsSome result ↔ ((1 ≤ workers) × (workers ≤ 64) × (1 ≤ chunk) × (chunk ≤ 65536)) }
    {
        if workers < 1 || workers > MOST_WORKERS || chunk < 1 || chunk > LONGEST_CHUNK {
            return None;
        }
        Some(Pool { workers, chunk })
    }
}
