//! Which chunks a call has, and for how many workers.

ghost use Rattle.std.specs.Prelude.{◌≡◌, ◌≤◌};
ghost use Rattle.pts_groupings.specs.Chunks.{chunk_count, sharing};
ghost use Rattle.pts_workers.specs.Shares.{worker_count};

use pts_boards::Pool;
use pts_types::Policy;

/// A call over so many positions, which are cut into chunks of the pool's length.
#[derive(Clone, Copy, Debug, PartialEq, Eq)]
pub struct SharedCall {
    /// The number of the call, which the gate is told.
    pub call: u32,
    pub policy: Policy,
    pub count: u32,
    pub pool: Pool,
}

impl SharedCall {
    /// How many chunks it has.
    pub fn chunks(&self) -> u32
        ensures { result ≡ chunk_count self.now.count self.now.pool.chunk }
    {
        self.count.div_ceil(self.pool.chunk)
    }

    /// How many workers share the chunks: no more than there are chunks, and at least one.
    pub fn workers(&self) -> u32
        ensures { result ≡ worker_count (sharing self.now.policy self.now.pool.workers) (chunk_count self.now.count self.now.pool.chunk) }
    {
        let most = self.sharing();
        let chunks = self.chunks();
        if chunks < 1 {
            1
        } else if chunks < most {
            chunks
        } else {
            most
        }
    }

    // How many workers the policy lets share.
    fn sharing(&self) -> u32
        ensures sharing { result ≡ sharing self.now.policy self.now.pool.workers }
        ensures some { 1 ≤ result }
        ensures few { result ≤ 64 }
    {
        match self.policy {
            Policy::Par | Policy::ParUnseq => self.pool.workers,
            Policy::Seq | Policy::Unseq | Policy::Vector => 1,
        }
    }
}
