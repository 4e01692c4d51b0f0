//! One worker, and how it draws.

ghost use Rattle.std.specs.Prelude.{◌≡◌, ◌≤◌};
ghost use Rattle.pts_groupings.specs.Chunks.{chunk_count};
ghost use Rattle.pts_workers.specs.Drawing.{IsReady, HasDrawn};

use crate::call::SharedCall;
use crate::work::Work;
use pts_boards::{ClaimSeat, Claims, Gate, Passing};

/// A worker of a call.
#[derive(Drop)]
pub(crate) struct Worker<S> {
    pub seat: ClaimSeat,

    /// The chunks that it drew, in their order.
    pub numbers: Vec<u32>,

    pub state: S,

    /// Whether it stopped for want of memory.
    pub is_cut_short: bool,
}

/// What some workers need to draw: a seat with their weight, and a list with room for all chunks for each of them.
#[derive(Drop)]
pub(crate) struct Desks {
    pub seat: ClaimSeat,
    pub lists: Vec<Vec<u32>>,
}

/// Draws chunks until none is left, and works on each. Each passes the gate first.
#[tactic(auto, using(crate::proofs::Ascending::ascends_more, crate::proofs::Ascending::below_more, crate::proofs::Ascending::no_more_than))]
pub(crate) fn draw<G: Gate, W: Work>(
    gate: &G,
    claims: &Claims,
    call: SharedCall,
    work: &W,
    worker: &mut Worker<W::State>,
)
    requires parts { claims.now.parts ≡ chunk_count call.count call.pool.chunk }
    requires few { claims.now.parts ≤ 1048576 }
    requires chunks { W.chunks work.now ≡ claims.now.parts }
    requires ready { IsReady (W.made work.now) claims.now.id claims.now.parts worker.old }
    ensures { HasDrawn (W.made work.now) claims.now.id worker.new }
{
    let chunks = u64::from(call.chunks());
    for _turn in 0..chunks + 1 {
        let number = claims.claim(&mut worker.seat);
        if worker.seat.past() {
            return;
        }
        let chunk = number as u32;
        gate.pass(Passing::Chunk {
            call: call.call,
            chunk,
        });
        let made = work.chunk(&mut worker.state, worker.numbers.as_slice(), chunk);
        if made.is_err() {
            worker.is_cut_short = true;
            return;
        }
        worker.numbers.push_reserved(chunk);
    }
}
