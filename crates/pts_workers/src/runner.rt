//! All workers of a call: made ready, let draw, and what they leave.

ghost use Rattle.std.specs.Prelude.{◌≡◌, ◌<◌, ◌≤◌, ◌+◌, ◌-◌, [], false, All, length, vec_capacity, vec_len, IfOk, OnOk};
ghost use Rattle.std.specs.Thread.{IsSync};
ghost use Rattle.pts_groupings.specs.Chunks.{chunk_count, sharing, IsGrouping};
ghost use Rattle.pts_workers.specs.Drawing.{AreReady, IsReady, Leaves};
ghost use Rattle.pts_workers.specs.Shares.{worker_count, EachMade};

use crate::call::SharedCall;
use crate::shares::Shares;
use crate::work::Work;
use crate::worker::{Desks, Worker, draw};
use pts_boards::{ClaimSeat, Claims, Gate};
use pts_types::NoMemory;
use sqlite_items::Items;
use std::alloc::{AllocError, Global};
use std::thread::{Threads, join};

// What one worker leaves that draws alone.
fn leave_one<G: Gate, W: Work>(
    gate: &G,
    claims: &Claims,
    call: SharedCall,
    work: &W,
    worker: Worker<W::State>,
) -> Result<(ClaimSeat, Shares<W::State>), NoMemory>
    requires parts { claims.now.parts ≡ chunk_count call.count call.pool.chunk }
    requires few { claims.now.parts ≤ 1048576 }
    requires chunks { W.chunks work.now ≡ claims.now.parts }
    requires ready { IsReady (W.made work.now) claims.now.id claims.now.parts worker }
    ensures { IfOk result (λ done. Leaves (W.made work.now) claims.now.id 1 done.0 done.1) }
{
    let mut worker = worker;
    draw(gate, claims, call, work, &mut worker);
    let Worker {
        seat,
        numbers,
        state,
        is_cut_short,
    } = worker;
    if is_cut_short {
        return Err(NoMemory);
    }
    let mut shares = Shares::new(*numbers.allocator());
    shares.add(Items::from_vec(numbers), state)?;
    Ok((seat, shares))
}

// The one worker of these desks, before it draws.
fn seat_one<W: Work>(work: &W, desks: Desks, own: W::Seat) -> Result<Worker<W::State>, NoMemory>
    requires one { vec_len desks.lists ≡ 1 }
    requires own { W.seated work.now 1 own }
    ensures { IfOk result (λ worker. (board : _) (chunks : _) → AreReady board chunks 1 desks → IsReady (W.made work.now) board chunks worker) }
{
    let Desks { seat, mut lists } = desks;
    let numbers = lists.remove(0);
    Ok(Worker {
        seat,
        numbers,
        state: work.begin(own)?,
        is_cut_short: false,
    })
}

// Takes the desks of the last few workers.
fn split_desks(claims: &Claims, desks: &mut Desks, few: u32) -> Result<Desks, NoMemory>
    requires some { 1 ≤ few }
    requires fewer { few < desks.old.seat.weight }
    requires all { vec_len desks.old.lists ≡ desks.old.seat.weight }
    requires board { desks.old.seat.board ≡ claims.now.id }
    ensures few { IfOk result (λ others. (chunks : _) (workers : _) → AreReady claims.now.id chunks workers desks.old → AreReady claims.now.id chunks few others) }
    ensures rest { OnOk result ((chunks : _) (workers : _) → AreReady claims.now.id chunks workers desks.old → AreReady claims.now.id chunks (workers - few) desks.new) }
{
    let lists = desks.lists.split_off(desks.lists.len() - few as usize)?;
    let seat = claims.split(&mut desks.seat, few);
    Ok(Desks { seat, lists })
}

// What these workers leave: some in a thread of their own, where one can be made, and the others in this one.
fn leave_all<R: Threads + Sync, G: Gate, W: Work>(
    rt: &R,
    gate: &G,
    claims: &Claims,
    call: SharedCall,
    work: &W,
    mut desks: Desks,
    mut own: W::Seat,
    workers: u32,
) -> Result<(ClaimSeat, Shares<W::State>), NoMemory>
    requires some { 1 ≤ workers }
    requires parts { claims.now.parts ≡ chunk_count call.count call.pool.chunk }
    requires few { claims.now.parts ≤ 1048576 }
    requires chunks { W.chunks work.now ≡ claims.now.parts }
    requires ready { AreReady claims.now.id claims.now.parts workers desks }
    requires own { W.seated work.now workers own }
    ensures { IfOk result (λ done. Leaves (W.made work.now) claims.now.id workers done.0 done.1) }
{
    if workers < 2 {
        let worker = seat_one(work, desks, own)?;
        return leave_one(gate, claims, call, work, worker);
    }
    let few = workers / 2;
    let rest = workers - few;
    let theirs = work.split(&mut own, workers, few);
    let others = split_desks(claims, &mut desks, few)?;
    let (a, b) = join(
        rt,
        move || -> Result<(ClaimSeat, Shares<W::State>), NoMemory>
            requires { IsSync R.row × (1 ≤ few) × (claims.now.parts ≡ chunk_count call.count call.pool.chunk) × (claims.now.parts ≤ 1048576) × (W.chunks work.now ≡ claims.now.parts) × AreReady claims.now.id claims.now.parts few others × W.seated work.now few theirs }
            ensures { IfOk result (λ done. Leaves (W.made work.entry.now) claims.entry.now.id few done.0 done.1) }
        { leave_all(rt, gate, claims, call, work, others, theirs, few) },
        move || -> Result<(ClaimSeat, Shares<W::State>), NoMemory>
            requires { IsSync R.row × (1 ≤ rest) × (claims.now.parts ≡ chunk_count call.count call.pool.chunk) × (claims.now.parts ≤ 1048576) × (W.chunks work.now ≡ claims.now.parts) × AreReady claims.now.id claims.now.parts rest desks × W.seated work.now rest own }
            ensures { IfOk result (λ done. Leaves (W.made work.entry.now) claims.entry.now.id rest done.0 done.1) }
        { leave_all(rt, gate, claims, call, work, desks, own, rest) },
    );
    let (mut seat, mut shares) = b?;
    let (other, more) = a?;
    claims.join(&mut seat, other);
    shares.append(more)?;
    Ok((seat, shares))
}

// A list for each worker, with room for all chunks.
fn make_lists(alloc: Global, count: u32, chunks: u32) -> Result<Vec<Vec<u32>>, NoMemory>
    ensures count { IfOk result (λ lists. vec_len lists ≡ count) }
    ensures room { IfOk result (λ lists. All (λ list. (list.items ≡ []) × (chunks ≤ vec_capacity list)) lists.items) }
{
    let mut lists = Vec::with_capacity(alloc, count as usize)?;
    for _at in 0..count {
        let list = Vec::with_capacity(alloc, chunks as usize)?;
        lists.push(list).map_err(AllocError::from)?;
    }
    Ok(lists)
}

impl SharedCall {
    /// Lets the workers of a call draw its chunks. The board and each worker's list have their room before the first chunk is drawn; with one
    /// worker no thread is started. Fails only for want of memory.
    #[tactic(auto, using(crate::proofs::Leaving::all_shared))]
    pub fn run<R: Threads + Sync, G: Gate, W: Work>(
        &self,
        rt: &R,
        alloc: Global,
        gate: &G,
        work: &W,
        own: W::Seat,
    ) -> Result<Shares<W::State>, NoMemory>
        requires few { chunk_count self.now.count self.now.pool.chunk ≤ 1048576 }
        requires chunks { W.chunks work.now ≡ chunk_count self.now.count self.now.pool.chunk }
        requires own { W.seated work.now (worker_count (sharing self.now.policy self.now.pool.workers) (chunk_count self.now.count self.now.pool.chunk)) own }
        ensures grouping { IfOk result (λ shares. IsGrouping (sharing self.now.policy self.now.pool.workers) (chunk_count self.now.count self.now.pool.chunk) shares.grouping.groups) }
        ensures states { IfOk result (λ shares. EachMade (W.made work.now) shares.grouping.groups shares.states) }
        ensures idle { IfOk result (λ shares. All (W.made work.now []) shares.idle) }
        ensures count { IfOk result (λ shares. length shares.grouping.groups + length shares.idle ≡ worker_count (sharing self.now.policy self.now.pool.workers) (chunk_count self.now.count self.now.pool.chunk)) }
    {
        let (claims, seat) = Claims::make(alloc, u64::from(self.chunks()), self.workers())?;
        let workers = self.workers();
        let lists = make_lists(alloc, workers, self.chunks())?;
        let desks = Desks { seat, lists };
        let (seat, shares) = leave_all(rt, gate, &claims, *self, work, desks, own, workers)?;
        claims.close(seat);
        Ok(shares)
    }
}
