//! Chunks that are listed by one worker, by few and by many, and a gate that holds one back.

ghost use Rattle.std.specs.Prelude.{◌≡◌, ◌≤◌};

use crate::{SharedCall, Shares, Work};
use pts_boards::{Gate, NoGate, Passing, Pool};
use pts_types::{NoMemory, Policy};
use sqlite_items::Items;
use std::alloc::{AllocError, Global};
use std::sync::atomic::{AtomicU64, Ordering};
use std::test::Fail;
use std::thread::Threads;

// Lists the chunks that a worker drew.
#[derive(Drop)]
struct Listing {
    alloc: Global,
    chunks: u32,
}

impl Work for Listing {
    type Seat = ();

    type State = Items<u32>;

    ghost chunks = { λ listing. listing.chunks };

    ghost seated = { λ _ _ seat. seat ≡ seat };

    ghost made = { λ _ numbers state. state ≡ numbers };

    fn split(&self, _seat: &mut (), _workers: u32, _few: u32) {}

    fn begin(&self, _seat: ()) -> Result<Items<u32>, NoMemory> {
        Ok(Items::new(self.alloc))
    }

    fn chunk(&self, state: &mut Items<u32>, _before: &[u32], number: u32) -> Result<(), NoMemory> {
        state.push(number)?;
        Ok(())
    }
}

// Holds chunk 0 back until another chunk has passed, or too long.
#[derive(Drop)]
struct Meeting {
    others: AtomicU64,
}

impl Gate for Meeting {
    fn pass(&self, at: Passing) {
        let Passing::Chunk { call: _, chunk: 0 } = at else {
            self.others.fetch_add(1, Ordering::SeqCst);
            return;
        };
        for _turn in 0..200_000_000u64 {
            if self.others.load(Ordering::SeqCst) > 0 {
                return;
            }
        }
    }
}

fn list_chunks<R: Threads + Sync, G: Gate>(
    rt: &R,
    alloc: Global,
    gate: &G,
    call: SharedCall,
) -> Result<Shares<Items<u32>>, NoMemory> {
    let chunks = call.chunks();
    if chunks > 1_048_576 {
        return Err(NoMemory);
    }
    call.run(rt, alloc, gate, &Listing { alloc, chunks }, ())
}

// The chunks of all groups in order.
fn all_chunks(alloc: Global, shares: &Shares<Items<u32>>) -> Result<Vec<u32>, NoMemory> {
    let mut all = Vec::new(alloc);
    for group in shares.grouping.groups.as_slice() {
        all.extend_from_slice(group.as_slice())?;
    }
    all.sort()?;
    Ok(all)
}

fn is_as_listed(shares: &Shares<Items<u32>>) -> bool {
    let groups = shares.grouping.groups.as_slice();
    let states = shares.states.as_slice();
    let mut same = groups.len() == states.len();
    for (group, state) in groups.iter().zip(states) {
        same &= group.as_slice() == state.as_slice();
    }
    same
}

fn pooled(policy: Policy, count: u32, workers: u32, chunk: u32) -> Option<SharedCall> {
    let pool = Pool::new(workers, chunk)?;
    Some(SharedCall {
        call: 1,
        policy,
        count,
        pool,
    })
}

#[test]
fn each_chunk_is_drawn_once(rt: HostRuntime) -> Result<(), Fail> {
    let alloc = rt.alloc();
    for (workers, chunk, chunks) in [(1, 2, 4), (4, 1, 7), (64, 1, 7)] {
        let call = pooled(Policy::Par, 7, workers, chunk).ok_or("no pool")?;
        let shares = list_chunks(&rt, alloc, &NoGate, call)?;
        let all = all_chunks(alloc, &shares)?;
        assert_eq!(rt; all.len(), chunks);
        assert!(rt; is_as_listed(&shares));
        assert_eq!(rt;
            shares.states.len() + shares.idle.len(),
            call.workers() as usize
        );
    }
    Ok(())
}

#[test]
fn there_are_no_more_workers_than_chunks(rt: HostRuntime) -> Result<(), Fail> {
    for (policy, count, workers) in [
        (Policy::Par, 5, 3),
        (Policy::ParUnseq, 5, 3),
        (Policy::Seq, 5, 1),
        (Policy::Par, 0, 1),
    ] {
        let call = pooled(policy, count, 64, 2).ok_or("no pool")?;
        assert_eq!(rt; call.workers(), workers);
        let shares = list_chunks(&rt, rt.alloc(), &NoGate, call)?;
        assert_eq!(rt; shares.states.len() + shares.idle.len(), workers as usize);
    }
    Ok(())
}

#[test]
fn a_chunk_that_is_held_back_leaves_two_groups(rt: HostRuntime) -> Result<(), Fail> {
    let gate = Meeting {
        others: AtomicU64::new(0),
    };
    let call = pooled(Policy::Par, 2, 4, 1).ok_or("no pool")?;
    let shares = list_chunks(&rt, rt.alloc(), &gate, call)?;
    assert_eq!(rt; shares.grouping.groups.len(), 2);
    Ok(())
}
