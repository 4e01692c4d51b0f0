//! What passes the gate while a script runs.

use super::words;
use crate::{Status, run_words};
use pts_boards::{Gate, Passing};
use pts_io::{MemorySink, MemorySource};
use std::sync::atomic::AtomicU64;
use std::sync::atomic::Ordering::SeqCst;
use std::test::Fail;

// Counts the chunks that pass, and adds up their numbers.
#[derive(Drop)]
struct Counter {
    chunks: AtomicU64,
    numbers: AtomicU64,
}

impl Gate for Counter {
    fn pass(&self, at: Passing) {
        if let Passing::Chunk { chunk, .. } = at {
            self.chunks.fetch_add(1, SeqCst);
            self.numbers.fetch_add(u64::from(chunk), SeqCst);
        }
    }
}

// Three calls of three chunks each, a loop among them, and a search that ends in its second chunk.
const FOUR_CALLS: &str =
    "pts 1; array a: u64[5] = iota 0 step 1; fn next(x: u64) -> u64 = x + 1; fn three(x: u64) -> bool = x == 3; for_each par a[0..5] next; reduce par a[0..5] init 0 plus; find_if par a[0..5] three; for_loop par i = 0 to 5 { a[i] = a[i] + 1; }";

#[test]
fn each_chunk_passes_the_gate_once(rt: HostRuntime) -> Result<(), Fail> {
    let alloc = rt.alloc();
    let gate = Counter {
        chunks: AtomicU64::new(0),
        numbers: AtomicU64::new(0),
    };
    let mut source = MemorySource::new(FOUR_CALLS.as_bytes().to_vec(alloc)?, Vec::new(alloc));
    let mut sink = MemorySink::new(alloc, 1000, Vec::new(alloc))?;
    let words = words(alloc, &["run", "--chunk", "2"])?;
    let status = run_words(&rt, alloc, &words, &mut source, &mut sink, &gate);
    assert_eq!(rt; status, Status::Done);
    let text = "1: for_each\n2: reduce 15\n3: find_if 2\n4: for_loop\n";
    assert_eq!(rt; sink.bytes(), text.as_bytes());
    assert_eq!(rt; gate.chunks.load(SeqCst), 3 + 3 + 2 + 3);
    assert_eq!(rt; gate.numbers.load(SeqCst), (1 + 2) + (1 + 2) + 1 + (1 + 2));
    Ok(())
}
