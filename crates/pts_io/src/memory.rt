//! Sources and sinks over memory, whose calls can be told to fail.

ghost use Rattle.std.specs.Prelude.{◌≡◌, ◌⊎◌, ◌+◌, ◌≤◌, ◌↔◌, ◌++◌, List, ℕ, Some, length, take, drop, min, vec_len, vec_capacity, Contains, IfOk, IsOk, IsErr, OnErr};
ghost use Rattle.pts_io.specs.Memory.{SourceState, SinkState, new_source, source_without, failed_source, new_sink, sink_with, failed_sink};

use crate::streams::{Failed, Sink, Source};
use pts_types::NoMemory;
use std::alloc::Global;
use std::marker::Model;

/// A source of bytes that lie in memory.
#[derive(Debug, Drop)]
pub struct MemorySource {
    bytes: Vec<u8>,
    given: usize,
    fails: Vec<u64>,
    calls: u64,
    faults: u64,
}

impl Model for MemorySource {
    ghost Value = { SourceState };

    ghost view = { λ s. record { left = drop s.given s.bytes.items; fails = s.fails.items; calls = s.calls; faults = s.faults } };

    ghost invariant = { λ s. s.given ≤ vec_len s.bytes };
}

impl MemorySource {
    /// A source that gives these bytes. `fails` are the numbers of the calls that fail, and the first call has number 0.
    pub fn new(bytes: Vec<u8>, fails: Vec<u64>) -> MemorySource
        ensures { result ≡ new_source bytes.items fails.items }
    {
        MemorySource {
            bytes,
            given: 0,
            fails,
            calls: 0,
            faults: 0,
        }
    }
}

impl Source for MemorySource {
    ghost left = { λ s. Some s.left };

    ghost faults = { λ s. s.faults };

    /// Fills `buf` as far as bytes are left. The number of a call stands still at `u64::MAX`, as does the count of faults.
    fn next(&mut self, buf: &mut [u8]) -> Result<usize, Failed>
        ensures fails { IsErr result ↔ Contains self.old.fails self.old.calls }
        ensures fault { OnErr result (self.new ≡ failed_source self.old) }
        ensures count { IfOk result (λ n. n ≡ min (length buf.old) (length self.old.left)) }
        ensures filled { IfOk result (λ n. buf.new ≡ take n self.old.left ++ drop n buf.old) }
        ensures given { IfOk result (λ n. self.new ≡ source_without n self.old) }
        ensures counts { self.old.faults ≤ self.new.faults }
    {
        let call = self.calls;
        self.calls = call.saturating_add(1);
        if self.fails.contains(&call) {
            self.faults = self.faults.saturating_add(1);
            return Err(Failed);
        }
        let left = &self.bytes[self.given..];
        let n = left.len().min(buf.len());
        buf[..n].copy_from_slice(&left[..n]);
        self.given += n;
        Ok(n)
    }
}

/// A sink that keeps its bytes in memory, which is reserved from the start.
#[derive(Debug, Drop)]
pub struct MemorySink {
    bytes: Vec<u8>,
    room: usize,
    fails: Vec<u64>,
    calls: u64,
    faults: u64,
}

impl Model for MemorySink {
    ghost Value = { SinkState };

    ghost view = { λ s. record { written = s.bytes.items; room = s.room; fails = s.fails.items; calls = s.calls; faults = s.faults } };

    ghost invariant = { λ s. vec_len s.bytes + s.room ≤ vec_capacity s.bytes };
}

impl MemorySink {
    /// A sink with room for this many bytes, whose memory is taken here. `fails` are the numbers of the calls that fail,
    /// and the first call has number 0.
    pub fn new(alloc: Global, room: usize, fails: Vec<u64>) -> Result<MemorySink, NoMemory>
        ensures ok { IfOk result (λ sink. sink ≡ new_sink room fails.items) }
        ensures empty { room ≡ 0 → IsOk result }
    {
        let bytes = Vec::with_capacity(alloc, room)?;
        Ok(MemorySink {
            bytes,
            room,
            fails,
            calls: 0,
            faults: 0,
        })
    }

    /// What was written.
    pub fn bytes(&self) -> &[u8]
        ensures { result.now ≡ self.now.written }
    {
        &self.bytes
    }
}

impl Sink for MemorySink {
    ghost written = { λ s. Some s.written };

    ghost faults = { λ s. s.faults };

    /// Takes as much of the piece as there is room for, and fails where there is none. It takes no memory.
    /// The number of a call stands still at `u64::MAX`, as does the count of faults.
    fn put(&mut self, piece: &[u8]) -> Result<usize, Failed>
        ensures fails { IsErr result ↔ (Contains self.old.fails self.old.calls ⊎ (self.old.room ≡ 0)) }
        ensures fault { OnErr result (self.new ≡ failed_sink self.old) }
        ensures count { IfOk result (λ n. n ≡ min (length piece.now) self.old.room) }
        ensures kept { IfOk result (λ n. self.new ≡ sink_with (take n piece.now) self.old) }
        ensures counts { self.old.faults ≤ self.new.faults }
    {
        let call = self.calls;
        self.calls = call.saturating_add(1);
        if self.room == 0 || self.fails.contains(&call) {
            self.faults = self.faults.saturating_add(1);
            return Err(Failed);
        }
        let n = piece.len().min(self.room);
        self.bytes.extend_from_slice(&piece[..n]).unwrap();
        self.room -= n;
        Ok(n)
    }
}
