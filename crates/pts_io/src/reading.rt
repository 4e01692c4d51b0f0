//! Reading a source to its end.

ghost use Rattle.std.specs.Prelude.{◌≡◌, ◌+◌, ◌<◌, ◌≤◌, length, vec_len, Err, IfOk, IfSome, IsErr, OnOk, OnErr};
ghost use Rattle.std.specs.Io.KnownBytes.{Consumes, IsAtEnd};
ghost use Rattle.pts_io.specs.declared.reading.ReadEnd.TheVariants.{NoMemory};
ghost use Rattle.pts_io.specs.Streams.{HasRisen, KeepsAnEnd, LosesFront};

use crate::streams::Source;
use std::alloc::{AllocError, Global};

// A source is asked for at most this many bytes at once.
const CHUNK: usize = 8192;

/// Why a source was not read to its end.
#[derive(Clone, Copy, Debug, PartialEq, Eq)]
pub enum ReadEnd {
    /// A call of the source failed.
    Fault,
    /// The source gave more bytes than the limit.
    TooLong,
    NoMemory,
}

impl From<AllocError> for ReadEnd {
    ghost from_gives = { λ _ end. end ≡ NoMemory };

    fn from(_: AllocError) -> Self {
        ReadEnd::NoMemory
    }
}

/// All that the source has left, where that is at most `limit` bytes.
pub fn read_all<S: Source>(alloc: Global, source: &mut S, limit: usize) -> Result<Vec<u8>, ReadEnd>
    requires { limit < usize.MAX }
    ensures within { IfOk result (λ bytes. vec_len bytes ≤ limit) }
    ensures whole { IfOk result (λ bytes. Consumes (S.left source.old) (S.left source.new) bytes.items) }
    ensures end { OnOk result (IsAtEnd (S.left source.new)) }

    // TooLong says that the source gave one byte more than the limit, which were taken, and it comes wherever there are as many.
    ensures too_long { result ≡ Err ReadEnd.TooLong → LosesFront (S.left source.old) (S.left source.new) (limit + 1) }
    ensures longer { IfSome (S.left source.old) (λ bytes. limit < length bytes → IsErr result) }
    ensures fault { result ≡ Err ReadEnd.Fault → HasRisen (S.faults source.old) (S.faults source.new) }
    ensures rest { OnErr result (KeepsAnEnd (S.left source.old) (S.left source.new)) }
    ensures counts { S.faults source.old ≤ S.faults source.new }
{
    let mut bytes = Vec::new(alloc);
    let mut chunk = [0; CHUNK];
    while bytes.len() <= limit {
        let wanted = CHUNK.min(limit + 1 - bytes.len());
        match source.next(&mut chunk[..wanted]) {
            Ok(0) => return Ok(bytes),
            Ok(n) => bytes.extend_from_slice(&chunk[..n])?,
            Err(_) => return Err(ReadEnd::Fault),
        }
    }
    Err(ReadEnd::TooLong)
}
