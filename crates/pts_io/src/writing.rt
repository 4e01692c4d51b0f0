//! Writing bytes to a sink to the last.

ghost use Rattle.std.specs.Prelude.{◌≡◌, ◌<◌, ◌≤◌, [], length, take, IfErr, IsOk, OnOk, OnErr};
ghost use Rattle.std.specs.Io.KnownBytes.{Appends};
ghost use Rattle.pts_io.specs.Streams.{HasRisen};

use crate::streams::Sink;

/// A sink failed after it had taken this many bytes of those that it was to take.
#[derive(Clone, Copy, Debug, PartialEq, Eq)]
pub struct SinkFault {
    pub written: usize,
}

/// Writes all the bytes, in order, in as many calls as the sink wants. No bytes make no call.
pub fn write_all<K: Sink>(sink: &mut K, bytes: &[u8]) -> Result<(), SinkFault>
    ensures ok { OnOk result (Appends (K.written sink.old) (K.written sink.new) bytes.now) }
    ensures nothing { bytes.now ≡ [] → IsOk result × (sink.new ≡ sink.old) }

    // A fault says how far the writing came.
    ensures fault { OnErr result (HasRisen (K.faults sink.old) (K.faults sink.new)) }
    ensures short { IfErr result (λ fault. fault.written < length bytes.now) }
    ensures part { IfErr result (λ fault. Appends (K.written sink.old) (K.written sink.new) (take fault.written bytes.now)) }
    ensures counts { K.faults sink.old ≤ K.faults sink.new }
{
    let mut done = 0;
    while done < bytes.len() {
        match sink.put(&bytes[done..]) {
            Ok(n) => done += n,
            Err(_) => return Err(SinkFault { written: done }),
        }
    }
    Ok(())
}
