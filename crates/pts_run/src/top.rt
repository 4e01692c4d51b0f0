//! Running a script that comes from a source, and printing its lines to a sink.

ghost use Rattle.std.specs.Prelude.{◌≡◌, ◌≢◌, ℕ, ◌<◌, ◌≤◌, ◌↔◌, List, length, map, Some, string_bytes};
ghost use Rattle.std.specs.Io.KnownBytes.{IsAtEnd};
ghost use Rattle.pts_io.specs.Streams.{HasRisen, KeepsAnEnd};
ghost use Rattle.pts_run.specs.Output.{IsDecided, Wrote, WrotePart, script_limit};
ghost use Rattle.pts_run.specs.Words.{IsCommand};
ghost use Rattle.pts_run.specs.Writing as spec;

use crate::answer::{Finish, answer, refuse};
use crate::run::WriteEnd;
use crate::script::{ScriptFault, read_script};
use crate::status::Status;
use crate::words::{Command, read_words};
use pts_boards::Gate;
use pts_io::{Sink, Source};
use std::alloc::Global;
use std::thread::Threads;

/// Does what the words say with the script that the source gives, and writes its lines to the sink.
/// A script has at most 1,048,576 bytes. The gate is passed before each chunk of a call.
pub fn run_words<R: Threads + Sync, S: Source, K: Sink, G: Gate>(
    rt: &R,
    alloc: Global,
    words: &[String],
    source: &mut S,
    sink: &mut K,
    gate: &G,
) -> Status
    // Words that are no command, and they alone, are Usage; then nothing is read or written.
    ensures usage { (result ≡ Status.Usage) ↔ ((command : Command) → IsCommand (map string_bytes words.now) command → ⊥) }
    ensures untouched { result ≡ Status.Usage → (source.new ≡ source.old) × (sink.new ≡ sink.old) }

    // Under a command the sink then holds what it held and its text, or one line of refusal.
    ensures headline { (command : Command) (bytes : List ℕ) (held : List ℕ) → IsCommand (map string_bytes words.now) command
        → S.left source.old ≡ Some bytes → K.written sink.old ≡ Some held
        → ¬ HasRisen (S.Source.faults source.old) (S.Source.faults source.new) → ¬ HasRisen (K.Sink.faults sink.old) (K.Sink.faults sink.new)
        → result ≢ Status.NoMemory → Wrote command bytes result held (K.written sink.new) }

    // These say that all was written, whatever else failed.
    ensures done { (command : Command) (bytes : List ℕ) (held : List ℕ) → IsCommand (map string_bytes words.now) command
        → S.left source.old ≡ Some bytes → K.written sink.old ≡ Some held
        → result ≡ Status.Done → Wrote command bytes Status.Done held (K.written sink.new) }
    ensures terminated { (command : Command) (bytes : List ℕ) (held : List ℕ) → IsCommand (map string_bytes words.now) command
        → S.left source.old ≡ Some bytes → K.written sink.old ≡ Some held
        → result ≡ Status.Terminated → Wrote command bytes Status.Terminated held (K.written sink.new) }
    ensures refused { (command : Command) (bytes : List ℕ) (held : List ℕ) → IsCommand (map string_bytes words.now) command
        → S.left source.old ≡ Some bytes → K.written sink.old ≡ Some held
        → result ≡ Status.Refused → Wrote command bytes Status.Refused held (K.written sink.new) }

    // A fault comes only where the source or the sink counted one.
    ensures read_fault { result ≡ Status.ReadFault → HasRisen (S.Source.faults source.old) (S.Source.faults source.new) }
    ensures nothing_written { result ≡ Status.ReadFault → sink.new ≡ sink.old }
    ensures write_fault { result ≡ Status.WriteFault → HasRisen (K.Sink.faults sink.old) (K.Sink.faults sink.new) }
    ensures part_written { (command : Command) (bytes : List ℕ) (held : List ℕ) → IsCommand (map string_bytes words.now) command
        → S.left source.old ≡ Some bytes → K.written sink.old ≡ Some held → WrotePart command bytes held (K.written sink.new) }

    // Done, Terminated and every refusal but that of a long script say that the source was read to its end.
    ensures read_to_the_end { result ≡ Status.Done → IsAtEnd (S.left source.new) }
    ensures terminated_at_the_end { result ≡ Status.Terminated → IsAtEnd (S.left source.new) }
    ensures refused_at_the_end { (bytes : List ℕ) → S.left source.old ≡ Some bytes → length bytes ≤ script_limit
        → result ≡ Status.Refused → IsAtEnd (S.left source.new) }

    // Whatever the answer is, what the source has left is an end of what it had.
    ensures rest { KeepsAnEnd (S.left source.old) (S.left source.new) }

    // Where nothing fails outside, the bytes decide between a refusal and a run, and no other answer comes but want of memory.
    ensures complete { (command : Command) (bytes : List ℕ) → IsCommand (map string_bytes words.now) command → S.left source.old ≡ Some bytes
        → ¬ HasRisen (S.Source.faults source.old) (S.Source.faults source.new) → ¬ HasRisen (K.Sink.faults sink.old) (K.Sink.faults sink.new)
        → IsDecided command bytes result }
    ensures counts { (S.Source.faults source.old ≤ S.Source.faults source.new) × (K.Sink.faults sink.old ≤ K.Sink.faults sink.new) }
{
    let Some(command) = read_words(words) else {
        return Status::Usage;
    };
    match read_script(alloc, source) {
        Ok(script) => status_of(answer(rt, alloc, gate, command, &script, sink)),
        Err(ScriptFault::Refused(refusal)) => status_of(refuse(alloc, refusal, sink)),
        Err(ScriptFault::Source) => Status::ReadFault,
        Err(ScriptFault::NoMemory) => Status::NoMemory,
    }
}

// How the call ends, by what the command wrote.
fn status_of(ended: Result<Finish, WriteEnd>) -> Status
    ensures { result ≡ spec.status_of ended }
{
    match ended {
        Ok(Finish::Done) => Status::Done,
        Ok(Finish::Terminated) => Status::Terminated,
        Ok(Finish::Refused) => Status::Refused,
        Err(WriteEnd::Fault) => Status::WriteFault,
        Err(WriteEnd::NoMemory) => Status::NoMemory,
    }
}
