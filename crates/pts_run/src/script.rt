//! Reading the script that a source gives.

ghost use Rattle.std.specs.Prelude.{◌≡◌, ◌≢◌, ◌≤◌, ℕ, List, length, Err, IfOk, IfSome, OnOk};
ghost use Rattle.std.specs.Io.KnownBytes.{IsAtEnd};
ghost use Rattle.pts_io.specs.Streams.{HasRisen, KeepsAnEnd};
ghost use Rattle.pts_syntax.specs.Syntax.{Explains, IsSpelled};
ghost use Rattle.pts_run.specs.declared.words.Command.{Command};
ghost use Rattle.pts_run.specs.Output.{Reads, Refuses, script_limit};

use crate::refusal::Refusal;
use pts_io::{ReadEnd, Source, read_all};
use pts_syntax::{SyntaxFault, SyntaxKind, parse};
use pts_tree::Script;
use std::alloc::Global;

// The most bytes of a script.
const SCRIPT_LIMIT: usize = 1_048_576;

/// Why there is no script.
#[derive(Debug, Drop)]
pub enum ScriptFault {
    Refused(Refusal),
    Source,
    NoMemory,
}

/// The script that the source gives.
pub fn read_script<S: Source>(alloc: Global, source: &mut S) -> Result<Script, ScriptFault>
    ensures reads { IfOk result (λ script. IfSome (S.left source.old) (λ bytes. Reads bytes script)) }
    ensures end { OnOk result (IsAtEnd (S.left source.new)) }
    ensures spelled { IfOk result IsSpelled }

    // A refusal names its reason, whatever the command, and only TooLong comes before the end.
    ensures refuses { (command : Command) (reason : Refusal) → result ≡ Err (ScriptFault.Refused reason)
        → IfSome (S.left source.old) (λ bytes. Refuses command bytes reason) }
    ensures refused_at_the_end { (reason : Refusal) → result ≡ Err (ScriptFault.Refused reason) → reason ≢ Refusal.TooLong → IsAtEnd (S.left source.new) }
    ensures fault { result ≡ Err ScriptFault.Source → HasRisen (S.faults source.old) (S.faults source.new) }
    ensures rest { KeepsAnEnd (S.left source.old) (S.left source.new) }
    ensures counts { S.faults source.old ≤ S.faults source.new }
{
    let bytes = match read_all(alloc, source, SCRIPT_LIMIT) {
        Ok(bytes) => bytes,
        Err(ReadEnd::TooLong) => return Err(ScriptFault::Refused(Refusal::TooLong)),
        Err(ReadEnd::Fault) => return Err(ScriptFault::Source),
        Err(ReadEnd::NoMemory) => return Err(ScriptFault::NoMemory),
    };
    match parse(alloc, &bytes) {
        Ok(script) => Ok(script),
        Err(fault) => Err(fault_of(fault)),
    }
}

// Why a text within the limit is refused that is no script.
fn fault_of(fault: SyntaxFault) -> ScriptFault
    ensures refuses { (command : Command) (bytes : List ℕ) (reason : Refusal) → length bytes ≤ script_limit → Explains bytes fault
        → result ≡ ScriptFault.Refused reason → Refuses command bytes reason }
    ensures no_source { result ≢ ScriptFault.Source }
    ensures not_long { result ≢ ScriptFault.Refused Refusal.TooLong }
{
    match fault.kind {
        SyntaxKind::NoMemory => ScriptFault::NoMemory,
        _ => ScriptFault::Refused(Refusal::Syntax(fault)),
    }
}
