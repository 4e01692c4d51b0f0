//! What a command writes for the script that it was given.

ghost use Rattle.std.specs.Prelude.{◌≡◌, ◌≢◌, ℕ, List, Ok};
ghost use Rattle.pts_syntax.specs.Syntax.{IsSpelled};
ghost use Rattle.pts_run.specs.Output.{Reads, Refuses};
ghost use Rattle.pts_run.specs.declared.accept.Rejection.TheVariants as rejections;
ghost use Rattle.pts_run.specs.declared.words.Command.TheVariants as commands;
ghost use Rattle.pts_run.specs.declared.refusal.Refusal.{Refusal as Reason};
ghost use Rattle.pts_run.specs.Writing as spec;
ghost use Rattle.pts_run.specs.Writing.{Ends, IsCounted};

use crate::accept::{Rejection, accept, accept_to_run};
use crate::refusal::Refusal;
use crate::run::{WriteEnd, run_program, write_accepted, write_canonical, write_refusal};
use crate::words::Command;
use pts_boards::{Gate, Pool};
use pts_eval::RunState;
use pts_io::Sink;
use pts_tree::Script;
use std::alloc::Global;
use std::thread::Threads;

/// What was written, where all of it was.
#[derive(Clone, Copy, Debug, PartialEq, Eq)]
pub enum Finish {
    /// The text of the command.
    Done,
    /// The text of a run that a statement terminated.
    Terminated,
    /// The line of a refusal.
    Refused,
}

/// Does with a script what the command says, and writes the lines of that.
pub fn answer<R: Threads + Sync, K: Sink, G: Gate>(
    rt: &R,
    alloc: Global,
    gate: &G,
    command: Command,
    script: &Script,
    sink: &mut K,
) -> Result<Finish, WriteEnd>
    requires { IsSpelled script.now }
    ensures ends { (bytes : List ℕ) → Reads bytes script.now → Ends command bytes result (K.written sink.old) (K.written sink.new) }
    ensures counted { IsCounted result (K.faults sink.old) (K.faults sink.new) }
{
    match command {
        Command::Run { pool } => run_script(rt, alloc, gate, pool, script, sink),
        Command::Check => check_script(alloc, script, sink),
        Command::Print => print_script(alloc, script, sink),
    }
}

fn run_script<R: Threads + Sync, K: Sink, G: Gate>(
    rt: &R,
    alloc: Global,
    gate: &G,
    pool: Pool,
    script: &Script,
    sink: &mut K,
) -> Result<Finish, WriteEnd>
    requires { IsSpelled script.now }
    ensures ends { (bytes : List ℕ) → Reads bytes script.now → Ends (commands.Run pool) bytes result (K.written sink.old) (K.written sink.new) }
    ensures counted { IsCounted result (K.faults sink.old) (K.faults sink.new) }
{
    match accept_to_run(alloc, script) {
        Ok(cleared) => {
            let ran = run_program(rt, alloc, gate, pool, &cleared, sink);
            run_finished(ran)
        }
        Err(rejection) => reject(alloc, rejection, sink),
    }
}

fn check_script<K: Sink>(alloc: Global, script: &Script, sink: &mut K) -> Result<Finish, WriteEnd>
    requires { IsSpelled script.now }
    ensures ends { (bytes : List ℕ) → Reads bytes script.now → Ends commands.Check bytes result (K.written sink.old) (K.written sink.new) }
    ensures counted { IsCounted result (K.faults sink.old) (K.faults sink.new) }
{
    match accept(alloc, script) {
        Ok(_cleared) => finished(Finish::Done, write_accepted(sink)),
        Err(rejection) => reject(alloc, rejection, sink),
    }
}

fn print_script<K: Sink>(alloc: Global, script: &Script, sink: &mut K) -> Result<Finish, WriteEnd>
    ensures ends { (bytes : List ℕ) → Reads bytes script.now → Ends commands.Print bytes result (K.written sink.old) (K.written sink.new) }
    ensures counted { IsCounted result (K.faults sink.old) (K.faults sink.new) }
{
    finished(Finish::Done, write_canonical(alloc, script, sink))
}

// Writes the line of a script that is not run.
fn reject<K: Sink>(alloc: Global, rejection: Rejection, sink: &mut K) -> Result<Finish, WriteEnd>
    ensures ends { (command : Command) (bytes : List ℕ) → ((reason : Reason) → rejection ≡ rejections.Refused reason → Refuses command bytes reason)
        → Ends command bytes result (K.written sink.old) (K.written sink.new) }
    ensures counted { IsCounted result (K.faults sink.old) (K.faults sink.new) }
{
    match rejection {
        Rejection::Refused(refusal) => refuse(alloc, refusal, sink),
        Rejection::NoMemory => Err(WriteEnd::NoMemory),
    }
}

/// Writes the line of a refusal.
pub fn refuse<K: Sink>(alloc: Global, refusal: Refusal, sink: &mut K) -> Result<Finish, WriteEnd>
    ensures ends { (command : Command) (bytes : List ℕ) → Refuses command bytes refusal → Ends command bytes result (K.written sink.old) (K.written sink.new) }
    ensures not_done { result ≢ Ok Finish.Done }
    ensures not_terminated { result ≢ Ok Finish.Terminated }
    ensures counted { IsCounted result (K.faults sink.old) (K.faults sink.new) }
{
    finished(Finish::Refused, write_refusal(alloc, refusal, sink))
}

// How a command ends whose run ends so.
fn run_finished(ran: Result<RunState, WriteEnd>) -> Result<Finish, WriteEnd>
    ensures { result ≡ spec.run_finished ran }
{
    match ran {
        Ok(RunState::Going) => Ok(Finish::Done),
        Ok(RunState::Ended) => Ok(Finish::Terminated),
        Err(end) => Err(end),
    }
}

// This end, where all was written.
fn finished(finish: Finish, written: Result<(), WriteEnd>) -> Result<Finish, WriteEnd>
    ensures { result ≡ spec.finished finish written }
{
    match written {
        Ok(()) => Ok(finish),
        Err(end) => Err(end),
    }
}
