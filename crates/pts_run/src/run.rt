//! Running the statements of a program in order, and writing each one's line.

ghost use Rattle.std.specs.Prelude.{◌≡◌, true, false, None, IfOk, OnOk};
ghost use Rattle.pts_print.specs.Canonical.{canonical};
ghost use Rattle.pts_program.specs.declared.info.StatementInfo.TheVariants.{Call};
ghost use Rattle.pts_store.specs.Laws.{SameShape};
ghost use Rattle.pts_eval.specs.Built.{first_later, is_later};
ghost use Rattle.pts_eval.specs.Cells.{start_store};
ghost use Rattle.pts_eval.specs.Runs.{name_at};
ghost use Rattle.pts_run.specs.declared.run.WriteEnd.TheVariants.{Fault, NoMemory};
ghost use Rattle.pts_run.specs.Writing.{AddsLine, IsCounted, WritesRun, WritesRunPart, WritesText};
ghost use Rattle.pts_run.specs.Text.{accepted_line, refusal_line};

use crate::lines::{push_called, push_printed, push_refusal, push_terminated};
use crate::refusal::Refusal;
use pts_boards::{Gate, Pool};
use pts_calls::{CallAnswer, call_form, run_call};
use pts_conflict::Cleared;
use pts_eval::{RunState, Store, start_store};
use pts_io::{Sink, SinkFault, write_all};
use pts_program::{Program, StatementInfo};
use pts_store::writing_keeps_the_shape;
use pts_syntax::print;
use pts_tree::Script;
use pts_types::NoMemory;
use std::alloc::{AllocError, Global};
use std::thread::Threads;

/// Why not all was written.
#[derive(Clone, Copy, Debug, PartialEq, Eq)]
pub enum WriteEnd {
    Fault,
    NoMemory,
}

impl From<AllocError> for WriteEnd {
    ghost from_gives = { λ _ end. end ≡ NoMemory };

    fn from(_: AllocError) -> Self {
        WriteEnd::NoMemory
    }
}

impl From<NoMemory> for WriteEnd {
    ghost from_gives = { λ _ end. end ≡ NoMemory };

    fn from(_: NoMemory) -> Self {
        WriteEnd::NoMemory
    }
}

impl From<SinkFault> for WriteEnd {
    ghost from_gives = { λ _ end. end ≡ Fault };

    fn from(_: SinkFault) -> Self {
        WriteEnd::Fault
    }
}

// What all statements of a run go by.
#[derive(Drop)]
struct Runner<'a, R, G> {
    rt: &'a R,
    alloc: Global,
    gate: &'a G,
    pool: Pool,
    cleared: &'a Cleared,
}

/// Runs the statements in order, all of which are built, until one of them terminates the run. Each one's line is written once it has
/// ended.
#[tactic(auto, using(crate::proofs::Runs::is_built))]
pub fn run_program<R: Threads + Sync, K: Sink, G: Gate>(
    rt: &R,
    alloc: Global,
    gate: &G,
    pool: Pool,
    cleared: &Cleared,
    sink: &mut K,
) -> Result<RunState, WriteEnd>
    requires { first_later cleared.now ≡ None }
    ensures whole { IfOk result (λ state. WritesRun pool cleared.now state (K.written sink.old) (K.written sink.new)) }
    ensures part { WritesRunPart pool cleared.now (K.written sink.old) (K.written sink.new) }
    ensures counted { IsCounted result (K.faults sink.old) (K.faults sink.new) }
{
    let mut store = start_store(alloc, cleared.program())?;
    let mut line = Vec::new(alloc);
    let runner = Runner {
        rt,
        alloc,
        gate,
        pool,
        cleared,
    };
    for (place, statement) in cleared.program().statements().iter().enumerate() {
        line.clear();
        let state = runner.perform(*statement, place + 1, &mut store, &mut line)?;
        write_all(sink, &line)?;
        if has_ended(state) {
            return Ok(RunState::Ended);
        }
    }
    Ok(RunState::Going)
}

/// Writes the line of a script that is accepted.
pub fn write_accepted<K: Sink>(sink: &mut K) -> Result<(), WriteEnd>
    ensures writes { WritesText accepted_line result (K.written sink.old) (K.written sink.new) }
    ensures counted { IsCounted result (K.faults sink.old) (K.faults sink.new) }
{
    write_all(sink, b"accepted\n")?;
    Ok(())
}

/// Writes the line of a refusal.
pub fn write_refusal<K: Sink>(alloc: Global, refusal: Refusal, sink: &mut K) -> Result<(), WriteEnd>
    ensures writes { WritesText (refusal_line refusal) result (K.written sink.old) (K.written sink.new) }
    ensures counted { IsCounted result (K.faults sink.old) (K.faults sink.new) }
{
    let mut line = Vec::new(alloc);
    push_refusal(&mut line, refusal)?;
    write_all(sink, &line)?;
    Ok(())
}

/// Writes the canonical spelling of a script.
pub fn write_canonical<K: Sink>(
    alloc: Global,
    script: &Script,
    sink: &mut K,
) -> Result<(), WriteEnd>
    ensures writes { WritesText (canonical script.now) result (K.written sink.old) (K.written sink.new) }
    ensures counted { IsCounted result (K.faults sink.old) (K.faults sink.new) }
{
    let text = print(alloc, script)?;
    write_all(sink, &text)?;
    Ok(())
}

impl<R: Threads + Sync, G: Gate> Runner<'_, R, G> {
    // Performs a statement that is built, and puts its line behind what the text holds.
    fn perform(
        &self,
        statement: StatementInfo,
        number: usize,
        store: &mut Store,
        text: &mut Vec<u8>,
    ) -> Result<RunState, NoMemory>
        requires built { is_later self.now.cleared.now statement ≡ false }
        requires arrays { SameShape (start_store self.now.cleared.now) store.old }
        ensures performed { IfOk result (λ state. AddsLine self.now.pool self.now.cleared.now statement number store.old store.new state text.old.items text.new.items) }
        ensures arrays { OnOk result (SameShape (start_store self.now.cleared.now) store.new) }
    {
        match statement {
            StatementInfo::Print(array) => {
                let name = name_of(self.cleared.program(), array);
                push_printed(text, number, name, store.cells(array))?;
                Ok(RunState::Going)
            }
            StatementInfo::Call(call) => self.perform_call(call, number, store, text),
            StatementInfo::Block(_) => unreachable!(),
        }
    }

    fn perform_call(
        &self,
        call: u32,
        number: usize,
        store: &mut Store,
        text: &mut Vec<u8>,
    ) -> Result<RunState, NoMemory>
        requires built { is_later self.now.cleared.now (Call call) ≡ false }
        requires arrays { SameShape (start_store self.now.cleared.now) store.old }
        ensures performed { IfOk result (λ state. AddsLine self.now.pool self.now.cleared.now (Call call) number store.old store.new state text.old.items text.new.items) }
        ensures arrays { OnOk result (SameShape (start_store self.now.cleared.now) store.new) }
    {
        writing_keeps_the_shape();
        let form = call_form(self.cleared, call);
        match run_call(
            self.rt,
            self.alloc,
            self.gate,
            self.pool,
            self.cleared,
            call,
            &*store,
        )? {
            CallAnswer::Gave(given, writes) => {
                store.accept(&writes);
                push_called(text, number, form, given)?;
                Ok(RunState::Going)
            }
            CallAnswer::Terminated => {
                push_terminated(text, number)?;
                Ok(RunState::Ended)
            }
        }
    }
}

fn has_ended(state: RunState) -> bool
    ensures yes { result ≡ true → state ≡ RunState.Ended }
    ensures no { result ≡ false → state ≡ RunState.Going }
{
    matches!(state, RunState::Ended)
}

// The name of the array with this number; empty where there is no such array.
fn name_of(program: &Program, array: u32) -> &str
    ensures { result.now ≡ name_at program.now array }
{
    match program.arrays().get(array as usize) {
        Some(info) => info.name.as_str(),
        None => "",
    }
}
