//! The loops of a program.

ghost use Rattle.std.specs.Option.{option_copied};
ghost use Rattle.std.specs.Prelude.{◌≡◌, IfOk, IsSome, IsSomeAnd, Some, slice_get};
ghost use Rattle.pts_lowering.specs.declared.forms.LoweredCall.TheVariants as lowered;
ghost use Rattle.pts_store.specs.Laws.{SameShape};
ghost use Rattle.pts_passes.specs.Ends.{EndsAlongAll, PermitsLoop};
ghost use Rattle.pts_passes.specs.Passes.{head_at, pass_at, text_at};
ghost use Rattle.pts_eval.specs.Cells.{start_store};
ghost use Rattle.pts_loops.specs.Answers.{end_of, writes_of};
ghost use Rattle.pts_loops.specs.Turns.{IsReady, pass_of};

use crate::answers::LoopAnswer;
use crate::run::Run;
use pts_boards::{Gate, Pool};
use pts_conflict::Cleared;
use pts_constants::CallText;
use pts_layout::points_of_call;
use pts_lowering::{LoweredCall, LoweredLoop};
use pts_program::Program;
use pts_store::View;
use pts_tree::Loop;
use pts_types::NoMemory;
use std::alloc::Global;
use std::thread::Threads;

// The head of the loop of this number, if the call is one.
fn find_head(program: &Program, call: u32) -> Option<&LoweredLoop>
    ensures { option_copied result ≡ head_at program.now call }
{
    match program.lowered_calls().get(call as usize) {
        Some(LoweredCall::Loop(head)) => Some(head),
        _ => None,
    }
}

fn find_text(program: &Program, call: u32) -> Option<&Loop>
    ensures { option_copied result ≡ text_at program.now call }
{
    match program.texts().get(call as usize) {
        Some(CallText::Loop(text)) => Some(text),
        _ => None,
    }
}

// The loop of this number, with what it is told of its program.
fn find_run<'a>(program: &'a Program, call: u32) -> Run<'a>
    requires { IsSome (head_at program.now call) }
    ensures pass { pass_at program.now call ≡ Some (pass_of result) }
    ensures ready { IsReady result }
{
    program.keeps_its_promises();
    let Some(head) = find_head(program, call) else {
        unreachable!()
    };
    let Some(text) = find_text(program, call) else {
        unreachable!()
    };
    let info = &program.calls()[call as usize];
    Run {
        call,
        text,
        head,
        steps: program.steps(call),
        points: points_of_call(program, call as usize),
        first_point: info.first_point,
        arrays: program.arrays(),
        functions: program.codes(),
    }
}

/// Runs a loop ([parallel.alg.for.loop]) over a view: what its evaluations write, and what its reductions and inductions leave in the
/// cells that its clauses name. Each order that the policy of the loop allows ends so and writes the same. The view is only read.
/// Where there is no memory for what it writes, nothing is answered.
pub fn run_loop<R: Threads + Sync, V: View + Sync, G: Gate>(
    _rt: &R,
    alloc: Global,
    gate: &G,
    pool: Pool,
    cleared: &Cleared,
    call: u32,
    view: &V,
) -> Result<LoopAnswer, NoMemory>
    requires form { IsSome (head_at cleared.now call) }
    requires arrays { SameShape (start_store cleared.now) (V.stands view.now) }
    ensures permitted { IfOk result (λ answer. IsSomeAnd (pass_at cleared.now call) (λ pass. PermitsLoop pool pass (V.stands view.now) (end_of answer) (writes_of answer))) }
    ensures orders { IfOk result (λ answer. IsSomeAnd (pass_at cleared.now call) (λ pass. EndsAlongAll pool pass (V.stands view.now) (end_of answer) (writes_of answer))) }
{
    let program = cleared.program();
    program.keeps_its_promises();
    let run = find_run(program, call);
    run.run(alloc, gate, pool, view)
}
