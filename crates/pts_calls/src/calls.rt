//! Running a call by its form.

ghost use Rattle.std.specs.Prelude.{◌≡◌, IfOk, IfSome, IsSome, IsTrue, Some, slice_get};
ghost use Rattle.pts_lowering.specs.declared.forms.LoweredCall.TheVariants as lowered;
ghost use Rattle.pts_store.specs.Laws.{SameShape};
ghost use Rattle.pts_eval.specs.Cells.{start_store};
ghost use Rattle.pts_calls.specs.Answers as spec;
ghost use Rattle.pts_calls.specs.Answers.{is_map, IsCallAnswer};

use crate::answers::{CallAnswer, answer_of_loop, answer_of_map, answer_of_scan, answer_of_sum};
use pts_boards::{Gate, Pool};
use pts_conflict::Cleared;
use pts_eval::View;
use pts_loops::run_loop;
use pts_lowering::{LoweredCall, LoweredLoop, Reduction, Scan};
use pts_maps::{count_if, find_if, for_each, transform};
use pts_sums::{reduce, scan, transform_reduce};
use pts_types::NoMemory;
use std::alloc::Global;
use std::thread::Threads;

// Whether a reduction takes the elements of one range as they are.
fn is_reduce(reduction: &Reduction) -> bool
    ensures { result ≡ spec.is_reduce reduction.now.second reduction.now.transform }
{
    match (reduction.second, reduction.transform) {
        (None, None) => true,
        _ => false,
    }
}

fn run_reduction<R: Threads + Sync, V: View + Sync, G: Gate>(
    rt: &R,
    alloc: Global,
    gate: &G,
    pool: Pool,
    cleared: &Cleared,
    call: u32,
    reduction: &Reduction,
    view: &V,
) -> Result<CallAnswer, NoMemory>
    requires there { slice_get cleared.now.lowered_calls call ≡ Some (lowered.Reduce reduction.now) }
    requires arrays { SameShape (start_store cleared.now) (V.stands view.now) }
    ensures { IfOk result (IsCallAnswer pool cleared.now call (lowered.Reduce reduction.now) (V.stands view.now)) }
{
    let answer = if is_reduce(reduction) {
        reduce(rt, alloc, gate, pool, cleared, call, view)?
    } else {
        transform_reduce(rt, alloc, gate, pool, cleared, call, view)?
    };
    Ok(answer_of_sum(answer))
}

fn run_scan<R: Threads + Sync, V: View + Sync, G: Gate>(
    rt: &R,
    alloc: Global,
    gate: &G,
    pool: Pool,
    cleared: &Cleared,
    call: u32,
    own: &Scan,
    view: &V,
) -> Result<CallAnswer, NoMemory>
    requires there { slice_get cleared.now.lowered_calls call ≡ Some (lowered.Scan own.now) }
    requires arrays { SameShape (start_store cleared.now) (V.stands view.now) }
    ensures { IfOk result (IsCallAnswer pool cleared.now call (lowered.Scan own.now) (V.stands view.now)) }
{
    let answer = scan(rt, alloc, gate, pool, cleared, call, view)?;
    Ok(answer_of_scan(answer))
}

fn run_map<R: Threads + Sync, V: View + Sync, G: Gate>(
    rt: &R,
    alloc: Global,
    gate: &G,
    pool: Pool,
    cleared: &Cleared,
    call: u32,
    form: &LoweredCall,
    view: &V,
) -> Result<CallAnswer, NoMemory>
    requires there { slice_get cleared.now.lowered_calls call ≡ Some form.now }
    requires built { IsTrue (is_map form.now) }
    requires arrays { SameShape (start_store cleared.now) (V.stands view.now) }
    ensures { IfOk result (IsCallAnswer pool cleared.now call form.now (V.stands view.now)) }
{
    let answer = match form {
        LoweredCall::ForEach(_) => for_each(rt, alloc, gate, pool, cleared, call, view)?,
        LoweredCall::Transform(_) => transform(rt, alloc, gate, pool, cleared, call, view)?,
        LoweredCall::FindIf(_) => find_if(rt, alloc, gate, pool, cleared, call, view)?,
        LoweredCall::CountIf(_) => count_if(rt, alloc, gate, pool, cleared, call, view)?,
        _ => unreachable!(),
    };
    Ok(answer_of_map(answer))
}

fn run_for_loop<R: Threads + Sync, V: View + Sync, G: Gate>(
    rt: &R,
    alloc: Global,
    gate: &G,
    pool: Pool,
    cleared: &Cleared,
    call: u32,
    head: &LoweredLoop,
    view: &V,
) -> Result<CallAnswer, NoMemory>
    requires there { slice_get cleared.now.lowered_calls call ≡ Some (lowered.Loop head.now) }
    requires arrays { SameShape (start_store cleared.now) (V.stands view.now) }
    ensures { IfOk result (IsCallAnswer pool cleared.now call (lowered.Loop head.now) (V.stands view.now)) }
{
    let answer = run_loop(rt, alloc, gate, pool, cleared, call, view)?;
    Ok(answer_of_loop(answer))
}

/// The form of a call that exists.
pub fn call_form(cleared: &Cleared, call: u32) -> &LoweredCall
    requires { IsSome (slice_get cleared.now.lowered_calls call) }
    ensures { slice_get cleared.now.lowered_calls call ≡ Some result.now }
{
    match cleared.program().lowered_calls().get(call as usize) {
        Some(form) => form,
        None => unreachable!(),
    }
}

/// Runs the call of this number in chunks of the pool's length. The view is only read, and stays as it is with want of memory.
pub fn run_call<R: Threads + Sync, V: View + Sync, G: Gate>(
    rt: &R,
    alloc: Global,
    gate: &G,
    pool: Pool,
    cleared: &Cleared,
    call: u32,
    view: &V,
) -> Result<CallAnswer, NoMemory>
    requires there { IsSome (slice_get cleared.now.lowered_calls call) }
    requires arrays { SameShape (start_store cleared.now) (V.stands view.now) }
    ensures { IfOk result (λ answer. IfSome (slice_get cleared.now.lowered_calls call) (λ form. IsCallAnswer pool cleared.now call form (V.stands view.now) answer)) }
{
    let form = call_form(cleared, call);
    match form {
        LoweredCall::Reduce(reduction) => {
            run_reduction(rt, alloc, gate, pool, cleared, call, reduction, view)
        }
        LoweredCall::Scan(own) => run_scan(rt, alloc, gate, pool, cleared, call, own, view),
        LoweredCall::Loop(head) => run_for_loop(rt, alloc, gate, pool, cleared, call, head, view),
        _ => run_map(rt, alloc, gate, pool, cleared, call, form, view),
    }
}
