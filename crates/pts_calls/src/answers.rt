//! What a call answers.

ghost use Rattle.std.specs.Prelude.{IsSomeAnd, ℕ};
ghost use Rattle.pts_boards.specs.declared.pool.Pool.{Pool as Workers};
ghost use Rattle.pts_lowering.specs.declared.forms.LoweredCall.{LoweredCall as Form};
ghost use Rattle.pts_lowering.specs.declared.forms.LoweredCall.TheVariants as lowered;
ghost use Rattle.pts_lowering.specs.declared.forms.LoweredLoop.{LoweredLoop as Head};
ghost use Rattle.pts_lowering.specs.declared.forms.Reduction.{Reduction as Sum};
ghost use Rattle.pts_lowering.specs.declared.forms.Scan.{Scan as ScanCall};
ghost use Rattle.pts_program.specs.declared.lists.Lists.{Lists};
ghost use Rattle.pts_store.specs.Stores.{Store};
ghost use Rattle.pts_passes.specs.Ends.{PermitsLoop};
ghost use Rattle.pts_passes.specs.Passes.{pass_at};
ghost use Rattle.pts_eval.specs.Maps.{PermitsAnswer};
ghost use Rattle.pts_maps.specs.Answers.{end_of};
ghost use Rattle.pts_sums.specs.Answers.{IsScanAnswer, IsSumAnswer};
ghost use Rattle.pts_loops.specs.Answers as loops;
ghost use Rattle.pts_calls.specs.Answers.{IsCallAnswer};

use pts_eval::{CallResult, Writes};
use pts_loops::LoopAnswer;
use pts_maps::{Answer, MapAnswer};
use pts_sums::{Outcome, ScanAnswer, SumAnswer};
use pts_types::Value;

/// What a call gives and writes, or that it threw. What it throws itself is not kept: a throw ends the run, whichever it is.
#[derive(Drop)]
pub enum CallAnswer {
    Gave(CallResult, Writes),
    Terminated,
}

/// The answer of a reduction.
#[tactic(auto, using(crate::proofs::Results::sum_given, crate::proofs::Results::sum_thrown))]
pub fn answer_of_sum(answer: SumAnswer) -> CallAnswer
    ensures { (pool : Workers) (lists : Lists) (number : ℕ) (call : Sum) (store : Store) → IsSumAnswer lists.functions store pool call answer
        → IsCallAnswer pool lists number (lowered.Reduce call) store result }
{
    match answer.outcome {
        Outcome::Value(value) => CallAnswer::Gave(CallResult::Value(value), answer.writes),
        Outcome::Terminated => CallAnswer::Terminated,
    }
}

/// The answer of a map call.
pub fn answer_of_map(answer: MapAnswer) -> CallAnswer
    ensures { (pool : Workers) (lists : Lists) (number : ℕ) (call : Form) (store : Store) → PermitsAnswer pool.workers lists.functions store call (end_of answer.answer) answer.writes
        → IsCallAnswer pool lists number call store result }
{
    match answer.answer {
        Answer::Done => CallAnswer::Gave(CallResult::Done, answer.writes),
        Answer::Index(place) => CallAnswer::Gave(CallResult::Position(place), answer.writes),
        Answer::Count(count) => CallAnswer::Gave(
            CallResult::Value(Value::U64(count)),
            answer.writes,
        ),
        Answer::Terminated => CallAnswer::Terminated,
    }
}

/// The answer of a scan.
#[tactic(auto, using(crate::proofs::Results::scan_given, crate::proofs::Results::scan_thrown))]
pub fn answer_of_scan(answer: ScanAnswer) -> CallAnswer
    ensures { (pool : Workers) (lists : Lists) (number : ℕ) (call : ScanCall) (store : Store) → IsScanAnswer lists.functions store pool call answer
        → IsCallAnswer pool lists number (lowered.Scan call) store result }
{
    match answer {
        ScanAnswer::Written(writes) => CallAnswer::Gave(CallResult::Done, writes),
        ScanAnswer::Terminated => CallAnswer::Terminated,
    }
}

/// The answer of a loop.
#[tactic(auto, using(crate::proofs::Results::loop_given, crate::proofs::Results::loop_thrown))]
pub fn answer_of_loop(answer: LoopAnswer) -> CallAnswer
    ensures { (pool : Workers) (lists : Lists) (number : ℕ) (head : Head) (store : Store) → IsSomeAnd (pass_at lists number) (λ pass. PermitsLoop pool pass store (loops.end_of answer) (loops.writes_of answer))
        → IsCallAnswer pool lists number (lowered.Loop head) store result }
{
    match answer {
        LoopAnswer::Written { writes, .. } => CallAnswer::Gave(CallResult::Done, writes),
        LoopAnswer::Terminated { .. } => CallAnswer::Terminated,
    }
}
