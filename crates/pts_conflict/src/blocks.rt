//! The first conflict between parts of a block.

ghost use Rattle.std.specs.Prelude.{◌≡◌, ◌≤◌, ◌<◌, ◌+◌, All, List, [], ◌∷◌, Some, length, slice_get};
ghost use Rattle.pts_points.specs.declared.point.CallInfo.{CallInfo as CallValue};
ghost use Rattle.pts_lowering.specs.declared.tasks.LoweredBlock.{LoweredBlock as BlockValue};
ghost use Rattle.pts_lowering.specs.declared.tasks.LoweredTask.{LoweredTask as Task};
ghost use Rattle.pts_layout.specs.Layout.{HavePoints, IsInOrder};
ghost use Rattle.pts_conflict.specs.Concurrency as concurrency;
ghost use Rattle.pts_conflict.specs.Search as spec;
ghost use Rattle.pts_conflict.specs.Search.{EndsAt, FindsFirst, Forks, InBlockOf, InSomeBlock, IsFit, SomeForks, rank_of};

use crate::found::{Found, lower};
use crate::search::{BetweenParts, least_across};
use pts_layout::points_before;
use pts_lowering::{LoweredBlock, LoweredTask};
use pts_points::PointInfo;
use pts_program::Program;

fn first_of_call(program: &Program, call: u32, end: usize) -> usize
    ensures { (info : CallValue) → slice_get program.now.calls call ≡ Some info → result ≡ info.first_point }
{
    match program.calls().get(call as usize) {
        Some(info) => info.first_point as usize,
        None => end,
    }
}

fn first_of_block(program: &Program, block: u32, end: usize) -> usize
    ensures { (info : BlockValue) → slice_get program.now.lowered_blocks block ≡ Some info → result ≡ info.first_point }
{
    match program.lowered_blocks().get(block as usize) {
        Some(info) => info.first_point as usize,
        None => end,
    }
}

// The first point of statements, if their points end before this one.
#[cycle(first_point)]
fn first_point_of(program: &Program, tasks: &[LoweredTask], end: usize) -> usize
    ensures { EndsAt program.now tasks.now end → HavePoints program.now tasks.now result end }
{
    let mut at = end;
    for i in (0..tasks.len()).rev() {
        at = first_point(program, &tasks[i], at);
    }
    at
}

// The same of one statement.
#[cycle(first_point)]
fn first_point(program: &Program, task: &LoweredTask, end: usize) -> usize
    ensures { EndsAt program.now (task.now ∷ []) end → HavePoints program.now (task.now ∷ []) result end }
{
    match task {
        LoweredTask::Run(tasks) => first_point_of(program, tasks.as_slice(), end),
        LoweredTask::Wait => end,
        LoweredTask::Throw(_) => end,
        LoweredTask::Assign(at) => at.first as usize,
        LoweredTask::Call(call) => first_of_call(program, *call, end),
        LoweredTask::Block(block) => first_of_block(program, *block, end),
    }
}

fn is_run(task: &LoweredTask) -> bool
    ensures { result ≡ spec.is_run task.now }
{
    matches!(task, LoweredTask::Run(_))
}

fn is_wait(task: &LoweredTask) -> bool
    ensures { result ≡ concurrency.is_wait task.now }
{
    matches!(task, LoweredTask::Wait)
}

// The first conflict of what a statement runs with what is behind it in its phase, where the points of the statement begin at
// `low`, those behind it at `at`, and the phase ends at `stop`.
#[tactic(auto, using(crate::proofs::TaskPoints::ordered, crate::proofs::Forking::none_forks, crate::proofs::Forking::some_forks))]
fn least_of_run(
    program: &Program,
    task: &LoweredTask,
    points: &[PointInfo],
    low: usize,
    at: usize,
    stop: usize,
) -> Option<Found>
    requires fit { All IsFit points.now }
    requires points { stop ≤ length points.now }
    requires order { at ≤ stop }
    requires task { HavePoints program.now (task.now ∷ []) low at }
    ensures { (rest : List Task) → HavePoints program.now (concurrency.phase rest) at stop → FindsFirst (Forks program.now points.now task.now rest) rank_of result }
{
    if !is_run(task) {
        return None;
    }
    let first = &points[low..at];
    let second = &points[at..stop];
    least_across(&BetweenParts, first, second)
}

// Where the phase ends that a statement is in, if that of the statements behind it ends at `stop`.
fn phase_end(task: &LoweredTask, low: usize, stop: usize) -> usize
    ensures { result ≡ spec.phase_end task.now low stop }
{
    if is_wait(task) { low } else { stop }
}

// Goes through the statements from the last one on: `at` is the first point of those behind, `stop` where their phase ends.
fn least_of_body(program: &Program, block: &LoweredBlock, points: &[PointInfo]) -> Option<Found>
    requires order { IsInOrder program.now block.now }
    requires points { block.now.first_point + block.now.points ≤ length points.now }
    requires fit { All IsFit points.now }
    ensures { FindsFirst (SomeForks program.now points.now block.now.body) rank_of result }
{
    let mut best = None;
    let mut at = block.first_point as usize + block.points as usize;
    let mut stop = at;
    let body = block.body.as_slice();
    for i in (0..body.len()).rev() {
        let task = &body[i];
        let low = first_point(program, task, at);
        best = lower(best, least_of_run(program, task, points, low, at, stop));
        stop = phase_end(task, low, stop);
        at = low;
    }
    best
}

fn least_in(program: &Program, number: usize) -> Option<Found>
    requires { number < length program.now.lowered_blocks }
    ensures { FindsFirst (InBlockOf program.now number) rank_of result }
{
    program.keeps_its_promises();
    let block = &program.lowered_blocks()[number];
    if block.points == 0 {
        return None;
    }
    let start = points_before(program.points(), block.item);
    least_of_body(program, block, &program.points()[start..])
}

/// The first of the conflicts between parts that are concurrent.
pub fn least_in_blocks(program: &Program) -> Option<Found>
    ensures { FindsFirst (InSomeBlock program.now) rank_of result }
{
    let mut best = None;
    for number in 0..program.lowered_blocks().len() {
        best = lower(best, least_in(program, number));
    }
    best
}
