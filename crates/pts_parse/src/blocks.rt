//! Reading task blocks.

ghost use Rattle.std.specs.Prelude.{◌≡◌};
ghost use Rattle.pts_parse.specs.Reading.{ahead, Gives};
ghost use Rattle.pts_parse.specs.BlockReading as spec;

use crate::calls::call;
use crate::loops::{loop_behind, value};
use crate::reader::{Read, ahead, expect, number, open_bracket, past};
use crate::sums::cell;
use pts_tree::{Block, Mark, Sign, SignKind, TaskStmt};
use sqlite_items::Items;
use std::alloc::Global;

#[tactic(auto, unfolding(crate::specs::Reading::and_then, crate::specs::BlockReading::throw_stmt))]
fn throw_statement(signs: &[Sign]) -> Read<TaskStmt>
    ensures { Gives (λ x. (x.0, x.1.now)) result (spec.throw_stmt signs.now) }
{
    let (code, rest) = number(signs)?;
    let rest = expect(Mark::Semicolon, rest)?;
    Ok((TaskStmt::Throw(code), rest))
}

#[tactic(auto, unfolding(crate::specs::Reading::and_then, crate::specs::BlockReading::assign_cell))]
fn assign_cell(alloc: Global, room: usize, signs: &[Sign]) -> Read<TaskStmt>
    ensures { Gives (λ x. (x.0, x.1.now)) result (spec.assign_cell room signs.now) }
{
    let (cell, rest) = cell(alloc, room, signs)?;
    let (value, rest) = value(alloc, Mark::Equal, room, rest)?;
    Ok((TaskStmt::Assign(cell, value), rest))
}

// Statements between braces.
#[cycle(tasks)]
#[tactic(auto, using(crate::proofs::Rooms::inner_tasks_is), unfolding(crate::specs::Reading::and_then, crate::specs::BlockReading::braced_tasks))]
fn braced_tasks(alloc: Global, in_run: bool, room: usize, signs: &[Sign]) -> Read<Items<TaskStmt>>
    ensures { Gives (λ x. (x.0, x.1.now)) result (spec.braced_tasks in_run room (spec.inner_tasks room) signs.now) }
{
    let rest = open_bracket(room, Mark::OpenBrace, signs)?;
    let (statements, rest) = task_list(alloc, in_run, room - 1, rest)?;
    let rest = expect(Mark::CloseBrace, rest)?;
    Ok((statements, rest))
}

#[cycle(tasks)]
#[tactic(auto, unfolding(crate::specs::Reading::and_then, crate::specs::BlockReading::block_of))]
fn block_of(alloc: Global, room: usize, signs: &[Sign]) -> Read<Block>
    ensures { Gives (λ x. (x.0, x.1.now)) result (spec.block_of room (spec.inner_tasks room) signs.now) }
{
    let (body, rest) = braced_tasks(alloc, false, room, signs)?;
    Ok((Block { body }, rest))
}

// A statement that may stand directly in a `run`.
#[cycle(tasks)]
#[tactic(auto, unfolding(crate::specs::Reading::and_then, crate::specs::BlockReading::rstmt_of))]
fn run_statement(alloc: Global, room: usize, signs: &[Sign]) -> Read<TaskStmt>
    ensures { Gives (λ x. (x.0, x.1.now)) result (spec.rstmt_of room (spec.inner_tasks room) signs.now) }
{
    match ahead(signs) {
        SignKind::Name => assign_cell(alloc, room, signs),
        SignKind::Mark(Mark::Throw) => throw_statement(past(signs)),
        SignKind::Mark(Mark::ForLoop) => {
            let (statement, rest) = loop_behind(alloc, room, past(signs))?;
            Ok((TaskStmt::Loop(statement), rest))
        }
        SignKind::Mark(Mark::TaskBlock) => {
            let (block, rest) = block_of(alloc, room, past(signs))?;
            Ok((TaskStmt::Block(block), rest))
        }
        _ => {
            let (call, rest) = call(alloc, room, signs)?;
            Ok((TaskStmt::Call(call), rest))
        }
    }
}

#[cycle(tasks)]
#[tactic(auto, unfolding(crate::specs::Reading::and_then, crate::specs::BlockReading::tstmt_of))]
fn task_statement(alloc: Global, room: usize, signs: &[Sign]) -> Read<TaskStmt>
    ensures { Gives (λ x. (x.0, x.1.now)) result (spec.tstmt_of room (spec.inner_tasks room) signs.now) }
{
    match ahead(signs) {
        SignKind::Mark(Mark::Run) => {
            let (statements, rest) = braced_tasks(alloc, true, room, past(signs))?;
            Ok((TaskStmt::Run(statements), rest))
        }
        SignKind::Mark(Mark::Wait) => {
            let rest = expect(Mark::Semicolon, past(signs))?;
            Ok((TaskStmt::Wait, rest))
        }
        _ => run_statement(alloc, room, signs),
    }
}

#[cycle(tasks)]
#[tactic(auto, unfolding(crate::specs::Reading::and_then))]
fn task(alloc: Global, in_run: bool, room: usize, signs: &[Sign]) -> Read<TaskStmt>
    ensures { Gives (λ x. (x.0, x.1.now)) result (spec.task_of in_run room (spec.inner_tasks room) signs.now) }
{
    if in_run {
        run_statement(alloc, room, signs)
    } else {
        task_statement(alloc, room, signs)
    }
}

#[cycle(tasks)]
#[tactic(auto, using(crate::proofs::Repeats::loops, crate::proofs::Rooms::task_list_is))]
fn task_list(alloc: Global, in_run: bool, room: usize, signs: &[Sign]) -> Read<Items<TaskStmt>>
    ensures { Gives (λ x. (x.0, x.1.now)) result (spec.task_list room in_run signs.now) }
{
    let mut found = Items::new(alloc);
    let mut rest = signs;
    for _turn in 0..signs.len() {
        if !sees_task(in_run, rest) {
            return Ok((found, rest));
        }
        let (part, next) = task(alloc, in_run, room, rest)?;
        found.push(part)?;
        rest = next;
    }
    Ok((found, rest))
}

/// Whether the first sign begins a call.
#[tactic(auto, unfolding(crate::specs::BlockReading::sees_call))]
pub fn sees_call(signs: &[Sign]) -> bool
    ensures { result ≡ spec.sees_call (ahead signs.now) }
{
    matches!(
        ahead(signs),
        SignKind::Mark(
            Mark::ForEach
                | Mark::Transform
                | Mark::FindIf
                | Mark::CountIf
                | Mark::Reduce
                | Mark::TransformReduce
                | Mark::InclusiveScan
                | Mark::ExclusiveScan
                | Mark::TransformInclusiveScan
                | Mark::TransformExclusiveScan
        )
    )
}

#[tactic(auto, unfolding(crate::specs::BlockReading::sees_task))]
fn sees_task(in_run: bool, signs: &[Sign]) -> bool
    ensures { result ≡ spec.sees_task in_run (ahead signs.now) }
{
    match ahead(signs) {
        SignKind::Name => true,
        SignKind::Mark(Mark::Throw | Mark::ForLoop | Mark::TaskBlock) => true,
        SignKind::Mark(Mark::Run | Mark::Wait) => !in_run,
        _ => sees_call(signs),
    }
}

/// A task block behind its word.
#[tactic(auto, unfolding(crate::specs::BlockReading::block))]
pub fn block(alloc: Global, room: usize, signs: &[Sign]) -> Read<Block>
    ensures { Gives (λ x. (x.0, x.1.now)) result (spec.block room signs.now) }
{
    block_of(alloc, room, signs)
}
