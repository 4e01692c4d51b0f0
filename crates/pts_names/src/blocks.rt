//! Names in task blocks.

ghost use Rattle.std.specs.Prelude.{◌≡◌, IfOk, OnOk, flat_map};
ghost use Rattle.pts_names.specs.Entered.{clashes, misses, task_locals, task_names};

use crate::expressions::expr_misses;
use crate::loops::{loop_misses, loop_repeats};
use crate::parts::{call_misses, cell_misses};
use pts_rules::Scope;
use pts_tree::TaskStmt;
use pts_types::NoMemory;
use std::alloc::Global;

/// Whether one of these statements uses a name that is not in scope and no local name of its own.
#[cycle(tasks_miss)]
#[tactic(auto, using(crate::proofs::Missing::turns))]
pub fn tasks_miss(alloc: Global, scope: &mut Scope, tasks: &[TaskStmt]) -> Result<bool, NoMemory>
    ensures answer { IfOk result (λ b. b ≡ misses scope.old (flat_map task_names tasks.now)) }
    ensures same { OnOk result (scope.new ≡ scope.old) }
{
    for task in tasks {
        if task_misses(alloc, scope, task)? {
            return Ok(true);
        }
    }
    Ok(false)
}

#[cycle(tasks_miss)]
#[tactic(auto, using(crate::proofs::TaskNames::missed_parts))]
fn task_misses(alloc: Global, scope: &mut Scope, task: &TaskStmt) -> Result<bool, NoMemory>
    ensures answer { IfOk result (λ b. b ≡ misses scope.old (task_names task.now)) }
    ensures same { OnOk result (scope.new ≡ scope.old) }
{
    match task {
        TaskStmt::Run(tasks) => tasks_miss(alloc, scope, tasks.as_slice()),
        TaskStmt::Wait | TaskStmt::Throw(_) => Ok(false),
        TaskStmt::Assign(cell, value) => Ok(cell_misses(scope, cell) || expr_misses(scope, value)),
        TaskStmt::Call(call) => Ok(call_misses(scope, call)),
        TaskStmt::Loop(x) => loop_misses(alloc, scope, x),
        TaskStmt::Block(block) => tasks_miss(alloc, scope, block.body.as_slice()),
    }
}

/// Whether a loop of these statements has a local name twice, or one that is in scope.
#[cycle(tasks_clash)]
#[tactic(auto, using(crate::proofs::TaskNames::turns))]
pub fn tasks_clash(alloc: Global, scope: &mut Scope, tasks: &[TaskStmt]) -> Result<bool, NoMemory>
    ensures answer { IfOk result (λ b. b ≡ clashes scope.old (flat_map task_locals tasks.now)) }
    ensures same { OnOk result (scope.new ≡ scope.old) }
{
    for task in tasks {
        if task_clashes(alloc, scope, task)? {
            return Ok(true);
        }
    }
    Ok(false)
}

#[cycle(tasks_clash)]
#[tactic(auto, using(crate::proofs::TaskNames::clashed_parts))]
fn task_clashes(alloc: Global, scope: &mut Scope, task: &TaskStmt) -> Result<bool, NoMemory>
    ensures answer { IfOk result (λ b. b ≡ clashes scope.old (task_locals task.now)) }
    ensures same { OnOk result (scope.new ≡ scope.old) }
{
    match task {
        TaskStmt::Run(tasks) => tasks_clash(alloc, scope, tasks.as_slice()),
        TaskStmt::Loop(x) => loop_repeats(alloc, scope, x),
        TaskStmt::Block(block) => tasks_clash(alloc, scope, block.body.as_slice()),
        TaskStmt::Wait | TaskStmt::Throw(_) | TaskStmt::Assign(..) | TaskStmt::Call(_) => Ok(false),
    }
}
