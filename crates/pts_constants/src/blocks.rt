//! Task blocks.

ghost use Rattle.std.specs.Prelude.{◌≡◌, IfOk, map};
ghost use Rattle.pts_constants.specs.Resolved as spec;

use crate::calls::resolve_call;
use crate::expressions::resolve_expr;
use crate::loops::resolve_loop;
use crate::sums::resolve_cell;
use pts_rules::Scope;
use pts_tree::{Block, TaskStmt};
use sqlite_items::Items;
use std::alloc::{AllocError, Global};

#[cycle(resolve_block)]
#[tactic(auto, using(crate::proofs::Turns::turns))]
fn resolve_tasks(
    alloc: Global,
    scope: &Scope,
    stmts: &[TaskStmt],
) -> Result<Items<TaskStmt>, AllocError>
    ensures { IfOk result (λ y. y ≡ map (spec.resolved_task scope.now) stmts.now) }
{
    let mut done = Items::new(alloc);
    for stmt in stmts {
        done.push(resolve_task(alloc, scope, stmt)?)?;
    }
    Ok(done)
}

#[cycle(resolve_block)]
#[tactic(auto, using(crate::proofs::ResolvedStatements::task_by_form))]
fn resolve_task(alloc: Global, scope: &Scope, stmt: &TaskStmt) -> Result<TaskStmt, AllocError>
    ensures { IfOk result (λ y. y ≡ spec.resolved_task scope.now stmt.now) }
{
    match stmt {
        TaskStmt::Run(body) => Ok(TaskStmt::Run(resolve_tasks(alloc, scope, body.as_slice())?)),
        TaskStmt::Wait => Ok(TaskStmt::Wait),
        TaskStmt::Throw(code) => Ok(TaskStmt::Throw(*code)),
        TaskStmt::Assign(cell, value) => Ok(TaskStmt::Assign(
            resolve_cell(alloc, scope, cell)?,
            resolve_expr(alloc, scope, value)?,
        )),
        TaskStmt::Call(call) => Ok(TaskStmt::Call(resolve_call(alloc, scope, call)?)),
        TaskStmt::Loop(x) => Ok(TaskStmt::Loop(resolve_loop(alloc, scope, x)?)),
        TaskStmt::Block(block) => Ok(TaskStmt::Block(resolve_block(alloc, scope, block)?)),
    }
}

/// A block in which no constant is left.
#[cycle(resolve_block)]
#[tactic(auto, using(crate::proofs::ResolvedStatements::task_by_form))]
pub fn resolve_block(alloc: Global, scope: &Scope, block: &Block) -> Result<Block, AllocError>
    ensures { IfOk result (λ y. y ≡ spec.resolved_block scope.now block.now) }
{
    Ok(Block {
        body: resolve_tasks(alloc, scope, block.body.as_slice())?,
    })
}
