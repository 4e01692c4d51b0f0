//! Task blocks.

ghost use Rattle.std.specs.Prelude.{◌≡◌, IfOk, OnOk, flat_map};
ghost use Rattle.std.specs.List.{list_all};
ghost use Rattle.pts_rules.specs.Mistyped as spec;
ghost use Rattle.pts_rules.specs.Parts.{Assign, block_statements};
ghost use Rattle.pts_rules.proofs.Tasks.{task_statements};

use crate::calls::call_right;
use crate::exprs::expr_fits;
use crate::loops::loop_right;
use crate::names::{cell_right, kind_of_array};
use pts_rules::Scope;
use pts_tree::{Block, Cell, Expr, TaskStmt};
use pts_types::NoMemory;
use std::alloc::Global;

fn assign_right(scope: &Scope, cell: &Cell, expr: &Expr) -> bool
    ensures { result ≡ spec.statement_right scope.now (Assign cell.now expr.now) }
{
    match kind_of_array(scope, &cell.array) {
        Some(kind) => cell_right(scope, kind, cell) && expr_fits(scope, kind, expr),
        None => false,
    }
}

#[cycle(task)]
#[tactic(auto, using(pts_rules::proofs::Tasks::statements_by_form, crate::proofs::Every::every_one_alone))]
fn task_right(scope: &mut Scope, alloc: Global, task: &TaskStmt) -> Result<bool, NoMemory>
    ensures answer { IfOk result (λ b. b ≡ list_all (spec.statement_right scope.old) (task_statements task.now)) }
    ensures same { OnOk result (scope.new ≡ scope.old) }
{
    match task {
        TaskStmt::Run(tasks) => tasks_right(scope, alloc, tasks.as_slice()),
        TaskStmt::Wait => Ok(true),
        TaskStmt::Throw(code) => Ok(*code <= 999),
        TaskStmt::Assign(cell, expr) => Ok(assign_right(scope, cell, expr)),
        TaskStmt::Call(call) => Ok(call_right(scope, call)),
        TaskStmt::Loop(x) => loop_right(scope, alloc, x),
        TaskStmt::Block(block) => tasks_right(scope, alloc, block.body.as_slice()),
    }
}

#[cycle(task)]
#[tactic(auto, using(crate::proofs::Every::every_flat))]
fn tasks_right(scope: &mut Scope, alloc: Global, tasks: &[TaskStmt]) -> Result<bool, NoMemory>
    ensures answer { IfOk result (λ b. b ≡ list_all (spec.statement_right scope.old) (flat_map task_statements tasks.now)) }
    ensures same { OnOk result (scope.new ≡ scope.old) }
{
    for task in tasks {
        if !task_right(scope, alloc, task)? {
            return Ok(false);
        }
    }
    Ok(true)
}

/// Whether the statements of a block are right, with those of its tasks and of the blocks inside. The scope is as before.
#[tactic(auto, using(pts_rules::proofs::Tasks::statements_by_form))]
pub fn block_right(scope: &mut Scope, alloc: Global, block: &Block) -> Result<bool, NoMemory>
    ensures answer { IfOk result (λ b. b ≡ list_all (spec.statement_right scope.old) (block_statements block.now)) }
    ensures same { OnOk result (scope.new ≡ scope.old) }
{
    tasks_right(scope, alloc, block.body.as_slice())
}
