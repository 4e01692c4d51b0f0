//! How deep blocks stand inside each other, and how many `run` they have.

ghost use Rattle.std.specs.Prelude.{◌≡◌, nat_lt, map, sum};
ghost use Rattle.std.specs.List.{list_any};
ghost use Rattle.pts_rules.specs.Counts as spec;
ghost use Rattle.pts_rules.proofs.Tasks.{task_nesting};
ghost use Rattle.pts_limits.specs.Amounts.{capped, in_task, task_runs};

use pts_tree::{Block, TaskStmt};

#[cycle(nesting)]
#[tactic(auto, using(crate::proofs::Lists::greatest_more))]
fn greatest_nesting(tasks: &[TaskStmt]) -> u64
    ensures { result ≡ capped (spec.greatest (map task_nesting tasks.now)) }
{
    let mut depth: u64 = 0;
    for task in tasks {
        depth = depth.max(nesting_of(task));
    }
    depth
}

#[cycle(nesting)]
#[tactic(auto, using(pts_rules::proofs::Tasks::nesting_by_form))]
fn nesting_of(task: &TaskStmt) -> u64
    ensures { result ≡ capped (task_nesting task.now) }
{
    match task {
        TaskStmt::Run(tasks) => greatest_nesting(tasks.as_slice()),
        TaskStmt::Wait => 0,
        TaskStmt::Throw(_) => 0,
        TaskStmt::Assign(..) => 0,
        TaskStmt::Call(_) => 0,
        TaskStmt::Loop(_) => 0,
        TaskStmt::Block(block) => nesting(block),
    }
}

// How many blocks stand inside each other, this one included.
#[cycle(nesting)]
#[tactic(auto, using(pts_rules::proofs::Tasks::nesting_by_form))]
pub fn nesting(block: &Block) -> u64
    ensures { result ≡ capped (spec.nesting block.now) }
{
    greatest_nesting(block.body.as_slice()).saturating_add(1)
}

// 1 for a `run`.
#[tactic(auto, using(crate::proofs::Runs::in_by_form))]
fn own_runs(task: &TaskStmt) -> u64
    ensures { result ≡ (in_task task.now).own }
{
    match task {
        TaskStmt::Run(_) => 1,
        TaskStmt::Wait => 0,
        TaskStmt::Throw(_) => 0,
        TaskStmt::Assign(..) => 0,
        TaskStmt::Call(_) => 0,
        TaskStmt::Loop(_) => 0,
        TaskStmt::Block(_) => 0,
    }
}

// How many `run` stand directly among these statements.
#[tactic(auto, using(crate::proofs::Lists::sum_more))]
fn count_runs(tasks: &[TaskStmt]) -> u64
    ensures { result ≡ capped (sum (map (λ x. (in_task x).own) tasks.now)) }
{
    let mut count: u64 = 0;
    for task in tasks {
        count = count.saturating_add(own_runs(task));
    }
    count
}

#[cycle(has_many_runs)]
fn many_runs_inside(tasks: &[TaskStmt]) -> bool
    ensures { result ≡ list_any (λ x. list_any (nat_lt 64) (task_runs x)) tasks.now }
{
    for task in tasks {
        if task_has_many_runs(task) {
            return true;
        }
    }
    false
}

#[cycle(has_many_runs)]
#[tactic(auto, using(crate::proofs::Runs::many_by_form))]
fn task_has_many_runs(task: &TaskStmt) -> bool
    ensures { result ≡ list_any (nat_lt 64) (task_runs task.now) }
{
    match task {
        TaskStmt::Run(tasks) => many_runs_inside(tasks.as_slice()),
        TaskStmt::Wait => false,
        TaskStmt::Throw(_) => false,
        TaskStmt::Assign(..) => false,
        TaskStmt::Call(_) => false,
        TaskStmt::Loop(_) => false,
        TaskStmt::Block(block) => has_many_runs(block),
    }
}

// More than 64 `run` stand directly in this block or in one inside it.
#[cycle(has_many_runs)]
#[tactic(auto, using(crate::proofs::Runs::many_by_form))]
pub fn has_many_runs(block: &Block) -> bool
    ensures { result ≡ list_any (nat_lt 64) (spec.runs block.now) }
{
    count_runs(block.body.as_slice()) > 64 || many_runs_inside(block.body.as_slice())
}
