//! Statements of items, and items.

ghost use Rattle.std.specs.Prelude.{◌≡◌, IsTrue};
ghost use Rattle.std.specs.List.{list_all};
ghost use Rattle.pts_bounds.specs.Firsts.{IsFirst, soonest};
ghost use Rattle.pts_bounds.specs.Walks as spec;
ghost use Rattle.pts_rules.proofs.Tasks.{task_statements};
ghost use Rattle.pts_rules.specs.Counts as counts;
ghost use Rattle.pts_rules.specs.Indices.{is_out_at};
ghost use Rattle.pts_rules.specs.Known as known;
ghost use Rattle.pts_rules.specs.Mistyped.{item_right, loop_right, statement_right};
ghost use Rattle.pts_rules.specs.Parts as parts;
ghost use Rattle.pts_rules.specs.Parts.{block_statements};

use crate::firsts::{Progression, sooner};
use crate::places::{body_first, expr_first};
use crate::ranges::{call_first, cell_first, clauses_first};
use pts_limits::{loop_positions, number, step_of};
use pts_rules::Scope;
use pts_tree::{Block, Cell, Expr, Item, Loop, TaskStmt};

#[tactic(auto, using(crate::proofs::Reaching::assign_found))]
fn assign_first(scope: &Scope, at: &Cell, expr: &Expr) -> Option<u64>
    ensures { result ≡ spec.first_in scope.now (parts.Assign at.now expr.now) }
{
    let once = Progression {
        first: 0,
        step: 0,
        n: 1,
    };
    sooner(cell_first(scope, at), expr_first(scope, once, None, expr))
}

// The numbers that the index of a loop takes.
#[tactic(auto, using(crate::proofs::Rightness::loop_numbers))]
fn progression_of(scope: &Scope, each: &Loop) -> Progression
    requires { IsTrue (loop_right scope.now each.now) }
    ensures first { result.first ≡ known.number scope.now each.now.low }
    ensures step { result.step ≡ counts.step_of scope.now each.now.step }
    ensures positions { result.n ≡ counts.loop_positions scope.now each.now }
{
    Progression {
        first: number(scope, &each.low) as i64,
        step: step_of(scope, &each.step) as i64,
        n: loop_positions(scope, each) as u64,
    }
}

fn loop_first(scope: &Scope, each: &Loop) -> Option<u64>
    requires { IsTrue (loop_right scope.now each.now) }
    ensures { result ≡ spec.first_in scope.now (parts.Loop each.now) }
{
    let progression = progression_of(scope, each);
    sooner(
        clauses_first(scope, each.clauses.as_slice()),
        body_first(scope, progression, Some(&each.index), each.body.as_slice()),
    )
}

#[cycle(task_first)]
fn tasks_first(scope: &Scope, tasks: &[TaskStmt]) -> Option<u64>
    requires { IsTrue (list_all (λ x. list_all (statement_right scope.now) (task_statements x)) tasks.now) }
    ensures { result ≡ soonest (λ x. soonest (spec.first_in scope.now) (task_statements x)) tasks.now }
{
    let mut first = None;
    for task in tasks {
        first = sooner(first, task_first(scope, task));
    }
    first
}

#[cycle(task_first)]
#[tactic(auto, using(crate::proofs::Statements::tasks_by_form, crate::proofs::Statements::statements_hold))]
fn task_first(scope: &Scope, task: &TaskStmt) -> Option<u64>
    requires { IsTrue (list_all (statement_right scope.now) (task_statements task.now)) }
    ensures { result ≡ soonest (spec.first_in scope.now) (task_statements task.now) }
{
    match task {
        TaskStmt::Run(tasks) => tasks_first(scope, tasks.as_slice()),
        TaskStmt::Wait => None,
        TaskStmt::Throw(_) => None,
        TaskStmt::Assign(at, expr) => assign_first(scope, at, expr),
        TaskStmt::Call(call) => call_first(scope, call),
        TaskStmt::Loop(each) => loop_first(scope, each),
        TaskStmt::Block(block) => block_first(scope, block),
    }
}

#[cycle(task_first)]
#[tactic(auto, using(crate::proofs::Statements::tasks_by_form, crate::proofs::Statements::statements_hold))]
fn block_first(scope: &Scope, block: &Block) -> Option<u64>
    requires { IsTrue (list_all (statement_right scope.now) (block_statements block.now)) }
    ensures { result ≡ soonest (spec.first_in scope.now) (block_statements block.now) }
{
    tasks_first(scope, block.body.as_slice())
}

#[tactic(auto, using(crate::proofs::Statements::and_true, crate::proofs::Soonest::soonest_one))]
fn item_first(scope: &Scope, item: &Item) -> Option<u64>
    requires { IsTrue (item_right scope.now item.now) }
    ensures { result ≡ soonest (spec.first_in scope.now) (parts.statements item.now) }
{
    match item {
        Item::Call(call) => call_first(scope, call),
        Item::Loop(each) => loop_first(scope, each),
        Item::Block(block) => block_first(scope, block),
        Item::Const(_) => None,
        Item::Array(_) => None,
        Item::Function(_) => None,
        Item::Print(_) => None,
    }
}

/// The least position at which an item is at a cell that an array does not have: a range, a cell or an index of one of
/// its statements. None where there is no such position.
#[tactic(auto, using(crate::proofs::Soonest::out_first))]
pub fn first_out(scope: &Scope, item: &Item) -> Option<u64>
    requires { IsTrue (item_right scope.now item.now) }
    ensures { IsFirst (is_out_at scope.now item.now) result }
{
    item_first(scope, item)
}
