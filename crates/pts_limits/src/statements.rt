//! Walks over the statements of an item.

ghost use Rattle.std.specs.Prelude.{◌≡◌};
ghost use Rattle.std.specs.List.{list_any};
ghost use Rattle.pts_rules.proofs.Tasks.{task_statements};
ghost use Rattle.pts_rules.specs.Parts.{block_statements};
ghost use Rattle.pts_rules.specs.Parts as parts;
ghost use Rattle.pts_limits.specs.Rules as spec;

use crate::numbers::loop_positions;
use crate::steps::{
    call_differs, call_goes_backward, has_wrong_identity, loop_goes_backward, steps_badly,
};
use pts_rules::Scope;
use pts_tree::{Block, Call, Item, Loop, TaskStmt};

// A rule that a call or a loop breaks by itself.
#[derive(Clone, Copy, Debug, PartialEq, Eq)]
pub enum StatementRule {
    /// A loop has at most 1,048,576 positions.
    Length,
    BadStep,
    BackwardRange,
    LengthsDiffer,
    BadIdentity,
}

fn call_breaks(rule: StatementRule, scope: &Scope, call: &Call) -> bool
    ensures { result ≡ spec.breaks rule scope.now (parts.Call call.now) }
{
    match rule {
        StatementRule::Length => false,
        StatementRule::BadStep => false,
        StatementRule::BackwardRange => call_goes_backward(scope, call),
        StatementRule::LengthsDiffer => call_differs(scope, call),
        StatementRule::BadIdentity => false,
    }
}

fn loop_breaks(rule: StatementRule, scope: &Scope, each: &Loop) -> bool
    ensures { result ≡ spec.breaks rule scope.now (parts.Loop each.now) }
{
    match rule {
        StatementRule::Length => loop_positions(scope, each) > 1 << 20,
        StatementRule::BadStep => steps_badly(scope, each),
        StatementRule::BackwardRange => loop_goes_backward(scope, each),
        StatementRule::LengthsDiffer => false,
        StatementRule::BadIdentity => has_wrong_identity(each),
    }
}

#[cycle(task_breaks)]
fn some_task_breaks(rule: StatementRule, scope: &Scope, tasks: &[TaskStmt]) -> bool
    ensures { result ≡ list_any (λ x. list_any (spec.breaks rule scope.now) (task_statements x)) tasks.now }
{
    for task in tasks {
        if task_breaks(rule, scope, task) {
            return true;
        }
    }
    false
}

#[cycle(task_breaks)]
#[tactic(auto, using(crate::proofs::Walks::any_by_form))]
fn task_breaks(rule: StatementRule, scope: &Scope, task: &TaskStmt) -> bool
    ensures { result ≡ list_any (spec.breaks rule scope.now) (task_statements task.now) }
{
    match task {
        TaskStmt::Run(tasks) => some_task_breaks(rule, scope, tasks.as_slice()),
        TaskStmt::Wait => false,
        TaskStmt::Throw(_) => false,
        TaskStmt::Assign(..) => false,
        TaskStmt::Call(call) => call_breaks(rule, scope, call),
        TaskStmt::Loop(each) => loop_breaks(rule, scope, each),
        TaskStmt::Block(block) => block_breaks(rule, scope, block),
    }
}

#[cycle(task_breaks)]
#[tactic(auto, using(crate::proofs::Walks::any_by_form))]
fn block_breaks(rule: StatementRule, scope: &Scope, block: &Block) -> bool
    ensures { result ≡ list_any (spec.breaks rule scope.now) (block_statements block.now) }
{
    some_task_breaks(rule, scope, block.body.as_slice())
}

// A statement of an item breaks the rule.
pub fn some_breaks(rule: StatementRule, scope: &Scope, item: &Item) -> bool
    ensures { result ≡ spec.some_breaks rule scope.now item.now }
{
    match item {
        Item::Call(call) => call_breaks(rule, scope, call),
        Item::Loop(each) => loop_breaks(rule, scope, each),
        Item::Block(block) => block_breaks(rule, scope, block),
        Item::Const(_) => false,
        Item::Array(_) => false,
        Item::Function(_) => false,
        Item::Print(_) => false,
    }
}
