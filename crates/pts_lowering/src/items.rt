//! The calls and loops of items.

ghost use Rattle.std.specs.Prelude.{◌≡◌, [], ◌∷◌, ◌++◌, OnOk, flat_map};
ghost use Rattle.pts_rules.proofs.Tasks.{task_statements};
ghost use Rattle.pts_rules.specs.Parts as parts;
ghost use Rattle.pts_lowering.specs.Fitting.{CanLower};
ghost use Rattle.pts_lowering.specs.Forms as spec;

use crate::calls::lower_call;
use crate::forms::LoweredCall;
use crate::loops::lower_loop;
use pts_rules::Scope;
use pts_tree::{Call, Item, Loop, TaskStmt};
use pts_types::NoMemory;
use sqlite_items::Items;
use std::alloc::{AllocError, Global};

fn add_call(scope: &Scope, call: &Call, calls: &mut Items<LoweredCall>) -> Result<(), AllocError>
    requires { CanLower scope.now (parts.Call call.now ∷ []) }
    ensures { OnOk result (calls.new ≡ calls.old ++ spec.lowered_of scope.now (parts.Call call.now)) }
{
    calls.push(lower_call(scope, call))
}

fn add_loop(
    alloc: Global,
    scope: &Scope,
    x: &Loop,
    calls: &mut Items<LoweredCall>,
) -> Result<(), AllocError>
    requires { CanLower scope.now (parts.Loop x.now ∷ []) }
    ensures { OnOk result (calls.new ≡ calls.old ++ spec.lowered_of scope.now (parts.Loop x.now)) }
{
    let lowered = lower_loop(alloc, scope, x)?;
    calls.push(LoweredCall::Loop(lowered))
}

#[cycle(add_task)]
#[tactic(auto, using(pts_constants::proofs::Additions::additions, crate::proofs::ItemForms::each_part))]
fn add_tasks(
    alloc: Global,
    scope: &Scope,
    stmts: &[TaskStmt],
    calls: &mut Items<LoweredCall>,
) -> Result<(), AllocError>
    requires { CanLower scope.now (flat_map task_statements stmts.now) }
    ensures { OnOk result (calls.new ≡ calls.old ++ flat_map (spec.task_calls scope.now) stmts.now) }
{
    for stmt in stmts {
        add_task(alloc, scope, stmt, calls)?;
    }
    Ok(())
}

#[cycle(add_task)]
#[tactic(auto, using(crate::proofs::ItemForms::calls_by_form, pts_constants::proofs::Additions::nothing_added))]
fn add_task(
    alloc: Global,
    scope: &Scope,
    stmt: &TaskStmt,
    calls: &mut Items<LoweredCall>,
) -> Result<(), AllocError>
    requires { CanLower scope.now (task_statements stmt.now) }
    ensures { OnOk result (calls.new ≡ calls.old ++ spec.task_calls scope.now stmt.now) }
{
    match stmt {
        TaskStmt::Run(body) => add_tasks(alloc, scope, body.as_slice(), calls),
        TaskStmt::Wait => Ok(()),
        TaskStmt::Throw(_) => Ok(()),
        TaskStmt::Assign(_, _) => Ok(()),
        TaskStmt::Call(call) => add_call(scope, call, calls),
        TaskStmt::Loop(x) => add_loop(alloc, scope, x, calls),
        TaskStmt::Block(block) => add_tasks(alloc, scope, block.body.as_slice(), calls),
    }
}

#[tactic(auto, using(crate::proofs::ItemForms::item_by_form))]
fn add_item(
    alloc: Global,
    scope: &Scope,
    item: &Item,
    calls: &mut Items<LoweredCall>,
) -> Result<(), AllocError>
    requires { CanLower scope.now (parts.statements item.now) }
    ensures { OnOk result (calls.new ≡ calls.old ++ spec.lowered_calls scope.now item.now) }
{
    match item {
        Item::Call(call) => add_call(scope, call, calls),
        Item::Loop(x) => add_loop(alloc, scope, x, calls),
        Item::Block(block) => add_tasks(alloc, scope, block.body.as_slice(), calls),
        Item::Const(_) | Item::Array(_) | Item::Function(_) | Item::Print(_) => Ok(()),
    }
}

/// Appends the calls and the loops of a sound item in text order, those of the blocks and tasks inside it too.
pub fn add_lowered_calls(
    alloc: Global,
    scope: &Scope,
    item: &Item,
    calls: &mut Items<LoweredCall>,
) -> Result<(), NoMemory>
    requires { CanLower scope.now (parts.statements item.now) }
    ensures { OnOk result (calls.new ≡ calls.old ++ spec.lowered_calls scope.now item.now) }
{
    Ok(add_item(alloc, scope, item, calls)?)
}
