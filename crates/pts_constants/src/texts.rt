//! The calls and loops of items.

ghost use Rattle.std.specs.Prelude.{◌≡◌, [], ◌∷◌, ◌++◌, OnOk, flat_map};
ghost use Rattle.pts_constants.specs.declared.texts.CallText.TheVariants as variants;
ghost use Rattle.pts_constants.specs.Resolved as resolved;
ghost use Rattle.pts_constants.specs.Texts as spec;

use crate::calls::resolve_call;
use crate::loops::resolve_loop;
use pts_rules::Scope;
use pts_tree::{Call, Item, Loop, TaskStmt};
use pts_types::NoMemory;
use sqlite_items::Items;
use std::alloc::{AllocError, Global};

/// A call or a loop.
#[derive(Debug, Drop)]
pub enum CallText {
    Call(Call),
    Loop(Loop),
}

fn add_call(
    alloc: Global,
    scope: &Scope,
    call: &Call,
    texts: &mut Items<CallText>,
) -> Result<(), AllocError>
    ensures { OnOk result (texts.new ≡ texts.old ++ variants.Call (resolved.resolved_call scope.now call.now) ∷ []) }
{
    texts.push(CallText::Call(resolve_call(alloc, scope, call)?))
}

fn add_loop(
    alloc: Global,
    scope: &Scope,
    x: &Loop,
    texts: &mut Items<CallText>,
) -> Result<(), AllocError>
    ensures { OnOk result (texts.new ≡ texts.old ++ variants.Loop (resolved.resolved_loop scope.now x.now) ∷ []) }
{
    texts.push(CallText::Loop(resolve_loop(alloc, scope, x)?))
}

#[cycle(add_task)]
#[tactic(auto, using(crate::proofs::Additions::additions))]
fn add_tasks(
    alloc: Global,
    scope: &Scope,
    stmts: &[TaskStmt],
    texts: &mut Items<CallText>,
) -> Result<(), AllocError>
    ensures { OnOk result (texts.new ≡ texts.old ++ flat_map (spec.task_texts scope.now) stmts.now) }
{
    for stmt in stmts {
        add_task(alloc, scope, stmt, texts)?;
    }
    Ok(())
}

#[cycle(add_task)]
#[tactic(auto, using(crate::proofs::TextForms::texts_by_form, crate::proofs::Additions::nothing_added))]
fn add_task(
    alloc: Global,
    scope: &Scope,
    stmt: &TaskStmt,
    texts: &mut Items<CallText>,
) -> Result<(), AllocError>
    ensures { OnOk result (texts.new ≡ texts.old ++ spec.task_texts scope.now stmt.now) }
{
    match stmt {
        TaskStmt::Run(body) => add_tasks(alloc, scope, body.as_slice(), texts),
        TaskStmt::Wait | TaskStmt::Throw(_) | TaskStmt::Assign(_, _) => Ok(()),
        TaskStmt::Call(call) => add_call(alloc, scope, call, texts),
        TaskStmt::Loop(x) => add_loop(alloc, scope, x, texts),
        TaskStmt::Block(block) => add_tasks(alloc, scope, block.body.as_slice(), texts),
    }
}

#[tactic(auto, using(crate::proofs::TextForms::item_texts_by_form))]
fn add_item(
    alloc: Global,
    scope: &Scope,
    item: &Item,
    texts: &mut Items<CallText>,
) -> Result<(), AllocError>
    ensures { OnOk result (texts.new ≡ texts.old ++ spec.texts_of scope.now item.now) }
{
    match item {
        Item::Call(call) => add_call(alloc, scope, call, texts),
        Item::Loop(x) => add_loop(alloc, scope, x, texts),
        Item::Block(block) => add_tasks(alloc, scope, block.body.as_slice(), texts),
        Item::Const(_) | Item::Array(_) | Item::Function(_) | Item::Print(_) => Ok(()),
    }
}

/// Appends the calls and the loops of an item without constants, in text order, those of the blocks and tasks inside it too.
pub fn add_texts(
    alloc: Global,
    scope: &Scope,
    item: &Item,
    texts: &mut Items<CallText>,
) -> Result<(), NoMemory>
    ensures { OnOk result (texts.new ≡ texts.old ++ spec.texts_of scope.now item.now) }
{
    Ok(add_item(alloc, scope, item, texts)?)
}
