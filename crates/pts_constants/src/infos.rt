//! The blocks of items.

ghost use Rattle.std.specs.Prelude.{◌≡◌, [], ◌∷◌, ◌++◌, OnOk, IfOk, map, flat_map};
ghost use Rattle.pts_constants.specs.Blocks as spec;

use crate::blocks::resolve_block;
use pts_rules::Scope;
use pts_tree::{Block, Item, TaskStmt};
use pts_types::NoMemory;
use sqlite_items::Items;
use std::alloc::{AllocError, Global};

/// A block of an item.
#[derive(Debug, Drop)]
pub struct BlockInfo {
    pub item: u32,
    /// How many `run` statements stand directly in its body.
    pub runs: u32,
    /// How many `wait` statements stand directly in its body.
    pub waits: u32,
    /// The block without constants.
    pub body: Block,
}

#[tactic(auto, using(crate::proofs::BlockForms::runs_by_form))]
fn is_run(stmt: &TaskStmt) -> bool
    ensures { result ≡ spec.is_run stmt.now }
{
    matches!(stmt, TaskStmt::Run(_))
}

#[tactic(auto, using(crate::proofs::BlockForms::waits_by_form))]
fn is_wait(stmt: &TaskStmt) -> bool
    ensures { result ≡ spec.is_wait stmt.now }
{
    matches!(stmt, TaskStmt::Wait)
}

#[tactic(auto, using(crate::proofs::Counts::counts))]
fn runs_of(stmts: &[TaskStmt]) -> u32
    ensures { result ≡ spec.count spec.is_run stmts.now }
{
    let mut runs: u32 = 0;
    for stmt in stmts {
        if is_run(stmt) {
            runs = runs.saturating_add(1);
        }
    }
    runs
}

#[tactic(auto, using(crate::proofs::Counts::counts))]
fn waits_of(stmts: &[TaskStmt]) -> u32
    ensures { result ≡ spec.count spec.is_wait stmts.now }
{
    let mut waits: u32 = 0;
    for stmt in stmts {
        if is_wait(stmt) {
            waits = waits.saturating_add(1);
        }
    }
    waits
}

fn info_of(alloc: Global, scope: &Scope, item: u32, block: &Block) -> Result<BlockInfo, AllocError>
    ensures { IfOk result (λ y. y ≡ spec.info scope.now item block.now) }
{
    Ok(BlockInfo {
        item,
        runs: runs_of(block.body.as_slice()),
        waits: waits_of(block.body.as_slice()),
        body: resolve_block(alloc, scope, block)?,
    })
}

#[cycle(add_task)]
#[tactic(auto, using(crate::proofs::Additions::additions))]
fn add_tasks(
    alloc: Global,
    scope: &Scope,
    item: u32,
    stmts: &[TaskStmt],
    blocks: &mut Items<BlockInfo>,
) -> Result<(), AllocError>
    ensures { OnOk result (blocks.new ≡ blocks.old ++ flat_map (spec.task_infos scope.now item) stmts.now) }
{
    for stmt in stmts {
        add_task(alloc, scope, item, stmt, blocks)?;
    }
    Ok(())
}

#[cycle(add_task)]
#[tactic(auto, using(crate::proofs::BlockForms::task_by_form, crate::proofs::Additions::nothing_added))]
fn add_task(
    alloc: Global,
    scope: &Scope,
    item: u32,
    stmt: &TaskStmt,
    blocks: &mut Items<BlockInfo>,
) -> Result<(), AllocError>
    ensures { OnOk result (blocks.new ≡ blocks.old ++ spec.task_infos scope.now item stmt.now) }
{
    match stmt {
        TaskStmt::Run(body) => add_tasks(alloc, scope, item, body.as_slice(), blocks),
        TaskStmt::Block(block) => add_block(alloc, scope, item, block, blocks),
        TaskStmt::Wait
        | TaskStmt::Throw(_)
        | TaskStmt::Assign(_, _)
        | TaskStmt::Call(_)
        | TaskStmt::Loop(_) => Ok(()),
    }
}

#[cycle(add_task)]
#[tactic(auto, using(crate::proofs::BlockForms::block_added))]
fn add_block(
    alloc: Global,
    scope: &Scope,
    item: u32,
    block: &Block,
    blocks: &mut Items<BlockInfo>,
) -> Result<(), AllocError>
    ensures { OnOk result (blocks.new ≡ blocks.old ++ spec.block_infos scope.now item block.now) }
{
    blocks.push(info_of(alloc, scope, item, block)?)?;
    add_tasks(alloc, scope, item, block.body.as_slice(), blocks)
}

fn add_item(
    alloc: Global,
    scope: &Scope,
    number: u32,
    item: &Item,
    blocks: &mut Items<BlockInfo>,
) -> Result<(), AllocError>
    ensures { OnOk result (blocks.new ≡ blocks.old ++ spec.blocks_of scope.now number item.now) }
{
    match item {
        Item::Block(block) => add_block(alloc, scope, number, block, blocks),
        _ => Ok(()),
    }
}

/// Appends the blocks of an item of this number in text order, an outer block before those inside it.
pub fn add_blocks(
    alloc: Global,
    scope: &Scope,
    number: u32,
    item: &Item,
    blocks: &mut Items<BlockInfo>,
) -> Result<(), NoMemory>
    ensures { OnOk result (blocks.new ≡ blocks.old ++ spec.blocks_of scope.now number item.now) }
{
    Ok(add_item(alloc, scope, number, item, blocks)?)
}
