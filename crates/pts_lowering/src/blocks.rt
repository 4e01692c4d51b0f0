//! Task blocks.

ghost use Rattle.std.specs.Prelude.{◌≡◌, ◌+◌, ◌++◌, IfOk, OnOk, map};
ghost use Rattle.pts_rules.specs.Counts as counts;
ghost use Rattle.pts_rules.specs.Parts as parts;
ghost use Rattle.pts_lowering.specs.Blocks as spec;

use crate::tasks::{AssignPoints, LoweredBlock, LoweredTask};
use pts_code::throw_code;
use pts_limits::{call_points, points_of_loop, reads};
use pts_tree::{Block, Expr, Item, Loop, TaskStmt};
use pts_types::NoMemory;
use sqlite_items::Items;
use std::alloc::{AllocError, Global};

/// The numbers of the next point of an item, of the next call and of the next block.
#[derive(Clone, Copy, Debug, PartialEq, Eq)]
pub struct Numbers {
    pub points: u32,
    pub calls: u32,
    pub blocks: u32,
}

// There is no room for a number of more than 32 bits.
fn word(count: u64) -> Result<u32, AllocError>
    ensures { IfOk result (λ n. n ≡ count) }
{
    if count > u64::from(u32::MAX) {
        return Err(AllocError);
    }
    Ok(count as u32)
}

fn more(number: u32, count: u32) -> Result<u32, AllocError>
    ensures { IfOk result (λ n. n ≡ number + count) }
{
    number.checked_add(count).ok_or(AllocError)
}

#[tactic(auto, using(crate::proofs::BlockForms::uncapped))]
fn read_count(value: &Expr) -> Result<u32, AllocError>
    ensures { IfOk result (λ n. n ≡ counts.reads value.now) }
{
    word(reads(value))
}

#[tactic(auto, using(crate::proofs::BlockForms::uncapped))]
fn loop_count(x: &Loop) -> Result<u32, AllocError>
    ensures { IfOk result (λ n. n ≡ counts.statement_points (parts.Loop x.now)) }
{
    word(points_of_loop(x))
}

fn lower_assign(at: &mut Numbers, value: &Expr) -> Result<LoweredTask, AllocError>
    ensures task { IfOk result (λ y. y ≡ (spec.assign_leaf value.now).task at.old) }
    ensures at { OnOk result (at.new ≡ spec.moved at.old (spec.assign_leaf value.now).takes) }
{
    let first = at.points;
    let write = more(first, read_count(value)?)?;
    at.points = more(write, 1)?;
    Ok(LoweredTask::Assign(AssignPoints { first, write }))
}

// A call or a loop of so many points.
fn take_call(at: &mut Numbers, points: u32) -> Result<LoweredTask, AllocError>
    ensures task { IfOk result (λ y. y ≡ (spec.call_leaf points).task at.old) }
    ensures at { OnOk result (at.new ≡ spec.moved at.old (spec.call_leaf points).takes) }
{
    let call = at.calls;
    at.points = more(at.points, points)?;
    at.calls = more(call, 1)?;
    Ok(LoweredTask::Call(call))
}

#[cycle(lower_task)]
#[tactic(auto, using(crate::proofs::BlockForms::lowerings))]
fn lower_tasks(
    alloc: Global,
    item: u32,
    stmts: &[TaskStmt],
    at: &mut Numbers,
    blocks: &mut Items<LoweredBlock>,
) -> Result<Items<LoweredTask>, AllocError>
    ensures tasks { IfOk result (λ y. y ≡ spec.each (map (spec.task_piece item) stmts.now) at.old) }
    ensures at { OnOk result (at.new ≡ spec.moved at.old (spec.total (map (spec.task_piece item) stmts.now))) }
    ensures blocks { OnOk result (blocks.new ≡ blocks.old ++ spec.inner (map (spec.task_piece item) stmts.now) at.old) }
{
    let mut tasks = Items::new(alloc);
    for stmt in stmts {
        tasks.push(lower_task(alloc, item, stmt, at, blocks)?)?;
    }
    Ok(tasks)
}

#[cycle(lower_task)]
#[tactic(auto, using(crate::proofs::BlockForms::block_taken, crate::proofs::BlockForms::inside_added))]
fn lower_block(
    alloc: Global,
    item: u32,
    block: &Block,
    at: &mut Numbers,
    blocks: &mut Items<LoweredBlock>,
) -> Result<LoweredTask, AllocError>
    ensures task { IfOk result (λ y. y ≡ (spec.block_of item block.now).task at.old) }
    ensures at { OnOk result (at.new ≡ spec.moved at.old (spec.block_of item block.now).takes) }
    ensures blocks { OnOk result (blocks.new ≡ blocks.old ++ (spec.block_of item block.now).blocks at.old) }
{
    let number = at.blocks;
    let first_point = at.points;
    at.blocks = more(number, 1)?;
    let mut inside = Items::new(alloc);
    let body = lower_tasks(alloc, item, block.body.as_slice(), at, &mut inside)?;
    blocks.push(LoweredBlock {
        item,
        first_point,
        points: at.points - first_point,
        body,
    })?;
    blocks.append(inside)?;
    Ok(LoweredTask::Block(number))
}

#[cycle(lower_task)]
#[tactic(auto, using(crate::proofs::BlockForms::pieces_by_form, crate::proofs::BlockForms::leaf_moved, crate::proofs::BlockForms::nothing_more))]
fn lower_task(
    alloc: Global,
    item: u32,
    stmt: &TaskStmt,
    at: &mut Numbers,
    blocks: &mut Items<LoweredBlock>,
) -> Result<LoweredTask, AllocError>
    ensures task { IfOk result (λ y. y ≡ (spec.task_piece item stmt.now).task at.old) }
    ensures at { OnOk result (at.new ≡ spec.moved at.old (spec.task_piece item stmt.now).takes) }
    ensures blocks { OnOk result (blocks.new ≡ blocks.old ++ (spec.task_piece item stmt.now).blocks at.old) }
{
    match stmt {
        TaskStmt::Run(body) => {
            let tasks = lower_tasks(alloc, item, body.as_slice(), at, blocks)?;
            Ok(LoweredTask::Run(tasks))
        }
        TaskStmt::Wait => Ok(LoweredTask::Wait),
        TaskStmt::Throw(code) => Ok(LoweredTask::Throw(throw_code(*code))),
        TaskStmt::Assign(_, value) => lower_assign(at, value),
        TaskStmt::Call(call) => take_call(at, word(call_points(call))?),
        TaskStmt::Loop(x) => take_call(at, loop_count(x)?),
        TaskStmt::Block(block) => lower_block(alloc, item, block, at, blocks),
    }
}

fn lower_item(
    alloc: Global,
    number: u32,
    item: &Item,
    at: &mut Numbers,
    blocks: &mut Items<LoweredBlock>,
) -> Result<(), AllocError>
    requires { at.old.points ≡ 0 }
    ensures { OnOk result (blocks.new ≡ blocks.old ++ spec.lowered_blocks number at.old.calls at.old.blocks item.now) }
{
    if let Item::Block(block) = item {
        lower_block(alloc, number, block, at, blocks)?;
    }
    Ok(())
}

/// Appends the blocks of an item of this number in text order, an outer block before those inside it. Before the item stand
/// `calls` calls and `earlier` blocks. There is no room for a call, a block or a point whose number has more than 32 bits.
pub fn add_lowered_blocks(
    alloc: Global,
    number: u32,
    calls: u32,
    earlier: u32,
    item: &Item,
    blocks: &mut Items<LoweredBlock>,
) -> Result<(), NoMemory>
    ensures { OnOk result (blocks.new ≡ blocks.old ++ spec.lowered_blocks number calls earlier item.now) }
{
    let mut at = Numbers {
        points: 0,
        calls,
        blocks: earlier,
    };
    Ok(lower_item(alloc, number, item, &mut at, blocks)?)
}
