//! Items: their calls and loops, and the statements of their blocks.

ghost use Rattle.std.specs.Prelude.{◌≡◌, ◌+◌, ◌<◌, ◌^◌, [], ◌∷◌, flat_map, length, All, IfOk, OnOk};
ghost use Rattle.pts_points.specs.Building as spec;
ghost use Rattle.pts_points.specs.Inside.{HasRoom, IsSound};
ghost use Rattle.pts_points.specs.Points as points;
ghost use Rattle.pts_rules.specs.Parts as parts;

use crate::builder::Builder;
use crate::lines::line_of_range;
use crate::numbers::small;
use crate::point::{CallInfo, PointForm, PointInfo};
use crate::space::{no_loop, space_of};
use pts_rules::Scope;
use pts_tree::{Call, Cell, Expr, Item, Loop, TaskStmt};
use pts_types::{NoMemory, Policy};
use sqlite_items::Items;
use std::alloc::{AllocError, Global};

/// The points and the calls of an item, each in text order.
#[derive(Debug, Drop)]
pub struct ItemPoints {
    pub points: Items<PointInfo>,
    pub calls: Items<CallInfo>,
}

impl Builder {
    // The number of the next call.
    fn next_call(&self) -> Result<u32, AllocError>
        ensures { IfOk result (λ n. n ≡ self.now.earlier + length self.now.calls) }
    {
        let number = u128::from(self.earlier) + self.calls.len() as u128;
        if number > u128::from(u32::MAX) {
            return Err(AllocError);
        }
        Ok(number as u32)
    }

    // The end of a call of so many positions, whose points stand behind the first `before`.
    fn end_call(&mut self, policy: Policy, positions: u32, before: usize) -> Result<(), AllocError>
        ensures { OnOk result (self.new ≡ spec.ended self.old policy positions before) }
    {
        let count = self.points.len().saturating_sub(before);
        self.calls.push(CallInfo {
            item: self.item,
            policy,
            positions,
            first_point: small(before as u128),
            points: small(count as u128),
        })?;
        self.call = None;
        self.space = no_loop();
        Ok(())
    }

    fn add_assign(
        &mut self,
        alloc: Global,
        scope: &Scope,
        cell: &Cell,
        value: &Expr,
    ) -> Result<(), AllocError>
        requires { spec.IsIdle self.old }
        ensures { OnOk result (self.new ≡ spec.with_statements scope.now self.old (parts.Assign cell.now value.now ∷ [])) }
    {
        self.reads(alloc, scope, value)?;
        self.push_cell(alloc, scope, PointForm::Write, cell)
    }

    fn add_call(&mut self, alloc: Global, scope: &Scope, call: &Call) -> Result<(), AllocError>
        requires { spec.AreAddable scope.now self.old (parts.Call call.now ∷ []) }
        ensures { OnOk result (self.new ≡ spec.with_statements scope.now self.old (parts.Call call.now ∷ [])) }
    {
        let before = self.points.len();
        let number = self.next_call()?;
        self.call = Some(number);
        self.call_points(alloc, scope, call)?;
        let positions = line_of_range(scope, &call.first).n;
        self.end_call(call.policy, positions, before)
    }

    fn add_loop(&mut self, alloc: Global, scope: &Scope, x: &Loop) -> Result<(), AllocError>
        requires { spec.AreAddable scope.now self.old (parts.Loop x.now ∷ []) }
        ensures { OnOk result (self.new ≡ spec.with_statements scope.now self.old (parts.Loop x.now ∷ [])) }
    {
        let before = self.points.len();
        let number = self.next_call()?;
        self.call = Some(number);
        self.space = space_of(alloc, scope, x)?;
        let positions = small(self.space.positions);
        self.loop_points(alloc, scope, x)?;
        self.end_call(x.policy, positions, before)
    }

    #[cycle(tasks)]
    fn add_tasks(
        &mut self,
        alloc: Global,
        scope: &Scope,
        stmts: &[TaskStmt],
    ) -> Result<(), AllocError>
        requires { spec.AreAddable scope.now self.old (flat_map spec.task_statements stmts.now) }
        ensures { OnOk result (self.new ≡ spec.with_statements scope.now self.old (flat_map spec.task_statements stmts.now)) }
    {
        for stmt in stmts {
            self.add_task(alloc, scope, stmt)?;
        }
        Ok(())
    }

    #[cycle(tasks)]
    fn add_task(&mut self, alloc: Global, scope: &Scope, stmt: &TaskStmt) -> Result<(), AllocError>
        requires { spec.AreAddable scope.now self.old (spec.task_statements stmt.now) }
        ensures { OnOk result (self.new ≡ spec.with_statements scope.now self.old (spec.task_statements stmt.now)) }
    {
        match stmt {
            TaskStmt::Run(body) => self.add_tasks(alloc, scope, body.as_slice()),
            TaskStmt::Wait => Ok(()),
            TaskStmt::Throw(_) => Ok(()),
            TaskStmt::Assign(cell, value) => self.add_assign(alloc, scope, cell, value),
            TaskStmt::Call(call) => self.add_call(alloc, scope, call),
            TaskStmt::Loop(x) => self.add_loop(alloc, scope, x),
            TaskStmt::Block(block) => self.add_tasks(alloc, scope, block.body.as_slice()),
        }
    }

    fn add_item(&mut self, alloc: Global, scope: &Scope, item: &Item) -> Result<(), AllocError>
        requires { spec.AreAddable scope.now self.old (parts.statements item.now) }
        ensures { OnOk result (self.new ≡ spec.with_statements scope.now self.old (parts.statements item.now)) }
    {
        match item {
            Item::Call(call) => self.add_call(alloc, scope, call),
            Item::Loop(x) => self.add_loop(alloc, scope, x),
            Item::Block(block) => self.add_tasks(alloc, scope, block.body.as_slice()),
            Item::Const(_) => Ok(()),
            Item::Array(_) => Ok(()),
            Item::Function(_) => Ok(()),
            Item::Print(_) => Ok(()),
        }
    }
}

fn build_item(
    alloc: Global,
    scope: &Scope,
    number: u32,
    earlier: u32,
    item: &Item,
) -> Result<ItemPoints, AllocError>
    requires room { HasRoom scope.now }
    requires sound { All (IsSound scope.now) (parts.statements item.now) }
    requires few { length (points.item_points scope.now earlier item.now) < 2 ^ 32 }
    ensures points { IfOk result (λ x. x.points ≡ points.points_of scope.now number earlier item.now) }
    ensures calls { IfOk result (λ x. x.calls ≡ points.calls_of scope.now number earlier item.now) }
{
    let mut builder = Builder::new(alloc, number, earlier);
    builder.add_item(alloc, scope, item)?;
    let Builder { points, calls, .. } = builder;
    Ok(ItemPoints { points, calls })
}

/// The points and the calls of a sound item, in text order. The item has this number, and `earlier` calls stand before its
/// own. There is no room for calls, or for an `off`, whose number has more than 32 bits.
pub fn item_points(
    alloc: Global,
    scope: &Scope,
    number: u32,
    earlier: u32,
    item: &Item,
) -> Result<ItemPoints, NoMemory>
    requires room { HasRoom scope.now }
    requires sound { All (IsSound scope.now) (parts.statements item.now) }
    requires few { length (points.item_points scope.now earlier item.now) < 2 ^ 32 }
    ensures points { IfOk result (λ x. x.points ≡ points.points_of scope.now number earlier item.now) }
    ensures calls { IfOk result (λ x. x.calls ≡ points.calls_of scope.now number earlier item.now) }
{
    Ok(build_item(alloc, scope, number, earlier, item)?)
}
