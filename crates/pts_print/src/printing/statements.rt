//! Writing statements of loops and of task blocks.

ghost use Rattle.std.specs.Prelude.{◌≡◌, OnOk};
ghost use Rattle.pts_tree.specs.Spelling.{each, optional};
ghost use Rattle.pts_tree.specs.Statements as spec;
ghost use Rattle.pts_print.specs.Printing.{Puts};

use super::calls::{kind_mark, policy_mark, put_call, put_op, put_optional_mark};
use super::expressions::{put_element, put_expr, put_throw};
use super::sums::{put_cell, put_sum, put_val};
use super::{put_mark, put_name};
use pts_tree::{
    Block, BodyStmt, Cell, Clause, Expr, InductClause, Initial, Loop, Mark, Name, Place,
    ReduceClause, Sum, TaskStmt, Val,
};
use pts_types::ScalarOp;
use std::alloc::AllocError;

fn update_mark(op: ScalarOp) -> Option<Mark>
    ensures { result ≡ spec.upd_mark op }
{
    match op {
        ScalarOp::Plus => Some(Mark::PlusEqual),
        ScalarOp::Minus => Some(Mark::MinusEqual),
        ScalarOp::Multiplies => Some(Mark::StarEqual),
        ScalarOp::BitAnd => Some(Mark::AmpersandEqual),
        ScalarOp::BitOr => Some(Mark::BarEqual),
        ScalarOp::BitXor => Some(Mark::CaretEqual),
        _ => None,
    }
}

// What stands behind the name or place that is assigned.
fn put_value(out: &mut Vec<u8>, sign: Mark, value: &Expr) -> Result<(), AllocError>
    ensures { OnOk result (Puts (spec.value sign value.now) out.old.items out.new.items) }
{
    put_mark(out, sign)?;
    put_expr(out, value)?;
    put_mark(out, Mark::Semicolon)
}

fn put_assign(out: &mut Vec<u8>, place: &Place, value: &Expr) -> Result<(), AllocError>
    ensures { OnOk result (Puts (spec.assign place.now value.now) out.old.items out.new.items) }
{
    put_element(out, &place.array, &place.index)?;
    put_value(out, Mark::Equal, value)
}

fn put_let(out: &mut Vec<u8>, name: &Name, value: &Expr) -> Result<(), AllocError>
    ensures { OnOk result (Puts (spec.let_name name.now value.now) out.old.items out.new.items) }
{
    put_mark(out, Mark::Let)?;
    put_name(out, name)?;
    put_value(out, Mark::Equal, value)
}

fn put_combine(out: &mut Vec<u8>, name: &Name, value: &Expr) -> Result<(), AllocError>
    ensures { OnOk result (Puts (spec.combine name.now value.now) out.old.items out.new.items) }
{
    put_name(out, name)?;
    put_value(out, Mark::TildeEqual, value)
}

fn put_ordered(
    out: &mut Vec<u8>,
    place: &Place,
    op: ScalarOp,
    value: &Expr,
) -> Result<(), AllocError>
    ensures { OnOk result (Puts (spec.ordered place.now op value.now) out.old.items out.new.items) }
{
    put_mark(out, Mark::Ordered)?;
    put_element(out, &place.array, &place.index)?;
    put_optional_mark(out, update_mark(op))?;
    put_expr(out, value)?;
    put_mark(out, Mark::Semicolon)
}

#[cycle(put_body)]
#[tactic(auto, using(crate::proofs::Turns::turns))]
fn put_body_stmts(out: &mut Vec<u8>, stmts: &[BodyStmt]) -> Result<(), AllocError>
    ensures { OnOk result (Puts (each spec.bstmt stmts.now) out.old.items out.new.items) }
{
    for stmt in stmts {
        put_body_stmt(out, stmt)?;
    }
    Ok(())
}

#[cycle(put_body)]
fn put_body(out: &mut Vec<u8>, body: &[BodyStmt]) -> Result<(), AllocError>
    ensures { OnOk result (Puts (spec.body body.now) out.old.items out.new.items) }
{
    put_mark(out, Mark::OpenBrace)?;
    put_body_stmts(out, body)?;
    put_mark(out, Mark::CloseBrace)
}

#[cycle(put_body)]
fn put_else(out: &mut Vec<u8>, body: &[BodyStmt]) -> Result<(), AllocError>
    ensures { OnOk result (Puts (spec.else_body body.now) out.old.items out.new.items) }
{
    put_mark(out, Mark::Else)?;
    put_body(out, body)
}

#[cycle(put_body)]
#[tactic(auto, using(pts_tree::proofs::Phrases::texts))]
fn put_body_stmt(out: &mut Vec<u8>, stmt: &BodyStmt) -> Result<(), AllocError>
    ensures { OnOk result (Puts (spec.bstmt stmt.now) out.old.items out.new.items) }
{
    match stmt {
        BodyStmt::Assign(place, value) => put_assign(out, place, value),
        BodyStmt::Let(name, value) => put_let(out, name, value),
        BodyStmt::Combine(name, value) => put_combine(out, name, value),
        BodyStmt::If(test, body, other) => {
            put_mark(out, Mark::If)?;
            put_expr(out, test)?;
            put_body(out, body.as_slice())?;
            if let Some(other) = other {
                put_else(out, other.as_slice())?;
            }
            Ok(())
        }
        BodyStmt::VecOff(body) => {
            put_mark(out, Mark::VecOff)?;
            put_body(out, body.as_slice())
        }
        BodyStmt::Ordered(place, op, value) => put_ordered(out, place, *op, value),
    }
}

fn put_optional_step(out: &mut Vec<u8>, step: &Option<Sum>) -> Result<(), AllocError>
    ensures { OnOk result (Puts (optional spec.step_part step.now) out.old.items out.new.items) }
{
    if let Some(step) = step {
        put_mark(out, Mark::Step)?;
        put_sum(out, step)?;
    }
    Ok(())
}

fn put_optional_identity(out: &mut Vec<u8>, identity: &Option<Val>) -> Result<(), AllocError>
    ensures { OnOk result (Puts (optional spec.identity_part identity.now) out.old.items out.new.items) }
{
    if let Some(identity) = identity {
        put_mark(out, Mark::Identity)?;
        put_val(out, identity)?;
    }
    Ok(())
}

fn put_reduce_clause(out: &mut Vec<u8>, clause: &ReduceClause) -> Result<(), AllocError>
    ensures { OnOk result (Puts (spec.reduce_clause clause.now) out.old.items out.new.items) }
{
    put_mark(out, Mark::Reduce)?;
    put_cell(out, &clause.cell)?;
    put_op(out, &clause.op)?;
    put_optional_identity(out, &clause.identity)?;
    put_mark(out, Mark::As)?;
    put_name(out, &clause.view)
}

fn put_initial(out: &mut Vec<u8>, initial: &Initial) -> Result<(), AllocError>
    ensures { OnOk result (Puts (spec.initial initial.now) out.old.items out.new.items) }
{
    match initial {
        Initial::Val(val) => put_val(out, val),
        Initial::Cell(cell) => put_cell(out, cell),
    }
}

fn put_induct_clause(out: &mut Vec<u8>, clause: &InductClause) -> Result<(), AllocError>
    ensures { OnOk result (Puts (spec.induct_clause clause.now) out.old.items out.new.items) }
{
    put_mark(out, Mark::Induct)?;
    put_name(out, &clause.name)?;
    put_mark(out, Mark::Colon)?;
    put_mark(out, kind_mark(clause.kind))?;
    put_mark(out, Mark::Equal)?;
    put_initial(out, &clause.initial)?;
    put_optional_step(out, &clause.step)
}

fn put_clause(out: &mut Vec<u8>, clause: &Clause) -> Result<(), AllocError>
    ensures { OnOk result (Puts (spec.clause clause.now) out.old.items out.new.items) }
{
    match clause {
        Clause::Reduce(clause) => put_reduce_clause(out, clause),
        Clause::Induct(clause) => put_induct_clause(out, clause),
    }
}

#[tactic(auto, using(crate::proofs::Turns::turns))]
fn put_clauses(out: &mut Vec<u8>, clauses: &[Clause]) -> Result<(), AllocError>
    ensures { OnOk result (Puts (each spec.clause clauses.now) out.old.items out.new.items) }
{
    for clause in clauses {
        put_clause(out, clause)?;
    }
    Ok(())
}

/// A loop.
pub fn put_loop(out: &mut Vec<u8>, x: &Loop) -> Result<(), AllocError>
    ensures { OnOk result (Puts (spec.loop x.now) out.old.items out.new.items) }
{
    put_mark(out, Mark::ForLoop)?;
    put_mark(out, policy_mark(x.policy))?;
    put_name(out, &x.index)?;
    put_mark(out, Mark::Equal)?;
    put_sum(out, &x.low)?;
    put_mark(out, Mark::To)?;
    put_sum(out, &x.high)?;
    put_optional_step(out, &x.step)?;
    put_clauses(out, x.clauses.as_slice())?;
    put_body(out, x.body.as_slice())
}

fn put_wait(out: &mut Vec<u8>) -> Result<(), AllocError>
    ensures { OnOk result (Puts spec.wait out.old.items out.new.items) }
{
    put_mark(out, Mark::Wait)?;
    put_mark(out, Mark::Semicolon)
}

fn put_throw_stmt(out: &mut Vec<u8>, code: u64) -> Result<(), AllocError>
    ensures { OnOk result (Puts (spec.throw_stmt code) out.old.items out.new.items) }
{
    put_throw(out, code)?;
    put_mark(out, Mark::Semicolon)
}

fn put_assign_cell(out: &mut Vec<u8>, cell: &Cell, value: &Expr) -> Result<(), AllocError>
    ensures { OnOk result (Puts (spec.assign_cell cell.now value.now) out.old.items out.new.items) }
{
    put_cell(out, cell)?;
    put_value(out, Mark::Equal, value)
}

#[cycle(put_tasks)]
#[tactic(auto, using(crate::proofs::Turns::turns))]
fn put_task_stmts(out: &mut Vec<u8>, stmts: &[TaskStmt]) -> Result<(), AllocError>
    ensures { OnOk result (Puts (each spec.tstmt stmts.now) out.old.items out.new.items) }
{
    for stmt in stmts {
        put_task_stmt(out, stmt)?;
    }
    Ok(())
}

#[cycle(put_tasks)]
fn put_task_body(out: &mut Vec<u8>, body: &[TaskStmt]) -> Result<(), AllocError>
    ensures { OnOk result (Puts (spec.task_body body.now) out.old.items out.new.items) }
{
    put_mark(out, Mark::OpenBrace)?;
    put_task_stmts(out, body)?;
    put_mark(out, Mark::CloseBrace)
}

/// A task block.
#[cycle(put_tasks)]
#[tactic(auto, using(pts_tree::proofs::Tasks::texts))]
pub fn put_block(out: &mut Vec<u8>, block: &Block) -> Result<(), AllocError>
    ensures { OnOk result (Puts (spec.block block.now) out.old.items out.new.items) }
{
    put_mark(out, Mark::TaskBlock)?;
    put_task_body(out, block.body.as_slice())
}

#[cycle(put_tasks)]
#[tactic(auto, using(pts_tree::proofs::Tasks::texts))]
fn put_task_stmt(out: &mut Vec<u8>, stmt: &TaskStmt) -> Result<(), AllocError>
    ensures { OnOk result (Puts (spec.tstmt stmt.now) out.old.items out.new.items) }
{
    match stmt {
        TaskStmt::Run(body) => {
            put_mark(out, Mark::Run)?;
            put_task_body(out, body.as_slice())
        }
        TaskStmt::Wait => put_wait(out),
        TaskStmt::Throw(code) => put_throw_stmt(out, *code),
        TaskStmt::Assign(cell, value) => put_assign_cell(out, cell, value),
        TaskStmt::Call(call) => put_call(out, call),
        TaskStmt::Loop(x) => put_loop(out, x),
        TaskStmt::Block(block) => put_block(out, block),
    }
}
