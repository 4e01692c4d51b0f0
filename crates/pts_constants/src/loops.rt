//! Loops: their clauses and the statements of their bodies.

ghost use Rattle.std.specs.Prelude.{◌≡◌, IfOk, map, option_map};
ghost use Rattle.pts_constants.specs.Resolved as spec;

use crate::calls::{copy_op, resolve_optional_val};
use crate::expressions::{resolve_expr, resolve_place};
use crate::sums::{copy_name, resolve_cell, resolve_sum, resolve_val};
use pts_rules::Scope;
use pts_tree::{BodyStmt, Clause, InductClause, Initial, Loop, ReduceClause, Sum};
use sqlite_items::Items;
use std::alloc::{AllocError, Global};

fn resolve_step(alloc: Global, scope: &Scope, step: &Option<Sum>) -> Option<Sum>
    ensures { result ≡ option_map (spec.resolved_sum scope.now) step.now }
{
    match step {
        Some(sum) => Some(resolve_sum(alloc, scope, sum)),
        None => None,
    }
}

fn resolve_reduce(
    alloc: Global,
    scope: &Scope,
    clause: &ReduceClause,
) -> Result<ReduceClause, AllocError>
    ensures { IfOk result (λ y. y ≡ spec.resolved_reduce scope.now clause.now) }
{
    Ok(ReduceClause {
        cell: resolve_cell(alloc, scope, &clause.cell)?,
        op: copy_op(alloc, &clause.op)?,
        identity: resolve_optional_val(alloc, scope, &clause.identity),
        view: copy_name(alloc, &clause.view)?,
    })
}

fn resolve_initial(alloc: Global, scope: &Scope, initial: &Initial) -> Result<Initial, AllocError>
    ensures { IfOk result (λ y. y ≡ spec.resolved_initial scope.now initial.now) }
{
    match initial {
        Initial::Val(val) => Ok(Initial::Val(resolve_val(alloc, scope, val))),
        Initial::Cell(cell) => Ok(Initial::Cell(resolve_cell(alloc, scope, cell)?)),
    }
}

fn resolve_induct(
    alloc: Global,
    scope: &Scope,
    clause: &InductClause,
) -> Result<InductClause, AllocError>
    ensures { IfOk result (λ y. y ≡ spec.resolved_induct scope.now clause.now) }
{
    Ok(InductClause {
        name: copy_name(alloc, &clause.name)?,
        kind: clause.kind,
        initial: resolve_initial(alloc, scope, &clause.initial)?,
        step: resolve_step(alloc, scope, &clause.step),
    })
}

fn resolve_clause(alloc: Global, scope: &Scope, clause: &Clause) -> Result<Clause, AllocError>
    ensures { IfOk result (λ y. y ≡ spec.resolved_clause scope.now clause.now) }
{
    match clause {
        Clause::Reduce(clause) => Ok(Clause::Reduce(resolve_reduce(alloc, scope, clause)?)),
        Clause::Induct(clause) => Ok(Clause::Induct(resolve_induct(alloc, scope, clause)?)),
    }
}

#[tactic(auto, using(crate::proofs::Turns::turns))]
fn resolve_clauses(
    alloc: Global,
    scope: &Scope,
    clauses: &[Clause],
) -> Result<Items<Clause>, AllocError>
    ensures { IfOk result (λ y. y ≡ map (spec.resolved_clause scope.now) clauses.now) }
{
    let mut done = Items::new(alloc);
    for clause in clauses {
        done.push(resolve_clause(alloc, scope, clause)?)?;
    }
    Ok(done)
}

#[cycle(resolve_body)]
#[tactic(auto, using(crate::proofs::Turns::turns))]
fn resolve_body(
    alloc: Global,
    scope: &Scope,
    stmts: &[BodyStmt],
) -> Result<Items<BodyStmt>, AllocError>
    ensures { IfOk result (λ y. y ≡ map (spec.resolved_stmt scope.now) stmts.now) }
{
    let mut done = Items::new(alloc);
    for stmt in stmts {
        done.push(resolve_stmt(alloc, scope, stmt)?)?;
    }
    Ok(done)
}

#[cycle(resolve_body)]
#[tactic(auto, using(crate::proofs::ResolvedStatements::stmt_by_form))]
fn resolve_stmt(alloc: Global, scope: &Scope, stmt: &BodyStmt) -> Result<BodyStmt, AllocError>
    ensures { IfOk result (λ y. y ≡ spec.resolved_stmt scope.now stmt.now) }
{
    match stmt {
        BodyStmt::Assign(place, value) => Ok(BodyStmt::Assign(
            resolve_place(alloc, scope, place)?,
            resolve_expr(alloc, scope, value)?,
        )),
        BodyStmt::Let(name, value) => Ok(BodyStmt::Let(
            copy_name(alloc, name)?,
            resolve_expr(alloc, scope, value)?,
        )),
        BodyStmt::Combine(name, value) => Ok(BodyStmt::Combine(
            copy_name(alloc, name)?,
            resolve_expr(alloc, scope, value)?,
        )),
        BodyStmt::If(test, body, other) => {
            let test = resolve_expr(alloc, scope, test)?;
            let body = resolve_body(alloc, scope, body.as_slice())?;
            match other {
                Some(other) => {
                    let other = resolve_body(alloc, scope, other.as_slice())?;
                    Ok(BodyStmt::If(test, body, Some(other)))
                }
                None => Ok(BodyStmt::If(test, body, None)),
            }
        }
        BodyStmt::VecOff(body) => Ok(BodyStmt::VecOff(resolve_body(
            alloc,
            scope,
            body.as_slice(),
        )?)),
        BodyStmt::Ordered(place, op, value) => Ok(BodyStmt::Ordered(
            resolve_place(alloc, scope, place)?,
            *op,
            resolve_expr(alloc, scope, value)?,
        )),
    }
}

/// A loop without constants, in its head and its body.
pub fn resolve_loop(alloc: Global, scope: &Scope, x: &Loop) -> Result<Loop, AllocError>
    ensures { IfOk result (λ y. y ≡ spec.resolved_loop scope.now x.now) }
{
    Ok(Loop {
        policy: x.policy,
        index: copy_name(alloc, &x.index)?,
        low: resolve_sum(alloc, scope, &x.low),
        high: resolve_sum(alloc, scope, &x.high),
        step: resolve_step(alloc, scope, &x.step),
        clauses: resolve_clauses(alloc, scope, x.clauses.as_slice())?,
        body: resolve_body(alloc, scope, x.body.as_slice())?,
    })
}
