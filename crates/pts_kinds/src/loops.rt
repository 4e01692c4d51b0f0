//! Loops: their bounds, clauses and bodies.

ghost use Rattle.std.specs.Prelude.{◌≡◌, ◌++◌, IfOk, OnOk, length, map};
ghost use Rattle.std.specs.List.{list_all};
ghost use Rattle.pts_rules.specs.Mistyped as spec;
ghost use Rattle.pts_kinds.specs.Entered.{entered, head_right, local_entries, local_kind};

use crate::bodies::braces_right;
use crate::names::{cell_right, kind_of_array, op_right};
use crate::numbers::{is_number, optional_sum_fits, optional_val_fits, sum_fits, val_fits};
use pts_rules::{Meaning, Scope};
use pts_tree::{Clause, InductClause, Initial, Loop, ReduceClause};
use pts_types::{Kind, NoMemory};
use std::alloc::{AllocError, Global};

fn reduce_right(scope: &Scope, clause: &ReduceClause) -> bool
    ensures { result ≡ spec.reduce_right scope.now clause.now }
{
    match kind_of_array(scope, &clause.cell.array) {
        Some(kind) => {
            cell_right(scope, kind, &clause.cell)
                && op_right(scope, kind, &clause.op)
                && optional_val_fits(scope, kind, &clause.identity)
        }
        None => false,
    }
}

fn initial_right(scope: &Scope, kind: Kind, initial: &Initial) -> bool
    ensures { result ≡ spec.initial_right scope.now kind initial.now }
{
    match initial {
        Initial::Val(value) => val_fits(scope, kind, value),
        Initial::Cell(cell) => cell_right(scope, kind, cell),
    }
}

fn induct_right(scope: &Scope, clause: &InductClause) -> bool
    ensures { result ≡ spec.induct_right scope.now clause.now }
{
    is_number(clause.kind)
        && initial_right(scope, clause.kind, &clause.initial)
        && optional_sum_fits(scope, clause.kind, &clause.step)
}

fn clause_right(scope: &Scope, clause: &Clause) -> bool
    ensures { result ≡ spec.clause_right scope.now clause.now }
{
    match clause {
        Clause::Reduce(clause) => reduce_right(scope, clause),
        Clause::Induct(clause) => induct_right(scope, clause),
    }
}

#[tactic(auto, using(crate::proofs::Every::every))]
fn clauses_right(scope: &Scope, clauses: &[Clause]) -> bool
    ensures { result ≡ list_all (spec.clause_right scope.now) clauses.now }
{
    for clause in clauses {
        if !clause_right(scope, clause) {
            return false;
        }
    }
    true
}

// Whether what stands before the body is right.
fn head_right(scope: &Scope, x: &Loop) -> bool
    ensures { result ≡ head_right scope.now x.now }
{
    sum_fits(scope, Kind::I64, &x.low)
        && sum_fits(scope, Kind::I64, &x.high)
        && optional_sum_fits(scope, Kind::I64, &x.step)
        && clauses_right(scope, x.clauses.as_slice())
}

// The kind of the view or induction of a clause; None for a view of what is no array.
fn local_kind(scope: &Scope, clause: &Clause) -> Option<Kind>
    ensures { result ≡ local_kind scope.now clause.now }
{
    match clause {
        Clause::Reduce(clause) => kind_of_array(scope, &clause.cell.array),
        Clause::Induct(clause) => Some(clause.kind),
    }
}

// Looked up before any of them is entered, since a local name may be that of an array.
fn local_kinds(
    scope: &Scope,
    alloc: Global,
    clauses: &[Clause],
) -> Result<Vec<Option<Kind>>, AllocError>
    ensures { IfOk result (λ v. v.items ≡ map (local_kind scope.now) clauses.now) }
{
    let mut kinds = Vec::new(alloc);
    for clause in clauses {
        kinds.push(local_kind(scope, clause))?;
    }
    Ok(kinds)
}

fn enter_local(
    scope: &mut Scope,
    alloc: Global,
    clause: &Clause,
    kind: Option<Kind>,
) -> Result<(), NoMemory>
    ensures { OnOk result (scope.new ≡ local_entries clause.now kind ++ scope.old) }
{
    let Some(kind) = kind else { return Ok(()) };
    match clause {
        Clause::Reduce(clause) => scope.enter(alloc, &clause.view, Meaning::View(kind)),
        Clause::Induct(clause) => scope.enter(alloc, &clause.name, Meaning::Value(kind)),
    }
}

#[tactic(auto, using(crate::proofs::Heads::entered_turns))]
fn enter_locals(
    scope: &mut Scope,
    alloc: Global,
    clauses: &[Clause],
    kinds: &[Option<Kind>],
) -> Result<(), NoMemory>
    requires { length kinds.now ≡ length clauses.now }
    ensures { OnOk result (scope.new ≡ entered clauses.now kinds.now scope.old) }
{
    for at in 0..clauses.len() {
        enter_local(scope, alloc, &clauses[at], kinds[at])?;
    }
    Ok(())
}

#[tactic(auto, using(crate::proofs::Heads::entered_body))]
fn enter_head(scope: &mut Scope, alloc: Global, x: &Loop) -> Result<(), NoMemory>
    ensures { OnOk result (scope.new ≡ spec.body_scope scope.old x.now) }
{
    let clauses = x.clauses.as_slice();
    let kinds = local_kinds(scope, alloc, clauses)?;
    enter_locals(scope, alloc, clauses, kinds.as_slice())?;
    scope.enter(alloc, &x.index, Meaning::Value(Kind::I64))
}

#[tactic(auto, using(crate::proofs::Heads::left_body))]
fn body_right(scope: &mut Scope, alloc: Global, x: &Loop) -> Result<bool, NoMemory>
    ensures answer { IfOk result (λ b. b ≡ spec.all_right (spec.body_scope scope.old x.now) (map spec.checked_stmt x.now.body)) }
    ensures same { OnOk result (scope.new ≡ scope.old) }
{
    let mark = scope.len();
    enter_head(scope, alloc, x)?;
    let right = braces_right(scope, alloc, x.body.as_slice())?;
    scope.leave(mark);
    Ok(right)
}

/// Whether a loop is right. The scope is as before.
pub fn loop_right(scope: &mut Scope, alloc: Global, x: &Loop) -> Result<bool, NoMemory>
    ensures answer { IfOk result (λ b. b ≡ spec.loop_right scope.old x.now) }
    ensures same { OnOk result (scope.new ≡ scope.old) }
{
    if !head_right(scope, x) {
        return Ok(false);
    }
    body_right(scope, alloc, x)
}
