//! Heads of loops.

ghost use Rattle.std.specs.Prelude.{◌≡◌, ◌-◌, ◌^◌, ◌≤◌, All, IfOk, IsTrue, map};
ghost use Rattle.pts_rules.specs.Counts as counts;
ghost use Rattle.pts_rules.specs.Known as known;
ghost use Rattle.pts_rules.specs.Mistyped as rules;
ghost use Rattle.pts_types.specs.declared.value.Kind.TheVariants as kinds;
ghost use Rattle.pts_starts.specs.Starts as starts;
ghost use Rattle.pts_lowering.specs.Fitting.{HasInitialIndex, IsHead, IsIndex, HasNumbers};
ghost use Rattle.pts_lowering.specs.Forms as spec;

use crate::forms::{Induction, InitialValue, LoopClause, LoopReduction, LoweredLoop};
use crate::parts::{kind_at, lower_cell, lower_operation, lower_optional_val};
use pts_limits::{loop_positions, number, step_of};
use pts_rules::Scope;
use pts_starts::{value_of_val, value_with};
use pts_tree::{Clause, InductClause, Initial, Loop, ReduceClause};
use pts_types::{Kind, Value};
use sqlite_items::Items;
use std::alloc::{AllocError, Global};

#[tactic(auto, using(crate::proofs::Heads::identity_fits))]
fn lower_reduction(scope: &Scope, clause: &ReduceClause) -> LoopReduction
    requires numbered { HasNumbers scope.now }
    requires cell { IsIndex scope.now clause.now.cell }
    requires right { IsTrue (rules.reduce_right scope.now clause.now) }
    ensures { result ≡ spec.loop_reduction scope.now clause.now }
{
    LoopReduction {
        cell: lower_cell(scope, &clause.cell),
        operation: lower_operation(scope, &clause.op),
        identity: lower_optional_val(scope, kind_at(scope, &clause.cell.array), &clause.identity),
    }
}

fn lower_initial(scope: &Scope, kind: Kind, initial: &Initial) -> InitialValue
    requires numbered { HasNumbers scope.now }
    requires cell { HasInitialIndex scope.now initial.now }
    requires right { IsTrue (rules.initial_right scope.now kind initial.now) }
    ensures { result ≡ spec.initial_value scope.now kind initial.now }
{
    match initial {
        Initial::Val(val) => InitialValue::Value(value_of_val(scope, kind, val)),
        Initial::Cell(cell) => InitialValue::Cell(lower_cell(scope, cell)),
    }
}

#[tactic(auto, using(crate::proofs::Heads::step_fits))]
fn lower_step(scope: &Scope, clause: &InductClause) -> Value
    requires { IsTrue (rules.induct_right scope.now clause.now) }
    ensures { result ≡ starts.value_with clause.now.kind (counts.step_of scope.now clause.now.step) }
{
    value_with(clause.kind, step_of(scope, &clause.step))
}

#[tactic(auto, using(crate::proofs::Heads::induction_starts))]
fn lower_induction(scope: &Scope, clause: &InductClause) -> Induction
    requires numbered { HasNumbers scope.now }
    requires cell { HasInitialIndex scope.now clause.now.initial }
    requires right { IsTrue (rules.induct_right scope.now clause.now) }
    ensures { result ≡ spec.induction scope.now clause.now }
{
    Induction {
        kind: clause.kind,
        initial: lower_initial(scope, clause.kind, &clause.initial),
        step: lower_step(scope, clause),
    }
}

#[tactic(auto, using(crate::proofs::Heads::reduce_clause, crate::proofs::Heads::induct_clause))]
fn lower_clause(scope: &Scope, clause: &Clause) -> LoopClause
    requires numbered { HasNumbers scope.now }
    requires clause { IsHead scope.now clause.now }
    ensures { result ≡ spec.loop_clause scope.now clause.now }
{
    match clause {
        Clause::Reduce(clause) => LoopClause::Reduction(lower_reduction(scope, clause)),
        Clause::Induct(clause) => LoopClause::Induction(lower_induction(scope, clause)),
    }
}

#[tactic(auto, using(crate::proofs::Turns::turns, crate::proofs::Heads::clause_at))]
fn lower_clauses(
    alloc: Global,
    scope: &Scope,
    clauses: &[Clause],
) -> Result<Items<LoopClause>, AllocError>
    requires numbered { HasNumbers scope.now }
    requires clauses { All (IsHead scope.now) clauses.now }
    ensures { IfOk result (λ y. y ≡ map (spec.loop_clause scope.now) clauses.now) }
{
    let mut lowered = Items::new(alloc);
    for clause in clauses {
        lowered.push(lower_clause(scope, clause))?;
    }
    Ok(lowered)
}

// A number that is kept as it is.
fn signed(number: i128) -> i64
    requires { IsTrue (known.holds kinds.I64 number) }
    ensures { result ≡ number }
{
    number as i64
}

/// A loop whose numbers have their widths and whose clauses are right.
pub fn lower_loop(alloc: Global, scope: &Scope, x: &Loop) -> Result<LoweredLoop, AllocError>
    requires numbered { HasNumbers scope.now }
    requires clauses { All (IsHead scope.now) x.now.clauses }
    requires first { IsTrue (known.holds kinds.I64 (known.number scope.now x.now.low)) }
    requires step { IsTrue (known.holds kinds.I64 (counts.step_of scope.now x.now.step)) }
    requires positions { counts.loop_positions scope.now x.now ≤ 2 ^ 32 - 1 }
    ensures { IfOk result (λ y. y ≡ spec.loop_of scope.now x.now) }
{
    Ok(LoweredLoop {
        policy: x.policy,
        first: signed(number(scope, &x.low)),
        step: signed(step_of(scope, &x.step)),
        positions: loop_positions(scope, x) as u32,
        clauses: lower_clauses(alloc, scope, x.clauses.as_slice())?,
    })
}
