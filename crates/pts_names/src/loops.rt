//! Names in loops.

ghost use Rattle.std.specs.Prelude.{◌≡◌, IfOk, OnOk, flat_map};
ghost use Rattle.pts_rules.specs.Parts as spec;
ghost use Rattle.pts_names.specs.Entered.{body_names, head_names, misses, repeats};

use crate::bodies::stmts_miss;
use crate::locals::{enter_head, enter_lets};
use crate::parts::{
    cell_misses, op_is_missing, optional_sum_misses, optional_val_misses, sum_misses, val_misses,
};
use pts_rules::Scope;
use pts_tree::{Clause, Initial, Loop};
use pts_types::NoMemory;
use std::alloc::Global;

#[tactic(auto, using(crate::proofs::Missing::parts))]
fn initial_misses(scope: &Scope, initial: &Initial) -> bool
    ensures { result ≡ misses scope.now (spec.initial_names initial.now) }
{
    match initial {
        Initial::Val(val) => val_misses(scope, val),
        Initial::Cell(cell) => cell_misses(scope, cell),
    }
}

#[tactic(auto, using(crate::proofs::Missing::parts))]
fn clause_misses(scope: &Scope, clause: &Clause) -> bool
    ensures { result ≡ misses scope.now (spec.clause_names clause.now) }
{
    match clause {
        Clause::Reduce(clause) => {
            cell_misses(scope, &clause.cell)
                || op_is_missing(scope, &clause.op)
                || optional_val_misses(scope, &clause.identity)
        }
        Clause::Induct(clause) => {
            initial_misses(scope, &clause.initial) || optional_sum_misses(scope, &clause.step)
        }
    }
}

#[tactic(auto, using(crate::proofs::Missing::turns))]
fn clauses_miss(scope: &Scope, clauses: &[Clause]) -> bool
    ensures { result ≡ misses scope.now (flat_map spec.clause_names clauses.now) }
{
    for clause in clauses {
        if clause_misses(scope, clause) {
            return true;
        }
    }
    false
}

// The loop's own names are in scope in its body alone.
#[tactic(auto, using(crate::proofs::LoopNames::of_head))]
fn head_misses(scope: &Scope, x: &Loop) -> bool
    ensures { result ≡ misses scope.now (head_names x.now) }
{
    sum_misses(scope, &x.low)
        || sum_misses(scope, &x.high)
        || optional_sum_misses(scope, &x.step)
        || clauses_miss(scope, x.clauses.as_slice())
}

fn loop_body_misses(alloc: Global, scope: &mut Scope, x: &Loop) -> Result<bool, NoMemory>
    ensures answer { IfOk result (λ b. b ≡ misses scope.old (body_names x.now)) }
    ensures same { OnOk result (scope.new ≡ scope.old) }
{
    let mark = scope.len();
    let _again = enter_head(alloc, scope, x)?;
    let missing = stmts_miss(alloc, scope, x.body.as_slice())?;
    scope.leave(mark);
    Ok(missing)
}

/// Whether the loop uses a name that is not in scope and no local name of its own.
pub fn loop_misses(alloc: Global, scope: &mut Scope, x: &Loop) -> Result<bool, NoMemory>
    ensures answer { IfOk result (λ b. b ≡ misses scope.old (spec.loop_names x.now)) }
    ensures same { OnOk result (scope.new ≡ scope.old) }
{
    if head_misses(scope, x) {
        return Ok(true);
    }
    loop_body_misses(alloc, scope, x)
}

/// Whether the loop has a local name twice, or one that is in scope.
pub fn loop_repeats(alloc: Global, scope: &mut Scope, x: &Loop) -> Result<bool, NoMemory>
    ensures answer { IfOk result (λ b. b ≡ repeats scope.old (spec.loop_locals x.now)) }
    ensures same { OnOk result (scope.new ≡ scope.old) }
{
    let mark = scope.len();
    let mut again = enter_head(alloc, scope, x)?;
    again |= enter_lets(alloc, scope, x.body.as_slice())?;
    scope.leave(mark);
    Ok(again)
}
