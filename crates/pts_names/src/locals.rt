//! Entering local names.

ghost use Rattle.std.specs.Prelude.{◌≡◌, [], ◌∷◌, IfOk, OnOk, flat_map};
ghost use Rattle.pts_rules.specs.Parts as spec;
ghost use Rattle.pts_names.specs.Entered.{entered, repeats};

use crate::parts::name_is_missing;
use pts_rules::{Meaning, Scope};
use pts_tree::{BodyStmt, Clause, Loop, Name, Param};
use pts_types::{Kind, NoMemory};
use std::alloc::Global;

/// Enters a local name. The answer is whether it was in scope already.
#[tactic(auto, using(crate::proofs::Entering::one))]
pub fn enter_local(alloc: Global, scope: &mut Scope, name: &Name) -> Result<bool, NoMemory>
    ensures answer { IfOk result (λ b. b ≡ repeats scope.old (name.now ∷ [])) }
    ensures entered { OnOk result (scope.new ≡ entered (name.now ∷ []) scope.old) }
{
    let again = !name_is_missing(scope, name);
    scope.enter(alloc, name, Meaning::Value(Kind::U64))?;
    Ok(again)
}

/// Enters parameters. The answer is whether one of them was in scope when it was its turn.
#[tactic(auto, using(crate::proofs::Entering::turns))]
pub fn enter_params(alloc: Global, scope: &mut Scope, params: &[Param]) -> Result<bool, NoMemory>
    ensures answer { IfOk result (λ b. b ≡ repeats scope.old (spec.param_names params.now)) }
    ensures entered { OnOk result (scope.new ≡ entered (spec.param_names params.now) scope.old) }
{
    let mut again = false;
    for param in params {
        again |= enter_local(alloc, scope, &param.name)?;
    }
    Ok(again)
}

fn enter_clause(alloc: Global, scope: &mut Scope, clause: &Clause) -> Result<bool, NoMemory>
    ensures answer { IfOk result (λ b. b ≡ repeats scope.old (spec.clause_name clause.now ∷ [])) }
    ensures entered { OnOk result (scope.new ≡ entered (spec.clause_name clause.now ∷ []) scope.old) }
{
    match clause {
        Clause::Reduce(clause) => enter_local(alloc, scope, &clause.view),
        Clause::Induct(clause) => enter_local(alloc, scope, &clause.name),
    }
}

#[tactic(auto, using(crate::proofs::Entering::turns))]
fn enter_clauses(alloc: Global, scope: &mut Scope, clauses: &[Clause]) -> Result<bool, NoMemory>
    ensures answer { IfOk result (λ b. b ≡ repeats scope.old (flat_map (λ c. spec.clause_name c ∷ []) clauses.now)) }
    ensures entered { OnOk result (scope.new ≡ entered (flat_map (λ c. spec.clause_name c ∷ []) clauses.now) scope.old) }
{
    let mut again = false;
    for clause in clauses {
        again |= enter_clause(alloc, scope, clause)?;
    }
    Ok(again)
}

/// Enters the names that a loop's body has from its head, with the same answer.
pub fn enter_head(alloc: Global, scope: &mut Scope, x: &Loop) -> Result<bool, NoMemory>
    ensures answer { IfOk result (λ b. b ≡ repeats scope.old (spec.head_locals x.now)) }
    ensures entered { OnOk result (scope.new ≡ entered (spec.head_locals x.now) scope.old) }
{
    let mut again = enter_local(alloc, scope, &x.index)?;
    again |= enter_clauses(alloc, scope, x.clauses.as_slice())?;
    Ok(again)
}

/// Enters each `let` of these statements, with the same answer.
#[cycle(enter_lets)]
#[tactic(auto, using(crate::proofs::Entering::turns))]
pub fn enter_lets(alloc: Global, scope: &mut Scope, stmts: &[BodyStmt]) -> Result<bool, NoMemory>
    ensures answer { IfOk result (λ b. b ≡ repeats scope.old (flat_map spec.lets stmts.now)) }
    ensures entered { OnOk result (scope.new ≡ entered (flat_map spec.lets stmts.now) scope.old) }
{
    let mut again = false;
    for stmt in stmts {
        again |= enter_lets_of(alloc, scope, stmt)?;
    }
    Ok(again)
}

#[cycle(enter_lets)]
#[tactic(auto, using(crate::proofs::Statements::lets_parts, crate::proofs::Entering::lists))]
fn enter_lets_of(alloc: Global, scope: &mut Scope, stmt: &BodyStmt) -> Result<bool, NoMemory>
    ensures answer { IfOk result (λ b. b ≡ repeats scope.old (spec.lets stmt.now)) }
    ensures entered { OnOk result (scope.new ≡ entered (spec.lets stmt.now) scope.old) }
{
    match stmt {
        BodyStmt::Let(name, _) => enter_local(alloc, scope, name),
        BodyStmt::If(_, body, other) => {
            let mut again = enter_lets(alloc, scope, body.as_slice())?;
            if let Some(other) = other {
                again |= enter_lets(alloc, scope, other.as_slice())?;
            }
            Ok(again)
        }
        BodyStmt::VecOff(body) => enter_lets(alloc, scope, body.as_slice()),
        BodyStmt::Assign(..) | BodyStmt::Combine(..) | BodyStmt::Ordered(..) => Ok(false),
    }
}
