//! Names in the bodies of loops.

ghost use Rattle.std.specs.Prelude.{◌≡◌, IfOk, OnOk, map};
ghost use Rattle.pts_rules.specs.Parts as spec;
ghost use Rattle.pts_names.specs.Entered.{entered, IsOver, misses};

use crate::expressions::{expr_misses, place_misses};
use crate::parts::name_is_missing;
use pts_rules::{Meaning, Scope};
use pts_tree::BodyStmt;
use pts_types::{Kind, NoMemory};
use std::alloc::Global;

// What a statement binds for those after it.
#[tactic(auto, using(crate::proofs::Statements::bound_parts, crate::proofs::Entering::names))]
fn enter_let(alloc: Global, scope: &mut Scope, stmt: &BodyStmt) -> Result<(), NoMemory>
    ensures { OnOk result (scope.new ≡ entered (spec.uses stmt.now).bound scope.old) }
{
    match stmt {
        BodyStmt::Let(name, _) => scope.enter(alloc, name, Meaning::Value(Kind::U64)),
        BodyStmt::Assign(..)
        | BodyStmt::Combine(..)
        | BodyStmt::If(..)
        | BodyStmt::VecOff(_)
        | BodyStmt::Ordered(..) => Ok(()),
    }
}

/// Whether these statements use a name that is not in scope there. Each `let` directly among them before such a use is entered.
#[cycle(body_misses)]
#[tactic(auto, using(crate::proofs::Walks::turns))]
pub fn stmts_miss(alloc: Global, scope: &mut Scope, stmts: &[BodyStmt]) -> Result<bool, NoMemory>
    ensures answer { IfOk result (λ b. b ≡ misses scope.old (spec.free (map spec.uses stmts.now))) }
    ensures over { OnOk result (IsOver scope.old scope.new) }
{
    for stmt in stmts {
        if stmt_misses(alloc, scope, stmt)? {
            return Ok(true);
        }
        enter_let(alloc, scope, stmt)?;
    }
    Ok(false)
}

// The same of statements between braces.
#[cycle(body_misses)]
#[tactic(auto, using(crate::proofs::Entering::left))]
fn body_misses(alloc: Global, scope: &mut Scope, body: &[BodyStmt]) -> Result<bool, NoMemory>
    ensures answer { IfOk result (λ b. b ≡ misses scope.old (spec.free (map spec.uses body.now))) }
    ensures same { OnOk result (scope.new ≡ scope.old) }
{
    let mark = scope.len();
    let missing = stmts_miss(alloc, scope, body)?;
    scope.leave(mark);
    Ok(missing)
}

#[cycle(body_misses)]
#[tactic(auto, using(crate::proofs::Statements::used_parts))]
fn stmt_misses(alloc: Global, scope: &mut Scope, stmt: &BodyStmt) -> Result<bool, NoMemory>
    ensures answer { IfOk result (λ b. b ≡ misses scope.old (spec.uses stmt.now).used) }
    ensures same { OnOk result (scope.new ≡ scope.old) }
{
    match stmt {
        BodyStmt::Assign(place, value) => {
            Ok(place_misses(scope, place) || expr_misses(scope, value))
        }
        BodyStmt::Let(_, value) => Ok(expr_misses(scope, value)),
        BodyStmt::Combine(name, value) => {
            Ok(name_is_missing(scope, name) || expr_misses(scope, value))
        }
        BodyStmt::If(test, body, other) => {
            if expr_misses(scope, test) || body_misses(alloc, scope, body.as_slice())? {
                return Ok(true);
            }
            match other {
                Some(other) => body_misses(alloc, scope, other.as_slice()),
                None => Ok(false),
            }
        }
        BodyStmt::VecOff(body) => body_misses(alloc, scope, body.as_slice()),
        BodyStmt::Ordered(place, _, value) => {
            Ok(place_misses(scope, place) || expr_misses(scope, value))
        }
    }
}
