//! The statements of a loop's body.

ghost use Rattle.std.specs.Prelude.{◌≡◌, ◌∷◌, IfOk, OnOk, map, true};
ghost use Rattle.pts_rules.specs.declared.meaning.Meaning.TheVariants.{Value};
ghost use Rattle.pts_rules.specs.Kinds.{fits, let_kind};
ghost use Rattle.pts_rules.specs.Known as known;
ghost use Rattle.pts_rules.specs.Mistyped as spec;
ghost use Rattle.pts_kinds.specs.Entered.{IsAbove};

use crate::exprs::{expr_fits, expr_typing};
use crate::names::{kind_of_array, kind_of_view};
use crate::numbers::is_number;
use pts_rules::{Meaning, Scope};
use pts_tree::{BodyStmt, Expr, Name, Place};
use pts_types::{Kind, NoMemory};
use std::alloc::Global;

fn assign_right(scope: &Scope, place: &Place, expr: &Expr) -> bool
    ensures { result ≡ spec.assign_right scope.now place.now expr.now }
{
    match kind_of_array(scope, &place.array) {
        Some(kind) => expr_fits(scope, kind, expr),
        None => false,
    }
}

fn ordered_right(scope: &Scope, place: &Place, expr: &Expr) -> bool
    ensures { result ≡ spec.ordered_right scope.now place.now expr.now }
{
    match kind_of_array(scope, &place.array) {
        Some(kind) => is_number(kind) && expr_fits(scope, kind, expr),
        None => false,
    }
}

fn combine_right(scope: &Scope, view: &Name, expr: &Expr) -> bool
    ensures { result ≡ known.has (λ kind. fits true scope.now kind expr.now) (known.view_of scope.now view.now) }
{
    match kind_of_view(scope, view) {
        Some(kind) => expr_fits(scope, kind, expr),
        None => false,
    }
}

// A bare expression makes the name a `u64`.
#[tactic(auto, using(crate::proofs::Same::typing_parts))]
fn enter_let(scope: &mut Scope, alloc: Global, name: &Name, expr: &Expr) -> Result<bool, NoMemory>
    ensures answer { IfOk result (λ b. b ≡ fits true scope.old (let_kind scope.old expr.now) expr.now) }
    ensures behind { OnOk result (scope.new ≡ (name.now, Value (let_kind scope.old expr.now)) ∷ scope.old) }
{
    let typing = expr_typing(scope, true, expr);
    let kind = typing.own.unwrap_or(Kind::U64);
    scope.enter(alloc, name, Meaning::Value(kind))?;
    Ok(typing.fits.has(kind))
}

#[cycle(body)]
#[tactic(auto, using(pts_rules::proofs::Bodies::checked_by_form, crate::proofs::Above::above))]
fn statement_right(scope: &mut Scope, alloc: Global, statement: &BodyStmt) -> Result<bool, NoMemory>
    ensures answer { IfOk result (λ b. b ≡ (spec.checked_stmt statement.now).right scope.old) }
    ensures behind { OnOk result (scope.new ≡ (spec.checked_stmt statement.now).behind scope.old) }
    ensures above { OnOk result (IsAbove scope.new scope.old) }
{
    match statement {
        BodyStmt::Assign(place, expr) => Ok(assign_right(scope, place, expr)),
        BodyStmt::Let(name, expr) => enter_let(scope, alloc, name, expr),
        BodyStmt::Combine(view, expr) => Ok(combine_right(scope, view, expr)),
        BodyStmt::If(test, then, other) => {
            let test = expr_fits(scope, Kind::Bool, test);
            let then = braces_right(scope, alloc, then.as_slice())?;
            match other {
                Some(other) => {
                    let other = braces_right(scope, alloc, other.as_slice())?;
                    Ok(test & then & other)
                }
                None => Ok(test & then),
            }
        }
        BodyStmt::VecOff(statements) => braces_right(scope, alloc, statements.as_slice()),
        BodyStmt::Ordered(place, _, expr) => Ok(ordered_right(scope, place, expr)),
    }
}

/// Whether statements between braces are right. The scope is as before.
#[cycle(body)]
#[tactic(auto, using(crate::proofs::Above::above, crate::proofs::Braces::braces_turns))]
pub fn braces_right(
    scope: &mut Scope,
    alloc: Global,
    statements: &[BodyStmt],
) -> Result<bool, NoMemory>
    ensures answer { IfOk result (λ b. b ≡ spec.all_right scope.old (map spec.checked_stmt statements.now)) }
    ensures same { OnOk result (scope.new ≡ scope.old) }
{
    let mark = scope.len();
    let mut right = true;
    for statement in statements {
        let holds = statement_right(scope, alloc, statement)?;
        right = right & holds;
    }
    scope.leave(mark);
    Ok(right)
}
