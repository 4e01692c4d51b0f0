//! Names in expressions.

ghost use Rattle.std.specs.Prelude.{◌≡◌, flat_map};
ghost use Rattle.pts_rules.specs.Parts as spec;
ghost use Rattle.pts_names.specs.Entered.{misses};

use crate::parts::name_is_missing;
use pts_rules::Scope;
use pts_tree::{ChainPart, Expr, Place};

#[cycle(expr_misses)]
#[tactic(auto, using(crate::proofs::Missing::turns))]
fn exprs_miss(scope: &Scope, exprs: &[Expr]) -> bool
    ensures { result ≡ misses scope.now (flat_map spec.expr_names exprs.now) }
{
    for expr in exprs {
        if expr_misses(scope, expr) {
            return true;
        }
    }
    false
}

#[cycle(expr_misses)]
#[tactic(auto, using(crate::proofs::Missing::turns))]
fn chain_parts_miss(scope: &Scope, parts: &[ChainPart]) -> bool
    ensures { result ≡ misses scope.now (flat_map (λ part. spec.expr_names part.operand) parts.now) }
{
    for part in parts {
        if expr_misses(scope, &part.operand) {
            return true;
        }
    }
    false
}

/// Whether a name of the expression is not in scope.
#[cycle(expr_misses)]
#[tactic(auto, using(crate::proofs::ExprNames::names))]
pub fn expr_misses(scope: &Scope, expr: &Expr) -> bool
    ensures { result ≡ misses scope.now (spec.expr_names expr.now) }
{
    match expr {
        Expr::Name(name) => name_is_missing(scope, name),
        Expr::Call(name, arguments) => {
            name_is_missing(scope, name) || exprs_miss(scope, arguments.as_slice())
        }
        Expr::Element(name, index) => {
            name_is_missing(scope, name) || expr_misses(scope, index.get())
        }
        Expr::Convert(_, expr) => expr_misses(scope, expr.get()),
        Expr::Paren(expr) => expr_misses(scope, expr.get()),
        Expr::Minus(expr) => expr_misses(scope, expr.get()),
        Expr::Not(expr) => expr_misses(scope, expr.get()),
        Expr::Chain(first, parts) => {
            expr_misses(scope, first.get()) || chain_parts_miss(scope, parts.as_slice())
        }
        Expr::Compare(_, left, right) => {
            expr_misses(scope, left.get()) || expr_misses(scope, right.get())
        }
        Expr::All(exprs) => exprs_miss(scope, exprs.as_slice()),
        Expr::Any(exprs) => exprs_miss(scope, exprs.as_slice()),
        Expr::If(test, then, other) => {
            expr_misses(scope, test.get())
                || expr_misses(scope, then.get())
                || expr_misses(scope, other.get())
        }
        Expr::Number(_) | Expr::True | Expr::False | Expr::Throw(_) => false,
    }
}

/// Whether a name of the element is not in scope, its array or one in its index.
#[tactic(auto, using(crate::proofs::Missing::parts))]
pub fn place_misses(scope: &Scope, place: &Place) -> bool
    ensures { result ≡ misses scope.now (spec.place_names place.now) }
{
    name_is_missing(scope, &place.array) || expr_misses(scope, &place.index)
}
