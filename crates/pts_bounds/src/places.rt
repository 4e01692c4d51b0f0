//! Elements that expressions and the bodies of loops read and write.

ghost use Rattle.std.specs.Prelude.{◌≡◌};
ghost use Rattle.std.specs.Option.{option_copied};
ghost use Rattle.pts_bounds.specs.Firsts.{soonest};
ghost use Rattle.pts_bounds.specs.Walks as spec;
ghost use Rattle.pts_rules.specs.Indices as rules;

use crate::affine::affine_of;
use crate::firsts::{Progression, index_first, sooner};
use crate::ranges::length_of;
use pts_rules::Scope;
use pts_tree::{BodyStmt, ChainPart, Expr, Name, Place};

#[tactic(auto, using(crate::proofs::Soonest::soonest_one))]
fn element_first(
    scope: &Scope,
    progression: Progression,
    index: Option<&Name>,
    array: &Name,
    at: &Expr,
) -> Option<u64>
    ensures { result ≡ spec.place_first scope.now progression (option_copied index.entry) (record { array = array.now; index = at.now }) }
{
    match affine_of(scope, index, at) {
        Some(affine) => index_first(progression, affine, length_of(scope, array)),
        None => None,
    }
}

#[cycle(expr_first)]
fn exprs_first(
    scope: &Scope,
    progression: Progression,
    index: Option<&Name>,
    exprs: &[Expr],
) -> Option<u64>
    ensures { result ≡ soonest (λ x. soonest (spec.place_first scope.now progression (option_copied index.entry)) (rules.elements x)) exprs.now }
{
    let mut first = None;
    for expr in exprs {
        first = sooner(first, expr_first(scope, progression, index, expr));
    }
    first
}

#[cycle(expr_first)]
fn parts_first(
    scope: &Scope,
    progression: Progression,
    index: Option<&Name>,
    chain: &[ChainPart],
) -> Option<u64>
    ensures { result ≡ soonest (λ x. soonest (spec.place_first scope.now progression (option_copied index.entry)) (rules.elements x.operand)) chain.now }
{
    let mut first = None;
    for part in chain {
        first = sooner(first, expr_first(scope, progression, index, &part.operand));
    }
    first
}

// Of the elements that an expression reads.
#[cycle(expr_first)]
#[tactic(auto, using(crate::proofs::Elements::elements_by_form))]
pub fn expr_first(
    scope: &Scope,
    progression: Progression,
    index: Option<&Name>,
    expr: &Expr,
) -> Option<u64>
    ensures { result ≡ soonest (spec.place_first scope.now progression (option_copied index.entry)) (rules.elements expr.now) }
{
    match expr {
        Expr::Number(_) => None,
        Expr::True => None,
        Expr::False => None,
        Expr::Name(_) => None,
        Expr::Throw(_) => None,
        Expr::Call(_, arguments) => exprs_first(scope, progression, index, arguments.as_slice()),
        Expr::Element(array, at) => sooner(
            element_first(scope, progression, index, array, at.get()),
            expr_first(scope, progression, index, at.get()),
        ),
        Expr::Convert(_, expr) => expr_first(scope, progression, index, expr.get()),
        Expr::Paren(expr) => expr_first(scope, progression, index, expr.get()),
        Expr::Minus(expr) => expr_first(scope, progression, index, expr.get()),
        Expr::Not(expr) => expr_first(scope, progression, index, expr.get()),
        Expr::Chain(first, chain) => sooner(
            expr_first(scope, progression, index, first.get()),
            parts_first(scope, progression, index, chain.as_slice()),
        ),
        Expr::Compare(_, left, right) => sooner(
            expr_first(scope, progression, index, left.get()),
            expr_first(scope, progression, index, right.get()),
        ),
        Expr::All(exprs) => exprs_first(scope, progression, index, exprs.as_slice()),
        Expr::Any(exprs) => exprs_first(scope, progression, index, exprs.as_slice()),
        Expr::If(test, then, other) => sooner(
            sooner(
                expr_first(scope, progression, index, test.get()),
                expr_first(scope, progression, index, then.get()),
            ),
            expr_first(scope, progression, index, other.get()),
        ),
    }
}

fn write_first(
    scope: &Scope,
    progression: Progression,
    index: Option<&Name>,
    at: &Place,
    expr: &Expr,
) -> Option<u64>
    ensures { result ≡ spec.first_of_write (spec.place_first scope.now progression (option_copied index.entry)) at.now expr.now }
{
    sooner(
        sooner(
            element_first(scope, progression, index, &at.array, &at.index),
            expr_first(scope, progression, index, &at.index),
        ),
        expr_first(scope, progression, index, expr),
    )
}

#[cycle(stmt_first)]
pub fn body_first(
    scope: &Scope,
    progression: Progression,
    index: Option<&Name>,
    body: &[BodyStmt],
) -> Option<u64>
    ensures { result ≡ soonest (λ x. soonest (spec.place_first scope.now progression (option_copied index.entry)) (rules.places x)) body.now }
{
    let mut first = None;
    for stmt in body {
        first = sooner(first, stmt_first(scope, progression, index, stmt));
    }
    first
}

// Of the elements that a statement reads and writes.
#[cycle(stmt_first)]
#[tactic(auto, using(crate::proofs::Elements::places_by_form))]
fn stmt_first(
    scope: &Scope,
    progression: Progression,
    index: Option<&Name>,
    stmt: &BodyStmt,
) -> Option<u64>
    ensures { result ≡ soonest (spec.place_first scope.now progression (option_copied index.entry)) (rules.places stmt.now) }
{
    match stmt {
        BodyStmt::Assign(at, expr) => write_first(scope, progression, index, at, expr),
        BodyStmt::Let(_, expr) => expr_first(scope, progression, index, expr),
        BodyStmt::Combine(_, expr) => expr_first(scope, progression, index, expr),
        BodyStmt::If(test, then, other) => {
            let first = sooner(
                expr_first(scope, progression, index, test),
                body_first(scope, progression, index, then.as_slice()),
            );
            match other {
                Some(other) => sooner(
                    first,
                    body_first(scope, progression, index, other.as_slice()),
                ),
                None => first,
            }
        }
        BodyStmt::VecOff(body) => body_first(scope, progression, index, body.as_slice()),
        BodyStmt::Ordered(at, _, expr) => write_first(scope, progression, index, at, expr),
    }
}
