//! How deep calls of functions are.

ghost use Rattle.std.specs.Prelude.{◌≡◌, map};
ghost use Rattle.pts_rules.specs.Known.{function_of};
ghost use Rattle.pts_rules.specs.Counts as spec;

use pts_rules::{Meaning, Scope};
use pts_tree::{ChainPart, Expr, Name};

fn function_depth(scope: &Scope, name: &Name) -> u32
    ensures { result ≡ spec.function_depth (function_of scope.now name.now) }
{
    match scope.meaning(name) {
        Some(Meaning::Function(signature)) => signature.depth,
        _ => 0,
    }
}

#[cycle(called_depth)]
#[tactic(auto, using(crate::proofs::Lists::greatest_more))]
fn greatest_depth(scope: &Scope, exprs: &[Expr]) -> u32
    ensures { result ≡ spec.greatest (map (spec.called_depth scope.now) exprs.now) }
{
    let mut depth: u32 = 0;
    for expr in exprs {
        depth = depth.max(called_depth(scope, expr));
    }
    depth
}

#[cycle(called_depth)]
#[tactic(auto, using(crate::proofs::Lists::greatest_more))]
fn greatest_part_depth(scope: &Scope, parts: &[ChainPart]) -> u32
    ensures { result ≡ spec.greatest (map (λ y. spec.called_depth scope.now y.operand) parts.now) }
{
    let mut depth: u32 = 0;
    for part in parts {
        depth = depth.max(called_depth(scope, &part.operand));
    }
    depth
}

// The greatest depth of the functions that an expression calls.
#[cycle(called_depth)]
#[tactic(auto, using(pts_rules::proofs::Depths::depth_by_form))]
fn called_depth(scope: &Scope, expr: &Expr) -> u32
    ensures { result ≡ spec.called_depth scope.now expr.now }
{
    match expr {
        Expr::Number(_) => 0,
        Expr::True => 0,
        Expr::False => 0,
        Expr::Name(_) => 0,
        Expr::Throw(_) => 0,
        Expr::Call(name, arguments) => {
            function_depth(scope, name).max(greatest_depth(scope, arguments.as_slice()))
        }
        Expr::Element(_, index) => called_depth(scope, index.get()),
        Expr::Convert(_, expr) => called_depth(scope, expr.get()),
        Expr::Paren(expr) => called_depth(scope, expr.get()),
        Expr::Minus(expr) => called_depth(scope, expr.get()),
        Expr::Not(expr) => called_depth(scope, expr.get()),
        Expr::Chain(first, parts) => {
            called_depth(scope, first.get()).max(greatest_part_depth(scope, parts.as_slice()))
        }
        Expr::Compare(_, left, right) => {
            called_depth(scope, left.get()).max(called_depth(scope, right.get()))
        }
        Expr::All(exprs) => greatest_depth(scope, exprs.as_slice()),
        Expr::Any(exprs) => greatest_depth(scope, exprs.as_slice()),
        Expr::If(test, then, other) => called_depth(scope, test.get()).max(called_depth(
            scope,
            then.get(),
        ).max(called_depth(scope, other.get()))),
    }
}

/// The depth of a function with this body: 1 where it calls none, else 1 more than the greatest depth of those that it calls.
pub fn depth_of(scope: &Scope, body: &Expr) -> u64
    ensures { result ≡ spec.depth_of scope.now body.now }
{
    1 + u64::from(called_depth(scope, body))
}
