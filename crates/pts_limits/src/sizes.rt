//! How large functions are when their calls are expanded. Nothing is expanded: each call adds the size of its function.

ghost use Rattle.std.specs.Prelude.{◌≡◌, ◌+◌, ◌-◌, length, map};
ghost use Rattle.pts_rules.specs.Known.{function_of};
ghost use Rattle.pts_rules.specs.Counts as spec;
ghost use Rattle.pts_limits.specs.Amounts.{capped};

use pts_rules::{Meaning, Scope};
use pts_tree::{ChainPart, Expr, Name};

fn function_size(scope: &Scope, name: &Name) -> u32
    ensures { result ≡ spec.function_size (function_of scope.now name.now) }
{
    match scope.meaning(name) {
        Some(Meaning::Function(signature)) => signature.size,
        _ => 0,
    }
}

// A number or the name of a constant alone.
#[tactic(auto, using(pts_rules::proofs::Sizes::size_by_form))]
fn is_literal(scope: &Scope, expr: &Expr) -> bool
    ensures { result ≡ (spec.sizing scope.now expr.now).literal }
{
    match expr {
        Expr::Number(_) => true,
        Expr::True => false,
        Expr::False => false,
        Expr::Name(name) => scope.constant(name).is_some(),
        Expr::Throw(_) => false,
        Expr::Call(..) => false,
        Expr::Element(..) => false,
        Expr::Convert(..) => false,
        Expr::Paren(_) => false,
        Expr::Minus(_) => false,
        Expr::Not(_) => false,
        Expr::Chain(..) => false,
        Expr::Compare(..) => false,
        Expr::All(_) => false,
        Expr::Any(_) => false,
        Expr::If(..) => false,
    }
}

#[cycle(size_of)]
#[tactic(auto, using(crate::proofs::Lists::nodes_more))]
fn sizes(scope: &Scope, exprs: &[Expr]) -> u64
    ensures { result ≡ capped (spec.nodes_of (map (spec.sizing scope.now) exprs.now)) }
{
    let mut size: u64 = 0;
    for expr in exprs {
        size = size.saturating_add(size_of(scope, expr));
    }
    size
}

#[cycle(size_of)]
#[tactic(auto, using(crate::proofs::Lists::nodes_more))]
fn part_sizes(scope: &Scope, parts: &[ChainPart]) -> u64
    ensures { result ≡ capped (spec.nodes_of (map (λ y. spec.sizing scope.now y.operand) parts.now)) }
{
    let mut size: u64 = 0;
    for part in parts {
        size = size.saturating_add(size_of(scope, &part.operand));
    }
    size
}

/// The size of a function with this body, or the greatest `u64` where it is larger: operators, operands, conversions and
/// `if`s count 1 and parentheses do not; a call counts 1, its arguments and the size of its function.
#[cycle(size_of)]
#[tactic(auto, using(pts_rules::proofs::Sizes::size_by_form, crate::proofs::Lists::lengths))]
pub fn size_of(scope: &Scope, body: &Expr) -> u64
    ensures { result ≡ capped (spec.size_of scope.now body.now) }
{
    match body {
        Expr::Number(_) => 1,
        Expr::True => 1,
        Expr::False => 1,
        Expr::Name(_) => 1,
        Expr::Throw(_) => 1,
        Expr::Call(name, arguments) => sizes(scope, arguments.as_slice()).saturating_add(
            u64::from(function_size(scope, name)) + 1,
        ),
        Expr::Element(_, index) => size_of(scope, index.get()).saturating_add(1),
        Expr::Convert(_, expr) => size_of(scope, expr.get()).saturating_add(1),
        Expr::Paren(expr) => size_of(scope, expr.get()),
        Expr::Minus(expr) => {
            if is_literal(scope, expr.get()) {
                1
            } else {
                size_of(scope, expr.get()).saturating_add(1)
            }
        }
        Expr::Not(expr) => size_of(scope, expr.get()).saturating_add(1),
        Expr::Chain(first, parts) => size_of(scope, first.get())
            .saturating_add(part_sizes(scope, parts.as_slice()))
            .saturating_add(parts.len() as u64),
        Expr::Compare(_, left, right) => size_of(scope, left.get())
            .saturating_add(size_of(scope, right.get()))
            .saturating_add(1),
        Expr::All(exprs) => joined_size(scope, exprs.as_slice()),
        Expr::Any(exprs) => joined_size(scope, exprs.as_slice()),
        Expr::If(test, then, other) => size_of(scope, test.get())
            .saturating_add(size_of(scope, then.get()))
            .saturating_add(size_of(scope, other.get()))
            .saturating_add(1),
    }
}

// Expressions with an operator between any two.
#[cycle(size_of)]
#[tactic(auto, using(crate::proofs::Lists::lengths))]
fn joined_size(scope: &Scope, exprs: &[Expr]) -> u64
    ensures { let xs = map (spec.sizing scope.now) exprs.now in result ≡ capped (spec.nodes_of xs + (length xs - 1)) }
{
    sizes(scope, exprs).saturating_add(exprs.len().saturating_sub(1) as u64)
}
