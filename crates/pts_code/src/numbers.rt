//! How many elements expressions read.

ghost use Rattle.std.specs.Prelude.{◌≡◌, map, sum};
ghost use Rattle.pts_code.specs.Compiling.{capped};
ghost use Rattle.pts_code.specs.Values.{inside, numbers};

use pts_tree::{ChainPart, Expr};

#[cycle(numbers)]
fn numbers_of_all(exprs: &[Expr], indices: bool) -> usize
    ensures { result ≡ capped (sum (map (numbers indices) exprs.now)) }
{
    let mut total: usize = 0;
    for expr in exprs {
        total = total.saturating_add(numbers_in(expr, indices));
    }
    total
}

#[cycle(numbers)]
fn numbers_of_parts(parts: &[ChainPart], indices: bool) -> usize
    ensures { result ≡ capped (sum (map (λ part. numbers indices part.operand) parts.now)) }
{
    let mut total: usize = 0;
    for part in parts {
        total = total.saturating_add(numbers_in(&part.operand, indices));
    }
    total
}

#[cycle(numbers)]
fn numbers_of_index(index: &Expr, indices: bool) -> usize
    ensures { result ≡ capped (inside indices (numbers indices index.now)) }
{
    if indices {
        numbers_in(index, indices)
    } else {
        0
    }
}

/// How many elements an expression reads, those inside of an index only where `indices` says so; the greatest number where
/// they are more.
#[cycle(numbers)]
#[tactic(auto, using(crate::proofs::NumberForms::numbers_by_form))]
pub fn numbers_in(expr: &Expr, indices: bool) -> usize
    ensures { result ≡ capped (numbers indices expr.now) }
{
    match expr {
        Expr::Number(_) | Expr::True | Expr::False | Expr::Name(_) | Expr::Throw(_) => 0,
        Expr::Call(_, arguments) => numbers_of_all(arguments.as_slice(), indices),
        Expr::Element(_, index) => numbers_of_index(index.get(), indices).saturating_add(1),
        Expr::Convert(_, operand) => numbers_in(operand.get(), indices),
        Expr::Paren(inner) => numbers_in(inner.get(), indices),
        Expr::Minus(operand) | Expr::Not(operand) => numbers_in(operand.get(), indices),
        Expr::Chain(first, parts) => numbers_in(first.get(), indices).saturating_add(
            numbers_of_parts(parts.as_slice(), indices),
        ),
        Expr::Compare(_, left, right) => numbers_in(left.get(), indices).saturating_add(numbers_in(
            right.get(),
            indices,
        )),
        Expr::All(exprs) | Expr::Any(exprs) => numbers_of_all(exprs.as_slice(), indices),
        Expr::If(test, then, other) => numbers_in(test.get(), indices)
            .saturating_add(numbers_in(then.get(), indices))
            .saturating_add(numbers_in(other.get(), indices)),
    }
}
