//! Expressions as multiples of a loop index and a number.

ghost use Rattle.std.specs.Prelude.{◌≡◌, ◌*ℤ◌, ◌<◌, ◌^◌, fold, map, nat_abs, IfSome};
ghost use Rattle.std.specs.Str.{bytes_eq};
ghost use Rattle.pts_rules.specs.Known.{constant_of, has};
ghost use Rattle.pts_types.specs.declared.operation.ScalarOp.{ScalarOp};
ghost use Rattle.std.specs.Option.{option_copied};
ghost use Rattle.pts_rules.specs.Indices as spec;
ghost use Rattle.pts_rules.proofs.Readings.{link};
ghost use Rattle.pts_bounds.specs.Affines.{affine, line_of_index};

use pts_rules::Scope;
use pts_tree::{ChainPart, Expr, Name};
use pts_types::ScalarOp;

/// `factor * i + offset`, where i is the loop index.
#[derive(Clone, Copy, Debug, PartialEq, Eq)]
pub struct Affine {
    pub factor: i64,
    pub offset: i64,
}

// The same, where both lie in `i64`.
fn kept(factor: i128, offset: i128) -> Option<Affine>
    ensures { affine result ≡ spec.kept factor offset }
{
    let least = i128::from(i64::MIN);
    let greatest = i128::from(i64::MAX);
    if least <= factor && factor <= greatest && least <= offset && offset <= greatest {
        Some(Affine {
            factor: factor as i64,
            offset: offset as i64,
        })
    } else {
        None
    }
}

fn wide_product(x: i64, y: i64) -> i128
    ensures { result ≡ x *ℤ y }
{
    i128::from(x) * i128::from(y)
}

fn product(x: Affine, y: Affine) -> Option<Affine>
    ensures { affine result ≡ spec.combined ScalarOp.Multiplies (line_of_index x) (line_of_index y) }
{
    let offset = wide_product(x.offset, y.offset);
    if x.factor == 0 {
        kept(wide_product(x.offset, y.factor), offset)
    } else if y.factor == 0 {
        kept(wide_product(x.factor, y.offset), offset)
    } else {
        None
    }
}

// A sum, a difference, or a product that has a side without the loop index.
fn combined(op: ScalarOp, x: Affine, y: Affine) -> Option<Affine>
    ensures { affine result ≡ spec.combined op (line_of_index x) (line_of_index y) }
{
    match op {
        ScalarOp::Plus => kept(
            i128::from(x.factor) + i128::from(y.factor),
            i128::from(x.offset) + i128::from(y.offset),
        ),
        ScalarOp::Minus => kept(
            i128::from(x.factor) - i128::from(y.factor),
            i128::from(x.offset) - i128::from(y.offset),
        ),
        ScalarOp::Multiplies => product(x, y),
        _ => None,
    }
}

fn next_affine(so_far: Option<Affine>, op: ScalarOp, operand: Option<Affine>) -> Option<Affine>
    ensures { affine result ≡ spec.next_affine (affine so_far) (op, affine operand) }
{
    match (so_far, operand) {
        (Some(x), Some(y)) => combined(op, x, y),
        _ => None,
    }
}

fn number_affine(number: Option<i128>) -> Option<Affine>
    ensures { affine result ≡ (spec.number_reading number).affine }
{
    match number {
        Some(number) => kept(0, number),
        None => None,
    }
}

fn is_index(index: Option<&Name>, name: &Name) -> bool
    ensures { result ≡ has (bytes_eq name.now) (option_copied index.entry) }
{
    match index {
        Some(index) => name.as_str() == index.as_str(),
        None => false,
    }
}

fn name_affine(scope: &Scope, index: Option<&Name>, name: &Name) -> Option<Affine>
    ensures { affine result ≡ (spec.name_reading (has (bytes_eq name.now) (option_copied index.entry)) (constant_of scope.now name.now)).affine }
{
    if is_index(index, name) {
        kept(1, 0)
    } else {
        number_affine(scope.constant(name))
    }
}

// The value of a number or of the name of a constant alone.
#[tactic(auto, using(pts_rules::proofs::Readings::reading_by_form))]
fn literal(scope: &Scope, index: Option<&Name>, expr: &Expr) -> Option<i128>
    ensures value { result ≡ (spec.reading scope.now (option_copied index.entry) expr.now).literal }
    ensures small { IfSome result (λ z. nat_abs z < 2 ^ 64) }
{
    match expr {
        Expr::Number(number) => Some(i128::from(*number)),
        Expr::True => None,
        Expr::False => None,
        Expr::Name(name) => {
            if is_index(index, name) {
                None
            } else {
                scope.constant(name)
            }
        }
        Expr::Throw(_) => None,
        Expr::Call(..) => None,
        Expr::Element(..) => None,
        Expr::Convert(..) => None,
        Expr::Paren(_) => None,
        Expr::Minus(_) => None,
        Expr::Not(_) => None,
        Expr::Chain(..) => None,
        Expr::Compare(..) => None,
        Expr::All(_) => None,
        Expr::Any(_) => None,
        Expr::If(..) => None,
    }
}

fn minus_affine(literal: Option<i128>, x: Option<Affine>) -> Option<Affine>
    requires { IfSome literal (λ z. nat_abs z < 2 ^ 64) }
    ensures { affine result ≡ spec.minus_affine literal (affine x) }
{
    match (literal, x) {
        (Some(number), _) => kept(0, -number),
        (None, Some(x)) => kept(-i128::from(x.factor), -i128::from(x.offset)),
        (None, None) => None,
    }
}

#[cycle(affine_of)]
fn chain_affine(
    scope: &Scope,
    index: Option<&Name>,
    first: Option<Affine>,
    parts: &[ChainPart],
) -> Option<Affine>
    ensures { affine result ≡ fold spec.next_affine (affine first) (map (link scope.now (option_copied index.entry)) parts.now) }
{
    let mut so_far = first;
    for part in parts {
        so_far = next_affine(so_far, part.op, affine_of(scope, index, &part.operand));
    }
    so_far
}

/// The factor and the offset of an expression, where it is made of numbers, constants, the loop index, `+`, `-`, `*` and
/// parentheses as a line, with every number on the way in `i64`; None where it is not.
#[cycle(affine_of)]
#[tactic(auto, using(pts_rules::proofs::Readings::reading_by_form))]
pub fn affine_of(scope: &Scope, index: Option<&Name>, expr: &Expr) -> Option<Affine>
    ensures { affine result ≡ spec.affine_of scope.now (option_copied index.entry) expr.now }
{
    match expr {
        Expr::Number(number) => kept(0, i128::from(*number)),
        Expr::Name(name) => name_affine(scope, index, name),
        Expr::Paren(expr) => affine_of(scope, index, expr.get()),
        Expr::Minus(expr) => minus_affine(
            literal(scope, index, expr.get()),
            affine_of(scope, index, expr.get()),
        ),
        Expr::Chain(first, parts) => {
            let first = affine_of(scope, index, first.get());
            chain_affine(scope, index, first, parts.as_slice())
        }
        Expr::True => None,
        Expr::False => None,
        Expr::Throw(_) => None,
        Expr::Call(..) => None,
        Expr::Element(..) => None,
        Expr::Convert(..) => None,
        Expr::Not(_) => None,
        Expr::Compare(..) => None,
        Expr::All(_) => None,
        Expr::Any(_) => None,
        Expr::If(..) => None,
    }
}
