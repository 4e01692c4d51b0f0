//! The kinds of expressions.

ghost use Rattle.std.specs.Prelude.{◌≡◌, ◌∷◌, [], map, nat_le, true};
ghost use Rattle.pts_types.specs.declared.value.Kind.TheVariants as kinds;
ghost use Rattle.pts_rules.specs.Kinds as spec;
ghost use Rattle.pts_rules.specs.Known as known;
ghost use Rattle.pts_kinds.specs.Shown.{both, chosen, compared, converted, in_parentheses, typing_of};

use crate::kinds::{Kinds, Typing, bare_number, number_typing, typed, wrong};
use crate::names::{function_of, kind_of_array};
use crate::numbers::is_number;
use pts_rules::{Meaning, Scope};
use pts_tree::{ChainPart, Expr, Name};
use pts_types::{Kind, ScalarOp};

fn name_typing(scope: &Scope, name: &Name) -> Typing
    ensures { typing_of result ≡ spec.name_typing (known.meaning_of scope.now name.now) }
{
    match scope.meaning(name) {
        Some(Meaning::Constant(number)) => number_typing(*number),
        Some(Meaning::Value(kind)) => typed(*kind, true),
        _ => wrong(),
    }
}

fn element_typing(scope: &Scope, reads: bool, array: &Name) -> Typing
    ensures { typing_of result ≡ spec.element_typing reads (known.kind_of_array scope.now array.now) }
{
    match kind_of_array(scope, array) {
        Some(kind) => typed(kind, reads),
        None => wrong(),
    }
}

#[tactic(auto, using(crate::proofs::Same::same_typing))]
fn throw_typing(code: u64) -> Typing
    ensures { typing_of result ≡ spec.bare (λ asked. nat_le code 999) }
{
    Typing {
        literal: None,
        own: None,
        fits: Kinds::all(code <= 999),
    }
}

#[tactic(auto, using(crate::proofs::Same::typing_parts))]
fn convert_typing(to: Kind, operand: Typing) -> Typing
    ensures { typing_of result ≡ converted to (typing_of operand) }
{
    typed(to, operand.fits.has(operand.own.unwrap_or(to)))
}

// In parentheses a number is none that a `-` may stand before.
#[tactic(auto, using(crate::proofs::Same::same_typing, crate::proofs::Same::typing_parts))]
fn paren_typing(inner: Typing) -> Typing
    ensures { typing_of result ≡ in_parentheses (typing_of inner) }
{
    Typing {
        literal: None,
        ..inner
    }
}

#[tactic(auto, using(crate::proofs::Same::typing_parts))]
fn minus_typing(operand: Typing) -> Typing
    ensures { typing_of result ≡ spec.minus_typing (typing_of operand) operand.literal }
{
    match operand.literal {
        Some(number) => match number.checked_neg() {
            Some(number) => bare_number(number),
            None => wrong(),
        },
        None => typed(Kind::I64, operand.fits.i64),
    }
}

// Two operands as one.
#[tactic(auto, using(crate::proofs::Same::same_typing, crate::proofs::Same::typing_parts))]
fn join(one: Typing, other: Typing) -> Typing
    ensures { typing_of result ≡ both (typing_of one) (typing_of other) }
{
    Typing {
        literal: None,
        own: one.own.or(other.own),
        fits: one.fits.and(other.fits),
    }
}

// The chain of operands that are joined. It is never of kind `bool`.
#[tactic(auto, using(crate::proofs::Same::same_typing, crate::proofs::Same::typing_parts))]
fn chain_of(operands: Typing) -> Typing
    ensures { typing_of result ≡ spec.chain_typing (typing_of operands ∷ []) }
{
    Typing {
        literal: None,
        own: operands.own,
        fits: Kinds {
            bool: false,
            ..operands.fits
        },
    }
}

fn compares(op: ScalarOp, kind: Kind) -> bool
    ensures { result ≡ spec.compares op kind }
{
    match op {
        ScalarOp::Equal | ScalarOp::NotEqual => true,
        _ => is_number(kind),
    }
}

#[tactic(auto, using(crate::proofs::Same::typing_parts))]
fn compare_typing(op: ScalarOp, left: Typing, right: Typing) -> Typing
    ensures { typing_of result ≡ compared op (typing_of left) (typing_of right) }
{
    let kind = left.own.or(right.own).unwrap_or(Kind::U64);
    typed(
        Kind::Bool,
        compares(op, kind) && left.fits.has(kind) && right.fits.has(kind),
    )
}

#[tactic(auto, using(crate::proofs::Same::same_typing, crate::proofs::Same::typing_parts))]
fn if_typing(test: Typing, then: Typing, other: Typing) -> Typing
    ensures { typing_of result ≡ chosen (typing_of test) (typing_of then) (typing_of other) }
{
    Typing {
        literal: None,
        own: then.own.or(other.own),
        fits: Kinds::all(test.fits.bool).and(then.fits.and(other.fits)),
    }
}

#[cycle(expr)]
fn part_typing(scope: &Scope, reads: bool, part: &ChainPart) -> Typing
    ensures { typing_of result ≡ spec.typing reads scope.now part.now.operand }
{
    expr_typing(scope, reads, &part.operand)
}

#[cycle(expr)]
#[tactic(auto, using(crate::proofs::Operands::chain_turns))]
fn chain_typing(scope: &Scope, reads: bool, first: Typing, parts: &[ChainPart]) -> Typing
    ensures { typing_of result ≡ spec.chain_typing (typing_of first ∷ map (λ y. spec.typing reads scope.now y.operand) parts.now) }
{
    let mut operands = first;
    for part in parts {
        operands = join(operands, part_typing(scope, reads, part));
    }
    chain_of(operands)
}

#[cycle(expr)]
#[tactic(auto, using(crate::proofs::Operands::bool_turns))]
fn are_bools(scope: &Scope, reads: bool, exprs: &[Expr]) -> bool
    ensures { result ≡ spec.each_fits kinds.Bool (map (spec.typing reads scope.now) exprs.now) }
{
    for expr in exprs {
        if !expr_typing(scope, reads, expr).fits.bool {
            return false;
        }
    }
    true
}

#[cycle(expr)]
#[tactic(auto, using(crate::proofs::Operands::argument_turns))]
fn arguments_fit(scope: &Scope, reads: bool, params: &[Kind], arguments: &[Expr]) -> bool
    ensures { result ≡ spec.arguments_fit params.now (map (spec.typing reads scope.now) arguments.now) }
{
    if params.len() != arguments.len() {
        return false;
    }
    for at in 0..params.len() {
        if !expr_typing(scope, reads, &arguments[at])
            .fits
            .has(params[at])
        {
            return false;
        }
    }
    true
}

#[cycle(expr)]
fn call_typing(scope: &Scope, reads: bool, name: &Name, arguments: &[Expr]) -> Typing
    ensures { typing_of result ≡ spec.call_typing (known.function_of scope.now name.now) (map (spec.typing reads scope.now) arguments.now) }
{
    match function_of(scope, name) {
        Some(function) => typed(
            function.kind,
            arguments_fit(scope, reads, function.params.as_slice(), arguments),
        ),
        None => wrong(),
    }
}

/// The kinds of an expression, where the names of the scope are known. `reads` says whether it may read elements of arrays.
#[cycle(expr)]
#[tactic(auto, using(pts_rules::proofs::Typings::typing_by_form, crate::proofs::Same::typing_parts))]
pub fn expr_typing(scope: &Scope, reads: bool, expr: &Expr) -> Typing
    ensures { typing_of result ≡ spec.typing reads scope.now expr.now }
{
    match expr {
        Expr::Number(number) => number_typing(i128::from(*number)),
        Expr::True | Expr::False => typed(Kind::Bool, true),
        Expr::Name(name) => name_typing(scope, name),
        Expr::Call(name, arguments) => call_typing(scope, reads, name, arguments.as_slice()),
        Expr::Element(array, _) => element_typing(scope, reads, array),
        Expr::Convert(to, operand) => convert_typing(*to, expr_typing(scope, reads, operand.get())),
        Expr::Throw(code) => throw_typing(*code),
        Expr::Paren(inner) => paren_typing(expr_typing(scope, reads, inner.get())),
        Expr::Minus(operand) => minus_typing(expr_typing(scope, reads, operand.get())),
        Expr::Not(operand) => typed(
            Kind::Bool,
            expr_typing(scope, reads, operand.get()).fits.bool,
        ),
        Expr::Chain(first, parts) => {
            let first = expr_typing(scope, reads, first.get());
            chain_typing(scope, reads, first, parts.as_slice())
        }
        Expr::Compare(op, left, right) => compare_typing(
            *op,
            expr_typing(scope, reads, left.get()),
            expr_typing(scope, reads, right.get()),
        ),
        Expr::All(exprs) | Expr::Any(exprs) => {
            typed(Kind::Bool, are_bools(scope, reads, exprs.as_slice()))
        }
        Expr::If(test, then, other) => if_typing(
            expr_typing(scope, reads, test.get()),
            expr_typing(scope, reads, then.get()),
            expr_typing(scope, reads, other.get()),
        ),
    }
}

/// Whether an expression may stand where the kind is asked, outside a function.
#[tactic(auto, using(crate::proofs::Same::typing_parts))]
pub fn expr_fits(scope: &Scope, kind: Kind, expr: &Expr) -> bool
    ensures { result ≡ spec.fits true scope.now kind expr.now }
{
    expr_typing(scope, true, expr).fits.has(kind)
}
