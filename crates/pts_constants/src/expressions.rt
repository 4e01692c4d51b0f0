//! Expressions.

ghost use Rattle.std.specs.Prelude.{◌≡◌, ◌<◌, ◌^◌, IfOk, IfSome, map, nat_abs};
ghost use Rattle.pts_constants.specs.Resolved as spec;
ghost use Rattle.pts_tree.specs.declared.expr.Expr.TheVariants as e;
ghost use Rattle.pts_rules.specs.Known.{constant_of};

use crate::sums::copy_name;
use pts_rules::Scope;
use pts_tree::{ChainPart, Expr, Name, Place};
use sqlite_items::{Boxed, Items};
use std::alloc::{AllocError, Global};

fn minus(alloc: Global, expr: Expr) -> Result<Expr, AllocError>
    ensures { IfOk result (λ y. y ≡ e.Minus expr) }
{
    Ok(Expr::Minus(Boxed::new(alloc, expr)?))
}

fn number_expr(alloc: Global, z: i128) -> Result<Expr, AllocError>
    requires { nat_abs z < 2 ^ 64 }
    ensures { IfOk result (λ y. y ≡ spec.number_expr z) }
{
    let number = Expr::Number(z.unsigned_abs() as u64);
    if z < 0 {
        minus(alloc, number)
    } else {
        Ok(number)
    }
}

fn resolve_name(alloc: Global, scope: &Scope, name: &Name) -> Result<Expr, AllocError>
    ensures { IfOk result (λ y. y ≡ (spec.named name.now (constant_of scope.now name.now)).tree) }
{
    match scope.constant(name) {
        Some(z) => number_expr(alloc, z),
        None => Ok(Expr::Name(copy_name(alloc, name)?)),
    }
}

// The value of the constant that an expression is.
#[tactic(auto, using(crate::proofs::Resolutions::constants_by_form))]
fn constant_expr(scope: &Scope, expr: &Expr) -> Option<i128>
    ensures value { result ≡ spec.constant_expr scope.now expr.now }
    ensures small { IfSome result (λ z. nat_abs z < 2 ^ 64) }
{
    match expr {
        Expr::Name(name) => scope.constant(name),
        Expr::Number(_)
        | Expr::True
        | Expr::False
        | Expr::Call(..)
        | Expr::Element(..)
        | Expr::Convert(..)
        | Expr::Throw(_)
        | Expr::Paren(_)
        | Expr::Minus(_)
        | Expr::Not(_)
        | Expr::Chain(..)
        | Expr::Compare(..)
        | Expr::All(_)
        | Expr::Any(_)
        | Expr::If(..) => None,
    }
}

#[cycle(resolve_expr)]
fn resolve_minus(alloc: Global, scope: &Scope, expr: &Expr) -> Result<Expr, AllocError>
    ensures { IfOk result (λ y. y ≡ spec.minus_expr (spec.constant_expr scope.now expr.now) (spec.resolved_expr scope.now expr.now)) }
{
    match constant_expr(scope, expr) {
        Some(z) => number_expr(alloc, -z),
        None => minus(alloc, resolve_expr(alloc, scope, expr)?),
    }
}

#[cycle(resolve_expr)]
fn resolve_boxed(alloc: Global, scope: &Scope, expr: &Expr) -> Result<Boxed<Expr>, AllocError>
    ensures { IfOk result (λ y. y ≡ spec.resolved_expr scope.now expr.now) }
{
    Boxed::new(alloc, resolve_expr(alloc, scope, expr)?)
}

#[cycle(resolve_expr)]
#[tactic(auto, using(crate::proofs::Turns::turns))]
fn resolve_exprs(alloc: Global, scope: &Scope, exprs: &[Expr]) -> Result<Items<Expr>, AllocError>
    ensures { IfOk result (λ y. y ≡ map (spec.resolved_expr scope.now) exprs.now) }
{
    let mut done = Items::new(alloc);
    for expr in exprs {
        done.push(resolve_expr(alloc, scope, expr)?)?;
    }
    Ok(done)
}

#[cycle(resolve_expr)]
fn resolve_part(alloc: Global, scope: &Scope, part: &ChainPart) -> Result<ChainPart, AllocError>
    ensures { IfOk result (λ y. y ≡ spec.resolved_part scope.now part.now) }
{
    Ok(ChainPart {
        op: part.op,
        operand: resolve_expr(alloc, scope, &part.operand)?,
    })
}

#[cycle(resolve_expr)]
#[tactic(auto, using(crate::proofs::Turns::turns))]
fn resolve_parts(
    alloc: Global,
    scope: &Scope,
    parts: &[ChainPart],
) -> Result<Items<ChainPart>, AllocError>
    ensures { IfOk result (λ y. y ≡ map (spec.resolved_part scope.now) parts.now) }
{
    let mut done = Items::new(alloc);
    for part in parts {
        done.push(resolve_part(alloc, scope, part)?)?;
    }
    Ok(done)
}

/// An expression in which each constant, and a `-` directly before it, is the number that it stands for. Other names stay.
#[cycle(resolve_expr)]
#[tactic(auto, using(crate::proofs::Resolutions::resolved_by_form))]
pub fn resolve_expr(alloc: Global, scope: &Scope, expr: &Expr) -> Result<Expr, AllocError>
    ensures { IfOk result (λ y. y ≡ spec.resolved_expr scope.now expr.now) }
{
    match expr {
        Expr::Number(number) => Ok(Expr::Number(*number)),
        Expr::True => Ok(Expr::True),
        Expr::False => Ok(Expr::False),
        Expr::Name(name) => resolve_name(alloc, scope, name),
        Expr::Call(name, arguments) => Ok(Expr::Call(
            copy_name(alloc, name)?,
            resolve_exprs(alloc, scope, arguments.as_slice())?,
        )),
        Expr::Element(name, index) => Ok(Expr::Element(
            copy_name(alloc, name)?,
            resolve_boxed(alloc, scope, index.get())?,
        )),
        Expr::Convert(kind, expr) => Ok(Expr::Convert(
            *kind,
            resolve_boxed(alloc, scope, expr.get())?,
        )),
        Expr::Throw(code) => Ok(Expr::Throw(*code)),
        Expr::Paren(expr) => Ok(Expr::Paren(resolve_boxed(alloc, scope, expr.get())?)),
        Expr::Minus(expr) => resolve_minus(alloc, scope, expr.get()),
        Expr::Not(expr) => Ok(Expr::Not(resolve_boxed(alloc, scope, expr.get())?)),
        Expr::Chain(first, parts) => Ok(Expr::Chain(
            resolve_boxed(alloc, scope, first.get())?,
            resolve_parts(alloc, scope, parts.as_slice())?,
        )),
        Expr::Compare(op, left, right) => Ok(Expr::Compare(
            *op,
            resolve_boxed(alloc, scope, left.get())?,
            resolve_boxed(alloc, scope, right.get())?,
        )),
        Expr::All(exprs) => Ok(Expr::All(resolve_exprs(alloc, scope, exprs.as_slice())?)),
        Expr::Any(exprs) => Ok(Expr::Any(resolve_exprs(alloc, scope, exprs.as_slice())?)),
        Expr::If(test, then, other) => Ok(Expr::If(
            resolve_boxed(alloc, scope, test.get())?,
            resolve_boxed(alloc, scope, then.get())?,
            resolve_boxed(alloc, scope, other.get())?,
        )),
    }
}

/// A place, its index without constants.
pub fn resolve_place(alloc: Global, scope: &Scope, place: &Place) -> Result<Place, AllocError>
    ensures { IfOk result (λ y. y ≡ spec.resolved_place scope.now place.now) }
{
    Ok(Place {
        array: copy_name(alloc, &place.array)?,
        index: resolve_expr(alloc, scope, &place.index)?,
    })
}
