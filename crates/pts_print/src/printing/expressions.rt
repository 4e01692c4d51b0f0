//! Writing expressions.

ghost use Rattle.std.specs.Prelude.{◌≡◌, OnOk, drop};
ghost use Rattle.pts_tree.specs.Expressions as spec;
ghost use Rattle.pts_tree.specs.Spelling.{each, separated};
ghost use Rattle.pts_print.specs.Printing.{Puts};

use super::calls::{kind_mark, put_optional_mark};
use super::{put_mark, put_name, put_number};
use pts_tree::{ChainPart, Expr, Mark, Name};
use pts_types::{Kind, ScalarOp};
use std::alloc::AllocError;

fn chain_mark(op: ScalarOp) -> Option<Mark>
    ensures { result ≡ spec.chain_mark op }
{
    match op {
        ScalarOp::Multiplies => Some(Mark::Star),
        ScalarOp::Divides => Some(Mark::Slash),
        ScalarOp::Modulus => Some(Mark::Percent),
        ScalarOp::Plus => Some(Mark::PlusSign),
        ScalarOp::Minus => Some(Mark::MinusSign),
        ScalarOp::BitAnd => Some(Mark::Ampersand),
        ScalarOp::BitOr => Some(Mark::Bar),
        ScalarOp::BitXor => Some(Mark::Caret),
        _ => None,
    }
}

fn compare_mark(op: ScalarOp) -> Option<Mark>
    ensures { result ≡ spec.compare_mark op }
{
    match op {
        ScalarOp::Equal => Some(Mark::EqualEqual),
        ScalarOp::NotEqual => Some(Mark::ExclamationEqual),
        ScalarOp::Less => Some(Mark::Less),
        ScalarOp::LessEqual => Some(Mark::LessEqual),
        ScalarOp::Greater => Some(Mark::Greater),
        ScalarOp::GreaterEqual => Some(Mark::GreaterEqual),
        _ => None,
    }
}

/// A throw of a code.
pub fn put_throw(out: &mut Vec<u8>, code: u64) -> Result<(), AllocError>
    ensures { OnOk result (Puts (spec.throw code) out.old.items out.new.items) }
{
    put_mark(out, Mark::Throw)?;
    put_number(out, code)
}

#[cycle(put_expr)]
fn put_next_expr(out: &mut Vec<u8>, between: Mark, expr: &Expr) -> Result<(), AllocError>
    ensures { OnOk result (Puts (spec.next_expr between expr.now) out.old.items out.new.items) }
{
    put_mark(out, between)?;
    put_expr(out, expr)
}

// All but the first, each behind a symbol.
#[cycle(put_expr)]
#[tactic(auto, using(crate::proofs::Turns::turns))]
fn put_next_exprs(out: &mut Vec<u8>, between: Mark, exprs: &[Expr]) -> Result<(), AllocError>
    ensures { OnOk result (Puts (each (spec.next_expr between) (drop 1 exprs.now)) out.old.items out.new.items) }
{
    for at in 1..exprs.len() {
        put_next_expr(out, between, &exprs[at])?;
    }
    Ok(())
}

// Expressions with a symbol between any two.
#[cycle(put_expr)]
fn put_exprs(out: &mut Vec<u8>, between: Mark, exprs: &[Expr]) -> Result<(), AllocError>
    ensures { OnOk result (Puts (separated between spec.expr exprs.now) out.old.items out.new.items) }
{
    if exprs.is_empty() {
        return Ok(());
    }
    put_expr(out, &exprs[0])?;
    put_next_exprs(out, between, exprs)
}

#[cycle(put_expr)]
fn put_chain_part(out: &mut Vec<u8>, part: &ChainPart) -> Result<(), AllocError>
    ensures { OnOk result (Puts (spec.chain_part part.now) out.old.items out.new.items) }
{
    put_optional_mark(out, chain_mark(part.op))?;
    put_expr(out, &part.operand)
}

#[cycle(put_expr)]
#[tactic(auto, using(crate::proofs::Turns::turns))]
fn put_chain_parts(out: &mut Vec<u8>, parts: &[ChainPart]) -> Result<(), AllocError>
    ensures { OnOk result (Puts (each spec.chain_part parts.now) out.old.items out.new.items) }
{
    for part in parts {
        put_chain_part(out, part)?;
    }
    Ok(())
}

// An expression between two symbols.
#[cycle(put_expr)]
fn put_enclosed(out: &mut Vec<u8>, before: Mark, expr: &Expr, after: Mark) -> Result<(), AllocError>
    ensures { OnOk result (Puts (spec.enclosed before (spec.expr expr.now) after) out.old.items out.new.items) }
{
    put_mark(out, before)?;
    put_expr(out, expr)?;
    put_mark(out, after)
}

#[cycle(put_expr)]
fn put_arguments(out: &mut Vec<u8>, name: &Name, arguments: &[Expr]) -> Result<(), AllocError>
    ensures { OnOk result (Puts (spec.function_call name.now arguments.now) out.old.items out.new.items) }
{
    put_name(out, name)?;
    put_mark(out, Mark::OpenParen)?;
    put_exprs(out, Mark::Comma, arguments)?;
    put_mark(out, Mark::CloseParen)
}

/// An element of an array.
#[cycle(put_expr)]
pub fn put_element(out: &mut Vec<u8>, name: &Name, index: &Expr) -> Result<(), AllocError>
    ensures { OnOk result (Puts (spec.element name.now index.now) out.old.items out.new.items) }
{
    put_name(out, name)?;
    put_enclosed(out, Mark::OpenBracket, index, Mark::CloseBracket)
}

#[cycle(put_expr)]
fn put_convert(out: &mut Vec<u8>, kind: Kind, expr: &Expr) -> Result<(), AllocError>
    ensures { OnOk result (Puts (spec.convert kind expr.now) out.old.items out.new.items) }
{
    put_mark(out, kind_mark(kind))?;
    put_enclosed(out, Mark::OpenParen, expr, Mark::CloseParen)
}

/// An expression.
#[cycle(put_expr)]
#[tactic(auto, using(pts_tree::proofs::Shapes::texts))]
pub fn put_expr(out: &mut Vec<u8>, expr: &Expr) -> Result<(), AllocError>
    ensures { OnOk result (Puts (spec.expr expr.now) out.old.items out.new.items) }
{
    match expr {
        Expr::Number(number) => put_number(out, *number),
        Expr::True => put_mark(out, Mark::True),
        Expr::False => put_mark(out, Mark::False),
        Expr::Name(name) => put_name(out, name),
        Expr::Call(name, arguments) => put_arguments(out, name, arguments.as_slice()),
        Expr::Element(name, index) => put_element(out, name, index.get()),
        Expr::Convert(kind, expr) => put_convert(out, *kind, expr.get()),
        Expr::Throw(code) => put_throw(out, *code),
        Expr::Paren(expr) => put_enclosed(out, Mark::OpenParen, expr.get(), Mark::CloseParen),
        Expr::Minus(expr) => put_next_expr(out, Mark::MinusSign, expr.get()),
        Expr::Not(expr) => put_next_expr(out, Mark::Exclamation, expr.get()),
        Expr::Chain(first, parts) => {
            put_expr(out, first.get())?;
            put_chain_parts(out, parts.as_slice())
        }
        Expr::Compare(op, left, right) => {
            put_expr(out, left.get())?;
            put_optional_mark(out, compare_mark(*op))?;
            put_expr(out, right.get())
        }
        Expr::All(exprs) => put_exprs(out, Mark::AmpersandAmpersand, exprs.as_slice()),
        Expr::Any(exprs) => put_exprs(out, Mark::BarBar, exprs.as_slice()),
        Expr::If(test, then, other) => {
            put_enclosed(out, Mark::If, test.get(), Mark::Then)?;
            put_expr(out, then.get())?;
            put_next_expr(out, Mark::Else, other.get())
        }
    }
}
