//! Expressions.

use crate::name::Name;
use pts_types::{Kind, ScalarOp};
use sqlite_items::{Boxed, Items};

/// An expression. Parentheses are kept, so that an expression has one spelling.
#[cycle(expr)]
#[derive(Debug, Drop)]
pub enum Expr {
    Number(u64),
    True,
    False,
    Name(Name),
    Call(Name, Items<Expr>),
    Element(Name, Boxed<Expr>),
    Convert(Kind, Boxed<Expr>),
    Throw(u64),
    Paren(Boxed<Expr>),
    Minus(Boxed<Expr>),
    Not(Boxed<Expr>),
    /// At least one part, and operators of one level: `* / %`, `+ -` or `& | ^`.
    Chain(Boxed<Expr>, Items<ChainPart>),
    Compare(ScalarOp, Boxed<Expr>, Boxed<Expr>),
    /// At least two members with `&&` between them.
    All(Items<Expr>),
    /// At least two members with `||` between them.
    Any(Items<Expr>),
    If(Boxed<Expr>, Boxed<Expr>, Boxed<Expr>),
}

/// An operator of a chain and the operand on its right.
#[cycle(expr)]
#[derive(Debug, Drop)]
pub struct ChainPart {
    pub op: ScalarOp,
    pub operand: Expr,
}

/// An element of an array at an index that is computed.
#[derive(Debug, Drop)]
pub struct Place {
    pub array: Name,
    pub index: Expr,
}
