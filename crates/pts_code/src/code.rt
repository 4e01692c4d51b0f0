//! Expressions with numbers in place of names.

use pts_types::{Kind, ScalarOp, Value};
use sqlite_items::{Boxed, Items};

/// What computes a value. Literals are values of their kind, and there are no parentheses.
#[cycle(code)]
#[derive(Debug, Drop)]
pub enum Code {
    Value(Value),
    /// The value at this place of the frame.
    Local(usize),
    /// What was noted at this place: a value, or a fault that is thrown where it is taken.
    Note(usize),
    Throw(u16),
    /// The function of this number at the values of its arguments.
    Call(usize, Items<Code>),
    Convert(Kind, Boxed<Code>),
    Negate(Boxed<Code>),
    Not(Boxed<Code>),
    /// Operations from the left, comparisons among them.
    Chain(Boxed<Code>, Items<Step>),
    All(Items<Code>),
    Any(Items<Code>),
    If(Boxed<Code>, Boxed<Code>, Boxed<Code>),
}

/// An operation on what was computed so far and an operand.
#[cycle(code)]
#[derive(Debug, Drop)]
pub struct Step {
    pub op: ScalarOp,
    pub operand: Code,
}
