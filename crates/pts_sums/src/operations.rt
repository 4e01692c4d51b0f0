//! The operations of a call on values, and what its transform gives for elements.

ghost use Rattle.std.specs.Prelude.{◌≡◌};
ghost use Rattle.pts_types.specs.Arithmetic.{bool_under};
ghost use Rattle.pts_eval.specs.Sums.{combining, item_of, item_of_pair};
ghost use Rattle.pts_groupings.specs.Laws.{given};

use crate::terms::{Combining, Transforming};
use pts_elements::call_function;
use pts_lowering::Operation;
use pts_program::Program;
use pts_types::{ScalarOp, Value, apply};

/// What one of the operations with a word gives; None where it throws.
fn apply_word(op: ScalarOp, x: Value, y: Value) -> Option<Value>
    ensures { result ≡ given op x y }
{
    match (x, y) {
        (Value::U64(_), Value::U64(_)) => apply(op, x, y).ok(),
        (Value::I64(_), Value::I64(_)) => apply(op, x, y).ok(),
        (Value::Bool(x), Value::Bool(y)) => Some(Value::Bool(equal_or_not(op, x, y))),
        _ => Some(x),
    }
}

fn equal_or_not(op: ScalarOp, x: bool, y: bool) -> bool
    ensures { result ≡ bool_under op x y }
{
    match op {
        ScalarOp::NotEqual => x != y,
        _ => x == y,
    }
}

/// What the transform of a call gives for two elements at one position, or their product where it has none; None for a throw.
pub(crate) fn pair_item(
    program: &Program,
    transform: Option<u32>,
    x: Value,
    y: Value,
) -> Option<Value>
    ensures { result ≡ item_of_pair program.now.functions transform x y }
{
    match transform {
        Some(function) => call_function(program, function, &[x, y]),
        None => apply_word(ScalarOp::Multiplies, x, y),
    }
}

/// What the transform of a call gives for an element, or the element where it has none; None for a throw.
pub(crate) fn element_item(
    program: &Program,
    transform: Option<u32>,
    element: Value,
) -> Option<Value>
    ensures { result ≡ item_of program.now.functions transform element }
{
    match transform {
        Some(function) => call_function(program, function, &[element]),
        None => Some(element),
    }
}

/// The operation of a call and its transform.
#[derive(Drop)]
pub(crate) struct Operations<'a> {
    pub program: &'a Program,
    pub operation: Operation,
    pub transform: Option<u32>,
}

impl Combining for Operations<'_> {
    ghost op = { λ o. combining o.program.now.functions o.operation };

    fn combine(&self, x: Value, y: Value) -> Option<Value> {
        match self.operation {
            Operation::Table(op) => apply_word(op, x, y),
            Operation::Function(function) => call_function(self.program, function, &[x, y]),
        }
    }
}

impl Transforming for Operations<'_> {
    ghost item = { λ o. item_of o.program.now.functions o.transform };

    fn item_of(&self, element: Value) -> Option<Value> {
        element_item(self.program, self.transform, element)
    }
}
