//! Operations on two values, and the policies under which algorithms apply them.

ghost use Rattle.std.specs.Prelude.{◌≡◌, Ok, Err, MatchOption};
ghost use Rattle.pts_types.specs.declared.value.Kind.{Kind};
ghost use Rattle.pts_types.specs.Arithmetic.{IsEquality, bool_under, i64_under, kind_of, u64_under, value_under};

use crate::value::{Thrown, Value};

/// An operation on two values of one kind.
#[derive(Clone, Copy, Debug, PartialEq, Eq, Hash)]
pub enum ScalarOp {
    Plus,
    Minus,
    Multiplies,
    Divides,
    Modulus,
    BitAnd,
    BitOr,
    BitXor,
    Min,
    Max,
    Less,
    LessEqual,
    Greater,
    GreaterEqual,
    Equal,
    NotEqual,
}

/// An execution policy of the C++ standard library or of its parallelism extensions
/// ([execpol] of C++17, [parallel.execpol] of the extensions). `Vector` is the one that a script writes `vec`.
#[derive(Clone, Copy, Debug, PartialEq, Eq, Hash)]
pub enum Policy {
    Seq,
    Par,
    ParUnseq,
    Unseq,
    Vector,
}

/// The operation on two values of one kind, which is `bool` for `Equal` and `NotEqual` alone.
///
/// On `u64`, `Plus`, `Minus` and `Multiplies` are modulo 2^64. On `i64` they are exact, and Overflow comes where the
/// result is out of range. `Divides` and `Modulus` round the quotient towards zero, so that a remainder has the
/// dividend's sign ([expr.mul] of C++17); DivZero comes where the divisor is 0, and Overflow for the least `i64` by -1.
/// The bitwise operations on `i64` are those of two's complement. Nothing else is thrown.
pub fn apply(op: ScalarOp, x: Value, y: Value) -> Result<Value, Thrown>
    requires kinds { kind_of x ≡ kind_of y }
    requires operation { kind_of x ≡ Kind.Bool → IsEquality op }
    ensures { result ≡ value_under op x y }
{
    match (x, y) {
        (Value::U64(x), Value::U64(y)) => apply_u64(op, x, y),
        (Value::I64(x), Value::I64(y)) => apply_i64(op, x, y),
        (Value::Bool(x), Value::Bool(y)) => Ok(Value::Bool(apply_bool(op, x, y))),
        _ => unreachable!(),
    }
}

fn apply_u64(op: ScalarOp, x: u64, y: u64) -> Result<Value, Thrown>
    ensures { result ≡ u64_under op x y }
{
    match op {
        ScalarOp::Plus => Ok(Value::U64(x.wrapping_add(y))),
        ScalarOp::Minus => Ok(Value::U64(x.wrapping_sub(y))),
        ScalarOp::Multiplies => Ok(Value::U64(x.wrapping_mul(y))),
        ScalarOp::Divides if y != 0 => Ok(Value::U64(x / y)),
        ScalarOp::Modulus if y != 0 => Ok(Value::U64(x % y)),
        ScalarOp::Divides | ScalarOp::Modulus => Err(Thrown::DivZero),
        ScalarOp::BitAnd => Ok(Value::U64(x & y)),
        ScalarOp::BitOr => Ok(Value::U64(x | y)),
        ScalarOp::BitXor => Ok(Value::U64(x ^ y)),
        ScalarOp::Min => Ok(Value::U64(x.min(y))),
        ScalarOp::Max => Ok(Value::U64(x.max(y))),
        ScalarOp::Less => Ok(Value::Bool(x < y)),
        ScalarOp::LessEqual => Ok(Value::Bool(x <= y)),
        ScalarOp::Greater => Ok(Value::Bool(x > y)),
        ScalarOp::GreaterEqual => Ok(Value::Bool(x >= y)),
        ScalarOp::Equal => Ok(Value::Bool(x == y)),
        ScalarOp::NotEqual => Ok(Value::Bool(x != y)),
    }
}

fn apply_i64(op: ScalarOp, x: i64, y: i64) -> Result<Value, Thrown>
    ensures { result ≡ i64_under op x y }
{
    match op {
        ScalarOp::Plus => exact(x.checked_add(y)),
        ScalarOp::Minus => exact(x.checked_sub(y)),
        ScalarOp::Multiplies => exact(x.checked_mul(y)),
        ScalarOp::Divides if y != 0 => exact(x.checked_div(y)),
        ScalarOp::Modulus if y != 0 => exact(x.checked_rem(y)),
        ScalarOp::Divides | ScalarOp::Modulus => Err(Thrown::DivZero),
        ScalarOp::BitAnd => Ok(Value::I64(x & y)),
        ScalarOp::BitOr => Ok(Value::I64(x | y)),
        ScalarOp::BitXor => Ok(Value::I64(x ^ y)),
        ScalarOp::Min => Ok(Value::I64(x.min(y))),
        ScalarOp::Max => Ok(Value::I64(x.max(y))),
        ScalarOp::Less => Ok(Value::Bool(x < y)),
        ScalarOp::LessEqual => Ok(Value::Bool(x <= y)),
        ScalarOp::Greater => Ok(Value::Bool(x > y)),
        ScalarOp::GreaterEqual => Ok(Value::Bool(x >= y)),
        ScalarOp::Equal => Ok(Value::Bool(x == y)),
        ScalarOp::NotEqual => Ok(Value::Bool(x != y)),
    }
}

fn apply_bool(op: ScalarOp, x: bool, y: bool) -> bool
    ensures { result ≡ bool_under op x y }
{
    if op == ScalarOp::NotEqual {
        x != y
    } else {
        x == y
    }
}

// What was found, or the overflow.
pub(crate) fn exact(found: Option<i64>) -> Result<Value, Thrown>
    ensures { MatchOption found (result ≡ Err Thrown.Overflow) (λ z. result ≡ Ok (Value.I64 z)) }
{
    match found {
        Some(value) => Ok(Value::I64(value)),
        None => Err(Thrown::Overflow),
    }
}
