//! Steps on values that have a meaning at values of every kind.

ghost use Rattle.std.specs.Prelude.{◌≡◌, ◌<◌, ◌^◌, Err, MatchOption, Ok, nat_abs, neg_ℤ, pos};
ghost use Rattle.pts_types.specs.Arithmetic as arithmetic;
ghost use Rattle.pts_code.specs.Outcomes as spec;
ghost use Rattle.pts_code.specs.Values as valued;

use pts_types::{Kind, ScalarOp, Thrown, Value, apply, negate};

/// The value of a kind with this number; with 0 where the kind does not hold it.
pub fn number_value(kind: Kind, number: i128) -> Value
    ensures { result ≡ valued.number_value kind number }
{
    match kind {
        Kind::I64 => Value::I64(i64::try_from(number).unwrap_or(0)),
        Kind::U64 => Value::U64(u64::try_from(number).unwrap_or(0)),
        Kind::Bool => Value::Bool(number == 1),
    }
}

/// The same of a number that a script writes.
pub fn literal_value(kind: Kind, number: u64) -> Value
    ensures { result ≡ valued.number_value kind (pos number) }
{
    number_value(kind, i128::from(number))
}

/// The code of a `throw`, which is at most 999.
pub fn throw_code(code: u64) -> u16
    ensures { result ≡ valued.throw_code code }
{
    code.min(999) as u16
}

/// A number with its sign turned.
pub fn opposite(number: i128) -> i128
    requires { nat_abs number < 2 ^ 64 }
    ensures value { result ≡ neg_ℤ number }
    ensures small { nat_abs result < 2 ^ 64 }
{
    -number
}

/// Whether it is true.
pub fn is_true(value: Value) -> bool
    ensures { result ≡ spec.is_true value }
{
    match value {
        Value::Bool(truth) => truth,
        _ => false,
    }
}

/// A truth turned round; any other value stands for itself.
pub fn inverted(value: Value) -> Value
    ensures { result ≡ spec.inverted value }
{
    match value {
        Value::Bool(truth) => Value::Bool(!truth),
        _ => value,
    }
}

/// Unary minus on an `i64`; any other value stands for itself.
pub fn negated(value: Value) -> Result<Value, Thrown>
    ensures { result ≡ arithmetic.negated value }
{
    match value {
        Value::I64(_) => negate(value),
        _ => Ok(value),
    }
}

// The result of an operation that has one in the range of `i64`.
#[inline(always)]
fn exact(found: Option<i64>) -> Result<Value, Thrown>
    ensures { MatchOption found (result ≡ Err Thrown.Overflow) (λ z. result ≡ Ok (Value.I64 z)) }
{
    match found {
        Some(number) => Ok(Value::I64(number)),
        None => Err(Thrown::Overflow),
    }
}

// `apply` takes its values and gives its result in memory, which costs more than most operations do. So the commonest stand
// here, and the others behind a call that takes numbers.

#[inline(never)]
fn rarer_u64(op: ScalarOp, x: u64, y: u64) -> Result<Value, Thrown>
    ensures { result ≡ arithmetic.u64_under op x y }
{
    apply(op, Value::U64(x), Value::U64(y))
}

#[inline(never)]
fn rarer_i64(op: ScalarOp, x: i64, y: i64) -> Result<Value, Thrown>
    ensures { result ≡ arithmetic.i64_under op x y }
{
    apply(op, Value::I64(x), Value::I64(y))
}

#[inline(always)]
fn operated_u64(op: ScalarOp, x: u64, y: u64) -> Result<Value, Thrown>
    ensures { result ≡ arithmetic.u64_under op x y }
{
    match op {
        ScalarOp::Plus => Ok(Value::U64(x.wrapping_add(y))),
        ScalarOp::Minus => Ok(Value::U64(x.wrapping_sub(y))),
        ScalarOp::Multiplies => Ok(Value::U64(x.wrapping_mul(y))),
        ScalarOp::BitAnd => Ok(Value::U64(x & y)),
        ScalarOp::BitOr => Ok(Value::U64(x | y)),
        ScalarOp::BitXor => Ok(Value::U64(x ^ y)),
        ScalarOp::Modulus if y != 0 => Ok(Value::U64(x % y)),
        ScalarOp::Less => Ok(Value::Bool(x < y)),
        ScalarOp::LessEqual => Ok(Value::Bool(x <= y)),
        ScalarOp::Greater => Ok(Value::Bool(x > y)),
        ScalarOp::GreaterEqual => Ok(Value::Bool(x >= y)),
        ScalarOp::Equal => Ok(Value::Bool(x == y)),
        ScalarOp::NotEqual => Ok(Value::Bool(x != y)),
        _ => rarer_u64(op, x, y),
    }
}

#[inline(always)]
fn operated_i64(op: ScalarOp, x: i64, y: i64) -> Result<Value, Thrown>
    ensures { result ≡ arithmetic.i64_under op x y }
{
    match op {
        ScalarOp::Plus => exact(x.checked_add(y)),
        ScalarOp::Minus => exact(x.checked_sub(y)),
        ScalarOp::Multiplies => exact(x.checked_mul(y)),
        ScalarOp::Less => Ok(Value::Bool(x < y)),
        ScalarOp::LessEqual => Ok(Value::Bool(x <= y)),
        ScalarOp::Greater => Ok(Value::Bool(x > y)),
        ScalarOp::GreaterEqual => Ok(Value::Bool(x >= y)),
        ScalarOp::Equal => Ok(Value::Bool(x == y)),
        ScalarOp::NotEqual => Ok(Value::Bool(x != y)),
        _ => rarer_i64(op, x, y),
    }
}

#[inline(always)]
fn operated_bool(op: ScalarOp, x: bool, y: bool) -> bool
    ensures { result ≡ arithmetic.bool_under op x y }
{
    if op == ScalarOp::NotEqual {
        x != y
    } else {
        x == y
    }
}

/// An operation on two values; where they have none, the first stands for it.
#[inline(always)]
pub fn operated(op: ScalarOp, x: Value, y: Value) -> Result<Value, Thrown>
    ensures { result ≡ arithmetic.value_under op x y }
{
    match (x, y) {
        (Value::U64(x), Value::U64(y)) => operated_u64(op, x, y),
        (Value::I64(x), Value::I64(y)) => operated_i64(op, x, y),
        (Value::Bool(x), Value::Bool(y)) => Ok(Value::Bool(operated_bool(op, x, y))),
        _ => Ok(x),
    }
}
