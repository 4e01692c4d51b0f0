//! A value with its sign turned, and a value in another kind.

ghost use Rattle.std.specs.Prelude.{◌≡◌};
ghost use Rattle.pts_types.specs.Arithmetic.{converted, kind_of, negated};

use crate::operation::exact;
use crate::value::{Kind, Thrown, Value};

/// Unary minus on an `i64`. Overflow comes for the least value alone.
pub fn negate(x: Value) -> Result<Value, Thrown>
    requires { kind_of x ≡ Kind.I64 }
    ensures { result ≡ negated x }
{
    match x {
        Value::I64(value) => exact(value.checked_neg()),
        _ => unreachable!(),
    }
}

/// The value in the kind `to`: an `i64` becomes a `u64` modulo 2^64, a `bool` 0 or 1, and a number becomes a `bool` as
/// "is not 0". Overflow comes for a `u64` above the greatest `i64` that is converted to `i64`, and nothing else is thrown.
pub fn convert(to: Kind, x: Value) -> Result<Value, Thrown>
    ensures { result ≡ converted to x }
{
    match (to, x) {
        (Kind::U64, Value::I64(value)) => Ok(Value::U64(value.cast_unsigned())),
        (Kind::U64, Value::Bool(value)) => Ok(Value::U64(u64::from(value))),
        (Kind::I64, Value::U64(value)) => exact(i64::try_from(value).ok()),
        (Kind::I64, Value::Bool(value)) => Ok(Value::I64(i64::from(value))),
        (Kind::Bool, Value::I64(value)) => Ok(Value::Bool(value != 0)),
        (Kind::Bool, Value::U64(value)) => Ok(Value::Bool(value != 0)),
        _ => Ok(x),
    }
}
