//! What an accumulator begins with.

ghost use Rattle.std.specs.Prelude.{◌≡◌, ◌≢◌};
ghost use Rattle.pts_types.specs.declared.value.Kind.{Kind};
ghost use Rattle.pts_types.specs.Arithmetic.{IsReduction, identity_of, kind_of};

use crate::operation::ScalarOp;
use crate::value::Value;

/// The identity of one of the seven operations of a reduction, in the kind of the live value, which is `i64` or `u64`
/// ([parallel.alg.reductions] of the parallelism extensions): 0 of `Plus`, `BitOr` and `BitXor`, 1 of `Multiplies`, all bits
/// one of `BitAnd`, and the live value itself of `Min` and `Max`.
pub fn identity(op: ScalarOp, live: Value) -> Value
    requires operation { IsReduction op }
    requires kind { kind_of live ≢ Kind.Bool }
    ensures { result ≡ identity_of op live }
{
    match (op, live) {
        (ScalarOp::Multiplies, Value::U64(_)) => Value::U64(1),
        (ScalarOp::Multiplies, Value::I64(_)) => Value::I64(1),
        (ScalarOp::BitAnd, Value::U64(_)) => Value::U64(u64::MAX),
        (ScalarOp::BitAnd, Value::I64(_)) => Value::I64(-1),
        (ScalarOp::Min | ScalarOp::Max, _) => live,
        (_, Value::U64(_)) => Value::U64(0),
        (_, Value::I64(_)) => Value::I64(0),
        _ => unreachable!(),
    }
}
