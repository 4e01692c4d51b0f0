//! Tables of values at the edges of both kinds, from two's complement by hand.

use crate::{Kind, ScalarOp, Thrown, Value, apply, convert, identity, negate};

const HALF: u64 = 9_223_372_036_854_775_808;

fn natural(n: u64) -> Result<Value, Thrown> {
    Ok(Value::U64(n))
}

fn whole(z: i64) -> Result<Value, Thrown> {
    Ok(Value::I64(z))
}

fn truth(b: bool) -> Result<Value, Thrown> {
    Ok(Value::Bool(b))
}

#[test]
fn operations_on_u64(rt: HostRuntime) {
    let table = [
        (ScalarOp::Plus, u64::MAX, 1, natural(0)),
        (ScalarOp::Plus, HALF, HALF, natural(0)),
        (
            ScalarOp::Plus,
            u64::MAX,
            u64::MAX,
            natural(18_446_744_073_709_551_614),
        ),
        (ScalarOp::Minus, 0, 1, natural(18_446_744_073_709_551_615)),
        (ScalarOp::Minus, 5, 5, natural(0)),
        (
            ScalarOp::Multiplies,
            4_294_967_296,
            4_294_967_296,
            natural(0),
        ),
        (ScalarOp::Multiplies, u64::MAX, u64::MAX, natural(1)),
        (
            ScalarOp::Divides,
            u64::MAX,
            2,
            natural(9_223_372_036_854_775_807),
        ),
        (ScalarOp::Divides, 7, 0, Err(Thrown::DivZero)),
        (
            ScalarOp::Modulus,
            u64::MAX,
            HALF,
            natural(9_223_372_036_854_775_807),
        ),
        (ScalarOp::Modulus, 0, 0, Err(Thrown::DivZero)),
        (ScalarOp::BitAnd, 12, 10, natural(8)),
        (ScalarOp::BitOr, 12, 10, natural(14)),
        (ScalarOp::BitXor, 12, 10, natural(6)),
        (ScalarOp::Min, u64::MAX, 0, natural(0)),
        (ScalarOp::Max, HALF, 1, natural(9_223_372_036_854_775_808)),
        (ScalarOp::Less, HALF, 1, truth(false)),
        (ScalarOp::LessEqual, HALF, HALF, truth(true)),
        (ScalarOp::Greater, HALF, 1, truth(true)),
        (ScalarOp::GreaterEqual, 0, 1, truth(false)),
        (ScalarOp::Equal, 0, u64::MAX, truth(false)),
        (ScalarOp::NotEqual, 0, u64::MAX, truth(true)),
    ];
    for (op, x, y, want) in table {
        assert_eq!(rt;
            apply(op, Value::U64(x), Value::U64(y)),
            want,
            "{op:?} of {x} and {y}"
        );
    }
}

#[test]
fn operations_on_i64(rt: HostRuntime) {
    let table = [
        (ScalarOp::Plus, i64::MAX, 1, Err(Thrown::Overflow)),
        (ScalarOp::Plus, i64::MIN, -1, Err(Thrown::Overflow)),
        (ScalarOp::Plus, i64::MAX, i64::MIN, whole(-1)),
        (ScalarOp::Minus, 0, i64::MIN, Err(Thrown::Overflow)),
        (
            ScalarOp::Minus,
            -1,
            i64::MIN,
            whole(9_223_372_036_854_775_807),
        ),
        (ScalarOp::Multiplies, i64::MIN, -1, Err(Thrown::Overflow)),
        (
            ScalarOp::Multiplies,
            3_037_000_500,
            3_037_000_500,
            Err(Thrown::Overflow),
        ),
        (
            ScalarOp::Multiplies,
            3_037_000_499,
            3_037_000_499,
            whole(9_223_372_030_926_249_001),
        ),
        (
            ScalarOp::Multiplies,
            -4_294_967_296,
            2_147_483_648,
            whole(i64::MIN),
        ),
        (ScalarOp::Divides, -7, 2, whole(-3)),
        (ScalarOp::Divides, 7, -2, whole(-3)),
        (ScalarOp::Divides, -7, -2, whole(3)),
        (ScalarOp::Divides, i64::MIN, 1, whole(i64::MIN)),
        (ScalarOp::Divides, i64::MIN, -1, Err(Thrown::Overflow)),
        (ScalarOp::Divides, i64::MIN, 0, Err(Thrown::DivZero)),
        (ScalarOp::Modulus, -7, 2, whole(-1)),
        (ScalarOp::Modulus, 7, -2, whole(1)),
        (ScalarOp::Modulus, -7, -2, whole(-1)),
        (ScalarOp::Modulus, 5, -1, whole(0)),
        (ScalarOp::Modulus, i64::MIN, -1, Err(Thrown::Overflow)),
        (ScalarOp::Modulus, i64::MIN, 0, Err(Thrown::DivZero)),
    ];
    for (op, x, y, want) in table {
        assert_eq!(rt;
            apply(op, Value::I64(x), Value::I64(y)),
            want,
            "{op:?} of {x} and {y}"
        );
    }
}

#[test]
fn bits_and_order_on_i64(rt: HostRuntime) {
    let table = [
        (ScalarOp::BitAnd, -1, 5, whole(5)),
        (ScalarOp::BitAnd, -2, -3, whole(-4)),
        (ScalarOp::BitAnd, i64::MIN, i64::MAX, whole(0)),
        (ScalarOp::BitOr, -2, -3, whole(-1)),
        (
            ScalarOp::BitOr,
            i64::MIN,
            1,
            whole(-9_223_372_036_854_775_807),
        ),
        (ScalarOp::BitXor, -1, 5, whole(-6)),
        (ScalarOp::BitXor, i64::MIN, i64::MAX, whole(-1)),
        (ScalarOp::Min, i64::MIN, i64::MAX, whole(i64::MIN)),
        (ScalarOp::Max, -1, -2, whole(-1)),
        (ScalarOp::Less, -1, 0, truth(true)),
        (ScalarOp::LessEqual, i64::MAX, i64::MIN, truth(false)),
        (ScalarOp::Greater, i64::MAX, i64::MIN, truth(true)),
        (ScalarOp::GreaterEqual, -3, -3, truth(true)),
        (ScalarOp::Equal, -1, 1, truth(false)),
        (ScalarOp::NotEqual, -1, 1, truth(true)),
    ];
    for (op, x, y, want) in table {
        assert_eq!(rt;
            apply(op, Value::I64(x), Value::I64(y)),
            want,
            "{op:?} of {x} and {y}"
        );
    }
}

#[test]
fn truths_are_compared(rt: HostRuntime) {
    for (x, y, same) in [
        (true, true, true),
        (false, false, true),
        (true, false, false),
        (false, true, false),
    ] {
        let (x, y) = (Value::Bool(x), Value::Bool(y));
        assert_eq!(rt; apply(ScalarOp::Equal, x, y), truth(same));
        assert_eq!(rt; apply(ScalarOp::NotEqual, x, y), truth(!same));
    }
}

#[test]
fn signs_and_conversions(rt: HostRuntime) {
    for (x, want) in [
        (i64::MIN, Err(Thrown::Overflow)),
        (i64::MAX, whole(-9_223_372_036_854_775_807)),
        (0, whole(0)),
    ] {
        assert_eq!(rt; negate(Value::I64(x)), want);
    }
    let table = [
        (
            Kind::U64,
            Value::I64(-1),
            natural(18_446_744_073_709_551_615),
        ),
        (
            Kind::U64,
            Value::I64(i64::MIN),
            natural(9_223_372_036_854_775_808),
        ),
        (Kind::U64, Value::Bool(true), natural(1)),
        (
            Kind::U64,
            Value::U64(u64::MAX),
            natural(18_446_744_073_709_551_615),
        ),
        (
            Kind::I64,
            Value::U64(9_223_372_036_854_775_807),
            whole(i64::MAX),
        ),
        (Kind::I64, Value::U64(HALF), Err(Thrown::Overflow)),
        (Kind::I64, Value::I64(i64::MIN), whole(i64::MIN)),
        (Kind::I64, Value::Bool(false), whole(0)),
        (Kind::Bool, Value::U64(0), truth(false)),
        (Kind::Bool, Value::I64(i64::MIN), truth(true)),
        (Kind::Bool, Value::Bool(false), truth(false)),
    ];
    for (to, x, want) in table {
        assert_eq!(rt; convert(to, x), want, "{x:?} to {to:?}");
    }
    assert_eq!(rt; Value::default(), Value::U64(0));
}

#[test]
fn identities_of_the_seven_operations(rt: HostRuntime) {
    let (x, n) = (Value::I64(-9), Value::U64(9));
    assert_eq!(rt; identity(ScalarOp::Plus, x), Value::I64(0));
    assert_eq!(rt; identity(ScalarOp::Multiplies, x), Value::I64(1));
    assert_eq!(rt; identity(ScalarOp::BitAnd, x), Value::I64(-1));
    assert_eq!(rt; identity(ScalarOp::BitOr, x), Value::I64(0));
    assert_eq!(rt; identity(ScalarOp::BitXor, x), Value::I64(0));
    assert_eq!(rt; identity(ScalarOp::Min, x), x);
    assert_eq!(rt; identity(ScalarOp::Max, x), x);
    assert_eq!(rt; identity(ScalarOp::Multiplies, n), Value::U64(1));
    assert_eq!(rt;
        identity(ScalarOp::BitAnd, n),
        Value::U64(18_446_744_073_709_551_615)
    );
    assert_eq!(rt; identity(ScalarOp::BitXor, n), Value::U64(0));
    assert_eq!(rt; identity(ScalarOp::Min, n), n);
}

// x / y + x % y.
fn quotient_and_remainder(x: i64, y: i64) -> Result<Value, Thrown> {
    let (x, y) = (Value::I64(x), Value::I64(y));
    match (
        apply(ScalarOp::Divides, x, y)?,
        apply(ScalarOp::Modulus, x, y)?,
    ) {
        (Value::I64(quotient), Value::I64(remainder)) => {
            apply(ScalarOp::Plus, Value::I64(quotient), Value::I64(remainder))
        }
        (other, _) => Ok(other),
    }
}

#[test]
fn a_quotient_and_its_remainder(rt: HostRuntime) {
    assert_eq!(rt; quotient_and_remainder(-7, 2), whole(-4));
    assert_eq!(rt; quotient_and_remainder(7, 0), Err(Thrown::DivZero));
    assert_eq!(rt; quotient_and_remainder(i64::MIN, -1), Err(Thrown::Overflow));
}
