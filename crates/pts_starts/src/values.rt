//! Single values.

ghost use Rattle.std.specs.Prelude.{◌≡◌, IsTrue};
ghost use Rattle.pts_rules.specs.Known as known;
ghost use Rattle.pts_starts.specs.Starts as spec;

use pts_rules::{Scope, sum_value};
use pts_tree::Val;
use pts_types::{Kind, Value};

/// The value of a kind with a number that the kind has.
pub fn value_with(kind: Kind, number: i128) -> Value
    requires { IsTrue (known.holds kind number) }
    ensures { result ≡ spec.value_with kind number }
{
    match kind {
        Kind::I64 => Value::I64(number as i64),
        Kind::U64 => Value::U64(number as u64),
        Kind::Bool => Value::Bool(number != 0),
    }
}

/// A value that is given for a kind and fits it.
pub fn value_of_val(scope: &Scope, kind: Kind, val: &Val) -> Value
    requires { IsTrue (known.val_fits scope.now kind val.now) }
    ensures { result ≡ spec.value_of_val scope.now kind val.now }
{
    match val {
        Val::Sum(sum) => match sum_value(scope, sum) {
            Some(number) => value_with(kind, number),
            None => Value::default(),
        },
        Val::True => Value::Bool(true),
        Val::False => Value::Bool(false),
    }
}
