//! Numbers, sums and values that are held against a kind.

ghost use Rattle.std.specs.Prelude.{◌≡◌};
ghost use Rattle.pts_tree.specs.Spelling.{if_there};
ghost use Rattle.pts_rules.specs.Known as known;

use pts_rules::{Scope, sum_value};
use pts_tree::{Sum, Val};
use pts_types::Kind;

/// Whether the number is one of the kind. 0 and 1 are those of `bool`.
pub fn holds(kind: Kind, number: i128) -> bool
    ensures { result ≡ known.holds kind number }
{
    match kind {
        Kind::I64 => i128::from(i64::MIN) <= number && number <= i128::from(i64::MAX),
        Kind::U64 => 0 <= number && number <= i128::from(u64::MAX),
        Kind::Bool => 0 <= number && number <= 1,
    }
}

/// Whether the kind is `u64` or `i64`.
pub fn is_number(kind: Kind) -> bool
    ensures { result ≡ known.is_number kind }
{
    kind != Kind::Bool
}

/// Whether a sum has a value that is a number of the kind.
pub fn sum_fits(scope: &Scope, kind: Kind, sum: &Sum) -> bool
    ensures { result ≡ known.sum_is scope.now (known.holds kind) sum.now }
{
    match sum_value(scope, sum) {
        Some(number) => holds(kind, number),
        None => false,
    }
}

/// Whether the optional sum, where it is there, has a value that is a number of the kind.
pub fn optional_sum_fits(scope: &Scope, kind: Kind, sum: &Option<Sum>) -> bool
    ensures { result ≡ if_there (known.sum_is scope.now (known.holds kind)) sum.now }
{
    match sum {
        Some(sum) => sum_fits(scope, kind, sum),
        None => true,
    }
}

/// Whether a sum has a value from 0 to the greatest `i64`.
pub fn is_place(scope: &Scope, sum: &Sum) -> bool
    ensures { result ≡ known.sum_is scope.now known.is_place sum.now }
{
    match sum_value(scope, sum) {
        Some(number) => 0 <= number && number <= i128::from(i64::MAX),
        None => false,
    }
}

/// Whether a value may be given for the kind.
pub fn val_fits(scope: &Scope, kind: Kind, value: &Val) -> bool
    ensures { result ≡ known.val_fits scope.now kind value.now }
{
    match value {
        Val::Sum(sum) => sum_fits(scope, kind, sum),
        _ => kind == Kind::Bool,
    }
}

/// Whether the optional value, where it is there, may be given for the kind.
pub fn optional_val_fits(scope: &Scope, kind: Kind, value: &Option<Val>) -> bool
    ensures { result ≡ if_there (known.val_fits scope.now kind) value.now }
{
    match value {
        Some(value) => val_fits(scope, kind, value),
        None => true,
    }
}
