//! What arrays start with.

ghost use Rattle.std.specs.Prelude.{◌≡◌, ◌<◌, ◌^◌, IfSome, true};
ghost use Rattle.std.specs.List.{list_all, range_with_len};
ghost use Rattle.pts_types.specs.declared.value.Kind.TheVariants as kinds;
ghost use Rattle.pts_rules.specs.Known as known;
ghost use Rattle.pts_rules.specs.Mistyped as spec;
ghost use Rattle.pts_kinds.specs.Shown.{array_right, place_of};

use crate::numbers::{holds, sum_fits, val_fits};
use pts_rules::{Scope, sum_value};
use pts_tree::{ArrayDecl, Start, Sum, Val};
use pts_types::Kind;

#[tactic(auto, using(crate::proofs::Every::every))]
fn vals_fit(scope: &Scope, kind: Kind, values: &[Val]) -> bool
    ensures { result ≡ list_all (known.val_fits scope.now kind) values.now }
{
    for value in values {
        if !val_fits(scope, kind, value) {
            return false;
        }
    }
    true
}

// Whether each cell of a line is an `i64`, which it is where the first and the last one are.

fn line_fits(first: i128, step: i128, length: u64) -> bool
    requires first { known.holds kinds.I64 first ≡ true }
    requires step { known.holds kinds.I64 step ≡ true }
    requires length { length < 2 ^ 63 }
    ensures { result ≡ list_all (λ j. known.holds kinds.I64 (spec.iota_cell first step j)) (range_with_len 0 length) }
{
    if length == 0 {
        return true;
    }
    let last = first + i128::from(length - 1) * step;
    holds(Kind::I64, last)
}

fn i64_line_fits(scope: &Scope, length: u64, first: &Sum, step: &Sum) -> bool
    requires { length < 2 ^ 63 }
    ensures { result ≡ spec.iota_right scope.now kinds.I64 length first.now step.now }
{
    match (sum_value(scope, first), sum_value(scope, step)) {
        (Some(first), Some(step)) => {
            holds(Kind::I64, first) && holds(Kind::I64, step) && line_fits(first, step, length)
        }
        _ => false,
    }
}

fn iota_right(scope: &Scope, kind: Kind, length: u64, first: &Sum, step: &Sum) -> bool
    requires { length < 2 ^ 63 }
    ensures { result ≡ spec.iota_right scope.now kind length first.now step.now }
{
    match kind {
        Kind::Bool => false,
        Kind::U64 => sum_fits(scope, kind, first) && sum_fits(scope, kind, step),
        Kind::I64 => i64_line_fits(scope, length, first, step),
    }
}

fn start_right(scope: &Scope, kind: Kind, length: u64, start: &Start) -> bool
    requires { length < 2 ^ 63 }
    ensures { result ≡ spec.start_right scope.now kind length start.now }
{
    match start {
        Start::List(values) => vals_fit(scope, kind, values.as_slice()),
        Start::Fill(value) => val_fits(scope, kind, value),
        Start::Iota(first, step) => iota_right(scope, kind, length, first, step),
        Start::Mix(seed) => kind == Kind::U64 && sum_fits(scope, Kind::U64, seed),
    }
}

// The value of a sum, where it is from 0 to the greatest `i64`.
fn length_of(scope: &Scope, sum: &Sum) -> Option<u64>
    ensures value { result ≡ place_of (known.sum_value scope.now sum.now) }
    ensures small { IfSome result (λ n. n < 2 ^ 63) }
{
    let length = i64::try_from(sum_value(scope, sum)?).ok()?;
    u64::try_from(length).ok()
}

/// Whether the length and the values of an array are right.

pub fn array_right(scope: &Scope, array: &ArrayDecl) -> bool
    ensures { result ≡ array_right scope.now array.now }
{
    match length_of(scope, &array.length) {
        Some(length) => start_right(scope, array.kind, length, &array.start),
        None => false,
    }
}
