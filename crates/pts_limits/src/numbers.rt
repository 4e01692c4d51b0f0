//! The numbers of sums, and the positions of loops.

ghost use Rattle.std.specs.Prelude.{◌≡◌};
ghost use Rattle.pts_rules.specs.Counts as counts;
ghost use Rattle.pts_rules.specs.Known as spec;

use pts_rules::{Scope, sum_value};
use pts_tree::{Loop, Sum};

/// The value of a sum, and 0 of one that has a name which is no constant.
pub fn number(scope: &Scope, sum: &Sum) -> i128
    ensures { result ≡ spec.number scope.now sum.now }
{
    match sum_value(scope, sum) {
        Some(value) => value,
        None => 0,
    }
}

/// The step of a loop as it is written, or 1.
pub fn step_of(scope: &Scope, step: &Option<Sum>) -> i128
    ensures { result ≡ counts.step_of scope.now step.now }
{
    match step {
        Some(step) => number(scope, step),
        None => 1,
    }
}

// How many numbers `low`, `low + step` and so on stand before `high`.
fn positions(low: i128, high: i128, step: i128) -> u128
    ensures { result ≡ counts.positions low high step }
{
    if (step > 0 && low < high) || (step < 0 && high < low) {
        1 + (high.abs_diff(low) - 1) / step.unsigned_abs()
    } else {
        0
    }
}

/// How many positions a loop has. One whose step is 0 or leads away from its end has none.
pub fn loop_positions(scope: &Scope, each: &Loop) -> u128
    ensures { result ≡ counts.loop_positions scope.now each.now }
{
    positions(
        number(scope, &each.low),
        number(scope, &each.high),
        step_of(scope, &each.step),
    )
}
