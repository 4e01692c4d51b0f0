//! Lengths of arrays.

ghost use Rattle.std.specs.Prelude.{◌≡◌, ◌<◌, ◌^◌, IsTrue};
ghost use Rattle.pts_rules.specs.Known as known;

use pts_limits::number;
use pts_rules::Scope;
use pts_tree::Sum;

/// The length of an array, from 0 to 9223372036854775807.
pub fn length_of(scope: &Scope, sum: &Sum) -> usize
    requires { IsTrue (known.sum_is scope.now known.is_place sum.now) }
    ensures value { result ≡ known.natural (known.number scope.now sum.now) }
    ensures small { result < 2 ^ 63 }
{
    number(scope, sum) as usize
}
