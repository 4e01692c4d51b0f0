//! The first conflict among many pairs of points.

ghost use Rattle.std.specs.Prelude.{◌≡◌, ◌≤◌, ◌^◌, All};
ghost use Rattle.pts_points.specs.declared.point.PointInfo.{PointInfo as Point};
ghost use Rattle.pts_conflict.specs.declared.found.Found.{Found as FoundPair};
ghost use Rattle.pts_conflict.specs.Search.{Across, FindsFirst, IsFit, OneOf, PairInCall, PairOfParts, rank_of};

use crate::found::{Found, lower};
use crate::points::{least_in_call, least_of_parts};
use pts_points::{CallInfo, PointInfo};

/// Which pairs of two points are looked for.
pub trait Pairs {
    ghost fits: { Self → Type 0 };

    ghost conflicts: { Self → Point → Point → FoundPair → Type 0 };

    /// The first of them.
    fn least(&self, a: &PointInfo, b: &PointInfo) -> Option<Found>
        requires fits { fits self.now }
        requires first { IsFit a.now }
        requires second { IsFit b.now }
        ensures { FindsFirst (conflicts self.now a.now b.now) rank_of result };
}

/// Pairs of one call, which does not run in order.
#[derive(Clone, Copy, Debug)]
pub struct InCall {
    pub number: usize,
    pub call: CallInfo,
    pub is_loop: bool,
}

/// Pairs of two parts of a block.
#[derive(Clone, Copy, Debug)]
pub struct BetweenParts;

impl Pairs for InCall {
    ghost fits = { λ x. x.call.positions ≤ 2 ^ 20 };

    ghost conflicts = { λ x. PairInCall x.number x.call x.is_loop };

    fn least(&self, a: &PointInfo, b: &PointInfo) -> Option<Found> {
        least_in_call(self.number, &self.call, self.is_loop, a, b)
    }
}

impl Pairs for BetweenParts {
    ghost fits = { λ x. Unit {0} };

    ghost conflicts = { λ x. PairOfParts };

    fn least(&self, a: &PointInfo, b: &PointInfo) -> Option<Found> {
        least_of_parts(a, b)
    }
}

// The first pair of this point and one of those.
#[tactic(auto, using(crate::proofs::Firsts::turns))]
fn least_beside<S: Pairs>(pairs: &S, a: &PointInfo, seconds: &[PointInfo]) -> Option<Found>
    requires fits { S.fits pairs.now }
    requires first { IsFit a.now }
    requires seconds { All IsFit seconds.now }
    ensures { FindsFirst (OneOf (S.conflicts pairs.now a.now) seconds.now) rank_of result }
{
    let mut best = None;
    for b in seconds {
        best = lower(best, pairs.least(a, b));
    }
    best
}

/// The first pair of one of the first points and one of the second ones.
pub fn least_across<S: Pairs>(
    pairs: &S,
    firsts: &[PointInfo],
    seconds: &[PointInfo],
) -> Option<Found>
    requires fits { S.fits pairs.now }
    requires firsts { All IsFit firsts.now }
    requires seconds { All IsFit seconds.now }
    ensures { FindsFirst (Across (S.conflicts pairs.now) firsts.now seconds.now) rank_of result }
{
    let mut best = None;
    for a in firsts {
        best = lower(best, least_beside(pairs, a, seconds));
    }
    best
}
