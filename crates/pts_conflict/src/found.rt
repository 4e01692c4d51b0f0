//! What a search has found, and the one of lower rank.

ghost use Rattle.std.specs.Prelude.{◌≡◌, [], ◌∷◌, length};
ghost use Rattle.pts_conflict.specs.Conflicts as conflicts;
ghost use Rattle.pts_conflict.specs.Search as spec;

use crate::pair::Pair;

/// A conflicting pair, and the call that it is in; none where it is between parts of a block.
#[derive(Clone, Copy, Debug, PartialEq, Eq)]
pub struct Found {
    pub call: Option<usize>,
    pub pair: Pair,
}

// The numbers that say which conflict comes first.
fn rank(found: Found) -> [u64; 8]
    ensures { result ≡ spec.rank_of found }
{
    let pair = found.pair;
    let item = u64::from(pair.item);
    let (p, q) = (u64::from(pair.p), u64::from(pair.q));
    let (k, m) = (u64::from(pair.k), u64::from(pair.m));
    let cell = u64::from(pair.cell);
    match found.call {
        Some(call) => [item, 0, call as u64, p, q, k, m, cell],
        None => [item, 1, k, m, p, q, cell, 0],
    }
}

fn is_at_most(xs: &[u64; 8], ys: &[u64; 8]) -> bool
    ensures { result ≡ conflicts.is_at_most xs.now ys.now }
{
    for i in 0..xs.len() {
        if xs[i] != ys[i] {
            return xs[i] < ys[i];
        }
    }
    true
}

/// The one of lower rank, where something was found at all.
pub fn lower(first: Option<Found>, second: Option<Found>) -> Option<Found>
    ensures { result ≡ spec.lower spec.rank_of first second }
{
    match (first, second) {
        (Some(x), Some(y)) => {
            if is_at_most(&rank(x), &rank(y)) {
                Some(x)
            } else {
                Some(y)
            }
        }
        (Some(x), None) => Some(x),
        (None, y) => y,
    }
}
