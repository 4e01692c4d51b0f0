//! Left folds of items and of chunks of them.

ghost use Rattle.std.specs.Prelude.{◌≡◌, ◌+◌, ◌-◌, ◌*◌, ◌≤◌, min, Some, length, take, drop};
ghost use Rattle.std.specs.Option.{option_map};
ghost use Rattle.pts_groupings.specs.Brackets.{combined};
ghost use Rattle.pts_groupings.specs.Chunks.{chunk};
ghost use Rattle.pts_sums.specs.Folds.{outcome_in, with_item, with_items};

use crate::terms::{Combining, Terms};
use pts_types::Value;

/// How far a fold has come: None before its first item, else its outcome, which is None where something threw.
pub(crate) type Fold = Option<Option<Value>>;

/// A fold that begins with a value, where there is one.
pub(crate) fn begin(init: Option<Value>) -> Fold
    ensures { result ≡ option_map Some init }
{
    match init {
        Some(value) => Some(Some(value)),
        None => None,
    }
}

/// The outcome of a fold that has begun.
pub(crate) fn outcome_of(so_far: Fold) -> Option<Value>
    ensures { result ≡ outcome_in so_far }
{
    match so_far {
        Some(outcome) => outcome,
        None => None,
    }
}

/// What the operation makes of two outcomes.
pub(crate) fn combine_outcomes<T: Combining>(
    terms: &T,
    x: Option<Value>,
    y: Option<Value>,
) -> Option<Value>
    ensures { result ≡ combined (T.op terms.now) x y }
{
    match (x, y) {
        (Some(x), Some(y)) => terms.combine(x, y),
        _ => None,
    }
}

/// One item more.
pub(crate) fn add_item<T: Combining>(terms: &T, so_far: Fold, item: Option<Value>) -> Fold
    ensures { result ≡ with_item (T.op terms.now) so_far item }
{
    match so_far {
        None => Some(item),
        Some(so_far) => Some(combine_outcomes(terms, so_far, item)),
    }
}

/// The items from `start` on and before `end` more.
#[tactic(auto, using(crate::proofs::Stretches::item_more))]
pub(crate) fn fold_items<T: Terms>(terms: &T, so_far: Fold, start: u32, end: u32) -> Fold
    requires condition { T.condition terms.now }
    requires within { end ≤ length (T.items terms.now) }
    ensures { result ≡ with_items (T.op terms.now) so_far (take (end - start) (drop start (T.items terms.now))) }
{
    let mut so_far = so_far;
    for at in start..end {
        so_far = add_item(terms, so_far, terms.item(at));
    }
    so_far
}

/// Where a chunk begins and ends, where chunks have `size` positions and there are `count` of these.
pub(crate) fn chunk_ends(count: u32, size: u32, number: u32) -> (u32, u32)
    ensures start { result.0 ≡ min (number * size) count }
    ensures end { result.1 ≡ min (number * size + size) count }
{
    let most = u64::from(count);
    let start = u64::from(number) * u64::from(size);
    let end = start + u64::from(size);
    (start.min(most) as u32, end.min(most) as u32)
}

/// The items of a chunk more.
#[tactic(auto, using(crate::proofs::Stretches::chunk_between))]
pub(crate) fn fold_chunk<T: Terms>(terms: &T, size: u32, so_far: Fold, number: u32) -> Fold
    requires { T.condition terms.now }
    ensures { result ≡ with_items (T.op terms.now) so_far (chunk size (T.items terms.now) number) }
{
    let (start, end) = chunk_ends(terms.count(), size, number);
    fold_items(terms, so_far, start, end)
}
