//! Sums over groups of chunks.

ghost use Rattle.std.specs.Prelude.{◌≡◌, Some, length, map};
ghost use Rattle.std.specs.List.{flat_map, fold};
ghost use Rattle.pts_groupings.specs.Brackets.{combined};
ghost use Rattle.pts_groupings.specs.Chunks.{chunk, chunk_count, sharing, IsGrouping};
ghost use Rattle.pts_groupings.specs.Sums.{folded, sum_of};
ghost use Rattle.pts_sums.specs.Folds.{with_items};

use crate::folds::{Fold, combine_outcomes, fold_chunk, outcome_of};
use crate::terms::Terms;
use pts_boards::{Gate, Passing, Pool};
use pts_types::{Policy, Value};
use sqlite_items::Items;

/// The terms of a call, which a pool cuts into chunks. Each chunk passes the gate.
#[derive(Drop)]
pub(crate) struct Chunked<'a, T, G> {
    pub terms: &'a T,
    pub gate: &'a G,
    pub call: u32,
    pub pool: Pool,
}

impl<T: Terms, G: Gate> Chunked<'_, T, G> {
    /// The items of the chunks of a group more.
    #[tactic(auto, using(crate::proofs::GroupFolds::chunk_more))]
    pub fn fold_group(&self, so_far: Fold, group: &[u32]) -> Fold
        requires { T.condition self.now.terms.now }
        ensures { result ≡ with_items (T.op self.now.terms.now) so_far (flat_map (chunk self.now.pool.chunk (T.items self.now.terms.now)) group.now) }
    {
        let mut so_far = so_far;
        for number in group {
            self.gate.pass(Passing::Chunk {
                call: self.call,
                chunk: *number,
            });
            so_far = fold_chunk(self.terms, self.pool.chunk, so_far, *number);
        }
        so_far
    }

    /// The left fold of a group.
    #[tactic(auto, using(crate::proofs::GroupFolds::folded_as))]
    pub fn sum_group(&self, group: &[u32]) -> Option<Value>
        requires { T.condition self.now.terms.now }
        ensures { result ≡ folded (T.op self.now.terms.now) (flat_map (chunk self.now.pool.chunk (T.items self.now.terms.now)) group.now) }
    {
        outcome_of(self.fold_group(None, group))
    }

    /// The left fold of a first value and the groups' own folds.
    #[tactic(auto, using(crate::proofs::GroupFolds::group_more))]
    pub fn sum_groups(&self, init: Value, groups: &[Items<u32>]) -> Option<Value>
        requires { T.condition self.now.terms.now }
        ensures { result ≡ fold (combined (T.op self.now.terms.now)) (Some init) (map (λ group. folded (T.op self.now.terms.now) (flat_map (chunk self.now.pool.chunk (T.items self.now.terms.now)) group)) groups.now) }
    {
        let mut total = Some(init);
        for group in groups {
            let sum = self.sum_group(group.as_slice());
            total = combine_outcomes(self.terms, total, sum);
        }
        total
    }

    /// The left fold of a first value and the items of all groups.
    #[tactic(auto, using(crate::proofs::GroupFolds::items_more, crate::proofs::GroupFolds::fold_done))]
    pub fn fold_groups(&self, init: Value, groups: &[Items<u32>]) -> Option<Value>
        requires { T.condition self.now.terms.now }
        ensures { result ≡ fold (combined (T.op self.now.terms.now)) (Some init) (flat_map (flat_map (chunk self.now.pool.chunk (T.items self.now.terms.now))) groups.now) }
    {
        let mut so_far = Some(Some(init));
        for group in groups {
            so_far = self.fold_group(so_far, group.as_slice());
        }
        outcome_of(so_far)
    }

    /// The sum of a first value and the items over a grouping.
    #[tactic(auto, using(crate::proofs::GroupFolds::in_order_sum))]
    pub fn sum(&self, policy: Policy, init: Value, groups: &[Items<u32>]) -> Option<Value>
        requires condition { T.condition self.now.terms.now }
        requires grouping { IsGrouping (sharing policy self.now.pool.workers) (chunk_count (length (T.items self.now.terms.now)) self.now.pool.chunk) groups.now }
        ensures { result ≡ sum_of policy self.now.pool.chunk groups.now (T.op self.now.terms.now) init (T.items self.now.terms.now) }
    {
        match policy {
            Policy::Seq => self.fold_groups(init, groups),
            _ => self.sum_groups(init, groups),
        }
    }
}
