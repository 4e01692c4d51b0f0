//! The places of a scan, chunk by chunk.

ghost use Rattle.std.specs.Prelude.{◌≡◌, ◌+◌, ◌-◌, ◌*◌, ◌<◌, ◌≤◌, ◌^◌, min, length, take, drop, IfOk};
ghost use Rattle.pts_groupings.specs.Chunks.{chunk};
ghost use Rattle.pts_groupings.specs.Scans.{Exclusive, places_of};
ghost use Rattle.pts_groupings.specs.Sums.{all_given, folded};
ghost use Rattle.pts_sums.specs.Folds.{with_item};
ghost use Rattle.pts_sums.specs.Places.{outcomes_after, places_after, Puts};
ghost use Rattle.pts_eval.specs.Sums.{order_of};

use crate::folds::{Fold, add_item, begin, chunk_ends, fold_chunk, outcome_of};
use crate::terms::Terms;
use pts_lowering::ScanOrder;
use pts_store::Writes;
use pts_types::{NoMemory, Policy, Value};

/// A scan of some terms, which writes to the cells of an array from `first` on.
#[derive(Drop)]
pub(crate) struct Scanner<'a, T> {
    pub terms: &'a T,
    pub order: ScanOrder,
    pub array: u32,
    pub first: u32,
}

impl<T: Terms> Scanner<'_, T> {
    /// Writes the outcomes of a fold behind each item from `start` on and before `end`, to the places from `place` on. False
    /// where one of them is a throw.
    pub fn write_outcomes(
        &self,
        so_far: Fold,
        start: u32,
        end: u32,
        place: u32,
        writes: &mut Writes,
    ) -> Result<bool, NoMemory>
        requires condition { T.condition self.now.terms.now }
        requires within { end ≤ length (T.items self.now.terms.now) }
        requires room { self.now.first + place + (end - start) < 2 ^ 32 }
        ensures { IfOk result (λ all. Puts all (all_given (outcomes_after (T.op self.now.terms.now) so_far (take (end - start) (drop start (T.items self.now.terms.now))))) self.now.array (self.now.first + place) writes.old writes.new) }
    {
        let mut so_far = so_far;
        for at in start..end {
            so_far = add_item(self.terms, so_far, self.terms.item(at));
            let Some(value) = outcome_of(so_far) else {
                return Ok(false);
            };
            writes.set(self.array, self.first + place + (at - start), value)?;
        }
        Ok(true)
    }

    /// Writes the places of the items from `start` on and before `end`, where each place ends before its own item. False where
    /// one of them is a throw.
    #[tactic(auto, using(crate::proofs::PutPlaces::put_shifted, crate::proofs::PutPlaces::throw_shifted))]
    pub fn write_shifted(
        &self,
        so_far: Fold,
        start: u32,
        end: u32,
        writes: &mut Writes,
    ) -> Result<bool, NoMemory>
        requires condition { T.condition self.now.terms.now }
        requires within { end ≤ length (T.items self.now.terms.now) }
        requires room { self.now.first + length (T.items self.now.terms.now) < 2 ^ 32 }
        ensures { IfOk result (λ all. Puts all (all_given (places_after Exclusive (T.op self.now.terms.now) so_far (take (end - start) (drop start (T.items self.now.terms.now))))) self.now.array (self.now.first + start) writes.old writes.new) }
    {
        if start >= end {
            return Ok(true);
        }
        let Some(value) = outcome_of(so_far) else {
            return Ok(false);
        };
        writes.set(self.array, self.first + start, value)?;
        self.write_outcomes(so_far, start, end - 1, start + 1, writes)
    }

    /// Writes the places of a chunk. False where one of them is a throw.
    #[tactic(auto, using(crate::proofs::Stretches::chunk_between))]
    pub fn write_chunk(
        &self,
        size: u32,
        so_far: Fold,
        number: u32,
        writes: &mut Writes,
    ) -> Result<bool, NoMemory>
        requires condition { T.condition self.now.terms.now }
        requires room { self.now.first + length (T.items self.now.terms.now) < 2 ^ 32 }
        ensures { IfOk result (λ all. Puts all (all_given (places_after (order_of self.now.order) (T.op self.now.terms.now) so_far (chunk size (T.items self.now.terms.now) number))) self.now.array (self.now.first + min (number * size) (length (T.items self.now.terms.now))) writes.old writes.new) }
    {
        let (start, end) = chunk_ends(self.terms.count(), size, number);
        match self.order {
            ScanOrder::Inclusive => self.write_outcomes(so_far, start, end, start, writes),
            ScanOrder::Exclusive => self.write_shifted(so_far, start, end, writes),
        }
    }

    // How far the fold has come behind a chunk that is not the last: the chunk is folded by itself. Behind the last one it does not matter.
    #[tactic(auto, using(crate::proofs::GroupFolds::folded_as))]
    fn start_behind(&self, size: u32, start: Fold, number: u32, chunks: u32) -> Fold
        requires condition { T.condition self.now.terms.now }
        requires within { number < chunks }
        ensures { number + 1 < chunks → result ≡ with_item (T.op self.now.terms.now) start (folded (T.op self.now.terms.now) (chunk size (T.items self.now.terms.now) number)) }
    {
        if number == chunks - 1 {
            return start;
        }
        let own = fold_chunk(self.terms, size, None, number);
        add_item(self.terms, start, outcome_of(own))
    }

    /// Writes all places, chunk by chunk. False where one of them is a throw.
    pub fn write_chunks(
        &self,
        size: u32,
        init: Option<Value>,
        writes: &mut Writes,
    ) -> Result<bool, NoMemory>
        requires condition { T.condition self.now.terms.now }
        requires room { self.now.first + length (T.items self.now.terms.now) < 2 ^ 32 }
        requires positive { 0 < size }
        ensures { IfOk result (λ all. Puts all (places_of Policy.Par (order_of self.now.order) size (T.op self.now.terms.now) init (T.items self.now.terms.now)) self.now.array self.now.first writes.old writes.new) }
    {
        let chunks = self.terms.count().div_ceil(size);
        let mut start = begin(init);
        for number in 0..chunks {
            if !self.write_chunk(size, start, number, writes)? {
                return Ok(false);
            }
            start = self.start_behind(size, start, number, chunks);
        }
        Ok(true)
    }
}
