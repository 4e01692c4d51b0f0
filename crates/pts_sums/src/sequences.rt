//! Scans in index order: each element is read when the places before it are written.

ghost use Rattle.std.specs.Prelude.{◌≡◌, ℕ, ◌+◌, ◌<◌, ◌≤◌, ◌^◌, length, map, IfOk};
ghost use Rattle.std.specs.List.{range_with_len};
ghost use Rattle.pts_store.specs.Stores.{cells_in};
ghost use Rattle.pts_groupings.specs.Sums.{all_given};
ghost use Rattle.pts_sums.specs.Folds.{with_item};
ghost use Rattle.pts_sums.specs.Places.{next_place, turn_place, AreWritten};
ghost use Rattle.pts_eval.specs.Sums.{elements_in_turn, order_of};

use crate::folds::{Fold, add_item, begin, outcome_of};
use crate::run::Run;
use crate::terms::Transforming;
use pts_boards::Gate;
use pts_lowering::{CellRange, ScanOrder};
use pts_store::{View, Writes};
use pts_types::{NoMemory, Value};
use std::alloc::Global;

/// A scan from one range to another, of `count` positions.
#[derive(Drop)]
pub(crate) struct Sequence<'a, T> {
    pub operations: &'a T,
    pub order: ScanOrder,
    pub source: CellRange,
    pub target: CellRange,
    pub count: u32,
}

/// What a scan makes of one position: its place, and how far the fold is behind it.
#[derive(Clone, Copy)]
pub(crate) struct Turn {
    pub place: Option<Value>,
    pub so_far: Fold,
}

impl<T: Transforming> Sequence<'_, T> {
    // The turn of a position. The last item of an exclusive scan belongs to no place: it is not transformed.
    fn turn(&self, so_far: Fold, element: Value, at: u32) -> Turn
        requires { at < self.now.count }
        ensures place { result.place ≡ next_place (order_of self.now.order) (T.op self.now.operations.now) so_far (T.item self.now.operations.now element) }
        ensures fold { at + 1 < self.now.count → result.so_far ≡ with_item (T.op self.now.operations.now) so_far (T.item self.now.operations.now element) }
    {
        match self.order {
            ScanOrder::Inclusive => {
                let next = add_item(self.operations, so_far, self.operations.item_of(element));
                Turn {
                    place: outcome_of(next),
                    so_far: next,
                }
            }
            ScanOrder::Exclusive => Turn {
                place: outcome_of(so_far),
                so_far: self.fold_behind(so_far, element, at),
            },
        }
    }

    fn fold_behind(&self, so_far: Fold, element: Value, at: u32) -> Fold
        requires { at < self.now.count }
        ensures { at + 1 < self.now.count → result ≡ with_item (T.op self.now.operations.now) so_far (T.item self.now.operations.now element) }
    {
        if at == self.count - 1 {
            return so_far;
        }
        add_item(self.operations, so_far, self.operations.item_of(element))
    }

    /// What the scan writes; None where a place is a throw.
    pub fn write_in_turn<V: View, G: Gate>(
        &self,
        alloc: Global,
        run: &Run<'_, V, G>,
        init: Option<Value>,
    ) -> Result<Option<Writes>, NoMemory>
        requires within { (p : ℕ) → p < self.now.count → self.now.source.low + p < length (cells_in (V.stands run.now.view.now) self.now.source.array) }
        requires room { self.now.target.low + self.now.count < 2 ^ 32 }
        requires indices { self.now.source.low + self.now.count < 2 ^ 32 }
        ensures { IfOk result (λ written.
            let place = turn_place (order_of self.now.order) (T.op self.now.operations.now) (T.item self.now.operations.now) init in
            let elements = elements_in_turn place (V.stands run.now.view.now) self.now.source self.now.target self.now.count in
            AreWritten (all_given (map (place elements) (range_with_len 0 self.now.count))) self.now.target.array self.now.target.low written) }
    {
        let mut layer = run.view.layer(alloc);
        let mut so_far = begin(init);
        for at in 0..self.count {
            run.pass_before(at);
            let element = layer.cell(self.source.array, self.source.low + at);
            let turn = self.turn(so_far, element, at);
            let Some(value) = turn.place else {
                return Ok(None);
            };
            layer.set(self.target.array, self.target.low + at, value)?;
            so_far = turn.so_far;
        }
        Ok(Some(layer.into_writes()))
    }
}
