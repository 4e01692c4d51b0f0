//! A loop from its start to its answer.

ghost use Rattle.std.specs.Prelude.{◌≡◌, IfOk, true};
ghost use Rattle.pts_outcomes.specs.Calls.{in_index_order};
ghost use Rattle.pts_passes.specs.Ends.{EndsAlong, EndsAlongAll, PermitsLoop};
ghost use Rattle.pts_passes.specs.Inductions.{all_stay};
ghost use Rattle.pts_passes.specs.Laws.{IsFree};
ghost use Rattle.pts_loops.specs.Answers.{end_of, writes_of};
ghost use Rattle.pts_clear.specs.Showing.{HasCells};
ghost use Rattle.pts_loops.specs.Turns.{IsAtPosition, IsReady, call_in, pass_of};

use crate::answers::LoopAnswer;
use crate::run::Run;
use crate::turn::Turn;
use pts_boards::{Gate, Pool};
use pts_elements::single_grouping;
use pts_store::View;
use pts_types::NoMemory;
use sqlite_items::Items;
use std::alloc::Global;

impl Run<'_> {
    // Assigns the cells of the clauses behind all positions.
    fn finish(&self, alloc: Global, pool: Pool, mut turn: Turn<'_>) -> Result<LoopAnswer, NoMemory>
        requires ready { IsReady self.now }
        requires cells { HasCells self.now.arrays.now turn.layer.below }
        requires stay { all_stay turn.layer.below self.now.head.now ≡ true }
        requires done { IsAtPosition self.now turn.layer.below self.now.head.now.positions turn }
        ensures { IfOk result (λ answer. EndsAlong pool (pass_of self.now) turn.entry.layer.below (in_index_order (call_in self.now turn.entry.layer.below)) (end_of answer) (writes_of answer)) }
    {
        let grouping = single_grouping(alloc, self.head.positions.div_ceil(pool.chunk))?;
        let mut live_outs = Items::new(alloc);
        if !self.assign(&mut turn, &mut live_outs)? {
            return Ok(LoopAnswer::Terminated {
                grouping: Some(grouping),
            });
        }
        let Turn { layer, .. } = turn;
        Ok(LoopAnswer::Written {
            writes: layer.into_writes(),
            live_outs,
            grouping,
        })
    }

    // Runs the loop in index order.
    fn run_in_order<V: View, G: Gate>(
        &self,
        alloc: Global,
        gate: &G,
        pool: Pool,
        view: &V,
    ) -> Result<LoopAnswer, NoMemory>
        requires ready { IsReady self.now }
        requires cells { HasCells self.now.arrays.now (V.stands view.now) }
        ensures { IfOk result (λ answer. EndsAlong pool (pass_of self.now) (V.stands view.now) (in_index_order (call_in self.now (V.stands view.now))) (end_of answer) (writes_of answer)) }
    {
        let mut turn = self.start(alloc, view)?;
        if !self.all_stay(&turn) {
            return Ok(LoopAnswer::Terminated { grouping: None });
        }
        if !self.run_chunks(gate, pool, &mut turn)? {
            return Ok(LoopAnswer::Terminated { grouping: None });
        }
        let answer = self.finish(alloc, pool, turn)?;
        Ok(answer)
    }

    /// Runs the loop over a view. Without conflict it ends so along each order that its policy allows.
    pub(crate) fn run<V: View, G: Gate>(
        &self,
        alloc: Global,
        gate: &G,
        pool: Pool,
        view: &V,
    ) -> Result<LoopAnswer, NoMemory>
        requires ready { IsReady self.now }
        requires cells { HasCells self.now.arrays.now (V.stands view.now) }
        ensures permitted { IfOk result (λ answer. PermitsLoop pool (pass_of self.now) (V.stands view.now) (end_of answer) (writes_of answer)) }
        ensures orders { IfOk result (λ answer. IsFree (pass_of self.now) (V.stands view.now) → EndsAlongAll pool (pass_of self.now) (V.stands view.now) (end_of answer) (writes_of answer)) }
    {
        let answer = self.run_in_order(alloc, gate, pool, view)?;
        Ok(answer)
    }
}
