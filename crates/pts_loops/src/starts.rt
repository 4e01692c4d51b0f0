//! What a loop begins with.

ghost use Rattle.std.specs.Prelude.{◌≡◌, ℕ, All, IfOk, None, count_by, length, map, replicate};
ghost use Rattle.pts_store.specs.Stores.{IsCell};
ghost use Rattle.pts_passes.specs.Inductions as spec;
ghost use Rattle.pts_clear.specs.Showing.{HasCells};
ghost use Rattle.pts_loops.specs.Points.{is_live_out};
ghost use Rattle.pts_loop_points.specs.LoopPoints.{HasClauseCell};
ghost use Rattle.pts_loops.specs.Turns.{IsAtPosition, IsReady, begins_with, first_accumulator};

use crate::run::Run;
use crate::turn::Turn;
use pts_lowering::{CellIndex, InitialValue, LoopClause};
use pts_steps::Step;
use pts_store::{Overlay, View};
use pts_types::{NoMemory, Thrown, Value};
use std::alloc::{AllocError, Global};

// What the cell of a clause holds.
fn live_value(layer: &Overlay<'_>, cell: CellIndex) -> Value
    requires { IsCell layer.now.stands cell.array cell.index }
    ensures { result ≡ spec.live_value layer.now.stands cell }
{
    layer.cell(cell.array, cell.index)
}

// Nothing at so many points.
fn no_notes(alloc: Global, count: usize) -> Result<Vec<Option<Result<Value, Thrown>>>, AllocError>
    ensures { IfOk result (λ notes. notes.items ≡ replicate count None) }
{
    let mut notes = Vec::new(alloc);
    for at in 0..count {
        notes.push(None)?;
    }
    Ok(notes)
}

fn is_live_out_step(step: &Step) -> bool
    ensures { result ≡ is_live_out step.now }
{
    matches!(step, Step::LiveOut)
}

impl Run<'_> {
    // How many cells the clauses name.
    fn count_cells(&self) -> usize
        ensures { result ≡ count_by is_live_out self.now.steps.now }
    {
        let mut count = 0;
        for step in self.steps {
            if is_live_out_step(step) {
                count += 1;
            }
        }
        count
    }

    // What a clause begins with.
    fn begins_with(&self, layer: &Overlay<'_>, clause: &LoopClause) -> Value
        requires cells { HasCells self.now.arrays.now layer.now.stands }
        requires clause { HasClauseCell self.now.arrays.now clause.now }
        ensures { result ≡ begins_with layer.now.stands clause.now }
    {
        match clause {
            LoopClause::Reduction(x) => live_value(layer, x.cell),
            LoopClause::Induction(x) => match x.initial {
                InitialValue::Value(value) => value,
                InitialValue::Cell(cell) => live_value(layer, cell),
            },
        }
    }

    // The accumulator of a clause before all positions.
    fn first_accumulator(&self, layer: &Overlay<'_>, clause: &LoopClause) -> Option<Value>
        requires cells { HasCells self.now.arrays.now layer.now.stands }
        requires clause { HasClauseCell self.now.arrays.now clause.now }
        ensures { result ≡ first_accumulator layer.now.stands clause.now }
    {
        match clause {
            LoopClause::Reduction(x) => Some(live_value(layer, x.cell)),
            LoopClause::Induction(_) => None,
        }
    }

    fn begin_values(&self, alloc: Global, layer: &Overlay<'_>) -> Result<Vec<Value>, AllocError>
        requires cells { HasCells self.now.arrays.now layer.now.stands }
        requires clauses { All (HasClauseCell self.now.arrays.now) self.now.head.now.clauses }
        ensures { IfOk result (λ values. values.items ≡ map (begins_with layer.now.stands) self.now.head.now.clauses) }
    {
        let mut values = Vec::new(alloc);
        for clause in self.head.clauses.as_slice() {
            values.push(self.begins_with(layer, clause))?;
        }
        Ok(values)
    }

    fn first_accumulators(
        &self,
        alloc: Global,
        layer: &Overlay<'_>,
    ) -> Result<Vec<Option<Value>>, AllocError>
        requires cells { HasCells self.now.arrays.now layer.now.stands }
        requires clauses { All (HasClauseCell self.now.arrays.now) self.now.head.now.clauses }
        ensures { IfOk result (λ values. values.items ≡ map (first_accumulator layer.now.stands) self.now.head.now.clauses) }
    {
        let mut accumulators = Vec::new(alloc);
        for clause in self.head.clauses.as_slice() {
            accumulators.push(self.first_accumulator(layer, clause))?;
        }
        Ok(accumulators)
    }

    /// Before the first position, over a view.
    pub(crate) fn start<'v, V: View>(
        &self,
        alloc: Global,
        view: &'v V,
    ) -> Result<Turn<'v>, NoMemory>
        requires ready { IsReady self.now }
        requires cells { HasCells self.now.arrays.now (V.stands view.now) }
        ensures at { IfOk result (λ turn. IsAtPosition self.now (V.stands view.now) 0 turn) }
        ensures below { IfOk result (λ turn. turn.layer.below ≡ V.stands view.now) }
    {
        let layer = view.layer(alloc);
        let begun = self.begin_values(alloc, &layer)?;
        let accumulators = self.first_accumulators(alloc, &layer)?;
        let notes = no_notes(alloc, self.steps.len())?;
        Ok(Turn {
            layer,
            first: self.count_cells(),
            begun,
            values: Vec::new(alloc),
            notes,
            accumulators,
        })
    }
}
