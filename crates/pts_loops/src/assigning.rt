//! The cells of clauses, which are assigned behind a loop.

ghost use Rattle.std.specs.Prelude.{◌≡◌, ◌<◌, [], IfOk, IfSome, length};
ghost use Rattle.std.specs.Option.{option_to_list};
ghost use Rattle.pts_program.specs.Ranges.{length_at};
ghost use Rattle.pts_store.specs.Stores.{Store};
ghost use Rattle.pts_loops.specs.Assigning as spec;
ghost use Rattle.pts_clear.specs.Showing.{HasCells};
ghost use Rattle.pts_loop_points.specs.LoopPoints.{HasClauseCell};
ghost use Rattle.pts_loops.specs.Turns.{IsAtPosition, IsReady, Keeps, begins_with};

use crate::run::Run;
use crate::turn::Turn;
use crate::values::induction_at;
use pts_lowering::{CellIndex, InitialValue, LoopClause};
use pts_types::{NoMemory, Value};
use sqlite_items::Items;

/// A cell and the value that it takes; None where that is a throw.
type LiveOut = (CellIndex, Option<Value>);

impl Turn<'_> {
    // Assigns a cell, if there is one; false where its value is a throw.
    fn assign(&mut self, out: Option<LiveOut>, values: &mut Items<Value>) -> Result<bool, NoMemory>
        ensures assigns { IfOk result (λ goes. spec.Assigns (option_to_list out) goes self.old self.new values.old values.new) }
        ensures keeps { Keeps self.old self.new }
    {
        let Some((cell, value)) = out else {
            return Ok(true);
        };
        let Some(value) = value else {
            return Ok(false);
        };
        self.layer.set(cell.array, cell.index, value)?;
        values.push(value)?;
        Ok(true)
    }
}

impl Run<'_> {
    // The cell that a clause names, with its value behind the loop.
    fn live_out(
        &self,
        clause: &LoopClause,
        begun: Value,
        accumulator: Option<Value>,
    ) -> Option<LiveOut>
        requires { HasClauseCell self.now.arrays.now clause.now }
        ensures is { (store : Store) → begun ≡ begins_with store clause.now → option_to_list result ≡ spec.out_of store self.now.head.now.positions clause.now accumulator }
        ensures exists { IfSome result (λ out. out.0.index < length_at self.now.arrays.now out.0.array) }
    {
        match clause {
            LoopClause::Reduction(x) => Some((x.cell, accumulator)),
            LoopClause::Induction(x) => match x.initial {
                InitialValue::Value(_) => None,
                InitialValue::Cell(cell) => {
                    Some((cell, induction_at(x, begun, self.head.positions)))
                }
            },
        }
    }

    /// Assigns the cells of the clauses in their order, and gives their values; false where one is a throw.
    pub(crate) fn assign(
        &self,
        turn: &mut Turn<'_>,
        values: &mut Items<Value>,
    ) -> Result<bool, NoMemory>
        requires ready { IsReady self.now }
        requires cells { HasCells self.now.arrays.now turn.old.layer.below }
        requires done { IsAtPosition self.now turn.old.layer.below self.now.head.now.positions turn.old }
        requires none { values.old ≡ [] }
        requires begun { length turn.old.begun.items ≡ length self.now.head.now.clauses }
        requires accumulators { length turn.old.accumulators.items ≡ length self.now.head.now.clauses }
        ensures { IfOk result (λ goes. spec.Ends self.now turn.old.layer.below goes turn.new values.new) }
    {
        let clauses = self.head.clauses.as_slice();
        for j in 0..clauses.len() {
            let out = self.live_out(&clauses[j], turn.begun[j], turn.accumulators[j]);
            if !turn.assign(out, values)? {
                return Ok(false);
            }
        }
        Ok(true)
    }
}
