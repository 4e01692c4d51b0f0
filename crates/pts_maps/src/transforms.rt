//! `for_each` and `transform`, position by position: what the function gives for the elements is written before the next
//! position reads.

ghost use Rattle.std.specs.Prelude.{◌≡◌, ◌<◌, ◌≤◌, Some, IfOk};
ghost use Rattle.pts_eval.specs.Cells.{start_store};
ghost use Rattle.pts_outcomes.specs.MapCalls.{element, shared_positions, size_in, turned};
ghost use Rattle.pts_store.specs.Laws.{SameShape};
ghost use Rattle.pts_store.specs.Stores.{Store};
ghost use Rattle.pts_maps.specs.Transforms.{in_turn, AreAll, Goes, IsAt};

use crate::run::Run;
use pts_boards::Gate;
use pts_elements::{call_function, count_cells};
use pts_lowering::{CellRange, Transform};
use pts_program::Program;
use pts_store::{Overlay, View, Writes};
use pts_types::{NoMemory, Value};
use std::alloc::Global;

// How many positions the ranges of a transform share.
#[tactic(auto, using(crate::proofs::TransformRuns::size_counted))]
fn count_positions(program: &Program, call: &Transform) -> u32
    ensures { (store : Store) → SameShape (start_store program.now) store → result ≡ shared_positions store call.now.second call.now }
{
    let target = count_cells(program, call.target);
    let written = match call.second {
        None => target,
        Some(second) => count_cells(program, second).min(target),
    };
    count_cells(program, call.first).min(written)
}

// The element of a range at a position.
fn read(layer: &Overlay<'_>, range: CellRange, at: u32) -> Value
    requires { at < size_in layer.now.stands range }
    ensures { Some result ≡ element layer.now.stands range at }
{
    layer.cell(range.array, range.low + at)
}

impl<V: View, G: Gate> Run<'_, V, G> {
    // What the function gives at a position; None where it throws.
    #[tactic(auto, using(crate::proofs::TransformRuns::first_there, crate::proofs::TransformRuns::second_there, crate::proofs::TransformRuns::turned_one, crate::proofs::TransformRuns::turned_two))]
    fn turn(&self, call: &Transform, layer: &Overlay<'_>, at: u32) -> Option<Value>
        requires within { at < shared_positions (V.stands self.now.view.now) call.now.second call.now }
        requires far { IsAt self.now.program.now.functions (V.stands self.now.view.now) call.now at layer.now }
        ensures { result ≡ turned self.now.program.now.functions layer.now.stands call.now.second call.now at }
    {
        let x = read(layer, call.first, at);
        match call.second {
            None => call_function(self.program, call.function, &[x]),
            Some(second) => {
                let y = read(layer, second, at);
                call_function(self.program, call.function, &[x, y])
            }
        }
    }

    // Writes the positions from `low` on and before `high`; false where the function throws.
    #[tactic(auto, using(crate::proofs::TransformRuns::goes, crate::proofs::TransformRuns::throws, crate::proofs::TransformRuns::target_there))]
    fn write_chunk(
        &self,
        call: &Transform,
        low: u32,
        high: u32,
        layer: &mut Overlay<'_>,
    ) -> Result<bool, NoMemory>
        requires order { low ≤ high }
        requires within { high ≤ shared_positions (V.stands self.now.view.now) call.now.second call.now }
        requires far { IsAt self.now.program.now.functions (V.stands self.now.view.now) call.now low layer.old }
        ensures { IfOk result (λ goes. Goes self.now.program.now.functions (V.stands self.now.view.now) call.now high goes layer.new) }
    {
        let target = call.target;
        for at in low..high {
            let Some(value) = self.turn(call, layer, at) else {
                return Ok(false);
            };
            layer.set(target.array, target.low + at, value)?;
        }
        Ok(true)
    }

    // What a transform writes; None where its function throws.
    #[tactic(auto, using(crate::proofs::TransformRuns::starts, crate::proofs::TransformRuns::ends, crate::proofs::TransformRuns::ends_thrown))]
    pub fn write_transform(
        &self,
        alloc: Global,
        call: &Transform,
    ) -> Result<Option<Writes>, NoMemory>
        requires { SameShape (start_store self.now.program.now) (V.stands self.now.view.now) }
        ensures { IfOk result (λ written. AreAll (in_turn self.now.program.now.functions (V.stands self.now.view.now) call.now) written) }
    {
        let count = count_positions(self.program, call);
        let mut layer = self.view.layer(alloc);
        let mut low = 0;
        let mut chunk = 0;
        while low < count {
            self.pass(chunk);
            let high = low + self.pool.chunk.min(count - low);
            if !self.write_chunk(call, low, high, &mut layer)? {
                return Ok(None);
            }
            low = high;
            chunk += 1;
        }
        Ok(Some(layer.into_writes()))
    }
}
