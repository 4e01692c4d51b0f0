//! The cell that an answer is put into.

ghost use Rattle.std.specs.Prelude.{IfOk};
ghost use Rattle.pts_eval.specs.Sums.{steps_into};
ghost use Rattle.pts_store.specs.Steps.{AreOf};

use pts_lowering::CellIndex;
use pts_store::Writes;
use pts_types::{NoMemory, Value};
use std::alloc::Global;

/// What a call writes of its answer: the value, where it names a cell and has one.
#[tactic(auto, using(crate::proofs::IntoCells::nothing_written, crate::proofs::IntoCells::one_written))]
pub fn write_into(
    alloc: Global,
    into: Option<CellIndex>,
    value: Option<Value>,
) -> Result<Writes, NoMemory>
    ensures { IfOk result (λ writes. AreOf (steps_into into value) writes) }
{
    let mut writes = Writes::new(alloc);
    let (Some(cell), Some(value)) = (into, value) else {
        return Ok(writes);
    };
    writes.set(cell.array, cell.index, value)?;
    Ok(writes)
}
