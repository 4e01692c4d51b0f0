//! What the arrays of a program hold before it runs.

ghost use Rattle.std.specs.Prelude.{◌≡◌, IfOk};
ghost use Rattle.pts_eval.specs.Cells as spec;

use pts_program::Program;
use pts_store::Store;
use pts_types::NoMemory;
use std::alloc::Global;

/// The store before the first statement: each array holds what it starts with.
pub fn start_store(alloc: Global, program: &Program) -> Result<Store, NoMemory>
    ensures { IfOk result (λ store. store ≡ spec.start_store program.now) }
{
    let mut store = Store::new(alloc);
    for array in program.arrays() {
        store.push(alloc, array.cells.as_slice())?;
    }
    Ok(store)
}
