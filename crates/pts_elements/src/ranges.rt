//! How many cells of a range there are, and what is read of them.

ghost use Rattle.std.specs.Prelude.{◌≡◌, ◌+◌, ◌<◌, ◌^◌, Some, length, slice_get};
ghost use Rattle.pts_eval.specs.Cells.{range_in, start_store};
ghost use Rattle.pts_store.specs.Laws.{SameShape};
ghost use Rattle.pts_store.specs.Stores.{cells_in, Store};

use pts_lowering::CellRange;
use pts_program::Program;
use pts_store::View;
use pts_types::Value;

// How many cells an array has; 0 where there is no such array.
#[tactic(auto, using(crate::proofs::RangeCells::no_array, crate::proofs::RangeCells::an_array))]
fn array_len(program: &Program, array: u32) -> usize
    ensures { result ≡ length (cells_in (start_store program.now) array) }
{
    match program.arrays().get(array as usize) {
        Some(info) => info.cells.len(),
        None => 0,
    }
}

/// How many cells of a range its array has, in any store of the program's arrays.
#[tactic(auto, using(crate::proofs::RangeCells::counted))]
pub fn count_cells(program: &Program, range: CellRange) -> u32
    ensures count { (store : Store) → SameShape (start_store program.now) store → result ≡ length (range_in store range) }
    ensures fits { range.low + result < 2 ^ 32 }
{
    let high = array_len(program, range.array).min(range.high as usize);
    high.saturating_sub(range.low as usize) as u32
}

/// The element of a range at a position that it has.
#[tactic(auto, using(crate::proofs::RangeCells::within, crate::proofs::RangeCells::element))]
pub fn read_element<V: View>(view: &V, range: CellRange, at: u32) -> Value
    requires { at < length (range_in (V.stands view.now) range) }
    ensures { Some result ≡ slice_get (range_in (V.stands view.now) range) at }
{
    view.cell(range.array, range.low + at)
}
