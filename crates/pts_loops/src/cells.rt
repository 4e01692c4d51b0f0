//! The cells that points are at.

ghost use Rattle.std.specs.Prelude.{◌≡◌, ℕ, ◌<◌, ◌≤◌, [], IfOk, MatchOption, pos};
ghost use Rattle.pts_affine.specs.Lines.{cell};
ghost use Rattle.pts_affine.specs.Lines as lines;
ghost use Rattle.pts_code.specs.Outcomes.{and_then};
ghost use Rattle.pts_outcomes.specs.Effects.{place_at};
ghost use Rattle.pts_program.specs.Ranges.{IsInRange, length_at};
ghost use Rattle.pts_store.specs.Stores.{IsCell, Store};
ghost use Rattle.pts_loops.specs.Points as spec;
ghost use Rattle.pts_clear.specs.Showing.{HasCells};

use crate::run::Run;
use pts_affine::Line;
use pts_lowering::CellIndex;
use pts_points::PointInfo;
use pts_store::Overlay;
use pts_types::{Thrown, Value};

fn cell_at(line: Line, p: u32) -> i128
    ensures { result ≡ cell line p }
{
    i128::from(line.c) * i128::from(p) + i128::from(line.d)
}

// The cell of a line at a position; None where it has no such position.
fn index_at(line: Line, p: u32) -> Option<u32>
    requires { (q : ℕ) → q < line.n → lines.IsCell (cell line q) }
    ensures { MatchOption result (line.n ≤ p) (λ index. (p < line.n) × (cell line p ≡ pos index)) }
{
    if p >= line.n {
        return None;
    }
    u32::try_from(cell_at(line, p)).ok()
}

impl Run<'_> {
    // The cell of a point at a position; where it has none, a fault stands for it.
    pub(crate) fn place(&self, point: &PointInfo, p: u32) -> Result<CellIndex, Thrown>
        requires { IsInRange self.now.arrays.now point.now }
        ensures place { (store : Store) → HasCells self.now.arrays.now store → spec.shown_place result ≡ place_at store (spec.place_of point.now) p [] }
        ensures exists { IfOk result (λ c. c.index < length_at self.now.arrays.now c.array) }
    {
        match index_at(point.line, p) {
            Some(index) => Ok(CellIndex {
                array: point.array,
                index,
            }),
            None => Err(Thrown::Overflow),
        }
    }
}

// What a cell holds.
pub(crate) fn read(layer: &Overlay<'_>, cell: Result<CellIndex, Thrown>) -> Result<Value, Thrown>
    requires { IfOk cell (λ c. IsCell layer.now.stands c.array c.index) }
    ensures { result ≡ and_then (spec.shown_place cell) (spec.held layer.now.stands) }
{
    match cell {
        Ok(cell) => Ok(layer.cell(cell.array, cell.index)),
        Err(thrown) => Err(thrown),
    }
}
