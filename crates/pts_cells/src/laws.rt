//! What holds of cells that are written.

ghost use Rattle.std.specs.Prelude.{◌≡◌, ◌≢◌};
ghost use Rattle.pts_types.specs.declared.value.Value.{Value};
ghost use Rattle.pts_cells.specs.WrittenCells.{Cell, WrittenCells, with_value, written_at};

/// A value that is written to a cell leaves every other cell as it is, and two cells may be written in either order.
pub fn cells_are_written_apart()
    ensures others { (cells : WrittenCells) (c d : Cell) (v : Value) → c ≢ d → written_at (with_value cells c v) d ≡ written_at cells d }
    ensures swaps { (cells : WrittenCells) (c d : Cell) (v w : Value) → c ≢ d → with_value (with_value cells c v) d w ≡ with_value (with_value cells d w) c v }
{}
