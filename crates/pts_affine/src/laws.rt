//! What the ends of a line tell of it.

ghost use Rattle.std.specs.Prelude.{◌≡◌, ◌-◌, ◌^◌, ◌≤◌, pos};
ghost use Rattle.pts_affine.specs.Lines.{IsBounded, IsCell, cell};
ghost use Rattle.pts_affine.specs.declared.line.Line.{Line};

/// A line is bounded where its first and its last position have one of the first 2^20 cells.
pub fn lines_are_bounded_by_their_ends()
    ensures { (line : Line) → line.n ≤ 2 ^ 20 → (line.n ≤ 1 → line.c ≡ pos 0)
        → IsCell (cell line 0) → IsCell (cell line (line.n - 1)) → IsBounded line }
{}
