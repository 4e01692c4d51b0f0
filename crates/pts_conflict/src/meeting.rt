//! Where two lines of cells meet.

ghost use Rattle.std.specs.Prelude.{◌≡◌, ◌<◌, ◌*ℤ◌, ℕ, MatchOption, pos};
ghost use Rattle.pts_affine.specs.Equations.{IsWanted};
ghost use Rattle.pts_affine.specs.Lines as lines;
ghost use Rattle.pts_affine.specs.Lines.{IsBounded, IsLeast};
ghost use Rattle.pts_conflict.specs.Search.{FindsFirst, Meets, by_place};

use pts_affine::{Line, meet, meet_after};

/// Two positions at which two lines are at one cell, and the cell.
#[derive(Clone, Copy, Debug, PartialEq, Eq)]
pub struct Meeting {
    pub p: u32,
    pub q: u32,
    pub cell: u32,
}

fn product(factor: i64, position: u32) -> i128
    ensures { result ≡ factor *ℤ pos position }
{
    i128::from(factor) * i128::from(position)
}

fn wide_cell(line: Line, position: u32) -> i128
    ensures { result ≡ lines.cell line position }
{
    product(line.c, position) + i128::from(line.d)
}

fn cell_at(line: Line, position: u32) -> u32
    requires bounded { IsBounded line }
    requires within { position < line.n }
    ensures { lines.cell line position ≡ pos result }
{
    wide_cell(line, position) as u32
}

fn positions(after: bool, x: Line, y: Line) -> Option<(u32, u32)>
    requires first { IsBounded x }
    requires second { IsBounded y }
    ensures { MatchOption result ((p q : ℕ) → ¬ IsWanted after x y p q) (λ pair. IsLeast (IsWanted after x y) pair.0 pair.1) }
{
    if after { meet_after(x, y) } else { meet(x, y) }
}

/// The least meeting of two lines, or None exactly where there is none; if `after` holds, of those in which the first position
/// is the earlier one.
pub fn least_meeting(after: bool, x: Line, y: Line) -> Option<Meeting>
    requires first { IsBounded x }
    requires second { IsBounded y }
    ensures { FindsFirst (Meets after x y) by_place result }
{
    let (p, q) = positions(after, x, y)?;
    Some(Meeting {
        p,
        q,
        cell: cell_at(x, p),
    })
}
