//! Arrays by number, and the cells of ranges, cells and indices.

ghost use Rattle.std.specs.Prelude.{◌≡◌, ◌+ℤ◌, ◌-ℤ◌, ◌*ℤ◌};
ghost use Rattle.pts_rules.specs.Known as known;
ghost use Rattle.pts_points.specs.Building as building;
ghost use Rattle.pts_points.specs.Inside.{HasRoom};
ghost use Rattle.pts_points.specs.Lines as spec;
ghost use Rattle.pts_points.specs.Widths as widths;

use crate::numbers::{clamp, product, small};
use crate::space::IterationSpace;
use pts_affine::Line;
use pts_bounds::{Affine, affine_of};
use pts_limits::number;
use pts_rules::Scope;
use pts_tree::{Cell, Expr, Name, Range};

/// The number of an array in 32 bits; 0 where there is none.
pub fn kept_array(scope: &Scope, name: &Name) -> u32
    ensures { result ≡ widths.small (spec.array_at scope.now name.now) }
{
    match scope.array_number(name) {
        Some(number) => small(number as u128),
        None => 0,
    }
}

/// The number of an array, from 0 in the order in which the arrays were declared; 0 where there is none.
#[tactic(auto, using(crate::proofs::Ranges::array_same))]
pub fn array_at(scope: &Scope, name: &Name) -> u32
    requires { HasRoom scope.now }
    ensures { result ≡ spec.array_at scope.now name.now }
{
    kept_array(scope, name)
}

fn distance(low: i128, high: i128) -> u128
    ensures { result ≡ known.natural (high -ℤ low) }
{
    if high < low { 0 } else { high.abs_diff(low) }
}

fn cells_from(low: i128, count: u128) -> Line
    ensures { result ≡ building.kept_line (spec.cells_from low count) }
{
    Line {
        c: if count <= 1 { 0 } else { 1 },
        d: clamp(low),
        n: small(count),
    }
}

/// The cells of a range.
pub fn line_of_range(scope: &Scope, range: &Range) -> Line
    ensures { result ≡ building.kept_line (spec.line_of_range scope.now range.now) }
{
    let low = number(scope, &range.low);
    cells_from(low, distance(low, number(scope, &range.high)))
}

/// A single cell.
pub fn line_of_cell(scope: &Scope, cell: &Cell) -> Line
    ensures { result ≡ building.kept_line (spec.line_of_cell scope.now cell.now) }
{
    Line {
        c: 0,
        d: clamp(number(scope, &cell.index)),
        n: 1,
    }
}

fn slope(space: &IterationSpace, factor: i64) -> i64
    ensures { result ≡ widths.clamp (building.slope space.now factor) }
{
    if space.positions <= 1 {
        0
    } else {
        clamp(product(factor, space.step))
    }
}

fn first_cell(first: i64, factor: i64, offset: i64) -> i64
    ensures { result ≡ widths.clamp (factor *ℤ first +ℤ offset) }
{
    clamp(product(factor, first) + i128::from(offset))
}

fn start(space: &IterationSpace, factor: i64, offset: i64) -> i64
    ensures { result ≡ widths.clamp (building.start space.now factor offset) }
{
    if space.positions == 0 {
        0
    } else {
        first_cell(space.first, factor, offset)
    }
}

// The cells of `factor * index + offset`.
fn line_along(space: &IterationSpace, affine: Affine) -> Line
    ensures { result ≡ building.kept_line (building.line_along space.now affine.factor affine.offset) }
{
    Line {
        c: slope(space, affine.factor),
        d: start(space, affine.factor, affine.offset),
        n: small(space.positions),
    }
}

/// The cells of an index; none where it is no line.
pub fn line_of_index(scope: &Scope, space: &IterationSpace, index: &Expr) -> Line
    ensures { result ≡ building.kept_line (building.line_of_index scope.now space.now index.now) }
{
    match affine_of(scope, space.index.as_ref(), index) {
        Some(affine) => line_along(space, affine),
        None => Line { c: 0, d: 0, n: 0 },
    }
}
