//! Sums as single numbers, and what they measure.

ghost use Rattle.std.specs.Prelude.{◌≡◌, ◌-◌, ◌^◌, IfOk, min, nat_abs};
ghost use Rattle.pts_constants.specs.Resolved as spec;

use pts_limits::number;
use pts_rules::Scope;
use pts_tree::{Atom, Cell, Name, Range, Sum, Val};
use sqlite_items::Items;
use std::alloc::{AllocError, Global};

/// The same name.
pub fn copy_name(alloc: Global, name: &Name) -> Result<Name, AllocError>
    ensures { IfOk result (λ y. y ≡ name.now) }
{
    Ok(Name::new(name.as_str().to_string(alloc)?))
}

// Without its sign, in 64 bits.
fn magnitude(z: i128) -> u64
    ensures { result ≡ min (nat_abs z) (2 ^ 64 - 1) }
{
    let size = z.unsigned_abs();
    if size < u128::from(u64::MAX) {
        size as u64
    } else {
        u64::MAX
    }
}

/// A sum as the one number that it is, of which no more than 64 bits are kept; 0 where a name in it is no constant.
pub fn resolve_sum(alloc: Global, scope: &Scope, sum: &Sum) -> Sum
    ensures { result ≡ spec.resolved_sum scope.now sum.now }
{
    let z = number(scope, sum);
    Sum {
        negative: z < 0,
        first: Atom::Number(magnitude(z)),
        rest: Items::new(alloc),
    }
}

/// A value, its sum as one number.
pub fn resolve_val(alloc: Global, scope: &Scope, val: &Val) -> Val
    ensures { result ≡ spec.resolved_val scope.now val.now }
{
    match val {
        Val::Sum(sum) => Val::Sum(resolve_sum(alloc, scope, sum)),
        Val::True => Val::True,
        Val::False => Val::False,
    }
}

/// A range, its ends as numbers.
pub fn resolve_range(alloc: Global, scope: &Scope, range: &Range) -> Result<Range, AllocError>
    ensures { IfOk result (λ y. y ≡ spec.resolved_range scope.now range.now) }
{
    Ok(Range {
        array: copy_name(alloc, &range.array)?,
        low: resolve_sum(alloc, scope, &range.low),
        high: resolve_sum(alloc, scope, &range.high),
    })
}

/// A cell, its index as a number.
pub fn resolve_cell(alloc: Global, scope: &Scope, cell: &Cell) -> Result<Cell, AllocError>
    ensures { IfOk result (λ y. y ≡ spec.resolved_cell scope.now cell.now) }
{
    Ok(Cell {
        array: copy_name(alloc, &cell.array)?,
        index: resolve_sum(alloc, scope, &cell.index),
    })
}
