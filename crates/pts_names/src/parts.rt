//! Names in sums, ranges and cells.

ghost use Rattle.std.specs.Prelude.{◌≡◌, flat_map, option_to_list};
ghost use Rattle.pts_rules.specs.Parts as spec;
ghost use Rattle.pts_names.specs.Entered.{is_missing, misses};

use pts_rules::Scope;
use pts_tree::{Atom, Call, Cell, Name, Op, Range, Sum, SumPart, Val};

/// Whether the name is not in scope.
pub fn name_is_missing(scope: &Scope, name: &Name) -> bool
    ensures { result ≡ is_missing scope.now name.now }
{
    scope.meaning(name).is_none()
}

#[tactic(auto, using(crate::proofs::Missing::parts))]
fn atom_is_missing(scope: &Scope, atom: &Atom) -> bool
    ensures { result ≡ misses scope.now (spec.atom_names atom.now) }
{
    match atom {
        Atom::Number(_) => false,
        Atom::Name(name) => name_is_missing(scope, name),
    }
}

#[tactic(auto, using(crate::proofs::Missing::turns))]
fn sum_parts_miss(scope: &Scope, parts: &[SumPart]) -> bool
    ensures { result ≡ misses scope.now (flat_map (λ part. spec.atom_names part.atom) parts.now) }
{
    for part in parts {
        if atom_is_missing(scope, &part.atom) {
            return true;
        }
    }
    false
}

/// Whether a name of the sum is not in scope.
#[tactic(auto, using(crate::proofs::Missing::parts))]
pub fn sum_misses(scope: &Scope, sum: &Sum) -> bool
    ensures { result ≡ misses scope.now (spec.sum_names sum.now) }
{
    atom_is_missing(scope, &sum.first) || sum_parts_miss(scope, sum.rest.as_slice())
}

/// Whether a name of the cell is not in scope.
#[tactic(auto, using(crate::proofs::Missing::parts))]
pub fn cell_misses(scope: &Scope, cell: &Cell) -> bool
    ensures { result ≡ misses scope.now (spec.cell_names cell.now) }
{
    name_is_missing(scope, &cell.array) || sum_misses(scope, &cell.index)
}

/// Whether a name of the range is not in scope.
#[tactic(auto, using(crate::proofs::Missing::parts))]
pub fn range_misses(scope: &Scope, range: &Range) -> bool
    ensures { result ≡ misses scope.now (spec.range_names range.now) }
{
    name_is_missing(scope, &range.array)
        || sum_misses(scope, &range.low)
        || sum_misses(scope, &range.high)
}

/// Whether a name of the value is not in scope.
#[tactic(auto, using(crate::proofs::Missing::parts))]
pub fn val_misses(scope: &Scope, val: &Val) -> bool
    ensures { result ≡ misses scope.now (spec.val_names val.now) }
{
    match val {
        Val::Sum(sum) => sum_misses(scope, sum),
        _ => false,
    }
}

/// Whether the operation is a function that is not in scope.
#[tactic(auto, using(crate::proofs::Missing::parts))]
pub fn op_is_missing(scope: &Scope, op: &Op) -> bool
    ensures { result ≡ misses scope.now (spec.op_names op.now) }
{
    match op {
        Op::Table(_) => false,
        Op::Name(name) => name_is_missing(scope, name),
    }
}

#[tactic(auto, using(crate::proofs::Missing::parts))]
fn optional_range_misses(scope: &Scope, range: &Option<Range>) -> bool
    ensures { result ≡ misses scope.now (spec.names_of spec.range_names range.now) }
{
    match range {
        Some(range) => range_misses(scope, range),
        None => false,
    }
}

#[tactic(auto, using(crate::proofs::Missing::parts))]
fn optional_cell_misses(scope: &Scope, cell: &Option<Cell>) -> bool
    ensures { result ≡ misses scope.now (spec.names_of spec.cell_names cell.now) }
{
    match cell {
        Some(cell) => cell_misses(scope, cell),
        None => false,
    }
}

/// The same of a value where there is one.
#[tactic(auto, using(crate::proofs::Missing::parts))]
pub fn optional_val_misses(scope: &Scope, val: &Option<Val>) -> bool
    ensures { result ≡ misses scope.now (spec.names_of spec.val_names val.now) }
{
    match val {
        Some(val) => val_misses(scope, val),
        None => false,
    }
}

/// The same of a sum where there is one.
#[tactic(auto, using(crate::proofs::Missing::parts))]
pub fn optional_sum_misses(scope: &Scope, sum: &Option<Sum>) -> bool
    ensures { result ≡ misses scope.now (spec.names_of spec.sum_names sum.now) }
{
    match sum {
        Some(sum) => sum_misses(scope, sum),
        None => false,
    }
}

#[tactic(auto, using(crate::proofs::Missing::parts))]
fn optional_op_is_missing(scope: &Scope, op: &Option<Op>) -> bool
    ensures { result ≡ misses scope.now (spec.names_of spec.op_names op.now) }
{
    match op {
        Some(op) => op_is_missing(scope, op),
        None => false,
    }
}

#[tactic(auto, using(crate::proofs::Missing::parts))]
fn optional_name_is_missing(scope: &Scope, name: &Option<Name>) -> bool
    ensures { result ≡ misses scope.now (option_to_list name.now) }
{
    match name {
        Some(name) => name_is_missing(scope, name),
        None => false,
    }
}

/// Whether a name of the call is not in scope.
#[tactic(auto, using(crate::proofs::Missing::of_call))]
pub fn call_misses(scope: &Scope, call: &Call) -> bool
    ensures { result ≡ misses scope.now (spec.call_names call.now) }
{
    range_misses(scope, &call.first)
        || optional_range_misses(scope, &call.second)
        || optional_range_misses(scope, &call.target)
        || optional_val_misses(scope, &call.init)
        || optional_op_is_missing(scope, &call.op)
        || optional_name_is_missing(scope, &call.function)
        || optional_cell_misses(scope, &call.store)
}
