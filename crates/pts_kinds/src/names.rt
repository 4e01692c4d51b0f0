//! What names stand for, and functions by the kinds that they take and give.

ghost use Rattle.std.specs.Prelude.{◌≡◌, Some, ◌∷◌, []};
ghost use Rattle.std.specs.Option.{option_copied};
ghost use Rattle.pts_tree.specs.Spelling.{if_there};
ghost use Rattle.pts_rules.specs.Known as known;
ghost use Rattle.pts_rules.specs.Mistyped as spec;
ghost use Rattle.pts_kinds.specs.Shown.{sources};

use crate::numbers::{is_number, is_place};
use pts_rules::{Meaning, Scope, Signature};
use pts_tree::{Cell, Name, Op, Range};
use pts_types::Kind;

/// The kind of an array's elements; None for any other name.
pub fn kind_of_array(scope: &Scope, name: &Name) -> Option<Kind>
    ensures { result ≡ known.kind_of_array scope.now name.now }
{
    match scope.meaning(name)? {
        Meaning::Array(kind, _) => Some(*kind),
        _ => None,
    }
}

/// The kind of a view; None for any other name.
pub fn kind_of_view(scope: &Scope, name: &Name) -> Option<Kind>
    ensures { result ≡ known.view_of scope.now name.now }
{
    match scope.meaning(name)? {
        Meaning::View(kind) => Some(*kind),
        _ => None,
    }
}

/// The signature of a function; None for any other name.
pub fn function_of<'a>(scope: &'a Scope, name: &Name) -> Option<&'a Signature>
    ensures { option_copied result ≡ known.function_of scope.now name.now }
{
    match scope.meaning(name)? {
        Meaning::Function(signature) => Some(signature),
        _ => None,
    }
}

fn takes(params: &[Kind], first: Option<Kind>, second: Option<Kind>) -> bool
    ensures { result ≡ spec.same_kinds (sources first second) params.now }
{
    match (first, second) {
        (Some(first), Some(second)) => params == [first, second].as_slice(),
        (Some(only), None) | (None, Some(only)) => params == [only].as_slice(),
        (None, None) => params.is_empty(),
    }
}

/// Whether the name is a function of values of the kinds that are there, which gives one of kind `to`.
pub fn function_right(
    scope: &Scope,
    first: Option<Kind>,
    second: Option<Kind>,
    to: Kind,
    name: &Name,
) -> bool
    ensures { result ≡ spec.function_right scope.now (sources first second) to name.now }
{
    match function_of(scope, name) {
        Some(function) => takes(function.params.as_slice(), first, second) && to == function.kind,
        None => false,
    }
}

/// Whether an operation goes from two values of the kind to one of it.
pub fn op_right(scope: &Scope, kind: Kind, op: &Op) -> bool
    ensures { result ≡ spec.op_right scope.now kind op.now }
{
    match op {
        Op::Table(_) => is_number(kind),
        Op::Name(name) => function_right(scope, Some(kind), Some(kind), kind, name),
    }
}

/// Whether a range is one of an array, with ends that are places.
pub fn range_right(scope: &Scope, range: &Range) -> bool
    ensures { result ≡ spec.range_right scope.now range.now }
{
    kind_of_array(scope, &range.array).is_some()
        && is_place(scope, &range.low)
        && is_place(scope, &range.high)
}

/// Whether a cell is one of an array whose elements have the kind.
pub fn cell_right(scope: &Scope, kind: Kind, cell: &Cell) -> bool
    ensures { result ≡ spec.cell_right scope.now kind cell.now }
{
    kind_of_array(scope, &cell.array) == Some(kind) && is_place(scope, &cell.index)
}
