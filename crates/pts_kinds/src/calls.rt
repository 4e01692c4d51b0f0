//! Calls of algorithms.

ghost use Rattle.std.specs.Prelude.{◌≡◌, option_to_list};
ghost use Rattle.pts_tree.specs.Spelling.{if_there};
ghost use Rattle.pts_rules.specs.Known as known;
ghost use Rattle.pts_rules.specs.Mistyped as spec;

use crate::names::{cell_right, function_of, function_right, kind_of_array, op_right, range_right};
use crate::numbers::optional_val_fits;
use pts_rules::Scope;
use pts_tree::{Call, CallForm, Cell, Name, Op, Range};
use pts_types::Kind;

fn optional_range_right(scope: &Scope, range: &Option<Range>) -> bool
    ensures { result ≡ if_there (spec.range_right scope.now) range.now }
{
    match range {
        Some(range) => range_right(scope, range),
        None => true,
    }
}

// The kind of a range's elements.
fn kind_of_range(scope: &Scope, range: &Option<Range>) -> Option<Kind>
    ensures { option_to_list result ≡ spec.range_kinds scope.now range.now }
{
    match range {
        Some(range) => kind_of_array(scope, &range.array),
        None => None,
    }
}

// Whether a function goes from what the call reads to this kind.
fn function_fits(scope: &Scope, call: &Call, kind: Kind, name: &Name) -> bool
    ensures { result ≡ spec.function_right scope.now (spec.source_kinds scope.now call.now) kind name.now }
{
    let first = kind_of_array(scope, &call.first.array);
    let second = kind_of_range(scope, &call.second);
    function_right(scope, first, second, kind, name)
}

fn applies_to(scope: &Scope, kind: Kind, call: &Call) -> bool
    ensures { result ≡ spec.applies_to scope.now kind call.now }
{
    match &call.function {
        Some(name) => function_fits(scope, call, kind, name),
        None => false,
    }
}

fn optional_function_fits(scope: &Scope, call: &Call, kind: Kind) -> bool
    ensures { result ≡ if_there (spec.function_right scope.now (spec.source_kinds scope.now call.now) kind) call.now.function }
{
    match &call.function {
        Some(name) => function_fits(scope, call, kind, name),
        None => true,
    }
}

fn optional_op_right(scope: &Scope, kind: Kind, op: &Option<Op>) -> bool
    ensures { result ≡ if_there (spec.op_right scope.now kind) op.now }
{
    match op {
        Some(op) => op_right(scope, kind, op),
        None => true,
    }
}

fn target_right(scope: &Scope, kind: Kind, target: &Option<Range>) -> bool
    ensures { result ≡ spec.target_right scope.now kind target.now }
{
    match target {
        Some(range) => kind_of_array(scope, &range.array) == Some(kind),
        None => true,
    }
}

fn store_right(scope: &Scope, kind: Kind, store: &Option<Cell>) -> bool
    ensures { result ≡ if_there (spec.cell_right scope.now kind) store.now }
{
    match store {
        Some(cell) => cell_right(scope, kind, cell),
        None => true,
    }
}

fn for_each_right(scope: &Scope, call: &Call) -> bool
    ensures { result ≡ known.has (λ kind. spec.applies_to scope.now kind call.now) (known.kind_of_array scope.now call.now.first.array) }
{
    match kind_of_array(scope, &call.first.array) {
        Some(kind) => applies_to(scope, kind, call),
        None => false,
    }
}

fn transform_right(scope: &Scope, call: &Call) -> bool
    ensures { result ≡ if_there (λ r. known.has (λ kind. spec.applies_to scope.now kind call.now) (known.kind_of_array scope.now r.array)) call.now.target }
{
    match &call.target {
        Some(range) => match kind_of_array(scope, &range.array) {
            Some(kind) => applies_to(scope, kind, call),
            None => false,
        },
        None => true,
    }
}

fn search_right(scope: &Scope, call: &Call) -> bool
    ensures { result ≡ spec.search_right scope.now call.now }
{
    applies_to(scope, Kind::Bool, call) && store_right(scope, Kind::U64, &call.store)
}

/// The kind of a sum or a scan: what its function gives, or that of its elements; None where there is no such function or array.
pub fn sum_kind(scope: &Scope, call: &Call) -> Option<Kind>
    ensures { result ≡ spec.sum_kind scope.now call.now }
{
    match &call.function {
        Some(name) => Some(function_of(scope, name)?.kind),
        None => kind_of_array(scope, &call.first.array),
    }
}

fn parts_right(scope: &Scope, call: &Call, kind: Kind) -> bool
    ensures { result ≡ spec.sum_right scope.now call.now kind }
{
    optional_function_fits(scope, call, kind)
        && optional_val_fits(scope, kind, &call.init)
        && optional_op_right(scope, kind, &call.op)
        && target_right(scope, kind, &call.target)
        && store_right(scope, kind, &call.store)
}

fn sum_right(scope: &Scope, call: &Call) -> bool
    ensures { result ≡ known.has (spec.sum_right scope.now call.now) (spec.sum_kind scope.now call.now) }
{
    match sum_kind(scope, call) {
        Some(kind) => parts_right(scope, call, kind),
        None => false,
    }
}

fn form_right(scope: &Scope, call: &Call) -> bool
    ensures { result ≡ spec.form_right call.now.form scope.now call.now }
{
    match call.form {
        CallForm::ForEach => for_each_right(scope, call),
        CallForm::Transform => transform_right(scope, call),
        CallForm::FindIf | CallForm::CountIf => search_right(scope, call),
        _ => sum_right(scope, call),
    }
}

/// Whether the ranges, the function, the values and the cell of a call are right.
pub fn call_right(scope: &Scope, call: &Call) -> bool
    ensures { result ≡ spec.call_right scope.now call.now }
{
    range_right(scope, &call.first)
        && optional_range_right(scope, &call.second)
        && optional_range_right(scope, &call.target)
        && form_right(scope, call)
}
