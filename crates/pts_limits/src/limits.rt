//! The rules on depths, amounts, steps, ranges, lengths and identities, decided of an item in its scope.

ghost use Rattle.std.specs.Prelude.{◌≡◌};
ghost use Rattle.pts_rules.specs.Limits as limits;
ghost use Rattle.pts_rules.specs.Steps as steps;

use crate::blocks::{has_many_runs, nesting};
use crate::counting::points;
use crate::depths::depth_of;
use crate::numbers::number;
use crate::sizes::size_of;
use crate::statements::{StatementRule, some_breaks};
use crate::steps::list_differs;
use pts_rules::Scope;
use pts_tree::{ArrayDecl, FunctionDecl, Item};

/// Whether an item breaks TooDeep: a function or a block is more than 16 deep.
pub fn is_too_deep(scope: &Scope, item: &Item) -> bool
    ensures { result ≡ limits.is_too_deep scope.now item.now }
{
    match item {
        Item::Function(function) => depth_of(scope, &function.body) > 16,
        Item::Block(block) => nesting(block) > 16,
        Item::Const(_) => false,
        Item::Array(_) => false,
        Item::Call(_) => false,
        Item::Loop(_) => false,
        Item::Print(_) => false,
    }
}

fn has_many_cells(scope: &Scope, cells: u64, array: &ArrayDecl) -> bool
    ensures { result ≡ limits.has_many_cells scope.now cells array.now }
{
    let length = number(scope, &array.length).max(0).unsigned_abs();
    length + u128::from(cells) > 1 << 20
}

fn is_large(scope: &Scope, function: &FunctionDecl) -> bool
    ensures { result ≡ limits.is_large scope.now function.now }
{
    function.params.len() > 8 || size_of(scope, &function.body) > 65536
}

fn has_many(scope: &Scope, statements: usize, item: &Item) -> bool
    ensures { result ≡ limits.has_many scope.now statements item.now }
{
    statements >= 4096 || points(item) > 1024 || some_breaks(StatementRule::Length, scope, item)
}

/// Whether an item breaks TooMany, behind `statements` statements and with `cells` cells in the arrays of the scope.
pub fn is_too_many(scope: &Scope, statements: usize, cells: u64, item: &Item) -> bool
    ensures { result ≡ limits.is_too_many scope.now statements cells item.now }
{
    match item {
        Item::Const(_) => false,
        Item::Array(array) => has_many_cells(scope, cells, array),
        Item::Function(function) => is_large(scope, function),
        Item::Block(block) => has_many_runs(block) || has_many(scope, statements, item),
        Item::Call(_) => has_many(scope, statements, item),
        Item::Loop(_) => has_many(scope, statements, item),
        Item::Print(_) => has_many(scope, statements, item),
    }
}

/// Whether an item breaks BadStep: a loop's written step is 0 or leads away from its end.
pub fn has_bad_step(scope: &Scope, item: &Item) -> bool
    ensures { result ≡ steps.is_bad_step scope.now item.now }
{
    some_breaks(StatementRule::BadStep, scope, item)
}

/// Whether an item breaks BackwardRange: a range, or a loop without a step, ends before its start.
pub fn has_backward_range(scope: &Scope, item: &Item) -> bool
    ensures { result ≡ steps.is_backward_range scope.now item.now }
{
    some_breaks(StatementRule::BackwardRange, scope, item)
}

/// Whether an item breaks LengthsDiffer: a list is not as long as its array, or the ranges of a call differ in length.
pub fn lengths_differ(scope: &Scope, item: &Item) -> bool
    ensures { result ≡ steps.lengths_differ scope.now item.now }
{
    match item {
        Item::Array(array) => list_differs(scope, array),
        _ => some_breaks(StatementRule::LengthsDiffer, scope, item),
    }
}

/// Whether an item breaks BadIdentity: a clause with one of the seven operations has an identity, or one with a function
/// has none.
pub fn has_bad_identity(scope: &Scope, item: &Item) -> bool
    ensures { result ≡ steps.is_bad_identity scope.now item.now }
{
    some_breaks(StatementRule::BadIdentity, scope, item)
}
