//! Calls.

ghost use Rattle.std.specs.Prelude.{◌≡◌, IfOk, option_map};
ghost use Rattle.pts_constants.specs.Resolved as spec;

use crate::sums::{copy_name, resolve_cell, resolve_range, resolve_val};
use pts_rules::Scope;
use pts_tree::{Call, Cell, Name, Op, Range, Val};
use std::alloc::{AllocError, Global};

/// The same operation.
pub fn copy_op(alloc: Global, op: &Op) -> Result<Op, AllocError>
    ensures { IfOk result (λ y. y ≡ op.now) }
{
    match op {
        Op::Table(op) => Ok(Op::Table(*op)),
        Op::Name(name) => Ok(Op::Name(copy_name(alloc, name)?)),
    }
}

fn copy_optional_op(alloc: Global, op: &Option<Op>) -> Result<Option<Op>, AllocError>
    ensures { IfOk result (λ y. y ≡ op.now) }
{
    match op {
        Some(op) => Ok(Some(copy_op(alloc, op)?)),
        None => Ok(None),
    }
}

fn copy_function(alloc: Global, function: &Option<Name>) -> Result<Option<Name>, AllocError>
    ensures { IfOk result (λ y. y ≡ function.now) }
{
    match function {
        Some(name) => Ok(Some(copy_name(alloc, name)?)),
        None => Ok(None),
    }
}

fn resolve_optional_range(
    alloc: Global,
    scope: &Scope,
    range: &Option<Range>,
) -> Result<Option<Range>, AllocError>
    ensures { IfOk result (λ y. y ≡ option_map (spec.resolved_range scope.now) range.now) }
{
    match range {
        Some(range) => Ok(Some(resolve_range(alloc, scope, range)?)),
        None => Ok(None),
    }
}

/// A value where there is one.
pub fn resolve_optional_val(alloc: Global, scope: &Scope, val: &Option<Val>) -> Option<Val>
    ensures { result ≡ option_map (spec.resolved_val scope.now) val.now }
{
    match val {
        Some(val) => Some(resolve_val(alloc, scope, val)),
        None => None,
    }
}

fn resolve_store(
    alloc: Global,
    scope: &Scope,
    store: &Option<Cell>,
) -> Result<Option<Cell>, AllocError>
    ensures { IfOk result (λ y. y ≡ option_map (spec.resolved_cell scope.now) store.now) }
{
    match store {
        Some(cell) => Ok(Some(resolve_cell(alloc, scope, cell)?)),
        None => Ok(None),
    }
}

/// A call with numbers in place of its sums. Its operation, function and arrays keep their names.
pub fn resolve_call(alloc: Global, scope: &Scope, call: &Call) -> Result<Call, AllocError>
    ensures { IfOk result (λ y. y ≡ spec.resolved_call scope.now call.now) }
{
    Ok(Call {
        form: call.form,
        policy: call.policy,
        first: resolve_range(alloc, scope, &call.first)?,
        second: resolve_optional_range(alloc, scope, &call.second)?,
        target: resolve_optional_range(alloc, scope, &call.target)?,
        init: resolve_optional_val(alloc, scope, &call.init),
        op: copy_optional_op(alloc, &call.op)?,
        function: copy_function(alloc, &call.function)?,
        store: resolve_store(alloc, scope, &call.store)?,
    })
}
