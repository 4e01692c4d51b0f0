//! The first rule that an item breaks.

ghost use Rattle.std.specs.Option.{option_or};
ghost use Rattle.std.specs.Prelude.{◌≡◌, List, IfOk, OnOk};
ghost use Rattle.pts_tree.specs.declared.script.Item.{Item as ItemTree};
ghost use Rattle.pts_program.specs.Faults.{first_fault};
ghost use Rattle.pts_program.specs.Findings as spec;
ghost use Rattle.pts_program.specs.Findings.{IsVerdict};
ghost use Rattle.pts_program.specs.Standings.{IsAcceptable, IsStanding};

use crate::fault::BuildFault;
use crate::standing::Standing;
use pts_bounds::{first_out, is_not_affine};
use pts_kinds::is_right;
use pts_limits::{
    has_backward_range, has_bad_identity, has_bad_step, is_too_deep, is_too_many, lengths_differ,
};
use pts_names::{declares_twice, uses_unknown};
use pts_rules::Scope;
use pts_tree::Item;
use pts_types::NoMemory;
use std::alloc::Global;

fn name_fault(
    alloc: Global,
    scope: &mut Scope,
    number: u32,
    item: &Item,
) -> Result<Option<BuildFault>, NoMemory>
    ensures answer { IfOk result (λ fault. fault ≡ first_fault number (spec.name_rules scope.old item.now)) }
    ensures same { OnOk result (scope.new ≡ scope.old) }
{
    if uses_unknown(alloc, scope, item)? {
        return Ok(Some(BuildFault::Unknown(number)));
    }
    if declares_twice(alloc, scope, item)? {
        return Ok(Some(BuildFault::Twice(number)));
    }
    if !is_right(alloc, scope, item)? {
        return Ok(Some(BuildFault::Mistyped(number)));
    }
    Ok(None)
}

fn limit_fault(standing: &Standing, number: u32, item: &Item) -> Option<BuildFault>
    ensures { result ≡ first_fault number (spec.limit_rules standing.now item.now) }
{
    if is_too_deep(&standing.scope, item) {
        Some(BuildFault::TooDeep(number))
    } else if is_too_many(&standing.scope, standing.statements, standing.cells, item) {
        Some(BuildFault::TooMany(number))
    } else {
        None
    }
}

fn step_fault(scope: &Scope, number: u32, item: &Item) -> Option<BuildFault>
    ensures { result ≡ first_fault number (spec.step_rules scope.now item.now) }
{
    if has_bad_step(scope, item) {
        Some(BuildFault::BadStep(number))
    } else if has_backward_range(scope, item) {
        Some(BuildFault::BackwardRange(number))
    } else if lengths_differ(scope, item) {
        Some(BuildFault::LengthsDiffer(number))
    } else if has_bad_identity(scope, item) {
        Some(BuildFault::BadIdentity(number))
    } else if is_not_affine(scope, item) {
        Some(BuildFault::NotAffine(number))
    } else {
        None
    }
}

fn later_fault(standing: &Standing, number: u32, item: &Item) -> Option<BuildFault>
    ensures { result ≡ option_or (first_fault number (spec.limit_rules standing.now item.now)) (first_fault number (spec.step_rules standing.now.scope item.now)) }
{
    match limit_fault(standing, number, item) {
        Some(fault) => Some(fault),
        None => step_fault(&standing.scope, number, item),
    }
}

#[tactic(auto, using(crate::proofs::Findings::later))]
fn tested_fault(
    alloc: Global,
    standing: &mut Standing,
    number: u32,
    item: &Item,
) -> Result<Option<BuildFault>, NoMemory>
    ensures answer { IfOk result (λ fault. fault ≡ spec.tested_fault standing.old number item.now) }
    ensures same { OnOk result (standing.new ≡ standing.old) }
{
    match name_fault(alloc, &mut standing.scope, number, item)? {
        Some(fault) => Ok(Some(fault)),
        None => Ok(later_fault(standing, number, item)),
    }
}

/// Whether an item breaks no rule; else the fault that names the first one. `standing` stays as it was.
pub fn check_item(
    alloc: Global,
    standing: &mut Standing,
    number: u32,
    item: &Item,
) -> Result<(), BuildFault>
    ensures verdict { (before : List ItemTree) → IsStanding before standing.old → IsVerdict before item.now number result }
    ensures acceptable { OnOk result (IsAcceptable standing.old item.now) }
    ensures same { OnOk result (standing.new ≡ standing.old) }
{
    let found = tested_fault(alloc, standing, number, item)?;
    if let Some(fault) = found {
        return Err(fault);
    }
    if let Some(position) = first_out(&standing.scope, item) {
        return Err(BuildFault::OutOfRange {
            item: number,
            position,
        });
    }
    Ok(())
}
