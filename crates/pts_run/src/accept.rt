//! Which scripts are run: those that break no rule and have no conflict, and whose statements are all built.

ghost use Rattle.std.specs.Prelude.{◌≡◌, Err, IfOk, None};
ghost use Rattle.pts_syntax.specs.Syntax.{IsSpelled};
ghost use Rattle.pts_program.specs.Faults.{IsSound};
ghost use Rattle.pts_program.specs.Lists.{lists_of};
ghost use Rattle.pts_eval.specs.Built.{first_later};
ghost use Rattle.pts_run.specs.declared.refusal.Refusal.{Refusal as Reason};
ghost use Rattle.pts_conflict.specs.Conflicts.{IsClear};
ghost use Rattle.pts_run.specs.Acceptance as spec;

use crate::refusal::{Conflict, Refusal};
use pts_conflict::{ClearFault, Cleared, Pair, clear};
use pts_eval::later;
use pts_program::{BuildFault, Program, build};
use pts_tree::{Item, Name, Script};
use std::alloc::{AllocError, Global};

/// Why there is no program.
#[derive(Debug, Drop)]
pub enum Rejection {
    Refused(Refusal),
    NoMemory,
}

impl From<BuildFault> for Rejection {
    ghost use Rattle.std.specs.Prelude.{◌≡◌};
    ghost use Rattle.pts_run.specs.Acceptance as spec;

    ghost from_gives = { λ fault rejection. rejection ≡ spec.rejection_of fault };

    fn from(fault: BuildFault) -> Self {
        match fault {
            BuildFault::NoMemory => Rejection::NoMemory,
            _ => Rejection::Refused(Refusal::Build(fault)),
        }
    }
}

impl From<AllocError> for Rejection {
    ghost use Rattle.std.specs.Prelude.{◌≡◌};
    ghost use Rattle.pts_run.specs.declared.accept.Rejection.TheVariants as rejections;

    ghost from_gives = { λ _ rejection. rejection ≡ rejections.NoMemory };

    fn from(_: AllocError) -> Self {
        Rejection::NoMemory
    }
}

// The name in the declaration of the array with this number; empty where there is no such array.
#[tactic(auto, using(crate::proofs::ArrayNames::turns))]
fn array_name(script: &Script, number: u32) -> &str
    ensures { result.now ≡ spec.array_name script.now number }
{
    let mut left = number;
    for item in script.items.as_slice() {
        if let Item::Array(array) = item {
            if left == 0 {
                return array.name.as_str();
            }
            left -= 1;
        }
    }
    ""
}

fn conflict_of(alloc: Global, script: &Script, pair: Pair) -> Result<Conflict, AllocError>
    ensures { IfOk result (λ conflict. (conflict.pair ≡ pair) × (conflict.array ≡ spec.array_name script.now pair.array)) }
{
    let name = array_name(script, pair.array).to_string(alloc)?;
    Ok(Conflict {
        array: Name::new(name),
        pair,
    })
}

// The program, if it has no conflict.
fn clear_program(alloc: Global, script: &Script, program: Program) -> Result<Cleared, Rejection>
    ensures cleared { IfOk result (λ cleared. (cleared ≡ program) × IsClear program) }
    ensures rejected { (reason : Reason) → result ≡ Err (Rejection.Refused reason) → spec.IsConflictOf script.now program reason }
{
    match clear(alloc, program) {
        Ok(cleared) => Ok(cleared),
        Err(ClearFault::Conflict(pair)) => {
            let conflict = conflict_of(alloc, script, pair)?;
            Err(Rejection::Refused(Refusal::Conflict(conflict)))
        }
        Err(ClearFault::NoMemory) => Err(Rejection::NoMemory),
    }
}

// The same of the program that a script makes which breaks no rule.
fn accept_program(alloc: Global, script: &Script, program: Program) -> Result<Cleared, Rejection>
    requires sound { IsSound script.now }
    requires made { program ≡ lists_of script.now }
    ensures accepted { IfOk result (spec.IsAccepted script.now) }
    ensures rejected { (reason : Reason) → result ≡ Err (Rejection.Refused reason) → spec.Rejects script.now reason }
    ensures not_run { (reason : Reason) → result ≡ Err (Rejection.Refused reason) → first_later program ≡ None → spec.RejectsRun script.now reason }
{
    clear_program(alloc, script, program)
}

/// The program of a script that breaks no rule and has no conflict, or why there is none.
pub fn accept(alloc: Global, script: &Script) -> Result<Cleared, Rejection>
    requires { IsSpelled script.now }
    ensures accepted { IfOk result (spec.IsAccepted script.now) }
    ensures rejected { (reason : Reason) → result ≡ Err (Rejection.Refused reason) → spec.Rejects script.now reason }
{
    let program = build(alloc, script)?;
    accept_program(alloc, script, program)
}

/// The same of a script that is run, all of whose statements are built, or why it is not run.
pub fn accept_to_run(alloc: Global, script: &Script) -> Result<Cleared, Rejection>
    requires { IsSpelled script.now }
    ensures accepted { IfOk result (spec.IsRunnable script.now) }
    ensures rejected { (reason : Reason) → result ≡ Err (Rejection.Refused reason) → spec.RejectsRun script.now reason }
{
    let program = build(alloc, script)?;
    match later(&program) {
        Some(item) => Err(Rejection::Refused(Refusal::Later(item))),
        None => accept_program(alloc, script, program),
    }
}
