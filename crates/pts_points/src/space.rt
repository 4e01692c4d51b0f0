//! How the index of a loop runs.

ghost use Rattle.std.specs.Prelude.{◌≡◌, ◌≤ℤ◌, IfOk};
ghost use Rattle.pts_types.specs.Arithmetic.{least_i64, greatest_i64};
ghost use Rattle.pts_points.specs.Lines as spec;
ghost use Rattle.pts_points.specs.Building.{IsKept};

use pts_limits::{loop_positions, number, step_of};
use pts_rules::Scope;
use pts_tree::{Loop, Name};
use std::alloc::{AllocError, Global};

/// The index of a loop and the numbers that it takes: `first`, and at each further position `step` more. No index, and one
/// position, for an assignment of a block.
#[derive(Debug, Drop)]
pub struct IterationSpace {
    pub index: Option<Name>,
    pub first: i64,
    pub step: i64,
    pub positions: u128,
}

/// Where there is no loop.
pub fn no_loop() -> IterationSpace
    ensures { result ≡ spec.no_loop }
{
    IterationSpace {
        index: None,
        first: 0,
        step: 0,
        positions: 1,
    }
}

fn word(z: i128) -> i64
    requires low { least_i64 ≤ℤ z }
    requires high { z ≤ℤ greatest_i64 }
    ensures { result ≡ z }
{
    z as i64
}

/// The numbers that the index of a loop takes.
pub fn space_of(alloc: Global, scope: &Scope, x: &Loop) -> Result<IterationSpace, AllocError>
    requires { IsKept (spec.space_of scope.now x.now) }
    ensures { IfOk result (λ space. space ≡ spec.space_of scope.now x.now) }
{
    Ok(IterationSpace {
        index: Some(Name::new(x.index.as_str().to_string(alloc)?)),
        first: word(number(scope, &x.low)),
        step: word(step_of(scope, &x.step)),
        positions: loop_positions(scope, x),
    })
}
