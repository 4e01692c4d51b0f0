//! The exact values of sums.

ghost use Rattle.std.specs.Prelude.{◌≡◌, ◌+◌, ◌<◌, ◌^◌, fold, nat_abs, Some, IfSome};
ghost use Rattle.pts_rules.specs.Known as spec;

use crate::scope::Scope;
use pts_tree::{Atom, Sum, SumPart};

/// The number of an atom; None for a name that is no constant.
pub fn atom_value(scope: &Scope, atom: &Atom) -> Option<i128>
    ensures value { result ≡ spec.atom_value scope.now atom.now }
    ensures small { IfSome result (λ z. nat_abs z < 2 ^ 64) }
{
    match atom {
        Atom::Number(number) => Some(i128::from(*number)),
        Atom::Name(name) => scope.constant(name),
    }
}

fn signed(minus: bool, z: i128) -> i128
    requires { nat_abs z < 2 ^ 64 }
    ensures value { result ≡ spec.signed minus z }
    ensures small { nat_abs result < 2 ^ 64 }
{
    if minus { -z } else { z }
}

fn add_part(scope: &Scope, so_far: i128, part: &SumPart) -> Option<i128>
    requires { nat_abs so_far + 2 ^ 64 < 2 ^ 127 }
    ensures value { result ≡ spec.plus_part scope.now (Some so_far) part.now }
    ensures small { IfSome result (λ z. nat_abs z < nat_abs so_far + 2 ^ 64) }
{
    let value = atom_value(scope, &part.atom)?;
    Some(so_far + signed(part.minus, value))
}

#[tactic(auto, using(crate::proofs::SumParts::stops))]
fn add_parts(scope: &Scope, first: i128, parts: &[SumPart]) -> Option<i128>
    requires { nat_abs first < 2 ^ 64 }
    ensures { result ≡ fold (spec.plus_part scope.now) (Some first) parts.now }
{
    let mut total = first;
    for part in parts {
        total = add_part(scope, total, part)?;
    }
    Some(total)
}

/// The exact value of a sum, from left to right; None where one of its names is no constant.
#[tactic(auto, using(crate::proofs::SumParts::stays_none))]
pub fn sum_value(scope: &Scope, sum: &Sum) -> Option<i128>
    ensures { result ≡ spec.sum_value scope.now sum.now }
{
    let first = atom_value(scope, &sum.first)?;
    add_parts(scope, signed(sum.negative, first), sum.rest.as_slice())
}
