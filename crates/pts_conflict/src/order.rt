//! The order of evaluations across positions.

ghost use Rattle.std.specs.Prelude.{◌≡◌, ℕ, drop};
ghost use Rattle.pts_points.specs.Standings.{Ascends};
ghost use Rattle.pts_conflict.specs.Conflicts as conflicts;
ghost use Rattle.pts_conflict.specs.Order as spec;

use crate::points::is_live_out;
use pts_points::{Branch, PointInfo};
use pts_types::Policy;

// How many tests the lists begin with in common, which decide nothing.
#[tactic(auto, using(crate::proofs::Opposites::step_both))]
fn common_tests(first: &[Branch], second: &[Branch]) -> usize
    requires first { (n : ℕ) × Ascends 0 first.now n }
    requires second { (n : ℕ) × Ascends 0 second.now n }
    ensures { spec.are_opposite (drop result first.now) (drop result second.now) ≡ spec.are_opposite first.now second.now }
{
    let few = first.len().min(second.len());
    for i in 0..few {
        if first[i].test != second[i].test || first[i].taken != second[i].taken {
            return i;
        }
    }
    few
}

/// Whether two points stand in opposite branches of one `if`, by one pass over both lists of tests, which ascend.
#[tactic(auto, using(crate::proofs::Opposites::step_first, crate::proofs::Opposites::step_second, crate::proofs::Opposites::step_both, crate::proofs::Opposites::stops, crate::proofs::Opposites::ends_first, crate::proofs::Opposites::ends_second))]
pub fn are_opposite(first: &[Branch], second: &[Branch]) -> bool
    requires first { (n : ℕ) × Ascends 0 first.now n }
    requires second { (n : ℕ) × Ascends 0 second.now n }
    ensures { result ≡ spec.are_opposite first.now second.now }
{
    let mut i = common_tests(first, second);
    let mut j = i;
    while i < first.len() && j < second.len() {
        if first[i].test < second[j].test {
            i += 1;
        } else if second[j].test < first[i].test {
            j += 1;
        } else if first[i].taken != second[j].taken {
            return true;
        } else {
            i += 1;
            j += 1;
        }
    }
    false
}

fn share_off(first: Option<u32>, second: Option<u32>) -> bool
    ensures { result ≡ spec.share_off first second }
{
    match (first, second) {
        (Some(m), Some(n)) => m == n,
        _ => false,
    }
}

fn is_before_in_wave(a: &PointInfo, b: &PointInfo) -> bool
    requires first { Ascends 0 a.now.branches a.now.number }
    requires second { Ascends 0 b.now.branches b.now.number }
    ensures { result ≡ spec.is_before_in_wave a.now b.now }
{
    if a.number < b.number && !are_opposite(a.branches.as_slice(), b.branches.as_slice()) {
        return true;
    }
    share_off(a.off, b.off)
}

fn is_before_across(policy: Policy, is_loop: bool, a: &PointInfo, b: &PointInfo) -> bool
    requires first { Ascends 0 a.now.branches a.now.number }
    requires second { Ascends 0 b.now.branches b.now.number }
    ensures { result ≡ spec.is_before_across policy is_loop a.now b.now }
{
    match policy {
        Policy::Seq => true,
        Policy::Vector => is_loop && is_before_in_wave(a, b),
        _ => false,
    }
}

/// Whether point `a` at a position is before point `b` at a later one; the cell of a clause is before nothing and behind nothing.
pub fn are_ordered(policy: Policy, is_loop: bool, a: &PointInfo, b: &PointInfo) -> bool
    requires first { Ascends 0 a.now.branches a.now.number }
    requires second { Ascends 0 b.now.branches b.now.number }
    ensures { result ≡ conflicts.are_ordered policy is_loop a.now b.now }
{
    if is_live_out(a.form) || is_live_out(b.form) {
        return false;
    }
    is_before_across(policy, is_loop, a, b)
}
