//! The operations on two numbers, and on eight pairs of numbers at once.

ghost use Rattle.std.specs.Prelude.{◌≡◌, ◌+◌, ◌≤◌, if◌then◌else◌, length, map};
ghost use Rattle.std.specs.Simd.Lanes.{chunk, zip2};
ghost use Rattle.pts_types.specs.Arithmetic.{number_of};
ghost use Rattle.pts_lanes.specs.Kernels.{GivesNumbers, IsComparison, number_under, truth_under};

use pts_types::ScalarOp;
use std::simd::prelude::*;

#[inline(always)]
pub(crate) fn number(op: ScalarOp, x: u64, y: u64) -> u64
    requires { GivesNumbers op }
    ensures { result ≡ number_under op x y }
{
    match op {
        ScalarOp::Plus => x.wrapping_add(y),
        ScalarOp::Minus => x.wrapping_sub(y),
        ScalarOp::Multiplies => x.wrapping_mul(y),
        ScalarOp::BitAnd => x & y,
        ScalarOp::BitOr => x | y,
        ScalarOp::BitXor => x ^ y,
        ScalarOp::Min => x.min(y),
        ScalarOp::Max => x.max(y),
        _ => unreachable!(),
    }
}

#[inline(always)]
pub(crate) fn numbers(op: ScalarOp, x: u64x8, y: u64x8) -> u64x8
    requires { GivesNumbers op }
    ensures { result ≡ zip2 (number_under op) x y }
{
    match op {
        ScalarOp::Plus => x + y,
        ScalarOp::Minus => x - y,
        ScalarOp::Multiplies => x * y,
        ScalarOp::BitAnd => x & y,
        ScalarOp::BitOr => x | y,
        ScalarOp::BitXor => x ^ y,
        ScalarOp::Min => x.simd_min(y),
        ScalarOp::Max => x.simd_max(y),
        _ => unreachable!(),
    }
}

#[inline(always)]
pub(crate) fn truth(op: ScalarOp, x: u64, y: u64) -> bool
    requires { IsComparison op }
    ensures { result ≡ truth_under op x y }
{
    match op {
        ScalarOp::Less => x < y,
        ScalarOp::LessEqual => x <= y,
        ScalarOp::Greater => x > y,
        ScalarOp::GreaterEqual => x >= y,
        ScalarOp::Equal => x == y,
        ScalarOp::NotEqual => x != y,
        _ => unreachable!(),
    }
}

// 1 in each lane where the comparison holds, and 0 in the others.
#[inline(always)]
pub(crate) fn truths(op: ScalarOp, x: u64x8, y: u64x8) -> u64x8
    requires { IsComparison op }
    ensures { result ≡ zip2 (λ m n. if truth_under op m n then 1 else 0) x y }
{
    let holds = match op {
        ScalarOp::Less => x.simd_lt(y),
        ScalarOp::LessEqual => x.simd_le(y),
        ScalarOp::Greater => x.simd_gt(y),
        ScalarOp::GreaterEqual => x.simd_ge(y),
        ScalarOp::Equal => x.simd_eq(y),
        ScalarOp::NotEqual => x.simd_ne(y),
        _ => unreachable!(),
    };
    holds.select(u64x8::splat(1), u64x8::splat(0))
}

// 1 for each true of eight truths, and 0 for each false.
#[inline(always)]
pub(crate) fn as_numbers(truths: &[bool], at: usize) -> u64x8
    requires { at + 8 ≤ length truths.now }
    ensures { result ≡ map number_of (chunk at 8 truths.now) }
{
    u64x8::from_array([
        u64::from(truths[at]),
        u64::from(truths[at + 1]),
        u64::from(truths[at + 2]),
        u64::from(truths[at + 3]),
        u64::from(truths[at + 4]),
        u64::from(truths[at + 5]),
        u64::from(truths[at + 6]),
        u64::from(truths[at + 7]),
    ])
}
