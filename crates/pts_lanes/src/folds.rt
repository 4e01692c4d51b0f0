//! Kernels that fold a slice into a value.

ghost use Rattle.std.specs.Prelude.{◌≡◌, count_by, fold};
ghost use Rattle.pts_types.specs.Arithmetic.{IsReduction, sum_u64};
ghost use Rattle.pts_types.specs.declared.operation.ScalarOp.{ScalarOp};
ghost use Rattle.pts_lanes.specs.Kernels.{extremes_of, number_under};
ghost use Rattle.pts_lanes.specs.Lanes.{Enclose, StandFor, counted, widened};

use crate::operations::{as_numbers, number, numbers};
use crate::strips::{Folding, Stepping, fold_rest, fold_strips};
use pts_types::{ScalarOp, u64_operations_are_associative, u64_operations_are_commutative};
use std::simd::prelude::*;

/// The left fold of one of the seven operations of a reduction over the numbers, from `init` on.
pub fn fold_u64(op: ScalarOp, init: u64, xs: &[u64]) -> u64
    requires { IsReduction op }
    ensures { result ≡ fold (number_under op) init xs.now }
{
    fold_strips(&Reduction { op }, init, xs)
}

/// How many of the truths are true.
pub fn count_true(xs: &[bool]) -> usize
    ensures { result ≡ count_by (λ b. b) xs.now }
{
    fold_strips(&Count, 0, xs) as usize
}

/// The least and the greatest of the numbers. None exactly where there are none.
pub fn min_max_i64(xs: &[i64]) -> Option<(i64, i64)>
    ensures { result ≡ extremes_of xs.now }
{
    match xs {
        [] => None,
        [first, rest @ ..] => Some(fold_strips(&Extremes, (*first, *first), rest)),
    }
}

#[derive(Drop)]
struct Reduction {
    op: ScalarOp,
}

impl Stepping<u64> for Reduction {
    type Value = u64;

    ghost condition = { λ k. IsReduction k.op };

    ghost step = { λ k value item. number_under k.op value item };

    #[inline(always)]
    fn one(&self, value: u64, item: &u64) -> u64 {
        number(self.op, value, *item)
    }
}

impl Folding<u64> for Reduction {
    type Lanes = u64x8;

    ghost stand_for = { λ k lanes items. StandFor (number_under k.op) (number_under k.op) lanes items };

    #[inline(always)]
    fn load(&self, items: &[u64], at: usize) -> u64x8 {
        u64x8::from_slice(&items[at..])
    }

    #[inline(always)]
    fn join(&self, lanes: u64x8, more: u64x8) -> u64x8 {
        u64_operations_are_associative();
        u64_operations_are_commutative();
        numbers(self.op, lanes, more)
    }

    #[inline(always)]
    fn total(&self, value: u64, lanes: u64x8) -> u64 {
        fold_rest(self, value, &lanes.to_array())
    }
}

#[derive(Drop)]
struct Count;

impl Stepping<bool> for Count {
    type Value = u64;

    ghost condition = { λ k. Unit {0} };

    ghost step = { λ k value item. counted value item };

    #[inline(always)]
    fn one(&self, value: u64, item: &bool) -> u64 {
        value.wrapping_add(u64::from(*item))
    }
}

impl Folding<bool> for Count {
    type Lanes = u64x8;

    ghost stand_for = { λ k lanes items. StandFor sum_u64 counted lanes items };

    #[inline(always)]
    fn load(&self, items: &[bool], at: usize) -> u64x8 {
        as_numbers(items, at)
    }

    #[inline(always)]
    fn join(&self, lanes: u64x8, more: u64x8) -> u64x8 {
        u64_operations_are_associative();
        u64_operations_are_commutative();
        lanes + more
    }

    #[inline(always)]
    fn total(&self, value: u64, lanes: u64x8) -> u64 {
        let plus = Reduction { op: ScalarOp::Plus };
        fold_rest(&plus, value, &lanes.to_array())
    }
}

#[derive(Drop)]
struct Extremes;

impl Stepping<i64> for Extremes {
    type Value = (i64, i64);

    ghost condition = { λ k. Unit {0} };

    ghost step = { λ k ends item. widened ends item };

    #[inline(always)]
    fn one(&self, ends: (i64, i64), item: &i64) -> (i64, i64) {
        (ends.0.min(*item), ends.1.max(*item))
    }
}

impl Folding<i64> for Extremes {
    type Lanes = (i64x8, i64x8);

    ghost stand_for = { λ k lanes items. Enclose lanes items };

    #[inline(always)]
    fn load(&self, items: &[i64], at: usize) -> (i64x8, i64x8) {
        let lanes = i64x8::from_array([
            items[at],
            items[at + 1],
            items[at + 2],
            items[at + 3],
            items[at + 4],
            items[at + 5],
            items[at + 6],
            items[at + 7],
        ]);
        (lanes, lanes)
    }

    #[inline(always)]
    fn join(&self, lanes: (i64x8, i64x8), more: (i64x8, i64x8)) -> (i64x8, i64x8) {
        (lanes.0.simd_min(more.0), lanes.1.simd_max(more.1))
    }

    #[inline(always)]
    fn total(&self, ends: (i64, i64), lanes: (i64x8, i64x8)) -> (i64, i64) {
        let least = fold_rest(self, ends, &lanes.0.to_array());
        let greatest = fold_rest(self, ends, &lanes.1.to_array());
        (least.0, greatest.1)
    }
}
