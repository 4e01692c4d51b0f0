//! Kernels that fill a slice, each place from the same place of others.

ghost use Rattle.std.specs.Prelude.{◌≡◌, length};
ghost use Rattle.pts_lanes.specs.Kernels.{GivesNumbers, IsComparison, chosen, number_under, pairwise, truth_under};

use crate::operations::{as_numbers, number, numbers, truth, truths};
use crate::strips::{Filling, fill_strips};
use pts_types::ScalarOp;
use std::simd::prelude::*;

/// At each place the operation on the numbers there. The operation is `Minus` or one of the seven of a reduction.
pub fn map2_u64(op: ScalarOp, xs: &[u64], ys: &[u64], out: &mut [u64])
    requires operation { GivesNumbers op }
    requires lengths { (length xs.now ≡ length out.old) × (length ys.now ≡ length out.old) }
    ensures { out.new ≡ pairwise (number_under op) xs.now ys.now }
{
    fill_strips(&Numbers { op, xs, ys }, out);
}

/// At each place the comparison of the numbers there.
pub fn compare_u64(op: ScalarOp, xs: &[u64], ys: &[u64], out: &mut [bool])
    requires operation { IsComparison op }
    requires lengths { (length xs.now ≡ length out.old) × (length ys.now ≡ length out.old) }
    ensures { out.new ≡ pairwise (truth_under op) xs.now ys.now }
{
    fill_strips(&Truths { op, xs, ys }, out);
}

/// At each place the number of `xs` where the mask is true, and else that of `ys`.
pub fn select_u64(mask: &[bool], xs: &[u64], ys: &[u64], out: &mut [u64])
    requires lengths { (length mask.now ≡ length out.old) × (length xs.now ≡ length out.old) × (length ys.now ≡ length out.old) }
    ensures { out.new ≡ chosen mask.now xs.now ys.now }
{
    fill_strips(&Choice { mask, xs, ys }, out);
}

#[derive(Drop)]
struct Numbers<'a> {
    op: ScalarOp,
    xs: &'a [u64],
    ys: &'a [u64],
}

impl Filling for Numbers<'_> {
    type Out = u64;

    ghost condition = { λ k. GivesNumbers k.op × (length k.xs.now ≡ length k.ys.now) };

    ghost places = { λ k. length k.ys.now };

    ghost answer = { λ k. pairwise (number_under k.op) k.xs.now k.ys.now };

    #[inline(always)]
    fn eight(&self, at: usize, out: &mut [u64]) {
        let xs = u64x8::from_slice(&self.xs[at..]);
        let ys = u64x8::from_slice(&self.ys[at..]);
        numbers(self.op, xs, ys).copy_to_slice(out);
    }

    #[inline(always)]
    fn one(&self, at: usize) -> u64 {
        number(self.op, self.xs[at], self.ys[at])
    }
}

#[derive(Drop)]
struct Truths<'a> {
    op: ScalarOp,
    xs: &'a [u64],
    ys: &'a [u64],
}

impl Filling for Truths<'_> {
    type Out = bool;

    ghost condition = { λ k. IsComparison k.op × (length k.xs.now ≡ length k.ys.now) };

    ghost places = { λ k. length k.ys.now };

    ghost answer = { λ k. pairwise (truth_under k.op) k.xs.now k.ys.now };

    #[inline(always)]
    fn eight(&self, at: usize, out: &mut [bool]) {
        let xs = u64x8::from_slice(&self.xs[at..]);
        let ys = u64x8::from_slice(&self.ys[at..]);
        let lanes = truths(self.op, xs, ys).to_array();
        out[0] = lanes[0] == 1;
        out[1] = lanes[1] == 1;
        out[2] = lanes[2] == 1;
        out[3] = lanes[3] == 1;
        out[4] = lanes[4] == 1;
        out[5] = lanes[5] == 1;
        out[6] = lanes[6] == 1;
        out[7] = lanes[7] == 1;
    }

    #[inline(always)]
    fn one(&self, at: usize) -> bool {
        truth(self.op, self.xs[at], self.ys[at])
    }
}

#[derive(Drop)]
struct Choice<'a> {
    mask: &'a [bool],
    xs: &'a [u64],
    ys: &'a [u64],
}

impl Filling for Choice<'_> {
    type Out = u64;

    ghost condition = { λ k. (length k.mask.now ≡ length k.ys.now) × (length k.xs.now ≡ length k.ys.now) };

    ghost places = { λ k. length k.ys.now };

    ghost answer = { λ k. chosen k.mask.now k.xs.now k.ys.now };

    #[inline(always)]
    fn eight(&self, at: usize, out: &mut [u64]) {
        let xs = u64x8::from_slice(&self.xs[at..]);
        let ys = u64x8::from_slice(&self.ys[at..]);
        let holds = as_numbers(self.mask, at).simd_eq(u64x8::splat(1));
        holds.select(xs, ys).copy_to_slice(out);
    }

    #[inline(always)]
    fn one(&self, at: usize) -> u64 {
        if self.mask[at] {
            self.xs[at]
        } else {
            self.ys[at]
        }
    }
}
