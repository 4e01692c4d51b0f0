//! A loop as it runs.

use pts_code::Codes;
use pts_lowering::LoweredLoop;
use pts_points::PointInfo;
use pts_program::ArrayInfo;
use pts_steps::Step;
use pts_tree::Loop;

/// A loop of a program: its text without constants, its head in numbers, what its points compute, and how the lists of the program
/// show them; and the arrays and functions of the program.
#[derive(Clone, Copy)]
pub(crate) struct Run<'a> {
    /// Its number among the calls.
    pub call: u32,
    pub text: &'a Loop,
    pub head: &'a LoweredLoop,
    /// A step for each point.
    pub steps: &'a [Step],
    pub points: &'a [PointInfo],
    /// The number of its first point in its item.
    pub first_point: u32,
    pub arrays: &'a [ArrayInfo],
    pub functions: &'a Codes,
}
