//! First positions past the cells of an array.

ghost use Rattle.std.specs.Prelude.{◌≡◌, ◌≤◌, ◌^◌, ◌≤ℤ◌, ◌<ℤ◌, ◌*ℤ◌, nat_abs, pos};
ghost use Rattle.pts_bounds.specs.Affines.{line_of_index};
ghost use Rattle.pts_bounds.specs.Firsts as spec;
ghost use Rattle.pts_rules.specs.Indices as rules;

use crate::affine::Affine;

/// The numbers that an index takes: `first + p * step` at each of n positions p.
#[derive(Clone, Copy, Debug, PartialEq, Eq)]
pub struct Progression {
    pub first: i64,
    pub step: i64,
    pub n: u64,
}

pub fn sooner(x: Option<u64>, y: Option<u64>) -> Option<u64>
    ensures { result ≡ spec.sooner x y }
{
    match (x, y) {
        (Some(x), Some(y)) => Some(x.min(y)),
        (Some(x), None) => Some(x),
        (None, y) => y,
    }
}

// Of a range from low on and before high.
pub fn span_first(low: i128, high: i128, length: i64) -> Option<u64>
    requires { pos 0 ≤ℤ low }
    ensures { result ≡ spec.span_first low high length }
{
    if high <= i128::from(length) {
        None
    } else if low <= i128::from(length) {
        Some((i128::from(length) - low) as u64)
    } else {
        Some(0)
    }
}

// How far a line may go from cell d on.
fn room(c: i128, d: i128, length: i64) -> u64
    requires { (pos 0 ≤ℤ d) × (d <ℤ length) }
    ensures { result ≡ spec.room c d length }
{
    if c > 0 {
        (i128::from(length) - d - 1) as u64
    } else {
        d as u64
    }
}

fn first_past(pace: u128, far: u64, n: u64) -> Option<u64>
    ensures { result ≡ spec.first_past pace far n }
{
    if pace == 0 {
        return None;
    }
    let past = u128::from(far) / pace + 1;
    if past < u128::from(n) {
        Some(past as u64)
    } else {
        None
    }
}

// Of the cells c * p + d at each of n positions p.
pub fn first_off(c: i128, d: i128, n: u64, length: i64) -> Option<u64>
    ensures { result ≡ spec.first_off (record { c = c; d = d; n = n }) length }
{
    if n == 0 {
        None
    } else if 0 <= d && d < i128::from(length) {
        first_past(c.unsigned_abs(), room(c, d, length), n)
    } else {
        Some(0)
    }
}

fn scaled(factor: i64, number: i64) -> i128
    ensures value { result ≡ factor *ℤ number }
    ensures small { nat_abs result ≤ 2 ^ 126 }
{
    i128::from(factor) * i128::from(number)
}

fn slope(progression: Progression, index: Affine) -> i128
    ensures { result ≡ (rules.line_of progression.first progression.step progression.n (line_of_index index)).c }
{
    if progression.n <= 1 {
        0
    } else {
        scaled(index.factor, progression.step)
    }
}

fn start(progression: Progression, index: Affine) -> i128
    ensures { result ≡ (rules.line_of progression.first progression.step progression.n (line_of_index index)).d }
{
    if progression.n == 0 {
        0
    } else {
        scaled(index.factor, progression.first) + i128::from(index.offset)
    }
}

// Of an index that takes these numbers.
pub fn index_first(progression: Progression, index: Affine, length: i64) -> Option<u64>
    ensures { result ≡ spec.first_off (rules.line_of progression.first progression.step progression.n (line_of_index index)) length }
{
    first_off(
        slope(progression, index),
        start(progression, index),
        progression.n,
        length,
    )
}
