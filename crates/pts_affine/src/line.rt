//! Lines of cells, and their least meetings.

ghost use Rattle.std.specs.Prelude.{◌≡◌, ℕ, ◌<◌, ◌↔◌, MatchOption, false};
ghost use Rattle.pts_affine.specs.Equations.{IsSmall, IsWanted, Solves, place};
ghost use Rattle.pts_affine.specs.Lines.{IsBounded, IsLeast, Meets, MeetsAfter};

use crate::equation::{Equation, least_pair};

/// The cells `c * p + d` at the positions p below `n`.
#[derive(Clone, Copy, Debug, PartialEq, Eq, Hash)]
pub struct Line {
    pub c: i64,
    pub d: i64,
    pub n: u32,
}

/// The least (p, q), by p and then by q, at which position p of `x` and position q of `y` are at the same cell, and None
/// exactly where there is no such pair. Each line has at most 1,048,576 positions, whose cells lie in 0 to 1,048,575, and `c`
/// is 0 where it has at most one. The number of steps grows with the logarithm of the factors, and not with the positions.
pub fn meet(x: Line, y: Line) -> Option<(u32, u32)>
    requires x { IsBounded x }
    requires y { IsBounded y }
    ensures { MatchOption result ((p q : ℕ) → ¬ Meets x y p q) (λ pair. IsLeast (Meets x y) pair.0 pair.1) }
{
    least_meeting(x, y, false)
}

/// The same as `meet` among the pairs in which p is less than q.
pub fn meet_after(x: Line, y: Line) -> Option<(u32, u32)>
    requires x { IsBounded x }
    requires y { IsBounded y }
    ensures { MatchOption result ((p q : ℕ) → ¬ MeetsAfter x y p q) (λ pair. IsLeast (MeetsAfter x y) pair.0 pair.1) }
{
    least_meeting(x, y, true)
}

fn least_meeting(x: Line, y: Line, after: bool) -> Option<(u32, u32)>
    requires x { IsBounded x }
    requires y { IsBounded y }
    ensures { MatchOption result ((p q : ℕ) → ¬ IsWanted after x y p q) (λ pair. IsLeast (IsWanted after x y) pair.0 pair.1) }
{
    if x.n == 0 || y.n == 0 {
        return None;
    }
    let e = equation(x, y, after);
    let (p, q) = least_pair(e)?;
    Some((p as u32, e.place(q) as u32))
}

// The equation of two lines as rising ones: two falling lines change sides, and where one alone falls, q counts from the end.
fn equation(x: Line, y: Line, after: bool) -> Equation
    requires x { IsBounded x }
    requires y { IsBounded y }
    requires first { 0 < x.n }
    requires second { 0 < y.n }
    ensures small { IsSmall result }
    ensures positions { result.m ≡ y.n }
    ensures straight { result.b ≡ 0 → result.turned ≡ false }
    ensures same { (p q : ℕ) → q < y.n → IsWanted after x y p q ↔ Solves result p (place result q) }
{
    let (a, b) = (x.c.unsigned_abs(), y.c.unsigned_abs());
    let (u, v) = (x.d.unsigned_abs(), y.d.unsigned_abs());
    let (n, m) = (u64::from(x.n), u64::from(y.n));
    let across = b * (m - 1);
    let e = Equation {
        a,
        u,
        n,
        b,
        v,
        m,
        after,
        turned: false,
    };
    if x.c < 0 {
        if y.c > 0 {
            Equation {
                u: v + across,
                v: u,
                turned: true,
                ..e
            }
        } else {
            Equation { u: v, v: u, ..e }
        }
    } else if y.c < 0 {
        Equation {
            u: u + across,
            turned: true,
            ..e
        }
    } else {
        e
    }
}
